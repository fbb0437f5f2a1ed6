ghost use Rattle.std.specs.Prelude.{◌≡◌, ◌≤◌, ◌<◌, ◌+◌, ◌^◌, ◌⊎◌, All, AllPairs, IsTrue, IfOk, IfSome, length};
ghost use Rattle.rp_base.specs.declared.table.Row.{Row};
ghost use Rattle.rp_base.specs.Table.{IsLaidOut};
ghost use Rattle.rp_base.specs.Wants.{AreWants, IsWant};

use rp_areas::{Area, AreaFault, areas, assign};
use rp_base::{Guid, List, Row, Table, Want};
use std::alloc::Global;
use std::process::Abort;
use std::test::Fail;

const FIRST: u64 = 2048;

// A 64 MiB image's last usable unit.
const LAST: u64 = 131_038;

// A row's type, first unit and units, or a definition's type, minimum and minimum padding in grains.
type Line = (u8, u64, u64);

const fn free(from: u64, span: u64) -> Area {
    Area {
        from,
        span,
        anchor: None,
        used: 0,
    }
}

const fn anchor(from: u64, span: u64, file: u16, used: u64) -> Area {
    Area {
        from,
        span,
        anchor: Some(file),
        used,
    }
}

const fn existing(file: u16, need: u64, have: u64) -> AreaFault {
    AreaFault::Existing { file, need, have }
}

fn kind(byte: u8) -> Guid {
    Guid([byte; 16])
}

fn table(alloc: Global, last: u64, rows: &[Line]) -> Result<Table, Fail>
    ensures { IfOk result (λ table. table.last ≡ last) }
{
    let mut list = List::new(alloc);
    for (byte, start, size) in rows {
        list.push(Row {
            slot: 0,
            kind: kind(*byte),
            id: kind(0),
            start: *start,
            size: *size,
            attrs: 0,
            name: [0; 36],
        })?;
    }
    Ok(Table {
        sector: 512,
        entries: 128,
        disk: kind(0),
        first: FIRST,
        last,
        rows: list,
    })
}

fn is_within(first: u64, last: u64, row: &Row) -> bool
    ensures sized { IsTrue result → 1 ≤ row.now.size }
    ensures in_bounds { IsTrue result → (first ≤ row.now.start) × (row.now.start + row.now.size ≤ last + 1) }
{
    row.size >= 1 && first <= row.start && row.start <= last && row.size - 1 <= last - row.start
}

fn is_apart(a: &Row, b: &Row) -> bool
    ensures { IsTrue result → (a.now.start + a.now.size ≤ b.now.start) ⊎ (b.now.start + b.now.size ≤ a.now.start) }
{
    if a.start <= b.start {
        a.size <= b.start - a.start
    } else {
        b.size <= a.start - b.start
    }
}

fn all_within(first: u64, last: u64, rows: &[Row]) -> bool
    ensures sized { IsTrue result → All (λ (row : Row). 1 ≤ row.size) rows.now }
    ensures in_bounds { IsTrue result → All (λ (row : Row). (first ≤ row.start) × (row.start + row.size ≤ last + 1)) rows.now }
{
    for row in rows {
        if !is_within(first, last, row) {
            return false;
        }
    }
    true
}

fn all_apart(rows: &[Row], row: &Row) -> bool
    ensures { IsTrue result → All (λ (a : Row). (a.start + a.size ≤ row.now.start) ⊎ (row.now.start + row.now.size ≤ a.start)) rows.now }
{
    for other in rows {
        if !is_apart(other, row) {
            return false;
        }
    }
    true
}

fn are_apart(rows: &[Row]) -> bool
    ensures { IsTrue result → AllPairs (λ (a b : Row). (a.start + a.size ≤ b.start) ⊎ (b.start + b.size ≤ a.start)) rows.now }
{
    for (place, row) in rows.iter().enumerate() {
        if !all_apart(&rows[..place], row) {
            return false;
        }
    }
    true
}

fn is_laid_out(table: &Table) -> bool
    ensures { IsTrue result → IsLaidOut table.now }
{
    all_within(table.first, table.last, table.rows.as_slice()) && are_apart(table.rows.as_slice())
}

// The wants of the definitions, if they are in their bounds.
fn wants(alloc: Global, definitions: &[Line]) -> Result<Option<Vec<Want>>, Fail>
    ensures { IfOk result (λ wants. IfSome wants (λ w. (length w.items ≡ length definitions.now) × AreWants w.items)) }
{
    let mut wants = Vec::new(alloc);
    if definitions.len() > 256 {
        return Ok(None);
    }
    for (_, min, pad_min) in definitions {
        if *min >= 1 << 49 || *pad_min >= 1 << 49 {
            return Ok(None);
        }
        wants.push(Want {
            min: *min,
            max: 1 << 52,
            weight: 1000,
            pad_min: *pad_min,
            pad_max: 1 << 52,
            pad_weight: 0,
        })?;
    }
    Ok(Some(wants))
}

fn kinds(alloc: Global, definitions: &[Line]) -> Result<Vec<Guid>, Fail>
    ensures { IfOk result (λ kinds. length kinds.items ≡ length definitions.now) }
{
    let mut kinds = Vec::new(alloc);
    for (byte, _, _) in definitions {
        kinds.push(kind(*byte))?;
    }
    Ok(kinds)
}

fn areas_of(
    alloc: Global,
    last: u64,
    rows: &[Line],
    definitions: &[Line],
) -> Result<Result<List<Area>, AreaFault>, Fail> {
    let table = table(alloc, last, rows)?;
    let kinds = kinds(alloc, definitions)?;
    let wants = wants(alloc, definitions)?.ok_or("wants")?;
    if table.rows.len() > 65535 || !is_laid_out(&table) || last >= 1 << 35 {
        return Err("rows")?;
    }
    let matched = assign(alloc, &table, &kinds)?;
    Ok(areas(alloc, &table, last, matched.as_slice(), &wants))
}

// Finds these areas.
fn expect_areas(
    rt: &impl Abort,
    alloc: Global,
    last: u64,
    rows: &[Line],
    definitions: &[Line],
    wanted: &[Area],
) -> Result<(), Fail> {
    match areas_of(alloc, last, rows, definitions)? {
        Ok(found) => assert_eq!(rt; found.as_slice(), wanted),
        Err(fault) => assert!(rt; false, "{fault:?}"),
    }
    Ok(())
}

// Finds this fault.
fn expect_fault(
    rt: &impl Abort,
    alloc: Global,
    rows: &[Line],
    definitions: &[Line],
    wanted: AreaFault,
) -> Result<(), Fail> {
    match areas_of(alloc, LAST, rows, definitions)? {
        Ok(found) => assert!(rt; false, "{} areas", found.len()),
        Err(fault) => assert_eq!(rt; fault, wanted),
    }
    Ok(())
}

#[test]
fn rows_go_to_definitions_of_their_type_in_order(rt: HostRuntime) -> Result<(), Fail> {
    let alloc = rt.alloc();
    let table = table(
        alloc,
        LAST,
        &[
            (1, 2048, 8),
            (2, 2056, 8),
            (1, 2064, 8),
            (3, 2072, 8),
            (1, 2080, 8),
        ],
    )?;
    if table.rows.len() > 65535 {
        return Err("rows")?;
    }
    let kinds = [
        kind(1),
        kind(3),
        kind(1),
        kind(2),
        kind(4),
        kind(1),
        kind(1),
    ];
    let matched = assign(alloc, &table, &kinds)?;
    let wanted = [Some(0), Some(3), Some(2), Some(1), None, Some(4), None];
    assert_eq!(rt; matched.as_slice(), wanted.as_slice());
    Ok(())
}

#[test]
fn areas_of_rows(rt: HostRuntime) -> Result<(), Fail> {
    let alloc = rt.alloc();
    let long = [(1, 2048, 128_991)];
    let wide = [(1, 2560, 0)];

    // a row up to the end doesn't grow, and with more behind it the same row does
    expect_areas(
        &rt,
        alloc,
        LAST,
        &long,
        &wide,
        &[free(256, 0), free(16_380, 0)],
    )?;
    expect_areas(
        &rt,
        alloc,
        262_110,
        &long,
        &wide,
        &[free(256, 0), anchor(256, 32_507, 0, 16_124)],
    )?;

    // nor does one at an odd start, or one whose last grain reaches into the next row
    expect_areas(
        &rt,
        alloc,
        LAST,
        &[(1, 2049, 100_000)],
        &wide,
        &[free(256, 0), free(12_757, 3622)],
    )?;
    let touching = [(1, 2048, 9), (9, 2062, 2)];
    expect_areas(
        &rt,
        alloc,
        LAST,
        &touching,
        &[(1, 1, 0)],
        &[free(256, 0), free(258, 0), free(258, 16_121)],
    )?;

    // an anchor without room for its padding, and of two that can't stay the least file
    let short = [(1, 2048, 8192), (9, 10_240, 8)];
    expect_fault(
        &rt,
        alloc,
        &short,
        &[(1, 1, 1)],
        existing(0, 4_198_400, 4_194_304),
    )?;
    let odd = [(1, 4097, 8), (1, 2049, 9)];
    expect_fault(
        &rt,
        alloc,
        &odd,
        &[(1, 2560, 0), (1, 2560, 0)],
        existing(0, 10_485_760, 4096),
    )
}
