ghost use Rattle.std.specs.Prelude.{◌≡◌, []};

use rp_areas::areas;
use rp_base::{Guid, List, Table, Want};
use rp_layout::{Spot, lay_out};
use rp_place::{New, settle};
use std::alloc::Global;
use std::test::Fail;

/// The last usable unit of a disk of 64 MiB.
const LAST: u64 = 131_038;

/// The table of a blank disk of 64 MiB.
fn blank(alloc: Global) -> Table
    ensures rows { result.rows ≡ [] }
    ensures first { result.first ≡ 2048 }
    ensures last { result.last ≡ LAST }
{
    Table {
        sector: 512,
        entries: 128,
        disk: Guid([0; 16]),
        first: 2048,
        last: LAST,
        rows: List::new(alloc),
    }
}

#[test]
fn shares_by_weight_up_to_a_maximum(rt: HostRuntime) -> Result<(), Fail> {
    let alloc = rt.alloc();
    let table = blank(alloc);
    let small = Want {
        min: 2560,
        max: 5120,
        weight: 1000,
        pad_min: 0,
        pad_max: 100_000,
        pad_weight: 0,
    };
    let large = Want {
        min: 2560,
        max: 100_000,
        weight: 1000,
        pad_min: 0,
        pad_max: 100_000,
        pad_weight: 0,
    };
    let first = New {
        file: 0,
        need: 2560,
        priority: 0,
    };
    let second = New {
        file: 1,
        need: 2560,
        priority: 0,
    };
    let (wants, matched, news) = ([small, large], [None, None], [first, second]);
    let areas = areas(alloc, &table, LAST, &matched, &wants)?;
    let kept = settle(alloc, areas.as_slice(), &news, 128)?;
    let spots = lay_out(
        alloc,
        &table,
        &matched,
        &wants,
        areas.as_slice(),
        &news,
        &kept,
    )?;
    let spot = |file, start, size| {
        Some(Spot {
            file,
            start,
            size,
            pad: 0,
        })
    };
    assert_eq!(rt;
        spots.as_slice(),
        [spot(0, 2048, 40_960), spot(1, 43_008, 88_024)].as_slice()
    );
    Ok(())
}
