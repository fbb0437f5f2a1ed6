ghost use Rattle.std.specs.Prelude.{◌≤◌, All, IsTrue};
ghost use Rattle.rp_areas.specs.declared.gaps.Area.{Area};

use rp_areas::Area;
use rp_place::{New, PlaceFault, place, settle};
use std::alloc::Global;
use std::process::Abort;
use std::test::Fail;

const fn area(from: u64, span: u64, used: u64) -> Area {
    Area {
        from,
        span,
        anchor: None,
        used,
    }
}

const fn new(file: u16, need: u64, priority: i32) -> New {
    New {
        file,
        need,
        priority,
    }
}

fn are_used_within(areas: &[Area]) -> bool
    ensures { IsTrue result → All (λ (a : Area). a.used ≤ a.span) areas.now }
{
    for area in areas {
        if area.used > area.span {
            return false;
        }
    }
    true
}

/// Settles, and finds this threshold and these places.
fn expect_places(
    rt: &impl Abort,
    alloc: Global,
    areas: &[Area],
    news: &[New],
    free_slots: u16,
    threshold: i32,
    places: &[Option<u16>],
) {
    assert!(rt; areas.len() <= 65535 && are_used_within(areas));
    match settle(alloc, areas, news, free_slots) {
        Ok(placed) => {
            assert_eq!(rt; placed.threshold, threshold);
            assert_eq!(rt; placed.areas.as_slice(), places);
        }
        Err(fault) => assert!(rt; false, "{fault:?}"),
    }
}

/// Settles, and finds this fault.
fn expect_fault(
    rt: &impl Abort,
    alloc: Global,
    areas: &[Area],
    news: &[New],
    free_slots: u16,
    wanted: PlaceFault,
) {
    assert!(rt; areas.len() <= 65535 && are_used_within(areas));
    match settle(alloc, areas, news, free_slots) {
        Ok(placed) => assert!(rt; false, "{}", placed.threshold),
        Err(fault) => assert_eq!(rt; fault, wanted),
    }
}

#[test]
fn settles(rt: HostRuntime) {
    let alloc = rt.alloc();
    let room = [area(256, 7931, 0)];
    let two = [area(256, 4864, 0), area(7680, 8699, 0)];
    let same = [area(500, 10, 0), area(100, 10, 0)];
    let used = [area(256, 100, 95)];

    // the highest number is dropped, and one of 0 isn't
    expect_places(
        &rt,
        alloc,
        &room,
        &[new(0, 4096, 0), new(1, 4096, 10)],
        128,
        9,
        &[Some(0), None],
    );
    expect_fault(
        &rt,
        alloc,
        &room,
        &[new(0, 4096, 0), new(1, 4096, 0)],
        128,
        PlaceFault::Room {
            file: 1,
            need: 4096,
            largest: 3835,
        },
    );

    // the smaller area, of two as large the first on the disk, less what is used and was placed
    expect_places(
        &rt,
        alloc,
        &two,
        &[new(0, 2560, 0)],
        128,
        i32::MAX,
        &[Some(0)],
    );
    expect_places(
        &rt,
        alloc,
        &same,
        &[new(0, 6, 0), new(1, 5, 0)],
        128,
        i32::MAX,
        &[Some(1), Some(0)],
    );
    expect_fault(
        &rt,
        alloc,
        &used,
        &[new(0, 6, 0)],
        128,
        PlaceFault::Room {
            file: 0,
            need: 6,
            largest: 5,
        },
    );

    // the slots that are free
    expect_fault(
        &rt,
        alloc,
        &same,
        &[new(0, 2, 0), new(1, 2, 0)],
        1,
        PlaceFault::Slot { file: 1 },
    );
    expect_places(
        &rt,
        alloc,
        &same,
        &[new(0, 1, 0), new(1, 1, 7), new(2, 1, 3)],
        2,
        6,
        &[Some(1), None, Some(1)],
    );
}

#[test]
fn places_what_the_threshold_keeps(rt: HostRuntime) -> Result<(), Fail> {
    let areas = [area(256, 100, 95), area(512, 10, 0)];
    if !are_used_within(&areas) {
        return Err("areas")?;
    }
    let placed = place(
        rt.alloc(),
        &areas,
        &[new(0, 6, 1), new(1, 5, 0), new(2, 6, -1)],
        0,
    )?;
    assert_eq!(rt; placed.as_slice(), [None, Some(0), Some(1)].as_slice());
    Ok(())
}
