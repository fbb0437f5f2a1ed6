ghost use Rattle.std.specs.Prelude.{◌≡◌, [], replicate};

use rp_base::{Guid, List, Mbr, Origin, Plan, Seen, Table};
use rp_steps::{Step, steps_of, writes_of};
use std::alloc::Global;
use std::test::Fail;

// A table without rows on 64 MiB.
fn no_rows(alloc: Global) -> Table
    ensures { result ≡ record { sector = 512; entries = 128; disk = record { 0 = replicate 16 7 }; first = 2048; last = 131038; rows = [] } }
{
    Table {
        sector: 512,
        entries: 128,
        disk: Guid([7; 16]),
        first: 2048,
        last: 131_038,
        rows: List::new(alloc),
    }
}

#[test]
fn a_new_table(rt: HostRuntime) -> Result<(), Fail> {
    let alloc = rt.alloc();
    let shown = no_rows(alloc);
    let seen = Seen {
        sectors: 131_072,
        shown,
        origin: Origin::Neither,
        primary_same: false,
        backup_same: false,
        mbr: Mbr::Differs,
    };
    let goal = no_rows(alloc);
    let plan = Plan {
        target: 131_072,
        goal,
        notes: List::new(alloc),
        dropped: List::new(alloc),
        threshold: 0,
    };
    let steps = steps_of(alloc, &plan, &seen)?;
    assert_eq!(rt; steps.len(), 14);
    assert_eq!(rt; steps.as_slice()[0], Step::CloseBackup);
    assert_eq!(rt; writes_of(steps.as_slice()), 7);
    Ok(())
}
