ghost use Rattle.std.specs.Prelude.{◌≡◌, [], replicate};

use rp_apply::{Done, commit, prepare};
use rp_base::{Guid, List, Mbr, Origin, Plan, Seen, Table};
use rp_disk::MemDisk;
use rp_io::MemSources;
use std::alloc::Global;
use std::test::Fail;

// A table without rows on 64 MiB.
fn no_rows(alloc: Global) -> Table
    ensures { result ≡ record { sector = 512; entries = 128; disk = record { 0 = replicate 16 7 }; first = 2048; last = 131038; rows = [] } }
{
    Table {
        sector: 512,
        entries: 128,
        disk: Guid([7; 16]),
        first: 2048,
        last: 131_038,
        rows: List::new(alloc),
    }
}

#[test]
fn a_new_table(rt: HostRuntime) -> Result<(), Fail> {
    let alloc = rt.alloc();
    let shown = no_rows(alloc);
    let seen = Seen {
        sectors: 131_072,
        shown,
        origin: Origin::Neither,
        primary_same: false,
        backup_same: false,
        mbr: Mbr::Differs,
    };
    let goal = no_rows(alloc);
    let plan = Plan {
        target: 131_072,
        goal,
        notes: List::new(alloc),
        dropped: List::new(alloc),
        threshold: 0,
    };
    let ready = prepare(alloc, &plan, &seen, &[])?;
    assert_eq!(rt; ready.writes(), 7);
    assert_eq!(rt; ready.region().free(), 0);
    let bytes = List::from_vec(vec![in alloc; 0u8; 67_108_864]?);
    let mut disk = MemDisk::new(alloc, bytes, List::new(alloc));
    let mut sources = MemSources::new(List::new(alloc), List::new(alloc));
    let done = commit(ready, &mut disk, &mut sources);
    assert!(rt; done == Ok(Done { writes: 7 }));
    assert_eq!(rt; disk.writes(), 7);
    assert!(rt; disk.bytes().get(512..520) == Some(b"EFI PART".as_slice()));
    Ok(())
}
