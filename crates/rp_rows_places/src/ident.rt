ghost use Rattle.std.specs.Prelude.{◌≡◌, IfOk, length};

use rp_base::{Guid, List, Row, Table};
use rp_ident::{IdentFault, Naming, name_rows};
use std::alloc::Global;
use std::test::Fail;

const LINUX: Guid = Guid([
    0x0f, 0xc6, 0x3d, 0xaf, 0x84, 0x83, 0x47, 0x72, 0x8e, 0x79, 0x3d, 0x69, 0xd8, 0x47, 0x7d, 0xe4,
]);

fn row(slot: u16) -> Row {
    Row {
        slot,
        kind: LINUX,
        id: Guid([0; 16]),
        start: 2048 + 8 * u64::from(slot),
        size: 8,
        attrs: 0,
        name: [0; 36],
    }
}

// A table of two rows of one type, without identifiers and names.
fn table(alloc: Global) -> Result<Table, Fail>
    ensures { IfOk result (λ table. length table.rows ≡ 2) }
{
    Ok(Table {
        sector: 512,
        entries: 128,
        disk: Guid([0; 16]),
        first: 34,
        last: 4095,
        rows: List::from_vec([row(0), row(1)].to_vec(alloc)?),
    })
}

fn naming(row: u16, fixed: Option<Guid>) -> Naming
    ensures { result.row ≡ row }
{
    Naming {
        row,
        file: row,
        label: [0x61; 36],
        fixed,
    }
}

// The identifiers of the seed 1, which another HMAC gave.
#[test]
fn names_two_rows(rt: HostRuntime) -> Result<(), Fail> {
    let mut seed = Guid([0; 16]);
    seed.0[15] = 1;
    let named = name_rows(
        table(rt.alloc())?,
        &[naming(0, None), naming(1, None)],
        seed,
    )?;
    assert_eq!(rt;
        hex::encode(rt.alloc(), &named.disk.0)?.as_str(),
        "5604b68e37df48a8a451502e27e8ed09"
    );
    let ids = [
        "0f6335f7f5f34f84b2b148862cde1d53",
        "aedfb21e6a454cbfa80f61b151a39a08",
    ];
    for (row, id) in named.rows.as_slice().iter().zip(ids) {
        assert_eq!(rt; hex::encode(rt.alloc(), &row.id.0)?.as_str(), id);
        assert_eq!(rt; row.name[35], 0x61);
    }
    Ok(())
}

#[test]
fn refuses_a_fixed_identifier_twice(rt: HostRuntime) -> Result<(), Fail> {
    let fixed = Some(Guid([7; 16]));
    let found = name_rows(
        table(rt.alloc())?,
        &[naming(0, fixed), naming(1, fixed)],
        Guid([0; 16]),
    );
    assert!(rt; matches!(found, Err(IdentFault::TakenIdentifier { file: 1 })));
    Ok(())
}
