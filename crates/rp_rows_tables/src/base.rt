use rp_base::{Guid, List, Row, Table, Text};
use std::test::Fail;

const ESP: Row = Row {
    slot: 0,
    kind: Guid([0; 16]),
    id: Guid([1; 16]),
    start: 2048,
    size: 8,
    attrs: 0,
    name: [0; 36],
};

#[test]
fn with_ample_memory_each_call_succeeds(rt: HostRuntime) -> Result<(), Fail> {
    let text = Text::from_str(rt.alloc(), "EFI")?;
    assert_eq!(rt; text.as_str(), "EFI");
    let mut rows = List::new(rt.alloc());
    rows.push(ESP)?;
    rows.as_mut_slice()[0].slot = 3;
    let table = Table {
        sector: 512,
        entries: 128,
        disk: Guid([2; 16]),
        first: 34,
        last: 94,
        rows,
    };
    let copy = table.copy(rt.alloc())?;
    assert_eq!(rt; copy.disk, table.disk);
    assert_eq!(rt; copy.rows.len(), 1);
    assert_eq!(rt; copy.rows.as_slice()[0].slot, 3);
    Ok(())
}
