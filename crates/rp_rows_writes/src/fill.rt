use rp_base::{List, Text};
use rp_disk::MemDisk;
use rp_fill::{copy_source, write_zeros};
use rp_io::{MemSources, Stored};
use std::test::Fail;

#[test]
fn zeros_and_a_source(rt: HostRuntime) -> Result<(), Fail> {
    let alloc = rt.alloc();
    let bytes = List::from_vec([9u8; 8].to_vec(alloc)?);
    let mut disk = MemDisk::new(alloc, bytes, List::new(alloc));
    let mut files = List::new(alloc);
    files.push(Stored {
        path: Text::from_str(alloc, "a")?,
        bytes: List::from_vec([1u8, 2, 3].to_vec(alloc)?),
    })?;
    let mut sources = MemSources::new(files, List::new(alloc));
    let mut room = vec![in alloc; 0u8; 262_144]?;
    assert!(rt; write_zeros(&mut disk, 1, 2, &mut room).is_ok());
    assert!(rt; copy_source(&mut disk, &mut sources, "a", 4, 3, &mut room).is_ok());
    assert_eq!(rt; disk.bytes(), [9, 0, 0, 9, 1, 2, 3, 9].as_slice());
    assert_eq!(rt; disk.writes(), 2);
    assert!(rt; copy_source(&mut disk, &mut sources, "a", 4, 4, &mut room).is_err());
    assert_eq!(rt; disk.writes(), 2);
    Ok(())
}
