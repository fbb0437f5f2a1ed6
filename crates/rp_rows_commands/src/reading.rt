use rp_base::{List, Text};
use rp_io::{MemFolders, Stored};
use rp_reading::read_definitions;
use rp_types::Arch;
use std::test::Fail;

#[test]
fn with_ample_memory_definitions_are_read(rt: HostRuntime) -> Result<(), Fail> {
    let alloc = rt.alloc();
    let file = Stored {
        path: Text::from_str(alloc, "A/a.conf")?,
        bytes: List::from_vec(b"[Partition]\nType=esp\nWieght=1\n".to_vec(alloc)?),
    };
    let there = List::from_vec(vec![in alloc; Text::from_str(alloc, "A")?]?);
    let mut folders = MemFolders::new(
        there,
        List::from_vec(vec![in alloc; file]?),
        List::new(alloc),
    );
    let dirs = List::from_vec(vec![in alloc; Text::from_str(alloc, "A")?]?);
    match read_definitions(alloc, Arch::X86_64, dirs.as_slice(), &mut folders) {
        Ok(definitions) => {
            assert_eq!(rt; definitions.list.len(), 1);
            assert_eq!(rt; definitions.ignored, 1);
        }
        Err(_) => assert!(rt; false),
    }
    Ok(())
}
