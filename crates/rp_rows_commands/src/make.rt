//! What `make` begins with: its input, and the image that it may be made on.
use rp_base::List;
use rp_disk::{Call, MemDisk};
use rp_io::{Content, Folders, MemSink, Sources};
use rp_make_command::make;
use rp_make_input::{Input, input_of};
use rp_make_room::{NoRoom, look, refuse_room};
use std::test::Fail;

// The expected bytes of the source were computed by another program.
#[test]
fn with_ample_memory_an_input_is_made(rt: HostRuntime) -> Result<(), Fail> {
    let Input {
        dirs,
        mut folders,
        mut sources,
        seed,
    } = input_of(rt.alloc(), 12)?;
    assert_eq!(rt; dirs.len(), 1);
    assert_eq!(rt; seed.0, [0, 0, 0, 0, 0, 0, 0, 0, 0, 0, 0, 0, 0, 0, 0, 12]);
    match folders.read(rt.alloc(), "make/part-011.conf", 4096)? {
        Content::Whole(bytes) => assert_eq!(rt;
            bytes.as_slice(),
            b"[Partition]\nType=linux-generic\nSizeMinBytes=5M\nWeight=100\n".as_slice()
        ),
        Content::More => assert!(rt; false),
    }
    assert_eq!(rt; sources.len("make.raw")?, 49_169);
    let mut first = [0; 4];
    sources.read("make.raw", 0, &mut first)?;
    assert_eq!(rt; first, [0x37, 0xfe, 0x1f, 0x2e]);
    let mut last = [0; 4];
    sources.read("make.raw", 49_165, &mut last)?;
    assert_eq!(rt; last, [0xb6, 0xeb, 0x08, 0xec]);
    Ok(())
}

#[test]
fn with_ample_memory_a_blank_image_has_room(rt: HostRuntime) -> Result<(), Fail> {
    let alloc = rt.alloc();
    let bytes = List::from_vec(vec![in alloc; 0; 68 * 512]?);
    let mut disk = MemDisk::new(alloc, bytes, List::new(alloc));
    assert!(rt; matches!(look(alloc, &mut disk), Ok(34_816)));
    Ok(())
}

#[test]
fn an_image_that_is_too_long_is_told(rt: HostRuntime) {
    let alloc = rt.alloc();
    let mut out = MemSink::new(alloc, List::new(alloc));
    let cause = NoRoom::Length { len: 1_073_741_825 };
    assert_eq!(rt; refuse_room(&mut out, &cause), 4);
    assert_eq!(rt; out.bytes(), b"error 4 MakeLength 1073741825\n".as_slice());
}

// The disk passes seven calls: the sync, those that read the blank image, and none of its growth.
#[test]
fn with_ample_memory_make_goes_on_to_the_growth(rt: HostRuntime) -> Result<(), Fail> {
    let alloc = rt.alloc();
    let bytes = List::from_vec(vec![in alloc; 0; 68 * 512]?);
    let mut disk = MemDisk::fused(alloc, bytes, 7);
    let mut out = MemSink::new(alloc, List::new(alloc));
    assert_eq!(rt; make(alloc, 100, &mut disk, &mut out), 7);
    assert_eq!(rt; out.bytes(), b"error 7 disk\n".as_slice());
    assert!(rt; matches!(disk.calls(), [Call::Sync]));
    assert_eq!(rt; disk.bytes().len(), 34_816);
    Ok(())
}
