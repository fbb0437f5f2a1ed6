use rp_base::{Failed, List};
use rp_disk::{Disk, MemDisk};
use std::alloc::{AllocError, Global};
use std::test::Fail;

fn disk_of(alloc: Global, bytes: &[u8], fail: &[u64]) -> Result<MemDisk, AllocError> {
    let bytes = List::from_vec(bytes.to_vec(alloc)?);
    let fail = List::from_vec(fail.to_vec(alloc)?);
    Ok(MemDisk::new(alloc, bytes, fail))
}

#[test]
fn each_call(rt: HostRuntime) -> Result<(), Fail> {
    let mut disk = disk_of(rt.alloc(), &[1, 2, 3, 4], &[])?;
    let mut buf = [0u8; 2];
    assert_eq!(rt; disk.len(), Ok(4));
    assert_eq!(rt; disk.write(3, &[7]), Ok(()));
    assert_eq!(rt; disk.read(2, &mut buf), Ok(()));
    assert_eq!(rt; buf, [3, 7]);
    assert_eq!(rt; disk.sync(), Ok(()));
    assert_eq!(rt; disk.set_len(6), Ok(()));
    assert_eq!(rt; disk.write(4, &[8, 9]), Ok(()));
    assert_eq!(rt; disk.write(5, &[8, 9]), Err(Failed));
    assert_eq!(rt; disk.read(5, &mut buf), Err(Failed));
    assert_eq!(rt; disk.set_len(5), Ok(()));
    assert_eq!(rt; disk.set_len(6), Ok(()));
    assert_eq!(rt; disk.bytes(), [1, 2, 3, 7, 8, 0].as_slice());
    assert_eq!(rt; disk.calls().len(), 7);
    assert_eq!(rt; disk.writes(), 3);
    assert_eq!(rt; disk.faults(), 2);
    assert_eq!(rt; disk.starved(), 0);
    Ok(())
}

fn step(disk: &mut MemDisk, number: usize) -> Result<(), Failed> {
    match number {
        0 => disk.write(0, &[9]),
        1 => disk.sync(),
        2 => disk.set_len(6),
        _ => disk.write(5, &[7, 7]),
    }
}

// A call that finds no memory is a fault of its own and changes nothing, and made again it is as if it came first.
#[test]
fn goes_on_where_memory_was_wanted(rt: HostRuntime) -> Result<(), Fail> {
    let mut disk = disk_of(rt.alloc(), &[1, 2, 3], &[])?;
    let mut wanted = 0u64;
    for number in 0..4 {
        let (calls, size) = (disk.calls().len(), disk.bytes().len());
        let answer = step(&mut disk, number);
        if disk.starved() != wanted {
            wanted = disk.starved();
            assert_eq!(rt; answer, Err(Failed));
            assert_eq!(rt; (disk.calls().len(), disk.bytes().len()), (calls, size));
            assert_eq!(rt; step(&mut disk, number).is_err(), number == 3);
        } else {
            assert_eq!(rt; answer.is_err(), number == 3);
        }
    }
    assert_eq!(rt; disk.faults(), disk.starved().saturating_add(1));
    assert_eq!(rt; disk.bytes(), [9, 2, 3, 0, 0, 0].as_slice());
    assert_eq!(rt; disk.calls().len(), 4);
    Ok(())
}
