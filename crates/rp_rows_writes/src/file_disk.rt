use rp_base::Failed;
use rp_disk::{Disk, FileDisk};
use std::fs;
use std::test::Fail;

// Four bytes from an offset on, none where the disk fails.
fn four_at<D: Disk>(disk: &mut D, at: u64) -> Option<[u8; 4]> {
    let mut buf = [0u8; 4];
    disk.read(at, &mut buf).ok()?;
    Some(buf)
}

#[test]
fn within_a_file(rt: HostRuntime) -> Result<(), Fail> {
    fs::write(
        &rt,
        "rp_disk-within.img",
        [1u8, 2, 3, 4, 5, 6, 7, 8].as_slice(),
    )?;
    let mut disk = FileDisk::open(&rt, "rp_disk-within.img");
    assert_eq!(rt; disk.write(5, &[9]), Ok(()));
    assert_eq!(rt; four_at(&mut disk, 0), Some([1, 2, 3, 4]));
    assert_eq!(rt; four_at(&mut disk, 4), Some([5, 9, 7, 8]));
    assert_eq!(rt; disk.sync(), Ok(()));
    assert_eq!(rt; disk.set_len(9), Ok(()));
    assert_eq!(rt; disk.len(), Ok(9));
    assert_eq!(rt; disk.faults(), 0);
    Ok(())
}

#[test]
fn past_the_end_of_a_file(rt: HostRuntime) -> Result<(), Fail> {
    fs::write(&rt, "rp_disk-past.img", [1u8, 2, 3, 4].as_slice())?;
    let mut disk = FileDisk::open(&rt, "rp_disk-past.img");
    assert_eq!(rt; four_at(&mut disk, 1), None);
    assert_eq!(rt; disk.read(5, &mut []), Err(Failed));
    assert_eq!(rt; disk.write(4, &[7]), Err(Failed));
    assert_eq!(rt; disk.write(u64::MAX, &[7]), Err(Failed));
    assert_eq!(rt; disk.len(), Ok(4));
    assert_eq!(rt; disk.faults(), 4);
    Ok(())
}

// Each of the five calls fails.
fn all_fail<D: Disk>(disk: &mut D) -> bool {
    disk.len().is_err()
        && disk.read(0, &mut []).is_err()
        && disk.write(0, &[]).is_err()
        && disk.sync().is_err()
        && disk.set_len(0).is_err()
}

#[test]
fn no_file_to_open(rt: HostRuntime) {
    for path in ["rp_disk-missing.img", ".", "", "no\0name"] {
        let mut disk = FileDisk::open(&rt, path);
        assert!(rt; all_fail(&mut disk), "{path:?}");
        assert_eq!(rt; disk.faults(), 5);
    }
    let mut disk = FileDisk::open(&rt, "/dev/null");
    assert_eq!(rt; disk.sync(), Err(Failed));
    assert_eq!(rt; disk.faults(), 1);
}

#[test]
fn for_reading_alone(rt: HostRuntime) -> Result<(), Fail> {
    fs::write(&rt, "rp_disk-read.img", [1u8, 2, 3, 4].as_slice())?;
    let mut disk = FileDisk::open_to_read(&rt, "rp_disk-read.img");
    assert_eq!(rt; four_at(&mut disk, 0), Some([1, 2, 3, 4]));
    assert_eq!(rt; disk.write(0, &[7]), Err(Failed));
    assert_eq!(rt; disk.sync(), Err(Failed));
    assert_eq!(rt; disk.set_len(0), Err(Failed));
    assert_eq!(rt; disk.len(), Ok(4));
    assert_eq!(rt; disk.faults(), 3);
    Ok(())
}
