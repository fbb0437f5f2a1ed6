use rp_base::List;
use rp_disk::MemDisk;
use rp_dissect_command::dissect;
use rp_io::MemSink;
use rp_types::Arch;
use std::alloc::{AllocError, Global};
use std::test::Fail;

// The images have 72 sectors, so LBA 34 to 38 are usable. The headers and all checksums were made by another program,
// with zlib's crc32; the checksums are zeros here.
const SECTORS: usize = 72;

const PRIMARY: [u8; 92] = [
    0x45, 0x46, 0x49, 0x20, 0x50, 0x41, 0x52, 0x54, 0x00, 0x00, 0x01, 0x00, 0x5c, 0x00, 0x00, 0x00,
    0x00, 0x00, 0x00, 0x00, 0x00, 0x00, 0x00, 0x00, 0x01, 0x00, 0x00, 0x00, 0x00, 0x00, 0x00, 0x00,
    0x47, 0x00, 0x00, 0x00, 0x00, 0x00, 0x00, 0x00, 0x22, 0x00, 0x00, 0x00, 0x00, 0x00, 0x00, 0x00,
    0x26, 0x00, 0x00, 0x00, 0x00, 0x00, 0x00, 0x00, 0xaa, 0xaa, 0xaa, 0xaa, 0xaa, 0xaa, 0xaa, 0xaa,
    0xaa, 0xaa, 0xaa, 0xaa, 0xaa, 0xaa, 0xaa, 0xaa, 0x02, 0x00, 0x00, 0x00, 0x00, 0x00, 0x00, 0x00,
    0x80, 0x00, 0x00, 0x00, 0x80, 0x00, 0x00, 0x00, 0x00, 0x00, 0x00, 0x00,
];

const BACKUP: [u8; 92] = [
    0x45, 0x46, 0x49, 0x20, 0x50, 0x41, 0x52, 0x54, 0x00, 0x00, 0x01, 0x00, 0x5c, 0x00, 0x00, 0x00,
    0x00, 0x00, 0x00, 0x00, 0x00, 0x00, 0x00, 0x00, 0x47, 0x00, 0x00, 0x00, 0x00, 0x00, 0x00, 0x00,
    0x01, 0x00, 0x00, 0x00, 0x00, 0x00, 0x00, 0x00, 0x22, 0x00, 0x00, 0x00, 0x00, 0x00, 0x00, 0x00,
    0x26, 0x00, 0x00, 0x00, 0x00, 0x00, 0x00, 0x00, 0xaa, 0xaa, 0xaa, 0xaa, 0xaa, 0xaa, 0xaa, 0xaa,
    0xaa, 0xaa, 0xaa, 0xaa, 0xaa, 0xaa, 0xaa, 0xaa, 0x27, 0x00, 0x00, 0x00, 0x00, 0x00, 0x00, 0x00,
    0x80, 0x00, 0x00, 0x00, 0x80, 0x00, 0x00, 0x00, 0x00, 0x00, 0x00, 0x00,
];

const ESP_TYPE: [u8; 16] = [
    0x28, 0x73, 0x2a, 0xc1, 0x1f, 0xf8, 0xd2, 0x11, 0xba, 0x4b, 0x00, 0xa0, 0xc9, 0x3e, 0xc9, 0x3b,
];

// Where the parts stand, in bytes.
const PRIMARY_HEADER: u16 = 512;

const PRIMARY_ARRAY: u16 = 1024;

const BACKUP_ARRAY: u16 = 39 * 512;

const BACKUP_HEADER: u16 = 71 * 512;

// A used entry: its slot, its first and its last LBA.
#[derive(Clone, Copy)]
struct Entry(u8, u8, u8);

// The checksums of the array, of the primary's header and of the backup's.
#[derive(Clone, Copy)]
struct Sums([u8; 4], [u8; 4], [u8; 4]);

const GOOD: Sums = Sums(
    [0xe0, 0xf1, 0xe0, 0xfa],
    [0x45, 0xa6, 0x11, 0x56],
    [0xc7, 0x64, 0x3e, 0x7e],
);

fn write_at(bytes: &mut [u8], at: usize, part: &[u8]) {
    for (to, from) in bytes.iter_mut().skip(at).zip(part) {
        *to = *from;
    }
}

fn write_header(bytes: &mut [u8], at: u16, header: &[u8], array_sum: &[u8], header_sum: &[u8]) {
    let at = usize::from(at);
    write_at(bytes, at, header);
    write_at(bytes, at + 16, header_sum);
    write_at(bytes, at + 88, array_sum);
}

fn write_entries(bytes: &mut [u8], at: u16, entries: &[Entry]) {
    for Entry(slot, first, last) in entries {
        let at = usize::from(at) + 128 * usize::from(*slot);
        write_at(bytes, at, &ESP_TYPE);
        write_at(bytes, at + 16, &[0x80 | *slot; 16]);
        write_at(bytes, at + 32, &[*first]);
        write_at(bytes, at + 40, &[*last]);
    }
}

// An image with the same entries in both copies.
fn image(alloc: Global, entries: &[Entry], sums: &Sums) -> Result<Vec<u8>, AllocError> {
    let mut bytes = vec![in alloc; 0; SECTORS * 512]?;
    write_header(&mut bytes, PRIMARY_HEADER, &PRIMARY, &sums.0, &sums.1);
    write_entries(&mut bytes, PRIMARY_ARRAY, entries);
    write_header(&mut bytes, BACKUP_HEADER, &BACKUP, &sums.0, &sums.2);
    write_entries(&mut bytes, BACKUP_ARRAY, entries);
    Ok(bytes)
}

fn good(alloc: Global) -> Result<Vec<u8>, AllocError> {
    image(alloc, &[Entry(0, 34, 35), Entry(3, 36, 38)], &GOOD)
}

// A text of a policy, what is printed of the good image, and the status.
const CASES: [(&str, &str, u8); 5] = [
    (
        "*",
        "root - absent\nusr - absent\nhome - absent\nsrv - absent\nesp 0 unprotected\nxbootldr - absent\nswap - absent\n\
        root-verity - absent\nroot-verity-sig - absent\nusr-verity - absent\nusr-verity-sig - absent\ntmp - absent\n\
        var - absent\nextra 3\n",
        0,
    ),
    ("esp=unprotected+growfs-on", "denied esp growfs\n", 6),
    ("root=unused+unused", "denied root absence\n", 6),
    (
        "home=absent+unused:esp=absent",
        "denied esp protection\n",
        6,
    ),
    ("root=fast", "error 6 policy 5 UnknownFlag\n", 6),
];

#[test]
fn with_ample_memory_verdicts_are_printed(rt: HostRuntime) -> Result<(), Fail> {
    let alloc = rt.alloc();
    for (policy, printed, status) in CASES {
        let mut disk = MemDisk::new(alloc, List::from_vec(good(alloc)?), List::new(alloc));
        let mut out = MemSink::new(alloc, List::new(alloc));
        let ended = dissect(alloc, policy, Arch::X86_64, 512, false, &mut disk, &mut out);
        assert_eq!(rt; ended, status);
        assert_eq!(rt; out.bytes(), printed.as_bytes());
    }
    Ok(())
}
