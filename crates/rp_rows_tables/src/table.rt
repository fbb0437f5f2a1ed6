use rp_base::{List, Mbr, Origin};
use rp_disk::MemDisk;
use rp_table::{Empty, TableFault, read, read_at};
use std::alloc::{AllocError, Global};
use std::test::Fail;

// The images have 72 sectors, so LBA 34 to 38 are usable. The headers and all checksums were made by another program,
// with zlib's crc32; the checksums are zeros here.
const SECTORS: usize = 72;

const PRIMARY: [u8; 92] = [
    0x45, 0x46, 0x49, 0x20, 0x50, 0x41, 0x52, 0x54, 0x00, 0x00, 0x01, 0x00, 0x5c, 0x00, 0x00, 0x00,
    0x00, 0x00, 0x00, 0x00, 0x00, 0x00, 0x00, 0x00, 0x01, 0x00, 0x00, 0x00, 0x00, 0x00, 0x00, 0x00,
    0x47, 0x00, 0x00, 0x00, 0x00, 0x00, 0x00, 0x00, 0x22, 0x00, 0x00, 0x00, 0x00, 0x00, 0x00, 0x00,
    0x26, 0x00, 0x00, 0x00, 0x00, 0x00, 0x00, 0x00, 0xaa, 0xaa, 0xaa, 0xaa, 0xaa, 0xaa, 0xaa, 0xaa,
    0xaa, 0xaa, 0xaa, 0xaa, 0xaa, 0xaa, 0xaa, 0xaa, 0x02, 0x00, 0x00, 0x00, 0x00, 0x00, 0x00, 0x00,
    0x80, 0x00, 0x00, 0x00, 0x80, 0x00, 0x00, 0x00, 0x00, 0x00, 0x00, 0x00,
];

const BACKUP: [u8; 92] = [
    0x45, 0x46, 0x49, 0x20, 0x50, 0x41, 0x52, 0x54, 0x00, 0x00, 0x01, 0x00, 0x5c, 0x00, 0x00, 0x00,
    0x00, 0x00, 0x00, 0x00, 0x00, 0x00, 0x00, 0x00, 0x47, 0x00, 0x00, 0x00, 0x00, 0x00, 0x00, 0x00,
    0x01, 0x00, 0x00, 0x00, 0x00, 0x00, 0x00, 0x00, 0x22, 0x00, 0x00, 0x00, 0x00, 0x00, 0x00, 0x00,
    0x26, 0x00, 0x00, 0x00, 0x00, 0x00, 0x00, 0x00, 0xaa, 0xaa, 0xaa, 0xaa, 0xaa, 0xaa, 0xaa, 0xaa,
    0xaa, 0xaa, 0xaa, 0xaa, 0xaa, 0xaa, 0xaa, 0xaa, 0x27, 0x00, 0x00, 0x00, 0x00, 0x00, 0x00, 0x00,
    0x80, 0x00, 0x00, 0x00, 0x80, 0x00, 0x00, 0x00, 0x00, 0x00, 0x00, 0x00,
];

const ESP_TYPE: [u8; 16] = [
    0x28, 0x73, 0x2a, 0xc1, 0x1f, 0xf8, 0xd2, 0x11, 0xba, 0x4b, 0x00, 0xa0, 0xc9, 0x3e, 0xc9, 0x3b,
];

// Where the parts stand, in bytes.
const PRIMARY_HEADER: u16 = 512;

const PRIMARY_ARRAY: u16 = 1024;

const BACKUP_ARRAY: u16 = 39 * 512;

const BACKUP_HEADER: u16 = 71 * 512;

// A used entry: its slot, its first and its last LBA.
#[derive(Clone, Copy)]
struct Entry(u8, u8, u8);

// The checksums of the array, of the primary's header and of the backup's.
#[derive(Clone, Copy)]
struct Sums([u8; 4], [u8; 4], [u8; 4]);

const GOOD: Sums = Sums(
    [0xe0, 0xf1, 0xe0, 0xfa],
    [0x45, 0xa6, 0x11, 0x56],
    [0xc7, 0x64, 0x3e, 0x7e],
);

fn write_at(bytes: &mut [u8], at: usize, part: &[u8]) {
    for (to, from) in bytes.iter_mut().skip(at).zip(part) {
        *to = *from;
    }
}

fn write_header(bytes: &mut [u8], at: u16, header: &[u8], array_sum: &[u8], header_sum: &[u8]) {
    let at = usize::from(at);
    write_at(bytes, at, header);
    write_at(bytes, at + 16, header_sum);
    write_at(bytes, at + 88, array_sum);
}

fn write_entries(bytes: &mut [u8], at: u16, entries: &[Entry]) {
    for Entry(slot, first, last) in entries {
        let at = usize::from(at) + 128 * usize::from(*slot);
        write_at(bytes, at, &ESP_TYPE);
        write_at(bytes, at + 16, &[0x80 | *slot; 16]);
        write_at(bytes, at + 32, &[*first]);
        write_at(bytes, at + 40, &[*last]);
    }
}

// An image with the same entries in both copies.
fn image(alloc: Global, entries: &[Entry], sums: &Sums) -> Result<Vec<u8>, AllocError> {
    let mut bytes = vec![in alloc; 0; SECTORS * 512]?;
    write_header(&mut bytes, PRIMARY_HEADER, &PRIMARY, &sums.0, &sums.1);
    write_entries(&mut bytes, PRIMARY_ARRAY, entries);
    write_header(&mut bytes, BACKUP_HEADER, &BACKUP, &sums.0, &sums.2);
    write_entries(&mut bytes, BACKUP_ARRAY, entries);
    Ok(bytes)
}

fn good(alloc: Global) -> Result<Vec<u8>, AllocError> {
    image(alloc, &[Entry(0, 34, 35), Entry(3, 36, 38)], &GOOD)
}

type Answer = Result<(Origin, bool, bool, Mbr), TableFault>;

fn answer(alloc: Global, bytes: &[u8], empty: Empty) -> Result<Answer, AllocError> {
    let bytes = List::from_vec(bytes.to_vec(alloc)?);
    let mut disk = MemDisk::new(alloc, bytes, List::new(alloc));
    Ok(match read(alloc, &mut disk, empty) {
        Ok(seen) => Ok((seen.origin, seen.primary_same, seen.backup_same, seen.mbr)),
        Err(fault) => Err(fault),
    })
}

// Bytes at places of the good image, and what is seen then.
struct Case(&'static [(u16, &'static [u8])], Answer);

const CASES: [Case; 9] = [
    Case(&[], Ok((Origin::Primary, true, true, Mbr::Differs))),
    // No signature in the primary; a byte behind the backup's header; a partition of another table beside the good one.
    Case(
        &[(512, &[0x65])],
        Ok((Origin::Backup, false, true, Mbr::Differs)),
    ),
    Case(
        &[(BACKUP_HEADER + 92, &[1])],
        Ok((Origin::Primary, true, false, Mbr::Differs)),
    ),
    Case(
        &[(450, &[0x83]), (510, &[0x55, 0xaa])],
        Ok((Origin::Primary, true, true, Mbr::Foreign)),
    ),
    // A primary that can't be kept isn't passed over: the place of its array, and 127 entries.
    Case(
        &[(512 + 16, &[0x03, 0x9d, 0x76, 0x33]), (512 + 72, &[3])],
        Err(TableFault::ArrayPlace),
    ),
    Case(
        &[(512 + 16, &[0x20, 0xd7, 0x08, 0x60]), (512 + 80, &[127])],
        Err(TableFault::EntryCount {
            count: 127,
            size: 128,
        }),
    ),
    // Beside the good backup, a primary of 129 entries that don't have its checksum.
    Case(
        &[(512 + 16, &[0x2a, 0xea, 0xb4, 0xcd]), (512 + 80, &[129])],
        Err(TableFault::EntryCount {
            count: 129,
            size: 128,
        }),
    ),
    // The usable sectors.
    Case(
        &[(512 + 16, &[0x52, 0xa2, 0x44, 0xec]), (512 + 40, &[33])],
        Err(TableFault::Bounds {
            first: 33,
            last: 38,
        }),
    ),
    Case(
        &[(512 + 16, &[0x27, 0x9e, 0x39, 0x7c]), (512 + 48, &[39])],
        Err(TableFault::TooShort { len: 72 * 512 }),
    ),
];

#[test]
fn shows_the_first_copy_that_tells(rt: HostRuntime) -> Result<(), Fail> {
    let alloc = rt.alloc();
    for Case(patches, expected) in &CASES {
        let mut bytes = good(alloc)?;
        for (at, part) in *patches {
            write_at(&mut bytes, usize::from(*at), part);
        }
        assert_eq!(&rt; answer(alloc, &bytes, Empty::Allow)?, *expected);
    }
    assert_eq!(&rt;
        answer(alloc, &good(alloc)?, Empty::Require)?,
        Err(TableFault::NotEmpty)
    );
    Ok(())
}

// Slots 1 and 2 share a sector too, and come later than 0 and 5.
#[test]
fn refuses_rows(rt: HostRuntime) -> Result<(), Fail> {
    let alloc = rt.alloc();
    let outside = image(
        alloc,
        &[Entry(0, 34, 35), Entry(3, 36, 39)],
        &Sums(
            [0x6d, 0xdf, 0x32, 0xcd],
            [0xdb, 0xa1, 0x42, 0x70],
            [0x59, 0x63, 0x6d, 0x58],
        ),
    )?;
    let sharing = image(
        alloc,
        &[
            Entry(0, 37, 38),
            Entry(1, 34, 35),
            Entry(2, 35, 36),
            Entry(5, 38, 38),
        ],
        &Sums(
            [0xb6, 0xc6, 0x06, 0x07],
            [0xe5, 0xdf, 0x7b, 0x52],
            [0x67, 0x1d, 0x54, 0x7a],
        ),
    )?;
    for (bytes, fault) in [
        (&outside, TableFault::RowRange { slot: 3 }),
        (&sharing, TableFault::Overlap { a: 0, b: 5 }),
    ] {
        assert_eq!(&rt; answer(alloc, bytes, Empty::Refuse)?, Err(fault));
    }
    Ok(())
}

#[test]
fn takes_a_blank_image(rt: HostRuntime) -> Result<(), Fail> {
    let alloc = rt.alloc();
    // Both sizes of sectors, and the least length that holds the blank table.
    for (sector, len) in [(512, 2082 * 512), (4096, 262 * 4096)] {
        for (empty, bytes, fault) in [
            (Empty::Refuse, len, Some(TableFault::NoTable)),
            (Empty::Allow, len, None),
            (Empty::Require, len, None),
            (
                Empty::Allow,
                len - 4096,
                Some(TableFault::TooShort {
                    len: len as u64 - 4096,
                }),
            ),
        ] {
            let bytes = List::from_vec(vec![in alloc; 0; bytes]?);
            let mut disk = MemDisk::new(alloc, bytes, List::new(alloc));
            let seen = read_at(alloc, &mut disk, empty, sector);
            assert_eq!(&rt; seen.err(), fault);
        }
    }
    Ok(())
}

#[test]
fn passes_on_a_fault_of_the_disk(rt: HostRuntime) -> Result<(), Fail> {
    let alloc = rt.alloc();
    for failing in 1..7 {
        let bytes = List::from_vec(good(alloc)?);
        let fail = List::from_vec([failing].to_vec(alloc)?);
        let mut disk = MemDisk::new(alloc, bytes, fail);
        let fault = read(alloc, &mut disk, Empty::Refuse).err();
        assert_eq!(&rt; fault, Some(TableFault::Disk));
        assert_eq!(&rt; disk.calls().len(), 0);
    }
    Ok(())
}
