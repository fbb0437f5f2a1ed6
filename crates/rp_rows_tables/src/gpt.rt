ghost use Rattle.std.specs.Prelude.{◌≡◌, ◌-◌, ◌^◌, ◌<◌, ◌≤◌, IfOk, length};
ghost use Rattle.rp_base.specs.Table.{IsWritable};

use rp_base::{Guid, Mbr, Table, least_sectors};
use rp_crc::Crc;
use rp_gpt::{
    CopyFault, Which, copy_bytes, decode_copy, encode_copy, foreign_type, is_exact, mbr_bytes,
    mbr_state, name_units,
};
use std::alloc::{AllocError, Global};
use std::process::Abort;
use std::test::Fail;

const DISK: Guid = Guid([
    0xaa, 0xaa, 0xaa, 0xaa, 0xbb, 0xbb, 0x4c, 0xcc, 0x8d, 0xdd, 0xee, 0xee, 0xee, 0xee, 0xee, 0xee,
]);

const ESP_TYPE: Guid = Guid([
    0xc1, 0x2a, 0x73, 0x28, 0xf8, 0x1f, 0x11, 0xd2, 0xba, 0x4b, 0x00, 0xa0, 0xc9, 0x3e, 0xc9, 0x3b,
]);

// The front of the entry of an ESP with the name EFI in LBA 2048 to 22527, and in LBA 256 to 5629; the rest is zeros.
const ESP: [u8; 64] = [
    0x28, 0x73, 0x2a, 0xc1, 0x1f, 0xf8, 0xd2, 0x11, 0xba, 0x4b, 0x00, 0xa0, 0xc9, 0x3e, 0xc9, 0x3b,
    0x11, 0x11, 0x11, 0x11, 0x22, 0x22, 0x33, 0x43, 0x84, 0x44, 0x55, 0x55, 0x55, 0x55, 0x55, 0x55,
    0x00, 0x08, 0x00, 0x00, 0x00, 0x00, 0x00, 0x00, 0xff, 0x57, 0x00, 0x00, 0x00, 0x00, 0x00, 0x00,
    0x00, 0x00, 0x00, 0x00, 0x00, 0x00, 0x00, 0x00, 0x45, 0x00, 0x46, 0x00, 0x49, 0x00, 0x00, 0x00,
];

const ESP_4096: [u8; 64] = [
    0x28, 0x73, 0x2a, 0xc1, 0x1f, 0xf8, 0xd2, 0x11, 0xba, 0x4b, 0x00, 0xa0, 0xc9, 0x3e, 0xc9, 0x3b,
    0x11, 0x11, 0x11, 0x11, 0x22, 0x22, 0x33, 0x43, 0x84, 0x44, 0x55, 0x55, 0x55, 0x55, 0x55, 0x55,
    0x00, 0x01, 0x00, 0x00, 0x00, 0x00, 0x00, 0x00, 0xfd, 0x15, 0x00, 0x00, 0x00, 0x00, 0x00, 0x00,
    0x00, 0x00, 0x00, 0x00, 0x00, 0x00, 0x00, 0x00, 0x45, 0x00, 0x46, 0x00, 0x49, 0x00, 0x00, 0x00,
];

// The header of a copy with one ESP, made by another program with zlib's crc32; the bytes of its place; and the last
// usable unit of its table.
struct Outside {
    sector: u32,
    entries: u16,
    bytes: usize,
    sectors: u64,
    which: Which,
    slot: u16,
    last: u64,
    header: [u8; 92],
}

const OUTSIDE: [Outside; 7] = [
    Outside {
        sector: 512,
        entries: 128,
        bytes: 16_896,
        sectors: 131_072,
        which: Which::Primary,
        slot: 0,
        last: 131_038,
        header: [
            0x45, 0x46, 0x49, 0x20, 0x50, 0x41, 0x52, 0x54, 0x00, 0x00, 0x01, 0x00, 0x5c, 0x00,
            0x00, 0x00, 0x71, 0x78, 0x9e, 0x32, 0x00, 0x00, 0x00, 0x00, 0x01, 0x00, 0x00, 0x00,
            0x00, 0x00, 0x00, 0x00, 0xff, 0xff, 0x01, 0x00, 0x00, 0x00, 0x00, 0x00, 0x00, 0x08,
            0x00, 0x00, 0x00, 0x00, 0x00, 0x00, 0xde, 0xff, 0x01, 0x00, 0x00, 0x00, 0x00, 0x00,
            0xaa, 0xaa, 0xaa, 0xaa, 0xbb, 0xbb, 0xcc, 0x4c, 0x8d, 0xdd, 0xee, 0xee, 0xee, 0xee,
            0xee, 0xee, 0x02, 0x00, 0x00, 0x00, 0x00, 0x00, 0x00, 0x00, 0x80, 0x00, 0x00, 0x00,
            0x80, 0x00, 0x00, 0x00, 0xeb, 0x70, 0x68, 0xee,
        ],
    },
    Outside {
        sector: 512,
        entries: 128,
        bytes: 16_896,
        sectors: 131_072,
        which: Which::Backup,
        slot: 0,
        last: 131_038,
        header: [
            0x45, 0x46, 0x49, 0x20, 0x50, 0x41, 0x52, 0x54, 0x00, 0x00, 0x01, 0x00, 0x5c, 0x00,
            0x00, 0x00, 0xb4, 0xb4, 0x92, 0xbc, 0x00, 0x00, 0x00, 0x00, 0xff, 0xff, 0x01, 0x00,
            0x00, 0x00, 0x00, 0x00, 0x01, 0x00, 0x00, 0x00, 0x00, 0x00, 0x00, 0x00, 0x00, 0x08,
            0x00, 0x00, 0x00, 0x00, 0x00, 0x00, 0xde, 0xff, 0x01, 0x00, 0x00, 0x00, 0x00, 0x00,
            0xaa, 0xaa, 0xaa, 0xaa, 0xbb, 0xbb, 0xcc, 0x4c, 0x8d, 0xdd, 0xee, 0xee, 0xee, 0xee,
            0xee, 0xee, 0xdf, 0xff, 0x01, 0x00, 0x00, 0x00, 0x00, 0x00, 0x80, 0x00, 0x00, 0x00,
            0x80, 0x00, 0x00, 0x00, 0xeb, 0x70, 0x68, 0xee,
        ],
    },
    Outside {
        sector: 4096,
        entries: 128,
        bytes: 20_480,
        sectors: 16_384,
        which: Which::Primary,
        slot: 0,
        last: 131_031,
        header: [
            0x45, 0x46, 0x49, 0x20, 0x50, 0x41, 0x52, 0x54, 0x00, 0x00, 0x01, 0x00, 0x5c, 0x00,
            0x00, 0x00, 0x29, 0xab, 0x04, 0x40, 0x00, 0x00, 0x00, 0x00, 0x01, 0x00, 0x00, 0x00,
            0x00, 0x00, 0x00, 0x00, 0xff, 0x3f, 0x00, 0x00, 0x00, 0x00, 0x00, 0x00, 0x00, 0x01,
            0x00, 0x00, 0x00, 0x00, 0x00, 0x00, 0xfa, 0x3f, 0x00, 0x00, 0x00, 0x00, 0x00, 0x00,
            0xaa, 0xaa, 0xaa, 0xaa, 0xbb, 0xbb, 0xcc, 0x4c, 0x8d, 0xdd, 0xee, 0xee, 0xee, 0xee,
            0xee, 0xee, 0x02, 0x00, 0x00, 0x00, 0x00, 0x00, 0x00, 0x00, 0x80, 0x00, 0x00, 0x00,
            0x80, 0x00, 0x00, 0x00, 0x06, 0x5f, 0x83, 0x9f,
        ],
    },
    Outside {
        sector: 4096,
        entries: 128,
        bytes: 20_480,
        sectors: 16_384,
        which: Which::Backup,
        slot: 0,
        last: 131_031,
        header: [
            0x45, 0x46, 0x49, 0x20, 0x50, 0x41, 0x52, 0x54, 0x00, 0x00, 0x01, 0x00, 0x5c, 0x00,
            0x00, 0x00, 0x4e, 0x05, 0x20, 0xa0, 0x00, 0x00, 0x00, 0x00, 0xff, 0x3f, 0x00, 0x00,
            0x00, 0x00, 0x00, 0x00, 0x01, 0x00, 0x00, 0x00, 0x00, 0x00, 0x00, 0x00, 0x00, 0x01,
            0x00, 0x00, 0x00, 0x00, 0x00, 0x00, 0xfa, 0x3f, 0x00, 0x00, 0x00, 0x00, 0x00, 0x00,
            0xaa, 0xaa, 0xaa, 0xaa, 0xbb, 0xbb, 0xcc, 0x4c, 0x8d, 0xdd, 0xee, 0xee, 0xee, 0xee,
            0xee, 0xee, 0xfb, 0x3f, 0x00, 0x00, 0x00, 0x00, 0x00, 0x00, 0x80, 0x00, 0x00, 0x00,
            0x80, 0x00, 0x00, 0x00, 0x06, 0x5f, 0x83, 0x9f,
        ],
    },
    Outside {
        sector: 512,
        entries: 129,
        bytes: 17_408,
        sectors: 131_072,
        which: Which::Primary,
        slot: 128,
        last: 131_037,
        header: [
            0x45, 0x46, 0x49, 0x20, 0x50, 0x41, 0x52, 0x54, 0x00, 0x00, 0x01, 0x00, 0x5c, 0x00,
            0x00, 0x00, 0xd8, 0x91, 0x26, 0x69, 0x00, 0x00, 0x00, 0x00, 0x01, 0x00, 0x00, 0x00,
            0x00, 0x00, 0x00, 0x00, 0xff, 0xff, 0x01, 0x00, 0x00, 0x00, 0x00, 0x00, 0x00, 0x08,
            0x00, 0x00, 0x00, 0x00, 0x00, 0x00, 0xdd, 0xff, 0x01, 0x00, 0x00, 0x00, 0x00, 0x00,
            0xaa, 0xaa, 0xaa, 0xaa, 0xbb, 0xbb, 0xcc, 0x4c, 0x8d, 0xdd, 0xee, 0xee, 0xee, 0xee,
            0xee, 0xee, 0x02, 0x00, 0x00, 0x00, 0x00, 0x00, 0x00, 0x00, 0x81, 0x00, 0x00, 0x00,
            0x80, 0x00, 0x00, 0x00, 0xa7, 0x81, 0x7c, 0xb9,
        ],
    },
    Outside {
        sector: 512,
        entries: 256,
        bytes: 33_280,
        sectors: 131_072,
        which: Which::Backup,
        slot: 200,
        last: 131_006,
        header: [
            0x45, 0x46, 0x49, 0x20, 0x50, 0x41, 0x52, 0x54, 0x00, 0x00, 0x01, 0x00, 0x5c, 0x00,
            0x00, 0x00, 0xe0, 0x97, 0xd8, 0x51, 0x00, 0x00, 0x00, 0x00, 0xff, 0xff, 0x01, 0x00,
            0x00, 0x00, 0x00, 0x00, 0x01, 0x00, 0x00, 0x00, 0x00, 0x00, 0x00, 0x00, 0x00, 0x08,
            0x00, 0x00, 0x00, 0x00, 0x00, 0x00, 0xbe, 0xff, 0x01, 0x00, 0x00, 0x00, 0x00, 0x00,
            0xaa, 0xaa, 0xaa, 0xaa, 0xbb, 0xbb, 0xcc, 0x4c, 0x8d, 0xdd, 0xee, 0xee, 0xee, 0xee,
            0xee, 0xee, 0xbf, 0xff, 0x01, 0x00, 0x00, 0x00, 0x00, 0x00, 0x00, 0x01, 0x00, 0x00,
            0x80, 0x00, 0x00, 0x00, 0xa7, 0xb9, 0x50, 0xf8,
        ],
    },
    Outside {
        sector: 4096,
        entries: 1024,
        bytes: 135_168,
        sectors: 16_384,
        which: Which::Backup,
        slot: 1023,
        last: 130_807,
        header: [
            0x45, 0x46, 0x49, 0x20, 0x50, 0x41, 0x52, 0x54, 0x00, 0x00, 0x01, 0x00, 0x5c, 0x00,
            0x00, 0x00, 0x8d, 0xfb, 0xd7, 0xaa, 0x00, 0x00, 0x00, 0x00, 0xff, 0x3f, 0x00, 0x00,
            0x00, 0x00, 0x00, 0x00, 0x01, 0x00, 0x00, 0x00, 0x00, 0x00, 0x00, 0x00, 0x00, 0x01,
            0x00, 0x00, 0x00, 0x00, 0x00, 0x00, 0xde, 0x3f, 0x00, 0x00, 0x00, 0x00, 0x00, 0x00,
            0xaa, 0xaa, 0xaa, 0xaa, 0xbb, 0xbb, 0xcc, 0x4c, 0x8d, 0xdd, 0xee, 0xee, 0xee, 0xee,
            0xee, 0xee, 0xdf, 0x3f, 0x00, 0x00, 0x00, 0x00, 0x00, 0x00, 0x00, 0x04, 0x00, 0x00,
            0x80, 0x00, 0x00, 0x00, 0x07, 0x53, 0xe1, 0xcd,
        ],
    },
];

impl Outside {
    fn header_at(&self) -> usize {
        match self.which {
            Which::Primary => 0,
            Which::Backup => self.bytes.saturating_sub(self.sector as usize),
        }
    }

    fn array_at(&self) -> usize {
        match self.which {
            Which::Primary => self.sector as usize,
            Which::Backup => 0,
        }
    }

    fn entry(&self) -> &[u8; 64] {
        if self.sector == 512 { &ESP } else { &ESP_4096 }
    }

    // Its place.
    fn place(&self, alloc: Global) -> Result<Vec<u8>, AllocError> {
        let mut bytes = vec![in alloc; 0; self.bytes]?;
        write_at(&mut bytes, self.header_at(), &self.header);
        write_at(
            &mut bytes,
            self.array_at().saturating_add(128 * usize::from(self.slot)),
            self.entry(),
        );
        Ok(bytes)
    }

    // What bytes of its length say in its place.
    fn decode(&self, rt: &impl Abort, alloc: Global, bytes: &[u8]) -> Result<Table, CopyFault>
        ensures { IfOk result (λ table. table.first < 2 ^ 64 - 1 → IsWritable table) }
    {
        assert!(rt; self.sector == 512 || self.sector == 4096);
        assert!(rt; 128 <= self.entries && self.entries <= 1024);
        assert_eq!(rt; self.bytes, copy_bytes(self.entries, self.sector));
        assert_eq!(rt; bytes.len(), self.bytes);
        assert!(rt; least_sectors(self.sector, self.entries) <= self.sectors);
        assert!(rt; self.sectors <= 1 << 35);
        decode_copy(alloc, bytes, self.which, self.sectors, self.sector)
    }
}

fn write_at(bytes: &mut [u8], at: usize, part: &[u8])
    ensures { length bytes.new ≡ length bytes.old }
{
    for (to, from) in bytes.iter_mut().skip(at).zip(part) {
        *to = *from;
    }
}

fn crc_of(bytes: &[u8]) -> u32 {
    let mut crc = Crc::new();
    crc.update(bytes);
    crc.value()
}

// Makes both checksums right again.
fn seal(rt: &impl Abort, bytes: &mut [u8], case: &Outside) {
    let at = case.array_at();
    let size = 128 * usize::from(case.entries);
    assert!(rt; at <= bytes.len() && size <= bytes.len() - at);
    let array = crc_of(&bytes[at..at + size]);
    let at = case.header_at();
    assert!(rt; at <= bytes.len() && 92 <= bytes.len() - at);
    write_at(bytes, at + 88, &array.to_le_bytes());
    write_at(bytes, at + 16, &[0; 4]);
    let header = crc_of(&bytes[at..at + 92]);
    write_at(bytes, at + 16, &header.to_le_bytes());
}

// A byte of the header that is changed, whether the checksums are made right afterwards, and the fault.
struct Change {
    at: u16,
    to: u8,
    sealed: bool,
    fault: CopyFault,
}

const CHANGES: [Change; 9] = [
    Change {
        at: 0,
        to: 0x65,
        sealed: true,
        fault: CopyFault::Signature,
    },
    Change {
        at: 8,
        to: 1,
        sealed: true,
        fault: CopyFault::Revision,
    },
    Change {
        at: 12,
        to: 91,
        sealed: true,
        fault: CopyFault::HeaderSize,
    },
    Change {
        at: 13,
        to: 2,
        sealed: true,
        fault: CopyFault::HeaderSize,
    },
    Change {
        at: 16,
        to: 0,
        sealed: false,
        fault: CopyFault::HeaderCrc,
    },
    Change {
        at: 25,
        to: 7,
        sealed: true,
        fault: CopyFault::Place,
    },
    Change {
        at: 79,
        to: 0x80,
        sealed: true,
        fault: CopyFault::ArrayPlace,
    },
    Change {
        at: 83,
        to: 0xff,
        sealed: true,
        fault: CopyFault::Counts {
            count: 0xff00_0080,
            size: 128,
        },
    },
    Change {
        at: 85,
        to: 1,
        sealed: true,
        fault: CopyFault::Counts {
            count: 128,
            size: 384,
        },
    },
];

#[test]
fn reads_and_writes_outside_copies(rt: HostRuntime) -> Result<(), Fail> {
    for case in &OUTSIDE {
        let bytes = case.place(rt.alloc())?;
        let table = case.decode(&rt, rt.alloc(), &bytes)?;
        assert_eq!(&rt; (table.sector, table.entries), (case.sector, case.entries));
        assert_eq!(&rt; table.disk, DISK);
        assert_eq!(&rt;
            (table.first, table.last, table.rows.len()),
            (2048, case.last, 1)
        );
        let row = table.rows.as_slice().first().copied().ok_or("a row")?;
        let size = if case.sector == 512 { 20_480 } else { 42_992 };
        assert_eq!(&rt;
            (row.slot, row.start, row.size, row.attrs),
            (case.slot, 2048, size, 0)
        );
        assert_eq!(&rt; row.kind, ESP_TYPE);
        assert_eq!(&rt; Some(row.name), name_units("EFI"));
        writes(&rt, rt.alloc(), case, &table, &bytes)?;
    }
    Ok(())
}

// Writes a table and compares its copy.
fn writes(
    rt: &impl Abort,
    alloc: Global,
    case: &Outside,
    table: &Table,
    bytes: &[u8],
) -> Result<(), AllocError>
    requires { IsWritable table.now }
{
    let mut copy = vec![in alloc; 0xff; case.bytes]?;
    assert_eq!(rt; copy.len(), copy_bytes(table.entries, table.sector));
    assert_eq!(rt; bytes.len(), copy.len());
    assert!(rt; least_sectors(table.sector, table.entries) <= case.sectors);
    assert!(rt; case.sectors < 1 << 35);
    encode_copy(table, case.which, case.sectors, &mut copy);
    assert!(rt; copy.as_slice() == bytes);
    assert!(rt; is_exact(table, case.which, case.sectors, bytes));
    assert!(rt; !is_exact(table, case.which, case.sectors + 1, bytes));
    Ok(())
}

#[test]
fn names_the_first_fault(rt: HostRuntime) -> Result<(), Fail> {
    for case in &OUTSIDE[..2] {
        for change in &CHANGES {
            let mut bytes = case.place(rt.alloc())?;
            write_at(
                &mut bytes,
                case.header_at().saturating_add(usize::from(change.at)),
                &[change.to],
            );
            if change.sealed {
                seal(&rt, &mut bytes, case);
            }
            let fault = case.decode(&rt, rt.alloc(), &bytes).err();
            assert_eq!(&rt; fault, Some(change.fault), "at {}", change.at);
        }
    }
    Ok(())
}

#[test]
fn names_the_fault_of_the_array(rt: HostRuntime) -> Result<(), Fail> {
    for case in &OUTSIDE[..4] {
        // Slot 9 ends past 2^44 bytes, and slot 7 is unused.
        let mut bytes = case.place(rt.alloc())?;
        let at = case.array_at();
        assert!(&rt; at <= 4096);
        write_at(&mut bytes, at + 128 * 9, case.entry());
        write_at(&mut bytes, at + 128 * 9 + 46, &[1]);
        write_at(&mut bytes, at + 128 * 7 + 56, &[1]);
        let fault = case.decode(&rt, rt.alloc(), &bytes).err();
        assert_eq!(&rt; fault, Some(CopyFault::ArrayCrc));
        seal(&rt, &mut bytes, case);
        let fault = case.decode(&rt, rt.alloc(), &bytes).err();
        assert_eq!(&rt; fault, Some(CopyFault::RowOrder { slot: 9 }));

        // Slot 7 is used, from LBA 0 to 0, and then from LBA 2048 to 0.
        write_at(&mut bytes, at + 128 * 7, &ESP[..33]);
        seal(&rt, &mut bytes, case);
        let fault = case.decode(&rt, rt.alloc(), &bytes).err();
        assert_eq!(&rt; fault, Some(CopyFault::RowOrder { slot: 9 }));
        write_at(&mut bytes, at + 128 * 7 + 33, &[8]);
        seal(&rt, &mut bytes, case);
        let fault = case.decode(&rt, rt.alloc(), &bytes).err();
        assert_eq!(&rt; fault, Some(CopyFault::RowOrder { slot: 7 }));
    }

    // A place of 129 entries is as long as one of 131, and not as one of 200.
    let case = &OUTSIDE[4];
    let counts = CopyFault::Counts {
        count: 200,
        size: 128,
    };
    for (count, fault) in [(131, CopyFault::ArrayCrc), (200, counts)] {
        let mut bytes = case.place(rt.alloc())?;
        write_at(&mut bytes, 80, &[count]);
        seal(&rt, &mut bytes, case);
        assert_eq!(&rt; case.decode(&rt, rt.alloc(), &bytes).err(), Some(fault));
    }
    Ok(())
}

#[test]
fn protects_the_disk(rt: HostRuntime) {
    let record = [
        0x00, 0x00, 0x02, 0x00, 0xee, 0xff, 0xff, 0xff, 0x01, 0x00, 0x00, 0x00, 0xff, 0xff, 0x01,
        0x00,
    ];
    let mbr = mbr_bytes(131_072);
    assert_eq!(&rt; &mbr[..16], record.as_slice());
    assert_eq!(&rt; &mbr[64..], [0x55, 0xaa].as_slice());
    assert_eq!(&rt; &mbr_bytes(16_384)[12..16], [0xff, 0x3f, 0, 0].as_slice());
    assert_eq!(&rt; &mbr_bytes(1 << 32)[12..16], [0xff; 4].as_slice());
    assert_eq!(&rt;
        &mbr_bytes((1 << 32) - 1)[12..16],
        [0xfe, 0xff, 0xff, 0xff].as_slice()
    );
    let mut sector = [0; 512];
    assert_eq!(&rt; mbr_state(&sector, 131_072), Mbr::Differs);
    write_at(&mut sector, 446, &mbr);
    assert_eq!(&rt; mbr_state(&sector, 131_072), Mbr::Same);
    assert_eq!(&rt; mbr_state(&sector, 131_072 + 1), Mbr::Differs);
    sector[498] = 0x83;
    assert_eq!(&rt;
        (mbr_state(&sector, 131_072), foreign_type(&sector)),
        (Mbr::Foreign, Some(0x83))
    );
}
