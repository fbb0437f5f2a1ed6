//! Images of a table with one or two partitions, byte for byte.

use rp_crc::Crc;
use std::alloc::Global;
use std::test::Fail;

const ENTRY: usize = 128;

const DISK: [u8; 16] = [
    0xaa, 0xaa, 0xaa, 0xaa, 0xbb, 0xbb, 0xcc, 0x4c, 0x8d, 0xdd, 0xee, 0xee, 0xee, 0xee, 0xee, 0xee,
];

/// The type of an EFI system partition, as a disk holds it.
pub const ESP: [u8; 16] = [
    0x28, 0x73, 0x2a, 0xc1, 0x1f, 0xf8, 0xd2, 0x11, 0xba, 0x4b, 0x00, 0xa0, 0xc9, 0x3e, 0xc9, 0x3b,
];

/// The type of swap space.
pub const SWAP: [u8; 16] = [
    0x6d, 0xfd, 0x57, 0x06, 0xab, 0xa4, 0xc4, 0x43, 0x84, 0xe5, 0x09, 0x33, 0xc8, 0x4b, 0x4f, 0x4f,
];

/// The type of generic Linux data.
pub const LINUX: [u8; 16] = [
    0xaf, 0x3d, 0xc6, 0x0f, 0x83, 0x84, 0x72, 0x47, 0x8e, 0x79, 0x3d, 0x69, 0xd8, 0x47, 0x7d, 0xe4,
];

const ID: [u8; 16] = [
    0x11, 0x11, 0x11, 0x11, 0x22, 0x22, 0x33, 0x43, 0x84, 0x44, 0x55, 0x55, 0x55, 0x55, 0x55, 0x55,
];

/// What the copies of an image say. LBAs are of first and last sectors.
#[derive(Clone, Copy)]
pub struct Numbers {
    /// The bytes of a sector, and the entries of an array.
    pub sector: usize,
    pub entries: usize,
    /// The last LBA of the image.
    pub end: u64,
    pub first: u64,
    pub last: u64,
    /// The first partition's slot, type and LBAs.
    pub slot: usize,
    pub kind: [u8; 16],
    pub start: u64,
    pub stop: u64,
    /// A second partition's slot and LBAs; none where the slot is 0.
    pub second: (usize, u64, u64),
    /// The number of entries that the primary header tells, and that the backup's does.
    pub count: u32,
    pub backup_count: u32,
    /// The primary header's size and the LBA of its array, as it tells them.
    pub header_size: u16,
    pub array: u64,
}

/// An image without a table, whose first sector has one record of another table.
pub fn other_table(alloc: Global, len: usize, kind: u8) -> Result<Vec<u8>, Fail> {
    let mut image = vec![in alloc; 0u8; 450]?;
    image.push(kind)?;
    pad(&mut image, 59)?;
    image.extend_from_slice(&[0x55, 0xaa])?;
    image.resize(len, 0)?;
    Ok(image)
}

/// Both copies of the table, and the protective MBR.
pub fn esp_image(alloc: Global, numbers: Numbers) -> Result<Vec<u8>, Fail> {
    let array = array(alloc, numbers)?;
    let end = numbers.end.to_le_bytes();
    let mut image = vec![in alloc; 0u8; 446]?;
    image.extend_from_slice(&[0, 0, 2, 0, 0xee, 0xff, 0xff, 0xff, 1, 0, 0, 0])?;
    image.extend_from_slice(&end[..4])?;
    pad(&mut image, 48)?;
    image.extend_from_slice(&[0x55, 0xaa])?;
    pad(&mut image, numbers.sector.wrapping_sub(512))?;
    push_header(
        &mut image,
        numbers,
        1,
        numbers.end,
        numbers.array,
        array.as_slice(),
    )?;
    push_array(&mut image, numbers, array.as_slice())?;
    let sectors = array_sectors(numbers);
    let backup_array = numbers.end.wrapping_sub(sectors);
    let backup = (backup_array as usize).wrapping_mul(numbers.sector);
    image.resize(backup, 0)?;
    push_array(&mut image, numbers, array.as_slice())?;
    let backup = Numbers {
        header_size: 92,
        count: numbers.backup_count,
        ..numbers
    };
    push_header(
        &mut image,
        backup,
        numbers.end,
        1,
        backup_array,
        array.as_slice(),
    )?;
    Ok(image)
}

fn array_sectors(numbers: Numbers) -> u64 {
    match numbers.sector {
        4096 => 4,
        _ => (numbers.entries as u64).wrapping_div(4),
    }
}

// An array, filled up to whole sectors.
fn push_array(image: &mut Vec<u8>, numbers: Numbers, array: &[u8]) -> Result<(), Fail> {
    let whole = (array_sectors(numbers) as usize).wrapping_mul(numbers.sector);
    image.extend_from_slice(array)?;
    pad(image, whole.wrapping_sub(array.len()))
}

fn array(alloc: Global, numbers: Numbers) -> Result<Vec<u8>, Fail> {
    let (slot, start, stop) = numbers.second;
    let mut array = Vec::new(alloc);
    array.resize(numbers.slot.wrapping_mul(ENTRY), 0)?;
    push_entry(&mut array, numbers.kind, numbers.start, numbers.stop)?;
    if slot != 0 {
        array.resize(slot.wrapping_mul(ENTRY), 0)?;
        push_entry(&mut array, numbers.kind, start, stop)?;
    }
    array.resize(numbers.entries.wrapping_mul(ENTRY), 0)?;
    Ok(array)
}

fn push_entry(array: &mut Vec<u8>, kind: [u8; 16], start: u64, stop: u64) -> Result<(), Fail> {
    array.extend_from_slice(&kind)?;
    array.extend_from_slice(&ID)?;
    array.extend_from_slice(&start.to_le_bytes())?;
    array.extend_from_slice(&stop.to_le_bytes())?;
    array.extend_from_slice(&[0; 8])?;
    array.extend_from_slice(b"E\0F\0I\0")?;
    pad(array, 66)
}

fn push_header(
    image: &mut Vec<u8>,
    numbers: Numbers,
    my_lba: u64,
    alternate_lba: u64,
    array_lba: u64,
    array: &[u8],
) -> Result<(), Fail> {
    let mut rest = vec![in *image.allocator()]?;
    rest.extend_from_slice(&[0; 4])?;
    rest.extend_from_slice(&my_lba.to_le_bytes())?;
    rest.extend_from_slice(&alternate_lba.to_le_bytes())?;
    rest.extend_from_slice(&numbers.first.to_le_bytes())?;
    rest.extend_from_slice(&numbers.last.to_le_bytes())?;
    rest.extend_from_slice(&DISK)?;
    rest.extend_from_slice(&array_lba.to_le_bytes())?;
    rest.extend_from_slice(&numbers.count.to_le_bytes())?;
    rest.extend_from_slice(&[128, 0, 0, 0])?;
    rest.extend_from_slice(&crc_of(array).to_le_bytes())?;
    let size = u32::from(numbers.header_size).to_le_bytes();
    let mut crc = Crc::new();
    crc.update(b"EFI PART\0\0\x01\0");
    crc.update(&size);
    crc.update(&[0; 4]);
    crc.update(rest.as_slice());
    image.extend_from_slice(b"EFI PART\0\0\x01\0")?;
    image.extend_from_slice(&size)?;
    image.extend_from_slice(&crc.value().to_le_bytes())?;
    image.extend_from_slice(rest.as_slice())?;
    pad(image, numbers.sector.wrapping_sub(92))
}

fn crc_of(bytes: &[u8]) -> u32 {
    let mut crc = Crc::new();
    crc.update(bytes);
    crc.value()
}

fn pad(bytes: &mut Vec<u8>, count: usize) -> Result<(), Fail> {
    let len = bytes.len().wrapping_add(count);
    bytes.resize(len, 0)?;
    Ok(())
}
