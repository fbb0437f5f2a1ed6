//! The size of a block device's sectors, as the kernel tells it.

use crate::image::Image;
use rp_words::{WordFault, read_line};
use std::alloc::AllocError;
use std::fs::File;
use std::io::{self, Read};

/// Gives canonical words the option `--sector-size` of a block device, where their command has it and they leave it out.
/// Where they give another size than the device's, that is said on standard error.
pub(crate) fn give_sector_size(
    rt: &HostRuntime,
    words: &mut Vec<String>,
    image: Image,
) -> Result<(), AllocError> {
    let (Ok(line), Image::Device(number)) = (read_line(words.as_slice()), image) else {
        return Ok(());
    };
    let Some(size) = sector_size(rt, number)? else {
        return Ok(());
    };
    // Options stand before the image, which is the last word.
    let place = words.len().saturating_sub(1);
    words.insert(place, format!(in rt.alloc(); "--sector-size={size}")?)?;
    let Err(fault) = read_line(words.as_slice()) else {
        return Ok(());
    };
    words.remove(place);
    if matches!(fault, WordFault::Twice { .. }) && line.sector != size {
        say_other(rt, words.as_slice(), line.sector, size);
    }
    Ok(())
}

fn say_other(rt: &HostRuntime, words: &[String], given: u32, size: u32) {
    if let [.., path] = words {
        let _ = eprintln!(rt;
            "repart: {path}: its sectors have {size} bytes, and --sector-size={given} is taken as it is given"
        );
    }
}

// The bytes of a sector of the block device of this number; none where the kernel doesn't tell, or tells a size that no
// table here has. A partition has the sectors of its disk, in whose folder its own stands.
fn sector_size(rt: &HostRuntime, number: u64) -> Result<Option<u32>, AllocError> {
    let (major, minor) = parts_of(number);
    let own = format!(in rt.alloc(); "/sys/dev/block/{major}:{minor}/queue/logical_block_size")?;
    if let Ok(size) = read_size(rt, own.as_str()) {
        return Ok(size);
    }
    let disk = format!(in rt.alloc();
        "/sys/dev/block/{major}:{minor}/../queue/logical_block_size"
    )?;
    Ok(read_size(rt, disk.as_str()).unwrap_or(None))
}

// The size that a file of the kernel's tells. Its text is a number and a newline.
fn read_size(rt: &HostRuntime, path: &str) -> io::Result<Option<u32>> {
    let mut text = [0; 8];
    let mut file = File::open(rt, path)?;
    let count = file.read(&mut text)?;
    Ok(match &text[..count] {
        b"512\n" => Some(512),
        b"4096\n" => Some(4096),
        _ => None,
    })
}

// The major and the minor number of a device (makedev(3)).
fn parts_of(number: u64) -> (u64, u64) {
    let major = (number >> 8 & 0xfff) | (number >> 32 & 0xffff_f000);
    let minor = (number & 0xff) | (number >> 12 & 0xffff_ff00);
    (major, minor)
}
