//! The definition files.

ghost use Rattle.std.specs.Prelude.{◌≡◌, IfOk, string_bytes};
ghost use Rattle.rp_make_input.specs.Texts.{definition_files as definition_files_of, file_of, part_file as part_file_of, part_path as part_path_of, part_text as part_text_of};

use rp_base::{List, Memory, Text};
use rp_io::Stored;
use std::alloc::{AllocError, Global};

/// The folder of the definition files.
pub(crate) const FOLDER: &str = "make";

const ROOT: &str = "[Partition]\nType=root\nVerity=data\nVerityMatchKey=m\nCopyBlocks=make.raw\n";

const ROOT_HASH: &str = "[Partition]\nType=root-verity\nVerity=hash\nVerityMatchKey=m\n";

/// The definition files of a number, with their paths: one for each partition of the number, and those of a pair.
pub(crate) fn definition_files(alloc: Global, number: u8) -> Result<List<Stored>, Memory>
    ensures { IfOk result (λ files. files ≡ definition_files_of number) }
{
    let mut files = List::new(alloc);
    for i in 0..u32::from(number) {
        files.push(part_file(alloc, i)?)?;
    }
    files.push(file(alloc, "make/root.conf", ROOT)?)?;
    files.push(file(alloc, "make/root-hash.conf", ROOT_HASH)?)?;
    Ok(files)
}

// The definition file of the partition at a place.
fn part_file(alloc: Global, i: u32) -> Result<Stored, Memory>
    ensures { IfOk result (λ file. file ≡ part_file_of i) }
{
    let path = part_path(alloc, i)?;
    let text = part_text(alloc, i)?;
    file(alloc, path.as_str(), text.as_str())
}

#[tactic(auto, unfolding(crate::specs::Texts::part_path))]
fn part_path(alloc: Global, i: u32) -> Result<String, AllocError>
    ensures { IfOk result (λ path. string_bytes path ≡ part_path_of i) }
{
    let (hundreds, tens, ones) = (i / 100, i / 10 % 10, i % 10);
    let mut path = String::new(alloc);
    write!(path, "make/part-{hundreds}{tens}{ones}.conf")?;
    Ok(path)
}

#[tactic(auto, unfolding(crate::specs::Texts::part_text))]
fn part_text(alloc: Global, i: u32) -> Result<String, AllocError>
    ensures { IfOk result (λ text. string_bytes text ≡ part_text_of i) }
{
    let size = 1 + i % 7;
    let weight = 100 + 37 * (i % 11);
    let mut text = String::new(alloc);
    write!(
        text,
        "[Partition]\nType=linux-generic\nSizeMinBytes={size}M\nWeight={weight}\n"
    )?;
    Ok(text)
}

// A file with this path and text.
fn file(alloc: Global, path: &str, text: &str) -> Result<Stored, Memory>
    ensures { IfOk result (λ file. file ≡ file_of path.now text.now) }
{
    Ok(Stored {
        path: Text::from_str(alloc, path)?,
        bytes: List::from_vec(text.as_bytes().to_vec(alloc)?),
    })
}
