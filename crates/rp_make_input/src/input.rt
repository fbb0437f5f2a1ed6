ghost use Rattle.std.specs.Prelude.{◌≡◌, ◌∷◌, [], IfOk};
ghost use Rattle.rp_make_input.specs.MakeInput.{HoldsInput, folders_of, seed_of as seed_for, source_files};

use crate::bytes::source_bytes;
use crate::texts::{FOLDER, definition_files};
use crate::{MadeFolders, MadeSources};
use rp_base::{Guid, List, Memory, Text};
use rp_io::Stored;
use std::alloc::Global;

/// The path of the source.
const SOURCE: &str = "make.raw";

/// An input that is made from a number.
#[derive(Drop)]
pub struct Input {
    /// The folders that definitions are read from.
    pub dirs: List<Text>,
    pub folders: MadeFolders,
    pub sources: MadeSources,
    pub seed: Guid,
}

/// The input of a number.
pub fn input_of(alloc: Global, number: u8) -> Result<Input, Memory>
    ensures { IfOk result (HoldsInput number) }
{
    let files = definition_files(alloc, number)?;
    let folders = MadeFolders::new(alloc, folder_list(alloc)?, files);
    let sources = MadeSources::new(alloc, source_list(alloc, number)?);
    Ok(Input {
        dirs: folder_list(alloc)?,
        folders,
        sources,
        seed: seed_of(number),
    })
}

// The one folder.
fn folder_list(alloc: Global) -> Result<List<Text>, Memory>
    ensures { IfOk result (λ folders. folders ≡ folders_of) }
{
    let mut folders = List::new(alloc);
    folders.push(Text::from_str(alloc, FOLDER)?)?;
    Ok(folders)
}

// The one source.
fn source_list(alloc: Global, number: u8) -> Result<List<Stored>, Memory>
    ensures { IfOk result (λ files. files ≡ source_files number) }
{
    let mut files = List::new(alloc);
    files.push(Stored {
        path: Text::from_str(alloc, SOURCE)?,
        bytes: source_bytes(alloc, number)?,
    })?;
    Ok(files)
}

fn seed_of(number: u8) -> Guid
    ensures { result ≡ seed_for number }
{
    Guid([0, 0, 0, 0, 0, 0, 0, 0, 0, 0, 0, 0, 0, 0, 0, number])
}
