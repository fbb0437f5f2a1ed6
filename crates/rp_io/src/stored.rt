ghost use Rattle.std.specs.Prelude.{◌≡◌, IfOk, OnOk};
ghost use Rattle.std.specs.List.{list_any};
ghost use Rattle.std.specs.Option.{option_copied};
ghost use Rattle.std.specs.Str.{bytes_eq};
ghost use Rattle.rp_io.specs.Files.{content, is_name, name_of, with_name, names_in};

use rp_base::{List, Memory, Text};
use std::alloc::Global;

/// A file in memory.
#[derive(Debug, Drop)]
pub struct Stored {
    pub path: Text,
    pub bytes: List<u8>,
}

// The bytes at a path: of two files with the same path those of the first.
pub(crate) fn bytes_at<'a>(files: &'a [Stored], path: &str) -> Option<&'a [u8]>
    ensures { option_copied result ≡ content files.now path.now }
{
    let file = files.iter().find(|file| file.path.as_str() == path)?;
    Some(file.bytes.as_slice())
}

// Whether a text is among these.
pub(crate) fn has_text(texts: &[Text], text: &str) -> bool
    ensures { result ≡ list_any (λ each. bytes_eq each text.now) texts.now }
{
    texts.iter().any(|each| each.as_str() == text)
}

// The name of a path in a folder: what follows the folder's path and a slash, if it is one name.
fn name_in<'a>(folder: &str, path: &'a str) -> Option<&'a str>
    ensures { option_copied result ≡ name_of folder.now path.now }
{
    let name = path.strip_prefix(folder)?.strip_prefix('/')?;
    if is_single(name) { Some(name) } else { None }
}

// Whether a text is one name: it isn't empty and has no slash.
fn is_single(name: &str) -> bool
    ensures { result ≡ is_name name.now }
{
    !name.is_empty() && !name.as_bytes().contains(&b'/')
}

// Adds a name that isn't among the names yet.
fn add_name(alloc: Global, names: &mut List<Text>, name: &str) -> Result<(), Memory>
    ensures { OnOk result (names.new ≡ with_name names.old name.now) }
{
    if has_text(names.as_slice(), name) {
        return Ok(());
    }
    names.push(Text::from_str(alloc, name)?)
}

// The names of the files in a folder, each once.
pub(crate) fn names_in_folder(
    alloc: Global,
    folder: &str,
    files: &[Stored],
) -> Result<List<Text>, Memory>
    ensures { IfOk result (λ names. names ≡ names_in files.now folder.now) }
{
    let mut names = List::new(alloc);
    for file in files {
        if let Some(name) = name_in(folder, file.path.as_str()) {
            add_name(alloc, &mut names, name)?;
        }
    }
    Ok(names)
}
