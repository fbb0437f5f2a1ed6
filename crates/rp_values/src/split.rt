ghost use Rattle.std.specs.Prelude.{◌≡◌, ◌==◌, ◌||◌};
ghost use Rattle.std.specs.List.{list_any};
ghost use Rattle.rp_base.specs.Answers.{Gives};
ghost use Rattle.rp_values.specs.Texts.{is_file_name, split_name_of};
ghost use Rattle.rp_values.specs.declared.split.SplitFault.TheVariants.{Memory as no_memory};

use crate::expand::expanded;
use rp_base::{Memory, Text};
use rp_types::Arch;
use std::alloc::Global;
use thiserror::Error;

/// The most bytes of a name.
const LONGEST: usize = 128;

/// Why a text is no name of a split file.
#[derive(Clone, Copy, Debug, PartialEq, Eq, Error)]
pub enum SplitFault {
    /// A `%` that is none of the specifiers, or no name of a file of 1 to 128 bytes.
    #[error("not a name of a split file")]
    BadName,
    #[error("out of memory")]
    Memory,
}

impl From<Memory> for SplitFault {
    ghost from_gives = { λ _ fault. fault ≡ no_memory };

    fn from(_: Memory) -> Self {
        SplitFault::Memory
    }
}

/// The name of the file that a partition is split into, none for `-`: 1 to 128 bytes without `/` and U+0000, neither `.`
/// nor `..`, once `%%` is replaced by `%`, and `%a` by the architecture. `BadName` exactly for any other text.
pub fn read_split_name(alloc: Global, text: &str, arch: Arch) -> Result<Option<Text>, SplitFault>
    ensures { Gives SplitFault.Memory (split_name_of arch text.now) result }
{
    let Some(whole) = expanded(alloc, text, arch)? else {
        return Err(SplitFault::BadName);
    };
    if whole.as_str() == "-" {
        return Ok(None);
    }
    if is_file_name(whole.as_str()) {
        Ok(Some(Text::from_string(whole)))
    } else {
        Err(SplitFault::BadName)
    }
}

// The bounds of a name whose specifiers are replaced.
fn is_file_name(text: &str) -> bool
    ensures { result ≡ is_file_name text.now }
{
    !text.is_empty() && text.len() <= LONGEST && !has_separator(text) && text != "." && text != ".."
}

// A byte that can't stand in a file's name.
fn has_separator(text: &str) -> bool
    ensures { result ≡ list_any (λ byte. byte == 0 || byte == 47) text.now }
{
    text.as_bytes()
        .iter()
        .any(|byte| *byte == 0 || *byte == b'/')
}
