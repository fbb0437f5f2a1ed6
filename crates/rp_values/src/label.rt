ghost use Rattle.std.specs.Prelude.{◌≡◌, ◌≢◌, [], IfOk, length, slice_index};
ghost use Rattle.rp_base.specs.Answers.{Gives};
ghost use Rattle.rp_base.specs.Name.{units_of};
ghost use Rattle.rp_values.specs.Texts.{label_of_text, label_units};
ghost use Rattle.rp_values.specs.declared.label.LabelFault.TheVariants.{Memory as no_memory};

use crate::expand::expanded;
use rp_base::{Memory, name_units};
use rp_types::Arch;
use std::alloc::Global;
use thiserror::Error;

/// Units of UTF-16 in a label.
const UNITS: usize = 36;

/// Why a text is no label.
#[derive(Clone, Copy, Debug, PartialEq, Eq, Error)]
pub enum LabelFault {
    /// A `%` that is none of the specifiers, or a U+0000.
    #[error("not a label")]
    BadLabel,
    /// More than 36 units of UTF-16.
    #[error("a label of more than 36 units")]
    TooLong,
    #[error("out of memory")]
    Memory,
}

impl From<Memory> for LabelFault {
    ghost from_gives = { λ _ fault. fault ≡ no_memory };

    fn from(_: Memory) -> Self {
        LabelFault::Memory
    }
}

/// A label as the 36 units of UTF-16 of a partition's name, zeros behind the text. `%%` is `%`, and `%a` the architecture.
/// Another `%` is `BadLabel` before all else; then more than 36 units are `TooLong`, and then a U+0000 is `BadLabel`.
pub fn read_label(alloc: Global, text: &str, arch: Arch) -> Result<[u16; UNITS], LabelFault>
    ensures label { Gives LabelFault.Memory (label_of_text arch text.now) result }
    ensures not_empty { text.now ≢ [] → IfOk result (λ units. slice_index units 0 ≢ 0) }
{
    let Some(whole) = expanded(alloc, text, arch)? else {
        return Err(LabelFault::BadLabel);
    };
    units(whole.as_str())
}

// The units of a label whose specifiers are replaced.
fn units(text: &str) -> Result<[u16; UNITS], LabelFault>
    ensures { result ≡ label_units text.now }
{
    if units_in(text) > UNITS {
        return Err(LabelFault::TooLong);
    }
    name_units(text).ok_or(LabelFault::BadLabel)
}

// How many units of UTF-16 a text has.
fn units_in(text: &str) -> usize
    ensures { result ≡ length (units_of text.now) }
{
    text.encode_utf16().count()
}
