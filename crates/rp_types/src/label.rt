ghost use Rattle.std.specs.Prelude.{◌≡◌, ◌≢◌, ◌≤◌, length, slice_index};
ghost use Rattle.rp_types.specs.Types.{label_of, padded};

use crate::{by_guid, write_guid};
use rp_base::Guid;

/// Units of UTF-16 in a partition's name (UEFI 2.10, 5.3.3).
const LABEL_UNITS: usize = 36;

/// The label of a partition that is given none: its type's name, or the type's GUID as text, in units of UTF-16.
pub fn label_of(kind: Guid) -> [u16; LABEL_UNITS]
    ensures value { result ≡ label_of kind }
    ensures not_empty { slice_index result 0 ≢ 0 }
{
    match by_guid(kind) {
        Some(name) => units_of(name.as_bytes()),
        None => units_of(&write_guid(kind)),
    }
}

// A text of ASCII as a label.
fn units_of(text: &[u8]) -> [u16; LABEL_UNITS]
    requires { length text.now ≤ 36 }
    ensures { result ≡ padded 36 text.now }
{
    let mut units = [0; LABEL_UNITS];
    for (i, byte) in text.iter().enumerate() {
        units[i] = u16::from(*byte);
    }
    units
}
