ghost use Rattle.std.specs.Prelude.{◌≡◌, ◌<◌, ◌≤◌, ◌^◌, count_by, length, sum_by, not};
ghost use Rattle.rp_defs.specs.Keys.{is_key};
ghost use Rattle.rp_defs.specs.Settings.{ignored_in};
ghost use Rattle.rp_defs.specs.Counting.{IsParsed};

use crate::keys::is_key;
use rp_ini::{Assign, File};

/// The section that counts.
pub(crate) const PARTITION: &str = "Partition";

/// How many assignments of a file are ignored: of `[Partition]` those of unknown keys, of other sections all.
pub(crate) fn ignored_in(file: &File) -> u32
    requires { IsParsed file.now }
    ensures count { result ≡ sum_by ignored_in file.now }
    ensures few { result ≤ 65536 }
{
    let mut ignored = 0;
    for name in file.names() {
        ignored += ignored_of(name.as_str(), file.section(name.as_str()));
    }
    ignored
}

// How many assignments of a section are ignored.
fn ignored_of(name: &str, assigns: &[Assign]) -> u32
    requires { length assigns.now < 2 ^ 32 }
    ensures { result ≡ ignored_in (record { name = name.now; assigns = assigns.now }) }
{
    if name == PARTITION {
        unknown(assigns)
    } else {
        assigns.len() as u32
    }
}

// How many assignments are those of unknown keys.
fn unknown(assigns: &[Assign]) -> u32
    requires { length assigns.now < 2 ^ 32 }
    ensures { result ≡ count_by (λ assign. not (is_key assign.key)) assigns.now }
{
    assigns
        .iter()
        .filter(|assign| !is_key(assign.key.as_str()))
        .count() as u32
}
