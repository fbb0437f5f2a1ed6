//! The values of options.

ghost use Rattle.std.specs.Prelude.{◌≡◌, ◌≤◌, ◌==◌, ◌^◌, IfOk, IfSome, option_map, slice_index};
ghost use Rattle.rp_values.specs.Numbers.{at_most};
ghost use Rattle.rp_words.specs.Values.{IsSize, are_paths as are_paths_in, before_colon as before_colon_in, behind_colon as behind_colon_in, is_value as is_value_of, number_in, paths_of, rounded as rounded_up, size_in};

use crate::table::Opt;
use rp_base::{List, Memory, Text};
use rp_types::read_guid;
use std::alloc::Global;

/// Whether a text is the paths of folders, one at least, with colons between them, none of them empty.
#[tactic(auto, using(crate::proofs::Paths::at_colon, crate::proofs::Paths::at_other, crate::proofs::Paths::at_end))]
pub(crate) fn are_paths(text: &str) -> bool
    ensures { result ≡ are_paths_in text.now }
{
    let mut begun = false;
    for byte in text.as_bytes() {
        if *byte != b':' {
            begun = true;
        } else if begun {
            begun = false;
        } else {
            return false;
        }
    }
    begun
}

/// The paths that a text has, with colons between them.
#[tactic(auto, using(crate::proofs::Cutting::paths_more, crate::proofs::Cutting::paths_all, crate::proofs::Cutting::paths_shorter))]
pub fn read_paths(alloc: Global, text: &str) -> Result<List<Text>, Memory>
    ensures { IfOk result (λ paths. paths ≡ paths_of text.now) }
{
    let mut paths = List::new(alloc);
    let mut rest = text;
    'cuts: while let Some(more) = behind_colon(rest) {
        paths.push(Text::from_str(alloc, before_colon(rest))?)?;
        rest = more;
    }
    paths.push(Text::from_str(alloc, rest)?)?;
    Ok(paths)
}

// What stands before the first colon, or all where there is none.
fn before_colon(text: &str) -> &str
    ensures { result.now ≡ before_colon_in text.now }
{
    match text.split_once(':') {
        Some((path, _)) => path,
        None => text,
    }
}

// What stands behind it, where there is one.
fn behind_colon(text: &str) -> Option<&str>
    ensures { option_map (λ more. more.now) result ≡ behind_colon_in text.now }
{
    match text.split_once(':') {
        Some((_, more)) => Some(more),
        None => None,
    }
}

/// Whether an option takes this text.
pub(crate) fn is_value(option: Opt, text: &str) -> bool
    ensures { result ≡ is_value_of option text.now }
{
    match option {
        Opt::Definitions => are_paths(text),
        Opt::Arch => text == "x86-64" || text == "arm64",
        Opt::Empty => text == "refuse" || text == "allow" || text == "require",
        Opt::Json => text == "off" || text == "short",
        Opt::SectorSize => text == "512" || text == "4096",
        Opt::FactoryReset => text == "off" || text == "on",
        Opt::Seed => read_guid(text).is_some(),
        Opt::Size => read_size(text).is_some(),
        Opt::Number => read_number(text).is_some(),
        Opt::Policy | Opt::Against => true,
    }
}

/// A size in bytes, rounded up to 4,096. `None` exactly where the text is no size, or one above 2^44 bytes.
pub(crate) fn read_size(text: &str) -> Option<u64>
    ensures read { result ≡ size_in text.now }
    ensures size { IfSome result IsSize }
{
    match rp_values::read_size(text) {
        Some(size) if size <= 1 << 44 => Some(rounded(size)),
        _ => None,
    }
}

// The least multiple of 4,096 that isn't below.
fn rounded(size: u64) -> u64
    requires { size ≤ 2 ^ 44 }
    ensures rounded { result ≡ rounded_up size }
    ensures size { IsSize result }
{
    (size + 4095) / 4096 * 4096
}

/// A number from 1 to 100 in decimal digits without a leading zero, else `None`.
pub(crate) fn read_number(text: &str) -> Option<u8>
    ensures { result ≡ number_in text.now }
{
    if begins_with_zero(text) {
        return None;
    }
    at_most_100(rp_values::read_weight(text))
}

fn begins_with_zero(text: &str) -> bool
    ensures { result ≡ (slice_index text.now 0 == 48) }
{
    match text.as_bytes() {
        [] => false,
        [first, ..] => *first == b'0',
    }
}

fn at_most_100(number: Option<u64>) -> Option<u8>
    ensures { result ≡ at_most 100 number }
{
    match number {
        Some(number) if number <= 100 => Some(number as u8),
        _ => None,
    }
}
