//! The names of a policy's text, in order.

ghost use Rattle.std.specs.Prelude.{◌≡◌, ◌<◌, IfSome, position};
ghost use Rattle.std.specs.Str.{bytes_eq};
ghost use Rattle.rp_types.specs.Designators.{designator_name};
ghost use Rattle.rp_policy.specs.Reading.{bits_named, designators, place_of};

use rp_types::Designator;

pub(crate) const OPEN: u16 = 63;

pub(crate) const IGNORE: u16 = 48;

pub(crate) const ABSENT: u16 = 32;

/// The place of the default's entry behind those of designators.
pub(crate) const DEFAULT: usize = 13;

/// The designators in order.
pub const DESIGNATORS: [Designator; 13] = [
    Designator::Root,
    Designator::Usr,
    Designator::Home,
    Designator::Srv,
    Designator::Esp,
    Designator::Xbootldr,
    Designator::Swap,
    Designator::RootVerity,
    Designator::RootVeritySig,
    Designator::UsrVerity,
    Designator::UsrVeritySig,
    Designator::Tmp,
    Designator::Var,
];

/// What may be used, or stand unused, or be absent.
pub(crate) const USES: [(&str, u16); 6] = [
    ("verity", 1),
    ("signed", 2),
    ("encrypted", 4),
    ("unprotected", 8),
    ("unused", 16),
    ("absent", 32),
];

/// The states that are demanded.
pub(crate) const STATES: [(&str, u16); 4] = [
    ("read-only-on", 64),
    ("read-only-off", 128),
    ("growfs-on", 256),
    ("growfs-off", 512),
];

/// The place of the entry of this name.
pub(crate) fn place_of(name: &str) -> Option<usize>
    ensures value { result ≡ place_of name.now }
    ensures below { IfSome result (λ place. place < 14) }
{
    if name.is_empty() {
        Some(DEFAULT)
    } else {
        designator_place(name)
    }
}

// The place of the designator of this name.
fn designator_place(name: &str) -> Option<usize>
    ensures value { result ≡ position (λ d. bytes_eq (designator_name d) name.now) designators }
    ensures below { IfSome result (λ place. place < 13) }
{
    DESIGNATORS
        .iter()
        .position(|designator| designator.name() == name)
}

/// The bits of the flag of this name.
pub(crate) fn bits_named(name: &str) -> Option<u16>
    ensures { result ≡ bits_named name.now }
{
    match name {
        "verity" => Some(1),
        "signed" => Some(2),
        "encrypted" => Some(4),
        "unprotected" => Some(8),
        "unused" => Some(16),
        "absent" => Some(32),
        "read-only-on" => Some(64),
        "read-only-off" => Some(128),
        "growfs-on" => Some(256),
        "growfs-off" => Some(512),
        "open" => Some(OPEN),
        "ignore" => Some(IGNORE),
        _ => None,
    }
}
