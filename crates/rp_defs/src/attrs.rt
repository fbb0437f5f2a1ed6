ghost use Rattle.std.specs.Prelude.{◌≡◌, ◌≤◌, false};
ghost use Rattle.std.specs.Option.{option_map_or};
ghost use Rattle.rp_types.specs.Types.{designator_of};
ghost use Rattle.rp_defs.specs.Attributes.{bit_of, is_hash_designator, is_hash_type};
ghost use Rattle.rp_defs.specs.Drafts.{attrs_of};

use crate::keys::Key;
use crate::value::{Value, switch_in};
use rp_base::Guid;
use rp_types::{Arch, Designator, GROW_FILE_SYSTEM, NO_AUTO, READ_ONLY, bits, designator_of};

/// The attributes of a new partition of this type, as far as the type supports them.
#[tactic(auto, unfolding(crate::specs::Drafts::attrs_of))]
pub(crate) fn attrs_of(kind: Guid, values: &[Option<Value>]) -> u64
    ensures { result ≡ attrs_of kind values.now }
{
    let hidden = bit(
        kind,
        NO_AUTO,
        switch_in(values, Key::NoAuto).unwrap_or(false),
    );
    let is_fixed = switch_in(values, Key::ReadOnly).unwrap_or(is_hash_type(kind));
    let fixed = bit(kind, READ_ONLY, is_fixed);
    let grows = switch_in(values, Key::GrowFileSystem).unwrap_or(fixed == 0);
    hidden + fixed + bit(kind, GROW_FILE_SYSTEM, grows)
}

// A bit, where it is on and the type supports it.
fn bit(kind: Guid, bit: u64, on: bool) -> u64
    ensures value { result ≡ bit_of kind bit on }
    ensures within { result ≤ bit }
{
    if on { bits(kind) & bit } else { 0 }
}

// Whether a type is for the hashes or the signature of a file system, under either architecture.
fn is_hash_type(kind: Guid) -> bool
    ensures { result ≡ is_hash_type kind }
{
    is_hash_under(kind, Arch::X86_64) || is_hash_under(kind, Arch::Arm64)
}

fn is_hash_under(kind: Guid, arch: Arch) -> bool
    ensures { result ≡ option_map_or is_hash_designator (designator_of kind arch) false }
{
    match designator_of(kind, arch) {
        Some(designator) => is_hash_designator(designator),
        None => false,
    }
}

fn is_hash_designator(designator: Designator) -> bool
    ensures { result ≡ is_hash_designator designator }
{
    match designator {
        Designator::RootVerity
        | Designator::RootVeritySig
        | Designator::UsrVerity
        | Designator::UsrVeritySig => true,
        _ => false,
    }
}
