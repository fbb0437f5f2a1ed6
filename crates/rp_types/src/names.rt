ghost use Rattle.std.specs.Prelude.{◌≡◌, ◌≢◌, ◌≤◌, IfSome, length, option_copied, option_map, replicate, Some};
ghost use Rattle.rp_types.specs.declared.arch.Arch.{Arch};
ghost use Rattle.rp_types.specs.Designators.{designator_name};
ghost use Rattle.rp_types.specs.Types.{bits_of, by_guid, by_name, designator_of, entry_of, is_called, as_listed};

use crate::table::{PartitionType, types};
use crate::{Arch, Designator};
use rp_base::Guid;

/// The type of this name (repart.d(5), `Type=`). The names of designators, as `root-verity`, are those of the types
/// of this architecture.
pub fn by_name(name: &str, arch: Arch) -> Option<Guid>
    ensures value { result ≡ by_name name.now arch }
    ensures used { IfSome result (λ kind. kind.0 ≢ replicate 16 0) }
{
    for (own, t) in types() {
        if is_called(own, t, name, arch) {
            return Some(t.kind);
        }
    }
    None
}

// Whether an entry is called this: by its own name, or by its designator's.
fn is_called(own: &str, t: &PartitionType, name: &str, arch: Arch) -> bool
    ensures { result ≡ is_called name.now arch (own.now, t.now) }
{
    if own == name {
        return true;
    }
    match t.designator_under(arch) {
        None => false,
        Some(designator) => designator.name() == name,
    }
}

/// The name of this type, the one that all architectures know.
#[tactic(auto, unfolding(crate::specs::Types::by_guid))]
pub fn by_guid(kind: Guid) -> Option<&'static str>
    ensures value { option_copied result ≡ by_guid kind }
    ensures back { IfSome result (λ name. (arch : Arch) → by_name name.now arch ≡ Some kind) }
    ensures fits { IfSome result (λ name. length name.now ≤ 36) }
{
    match entry_of(kind) {
        Some((name, _)) => Some(name),
        None => None,
    }
}

/// What partitions of this type are for on machines of this architecture.
#[tactic(auto, unfolding(crate::specs::Types::designator_of))]
pub fn designator_of(kind: Guid, arch: Arch) -> Option<Designator>
    ensures value { result ≡ designator_of kind arch }
    ensures back { IfSome result (λ d. by_name (designator_name d) arch ≡ Some kind) }
{
    match entry_of(kind) {
        Some((_, t)) => t.designator_under(arch),
        None => None,
    }
}

/// The attribute bits that partitions of this type may have, none where the type has no name.
#[tactic(auto, unfolding(crate::specs::Types::bits_of))]
pub fn bits(kind: Guid) -> u64
    ensures { result ≡ bits_of kind }
{
    match entry_of(kind) {
        Some((_, t)) => t.bits,
        None => 0,
    }
}

// The entry of a type.
fn entry_of(kind: Guid) -> Option<&'static (&'static str, PartitionType)>
    ensures { option_map (λ e. as_listed e.now) result ≡ entry_of kind }
{
    for entry in types() {
        if entry.1.kind == kind {
            return Some(entry);
        }
    }
    None
}
