ghost use Rattle.std.specs.Prelude.{◌≡◌, ◌≢◌, IfSome, replicate};
ghost use Rattle.rp_values.specs.Kinds.{id_of, kind_of};

use rp_base::Guid;
use rp_types::{Arch, by_name, read_guid};

/// A partition type: the name of one (`root`, `usr` and the like are those of this architecture), or a GUID as
/// `rp_types::read_guid` reads it, not all zero. `None` exactly for any other text.
#[tactic(auto, unfolding(crate::specs::Kinds::kind_of))]
pub fn read_kind(text: &str, arch: Arch) -> Option<Guid>
    ensures value { result ≡ kind_of arch text.now }
    ensures used { IfSome result (λ kind. kind.0 ≢ replicate 16 0) }
{
    match by_name(text, arch) {
        Some(kind) => Some(kind),
        None => read_id(text),
    }
}

/// An identifier: a GUID as `rp_types::read_guid` reads it, not all zero. `None` exactly for any other text.
#[tactic(auto, unfolding(crate::specs::Kinds::id_of))]
pub fn read_id(text: &str) -> Option<Guid>
    ensures value { result ≡ id_of text.now }
    ensures used { IfSome result (λ id. id.0 ≢ replicate 16 0) }
{
    let id = read_guid(text)?;
    if id.is_zero() { None } else { Some(id) }
}
