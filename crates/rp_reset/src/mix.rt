//! Definitions of one type that don't agree on factory reset.

ghost use Rattle.std.specs.Prelude.{◌≡◌, ◌≤◌, length};
ghost use Rattle.std.specs.List.{list_any};
ghost use Rattle.rp_reset.specs.Mix.{disagree as disagree_on, mix as mix_in};

use rp_defs::Definition;
use rp_demand::Demand;

/// The demand of the least definition that has the type of an earlier one and another `FactoryReset=`.
pub(crate) fn mix(defs: &[Definition]) -> Option<Demand>
    requires { length defs.now ≤ 256 }
    ensures { result ≡ mix_in defs.now }
{
    for (file, def) in defs.iter().enumerate() {
        if is_mixed(&defs[..file], def) {
            return Some(Demand::ResetMix { file: file as u16 });
        }
    }
    None
}

// Whether a definition doesn't agree with one of the earlier ones.
fn is_mixed(earlier: &[Definition], def: &Definition) -> bool
    ensures { result ≡ list_any (λ other. disagree_on other def.now) earlier.now }
{
    earlier.iter().any(|other| disagree(other, def))
}

// Whether two definitions have one type and not one `FactoryReset=`.
fn disagree(a: &Definition, b: &Definition) -> bool
    ensures { result ≡ disagree_on a.now b.now }
{
    a.kind == b.kind && a.factory_reset != b.factory_reset
}
