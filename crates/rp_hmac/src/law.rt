//! Laws of derived identifiers.

ghost use Rattle.std.specs.Prelude.{◌≡◌, ℕ, List, replicate};
ghost use Rattle.rp_base.specs.declared.guid.Guid.{Guid};
ghost use Rattle.rp_hmac.specs.Derived.{derived};

/// A derived identifier isn't zero.
pub fn derived_are_not_zero()
    ensures { (seed : Guid) (text : List ℕ) (k : ℕ) → (derived seed text k).0 ≡ replicate 16 0 → ⊥ }
{}
