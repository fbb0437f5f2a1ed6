//! Laws of placings, for what is defined by them.

ghost use Rattle.std.specs.Prelude.{◌≡◌, ◌≢◌, ◌≤◌, ◌+◌, ◌-◌, ◌^◌, ℕ, ℤ, pos, List, [], Option, Some, Ok, Err, All, length, slice_get};
ghost use Rattle.rp_base.specs.declared.table.Table.{Table};
ghost use Rattle.rp_base.specs.declared.want.Want.{Want};
ghost use Rattle.rp_areas.specs.declared.gaps.Area.{Area};
ghost use Rattle.rp_areas.specs.Areas.{areas_of};
ghost use Rattle.rp_place.specs.declared.fit.New.{New};
ghost use Rattle.rp_place.specs.declared.fit.PlaceFault.{PlaceFault};
ghost use Rattle.rp_place.specs.declared.threshold.Placed.{Placed};
ghost use Rattle.rp_place.specs.Facts.{IsKept, IsPlaced, IsPlacement, IsRefused, needs_in};
ghost use Rattle.rp_place.specs.Placing.{kept, placed, settled};

/// Each new definition of priority at most the threshold goes, in order, to the least area with room for its need, and no
/// other goes to one. The needs fit the areas with what is used. Want of slots isn't looked at.
pub fn each_goes_to_the_least_area()
    ensures least { (areas : List Area) (news : List New) (threshold : ℤ) (places : List (Option ℕ))
        → placed areas news threshold ≡ Ok places → IsPlaced areas news threshold places }
    ensures fits { (areas : List Area) (news : List New) (threshold : ℤ) (places : List (Option ℕ))
        → All (λ a. a.used ≤ a.span) areas → placed areas news threshold ≡ Ok places → IsPlacement areas news threshold places }
    ensures no_slot { (areas : List Area) (news : List New) (threshold : ℤ) (file : ℕ)
        → placed areas news threshold ≢ Err (PlaceFault.Slot file) }
{}

/// The placement that is kept has the greatest threshold from 0 to 2^31 - 1 at which all that are kept have an area and a
/// slot; its places are those at this threshold. Where there is none, no threshold succeeds, and the fault is that of 0.
pub fn no_greater_threshold_succeeds()
    ensures kept { (areas : List Area) (news : List New) (free : ℕ) (p : Placed)
        → settled areas news free ≡ Ok p → IsKept areas news free p.threshold }
    ensures placed { (areas : List Area) (news : List New) (free : ℕ) (p : Placed)
        → settled areas news free ≡ Ok p → placed areas news p.threshold ≡ Ok p.areas }
    ensures few { (areas : List Area) (news : List New) (free : ℕ) (p : Placed)
        → settled areas news free ≡ Ok p → length (kept news p.threshold) ≤ free }
    ensures refused { (areas : List Area) (news : List New) (free : ℕ) (fault : PlaceFault)
        → settled areas news free ≡ Err fault → IsRefused areas news free fault }
{}

/// In each area of a table, what its anchor uses (its least and its padding's) and the needs that are placed there are at
/// most its span. So a share of the span has room for all minima.
pub fn minima_fit()
    ensures { (table : Table) (last : ℕ) (matched : List (Option ℕ)) (wants : List Want) (areas : List Area) (news : List New)
        (free : ℕ) (p : Placed)
        → areas_of table last matched wants ≡ Ok areas → settled areas news free ≡ Ok p
        → (place : ℕ) (area : Area) → slice_get areas place ≡ Some area → area.used + needs_in place news p.areas ≤ area.span }
{}

/// Where there is no new definition, nothing is placed, at the greatest threshold.
pub fn nothing_new_is_settled()
    ensures { (areas : List Area) (free : ℕ) → settled areas [] free ≡ Ok (record { threshold = pos (2 ^ 31 - 1); areas = [] }) }
{}
