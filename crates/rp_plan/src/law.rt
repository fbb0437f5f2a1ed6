//! Laws of the goal.

ghost use Rattle.std.specs.Prelude.{◌≡◌, ◌⊎◌, ℕ, All, List, Ok};
ghost use Rattle.rp_base.specs.Plan.{Fits, IsTarget, IsWellFormed, noted_of};
ghost use Rattle.rp_base.specs.declared.guid.Guid.{Guid};
ghost use Rattle.rp_base.specs.declared.plan.Plan.{Plan};
ghost use Rattle.rp_base.specs.declared.seen.Origin.TheVariants.{Primary};
ghost use Rattle.rp_base.specs.declared.seen.Seen.{Seen};
ghost use Rattle.rp_defs.specs.WellFormed.{IsWellFormed as AreWellFormed};
ghost use Rattle.rp_defs.specs.declared.definition.Definition.{Definition};
ghost use Rattle.rp_sizes.specs.Needs.{AreFactsOn, wanted_of};
ghost use Rattle.rp_sizes.specs.declared.need.Fact.{Fact};
ghost use Rattle.rp_plan.specs.Goal.{goal};
ghost use Rattle.rp_plan.specs.Limits.{ObeysLimits};
ghost use Rattle.rp_plan.specs.Plannable.{IsPlannable};

/// A plan that is the goal is well formed for what was seen: its table can be written on a disk of the target's length, its
/// rows lie in bounds and share no unit, each has its note, sources fit in their rows, and the halves of pairs name each
/// other.
pub fn goals_are_well_formed()
    ensures { (seen : Seen) (target : ℕ) (defs : List Definition) (facts : List Fact) (seed : Guid) (plan : Plan) → IsPlannable seen
        → IsTarget seen.shown.sector seen.sectors target → AreWellFormed defs → AreFactsOn (wanted_of seen.shown defs) facts
        → goal seen target defs facts seed ≡ Ok plan → IsWellFormed seen plan }
{}

/// A plan that is the goal fits what was seen, where the image keeps its length or its primary copy was read: old rows keep
/// their slot, type, start and attributes and never shrink, and new rows stand in slots that no old row has, are noted as
/// new and share no unit with an old row.
pub fn goals_fit()
    ensures { (seen : Seen) (target : ℕ) (defs : List Definition) (facts : List Fact) (seed : Guid) (plan : Plan) → IsPlannable seen
        → IsTarget seen.shown.sector seen.sectors target → AreWellFormed defs → AreFactsOn (wanted_of seen.shown defs) facts
        → (target ≡ seen.sectors) ⊎ (seen.origin ≡ Primary) → goal seen target defs facts seed ≡ Ok plan → Fits seen plan }
{}

/// Each new row of the goal begins at a grain, has whole grains, no fewer than its definition's minimum and no more than its
/// maximum, and behind it lies padding between the padding's minimum and maximum. The old row of a definition has the size
/// that it had, or that of an anchor's share, which keeps to these limits as well.
pub fn goals_obey_limits()
    ensures { (seen : Seen) (target : ℕ) (defs : List Definition) (facts : List Fact) (seed : Guid) (plan : Plan) → IsPlannable seen
        → IsTarget seen.shown.sector seen.sectors target → AreWellFormed defs → AreFactsOn (wanted_of seen.shown defs) facts
        → goal seen target defs facts seed ≡ Ok plan → All (ObeysLimits seen defs facts plan) (noted_of plan) }
{}
