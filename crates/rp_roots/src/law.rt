//! What is planned by sources that tell, as contracts of functions that do nothing.

ghost use Rattle.std.specs.Prelude.{◌≡◌, ℕ, All, List, Ok};
ghost use Rattle.rp_apply.specs.Commits.{HavePlannedRoots};
ghost use Rattle.rp_apply.specs.Sourced.{paths_of};
ghost use Rattle.rp_base.specs.Plan.{IsTarget, noted_of};
ghost use Rattle.rp_base.specs.declared.guid.Guid.{Guid};
ghost use Rattle.rp_base.specs.declared.plan.Plan.{Plan};
ghost use Rattle.rp_base.specs.declared.seen.Seen.{Seen};
ghost use Rattle.rp_defs.specs.WellFormed.{IsWellFormed};
ghost use Rattle.rp_defs.specs.declared.definition.Definition.{Definition};
ghost use Rattle.rp_io.specs.declared.stored.Stored.{Stored};
ghost use Rattle.rp_plan.specs.Goal.{goal};
ghost use Rattle.rp_plan.specs.Plannable.{IsPlannable};
ghost use Rattle.rp_sizes.specs.Facts.{facts};
ghost use Rattle.rp_sizes.specs.Needs.{AreFactsOn, wanted_of};
ghost use Rattle.rp_step.specs.Sourced.{sources_in};
ghost use Rattle.rp_roots.specs.Whole.{HasWholeSource};

/// What sources tell are facts on what is wanted. A goal by them plans each row with all bytes of its source, and each pair with
/// the root hash over what its data's row is to hold: its source and zeros behind it.
pub fn goals_have_their_roots()
    ensures known { (seen : Seen) (defs : List Definition) (files : List Stored) (seed : Guid)
        → AreFactsOn (wanted_of seen.shown defs) (facts seed files seen.shown defs) }
    ensures whole { (seen : Seen) (target : ℕ) (defs : List Definition) (files : List Stored) (seed : Guid) (plan : Plan) → IsPlannable seen
        → IsTarget seen.shown.sector seen.sectors target → IsWellFormed defs
        → goal seen target defs (facts seed files seen.shown defs) seed ≡ Ok plan
        → All (HasWholeSource (sources_in files (paths_of defs))) (noted_of plan) }
    ensures roots { (seen : Seen) (target : ℕ) (defs : List Definition) (files : List Stored) (seed : Guid) (plan : Plan) → IsPlannable seen
        → IsTarget seen.shown.sector seen.sectors target → IsWellFormed defs
        → goal seen target defs (facts seed files seen.shown defs) seed ≡ Ok plan
        → HavePlannedRoots plan (sources_in files (paths_of defs)) }
{}
