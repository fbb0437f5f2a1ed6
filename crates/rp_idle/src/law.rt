//! Laws of planning again, as contracts of functions that do nothing.

ghost use Rattle.std.specs.Prelude.{◌≡◌, ℕ, All, IsSome, List, [], Ok};
ghost use Rattle.rp_base.specs.Plan.{IsTarget};
ghost use Rattle.rp_base.specs.declared.guid.Guid.{Guid};
ghost use Rattle.rp_base.specs.declared.plan.Change.{Change};
ghost use Rattle.rp_base.specs.declared.plan.Note.{Note};
ghost use Rattle.rp_base.specs.declared.plan.Plan.{Plan};
ghost use Rattle.rp_base.specs.declared.seen.Seen.{Seen};
ghost use Rattle.rp_defs.specs.WellFormed.{IsWellFormed};
ghost use Rattle.rp_defs.specs.declared.definition.Definition.{Definition};
ghost use Rattle.rp_disk.specs.Calls.{all_done};
ghost use Rattle.rp_disk.specs.declared.call.Call.{Call};
ghost use Rattle.rp_gpt.specs.Shown.{accepted};
ghost use Rattle.rp_gpt.specs.declared.table_fault.Empty.{Empty};
ghost use Rattle.rp_plan.specs.Goal.{goal};
ghost use Rattle.rp_plan.specs.Plannable.{IsPlannable};
ghost use Rattle.rp_sizes.specs.Needs.{AreFactsOn, matched_of, wanted_of};
ghost use Rattle.rp_sizes.specs.declared.need.Fact.{Fact};
ghost use Rattle.rp_steps.specs.Calls.{calls as calls_for};
ghost use Rattle.rp_steps.specs.Contents.{NotesFit, Sources, contents};
ghost use Rattle.rp_steps.specs.Steps.{steps as steps_for};
ghost use Rattle.rp_stops.specs.Final.{IsFinal};
ghost use Rattle.rp_stops.specs.Order.{AreCallsOf};
ghost use Rattle.rp_stops.specs.Rows.{grown};
ghost use Rattle.rp_idle.specs.Idle.{IsIdle, IsPlanned};

/// Planned again on the table of a goal that dropped nothing, with the same definitions and target, each definition has a
/// row, and the goal is that table, with each row the same, and drops nothing, whatever is known of sources and whatever the
/// seed.
pub fn the_goal_again_is_the_goal()
    ensures matched { (seen : Seen) (target : ℕ) (defs : List Definition) (facts : List Fact) (seed : Guid) (plan : Plan) → IsPlannable seen
        → IsTarget seen.shown.sector seen.sectors target → IsWellFormed defs → goal seen target defs facts seed ≡ Ok plan
        → plan.dropped ≡ [] → All IsSome (matched_of plan.goal defs) }
    ensures same { (seen : Seen) (target : ℕ) (defs : List Definition) (facts : List Fact) (seed : Guid) (plan : Plan) (again : Seen)
        (others : List Fact) (other : Guid) → IsPlannable seen → IsTarget seen.shown.sector seen.sectors target → IsWellFormed defs
        → goal seen target defs facts seed ≡ Ok plan → plan.dropped ≡ [] → again.shown ≡ plan.goal
        → (next : Plan) × (goal again target defs others other ≡ Ok next) × (next.goal ≡ plan.goal) × (next.target ≡ target)
        × (next.dropped ≡ []) × All (λ (note : Note). note.change ≡ Change.Same) next.notes }
{}

/// A second run writes nothing where none was dropped: where a plan is the goal for an accepted image and drops nothing, the
/// image on which its calls were done whole, whatever they write into new rows, is idle for the same definitions and seed. So is
/// the final image.
pub fn what_is_done_is_idle()
    ensures done { (sector : ℕ) (old : List ℕ) (empty : Empty) (seen : Seen) (target : ℕ) (defs : List Definition) (facts : List Fact)
        (seed : Guid) (plan : Plan) (body calls : List Call) → IsPlanned sector old empty seen target defs facts seed plan
        → plan.dropped ≡ [] → AreCallsOf seen plan body calls → IsIdle sector (all_done old calls) defs seed }
    ensures final_image { (sector : ℕ) (old : List ℕ) (empty : Empty) (seen : Seen) (target : ℕ) (defs : List Definition)
        (facts : List Fact) (seed : Guid) (plan : Plan) (sources : Sources) (image : List ℕ)
        → IsPlanned sector old empty seen target defs facts seed plan → plan.dropped ≡ [] → NotesFit plan
        → IsFinal old seen plan (contents plan sources (grown old plan)) image → IsIdle sector image defs seed }
{}

/// On an idle image whose target is its own length the plan has no steps and no calls, and each row is noted as the same, by
/// whichever option the image is accepted.
pub fn idle_images_need_no_calls()
    ensures { (sector : ℕ) (image : List ℕ) (defs : List Definition) (seed : Guid) (empty : Empty) (seen : Seen) (facts : List Fact)
        (plan : Plan) (sources : Sources) → IsIdle sector image defs seed → accepted sector image empty ≡ Ok seen
        → AreFactsOn (wanted_of seen.shown defs) facts → goal seen seen.sectors defs facts seed ≡ Ok plan
        → (calls_for plan seen sources ≡ []) × (steps_for plan seen ≡ []) × All (λ (note : Note). note.change ≡ Change.Same) plan.notes }
{}
