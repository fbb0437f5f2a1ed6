//! What a run with a factory reset leaves, as contracts of functions that do nothing.

ghost use Rattle.std.specs.Prelude.{◌≡◌, ◌++◌, ℕ, List, [], ◌∷◌};
ghost use Rattle.rp_again.specs.Again.{HasNothingLeft};
ghost use Rattle.rp_base.specs.declared.guid.Guid.{Guid};
ghost use Rattle.rp_base.specs.declared.plan.Plan.{Plan};
ghost use Rattle.rp_base.specs.declared.seen.Seen.{Seen};
ghost use Rattle.rp_defs.specs.declared.definition.Definition.{Definition};
ghost use Rattle.rp_disk.specs.Calls.{all_done};
ghost use Rattle.rp_disk.specs.History as history;
ghost use Rattle.rp_disk.specs.History.{LeftSince, MayLeave, moment};
ghost use Rattle.rp_disk.specs.Made.{Made, Past, history_of};
ghost use Rattle.rp_disk.specs.Runs.{AtAnyMomentBehindSync, EndsSettled};
ghost use Rattle.rp_disk.specs.Stops.{IsFrontOf, Leaves};
ghost use Rattle.rp_disk.specs.declared.call.Call.{Call};
ghost use Rattle.rp_gpt.specs.declared.table_fault.Empty.{Empty};
ghost use Rattle.rp_headline.specs.Left.{IsLeft};
ghost use Rattle.rp_idle.specs.Idle.{IsPlanned};
ghost use Rattle.rp_reset_headline.specs.Anew.{HasGoalAnew, HoldAnew, IsDoneAnew, calls_of_both};
ghost use Rattle.rp_reset_headline.specs.Planned.{IsPlannedAnew, IsReset};
ghost use Rattle.rp_reset_stops.specs.Through.{HoldWhatFills, IsPlanBehind, IsResetFor, IsSafeIfHonest, IsSafeIfWhole};
ghost use Rattle.rp_sizes.specs.declared.need.Fact.{Fact};
ghost use Rattle.rp_steps.specs.Calls.{calls as calls_for, contents_calls};
ghost use Rattle.rp_steps.specs.Contents.{NotesFit, Sources};
ghost use Rattle.rp_stops.specs.After.{seen_after};
ghost use Rattle.rp_stops.specs.Order.{AreCallsOf};

/// The plan of a reset is one of which the laws of every stop speak, and the calls of its steps carry it out. It writes no
/// contents.
pub fn resets_are_plans_for_their_images()
    ensures plan { (sector : ℕ) (old : List ℕ) (empty : Empty) (seen : Seen) (defs : List Definition) (reset : Plan)
        → IsReset sector old empty seen defs reset → IsResetFor sector old empty seen defs reset }
    ensures calls { (sector : ℕ) (old : List ℕ) (empty : Empty) (seen : Seen) (defs : List Definition) (reset : Plan) (sources : Sources)
        → IsReset sector old empty seen defs reset → AreCallsOf seen reset [] (calls_for reset seen sources) }
{}

/// The goal for what a reset leaves is a plan that fits it, and it is the goal for the image on which the reset's calls were done
/// whole.
pub fn what_is_left_is_planned_for()
    ensures fits { (sector : ℕ) (old : List ℕ) (empty : Empty) (seen : Seen) (target : ℕ) (defs : List Definition) (facts : List Fact)
        (seed : Guid) (reset plan : Plan) → IsReset sector old empty seen defs reset
        → IsPlannedAnew sector seen target defs facts seed reset plan → IsPlanBehind seen reset plan }
    ensures planned { (sector : ℕ) (old : List ℕ) (empty : Empty) (seen : Seen) (target : ℕ) (defs : List Definition) (facts : List Fact)
        (seed : Guid) (reset plan : Plan) (before : List Call) → IsReset sector old empty seen defs reset
        → IsPlannedAnew sector seen target defs facts seed reset plan → AreCallsOf seen reset [] before
        → IsPlanned sector (all_done old before) Empty.Refuse (seen_after seen reset) target defs facts seed plan }
    ensures calls { (sector : ℕ) (old : List ℕ) (empty : Empty) (seen : Seen) (target : ℕ) (defs : List Definition) (facts : List Fact)
        (seed : Guid) (reset plan : Plan) (sources : Sources) → IsReset sector old empty seen defs reset
        → IsPlannedAnew sector seen target defs facts seed reset plan → NotesFit plan
        → AreCallsOf (seen_after seen reset) plan (contents_calls plan sources) (calls_for plan (seen_after seen reset) sources) }
{}

/// Once all calls of both are done, the image's table is the goal of its reset table and the definitions, and every partition of the
/// reset table keeps its place and bytes. By the calls of their steps new partitions hold their contents.
pub fn what_both_commits_leave()
    ensures any { (sector : ℕ) (old : List ℕ) (empty : Empty) (seen : Seen) (target : ℕ) (defs : List Definition) (facts : List Fact)
        (seed : Guid) (reset plan : Plan) (before body behind : List Call) → IsReset sector old empty seen defs reset
        → IsPlannedAnew sector seen target defs facts seed reset plan → AreCallsOf seen reset [] before
        → AreCallsOf (seen_after seen reset) plan body behind
        → HasGoalAnew sector old seen defs seed reset plan (all_done old (before ++ behind)) }
    ensures exact { (sector : ℕ) (old : List ℕ) (empty : Empty) (seen : Seen) (target : ℕ) (defs : List Definition) (facts : List Fact)
        (seed : Guid) (reset plan : Plan) (sources : Sources) → IsReset sector old empty seen defs reset
        → IsPlannedAnew sector seen target defs facts seed reset plan → NotesFit plan
        → IsDoneAnew sector old seen defs seed reset plan sources (all_done old (calls_of_both seen reset plan sources)) }
{}

/// A stop in the calls of their steps, whichever of them were made: where no torn header passes its checksum by chance, or where the
/// disk writes each sector whole or not at all, the image shows the old table, the reset table or the goal. The rows that it shows of
/// the old ones hold the old bytes, and where it shows the goal, the new rows hold their contents.
pub fn a_part_of_both_is_safe()
    ensures honest { (sector : ℕ) (old : List ℕ) (empty : Empty) (seen : Seen) (target : ℕ) (defs : List Definition) (facts : List Fact)
        (seed : Guid) (reset plan : Plan) (sources : Sources) (made : List Call) (image : List ℕ) → IsReset sector old empty seen defs reset
        → IsPlannedAnew sector seen target defs facts seed reset plan → NotesFit plan
        → IsFrontOf made (calls_of_both seen reset plan sources) → Leaves old made image
        → IsSafeIfHonest sector old seen reset plan (HoldAnew old seen reset plan sources) made image }
    ensures whole { (sector : ℕ) (old : List ℕ) (empty : Empty) (seen : Seen) (target : ℕ) (defs : List Definition) (facts : List Fact)
        (seed : Guid) (reset plan : Plan) (sources : Sources) (made : List Call) (image : List ℕ) → IsReset sector old empty seen defs reset
        → IsPlannedAnew sector seen target defs facts seed reset plan → NotesFit plan
        → IsFrontOf made (calls_of_both seen reset plan sources) → Leaves old made image
        → IsSafeIfWhole sector old seen reset plan (HoldAnew old seen reset plan sources) made image }
{}

/// Stopped at any moment, from any start: the image could have been left at the start already; or a sync was done, and the image is
/// such a one by the calls behind it. Whatever is written into new rows, they hold what these writes give.
pub fn stopped_at_any_moment()
    ensures honest { (sector : ℕ) (bytes : Past) (empty : Empty) (seen : Seen) (target : ℕ) (defs : List Definition) (facts : List Fact)
        (seed : Guid) (reset plan : Plan) (sources : Sources) (was now : List Made)
        → AtAnyMomentBehindSync was (calls_of_both seen reset plan sources) now
        → IsReset sector (history.held (history_of bytes was)) empty seen defs reset
        → IsPlannedAnew sector seen target defs facts seed reset plan → NotesFit plan
        → (made : List Call) (image : List ℕ) → LeftSince (history_of bytes now) (moment (history_of bytes was)) made image
        → IsLeft (history_of bytes was) (IsSafeIfHonest sector (history.held (history_of bytes was)) seen reset plan
        (HoldAnew (history.held (history_of bytes was)) seen reset plan sources)) made image }
    ensures whole { (sector : ℕ) (bytes : Past) (empty : Empty) (seen : Seen) (target : ℕ) (defs : List Definition) (facts : List Fact)
        (seed : Guid) (reset plan : Plan) (sources : Sources) (was now : List Made)
        → AtAnyMomentBehindSync was (calls_of_both seen reset plan sources) now
        → IsReset sector (history.held (history_of bytes was)) empty seen defs reset
        → IsPlannedAnew sector seen target defs facts seed reset plan → NotesFit plan
        → (made : List Call) (image : List ℕ) → LeftSince (history_of bytes now) (moment (history_of bytes was)) made image
        → IsLeft (history_of bytes was) (IsSafeIfWhole sector (history.held (history_of bytes was)) seen reset plan
        (HoldAnew (history.held (history_of bytes was)) seen reset plan sources)) made image }
    ensures any { (sector : ℕ) (bytes : Past) (empty : Empty) (seen : Seen) (target : ℕ) (defs : List Definition) (facts : List Fact)
        (seed : Guid) (reset plan : Plan) (before body behind : List Call) (was now : List Made)
        → AtAnyMomentBehindSync was (before ++ behind) now
        → IsReset sector (history.held (history_of bytes was)) empty seen defs reset
        → IsPlannedAnew sector seen target defs facts seed reset plan → AreCallsOf seen reset [] before
        → AreCallsOf (seen_after seen reset) plan body behind
        → (made : List Call) (image : List ℕ) → LeftSince (history_of bytes now) (moment (history_of bytes was)) made image
        → IsLeft (history_of bytes was) (IsSafeIfHonest sector (history.held (history_of bytes was)) seen reset plan
        (HoldWhatFills (all_done (history.held (history_of bytes was)) before) plan body)) made image }
    ensures any_whole { (sector : ℕ) (bytes : Past) (empty : Empty) (seen : Seen) (target : ℕ) (defs : List Definition)
        (facts : List Fact) (seed : Guid) (reset plan : Plan) (before body behind : List Call) (was now : List Made)
        → AtAnyMomentBehindSync was (before ++ behind) now
        → IsReset sector (history.held (history_of bytes was)) empty seen defs reset
        → IsPlannedAnew sector seen target defs facts seed reset plan → AreCallsOf seen reset [] before
        → AreCallsOf (seen_after seen reset) plan body behind
        → (made : List Call) (image : List ℕ) → LeftSince (history_of bytes now) (moment (history_of bytes was)) made image
        → IsLeft (history_of bytes was) (IsSafeIfWhole sector (history.held (history_of bytes was)) seen reset plan
        (HoldWhatFills (all_done (history.held (history_of bytes was)) before) plan body)) made image }
{}

/// Once a sync and all calls of both were made, a stop leaves the image with all of it, and no other.
pub fn a_stop_at_the_end_leaves_the_same()
    ensures exact { (sector : ℕ) (bytes : Past) (empty : Empty) (seen : Seen) (target : ℕ) (defs : List Definition) (facts : List Fact)
        (seed : Guid) (reset plan : Plan) (sources : Sources) (was now : List Made)
        → EndsSettled was (Call.Sync ∷ calls_of_both seen reset plan sources) now
        → IsReset sector (history.held (history_of bytes was)) empty seen defs reset
        → IsPlannedAnew sector seen target defs facts seed reset plan → NotesFit plan
        → (image : List ℕ) → MayLeave (history_of bytes now) image
        → IsDoneAnew sector (history.held (history_of bytes was)) seen defs seed reset plan sources image }
    ensures any { (sector : ℕ) (bytes : Past) (empty : Empty) (seen : Seen) (target : ℕ) (defs : List Definition) (facts : List Fact)
        (seed : Guid) (reset plan : Plan) (before body behind : List Call) (was now : List Made)
        → EndsSettled was (Call.Sync ∷ before ++ behind) now
        → IsReset sector (history.held (history_of bytes was)) empty seen defs reset
        → IsPlannedAnew sector seen target defs facts seed reset plan → AreCallsOf seen reset [] before
        → AreCallsOf (seen_after seen reset) plan body behind → (image : List ℕ) → MayLeave (history_of bytes now) image
        → HasGoalAnew sector (history.held (history_of bytes was)) seen defs seed reset plan image }
{}

/// A second run without reset writes nothing where none was dropped: the image is idle for the same definitions and seed, and the plan
/// that is the goal for it, by whichever option it is accepted, has no calls. So it is for each image that a stop may leave once all
/// was made.
pub fn a_second_run_has_no_calls()
    ensures done { (sector : ℕ) (old : List ℕ) (empty : Empty) (seen : Seen) (target : ℕ) (defs : List Definition) (facts : List Fact)
        (seed : Guid) (reset plan : Plan) (before body behind : List Call) → IsReset sector old empty seen defs reset
        → IsPlannedAnew sector seen target defs facts seed reset plan → AreCallsOf seen reset [] before
        → AreCallsOf (seen_after seen reset) plan body behind → plan.dropped ≡ []
        → HasNothingLeft sector (all_done old (before ++ behind)) defs seed }
    ensures left { (sector : ℕ) (bytes : Past) (empty : Empty) (seen : Seen) (target : ℕ) (defs : List Definition) (facts : List Fact)
        (seed : Guid) (reset plan : Plan) (before body behind : List Call) (was now : List Made)
        → EndsSettled was (Call.Sync ∷ before ++ behind) now
        → IsReset sector (history.held (history_of bytes was)) empty seen defs reset
        → IsPlannedAnew sector seen target defs facts seed reset plan → AreCallsOf seen reset [] before
        → AreCallsOf (seen_after seen reset) plan body behind → plan.dropped ≡ [] → (image : List ℕ)
        → MayLeave (history_of bytes now) image → HasNothingLeft sector image defs seed }
{}
