//! What a run leaves that carries out a goal, as contracts of functions that do nothing.

ghost use Rattle.std.specs.Prelude.{◌≡◌, ◌⊎◌, ℕ, List, [], ◌∷◌, Some, Ok};
ghost use Rattle.rp_base.specs.declared.guid.Guid.{Guid};
ghost use Rattle.rp_base.specs.declared.plan.Plan.{Plan};
ghost use Rattle.rp_base.specs.declared.seen.Seen.{Seen};
ghost use Rattle.rp_defs.specs.declared.definition.Definition.{Definition};
ghost use Rattle.rp_disk.specs.Calls.{all_done};
ghost use Rattle.rp_disk.specs.History as history;
ghost use Rattle.rp_disk.specs.History.{LeftSince, MayLeave, moment};
ghost use Rattle.rp_disk.specs.Made.{Made, Past, history_of};
ghost use Rattle.rp_disk.specs.Runs.{AtAnyMomentBehindSync, EndsSettled};
ghost use Rattle.rp_disk.specs.declared.call.Call.{Call};
ghost use Rattle.rp_gpt.specs.Shown.{accepted};
ghost use Rattle.rp_gpt.specs.declared.table_fault.Empty.{Empty};
ghost use Rattle.rp_idle.specs.Idle.{IsIdle, IsPlanned};
ghost use Rattle.rp_plan.specs.Goal.{goal};
ghost use Rattle.rp_sizes.specs.Needs.{AreFactsOn, wanted_of};
ghost use Rattle.rp_sizes.specs.declared.need.Fact.{Fact};
ghost use Rattle.rp_steps.specs.Calls.{calls as calls_for, contents_calls};
ghost use Rattle.rp_steps.specs.Contents.{NotesFit, Sources, contents as contents_for};
ghost use Rattle.rp_stops.specs.Final.{IsFinal};
ghost use Rattle.rp_stops.specs.Order.{AreCallsOf};
ghost use Rattle.rp_stops.specs.Plans.{IsPlanFor};
ghost use Rattle.rp_stops.specs.Rows.{Fills, HoldContents, grown};
ghost use Rattle.rp_stops.specs.Safe.{KeepsRows};
ghost use Rattle.rp_headline.specs.Kept.{KeepsPlaces};
ghost use Rattle.rp_headline.specs.Left.{HasGoal, IsDoneWith, IsLeft, IsSafeIfHonest, IsSafeIfWhole, IsUntouched, ShowsGoal, StopsIfHonest};

/// A plan that is the goal for an accepted image is one of which the law of every stop speaks.
pub fn goals_are_plans_for_their_images()
    ensures { (sector : ℕ) (old : List ℕ) (empty : Empty) (seen : Seen) (target : ℕ) (defs : List Definition) (facts : List Fact)
        (seed : Guid)
        (plan : Plan) → IsPlanned sector old empty seen target defs facts seed plan → IsPlanFor sector old empty seen plan }
{}

/// The calls of its steps carry it out: its growth, writes into new rows, the copies and the protective MBR, each ended by a sync.
/// The writes into new rows give them their contents.
pub fn calls_carry_out_goals()
    ensures calls { (sector : ℕ) (old : List ℕ) (empty : Empty) (seen : Seen) (target : ℕ) (defs : List Definition) (facts : List Fact)
        (seed : Guid) (plan : Plan) (sources : Sources) → IsPlanned sector old empty seen target defs facts seed plan → NotesFit plan
        → AreCallsOf seen plan (contents_calls plan sources) (calls_for plan seen sources) }
    ensures contents { (sector : ℕ) (old : List ℕ) (empty : Empty) (seen : Seen) (target : ℕ) (defs : List Definition) (facts : List Fact)
        (seed : Guid) (plan : Plan) (sources : Sources) → IsPlanned sector old empty seen target defs facts seed plan → NotesFit plan
        → Fills old plan (contents_for plan sources (grown old plan)) (contents_calls plan sources) }
{}

/// Once all calls are done, the image's table is the goal of its old table and the definitions.
pub fn the_table_is_the_goal()
    ensures { (sector : ℕ) (old : List ℕ) (empty : Empty) (seen : Seen) (target : ℕ) (defs : List Definition) (facts : List Fact)
        (seed : Guid)
        (plan : Plan) (body calls : List Call) → IsPlanned sector old empty seen target defs facts seed plan
        → AreCallsOf seen plan body calls
        → ShowsGoal sector seen plan (all_done old calls) }
{}

/// Every old partition keeps its place and bytes: it is in the goal with its slot, type, start and attributes, no smaller, and its
/// bytes are those that it had. One that no definition has is equal.
pub fn old_partitions_keep_place_and_bytes()
    ensures place { (sector : ℕ) (old : List ℕ) (empty : Empty) (seen : Seen) (target : ℕ) (defs : List Definition) (facts : List Fact)
        (seed : Guid) (plan : Plan) → IsPlanned sector old empty seen target defs facts seed plan → KeepsPlaces seen defs plan }
    ensures bytes { (sector : ℕ) (old : List ℕ) (empty : Empty) (seen : Seen) (target : ℕ) (defs : List Definition) (facts : List Fact)
        (seed : Guid) (plan : Plan) (body calls : List Call) → IsPlanned sector old empty seen target defs facts seed plan
        → AreCallsOf seen plan body calls → KeepsRows old seen (all_done old calls) }
{}

/// New partitions hold their contents.
pub fn new_partitions_hold_their_contents()
    ensures { (sector : ℕ) (old : List ℕ) (empty : Empty) (seen : Seen) (target : ℕ) (defs : List Definition) (facts : List Fact)
        (seed : Guid)
        (plan : Plan) (sources : Sources) → IsPlanned sector old empty seen target defs facts seed plan → NotesFit plan
        → HoldContents plan (contents_for plan sources (grown old plan)) (all_done old (calls_for plan seen sources)) }
{}

/// The image is the final one.
pub fn the_image_is_final()
    ensures { (sector : ℕ) (old : List ℕ) (empty : Empty) (seen : Seen) (target : ℕ) (defs : List Definition) (facts : List Fact)
        (seed : Guid)
        (plan : Plan) (sources : Sources) → IsPlanned sector old empty seen target defs facts seed plan → NotesFit plan
        → IsFinal old seen plan (contents_for plan sources (grown old plan)) (all_done old (calls_for plan seen sources)) }
{}

/// A second run writes nothing where none was dropped: the image is idle, and the plan that is the goal for it has no calls.
pub fn a_second_run_writes_nothing()
    ensures idle { (sector : ℕ) (old : List ℕ) (empty : Empty) (seen : Seen) (target : ℕ) (defs : List Definition) (facts : List Fact)
        (seed : Guid) (plan : Plan) (body calls : List Call) → IsPlanned sector old empty seen target defs facts seed plan
        → plan.dropped ≡ [] → AreCallsOf seen plan body calls → IsIdle sector (all_done old calls) defs seed }
    ensures nothing { (sector : ℕ) (old : List ℕ) (empty then : Empty) (seen next : Seen) (target : ℕ) (defs : List Definition)
        (facts others : List Fact) (seed : Guid) (plan second : Plan) (body calls : List Call) (sources : Sources)
        → IsPlanned sector old empty seen target defs facts seed plan → plan.dropped ≡ [] → AreCallsOf seen plan body calls
        → accepted sector (all_done old calls) then ≡ Ok next → AreFactsOn (wanted_of next.shown defs) others
        → goal next next.sectors defs others seed ≡ Ok second → calls_for second next sources ≡ [] }
{}

/// All of it as one.
pub fn what_a_run_leaves()
    ensures any { (sector : ℕ) (old : List ℕ) (empty : Empty) (seen : Seen) (target : ℕ) (defs : List Definition) (facts : List Fact)
        (seed : Guid) (plan : Plan) (body calls : List Call) → IsPlanned sector old empty seen target defs facts seed plan
        → AreCallsOf seen plan body calls → HasGoal sector old seen defs seed plan (all_done old calls) }
    ensures exact { (sector : ℕ) (old : List ℕ) (empty : Empty) (seen : Seen) (target : ℕ) (defs : List Definition) (facts : List Fact)
        (seed : Guid) (plan : Plan) (sources : Sources) → IsPlanned sector old empty seen target defs facts seed plan → NotesFit plan
        → IsDoneWith sector old seen defs seed plan (contents_for plan sources (grown old plan))
        (all_done old (calls_for plan seen sources)) }
{}

/// Stopped at any moment, from any start: the image could have been left at the start already; or a sync was done, and where no
/// torn header passes its checksum by chance, the image shows the old table or the goal with all that. On a disk that writes each
/// sector whole or not at all there is no such chance.
pub fn stopped_at_any_moment()
    ensures honest { (sector : ℕ) (bytes : Past) (empty : Empty) (seen : Seen) (target : ℕ) (defs : List Definition) (facts : List Fact)
        (seed : Guid) (plan : Plan) (sources : Sources) (was now : List Made)
        → AtAnyMomentBehindSync was (calls_for plan seen sources) now
        → IsPlanned sector (history.held (history_of bytes was)) empty seen target defs facts seed plan → NotesFit plan
        → (made : List Call) (image : List ℕ) → LeftSince (history_of bytes now) (moment (history_of bytes was)) made image
        → IsLeft (history_of bytes was) (IsSafeIfHonest sector (history.held (history_of bytes was)) seen plan
        (contents_for plan sources (grown (history.held (history_of bytes was)) plan))) made image }
    ensures whole { (sector : ℕ) (bytes : Past) (empty : Empty) (seen : Seen) (target : ℕ) (defs : List Definition) (facts : List Fact)
        (seed : Guid) (plan : Plan) (sources : Sources) (was now : List Made)
        → AtAnyMomentBehindSync was (calls_for plan seen sources) now
        → IsPlanned sector (history.held (history_of bytes was)) empty seen target defs facts seed plan → NotesFit plan
        → (made : List Call) (image : List ℕ) → LeftSince (history_of bytes now) (moment (history_of bytes was)) made image
        → IsLeft (history_of bytes was) (IsSafeIfWhole sector (history.held (history_of bytes was)) seen plan
        (contents_for plan sources (grown (history.held (history_of bytes was)) plan))) made image }
    ensures any { (sector : ℕ) (bytes : Past) (empty : Empty) (seen : Seen) (target : ℕ) (defs : List Definition) (facts : List Fact)
        (seed : Guid) (plan : Plan) (body calls : List Call) (was now : List Made) → AtAnyMomentBehindSync was calls now
        → IsPlanned sector (history.held (history_of bytes was)) empty seen target defs facts seed plan → AreCallsOf seen plan body calls
        → (made : List Call) (image : List ℕ) → LeftSince (history_of bytes now) (moment (history_of bytes was)) made image
        → IsLeft (history_of bytes was) (StopsIfHonest sector (history.held (history_of bytes was)) seen plan body) made image }
{}

/// Once a sync and all calls were made, a stop leaves the image with all of it, and no other.
pub fn a_stop_at_the_end_leaves_the_same()
    ensures exact { (sector : ℕ) (bytes : Past) (empty : Empty) (seen : Seen) (target : ℕ) (defs : List Definition) (facts : List Fact)
        (seed : Guid) (plan : Plan) (sources : Sources) (was now : List Made)
        → EndsSettled was (Call.Sync ∷ calls_for plan seen sources) now
        → IsPlanned sector (history.held (history_of bytes was)) empty seen target defs facts seed plan → NotesFit plan
        → (image : List ℕ) → MayLeave (history_of bytes now) image
        → IsDoneWith sector (history.held (history_of bytes was)) seen defs seed plan
        (contents_for plan sources (grown (history.held (history_of bytes was)) plan)) image }
    ensures any { (sector : ℕ) (bytes : Past) (empty : Empty) (seen : Seen) (target : ℕ) (defs : List Definition) (facts : List Fact)
        (seed : Guid) (plan : Plan) (body calls : List Call) (was now : List Made) → EndsSettled was (Call.Sync ∷ calls) now
        → IsPlanned sector (history.held (history_of bytes was)) empty seen target defs facts seed plan → AreCallsOf seen plan body calls
        → (image : List ℕ) → MayLeave (history_of bytes now) image
        → HasGoal sector (history.held (history_of bytes was)) seen defs seed plan image }
{}

/// Where nothing was planned, and a sync was the only call, the image could have been left at the start already, or it is the one
/// that was shown then.
pub fn a_sync_alone_changes_nothing()
    ensures { (bytes : Past) (was now : List Made) → AtAnyMomentBehindSync was [] now
        → (made : List Call) (image : List ℕ) → LeftSince (history_of bytes now) (moment (history_of bytes was)) made image
        → IsLeft (history_of bytes was) (IsUntouched (history.held (history_of bytes was))) made image }
{}
