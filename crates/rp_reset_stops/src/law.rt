//! What a factory reset and the plan behind it leave, as contracts of functions that do nothing.

ghost use Rattle.std.specs.Prelude.{◌≡◌, ◌≢◌, ◌⊎◌, ◌++◌, ℕ, List, [], ◌∷◌, Ok};
ghost use Rattle.rp_base.specs.declared.plan.Plan.{Plan};
ghost use Rattle.rp_base.specs.declared.seen.Seen.{Seen};
ghost use Rattle.rp_defs.specs.declared.definition.Definition.{Definition};
ghost use Rattle.rp_disk.specs.Calls.{all_done};
ghost use Rattle.rp_disk.specs.History as history;
ghost use Rattle.rp_disk.specs.History.{LeftSince, MayLeave, moment};
ghost use Rattle.rp_disk.specs.Made.{Made, Past, history_of};
ghost use Rattle.rp_disk.specs.Runs.{AtAnyMomentBehindSync};
ghost use Rattle.rp_disk.specs.Stops.{IsFrontOf, Leaves};
ghost use Rattle.rp_disk.specs.declared.call.Call.{Call};
ghost use Rattle.rp_gpt.specs.Shown.{accepted};
ghost use Rattle.rp_gpt.specs.declared.table_fault.Empty.{Empty};
ghost use Rattle.rp_stops.specs.After.{seen_after};
ghost use Rattle.rp_stops.specs.Final.{IsFinal};
ghost use Rattle.rp_stops.specs.Order.{AreCallsOf};
ghost use Rattle.rp_stops.specs.Plans.{IsPlanFor};
ghost use Rattle.rp_stops.specs.Rows.{Contents, Fills};
ghost use Rattle.rp_reset_stops.specs.Through.{HoldWhatFills, IsPlanBehind, IsResetFor, IsSafeIfHonest, IsSafeIfWhole, KeepsOthers};

/// The image on which the calls of a reset were done whole is accepted with the reset table, each row of which holds its old
/// bytes. A plan that fits what the reset leaves is one for that image.
pub fn what_a_reset_leaves()
    ensures seen { (sector : ℕ) (old : List ℕ) (empty then : Empty) (seen : Seen) (defs : List Definition) (reset : Plan)
        (before : List Call) → IsResetFor sector old empty seen defs reset → AreCallsOf seen reset [] before → then ≢ Empty.Require
        → accepted sector (all_done old before) then ≡ Ok (seen_after seen reset) }
    ensures bytes { (sector : ℕ) (old : List ℕ) (empty : Empty) (seen : Seen) (defs : List Definition) (reset : Plan) (before : List Call)
        → IsResetFor sector old empty seen defs reset → AreCallsOf seen reset [] before → KeepsOthers old seen reset (all_done old before) }
    ensures behind { (sector : ℕ) (old : List ℕ) (empty : Empty) (seen : Seen) (defs : List Definition) (reset plan : Plan)
        (before : List Call) → IsResetFor sector old empty seen defs reset → AreCallsOf seen reset [] before
        → IsPlanBehind seen reset plan → IsPlanFor sector (all_done old before) Empty.Refuse (seen_after seen reset) plan }
{}

/// A stop in the calls of a reset and those of the plan behind it: where no torn header passes its checksum by chance, or where
/// the disk writes each sector whole or not at all, the image shows the old table, the reset table or the goal. The rows that it
/// shows of the old ones hold the old bytes, and where it shows the goal, the new rows hold their contents.
pub fn a_stop_leaves_the_old_the_reset_or_the_goal()
    ensures honest { (sector : ℕ) (old : List ℕ) (empty : Empty) (seen : Seen) (defs : List Definition) (reset plan : Plan)
        (before body behind made : List Call) (image : List ℕ) → IsResetFor sector old empty seen defs reset
        → AreCallsOf seen reset [] before → IsPlanBehind seen reset plan → AreCallsOf (seen_after seen reset) plan body behind
        → IsFrontOf made (before ++ behind) → Leaves old made image
        → IsSafeIfHonest sector old seen reset plan (HoldWhatFills (all_done old before) plan body) made image }
    ensures whole { (sector : ℕ) (old : List ℕ) (empty : Empty) (seen : Seen) (defs : List Definition) (reset plan : Plan)
        (before body behind made : List Call) (image : List ℕ) → IsResetFor sector old empty seen defs reset
        → AreCallsOf seen reset [] before → IsPlanBehind seen reset plan → AreCallsOf (seen_after seen reset) plan body behind
        → IsFrontOf made (before ++ behind) → Leaves old made image
        → IsSafeIfWhole sector old seen reset plan (HoldWhatFills (all_done old before) plan body) made image }
{}

/// The same over a disk, at any moment of a function that makes a sync and then the calls of both, from any start: the image could
/// have been left at the start already, or that sync was done and the image is such a one by the calls behind it.
pub fn any_moment_of_both_is_safe()
    ensures honest { (sector : ℕ) (bytes : Past) (empty : Empty) (seen : Seen) (defs : List Definition) (reset plan : Plan)
        (before body behind : List Call) (old now : List Made) → AtAnyMomentBehindSync old (before ++ behind) now
        → IsResetFor sector (history.held (history_of bytes old)) empty seen defs reset → AreCallsOf seen reset [] before
        → IsPlanBehind seen reset plan → AreCallsOf (seen_after seen reset) plan body behind
        → (made : List Call) (image : List ℕ) → LeftSince (history_of bytes now) (moment (history_of bytes old)) made image
        → MayLeave (history_of bytes old) image ⊎ ((more : List Call) × (made ≡ Call.Sync ∷ more)
        × IsSafeIfHonest sector (history.held (history_of bytes old)) seen reset plan
        (HoldWhatFills (all_done (history.held (history_of bytes old)) before) plan body) more image) }
    ensures whole { (sector : ℕ) (bytes : Past) (empty : Empty) (seen : Seen) (defs : List Definition) (reset plan : Plan)
        (before body behind : List Call) (old now : List Made) → AtAnyMomentBehindSync old (before ++ behind) now
        → IsResetFor sector (history.held (history_of bytes old)) empty seen defs reset → AreCallsOf seen reset [] before
        → IsPlanBehind seen reset plan → AreCallsOf (seen_after seen reset) plan body behind
        → (made : List Call) (image : List ℕ) → LeftSince (history_of bytes now) (moment (history_of bytes old)) made image
        → MayLeave (history_of bytes old) image ⊎ ((more : List Call) × (made ≡ Call.Sync ∷ more)
        × IsSafeIfWhole sector (history.held (history_of bytes old)) seen reset plan
        (HoldWhatFills (all_done (history.held (history_of bytes old)) before) plan body) more image) }
{}

/// All calls of both, done whole, give the final image of the plan behind the reset on the image between them. It is accepted with
/// the goal, and each row of the reset table holds its old bytes.
pub fn what_both_leave()
    ensures seen { (sector : ℕ) (old : List ℕ) (empty then : Empty) (seen : Seen) (defs : List Definition) (reset plan : Plan)
        (before body behind : List Call) → IsResetFor sector old empty seen defs reset → AreCallsOf seen reset [] before
        → IsPlanBehind seen reset plan → AreCallsOf (seen_after seen reset) plan body behind → then ≢ Empty.Require
        → accepted sector (all_done old (before ++ behind)) then ≡ Ok (seen_after (seen_after seen reset) plan) }
    ensures bytes { (sector : ℕ) (old : List ℕ) (empty : Empty) (seen : Seen) (defs : List Definition) (reset plan : Plan)
        (before body behind : List Call) → IsResetFor sector old empty seen defs reset → AreCallsOf seen reset [] before
        → IsPlanBehind seen reset plan → AreCallsOf (seen_after seen reset) plan body behind
        → KeepsOthers old seen reset (all_done old (before ++ behind)) }
    ensures final_image { (sector : ℕ) (old : List ℕ) (empty : Empty) (seen : Seen) (defs : List Definition) (reset plan : Plan)
        (before body behind : List Call) (contents : Contents) → IsResetFor sector old empty seen defs reset
        → AreCallsOf seen reset [] before → IsPlanBehind seen reset plan → AreCallsOf (seen_after seen reset) plan body behind
        → Fills (all_done old before) plan contents body
        → IsFinal (all_done old before) (seen_after seen reset) plan contents (all_done old (before ++ behind)) }
{}
