//! Laws of stops, as contracts of functions that do nothing.

ghost use Rattle.std.specs.Prelude.{◌≡◌, ◌≢◌, ◌++◌, ◌⊎◌, ◌≤◌, ◌*◌, ℕ, List, [], ◌∷◌, length, replicate, Ok, Some};
ghost use Rattle.rp_base.specs.Image.{bytes_at};
ghost use Rattle.rp_base.specs.declared.geometry.Which.{Which};
ghost use Rattle.rp_base.specs.declared.plan.Plan.{Plan};
ghost use Rattle.rp_base.specs.declared.seen.Seen.{Seen};
ghost use Rattle.rp_disk.specs.Calls.{all_done};
ghost use Rattle.rp_disk.specs.History as history;
ghost use Rattle.rp_disk.specs.History.{IsSettled, LeftSince, MayLeave, moment};
ghost use Rattle.rp_disk.specs.Made.{Made, Past, history_of};
ghost use Rattle.rp_disk.specs.Runs.{AtAnyMoment, AtAnyMomentBehindSync};
ghost use Rattle.rp_disk.specs.declared.call.Call.{Call};
ghost use Rattle.rp_disk.specs.Stops.{IsFrontOf, Leaves};
ghost use Rattle.rp_gpt.specs.Accepted.{HoldsTable};
ghost use Rattle.rp_gpt.specs.Shown.{accepted, shown, shows, told_at};
ghost use Rattle.rp_gpt.specs.declared.table_fault.Empty.{Empty};
ghost use Rattle.rp_stops.specs.After.{seen_after};
ghost use Rattle.rp_stops.specs.Final.{ChangesItsOwn, IsFinal};
ghost use Rattle.rp_stops.specs.Honest.{IsTornHonest};
ghost use Rattle.rp_stops.specs.Order.{AreCallsOf, close_call, header_call, header_offset, target_sectors};
ghost use Rattle.rp_stops.specs.Plans.{IsPlanFor, StopsAlone, StopsWell};
ghost use Rattle.rp_stops.specs.Rows.{Contents, Fills};
ghost use Rattle.rp_stops.specs.Sectors.{HasWholeSectors};
ghost use Rattle.rp_stops.specs.Writers.{Event, Interleaves, calls_of};
ghost use Rattle.rp_stops.specs.Wrong.{LeavesNoTable};

/// The law of every stop. Let a plan fit what is seen of an image, and let these be its calls, whatever bytes they write into
/// new rows. Let others write inside old rows, anywhere between the calls. Then each image that a stop may leave of the first of
/// them, and that has no torn header which passes its checksum by chance, shows the old table or the goal; where it shows the
/// goal and the old image doesn't, the new rows hold the contents; and the writes of others survive.
pub fn stops_law()
    ensures { (sector : ℕ) (old : List ℕ) (empty : Empty) (seen : Seen) (plan : Plan) (body calls : List Call)
        (events front rest : List Event) (image : List ℕ)
        → IsPlanFor sector old empty seen plan → AreCallsOf seen plan body calls → Interleaves seen calls events → front ++ rest ≡ events
        → Leaves old (calls_of front) image → IsTornHonest sector old (calls_of front) image
        → StopsWell sector old seen plan body front image }
{}

/// Where nobody else writes, the image is safe.
pub fn alone_law()
    ensures { (sector : ℕ) (old : List ℕ) (empty : Empty) (seen : Seen) (plan : Plan) (body calls made : List Call) (image : List ℕ)
        → IsPlanFor sector old empty seen plan → AreCallsOf seen plan body calls → IsFrontOf made calls
        → Leaves old made image → IsTornHonest sector old made image → StopsAlone sector old seen plan body image }
{}

/// On a disk that writes each sector whole or not at all, no torn header passes its checksum by chance.
pub fn whole_sectors_are_honest()
    ensures { (sector : ℕ) (old : List ℕ) (calls : List Call) (image : List ℕ) → Leaves old calls image
        → HasWholeSectors sector old calls image
        → IsTornHonest sector old calls image }
{}

/// So there the law holds of each image that a stop may leave.
pub fn stops_of_whole_sectors()
    ensures others { (sector : ℕ) (old : List ℕ) (empty : Empty) (seen : Seen) (plan : Plan) (body calls : List Call)
        (events front rest : List Event) (image : List ℕ)
        → IsPlanFor sector old empty seen plan → AreCallsOf seen plan body calls → Interleaves seen calls events → front ++ rest ≡ events
        → Leaves old (calls_of front) image → HasWholeSectors sector old (calls_of front) image
        → StopsWell sector old seen plan body front image }
    ensures alone { (sector : ℕ) (old : List ℕ) (empty : Empty) (seen : Seen) (plan : Plan) (body calls made : List Call) (image : List ℕ)
        → IsPlanFor sector old empty seen plan → AreCallsOf seen plan body calls → IsFrontOf made calls
        → Leaves old made image → HasWholeSectors sector old made image → StopsAlone sector old seen plan body image }
{}

/// The law over a disk, at any moment of a function that makes the calls. Where nothing was pending at its start, each image that
/// a stop since might have left is safe. Where it makes a sync first, from any start: the image could have been left at the
/// start already, or it is safe.
pub fn any_moment_is_safe()
    ensures settled { (sector : ℕ) (past : Past) (empty : Empty) (seen : Seen) (plan : Plan) (body calls : List Call)
        (old now : List Made)
        → AtAnyMoment old calls now → IsSettled (history_of past old)
        → IsPlanFor sector (history.held (history_of past old)) empty seen plan → AreCallsOf seen plan body calls
        → (made : List Call) (image : List ℕ) → LeftSince (history_of past now) (moment (history_of past old)) made image
        → IsTornHonest sector (history.held (history_of past old)) made image
        → StopsAlone sector (history.held (history_of past old)) seen plan body image }
    ensures behind_sync { (sector : ℕ) (past : Past) (empty : Empty) (seen : Seen) (plan : Plan) (body calls : List Call)
        (old now : List Made)
        → AtAnyMomentBehindSync old calls now → IsPlanFor sector (history.held (history_of past old)) empty seen plan
        → AreCallsOf seen plan body calls
        → (made : List Call) (image : List ℕ) → LeftSince (history_of past now) (moment (history_of past old)) made image
        → MayLeave (history_of past old) image ⊎ ((more : List Call) × (made ≡ Call.Sync ∷ more)
        × (IsTornHonest sector (history.held (history_of past old)) more image
        → StopsAlone sector (history.held (history_of past old)) seen plan body image)) }
{}

/// Two plans are carried out, one after the other: a stop is one in the first, or one in the second on the image that the first
/// gave.
pub fn stops_of_two_plans()
    ensures { (sector : ℕ) (old : List ℕ) (empty then : Empty) (seen next : Seen) (plan second : Plan)
        (body calls other others made : List Call) (image : List ℕ)
        → IsPlanFor sector old empty seen plan → AreCallsOf seen plan body calls
        → IsPlanFor sector (all_done old calls) then next second → AreCallsOf next second other others
        → IsFrontOf made (calls ++ others) → Leaves old made image → IsTornHonest sector old made image
        → StopsAlone sector old seen plan body image ⊎ StopsAlone sector (all_done old calls) next second other image }
{}

/// All calls, done whole, give the final image. Each of its places tells the goal, and the image shows it and holds it as a
/// table in place.
pub fn finished_law()
    ensures final_image { (sector : ℕ) (old : List ℕ) (empty : Empty) (seen : Seen) (plan : Plan) (body calls : List Call)
        (contents : Contents)
        → IsPlanFor sector old empty seen plan → AreCallsOf seen plan body calls → Fills old plan contents body
        → IsFinal old seen plan contents (all_done old calls) }
    ensures told { (sector : ℕ) (old : List ℕ) (empty : Empty) (seen : Seen) (plan : Plan) (body calls : List Call) (which : Which)
        → IsPlanFor sector old empty seen plan → AreCallsOf seen plan body calls
        → told_at sector (all_done old calls) which ≡ shows plan.goal }
    ensures shown { (sector : ℕ) (old : List ℕ) (empty : Empty) (seen : Seen) (plan : Plan) (body calls : List Call)
        → IsPlanFor sector old empty seen plan → AreCallsOf seen plan body calls → shown sector (all_done old calls) ≡ shows plan.goal }
    ensures table { (sector : ℕ) (old : List ℕ) (empty : Empty) (seen : Seen) (plan : Plan) (body calls : List Call)
        → IsPlanFor sector old empty seen plan → AreCallsOf seen plan body calls → HoldsTable (all_done old calls) plan.goal }
{}

/// The final image is accepted, as the goal by its primary, with both copies the same and a right MBR, unless that is of another
/// table.
pub fn finished_is_accepted()
    ensures { (sector : ℕ) (old : List ℕ) (empty then : Empty) (seen : Seen) (plan : Plan) (body calls : List Call)
        → IsPlanFor sector old empty seen plan → AreCallsOf seen plan body calls → then ≢ Empty.Require
        → accepted sector (all_done old calls) then ≡ Ok (seen_after seen plan) }
{}

/// There is one final image.
pub fn final_image_is_one()
    ensures { (old : List ℕ) (seen : Seen) (plan : Plan) (contents : Contents) (image other : List ℕ)
        → IsFinal old seen plan contents image → IsFinal old seen plan contents other → image ≡ other }
{}

/// The first of the calls, done whole, change nothing but the length, new rows, places and the MBR.
pub fn first_calls_change_their_own()
    ensures { (sector : ℕ) (old : List ℕ) (empty : Empty) (seen : Seen) (plan : Plan) (body calls made : List Call)
        → IsPlanFor sector old empty seen plan → AreCallsOf seen plan body calls → IsFrontOf made calls
        → ChangesItsOwn old seen plan (all_done old made) }
{}

/// Why the order is as it is. Where the backup's header is zeros, as on an image without a backup or in the midst of its copy,
/// a stop may leave no table: where the primary is closed first; and where no sync stands between the backup's header and the
/// closing of the primary.
pub fn other_orders_leave_no_table()
    ensures primary_first { (sector : ℕ) (old : List ℕ) (empty : Empty) (seen : Seen) (plan : Plan) (start : List ℕ)
        → IsPlanFor sector old empty seen plan → length start ≡ 512 * plan.target
        → bytes_at start (header_offset sector (target_sectors plan) Which.Backup) sector ≡ replicate sector 0
        → LeavesNoTable sector start (close_call plan Which.Primary ∷ []) }
    ensures no_sync_between { (sector : ℕ) (old : List ℕ) (empty : Empty) (seen : Seen) (plan : Plan) (start : List ℕ)
        → IsPlanFor sector old empty seen plan → length start ≡ 512 * plan.target
        → bytes_at start (header_offset sector (target_sectors plan) Which.Backup) sector ≡ replicate sector 0
        → LeavesNoTable sector start (header_call plan Which.Backup ∷ close_call plan Which.Primary ∷ []) }
{}
