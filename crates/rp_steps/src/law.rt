//! Laws of steps, as contracts of functions that do nothing.

ghost use Rattle.std.specs.Prelude.{◌≡◌, ◌*◌, ℕ, List, [], count_by, length};
ghost use Rattle.rp_base.specs.Plan.{Fits, IsWellFormed};
ghost use Rattle.rp_base.specs.declared.plan.Plan.{Plan};
ghost use Rattle.rp_base.specs.declared.seen.Seen.{Seen};
ghost use Rattle.rp_stops.specs.Order.{AreCallsOf};
ghost use Rattle.rp_stops.specs.Rows.{Fills, grown};
ghost use Rattle.rp_steps.specs.Calls.{calls, contents_calls, is_write};
ghost use Rattle.rp_steps.specs.Contents.{NotesFit, Sources, contents};
ghost use Rattle.rp_steps.specs.Done.{IsDone};
ghost use Rattle.rp_steps.specs.Steps.{steps};
ghost use Rattle.rp_steps.specs.Writes.{writes};

/// A plan that has nothing to change has no steps.
pub fn nothing_to_change_is_no_steps()
    ensures { (seen : Seen) (plan : Plan) → Fits seen plan → IsDone seen plan → steps plan seen ≡ [] }
{}

/// The calls of a plan are those that the law of every stop speaks of: its growth, writes into new rows, the copies and the
/// protective MBR, each ended by a sync.
pub fn calls_are_of_the_plan()
    ensures { (seen : Seen) (plan : Plan) (sources : Sources) → IsWellFormed seen plan → NotesFit plan
        → AreCallsOf seen plan (contents_calls plan sources) (calls plan seen sources) }
{}

/// The writes into new rows, all done on the image in its new length, give each new row its contents: what was copied, what
/// was wiped, what was kept, and the tree with its superblock.
pub fn contents_are_filled()
    ensures { (seen : Seen) (plan : Plan) (sources : Sources) (old : List ℕ) → IsWellFormed seen plan → NotesFit plan
        → length old ≡ 512 * seen.sectors
        → Fills old plan (contents plan sources (grown old plan)) (contents_calls plan sources) }
{}

/// The writes that the steps of a plan count as are those among its calls.
pub fn writes_are_those_of_the_calls()
    ensures { (seen : Seen) (plan : Plan) (sources : Sources) → IsWellFormed seen plan
        → count_by is_write (calls plan seen sources) ≡ writes (steps plan seen) }
{}
