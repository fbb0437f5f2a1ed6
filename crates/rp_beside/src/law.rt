//! A run beside other writers, as the contract of a function that does nothing.

ghost use Rattle.std.specs.Prelude.{◌≡◌, ◌++◌, ℕ, List};
ghost use Rattle.rp_base.specs.declared.plan.Plan.{Plan};
ghost use Rattle.rp_base.specs.declared.seen.Seen.{Seen};
ghost use Rattle.rp_disk.specs.Stops.{Leaves};
ghost use Rattle.rp_gpt.specs.declared.table_fault.Empty.{Empty};
ghost use Rattle.rp_steps.specs.Calls.{calls as calls_for};
ghost use Rattle.rp_steps.specs.Contents.{NotesFit, Sources, contents as contents_for};
ghost use Rattle.rp_stops.specs.Honest.{IsTornHonest};
ghost use Rattle.rp_stops.specs.Plans.{IsPlanFor};
ghost use Rattle.rp_stops.specs.Rows.{grown};
ghost use Rattle.rp_stops.specs.Sectors.{HasWholeSectors};
ghost use Rattle.rp_stops.specs.Writers.{Event, Interleaves, calls_of};
ghost use Rattle.rp_beside.specs.Beside.{IsSafeBeside};

/// Let a plan fit what is seen of an image, and let the calls of its steps be made in their order while other programs write inside
/// old partitions, anywhere between them. Wherever that stops, where no torn header passes its checksum by chance, the image shows
/// the old table or the goal, what the others wrote survives as far as it would without us, and where the goal is shown and wasn't
/// before, new partitions hold their contents. On a disk that writes each sector whole or not at all there is no such chance.
pub fn stopped_while_others_write()
    ensures honest { (sector : ℕ) (old : List ℕ) (empty : Empty) (seen : Seen) (plan : Plan) (sources : Sources)
        (events front rest : List Event) (image : List ℕ) → IsPlanFor sector old empty seen plan → NotesFit plan
        → Interleaves seen (calls_for plan seen sources) events → front ++ rest ≡ events → Leaves old (calls_of front) image
        → IsTornHonest sector old (calls_of front) image
        → IsSafeBeside sector old seen plan (contents_for plan sources (grown old plan)) front image }
    ensures whole { (sector : ℕ) (old : List ℕ) (empty : Empty) (seen : Seen) (plan : Plan) (sources : Sources)
        (events front rest : List Event) (image : List ℕ) → IsPlanFor sector old empty seen plan → NotesFit plan
        → Interleaves seen (calls_for plan seen sources) events → front ++ rest ≡ events → Leaves old (calls_of front) image
        → HasWholeSectors sector old (calls_of front) image
        → IsSafeBeside sector old seen plan (contents_for plan sources (grown old plan)) front image }
{}
