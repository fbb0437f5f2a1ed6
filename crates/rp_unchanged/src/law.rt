//! What is planned again for an image on which a goal was carried out, as contracts of functions that do nothing.

ghost use Rattle.std.specs.Prelude.{◌≡◌, ℕ, List, [], Ok};
ghost use Rattle.rp_apply.specs.Commits.{HavePlannedRoots};
ghost use Rattle.rp_apply.specs.Sourced.{paths_of};
ghost use Rattle.rp_base.specs.Plan.{IsTarget, IsWellFormed};
ghost use Rattle.rp_base.specs.declared.guid.Guid.{Guid};
ghost use Rattle.rp_base.specs.declared.plan.Plan.{Plan};
ghost use Rattle.rp_base.specs.declared.seen.Seen.{Seen};
ghost use Rattle.rp_defs.specs.WellFormed.{IsWellFormed as AreWellFormed};
ghost use Rattle.rp_defs.specs.declared.definition.Definition.{Definition};
ghost use Rattle.rp_gpt.specs.declared.table_fault.Empty.{Empty};
ghost use Rattle.rp_gpt.specs.declared.table_fault.Empty.TheVariants.{Require};
ghost use Rattle.rp_headline.specs.Left.{ShowsGoal};
ghost use Rattle.rp_idle.specs.Idle.{IsPlanned};
ghost use Rattle.rp_io.specs.declared.stored.Stored.{Stored};
ghost use Rattle.rp_plan.specs.Goal.{goal};
ghost use Rattle.rp_plan.specs.Plannable.{IsPlannable};
ghost use Rattle.rp_sizes.specs.Facts.{facts};
ghost use Rattle.rp_sizes.specs.Needs.{AreFactsOn, wanted_of};
ghost use Rattle.rp_sizes.specs.declared.need.Fact.{Fact};
ghost use Rattle.rp_step.specs.Sourced.{sources_in};
ghost use Rattle.rp_steps.specs.Contents.{NotesFit, Sources, contents};
ghost use Rattle.rp_stops.specs.Final.{IsFinal};
ghost use Rattle.rp_stops.specs.Rows.{HoldContents, grown};
ghost use Rattle.rp_types.specs.declared.arch.Arch.{Arch};
ghost use Rattle.rp_unchanged.specs.Defined.{AreNeverDropped, AreSealed, AreSteady, TakeHalves};
ghost use Rattle.rp_unchanged.specs.Pairs.{HaveRightTrees, HaveRootIds};
ghost use Rattle.rp_unchanged.specs.Unchanged.{HasPairs, IsSeenAsPlanned, IsUnchanged};

/// An image that shows a goal which drops no definition is accepted as it was planned, by its primary copy, with both copies exact.
/// What is planned for it again, by the same definitions and seed, its own length and whatever is known of sources, is the same
/// table, and copies, MBR, table and rows differ in nothing from it. So it is of the final image.
pub fn a_final_image_is_seen_as_planned()
    ensures shown { (sector : ℕ) (old : List ℕ) (empty : Empty) (seen : Seen) (target : ℕ) (defs : List Definition) (known : List Fact)
        (seed : Guid) (plan : Plan) (image : List ℕ) → IsPlanned sector old empty seen target defs known seed plan → plan.dropped ≡ []
        → ShowsGoal sector seen plan image → IsSeenAsPlanned sector image seen plan defs seed }
    ensures final_image { (sector : ℕ) (old : List ℕ) (empty : Empty) (seen : Seen) (target : ℕ) (defs : List Definition)
        (known : List Fact) (seed : Guid) (plan : Plan) (sources : Sources) (image : List ℕ)
        → IsPlanned sector old empty seen target defs known seed plan → plan.dropped ≡ [] → NotesFit plan
        → IsFinal old seen plan (contents plan sources (grown old plan)) image → IsSeenAsPlanned sector image seen plan defs seed }
{}

/// An image whose new rows hold the contents of a well formed plan has right hash trees in its new pairs, where each pair is planned
/// with the root hash of its source, and has it as identifiers. So has the final image of a goal by what sources tell, where halves
/// of pairs have no identifiers of their own.
pub fn a_finished_pair_has_nothing_bad()
    ensures held { (seen : Seen) (plan : Plan) (sources : Sources) (before image : List ℕ) → IsWellFormed seen plan → NotesFit plan
        → HavePlannedRoots plan sources → HaveRootIds plan → HoldContents plan (contents plan sources before) image
        → HaveRightTrees plan image }
    ensures final_image { (sector : ℕ) (old : List ℕ) (empty : Empty) (seen : Seen) (target : ℕ) (defs : List Definition)
        (files : List Stored) (seed : Guid) (plan : Plan) (image : List ℕ)
        → IsPlanned sector old empty seen target defs (facts seed files seen.shown defs) seed plan → NotesFit plan → TakeHalves defs
        → IsFinal old seen plan (contents plan (sources_in files (paths_of defs)) (grown old plan)) image → HaveRightTrees plan image }
{}

/// A goal gives each new pair its root hash as identifiers, where halves of pairs have none of their own.
pub fn goals_name_pairs_by_their_roots()
    ensures { (seen : Seen) (target : ℕ) (defs : List Definition) (known : List Fact) (seed : Guid) (plan : Plan) → IsPlannable seen
        → IsTarget seen.shown.sector seen.sectors target → AreWellFormed defs → AreFactsOn (wanted_of seen.shown defs) known
        → TakeHalves defs → goal seen target defs known seed ≡ Ok plan → HaveRootIds plan }
{}

/// An image that shows a goal which drops no definition, and whose new pairs have right hash trees, differs in nothing from what is
/// planned for it again, where its partitions of root and usr and their hash trees are pairs of the plan. So does the final image of
/// a goal by what sources tell, where halves of pairs have no identifiers of their own.
pub fn a_finished_image_differs_in_nothing()
    ensures shown { (sector : ℕ) (old : List ℕ) (empty : Empty) (seen : Seen) (target : ℕ) (defs : List Definition) (known : List Fact)
        (seed : Guid) (plan : Plan) (image : List ℕ) (arch : Arch) → IsPlanned sector old empty seen target defs known seed plan
        → plan.dropped ≡ [] → ShowsGoal sector seen plan image → HaveRightTrees plan image → HasPairs arch plan
        → IsUnchanged sector image arch seen plan defs seed }
    ensures final_image { (sector : ℕ) (old : List ℕ) (empty : Empty) (seen : Seen) (target : ℕ) (defs : List Definition)
        (files : List Stored) (seed : Guid) (plan : Plan) (image : List ℕ) (arch : Arch)
        → IsPlanned sector old empty seen target defs (facts seed files seen.shown defs) seed plan → plan.dropped ≡ [] → NotesFit plan
        → TakeHalves defs → IsFinal old seen plan (contents plan (sources_in files (paths_of defs)) (grown old plan)) image
        → HasPairs arch plan → IsUnchanged sector image arch seen plan defs seed }
{}

/// A goal drops no definition of priority 0 or lower.
pub fn the_least_priorities_are_never_dropped()
    ensures { (seen : Seen) (target : ℕ) (defs : List Definition) (known : List Fact) (seed : Guid) (plan : Plan) → AreNeverDropped defs
        → goal seen target defs known seed ≡ Ok plan → plan.dropped ≡ [] }
{}

/// A goal for an image that shows no rows has the partitions of root and usr and of their hash trees as pairs, where the definitions
/// of their types are.
pub fn new_tables_have_their_pairs()
    ensures { (seen : Seen) (target : ℕ) (defs : List Definition) (known : List Fact) (seed : Guid) (plan : Plan) (arch : Arch)
        → IsPlannable seen → IsTarget seen.shown.sector seen.sectors target → AreWellFormed defs
        → AreFactsOn (wanted_of seen.shown defs) known → goal seen target defs known seed ≡ Ok plan → seen.shown.rows ≡ []
        → AreSealed arch defs → HasPairs arch plan }
{}

/// Where the image showed no table, and definitions are never dropped, leave the identifiers of pairs to their root hashes, and pair
/// root and usr with their hash trees, the final image differs in nothing from what is planned for it again.
pub fn a_made_image_differs_in_nothing()
    ensures { (sector : ℕ) (old : List ℕ) (seen : Seen) (target : ℕ) (defs : List Definition) (files : List Stored) (seed : Guid)
        (plan : Plan) (image : List ℕ) (arch : Arch)
        → IsPlanned sector old Require seen target defs (facts seed files seen.shown defs) seed plan → NotesFit plan
        → AreSteady arch defs → IsFinal old seen plan (contents plan (sources_in files (paths_of defs)) (grown old plan)) image
        → (plan.dropped ≡ []) × IsUnchanged sector image arch seen plan defs seed }
{}
