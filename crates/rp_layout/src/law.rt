//! Laws of where partitions lie, for what is defined by it.

ghost use Rattle.std.specs.Prelude.{◌≡◌, ◌≢◌, ◌≤◌, ◌+◌, ◌-◌, ◌⊎◌, ℕ, List, ◌∷◌, Option, Some, None, AllPairs, length, map, max, slice_get};
ghost use Rattle.rp_base.specs.declared.table.Row.{Row};
ghost use Rattle.rp_base.specs.declared.table.Table.{Table};
ghost use Rattle.rp_base.specs.declared.want.Want.{Want};
ghost use Rattle.rp_base.specs.Table.{IsLaidOut};
ghost use Rattle.rp_areas.specs.declared.gaps.Area.{Area};
ghost use Rattle.rp_areas.specs.Again.{AreAmong, AreStacks, IsFilled, IsStack, Piece, rows_again, rows_by_start};
ghost use Rattle.rp_areas.specs.Areas.{area_before, areas_of, extents_of, grains_up, want_at};
ghost use Rattle.rp_place.specs.declared.fit.New.{New};
ghost use Rattle.rp_place.specs.declared.threshold.Placed.{Placed};
ghost use Rattle.rp_layout.specs.declared.spot.Spot.{Spot};
ghost use Rattle.rp_layout.specs.Again.{AreIdle, AsksFor, IsSeat};
ghost use Rattle.rp_layout.specs.Facts.{IsOff, IsReady, IsSpot, Precedes};
ghost use Rattle.rp_layout.specs.Layout.{extents_after, laid, reach_of, reach_of_row, spot_at, spots_of, stack_in, stacks_of};
ghost use Rattle.rp_layout.specs.Seats.{row_of, seat_of, units_at};

/// There is an answer for each definition: where its partition lies, if it stands in an area. It begins at a grain, lies
/// within the usable units with its padding, and both keep to what the definition asks for. A new one has whole grains, at
/// most its maximum; one that was there begins where it did and is no smaller.
pub fn partitions_keep_to_their_wants()
    ensures one_each { (table : Table) (matched : List (Option ℕ)) (wants : List Want) (areas : List Area) (news : List New) (kept : Placed)
        → length (laid table.rows matched wants areas news kept.areas) ≡ length wants }
    ensures spot { (table : Table) (last : ℕ) (matched : List (Option ℕ)) (wants : List Want) (areas : List Area) (news : List New)
        (kept : Placed)
        (file : ℕ) (s : Spot) → IsReady table last matched wants areas news kept
        → spot_at (laid table.rows matched wants areas news kept.areas) file ≡ Some s
        → (s.file ≡ file) × IsSpot table.first last (want_at wants file) (row_of table.rows matched file) s }
{}

/// Two partitions share no unit, their paddings too, and none has a unit of a row but its own.
pub fn partitions_are_apart()
    ensures apart { (table : Table) (last : ℕ) (matched : List (Option ℕ)) (wants : List Want) (areas : List Area) (news : List New)
        (kept : Placed)
        (file other : ℕ) (s t : Spot) → IsReady table last matched wants areas news kept → file ≢ other
        → spot_at (laid table.rows matched wants areas news kept.areas) file ≡ Some s
        → spot_at (laid table.rows matched wants areas news kept.areas) other ≡ Some t → Precedes s t ⊎ Precedes t s }
    ensures off_rows { (table : Table) (last : ℕ) (matched : List (Option ℕ)) (wants : List Want) (areas : List Area)
        (news : List New) (kept : Placed)
        (file : ℕ) (s : Spot) (place : ℕ) (row : Row) → IsReady table last matched wants areas news kept
        → spot_at (laid table.rows matched wants areas news kept.areas) file ≡ Some s
        → slice_get table.rows place ≡ Some row → slice_get matched file ≢ Some (Some place) → IsOff s row }
{}

/// Each new definition that was placed lies somewhere, each that was dropped nowhere, and each anchor somewhere; each of
/// them once.
pub fn placed_ones_lie_once()
    ensures placed { (table : Table) (last : ℕ) (matched : List (Option ℕ)) (wants : List Want) (areas : List Area) (news : List New)
        (kept : Placed)
        (k area : ℕ) (n : New) → IsReady table last matched wants areas news kept
        → slice_get news k ≡ Some n → slice_get kept.areas k ≡ Some (Some area)
        → (s : Spot) × (spot_at (laid table.rows matched wants areas news kept.areas) n.file ≡ Some s) }
    ensures dropped { (table : Table) (last : ℕ) (matched : List (Option ℕ)) (wants : List Want) (areas : List Area)
        (news : List New) (kept : Placed)
        (k : ℕ) (n : New) → IsReady table last matched wants areas news kept
        → slice_get news k ≡ Some n → slice_get kept.areas k ≡ Some None
        → spot_at (laid table.rows matched wants areas news kept.areas) n.file ≡ None }
    ensures anchors { (table : Table) (last : ℕ) (matched : List (Option ℕ)) (wants : List Want) (areas : List Area)
        (news : List New) (kept : Placed)
        (i file : ℕ) (area : Area) → IsReady table last matched wants areas news kept
        → slice_get areas i ≡ Some area → area.anchor ≡ Some file
        → (s : Spot) × (spot_at (laid table.rows matched wants areas news kept.areas) file ≡ Some s) }
    ensures once { (table : Table) (last : ℕ) (matched : List (Option ℕ)) (wants : List Want) (areas : List Area) (news : List New)
        (kept : Placed)
        → IsReady table last matched wants areas news kept
        → AllPairs (λ s t. s.file ≢ t.file) (spots_of table.rows matched wants areas news kept.areas) }
{}

/// A table whose rows are those that were there, each with the units of its definition's partition, and then the new ones,
/// is laid out.
pub fn rows_after_are_laid_out()
    ensures { (table : Table) (last : ℕ) (matched : List (Option ℕ)) (wants : List Want) (areas : List Area) (news : List New)
        (kept : Placed)
        (again : Table) → IsReady table last matched wants areas news kept → again.first ≡ table.first → again.last ≡ last
        → map reach_of_row again.rows
        ≡ map reach_of (extents_after table.rows matched news (laid table.rows matched wants areas news kept.areas))
        → IsLaidOut again }
{}

/// The partitions of each area are a stack: they fit, keep to the minima, and the anchor is the first. So they are by wants
/// that ask for less.
pub fn partitions_are_stacks()
    ensures stacks { (table : Table) (last : ℕ) (matched : List (Option ℕ)) (wants : List Want) (areas : List Area) (news : List New)
        (kept : Placed)
        (before : List Piece) (others : List (List Piece)) → IsReady table last matched wants areas news kept
        → stacks_of table.rows matched wants areas news kept.areas ≡ before ∷ others
        → IsStack wants (area_before table.first last (rows_by_start table matched)) before
        × AreStacks last wants (rows_by_start table matched) others }
    ensures less { (own wants : List Want) (area : Area) (ps : List Piece)
        → ((file : ℕ) → ((want_at own file).min ≤ (want_at wants file).min) × ((want_at own file).pad_min ≤ (want_at wants file).pad_min))
        → IsStack wants area ps → IsStack own area ps }
{}

/// Once they lie in an area, each partition with the area from its start to the next one or the end is shared what it has,
/// with its padding. A definition then asks for no less than it has, and else as it stands; a new one may have been asked
/// for with a greater minimum, or, without weight, with an exact size.
pub fn partitions_stay_as_they_are()
    ensures seats { (own : List Want) (file has : ℕ) (want : Want) → (want_at own file).min ≤ (want_at own file).max
        → 1 ≤ max (grains_up has) want.min → AsksFor (want_at own file) has want → IsSeat own (seat_of want file has) }
    ensures idle { (table : Table) (last : ℕ) (matched : List (Option ℕ)) (wants : List Want) (areas : List Area) (news : List New)
        (kept : Placed)
        (own : List Want) (i limit : ℕ) (area : Area) → IsReady table last matched wants areas news kept
        → ((file : ℕ) → (want_at own file).min ≤ (want_at own file).max)
        → ((file : ℕ) → AsksFor (want_at own file) (units_at table.rows matched file) (want_at wants file))
        → slice_get areas i ≡ Some area → area.span ≡ limit - area.from
        → AreIdle own limit area.from (stack_in table.rows matched wants news kept.areas (i, area)) }
{}

/// The rows after are the old ones with each area's partitions woven in: the same stand in both.
pub fn rows_after_are_woven()
    ensures { (table : Table) (last : ℕ) (matched : List (Option ℕ)) (wants : List Want) (areas : List Area) (news : List New)
        (kept : Placed)
        (before : List Piece) (others : List (List Piece)) → IsReady table last matched wants areas news kept
        → stacks_of table.rows matched wants areas news kept.areas ≡ before ∷ others
        → AreAmong (extents_after table.rows matched news (laid table.rows matched wants areas news kept.areas))
        (rows_again table last matched wants before others)
        × AreAmong (rows_again table last matched wants before others)
        (extents_after table.rows matched news (laid table.rows matched wants areas news kept.areas)) }
{}

/// A table with the rows after is one whose areas were filled, by the wants of definitions as they stand; the areas of the
/// table before are the same by these.
pub fn rows_after_fill_the_areas()
    ensures areas { (table : Table) (last : ℕ) (matched : List (Option ℕ)) (wants : List Want) (areas : List Area) (news : List New)
        (kept : Placed)
        (own : List Want) → IsReady table last matched wants areas news kept
        → ((file : ℕ) → AsksFor (want_at own file) (units_at table.rows matched file) (want_at wants file))
        → areas_of table last matched own ≡ areas_of table last matched wants }
    ensures filled { (table : Table) (last : ℕ) (matched : List (Option ℕ)) (wants : List Want) (areas : List Area) (news : List New)
        (kept : Placed)
        (own : List Want) (again : Table) (rematched : List (Option ℕ)) (before : List Piece) (others : List (List Piece))
        → IsReady table last matched wants areas news kept
        → ((file : ℕ) → AsksFor (want_at own file) (units_at table.rows matched file) (want_at wants file))
        → again.first ≡ table.first → again.last ≡ last
        → extents_of again.rows rematched ≡ extents_after table.rows matched news (laid table.rows matched wants areas news kept.areas)
        → stacks_of table.rows matched wants areas news kept.areas ≡ before ∷ others
        → IsFilled table again last matched rematched own before others }
{}
