//! Laws of matching and of areas, for what is defined by them.

ghost use Rattle.std.specs.Prelude.{◌≡◌, ◌≢◌, ◌↔◌, ◌≤◌, ◌<◌, ◌+◌, ℕ, List, Option, Some, None, Ok, All, AllPairs, IfSome, length, slice_get};
ghost use Rattle.rp_base.specs.declared.guid.Guid.{Guid};
ghost use Rattle.rp_base.specs.declared.table.Row.{Row};
ghost use Rattle.rp_base.specs.declared.table.Table.{Table};
ghost use Rattle.rp_base.specs.declared.want.Want.{Want};
ghost use Rattle.rp_base.specs.Table.{IsLaidOut};
ghost use Rattle.rp_areas.specs.declared.extents.Extent.{Extent};
ghost use Rattle.rp_areas.specs.declared.gaps.Area.{Area};
ghost use Rattle.rp_areas.specs.Again.{AreAmong, IsFilled, Piece, areas_filled, rows_by_start};
ghost use Rattle.rp_areas.specs.Areas.{areas_of, extents_of, file_of};
ghost use Rattle.rp_areas.specs.Facts.{IsAnchored, IsClear, IsWithin};
ghost use Rattle.rp_areas.specs.Matching.{IsMatched, IsRefilled, matches_of, without};

/// A definition has a row exactly where their types agree and as many rows of the type stand before the row as
/// definitions of it before the definition. The list has an entry for each definition, each the place of a row, and no
/// two definitions have one row.
pub fn rows_go_by_type_and_order()
    ensures matched { (rows : List Row) (kinds : List Guid) (file place : ℕ)
        → (slice_get (matches_of rows kinds) file ≡ Some (Some place)) ↔ IsMatched rows kinds file place }
    ensures len { (rows : List Row) (kinds : List Guid) → length (matches_of rows kinds) ≡ length kinds }
    ensures places { (rows : List Row) (kinds : List Guid) → All (λ place. IfSome place (λ p. p < length rows)) (matches_of rows kinds) }
    ensures distinct { (rows : List Row) (kinds : List Guid) → AllPairs (λ a b. IfSome a (λ p. b ≢ Some p)) (matches_of rows kinds) }
{}

/// There is one area before the first row and one behind each. Those of a laid out table end before the next begins, lie
/// within the usable units, and an area that has grains has none in common with a row but its anchor.
pub fn areas_lie_between_rows()
    ensures count { (table : Table) (last : ℕ) (matched : List (Option ℕ)) (wants : List Want) (areas : List Area)
        → areas_of table last matched wants ≡ Ok areas → length areas ≡ length table.rows + 1 }
    ensures apart { (table : Table) (last : ℕ) (matched : List (Option ℕ)) (wants : List Want) (areas : List Area)
        → areas_of table last matched wants ≡ Ok areas → IsLaidOut table → AllPairs (λ a b. a.from + a.span ≤ b.from) areas }
    ensures within { (table : Table) (last : ℕ) (matched : List (Option ℕ)) (wants : List Want) (areas : List Area)
        → areas_of table last matched wants ≡ Ok areas → IsLaidOut table → table.last ≤ last → All (IsWithin table.first last) areas }
    ensures clear { (table : Table) (last : ℕ) (matched : List (Option ℕ)) (wants : List Want) (areas : List Area)
        → areas_of table last matched wants ≡ Ok areas → IsLaidOut table → All (λ a. 0 < a.span → All (IsClear a) table.rows) areas }
{}

/// An area's anchor is the row of its definition and begins it. What the area uses is the greater of that row's grains and
/// the definition's minimum, with the padding's minimum, and nothing where there is no anchor. It fits the span. A
/// definition's row is the anchor of one area at most.
pub fn anchors_use_their_least()
    ensures anchored { (table : Table) (last : ℕ) (matched : List (Option ℕ)) (wants : List Want) (areas : List Area)
        → areas_of table last matched wants ≡ Ok areas → All (IsAnchored table.rows matched wants) areas }
    ensures fits { (table : Table) (last : ℕ) (matched : List (Option ℕ)) (wants : List Want) (areas : List Area)
        → areas_of table last matched wants ≡ Ok areas → All (λ a. a.used ≤ a.span) areas }
    ensures differ { (table : Table) (last : ℕ) (matched : List (Option ℕ)) (wants : List Want) (areas : List Area)
        → areas_of table last matched wants ≡ Ok areas → IsLaidOut table
        → AllPairs (λ a b. IfSome a.anchor (λ file. b.anchor ≢ Some file)) areas }
{}

/// Where a row was added for each definition that had none, each definition has the row that it had or the one that was
/// added for it, and a foreign row stays foreign.
pub fn added_rows_are_matched()
    ensures old { (old again : List Row) (kinds : List Guid) (file place : ℕ) → IsRefilled old again kinds
        → slice_get (matches_of old kinds) file ≡ Some (Some place) → slice_get (matches_of again kinds) file ≡ Some (Some place) }
    ensures new { (old again : List Row) (kinds : List Guid) (file : ℕ) (kind : Guid) → IsRefilled old again kinds
        → slice_get kinds file ≡ Some kind → slice_get (matches_of old kinds) file ≡ Some None
        → slice_get (matches_of again kinds) file ≡ Some (Some (length old + without (matches_of old kinds) file)) }
    ensures old_owner { (old again : List Row) (kinds : List Guid) (place : ℕ) → IsRefilled old again kinds
        → place < length old → file_of (matches_of again kinds) place ≡ file_of (matches_of old kinds) place }
    ensures new_owner { (old again : List Row) (kinds : List Guid) (file : ℕ) (kind : Guid) → IsRefilled old again kinds
        → slice_get kinds file ≡ Some kind → slice_get (matches_of old kinds) file ≡ Some None
        → file_of (matches_of again kinds) (length old + without (matches_of old kinds) file) ≡ Some file }
{}

/// A laid out table's rows by rising start are the one rising list in which the same rows stand.
pub fn there_is_one_order()
    ensures { (table : Table) (matched : List (Option ℕ)) (es : List Extent) → IsLaidOut table → AllPairs (λ a b. a.start < b.start) es
        → AreAmong (extents_of table.rows matched) es → AreAmong es (extents_of table.rows matched) → rows_by_start table matched ≡ es }
{}

/// The areas of a table in whose areas rows were placed, each with its padding, and whose anchors may have grown: each of
/// these rows is the anchor of an area of its own, and none is refused.
pub fn placed_rows_stay()
    ensures { (table again : Table) (last : ℕ) (matched rematched : List (Option ℕ)) (wants : List Want) (before : List Piece)
        (stacks : List (List Piece))
        → IsFilled table again last matched rematched wants before stacks
        → areas_of again last rematched wants ≡ Ok (areas_filled table last matched wants before stacks) }
{}
