//! Laws of what an image shows and of what is accepted, as contracts of functions that do nothing.

ghost use Rattle.std.specs.Prelude.{◌≡◌, ◌≢◌, ℕ, ◌<◌, ◌^◌, List, All, Ok, slice_range, true};
ghost use Rattle.rp_base.specs.Geometry.{IsSector};
ghost use Rattle.rp_base.specs.Table.{IsWritable, TableFits};
ghost use Rattle.rp_base.specs.declared.seen.Mbr.{Mbr};
ghost use Rattle.rp_base.specs.declared.seen.Origin.{Origin};
ghost use Rattle.rp_base.specs.declared.seen.Seen.{Seen};
ghost use Rattle.rp_base.specs.declared.table.Table.{Table};
ghost use Rattle.rp_gpt.specs.Accepted.{HoldsTable, IsSeen, IsSeenOf, seen_record};
ghost use Rattle.rp_gpt.specs.Mbr.{mbr_bytes, mbr_state};
ghost use Rattle.rp_gpt.specs.Shown.{accepted};
ghost use Rattle.rp_gpt.specs.declared.table_fault.Empty.{Empty};

/// What is seen of an image that is accepted: its table can be written and is in place, the places tell it by its origin, and
/// each that is the same holds its exact copy.
pub fn accepted_is_seen()
    ensures { (sector : ℕ) (image : List ℕ) (empty : Empty) (seen : Seen) → IsSector sector → All (λ byte. byte < 256) image
        → accepted sector image empty ≡ Ok seen
        → IsSeen sector seen × IsSeenOf sector image seen }
{}

/// An image whose places hold the exact copies of a table in place is accepted as that table, with both copies the same.
pub fn exact_places_are_accepted()
    ensures { (image : List ℕ) (table : Table) (empty : Empty) → HoldsTable image table → IsWritable table → TableFits table
        → empty ≢ Empty.Require
        → accepted table.sector image empty ≡ Ok (seen_record table.sector image Origin.Primary table true true) }
{}

/// A first sector that holds the exact MBR is in the state Same.
pub fn exact_mbr_is_same()
    ensures { (sector : List ℕ) (sectors : ℕ) → slice_range sector 446 512 ≡ mbr_bytes sectors → mbr_state sector sectors ≡ Mbr.Same }
{}

/// Whether it is in the state Foreign doesn't depend on the number of sectors.
pub fn foreign_has_no_size()
    ensures { (sector : List ℕ) (sectors others : ℕ) → mbr_state sector sectors ≡ Mbr.Foreign → mbr_state sector others ≡ Mbr.Foreign }
{}
