//! Laws of the answer, as contracts of functions that do nothing.

ghost use Rattle.std.specs.Prelude.{◌≡◌, ◌≢◌, ℕ, ◌-◌, ◌^◌, ◌<◌, List, length, Ok, Err};
ghost use Rattle.rp_base.specs.declared.geometry.Which.{Which};
ghost use Rattle.rp_base.specs.declared.table.Table.{Table};
ghost use Rattle.rp_base.specs.Geometry.{IsSector};
ghost use Rattle.rp_base.specs.Table.{IsWritable, AreWritableRows, TableFits};
ghost use Rattle.rp_gpt.specs.declared.copy.CopyFault.TheVariants.{Signature};
ghost use Rattle.rp_gpt.specs.Fields.{signature};
ghost use Rattle.rp_gpt.specs.Copy.{IsPlace, ReadsBack, answer, array_of, chosen_entries, entry_bytes, header_of};

/// The exact copy of a table that can be written says that table.
pub fn copies_read_back()
    ensures { (table : Table) → IsWritable table → TableFits table → ReadsBack table }
{}

/// The rows of a table that the bytes of a place stand for can be written.
pub fn rows_can_be_written()
    ensures { (bytes : List ℕ) (which : Which) (sectors sector : ℕ) (table : Table) → IsSector sector
        → answer bytes which sectors sector ≡ Ok table → AreWritableRows table }
{}

/// The whole table can, where its first usable unit fits 64 bits.
pub fn tables_can_be_written()
    ensures { (bytes : List ℕ) (which : Which) (sectors sector : ℕ) (table : Table) → IsSector sector
        → IsPlace sector sectors (length bytes) → answer bytes which sectors sector ≡ Ok table → table.first < 2 ^ 64 - 1
        → IsWritable table }
{}

/// What the primary copy says doesn't depend on the number of sectors.
pub fn primary_has_no_size()
    ensures { (bytes : List ℕ) (sectors others sector : ℕ)
        → answer bytes Which.Primary sectors sector ≡ answer bytes Which.Primary others sector }
{}

/// What a copy says depends on its header and its entries alone, and on the length of its place.
pub fn answers_read_header_and_entries()
    ensures { (bytes others : List ℕ) (which : Which) (sectors sector : ℕ) → length bytes ≡ length others
        → header_of sector bytes which ≡ header_of sector others which
        → (let entries = chosen_entries sector (length bytes) (header_of sector bytes which) in entry_bytes entries
        (array_of sector bytes which) ≡ entry_bytes entries (array_of sector others which))
        → answer bytes which sectors sector ≡ answer others which sectors sector }
{}

/// A place without the signature, as one whose header is zeros, is none.
pub fn unsigned_is_none()
    ensures { (bytes : List ℕ) (which : Which) (sectors sector : ℕ) → signature (header_of sector bytes which) ≢ 0x5452415020494645
        → answer bytes which sectors sector ≡ Err Signature }
{}
