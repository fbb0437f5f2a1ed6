//! Laws of naming, for what is defined by it.

ghost use Rattle.std.specs.Prelude.{◌≡◌, ◌≢◌, ℕ, List, Ok, All, false, slice_get, slice_index};
ghost use Rattle.rp_base.specs.declared.guid.Guid.{Guid};
ghost use Rattle.rp_base.specs.declared.table.Table.{Table};
ghost use Rattle.rp_ident.specs.declared.naming.Naming.{Naming as ANaming};
ghost use Rattle.rp_ident.specs.Naming.{is_zero, named};
ghost use Rattle.rp_ident.specs.Facts.{AllStay, AreApart, IsDone};

/// A table that has a disk identifier, and whose named rows have names and identifiers, is named as itself.
pub fn named_again_is_the_same()
    ensures { (table : Table) (namings : List ANaming) (seed : Guid) → is_zero table.disk ≡ false → All (IsDone table.rows) namings
        → named table namings seed ≡ Ok table }
{}

/// Where labels aren't empty, each named row then has a name and an identifier, and the disk has one.
pub fn named_rows_are_done()
    ensures rows { (table after : Table) (namings : List ANaming) (seed : Guid) → All (λ naming. slice_index naming.label 0 ≢ 0) namings
        → named table namings seed ≡ Ok after → All (IsDone after.rows) namings }
    ensures disk { (table after : Table) (namings : List ANaming) (seed : Guid)
        → named table namings seed ≡ Ok after → is_zero after.disk ≡ false }
{}

/// What was there stays: the slots, types, places and attributes of rows, their names and identifiers, the rows that aren't
/// named, and the rest of the table.
pub fn named_tables_stay()
    ensures rows { (table after : Table) (namings : List ANaming) (seed : Guid)
        → named table namings seed ≡ Ok after → AllStay table.rows after.rows }
    ensures others { (table after : Table) (namings : List ANaming) (seed : Guid) (place : ℕ) → All (λ naming. naming.row ≢ place) namings
        → named table namings seed ≡ Ok after → slice_get after.rows place ≡ slice_get table.rows place }
    ensures disk { (table after : Table) (namings : List ANaming) (seed : Guid) → is_zero table.disk ≡ false
        → named table namings seed ≡ Ok after → after.disk ≡ table.disk }
    ensures rest { (table after : Table) (namings : List ANaming) (seed : Guid)
        → named table namings seed ≡ Ok after → after ≡ record table { disk = after.disk; rows = after.rows } }
{}

/// No identifier is given twice, and none that is some other row's.
pub fn given_identifiers_are_apart()
    ensures { (table after : Table) (namings : List ANaming) (seed : Guid)
        → named table namings seed ≡ Ok after → AreApart table.rows after.rows }
{}
