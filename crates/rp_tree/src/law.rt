//! A law of trees that were written.

ghost use Rattle.std.specs.Prelude.{◌≡◌, ℕ, List, None, true};
ghost use Rattle.rp_base.specs.declared.guid.Guid.{Guid};
ghost use Rattle.rp_base.specs.declared.table.Row.{Row};
ghost use Rattle.rp_tree.specs.Checked.{first_bad, has_root};
ghost use Rattle.rp_tree.specs.Sealed.{IsSealed};

/// Of a data row with the hash row that was written for it nothing is wrong.
pub fn sealed_rows_are_right()
    ensures root { (image : List ℕ) (payload hash : Row) (uuid : Guid) (salt : List ℕ) (blocks : List (List ℕ))
        → IsSealed image payload hash uuid salt blocks → has_root image payload hash ≡ true }
    ensures bad { (image : List ℕ) (payload hash : Row) (uuid : Guid) (salt : List ℕ) (blocks : List (List ℕ))
        → IsSealed image payload hash uuid salt blocks → first_bad image payload hash ≡ None }
{}
