ghost use Rattle.std.specs.Prelude.{◌≡◌};
ghost use Rattle.rp_steps.specs.Same.{same_rows as same_rows_of, same_table as same_table_of};

use rp_base::{Row, Table};

// As many rows, each equal to the one in its place.
fn same_rows(a: &[Row], b: &[Row]) -> bool
    ensures { result ≡ same_rows_of a.now b.now }
{
    a == b
}

// Whether two tables are equal.
#[tactic(auto, unfolding(crate::specs::Same::same_table))]
pub fn same_table(a: &Table, b: &Table) -> bool
    ensures { result ≡ same_table_of a.now b.now }
{
    a.sector == b.sector
        && a.entries == b.entries
        && a.disk == b.disk
        && a.first == b.first
        && a.last == b.last
        && same_rows(a.rows.as_slice(), b.rows.as_slice())
}
