//! The numbers of a plan, read once.

ghost use Rattle.std.specs.Prelude.{◌≡◌, ◌<◌, ◌^◌, All, length};
ghost use Rattle.rp_base.specs.Table.{RowFits, TableFits};
ghost use Rattle.rp_steps.specs.Contents.{NotesFit, RoleFits};

use rp_base::{Guid, Note, Plan, Role, Row, Table};

/// The numbers of a plan are within their fields, as those of each value of its type: a clause sees them once they are read.
pub fn plan_fits(plan: &Plan)
    ensures table { TableFits plan.now.goal }
    ensures notes { NotesFit plan.now }
{
    table_fits(&plan.goal);
    notes_fit(plan.notes.as_slice());
}

fn table_fits(table: &Table)
    ensures { TableFits table.now }
{
    guid_fits(table.disk);
    number_fits(table.first);
    number_fits(table.last);
    rows_fit(table.rows.as_slice());
}

fn rows_fit(rows: &[Row])
    ensures { All RowFits rows.now }
{
    for row in rows {
        row_fits(row);
    }
}

fn row_fits(row: &Row)
    ensures { RowFits row.now }
{
    guid_fits(row.kind);
    guid_fits(row.id);
    number_fits(row.attrs);
    name_fits(row.name);
    units_fit(&row.name);
}

fn guid_fits(guid: Guid)
    ensures { length guid.0 ≡ 16 }
{}

fn number_fits(number: u64)
    ensures { number < 2 ^ 64 }
{}

fn name_fits(name: [u16; 36])
    ensures { length name ≡ 36 }
{}

fn units_fit(units: &[u16])
    ensures { All (λ unit. unit < 2 ^ 16) units.now }
{}

fn notes_fit(notes: &[Note])
    ensures { All (λ note. RoleFits note.role) notes.now }
{
    for note in notes {
        role_fits(note.role);
    }
}

fn role_fits(role: Role)
    ensures { RoleFits role }
{}
