//! What differs of copies, MBR and table; no disk is asked here.

ghost use Rattle.std.specs.Prelude.{◌≡◌};
ghost use Rattle.rp_difference.specs.Difference.{is_other_row as is_other, is_other_table as is_other_goal, is_stale as is_stale_one, other_row as other_row_of, table_difference as table_difference_of};

use crate::Difference;
use rp_base::{Change, Mbr, Note, Plan, Seen, Table};

/// What differs first of copies, MBR, table and rows.
#[tactic(auto, unfolding(crate::specs::Difference::table_difference))]
pub(crate) fn table_difference(seen: &Seen, plan: &Plan) -> Option<Difference>
    ensures { result ≡ table_difference_of seen.now plan.now }
{
    if !seen.primary_same {
        return Some(Difference::Primary);
    }
    if !seen.backup_same {
        return Some(Difference::Backup);
    }
    if is_stale(seen.mbr) {
        return Some(Difference::Mbr);
    }
    if is_other_table(&seen.shown, &plan.goal) {
        return Some(Difference::Table);
    }
    other_row(plan.notes.as_slice())
}

fn is_stale(mbr: Mbr) -> bool
    ensures { result ≡ is_stale_one mbr }
{
    match mbr {
        Mbr::Same => false,
        Mbr::Differs => true,
        Mbr::Foreign => false,
    }
}

// Whether a table has another disk identifier or other bounds.
fn is_other_table(shown: &Table, goal: &Table) -> bool
    ensures { result ≡ is_other_goal shown.now goal.now }
{
    !(shown.disk.0 == goal.disk.0 && shown.first == goal.first && shown.last == goal.last)
}

// The first row that is new or changed.
fn other_row(notes: &[Note]) -> Option<Difference>
    ensures { result ≡ other_row_of notes.now }
{
    for note in notes {
        if is_other_row(note.change) {
            return Some(Difference::Row { slot: note.slot });
        }
    }
    None
}

fn is_other_row(change: Change) -> bool
    ensures { result ≡ is_other change }
{
    match change {
        Change::New => true,
        Change::Changed => true,
        Change::Same => false,
    }
}
