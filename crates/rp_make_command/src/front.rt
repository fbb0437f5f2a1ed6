//! The summary but for what the image differs in.

ghost use Rattle.std.specs.Prelude.{◌≡◌, ◌++◌, None, IfOk, OnOk, string_bytes};
ghost use Rattle.hex.specs.Hex.{encode_lower};
ghost use Rattle.rp_make_command.specs.Summary.{counts_text, front_of, or_root, root_in as root_in_notes, root_text};

use rp_base::{Memory, Note, Plan, Role, Text};
use std::alloc::{AllocError, Global};

/// The front of the summary of a plan that is carried out in so many writes.
#[tactic(auto, unfolding(crate::specs::Summary::front_of))]
pub(crate) fn front(alloc: Global, number: u8, plan: &Plan, writes: u64) -> Result<Text, Memory>
    ensures { IfOk result (λ text. text ≡ front_of number plan.now writes) }
{
    let mut text = String::new(alloc);
    push_counts(&mut text, number, plan.goal.rows.len(), writes)?;
    push_root(&mut text, root_in(plan.notes.as_slice()))?;
    text.push_str(" check ")?;
    Ok(Text::from_string(text))
}

#[tactic(auto, unfolding(crate::specs::Summary::counts_text))]
fn push_counts(text: &mut String, number: u8, rows: usize, writes: u64) -> Result<(), AllocError>
    ensures { OnOk result (string_bytes text.new ≡ string_bytes text.old ++ counts_text number rows writes) }
{
    write!(text, "number {number} rows {rows} writes {writes} root ")
}

// Appends a root hash as lower-case digits, or a hyphen where there is none.
fn push_root(text: &mut String, root: Option<[u8; 32]>) -> Result<(), AllocError>
    ensures { OnOk result (string_bytes text.new ≡ string_bytes text.old ++ root_text root) }
{
    match root {
        Some(root) => push_hex(text, &root),
        None => text.push_str("-"),
    }
}

fn push_hex(text: &mut String, bytes: &[u8]) -> Result<(), AllocError>
    ensures { OnOk result (string_bytes text.new ≡ string_bytes text.old ++ encode_lower bytes.now) }
{
    let digits = hex::encode(*text.allocator(), bytes)?;
    text.push_str(digits.as_str())
}

// The root hash of the first pair.
fn root_in(notes: &[Note]) -> Option<[u8; 32]>
    ensures { result ≡ root_in_notes notes.now }
{
    for note in notes {
        let root = root_of(note.role);
        if root.is_some() {
            return root;
        }
    }
    None
}

// The root hash of a pair, by the row that holds its tree.
fn root_of(role: Role) -> Option<[u8; 32]>
    ensures { result ≡ or_root None role }
{
    match role {
        Role::Hash { root, .. } => Some(root),
        _ => None,
    }
}
