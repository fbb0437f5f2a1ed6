//! The entry of an option in the table.

ghost use Rattle.std.specs.Prelude.{◌≡◌, option_map};
ghost use Rattle.rp_words.specs.Entry.{entry_of as entry_of_option, form_text, name_text, number_of, own as own_entry};
ghost use Rattle.rp_words.specs.Table.{option_entry};
ghost use Rattle.rp_words.specs.Words.{first_of};

use crate::table::{Opt, OptionEntry, options};

/// An option's name.
pub(crate) fn name(option: Opt) -> &'static str
    ensures { result.now ≡ name_text option }
{
    match entry_of(option) {
        Some((name, _, _, _, _)) => name,
        None => "",
    }
}

/// How an option's values are written.
pub(crate) fn form(option: Opt) -> &'static str
    ensures { result.now ≡ form_text option }
{
    match entry_of(option) {
        Some((_, _, form, _, _)) => form,
        None => "",
    }
}

// The entry of an option.
fn entry_of(option: Opt) -> Option<OptionEntry>
    ensures { option_map option_entry result ≡ entry_of_option option }
{
    own_among(option, options())
}

// The entry of an option among these.
#[tactic(auto, using(crate::proofs::First::passed, crate::proofs::First::found_here, crate::proofs::First::found_none))]
fn own_among(option: Opt, entries: &[OptionEntry]) -> Option<OptionEntry>
    ensures { option_map option_entry result ≡ first_of (λ entry. own_entry option (option_entry entry)) entries.now }
{
    for entry in entries {
        if let Some(entry) = own(option, entry) {
            return Some(entry);
        }
    }
    None
}

// An entry, if it is this option's.
fn own(option: Opt, entry: &OptionEntry) -> Option<OptionEntry>
    ensures { option_map option_entry result ≡ own_entry option (option_entry entry.now) }
{
    let (_, _, _, row, _) = entry;
    if number(row.option) == number(option) {
        Some(*entry)
    } else {
        None
    }
}

fn number(option: Opt) -> u8
    ensures { result ≡ number_of option }
{
    match option {
        Opt::Definitions => 0,
        Opt::Seed => 1,
        Opt::Arch => 2,
        Opt::Empty => 3,
        Opt::Size => 4,
        Opt::Json => 5,
        Opt::SectorSize => 6,
        Opt::FactoryReset => 7,
        Opt::Policy => 8,
        Opt::Against => 9,
        Opt::Number => 10,
    }
}
