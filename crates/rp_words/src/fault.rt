//! What is wrong with words, without memory.

ghost use Rattle.std.specs.Prelude.{◌≡◌, map, option_map, option_copied, string_bytes};
ghost use Rattle.rp_words.specs.Faults.{called as called_entry, entry_called, fault_of as fault_of_word, first_fault as first_fault_in, missing as missing_in, wanting as wanting_entry};
ghost use Rattle.rp_words.specs.Words.{first_of};
ghost use Rattle.rp_words.specs.Table.{option_entry};

use crate::table::{Command, Opt, OptionEntry, OptionRow, Use, options};
use crate::values::is_value;
use crate::words::{option_in, value_in};

/// The first thing that is wrong with words. A place counts the words, the command being 0.
#[derive(Clone, Copy, Debug, PartialEq, Eq)]
pub enum WordFault {
    /// There are no words.
    NoCommand,
    /// The first word is no command.
    UnknownCommand,
    /// The word isn't of the form `--NAME=VALUE`.
    NotOption { place: usize },
    /// No option has this name.
    UnknownOption { place: usize },
    /// The command doesn't have this option.
    OtherCommand { place: usize },
    /// The option was given before.
    Twice { place: usize },
    /// The value isn't of the option's form.
    BadValue { place: usize, option: Opt },
    /// The command wants this option.
    Missing { option: Opt },
    /// The last word is no image.
    NoImage,
}

impl OptionRow {
    ghost use Rattle.rp_words.specs.Faults.{use_by};

    /// What the option is to a command.
    pub(crate) fn use_by(&self, command: Command) -> Use
        ensures { result ≡ use_by self.now command }
    {
        match command {
            Command::Show => self.show,
            Command::Plan => self.plan,
            Command::Apply => self.apply,
            Command::Check => self.check,
            Command::Dissect => self.dissect,
            Command::Policy => self.policy,
            Command::Make => self.make,
            Command::Compare => self.compare,
        }
    }
}

/// The option of a name.
#[tactic(auto, using(crate::proofs::Options::called_in), unfolding(crate::specs::Faults::entry_called))]
pub(crate) fn option_called(name: &str) -> Option<OptionEntry>
    ensures { option_map option_entry result ≡ entry_called name.now }
{
    called_among(name, options())
}

// The option of a name among these.
#[tactic(auto, using(crate::proofs::First::passed, crate::proofs::First::found_here, crate::proofs::First::found_none))]
fn called_among(name: &str, entries: &[OptionEntry]) -> Option<OptionEntry>
    ensures { option_map option_entry result ≡ first_of (λ entry. called_entry name.now (option_entry entry)) entries.now }
{
    for entry in entries {
        if let Some(entry) = called(name, entry) {
            return Some(entry);
        }
    }
    None
}

// An entry, if it is called this.
fn called(name: &str, entry: &OptionEntry) -> Option<OptionEntry>
    ensures { option_map option_entry result ≡ called_entry name.now (option_entry entry.now) }
{
    if entry.0 == name { Some(*entry) } else { None }
}

/// What is wrong with a word behind the command and these words.
pub(crate) fn fault_of(command: Command, before: &[String], word: &str) -> Option<WordFault>
    ensures { result ≡ fault_of_word command (map string_bytes before.now) word.now }
{
    let place = before.len() + 1;
    let Some((name, value)) = option_in(word) else {
        return Some(WordFault::NotOption { place });
    };
    let Some((_, _, _, row, _)) = option_called(name) else {
        return Some(WordFault::UnknownOption { place });
    };
    if row.use_by(command) == Use::Never {
        return Some(WordFault::OtherCommand { place });
    }
    if value_in(name, before).is_some() {
        return Some(WordFault::Twice { place });
    }
    if !is_value(row.option, value) {
        return Some(WordFault::BadValue {
            place,
            option: row.option,
        });
    }
    None
}

/// The first fault among words behind the command.
#[tactic(auto, unfolding(crate::specs::Faults::first_fault))]
pub(crate) fn first_fault(command: Command, words: &[String]) -> Option<WordFault>
    ensures { result ≡ first_fault_in command (map string_bytes words.now) }
{
    for place in 0..words.len() {
        if let Some(fault) = fault_of(command, &words[..place], words[place].as_str()) {
            return Some(fault);
        }
    }
    None
}

/// The first option that the command wants and the words don't give.
#[tactic(auto, using(crate::proofs::Options::wanting_in), unfolding(crate::specs::Faults::missing))]
pub(crate) fn missing(command: Command, words: &[String]) -> Option<Opt>
    ensures { result ≡ missing_in command (map string_bytes words.now) }
{
    wanting_among(command, words, options())
}

// The first of these options that the command wants and the words don't give.
#[tactic(auto, using(crate::proofs::First::passed, crate::proofs::First::found_here, crate::proofs::First::found_none))]
fn wanting_among(command: Command, words: &[String], entries: &[OptionEntry]) -> Option<Opt>
    ensures { result ≡ first_of (λ entry. wanting_entry command (map string_bytes words.now) (option_entry entry)) entries.now }
{
    for entry in entries {
        if let Some(option) = wanting(command, words, entry) {
            return Some(option);
        }
    }
    None
}

// An entry's option, if the command wants it and the words don't give it.
fn wanting(command: Command, words: &[String], entry: &OptionEntry) -> Option<Opt>
    ensures { result ≡ wanting_entry command (map string_bytes words.now) (option_entry entry.now) }
{
    let (name, _, _, row, _) = entry;
    if row.use_by(command) == Use::Must && value_in(name, words).is_none() {
        Some(row.option)
    } else {
        None
    }
}
