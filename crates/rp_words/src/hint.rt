//! What is said of words that aren't canonical, without memory.

ghost use Rattle.std.specs.Prelude.{◌≡◌, [], map, option_map, slice_index_or, string_bytes};
ghost use Rattle.rp_words.specs.Hint.{hint_of as hint_of_words, reason_of, values_of, wrong_word as wrong_word_of};

use crate::entry::{form, name};
use crate::fault::WordFault;
use crate::line::read_line;

/// What is wrong with words: the first wrong word or the name of the option that is missing, or nothing; why; and how the
/// values of the option are written, or nothing.
#[derive(Clone, Copy, Drop)]
pub struct Hint<'a> {
    pub word: &'a str,
    pub reason: &'static str,
    pub values: &'static str,
}

/// What is wrong with words, `None` exactly where they are canonical.
pub fn hint_of(words: &[String]) -> Option<Hint<'_>>
    ensures { option_map (λ hint. (hint.word.now, hint.reason.now, hint.values.now)) result ≡ hint_of_words (map string_bytes words.now) }
{
    match read_line(words) {
        Ok(_) => None,
        Err(fault) => Some(Hint {
            word: wrong_word(words, fault),
            reason: reason(fault),
            values: values(fault),
        }),
    }
}

// The word that is wrong, or the option that is missing.
fn wrong_word(words: &[String], fault: WordFault) -> &str
    ensures { result.now ≡ wrong_word_of (map string_bytes words.now) fault }
{
    match fault {
        WordFault::NoCommand | WordFault::NoImage => "",
        WordFault::UnknownCommand => word_at(words, 0),
        WordFault::NotOption { place } => word_at(words, place),
        WordFault::UnknownOption { place } => word_at(words, place),
        WordFault::OtherCommand { place } => word_at(words, place),
        WordFault::Twice { place } => word_at(words, place),
        WordFault::BadValue { place, .. } => word_at(words, place),
        WordFault::Missing { option } => name(option),
    }
}

// The word at a place, empty where there is none.
fn word_at(words: &[String], place: usize) -> &str
    ensures { result.now ≡ slice_index_or (map string_bytes words.now) place [] }
{
    match words.get(place) {
        Some(word) => word.as_str(),
        None => "",
    }
}

fn reason(fault: WordFault) -> &'static str
    ensures { result.now ≡ reason_of fault }
{
    match fault {
        WordFault::NoCommand => "no command is given",
        WordFault::UnknownCommand => "no such command",
        WordFault::NotOption { .. } => "not an option, which is written --NAME=VALUE",
        WordFault::UnknownOption { .. } => "no such option",
        WordFault::OtherCommand { .. } => "not an option of this command",
        WordFault::Twice { .. } => "the option is given twice",
        WordFault::BadValue { .. } => "not a value of this option, which takes",
        WordFault::Missing { .. } => "this option has to be given, with",
        WordFault::NoImage => "no image is given, as the last word",
    }
}

fn values(fault: WordFault) -> &'static str
    ensures { result.now ≡ values_of fault }
{
    match fault {
        WordFault::BadValue { option, .. } => form(option),
        WordFault::Missing { option } => form(option),
        _ => "",
    }
}
