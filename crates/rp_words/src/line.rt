//! What a command line asks for, read without memory.

ghost use Rattle.std.specs.Prelude.{◌≡◌, [], IfOk, map, string_bytes};
ghost use Rattle.rp_words.specs.Line.{arch_in as arch_in_words, command_of as command_of_name, empty_in as empty_in_words, has_image as words_have_image, is_set as is_set_in, line_by as line_by_words, line_of, line_with as line_with_words, named as named_entry, options_in as options_in_words, sector_in as sector_in_words, size_of_words as size_in_words, text_in, value_or as value_or_default};
ghost use Rattle.rp_base.specs.Geometry.{IsSector};
ghost use Rattle.std.specs.Option.{option_map_or};
ghost use Rattle.rp_words.specs.Faults.{entry_called};
ghost use Rattle.rp_words.specs.Table.{command_entry};
ghost use Rattle.rp_words.specs.Values.{IsSize};
ghost use Rattle.rp_words.specs.Words.{first_of, is_image as is_image_word, last_of};

use crate::entry::name;
use crate::fault::{WordFault, first_fault, missing, option_called};
use crate::table::{Command, CommandEntry, CommandRow, Opt, commands};
use crate::values::{read_number, read_size};
use crate::words::{is_image, value_in};
use rp_base::Guid;
use rp_gpt::Empty;
use rp_types::{Arch, read_guid};

/// What canonical words ask for: a command, and the values of its options that aren't texts, as they are given or by
/// default. What the command has no option for stands at its default, or is zero.
#[derive(Clone, Copy, Debug, PartialEq, Eq)]
pub struct Line {
    pub command: Command,
    pub seed: Guid,
    pub arch: Arch,
    /// Whether the image may, or has to, show no table.
    pub empty: Empty,
    /// Bytes, a multiple of 4,096 and at most 2^44; 0 where no size is asked for.
    pub size: u64,
    pub json: bool,
    /// Bytes of a sector, 512 or 4,096.
    pub sector: u32,
    pub factory_reset: bool,
    pub number: u8,
}

/// The text of an option in canonical words: the one that they give, or the one that stands where none is given.
pub fn text_of(option: Opt, words: &[String]) -> &str
    ensures { result.now ≡ text_in option (map string_bytes words.now) }
{
    value_or(name(option), words)
}

/// Whether words begin with a command that has an image behind its options.
pub fn has_image(words: &[String]) -> bool
    ensures { result ≡ words_have_image (map string_bytes words.now) }
{
    match words {
        [] => false,
        [command, ..] => match command_of(command.as_str()) {
            Some(row) => row.image,
            None => false,
        },
    }
}

/// The line of words, which don't hold the program's name, or the first thing that is wrong with them.
pub fn read_line(words: &[String]) -> Result<Line, WordFault>
    ensures line { result ≡ line_of (map string_bytes words.now) }
    ensures sector { IfOk result (λ line. IsSector line.sector) }
    ensures size { IfOk result (λ line. IsSize line.size) }
{
    let [command, words @ ..] = words else {
        return Err(WordFault::NoCommand);
    };
    match command_of(command.as_str()) {
        None => Err(WordFault::UnknownCommand),
        Some(row) => line_with(row, words),
    }
}

// The line of the words behind a command, or their first fault.
fn line_with(row: CommandRow, words: &[String]) -> Result<Line, WordFault>
    ensures line { result ≡ line_with_words row (map string_bytes words.now) }
    ensures sector { IfOk result (λ line. IsSector line.sector) }
    ensures size { IfOk result (λ line. IsSize line.size) }
{
    if let Some(fault) = first_fault(row.command, options_in(row.image, words)) {
        return Err(fault);
    }
    if let Some(option) = missing(row.command, words) {
        return Err(WordFault::Missing { option });
    }
    if row.image && !is_image(last(words)) {
        return Err(WordFault::NoImage);
    }
    Ok(line_by(row.command, words))
}

// The words without the image behind them.
fn options_in(image: bool, words: &[String]) -> &[String]
    ensures { map string_bytes result.now ≡ options_in_words image (map string_bytes words.now) }
{
    if image && is_image(last(words)) {
        &words[..words.len() - 1]
    } else {
        words
    }
}

// The last word, empty where there is none.
fn last(words: &[String]) -> &str
    ensures { result.now ≡ last_of (map string_bytes words.now) }
{
    match words {
        [] => "",
        [.., word] => word.as_str(),
    }
}

// The line of a command and canonical words behind it.
fn line_by(command: Command, words: &[String]) -> Line
    ensures line { result ≡ line_by_words command (map string_bytes words.now) }
    ensures sector { IsSector result.sector }
    ensures size { IsSize result.size }
{
    Line {
        command,
        seed: read_guid(value_or("seed", words)).unwrap_or(Guid([0; 16])),
        arch: arch_in(words),
        empty: empty_in(words),
        size: size_in(words),
        json: is_set("json", "short", words),
        sector: sector_in(words),
        factory_reset: is_set("factory-reset", "on", words),
        number: read_number(value_or("number", words)).unwrap_or(0),
    }
}

fn arch_in(words: &[String]) -> Arch
    ensures { result ≡ arch_in_words (map string_bytes words.now) }
{
    if is_set("arch", "arm64", words) {
        Arch::Arm64
    } else {
        Arch::X86_64
    }
}

fn empty_in(words: &[String]) -> Empty
    ensures { result ≡ empty_in_words (map string_bytes words.now) }
{
    if is_set("empty", "allow", words) {
        Empty::Allow
    } else if is_set("empty", "require", words) {
        Empty::Require
    } else {
        Empty::Refuse
    }
}

fn size_in(words: &[String]) -> u64
    ensures bytes { result ≡ size_in_words (map string_bytes words.now) }
    ensures size { IsSize result }
{
    match read_size(value_or("size", words)) {
        Some(size) => size,
        None => 0,
    }
}

fn sector_in(words: &[String]) -> u32
    ensures bytes { result ≡ sector_in_words (map string_bytes words.now) }
    ensures sector { IsSector result }
{
    if is_set("sector-size", "4096", words) {
        4096
    } else {
        512
    }
}

// Whether an option has this value.
fn is_set(name: &'static str, value: &str, words: &[String]) -> bool
    ensures { result ≡ is_set_in name.now value.now (map string_bytes words.now) }
{
    value_or(name, words) == value
}

// The value of an option: the one that the words give, or the one that stands where none is given.
fn value_or<'a>(name: &'static str, words: &'a [String]) -> &'a str
    ensures { result.now ≡ value_or_default name.now (map string_bytes words.now) }
{
    match value_in(name, words) {
        Some(value) => value,
        None => default_of(name),
    }
}

// The value that stands where an option isn't given.
fn default_of(name: &str) -> &'static str
    ensures { result.now ≡ option_map_or (λ entry. entry.1) (entry_called name.now) [] }
{
    match option_called(name) {
        Some((_, default, _, _, _)) => default,
        None => "",
    }
}

// The command of a name.
#[tactic(auto, using(crate::proofs::Commands::named_in), unfolding(crate::specs::Line::command_of))]
fn command_of(name: &str) -> Option<CommandRow>
    ensures { result ≡ command_of_name name.now }
{
    named_among(name, commands())
}

// The command of a name among these.
#[tactic(auto, using(crate::proofs::First::passed, crate::proofs::First::found_here, crate::proofs::First::found_none))]
fn named_among(name: &str, entries: &[CommandEntry]) -> Option<CommandRow>
    ensures { result ≡ first_of (λ entry. named_entry name.now (command_entry entry)) entries.now }
{
    for entry in entries {
        if let Some(row) = named(name, entry) {
            return Some(row);
        }
    }
    None
}

// A command, if it is called this.
fn named(name: &str, entry: &CommandEntry) -> Option<CommandRow>
    ensures { result ≡ named_entry name.now (command_entry entry.now) }
{
    let (own, row, _) = entry;
    if *own == name { Some(*row) } else { None }
}
