ghost use Rattle.std.specs.Prelude.{◌≡◌, ◌||◌, ◌==◌, option_map};
ghost use Rattle.std.specs.List.{list_any};
ghost use Rattle.std.specs.Option.{option_copied};
ghost use Rattle.rp_ini.specs.Text as grammar;
ghost use Rattle.rp_ini.specs.Lines.{header_of, assignment_of, is_section_name, header_entry, assignment_entry, entry_in, entry_of};
ghost use Rattle.rp_ini.specs.Parser.{entry_read};

use crate::IniFault;
use crate::trim::{trim_end, trim_start};

/// Bytes that a logical line may have.
const LONGEST: usize = 4096;

/// What a logical line says.
#[derive(Clone, Copy)]
pub(crate) enum Said<'a> {
    Nothing,
    /// The name of a section.
    Header(&'a str),
    /// A key and a value.
    Assignment(&'a str, &'a str),
}

/// What a logical line says, or its fault. Whether a section is open isn't tested here.
pub(crate) fn read_entry(number: u32, line: &str) -> Result<Said<'_>, IniFault>
    ensures { entry_read result ≡ entry_of (record { number = number; text = line.now }) }
{
    if line.len() > LONGEST {
        return Err(IniFault::TooLong { line: number });
    }
    read_text(number, trim_end(line))
}

// A line that has no white space at its end and isn't too long.
fn read_text(number: u32, text: &str) -> Result<Said<'_>, IniFault>
    ensures { entry_read result ≡ entry_in number text.now }
{
    match text.as_bytes() {
        [] => Ok(Said::Nothing),
        [b'[', ..] => read_header(number, header(text)),
        [_, ..] => read_assignment(number, assignment(text)),
    }
}

fn read_header(number: u32, name: Option<&str>) -> Result<Said<'_>, IniFault>
    ensures { entry_read result ≡ header_entry number (option_copied name.entry) }
{
    match name {
        Some(name) => Ok(Said::Header(name)),
        None => Err(IniFault::BadLine { line: number }),
    }
}

fn read_assignment<'a>(number: u32, pair: Option<(&'a str, &'a str)>) -> Result<Said<'a>, IniFault>
    ensures { entry_read result ≡ assignment_entry number (option_map (λ both. (both.0.now, both.1.now)) pair.entry) }
{
    match pair {
        Some((key, value)) => Ok(Said::Assignment(key, value)),
        None => Err(IniFault::BadLine { line: number }),
    }
}

// The name in `[name]`: it isn't empty and has no brackets.
fn header(text: &str) -> Option<&str>
    ensures { option_copied result ≡ header_of text.now }
{
    let name = text.strip_prefix('[')?.strip_suffix(']')?;
    if is_name(name) { Some(name) } else { None }
}

fn is_name(name: &str) -> bool
    ensures { result ≡ is_section_name name.now }
{
    !name.is_empty() && !has_bracket(name)
}

fn has_bracket(name: &str) -> bool
    ensures { result ≡ list_any (λ byte. byte == 91 || byte == 93) name.now }
{
    name.as_bytes()
        .iter()
        .any(|byte| *byte == b'[' || *byte == b']')
}

// The key and the value of `key=value`, cut at the first `=`, both without white space around; the key isn't empty.
fn assignment(text: &str) -> Option<(&str, &str)>
    ensures { option_map (λ pair. (pair.0.now, pair.1.now)) result ≡ assignment_of text.now }
{
    let (key, value) = text.split_once('=')?;
    let key = trim(key);
    if key.is_empty() {
        return None;
    }
    Some((key, trim(value)))
}

fn trim(text: &str) -> &str
    ensures { result.now ≡ grammar.trim text.now }
{
    trim_end(trim_start(text))
}
