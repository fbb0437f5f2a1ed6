ghost use Rattle.std.specs.Prelude.{◌≡◌, ◌≢◌, ◌+◌, ◌<◌, ◌^◌, [], ◌∷◌, length, MatchOption, IfSome};
ghost use Rattle.std.specs.Str.Lines.{strip_carriage_return};
ghost use Rattle.rp_ini.specs.Text as grammar;

use crate::trim::trim_start;
use std::marker::Model;

/// What is left of a text, as its lines that are no comments, without white space in front.
#[derive(Drop)]
pub(crate) struct Lines<'a> {
    rest: &'a str,
    // how many lines were taken
    taken: u32,
}

impl<'a> Model for Lines<'a> {
    ghost use Rattle.std.specs.Prelude.{◌+◌, ◌<◌, ◌^◌, List, length};
    ghost use Rattle.rp_ini.specs.Text.{Line, kept_lines, lines_of};

    ghost Value = { List Line };

    ghost view = { λ lines. kept_lines (lines.taken + 1) (lines_of lines.rest.now) };

    ghost invariant = { λ lines. lines.taken + length lines.rest.now < 2 ^ 32 };
}

impl<'a> Lines<'a> {
    /// The lines of a text.
    pub(crate) fn new(text: &'a str) -> Self
        requires { length text.now < 2 ^ 32 }
        ensures { result ≡ grammar.kept_lines 1 (grammar.lines_of text.now) }
    {
        Lines {
            rest: text,
            taken: 0,
        }
    }

    /// The number and the text of the next line, if there is one.
    pub(crate) fn next(&mut self) -> Option<(u32, &'a str)>
        ensures { MatchOption result ((self.old ≡ []) × (self.new ≡ []))
            (λ line. self.old ≡ record { number = line.0; text = line.1.now } ∷ self.new) }
    {
        let kept = next_kept(self.rest, self.taken)?;
        self.rest = kept.rest;
        self.taken = kept.number;
        Some((kept.number, kept.text))
    }
}

// A line that is no comment, and the text behind it.
#[derive(Clone, Copy)]
struct Kept<'a> {
    number: u32,
    text: &'a str,
    rest: &'a str,
}

// The first line of a text that is no comment. So many lines were taken before the text.
fn next_kept(text: &str, taken: u32) -> Option<Kept<'_>>
    requires { taken + length text.now < 2 ^ 32 }
    ensures next { MatchOption result (grammar.kept_lines (taken + 1) (grammar.lines_of text.now) ≡ [])
        (λ kept. grammar.kept_lines (taken + 1) (grammar.lines_of text.now)
        ≡ record { number = kept.number; text = kept.text.now } ∷ grammar.kept_lines (kept.number + 1) (grammar.lines_of kept.rest.now)) }
    ensures fits { IfSome result (λ kept. kept.number + length kept.rest.now < 2 ^ 32) }
{
    let mut rest = text;
    let mut number = taken;
    while !rest.is_empty() {
        let (line, behind) = cut_line(rest);
        let line = trim_start(without_return(line));
        rest = behind;
        number += 1;
        if !is_comment(line) {
            return Some(Kept {
                number,
                text: line,
                rest,
            });
        }
    }
    None
}

// The first line of a text that isn't empty, and the text behind its line feed.
fn cut_line(text: &str) -> (&str, &str)
    requires { text.now ≢ [] }
    ensures lines { grammar.lines_of text.now ≡ result.0.now ∷ grammar.lines_of result.1.now }
    ensures shorter { length result.1.now < length text.now }
{
    match text.split_once('\n') {
        Some((line, behind)) => (line, behind),
        None => (text, ""),
    }
}

// The line without one carriage return at its end.
fn without_return(line: &str) -> &str
    ensures { result.now ≡ strip_carriage_return line.now }
{
    match line.strip_suffix('\r') {
        Some(front) => front,
        None => line,
    }
}

fn is_comment(line: &str) -> bool
    ensures { result ≡ grammar.is_comment line.now }
{
    match line.as_bytes() {
        [first, ..] => *first == b'#' || *first == b';',
        [] => false,
    }
}
