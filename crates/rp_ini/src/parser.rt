ghost use Rattle.std.specs.Prelude.{◌≡◌, ◌<◌, ◌^◌, Some, None, [], Ok, length};
ghost use Rattle.rp_base.specs.Answers.{Gives};
ghost use Rattle.rp_ini.specs.Text.{logical_lines};
ghost use Rattle.rp_ini.specs.Lines.{assignments};
ghost use Rattle.rp_ini.specs.Parser as steps;

use crate::decode::decoded;
use crate::entry::{Said, read_entry};
use crate::lines::Lines;
use crate::logical::next_logical;
use crate::{Assign, File, IniFault};
use rp_base::Text;
use std::alloc::Global;
use std::marker::Model;

/// The sections of a definition file, or its first fault by line. That the bytes aren't UTF-8 comes before all else.
pub fn parse(alloc: Global, bytes: &[u8]) -> Result<File, IniFault>
    requires { length bytes.now < 2 ^ 32 }
    ensures { Gives IniFault.Memory (assignments bytes.now) result }
{
    parse_lines(alloc, Lines::new(decoded(bytes)?))
}

fn parse_lines(alloc: Global, lines: Lines<'_>) -> Result<File, IniFault>
    ensures { Gives IniFault.Memory (steps.after_lines (Ok (record { sections = []; current = None })) (logical_lines lines.entry)) result }
{
    let mut lines = lines;
    let mut line = String::new(alloc);
    let mut parser = Parser::new(alloc);
    while let Some(number) = next_logical(&mut lines, &mut line)? {
        parser = parser.after_line(alloc, number, line.as_str())?;
    }
    Ok(parser.into_file())
}

/// What the lines so far make, with the place of the section that is open.
#[derive(Drop)]
struct Parser {
    file: File,
    current: Option<usize>,
}

impl Model for Parser {
    ghost use Rattle.std.specs.Prelude.{length, ◌<◌};
    ghost use Rattle.std.specs.Option.{ForSome};
    ghost use Rattle.rp_ini.specs.Parser.{Progress};

    ghost Value = { Progress };

    ghost view = { λ parser. record { sections = parser.file; current = parser.current } };

    ghost invariant = { λ parser. ForSome parser.current (λ place. place < length parser.file) };
}

impl Parser {
    /// What no line makes. It takes no memory.
    fn new(alloc: Global) -> Parser
        ensures { result ≡ record { sections = []; current = None } }
    {
        Parser {
            file: File::new(alloc),
            current: None,
        }
    }

    /// The file that the lines made.
    fn into_file(self) -> File
        ensures { result ≡ self.sections }
    {
        let Parser { file, current: _ } = self;
        file
    }

    /// What one more logical line makes.
    fn after_line(self, alloc: Global, number: u32, line: &str) -> Result<Parser, IniFault>
        ensures { Gives IniFault.Memory (steps.after_line self (record { number = number; text = line.now })) result }
    {
        let said = read_entry(number, line)?;
        self.after_entry(alloc, number, said)
    }

    fn after_entry(self, alloc: Global, number: u32, said: Said<'_>) -> Result<Parser, IniFault>
        ensures { Gives IniFault.Memory (steps.after_entry self number (steps.entry said.entry)) result }
    {
        match said {
            Said::Nothing => Ok(self),
            Said::Header(name) => self.after_header(alloc, name),
            Said::Assignment(key, value) => self.after_assignment(alloc, number, key, value),
        }
    }

    fn after_header(self, alloc: Global, name: &str) -> Result<Parser, IniFault>
        ensures { Gives IniFault.Memory (Ok (record {
          sections = steps.with_section name.now self.sections;
          current = Some
              (steps.place_of name.now self.sections);
        })) result }
    {
        let Parser { file, current: _ } = self;
        let (file, place) = file.with_section(alloc, name)?;
        Ok(Parser {
            file,
            current: Some(place),
        })
    }

    fn after_assignment(
        self,
        alloc: Global,
        number: u32,
        key: &str,
        value: &str,
    ) -> Result<Parser, IniFault>
        ensures { Gives IniFault.Memory
            (steps.assigned self.sections (record { key = key.now; value = value.now; line = number })
            (steps.open_place number self.current)) result }
    {
        let Parser { file, current } = self;
        let place = open_place(number, current)?;
        let assign = Assign {
            key: Text::from_str(alloc, key)?,
            value: Text::from_str(alloc, value)?,
            line: number,
        };
        let file = file.with_assign(place, assign)?;
        Ok(Parser {
            file,
            current: Some(place),
        })
    }
}

// The place of the open section. An assignment needs one.
fn open_place(number: u32, current: Option<usize>) -> Result<usize, IniFault>
    ensures { result ≡ steps.open_place number current }
{
    match current {
        Some(place) => Ok(place),
        None => Err(IniFault::NoSection { line: number }),
    }
}
