ghost use Rattle.std.specs.Prelude.{◌≡◌, ◌<◌, [], length, map, IfOk, IfErr};
ghost use Rattle.rp_ini.specs.Lines as grammar;
ghost use Rattle.rp_ini.specs.Parser as steps;

use crate::{Assign, IniFault};
use indexmap::IndexSet;
use rp_base::{List, Text};
use std::alloc::Global;
use std::marker::Model;

/// The sections of a definition file, in order of first appearance, with their assignments.
#[derive(Drop)]
pub struct File {
    // the names of the sections, for their places
    index: IndexSet<String>,
    names: List<Text>,
    // the assignments of each section, by its place
    assigns: Vec<Vec<Assign>>,
}

impl Model for File {
    ghost use Rattle.std.specs.Prelude.{List};
    ghost use Rattle.rp_ini.specs.Lines.{Section};

    ghost Value = { List Section };

    ghost use Rattle.rp_ini.specs.File.{sections_of, IsIndexed};

    ghost view = { λ file. sections_of file.names file.assigns.items };

    ghost invariant = { λ file. IsIndexed file.index.keys file.names file.assigns.items };
}

impl File {
    /// A file without sections. It takes no memory.
    pub(crate) fn new(alloc: Global) -> File
        ensures { result ≡ [] }
    {
        File {
            index: IndexSet::new(alloc),
            names: List::new(alloc),
            assigns: Vec::new(alloc),
        }
    }

    /// All assignments of the sections of this name in order, none where there is no such section.
    pub fn section(&self, name: &str) -> &[Assign]
        ensures { result.now ≡ grammar.assigns_of self.now name.now }
    {
        match self.index.get_index_of(name) {
            Some(place) => self.assigns[place].as_slice(),
            None => &[],
        }
    }

    /// The names of the sections in order of first appearance.
    pub fn names(&self) -> &[Text]
        ensures { result.now ≡ map (λ section. section.name) self.now }
    {
        self.names.as_slice()
    }

    /// The file with a section of this name, and the section's place.
    pub(crate) fn with_section(self, alloc: Global, name: &str) -> Result<(File, usize), IniFault>
        ensures file { IfOk result (λ made. made.0 ≡ steps.with_section name.now self) }
        ensures place { IfOk result (λ made. made.1 ≡ steps.place_of name.now self) }
        ensures inside { IfOk result (λ made. made.1 < length made.0) }
        ensures fault { IfErr result (λ fault. fault ≡ IniFault.Memory) }
    {
        let File {
            mut index,
            mut names,
            mut assigns,
        } = self;
        let (place, is_new) = index.insert_full(String::from_str(alloc, name)?)?;
        if is_new {
            names.push(Text::from_str(alloc, name)?)?;
            assigns.push(Vec::new(alloc))?;
            return Ok((
                File {
                    index,
                    names,
                    assigns,
                },
                place,
            ));
        }
        Ok((
            File {
                index,
                names,
                assigns,
            },
            place,
        ))
    }

    /// The file with one more assignment in the section at this place.
    pub(crate) fn with_assign(self, place: usize, assign: Assign) -> Result<File, IniFault>
        requires { place < length self }
        ensures file { IfOk result (λ file. file ≡ steps.with_assign place assign self) }
        ensures len { IfOk result (λ file. length file ≡ length self) }
        ensures fault { IfErr result (λ fault. fault ≡ IniFault.Memory) }
    {
        let File {
            index,
            names,
            mut assigns,
        } = self;
        assigns[place].push(assign)?;
        Ok(File {
            index,
            names,
            assigns,
        })
    }
}
