//! What is asked for partitions once their sizes are known.

ghost use Rattle.std.specs.Prelude.{◌≡◌, ◌≤◌, ◌<◌, All, IfOk, length};
ghost use Rattle.rp_base.specs.Wants.{AreWants};
ghost use Rattle.rp_defs.specs.WellFormed.{IsSound};
ghost use Rattle.rp_sizes.specs.News.{new_of, news_of};
ghost use Rattle.rp_sizes.specs.Sizes.{asked as all_asked, asked_of, sized};

use crate::need::{Fact, is_new};
use crate::pushed::push_some;
use crate::refused::least_of;
use rp_base::{List, Memory, Want};
use rp_defs::{Definition, Verity};
use rp_place::New;
use std::alloc::Global;

/// What is asked for each definition: what it says itself where it has a row; a new one has no
/// less than its source, and half of a pair its exact size.
pub fn asked(
    alloc: Global,
    matched: &[Option<u16>],
    defs: &[Definition],
    facts: &[Fact],
) -> Result<List<Want>, Memory>
    requires few { length defs.now ≤ 256 }
    requires sound { All IsSound defs.now }
    ensures { IfOk result (λ wants. wants ≡ all_asked matched.now defs.now facts.now) }
{
    let mut wants = List::new(alloc);
    for (file, def) in defs.iter().enumerate() {
        wants.push(asked_for(matched, defs, facts, file as u16, def))?;
    }
    Ok(wants)
}

// What is asked for the definition at a place.
fn asked_for(
    matched: &[Option<u16>],
    defs: &[Definition],
    facts: &[Fact],
    file: u16,
    def: &Definition,
) -> Want
    requires sound { All IsSound defs.now }
    requires own { IsSound def.now }
    ensures { result ≡ asked_of matched.now defs.now facts.now (file, def.now) }
{
    if is_new(matched, file) {
        sized(def.verity, least_of(defs, facts, file, def), def.want)
    } else {
        def.want
    }
}

// What is asked for a new partition of such a least size.
fn sized(verity: Verity, least: u64, want: Want) -> Want
    ensures { result ≡ sized verity least want }
{
    match verity {
        Verity::Off => Want { min: least, ..want },
        Verity::Data { .. } | Verity::Hash { .. } => Want {
            min: least,
            max: least,
            ..want
        },
    }
}

/// The definitions that are to get a row, in order, each with the grains that it needs.
pub fn news(
    alloc: Global,
    matched: &[Option<u16>],
    wants: &[Want],
    defs: &[Definition],
) -> Result<List<New>, Memory>
    requires few { length defs.now ≤ 256 }
    requires wants { AreWants wants.now }
    requires one_each { length wants.now ≡ length defs.now }
    ensures { IfOk result (λ news. news ≡ news_of matched.now wants.now defs.now) }
{
    let mut news = List::new(alloc);
    for (file, def) in defs.iter().enumerate() {
        push_some(&mut news, new_for(matched, wants, file as u16, def))?;
    }
    Ok(news)
}

// The definition at a place, if it has no row.
fn new_for(matched: &[Option<u16>], wants: &[Want], file: u16, def: &Definition) -> Option<New>
    requires wants { AreWants wants.now }
    requires file { file < length wants.now }
    ensures { result ≡ new_of matched.now wants.now (file, def.now) }
{
    if !is_new(matched, file) {
        return None;
    }
    let want = &wants[file as usize];
    Some(New {
        file,
        need: want.min + want.pad_min,
        priority: def.priority,
    })
}
