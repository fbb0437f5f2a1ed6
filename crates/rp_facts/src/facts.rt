ghost use Rattle.std.specs.Prelude.{◌≡◌, ◌≤◌, ◌+◌, ◌*◌, ◌^◌, ◌∷◌, [], All, IfOk, IfSome, is_some, length, option_and_then, slice_get, vec_len};
ghost use Rattle.rp_base.specs.Trees.{levels as tree_levels};
ghost use Rattle.rp_base.specs.Wants.{IsWant};
ghost use Rattle.rp_defs.specs.declared.definition.Definition.{Definition as Named};
ghost use Rattle.rp_defs.specs.WellFormed.{IsWellFormed};
ghost use Rattle.rp_facts.specs.Faults.{HasFactCause};
ghost use Rattle.rp_facts.specs.Sourced.{AreLengths, AreThere, IsLength, IsSourced, StraysAtMissing, fact_on, facts_on, root_on};
ghost use Rattle.rp_sizes.specs.Needs.{AreFactsOn};

use crate::FactFault;
use rp_base::{Failed, Guid, List};
use rp_defs::Definition;
use rp_io::Sources;
use rp_sizes::{Fact, Need, pair_blocks, salt_of};
use rp_verity::{levels, root_of};
use std::alloc::{AllocError, Global};

/// What the sources of these needs tell: the length of each is asked in order, then the root hash of each that is wanted
/// is taken in order, over the source and zeros behind it. So each source is read at most once. A source that isn't there
/// is a fault.
pub fn facts_of<S: Sources>(
    alloc: Global,
    sources: &mut S,
    seed: Guid,
    list: &[Definition],
    needs: &[Need],
) -> Result<List<Fact>, FactFault>
    requires list { IsWellFormed list.now }
    requires needs { All (IsSourced list.now) needs.now }
    ensures facts { IfSome (S.told sources.old) (λ files. IfOk result (λ facts. facts ≡ facts_on seed files list.now needs.now)) }
    ensures each { IfOk result (AreFactsOn needs.now) }
    ensures there { IfSome (S.told sources.old) (λ files. IfOk result (λ _. AreThere files list.now needs.now)) }
    ensures told { S.told sources.new ≡ S.told sources.old }
    ensures strays { IfSome (S.told sources.old) (λ files.
        StraysAtMissing files list.now needs.now (S.strays sources.old) (S.strays sources.new) result) }
    ensures cause { HasFactCause (S.faults sources.old) (S.faults sources.new) result }
{
    let lens = lengths_of(alloc, sources, list, needs)?;
    with_roots(alloc, sources, seed, list, needs, lens.as_slice())
}

// The length of the source of each need, in order.
fn lengths_of<S: Sources>(
    alloc: Global,
    sources: &mut S,
    list: &[Definition],
    needs: &[Need],
) -> Result<List<u64>, FactFault>
    requires { All (IsSourced list.now) needs.now }
    ensures lens { IfSome (S.told sources.old) (λ files. IfOk result (AreLengths files list.now needs.now)) }
    ensures count { IfOk result (λ lens. length lens ≡ length needs.now) }
    ensures told { S.told sources.new ≡ S.told sources.old }
    ensures strays { IfSome (S.told sources.old) (λ files.
        StraysAtMissing files list.now needs.now (S.strays sources.old) (S.strays sources.new) result) }
    ensures cause { HasFactCause (S.faults sources.old) (S.faults sources.new) result }
{
    let mut lens = List::new(alloc);
    for need in needs {
        let len = length_of(sources, list, *need)?;
        lens.push(len)?;
    }
    Ok(lens)
}

// The length of the source of a need.
fn length_of<S: Sources>(sources: &mut S, list: &[Definition], need: Need) -> Result<u64, FactFault>
    requires { IsSourced list.now need }
    ensures len { IfSome (S.told sources.old) (λ files. IfOk result (IsLength files list.now need)) }
    ensures told { S.told sources.new ≡ S.told sources.old }
    ensures strays { IfSome (S.told sources.old) (λ files.
        StraysAtMissing files list.now (need ∷ []) (S.strays sources.old) (S.strays sources.new) result) }
    ensures cause { HasFactCause (S.faults sources.old) (S.faults sources.new) result }
{
    match sources.len(path_of(list, need)) {
        Ok(len) => Ok(len),
        Err(Failed) => Err(FactFault::SourceFault),
    }
}

// The definition that a need is of.
fn definition_of(list: &[Definition], need: Need) -> &Definition
    requires list { IsWellFormed list.now }
    requires need { IsSourced list.now need }
    ensures found { slice_get list.now need.file ≡ Some result.now }
    ensures want { IsWant result.now.want }
{
    &list[usize::from(need.file)]
}

// The path of the source of a need.
fn path_of(list: &[Definition], need: Need) -> &str
    requires { IsSourced list.now need }
    ensures { option_and_then (λ (definition : Named). definition.source) (slice_get list.now need.file) ≡ Some result.now }
{
    match &list[usize::from(need.file)].source {
        Some(path) => path.as_str(),
        None => unreachable!(),
    }
}

// The facts on the sources of these needs, whose lengths are given.
fn with_roots<S: Sources>(
    alloc: Global,
    sources: &mut S,
    seed: Guid,
    list: &[Definition],
    needs: &[Need],
    lens: &[u64],
) -> Result<List<Fact>, FactFault>
    requires list { IsWellFormed list.now }
    requires needs { All (IsSourced list.now) needs.now }
    requires count { length lens.now ≡ length needs.now }
    ensures facts { IfSome (S.told sources.old) (λ files. AreLengths files list.now needs.now lens.now
        → IfOk result (λ facts. facts ≡ facts_on seed files list.now needs.now)) }
    ensures each { IfOk result (AreFactsOn needs.now) }
    ensures told { S.told sources.new ≡ S.told sources.old }
    ensures strays { IfSome (S.told sources.old) (λ files. AreLengths files list.now needs.now lens.now
        → S.strays sources.new ≡ S.strays sources.old) }
    ensures cause { HasFactCause (S.faults sources.old) (S.faults sources.new) result }
{
    let mut facts = List::new(alloc);
    for i in 0..needs.len() {
        let fact = fact_of(alloc, sources, seed, list, needs[i], lens[i])?;
        facts.push(fact)?;
    }
    Ok(facts)
}

// The fact on the source of a need, whose length is given.
fn fact_of<S: Sources>(
    alloc: Global,
    sources: &mut S,
    seed: Guid,
    list: &[Definition],
    need: Need,
    len: u64,
) -> Result<Fact, FactFault>
    requires list { IsWellFormed list.now }
    requires need { IsSourced list.now need }
    ensures fact { IfSome (S.told sources.old) (λ files. IsLength files list.now need len
        → IfOk result (λ fact. fact_on seed files list.now need ≡ Some fact)) }
    ensures each { IfOk result (λ fact. (fact.file ≡ need.file) × (is_some fact.root ≡ need.pair)) }
    ensures told { S.told sources.new ≡ S.told sources.old }
    ensures strays { IfSome (S.told sources.old) (λ files. IsLength files list.now need len
        → S.strays sources.new ≡ S.strays sources.old) }
    ensures cause { HasFactCause (S.faults sources.old) (S.faults sources.new) result }
{
    let file = need.file;
    if !need.pair {
        return Ok(Fact {
            file,
            len,
            root: None,
        });
    }
    let root = root_at(alloc, sources, seed, list, need, len)?;
    Ok(Fact {
        file,
        len,
        root: Some(root),
    })
}

// The root hash over the source of a need, whose length is given, and zeros behind it. Of data that no tree can be over
// none is taken.
fn root_at<S: Sources>(
    alloc: Global,
    sources: &mut S,
    seed: Guid,
    list: &[Definition],
    need: Need,
    len: u64,
) -> Result<[u8; 32], FactFault>
    requires list { IsWellFormed list.now }
    requires need { IsSourced list.now need }
    ensures root { IfSome (S.told sources.old) (λ files. IsLength files list.now need len
        → IfOk result (λ root. root_on seed files list.now need ≡ Some root)) }
    ensures told { S.told sources.new ≡ S.told sources.old }
    ensures strays { IfSome (S.told sources.old) (λ files. IsLength files list.now need len
        → S.strays sources.new ≡ S.strays sources.old) }
    ensures cause { HasFactCause (S.faults sources.old) (S.faults sources.new) result }
{
    let definition = definition_of(list, need);
    let blocks = pair_blocks(definition, len);
    if blocks > 1 << 32 {
        return Ok([0; 32]);
    }
    let salt = salt_of(seed, definition.kind);
    let mut room = room_for(alloc, blocks)?;
    match root_of(
        sources,
        path_of(list, need),
        len,
        blocks,
        &salt,
        room.as_mut_slice(),
    ) {
        Ok(root) => Ok(root),
        Err(Failed) => Err(FactFault::SourceFault),
    }
}

// A room in which a tree over so many blocks is built: a block for each level and one for the data.
fn room_for(alloc: Global, blocks: u64) -> Result<Vec<u8>, AllocError>
    requires some { 1 ≤ blocks }
    requires few { blocks ≤ 2 ^ 32 }
    ensures { IfOk result (λ room. 4096 * (tree_levels blocks + 1) ≤ vec_len room) }
{
    let len = 4096 * (levels(blocks) as usize + 1);
    vec![in alloc; 0; len]
}
