ghost use Rattle.std.specs.Prelude.{◌≡◌, ◌≤◌, All, IfOk, IfErr, Ok, Err, length, map, count_by};
ghost use Rattle.std.specs.List.{position_or_len};
ghost use Rattle.rp_base.specs.Answers.{Gives};
ghost use Rattle.rp_defs.specs.Faults.{no_memory, IsFault, IsSoundFault};
ghost use Rattle.rp_defs.specs.Joints.{joint_of, pair_fault};
ghost use Rattle.rp_defs.specs.Pairs.{paired, definition_of, has_pair, is_half, is_joined, is_pair, place_of, shared_priority};
ghost use Rattle.rp_defs.specs.Partner.{greater, with_partner};
ghost use Rattle.rp_defs.specs.SoundDraft.{IsSoundDraft};
ghost use Rattle.rp_defs.specs.WellFormed.{IsWellFormed};

use crate::draft::{Draft, Half};
use crate::{DefFault, DefKind, Definition, Verity};
use rp_base::List;
use std::alloc::Global;

/// What the pair of a draft gives to its definition.
#[derive(Clone, Copy)]
struct Joint {
    verity: Verity,
    priority: i32,
}

/// The definitions of these drafts, or the fault of the first half without its pair or with a wrong source.
pub(crate) fn paired(alloc: Global, drafts: List<Draft>) -> Result<List<Definition>, DefFault>
    requires few { length drafts ≤ 256 }
    requires sound { All IsSoundDraft drafts }
    ensures answer { Gives no_memory (paired drafts) result }
    ensures well_formed { IfOk result IsWellFormed }
    ensures fault { IfErr result IsSoundFault }
{
    let joints = joints_of(alloc, drafts.as_slice())?;
    with_joints(alloc, drafts, joints.as_slice())
}

// The joint of each draft, or the fault of the first that isn't joined.
fn joints_of(alloc: Global, drafts: &[Draft]) -> Result<List<Joint>, DefFault>
    requires few { length drafts.now ≤ 256 }
    ensures joints { IfOk result (λ joints. joints ≡ map (joint_of drafts.now) drafts.now) }
    ensures all { IfOk result (λ _. paired drafts.now ≡ Ok (map (definition_of drafts.now) drafts.now)) }
    ensures answer { IfErr result (λ fault. Gives no_memory (paired drafts.now) (Err fault)) }
    ensures fault { IfErr result IsSoundFault }
{
    let mut joints = List::new(alloc);
    for draft in drafts {
        if !is_joined(drafts, draft) {
            return Err(unpaired(alloc, draft));
        }
        if joints.push(joint_of(drafts, draft)).is_err() {
            return Err(DefFault::starved(alloc));
        }
    }
    Ok(joints)
}

// The fault of a half that isn't joined.
fn unpaired(alloc: Global, draft: &Draft) -> DefFault
    ensures fault { IsFault (pair_fault draft.now) result }
    ensures sound { IsSoundFault result }
{
    DefFault::placed(
        alloc,
        draft.definition.file.as_str(),
        "",
        0,
        DefKind::VerityPair,
    )
}

// The drafts' definitions with their joints.
fn with_joints(
    alloc: Global,
    drafts: List<Draft>,
    joints: &[Joint],
) -> Result<List<Definition>, DefFault>
    requires joints { joints.now ≡ map (joint_of drafts) drafts }
    ensures answer { Gives no_memory (Ok (map (definition_of drafts) drafts)) result }
    ensures fault { IfErr result IsSoundFault }
{
    let mut list = List::new(alloc);
    for (draft, joint) in drafts.into_vec().into_iter().zip(joints) {
        if list.push(joined(draft, *joint)).is_err() {
            return Err(DefFault::starved(alloc));
        }
    }
    Ok(list)
}

// A draft's definition with its joint.
fn joined(draft: Draft, joint: Joint) -> Definition
    ensures { result ≡ with_partner draft.definition joint.verity joint.priority }
{
    let mut definition = draft.definition;
    definition.verity = joint.verity;
    definition.priority = joint.priority;
    definition
}

// Whether a draft is no half, or the data of a pair, with a source, or the hash of one, without.
#[tactic(auto, unfolding(crate::specs::Pairs::is_joined))]
fn is_joined(drafts: &[Draft], draft: &Draft) -> bool
    ensures { result ≡ is_joined drafts.now draft.now }
{
    match draft.half {
        Half::Off => true,
        Half::Data => has_pair(drafts, draft) && draft.definition.source.is_some(),
        Half::Hash => has_pair(drafts, draft) && draft.definition.source.is_none(),
    }
}

// Whether exactly one data and one hash definition have a draft's key.
fn has_pair(drafts: &[Draft], draft: &Draft) -> bool
    ensures { result ≡ has_pair drafts.now draft.now }
{
    match &draft.match_key {
        Some(key) => is_pair(drafts, key.as_str()),
        None => false,
    }
}

fn is_pair(drafts: &[Draft], key: &str) -> bool
    ensures { result ≡ is_pair drafts.now key.now }
{
    count_of(drafts, Half::Data, key) == 1 && count_of(drafts, Half::Hash, key) == 1
}

// What its pair gives to the definition of a draft.
#[tactic(auto, using(crate::proofs::PairLemmas::joint_off, crate::proofs::PairLemmas::joint_data, crate::proofs::PairLemmas::joint_hash))]
fn joint_of(drafts: &[Draft], draft: &Draft) -> Joint
    requires few { length drafts.now ≤ 256 }
    ensures { result ≡ joint_of drafts.now draft.now }
{
    match draft.half {
        Half::Off => Joint {
            verity: draft.definition.verity,
            priority: draft.definition.priority,
        },
        Half::Data => {
            let place = place_of(drafts, Half::Hash, draft);
            Joint {
                verity: Verity::Data {
                    partner: place as u16,
                },
                priority: shared_priority(drafts, place, draft),
            }
        }
        Half::Hash => {
            let place = place_of(drafts, Half::Data, draft);
            Joint {
                verity: Verity::Hash {
                    partner: place as u16,
                },
                priority: shared_priority(drafts, place, draft),
            }
        }
    }
}

// The greater of a draft's priority and that of the draft at a place.
fn shared_priority(drafts: &[Draft], place: usize, draft: &Draft) -> i32
    ensures { result ≡ shared_priority drafts.now place draft.now }
{
    match drafts.get(place) {
        Some(other) => greater(draft.definition.priority, other.definition.priority),
        None => draft.definition.priority,
    }
}

fn greater(a: i32, b: i32) -> i32
    ensures { result ≡ greater a b }
{
    if a <= b { b } else { a }
}

// The place of a half of the pair of a draft's key.
fn place_of(drafts: &[Draft], half: Half, draft: &Draft) -> usize
    ensures place { result ≡ place_of drafts.now half draft.now }
    ensures bound { result ≤ length drafts.now }
{
    match &draft.match_key {
        Some(key) => first_of(drafts, half, key.as_str()),
        None => 0,
    }
}

// How many drafts are this half of the pair of a key.
fn count_of(drafts: &[Draft], half: Half, key: &str) -> usize
    ensures { result ≡ count_by (is_half half key.now) drafts.now }
{
    let mut count = 0;
    for draft in drafts {
        if is_half(draft, half, key) {
            count += 1;
        }
    }
    count
}

// The place of the first draft that is this half of the pair of a key, or their number.
fn first_of(drafts: &[Draft], half: Half, key: &str) -> usize
    ensures place { result ≡ position_or_len (is_half half key.now) drafts.now }
    ensures bound { result ≤ length drafts.now }
{
    for (place, draft) in drafts.iter().enumerate() {
        if is_half(draft, half, key) {
            return place;
        }
    }
    drafts.len()
}

// Whether a draft is this half of the pair of a key.
fn is_half(draft: &Draft, half: Half, key: &str) -> bool
    ensures { result ≡ is_half half key.now draft.now }
{
    match &draft.match_key {
        Some(own) => half == draft.half && key == own.as_str(),
        None => false,
    }
}
