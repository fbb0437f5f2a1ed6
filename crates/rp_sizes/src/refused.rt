//! The first demands: halves of pairs, and sizes.

ghost use Rattle.std.specs.Prelude.{◌≡◌, ◌≤◌, ◌<◌, ◌^◌, All, length, slice_get, Some};
ghost use Rattle.rp_defs.specs.WellFormed.{IsSound};
ghost use Rattle.rp_sizes.specs.Sizes.{blocks_at, half_alone, first_demand as first_demand_of, half_demand as half_demand_of, is_judged, is_split, least_of, most_of, size_demand as size_demand_of, too_large};

use crate::need::{Fact, is_new, len_at};
use crate::pair::{bytes_grains, pair_blocks};
use rp_base::GRAIN;
use rp_defs::{Definition, Verity};
use rp_demand::Demand;
use rp_verity::hash_blocks;

/// The most grains that a partition, and the data under a tree, may have: 2^44 bytes.
const MOST: u64 = 1 << 32;

/// The first demand: that of the least half of a pair that has a row where the other has none, or none where the other has
/// one; then that of the least new definition whose size is above its maximum or 2^32 grains.
pub fn first_demand(matched: &[Option<u16>], defs: &[Definition], facts: &[Fact]) -> Option<Demand>
    requires few { length defs.now ≤ 256 }
    requires sound { All IsSound defs.now }
    ensures { result ≡ first_demand_of matched.now defs.now facts.now }
{
    match half_demand(matched, defs) {
        Some(demand) => Some(demand),
        None => size_demand(matched, defs, facts),
    }
}

// The demand of the first half of a pair that has a row where the other has none, or none where the other has one.
fn half_demand(matched: &[Option<u16>], defs: &[Definition]) -> Option<Demand>
    requires { length defs.now ≤ 256 }
    ensures { result ≡ half_demand_of matched.now defs.now }
{
    for (file, def) in defs.iter().enumerate() {
        if let Some(demand) = half_alone(matched, file as u16, def) {
            return Some(demand);
        }
    }
    None
}

// The demand of the definition at a place, if it is half of a pair of which one has a row and the other hasn't.
fn half_alone(matched: &[Option<u16>], file: u16, def: &Definition) -> Option<Demand>
    ensures { result ≡ half_alone matched.now (file, def.now) }
{
    if is_split(matched, file, def.verity) {
        Some(Demand::VerityHalf { file })
    } else {
        None
    }
}

// Whether one half of a pair has a row and the other hasn't.
fn is_split(matched: &[Option<u16>], file: u16, verity: Verity) -> bool
    ensures { result ≡ is_split matched.now file verity }
{
    match verity {
        Verity::Off => false,
        Verity::Data { partner } | Verity::Hash { partner } => {
            if is_new(matched, file) {
                !is_new(matched, partner)
            } else {
                is_new(matched, partner)
            }
        }
    }
}

// The demand of the first new definition whose size is above its maximum or 2^32 grains.
fn size_demand(matched: &[Option<u16>], defs: &[Definition], facts: &[Fact]) -> Option<Demand>
    requires few { length defs.now ≤ 256 }
    requires sound { All IsSound defs.now }
    ensures { result ≡ size_demand_of matched.now defs.now facts.now }
{
    for (file, def) in defs.iter().enumerate() {
        if let Some(demand) = too_large(matched, defs, facts, file as u16, def) {
            return Some(demand);
        }
    }
    None
}

// The demand of the definition at a place, if it is too large.
fn too_large(
    matched: &[Option<u16>],
    defs: &[Definition],
    facts: &[Fact],
    file: u16,
    def: &Definition,
) -> Option<Demand>
    requires sound { All IsSound defs.now }
    requires own { IsSound def.now }
    ensures { result ≡ too_large matched.now defs.now facts.now (file, def.now) }
{
    if !is_new(matched, file) || !is_judged(defs, facts, def.verity) {
        return None;
    }
    let least = least_of(defs, facts, file, def);
    let most = def.want.max.min(MOST);
    if least <= most {
        return None;
    }
    Some(Demand::SourceTooLarge {
        file,
        need: least.saturating_mul(GRAIN),
        max: most * GRAIN,
    })
}

// Whether a size is judged: not that of a hash whose data is larger than a tree can be over.
fn is_judged(defs: &[Definition], facts: &[Fact], verity: Verity) -> bool
    requires { All IsSound defs.now }
    ensures { result ≡ is_judged defs.now facts.now verity }
{
    match verity {
        Verity::Hash { partner } => blocks_at(defs, facts, partner) <= MOST,
        Verity::Off | Verity::Data { .. } => true,
    }
}

/// The least grains of a new partition: the exact ones of half of a pair.
pub(crate) fn least_of(defs: &[Definition], facts: &[Fact], file: u16, def: &Definition) -> u64
    requires sound { All IsSound defs.now }
    requires own { IsSound def.now }
    ensures value { result ≡ least_of defs.now facts.now (file, def.now) }
    ensures small { result ≤ 2 ^ 52 }
{
    let len = len_at(facts, file);
    match def.verity {
        Verity::Off => def.want.min.max(bytes_grains(len)),
        Verity::Data { .. } => pair_blocks(def, len),
        Verity::Hash { partner } => {
            let blocks = blocks_at(defs, facts, partner).min(MOST);
            def.want.min.max(hash_blocks(blocks))
        }
    }
}

/// The blocks of the data of the pair whose data is the definition at a place.
pub fn blocks_at(defs: &[Definition], facts: &[Fact], file: u16) -> u64
    requires { All IsSound defs.now }
    ensures value { result ≡ blocks_at defs.now facts.now file }
    ensures some { 1 ≤ result }
{
    match defs.get(file as usize) {
        Some(def) => pair_blocks(def, len_at(facts, file)),
        None => 1,
    }
}
