//! The bytes of the source.

ghost use Rattle.std.specs.Prelude.{◌≡◌, IfOk};
ghost use Rattle.rp_make_input.specs.Bytes.{next as next_of, source_bytes as source_bytes_of, top_byte as top_byte_of};

use rp_base::{List, Memory};
use std::alloc::Global;

/// The multiplier and the increment of the generator.
const MULTIPLIER: u64 = 6_364_136_223_846_793_005;

const INCREMENT: u64 = 1_442_695_040_888_963_407;

/// Bytes for each unit of the number, and those behind them.
const UNIT: u32 = 4096;

const REST: u32 = 17;

/// The bytes of the source of a number: the highest bytes of a linear congruential generator that begins with it.
pub(crate) fn source_bytes(alloc: Global, number: u8) -> Result<List<u8>, Memory>
    ensures { IfOk result (λ bytes. bytes ≡ source_bytes_of number) }
{
    let mut bytes = List::new(alloc);
    let mut state = u64::from(number);
    for _turn in 0..UNIT * u32::from(number) + REST {
        state = next(state);
        bytes.push(top_byte(state))?;
    }
    Ok(bytes)
}

// The state of the generator behind this one.
fn next(state: u64) -> u64
    ensures { result ≡ next_of state }
{
    state.wrapping_mul(MULTIPLIER).wrapping_add(INCREMENT)
}

// The highest byte of a state.
fn top_byte(state: u64) -> u8
    ensures { result ≡ top_byte_of state }
{
    (state >> 56) as u8
}
