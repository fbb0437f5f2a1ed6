ghost use Rattle.std.specs.Prelude.{◌≡◌};
ghost use Rattle.rp_defs.specs.Drafts.{want_of};
ghost use Rattle.rp_defs.specs.Limits.{max_of, min_of};

use crate::draft::Half;
use crate::keys::Key;
use crate::value::{Value, size_in, weight_in};
use rp_base::{GRAIN, UNLIMITED, Want};

/// The minimum that is asked for where none is set, in grains: 10 MiB.
const USUAL_MIN: u64 = 2560;

/// The weight where none is set.
const USUAL_WEIGHT: u64 = 1000;

/// What a definition asks for, in grains. Half of a verity pair has no weight, and it may have no grain; any other has
/// one at least.
#[tactic(auto, unfolding(crate::specs::Drafts::want_of))]
pub(crate) fn want_of(half: Half, values: &[Option<Value>]) -> Want
    ensures { result ≡ want_of half values.now }
{
    let max = max_of(size_in(values, Key::SizeMaxBytes));
    let set_min = size_in(values, Key::SizeMinBytes);
    let (min, weight) = match half {
        Half::Off => (
            min_of(set_min, USUAL_MIN.min(max)).max(1),
            weight_in(values, Key::Weight).unwrap_or(USUAL_WEIGHT),
        ),
        Half::Data | Half::Hash => (min_of(set_min, 0), 0),
    };
    Want {
        min,
        max,
        weight,
        pad_min: min_of(size_in(values, Key::PaddingMinBytes), 0),
        pad_max: max_of(size_in(values, Key::PaddingMaxBytes)),
        pad_weight: weight_in(values, Key::PaddingWeight).unwrap_or(0),
    }
}

// A maximum in bytes as one in grains.
fn max_of(set: Option<u64>) -> u64
    ensures { result ≡ max_of set }
{
    match set {
        Some(bytes) => bytes / GRAIN,
        None => UNLIMITED,
    }
}

// A minimum in bytes as one in grains; one that is unset is so much.
fn min_of(set: Option<u64>, unset: u64) -> u64
    ensures { result ≡ min_of set unset }
{
    match set {
        Some(bytes) => bytes.div_ceil(GRAIN),
        None => unset,
    }
}
