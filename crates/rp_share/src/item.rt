ghost use Rattle.std.specs.Prelude.{◌≡◌, ◌+◌, ◌*◌, ◌<◌, ◌↔◌, IsTrue};
ghost use Rattle.rp_share.specs.Level.{grains_at};

use crate::LEVEL_SCALE;

/// What may have a share of a span, as a partition or the padding behind it: from `min` to `max` grains, by `weight`
/// against the other items. At weight 0 it has `min`.
#[derive(Clone, Copy, Debug, PartialEq, Eq)]
pub struct Item {
    pub min: u64,
    pub max: u64,
    pub weight: u64,
}

impl Item {
    /// The grains of this item at `level`.
    pub(crate) fn grains_at(&self, level: u64) -> u64
        ensures { result ≡ grains_at level self.now }
    {
        let by_weight = u128::from(level) * u128::from(self.weight) / u128::from(LEVEL_SCALE);
        by_weight
            .min(u128::from(self.max))
            .max(u128::from(self.min)) as u64
    }

    /// Whether this item can take a grain over its `share`.
    pub(crate) fn can_take(&self, share: u64) -> bool
        ensures { IsTrue result ↔ ((0 < self.now.weight) × (share < self.now.max)) }
    {
        self.weight > 0 && share < self.max
    }

    /// Whether this item, with a grain over its `share`, has fewer grains for its weight than `other` has with one over
    /// its own.
    #[tactic(auto, using(crate::proofs::Numbers::product_fits))]
    pub(crate) fn is_sooner(&self, share: u64, other: &Item, other_share: u64) -> bool
        ensures { IsTrue result ↔ ((share + 1) * other.now.weight < (other_share + 1) * self.now.weight) }
    {
        let (weight, other_weight) = (u128::from(self.weight), u128::from(other.weight));
        (u128::from(share) + 1) * other_weight < (u128::from(other_share) + 1) * weight
    }
}
