//! What definitions without a row ask for: which sources are wanted, how large new partitions are by the facts on these,
//! and what refuses them (repart.d(5)). Sizes are in grains of 4,096 bytes.
#![tactic(auto)]

pub mod law;
mod need;
mod pair;
mod pushed;
mod refused;
mod wants;

pub use need::{Fact, Need, fact_at, is_new, kinds, wanted};
pub use pair::{pair_blocks, salt_of, super_id};
pub use pushed::push_some;
pub use refused::{blocks_at, first_demand};
pub use wants::{asked, news};
