//! That a goal by what sources tell plans each pair with the root hash of its source; laws alone.
#![tactic(auto)]

mod law;

pub use law::goals_have_their_roots;
