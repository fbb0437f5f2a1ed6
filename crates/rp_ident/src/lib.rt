//! Names and identifiers of the rows that definitions have.
#![tactic(auto)]

mod fault;
mod given;
pub mod law;
mod naming;
mod tried;
mod used;

pub use fault::IdentFault;
pub use naming::{Naming, name_rows};
