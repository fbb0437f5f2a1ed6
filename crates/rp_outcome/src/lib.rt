//! How a command ends: the exit statuses, the refusal of each fault as data, and the one printer of their lines, which
//! takes no memory.
#![tactic(auto)]

mod definitions;
mod demand;
mod printing;
mod refusal;
mod status;
mod table;

pub use definitions::{def_refusal, load_refusal};
pub use demand::demand_refusal;
pub use printing::{differ, finish, print_pieces, refuse};
pub use refusal::Refusal;
pub use status::{
    CHANGED, DEFINITIONS, DEMAND, DIFFERS, DISK, DONE, FILES, IMAGE, MEMORY, SINK, WORDS,
};
pub use table::table_refusal;
