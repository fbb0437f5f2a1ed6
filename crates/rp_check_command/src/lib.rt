//! The command `check`: compares an image with its definitions down to the last digest, and prints the first difference.
#![tactic(auto)]

mod command;
mod law;
mod printing;

pub use command::check;
pub use law::check_by_status;
pub use printing::tell;
