//! Worked rows of the crates that lay partitions out and name them. It ships nothing.
#![tactic(auto)]

#[cfg(test)]
mod areas;
#[cfg(test)]
mod ident;
#[cfg(test)]
mod layout;
#[cfg(test)]
mod place;
#[cfg(test)]
mod share;
#[cfg(test)]
mod sizes;
