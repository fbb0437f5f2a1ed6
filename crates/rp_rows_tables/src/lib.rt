//! Worked rows of the crates that read, judge and write tables and trees. It ships nothing.
#![tactic(auto)]

#[cfg(test)]
mod base;
#[cfg(test)]
mod gpt;
#[cfg(test)]
mod guid;
#[cfg(test)]
mod report;
#[cfg(test)]
mod steps;
#[cfg(test)]
mod table;
#[cfg(test)]
mod tree;
