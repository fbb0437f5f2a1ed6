//! Worked runs of `plan` and `apply` with a factory reset, over a disk in memory. It ships nothing.
#![tactic(auto)]

#[cfg(test)]
mod reset;
