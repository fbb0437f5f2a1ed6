//! A worked run of `apply` over a disk in memory, again, and with each call failing once. It ships nothing.
#![tactic(auto)]

#[cfg(test)]
mod apply;
