//! Worked rows of the crates that read definition files. It ships nothing.
#![tactic(auto)]

#[cfg(test)]
mod definitions;
#[cfg(test)]
mod ini;
#[cfg(test)]
mod loader;
#[cfg(test)]
mod numbers;
#[cfg(test)]
mod types;
#[cfg(test)]
mod values;
