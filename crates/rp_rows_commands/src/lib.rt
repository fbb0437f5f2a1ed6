//! Worked rows of image policies, of the help, and of commands. It ships nothing.
#![tactic(auto)]

#[cfg(test)]
mod check_command;
#[cfg(test)]
mod dissect_command;
#[cfg(test)]
mod findings;
#[cfg(test)]
mod help;
#[cfg(test)]
mod make;
#[cfg(test)]
mod policy;
#[cfg(test)]
mod policy_command;
#[cfg(test)]
mod reading;
#[cfg(test)]
mod verdicts;
