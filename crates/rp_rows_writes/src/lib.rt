//! Worked rows of the crates that hash and write, and of the disks. It ships nothing.
#![tactic(auto)]

#[cfg(test)]
mod apply;
#[cfg(test)]
mod crc;
#[cfg(test)]
mod file_disk;
#[cfg(test)]
mod fill;
#[cfg(test)]
mod format;
#[cfg(test)]
mod hmac;
#[cfg(test)]
mod lanes;
#[cfg(test)]
mod mem_disk;
#[cfg(test)]
mod pool;
#[cfg(test)]
mod verity;
