//! Hash trees of files, for checks by other tools. It ships nothing. The words are one of these; sizes are in blocks of
//! 4,096 bytes, the salt has 64 hexadecimal digits, and an identifier 32.
//!
//! - `rp_seal format DATA BLOCKS HASHES SALT UUID` writes the hash partition of a file of data blocks and prints the root
//!   hash.
//! - `rp_seal root DATA BLOCKS SALT` prints the root hash of a file with zeros behind it up to so many blocks.
//! - `rp_seal check IMAGE START BLOCKS START BLOCKS ROOT` says what is wrong first of the tree that an image has over the
//!   blocks of its first row, which begin with that block, in its second row.
#![tactic(auto)]

mod format;
mod judge;
mod words;

use crate::words::Line;
use rp_disk::FileDisk;
use rp_io::HostSources;
use std::process::ExitCode;

fn main(rt: HostRuntime) -> ExitCode {
    let Some(line) = words::read(&rt) else {
        return ExitCode::from(2);
    };
    match run(&rt, &line) {
        Some(code) => code,
        None => ExitCode::FAILURE,
    }
}

// Does what the words ask for; nothing where a file can't be read or written.
fn run(rt: &HostRuntime, line: &Line) -> Option<ExitCode> {
    match line {
        Line::Format {
            data,
            blocks,
            hashes,
            salt,
            uuid,
        } => {
            let mut from = FileDisk::open_to_read(rt, data.as_str());
            let to = FileDisk::open(rt, hashes.as_str());
            let root = format::format(&mut from, to, *blocks, salt, *uuid).ok()?;
            say(rt, &root)
        }
        Line::Root { data, blocks, salt } => {
            let mut sources = HostSources::new(rt);
            let root = format::root(&mut sources, data.as_str(), *blocks, salt).ok()?;
            say(rt, &root)
        }
        Line::Check {
            image,
            payload,
            hash,
        } => {
            let mut disk = FileDisk::open_to_read(rt, image.as_str());
            let text = judge::judge(rt.alloc(), &mut disk, payload, hash)?;
            println!(rt; "{}", text.as_str()).ok()?;
            Some(ExitCode::SUCCESS)
        }
    }
}

// Prints a root hash.
fn say(rt: &HostRuntime, root: &[u8; 32]) -> Option<ExitCode> {
    let text = hex::encode(rt.alloc(), root).ok()?;
    println!(rt; "{}", text.as_str()).ok()?;
    Some(ExitCode::SUCCESS)
}
