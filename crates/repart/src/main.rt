//! `repart`: shows, plans and changes the partition table of a raw disk image, and judges it by an image policy.
#![tactic(auto)]

mod handles;
mod image;
mod lock;
mod sectors;

use handles::standard_handles;
use image::{image_of, path_of};
use lock::{Lock, lock_of};
use rp_cli::run;
use rp_disk::FileDisk;
use rp_io::{HostFolders, HostSink, HostSources};
use rp_outcome::{MEMORY, SINK, WORDS, finish};
use rp_progress::{Meter, Metered};
use rp_words::{Command, help_text, hint_of, read_line};
use sectors::give_sector_size;
use std::env;
use std::fs::File;
use std::io::{self, ErrorKind, IsTerminal};
use std::process::ExitCode;

const VERSION: &str = "repart 1.0\n";

fn main(rt: HostRuntime) -> ExitCode {
    match standard_handles(&rt) {
        Ok(_kept) => ExitCode::from(answer(&rt)),
        Err(_) => ExitCode::from(SINK),
    }
}

// Does what the arguments ask for, and gives the status.
fn answer(rt: &HostRuntime) -> u8 {
    let mut words = match read_words(rt) {
        Ok(words) => words,
        // Words that aren't all text are no canonical line, as no words are.
        Err(error) if error.kind() == ErrorKind::InvalidData => {
            let status = run_words(rt, &mut Vec::new(rt.alloc()));
            let _ = eprintln!(rt; "repart: a word isn't UTF-8; see repart --help");
            return status;
        }
        Err(_) => return MEMORY,
    };
    if let [word] = words.as_slice() {
        match word.as_str() {
            "--help" => return print_help(rt),
            "--version" => return finish(&mut HostSink::new(rt), VERSION),
            _ => (),
        }
    }
    let status = run_words(rt, &mut words);
    if status == WORDS {
        say_wrong(rt, words.as_slice());
    }
    status
}

fn print_help(rt: &HostRuntime) -> u8 {
    match help_text(rt.alloc()) {
        Ok(text) => finish(&mut HostSink::new(rt), text.as_str()),
        Err(_) => MEMORY,
    }
}

// Does what the words ask for. How far long work is shows on standard error, where that is a terminal.
fn run_words(rt: &HostRuntime, words: &mut Vec<String>) -> u8 {
    let image = image_of(rt, words.as_slice());
    if give_sector_size(rt, words, image).is_err() {
        return MEMORY;
    }
    let words = words.as_slice();
    let path = path_of(words, image);
    let lock = lock_for(rt, words, path);
    let disk = open(rt, path, &lock);
    let meter = Meter::new(rt, rt.stderr().is_terminal());
    let mut disk = Metered::new(disk, &meter);
    let mut folders = HostFolders::new(rt);
    let mut sources = Metered::new(HostSources::new(rt), &meter);
    let mut out = Metered::new(HostSink::new(rt), &meter);
    let status = run(
        rt.alloc(),
        words,
        &mut disk,
        &mut folders,
        &mut sources,
        &mut out,
    );
    meter.clear();
    status
}

// The lock of the image that is to be held to the end: the commands that change it want it.
fn lock_for(rt: &HostRuntime, words: &[String], path: &str) -> Lock {
    match read_line(words) {
        Ok(line) if matches!(line.command, Command::Apply | Command::Make) => lock_of(rt, path),
        _ => Lock::Unwanted,
    }
}

// The image, opened for reading alone where no lock is wanted, and not at all where that was refused.
fn open(rt: &HostRuntime, path: &str, lock: &Lock) -> FileDisk<File> {
    match lock {
        Lock::Unwanted => FileDisk::open_to_read(rt, path),
        Lock::Held(_) => FileDisk::open(rt, path),
        Lock::Refused => FileDisk::open(rt, ""),
    }
}

// Says on standard error which word is wrong, and why.
fn say_wrong(rt: &HostRuntime, words: &[String]) {
    if let Some(hint) = hint_of(words) {
        let word = hint.word;
        let reason = hint.reason;
        let values = hint.values;
        let _ = match (word, values) {
            ("", _) => eprintln!(rt; "repart: {reason}; see repart --help"),
            (_, "") => eprintln!(rt; "repart: {word}: {reason}; see repart --help"),
            _ => eprintln!(rt; "repart: {word}: {reason} {values}; see repart --help"),
        };
    }
}

// The arguments without the program's name.
fn read_words(rt: &HostRuntime) -> io::Result<Vec<String>> {
    let words = env::args(rt)?.skip(1).collect(rt.alloc())?;
    Ok(words)
}
