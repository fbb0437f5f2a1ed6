/// The command is done.
pub const DONE: u8 = 0;

/// What was asked for is told, and isn't so.
pub const DIFFERS: u8 = 1;

/// The words aren't canonical.
pub const WORDS: u8 = 2;

/// The definition files are no list of definitions.
pub const DEFINITIONS: u8 = 3;

/// The image isn't accepted.
pub const IMAGE: u8 = 4;

/// What the definitions ask for can't be had.
pub const DEMAND: u8 = 5;

/// The disk failed.
pub const DISK: u8 = 7;

/// The folders or the sources failed.
pub const FILES: u8 = 8;

/// The sink failed once all else was done.
pub const SINK: u8 = 9;

/// Out of memory. Nothing is printed then.
pub const MEMORY: u8 = 10;

/// The bytes that were copied have another root hash than those that were planned.
pub const CHANGED: u8 = 11;
