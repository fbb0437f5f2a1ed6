ghost use Rattle.std.specs.Prelude.{◌≡◌, ◌∷◌, []};
ghost use Rattle.rp_outcome.specs.Refusals.{changed_refusal, disk_refusal, folder_refusal, memory_refusal, repair_refusal, source_refusal, words_refusal};

use crate::status::{CHANGED, DISK, FILES, IMAGE, MEMORY, WORDS};
use std::marker::Model;

/// The most words behind the status on a line.
pub const MOST: usize = 4;

/// A word of a line.
#[derive(Clone, Copy, Debug)]
pub enum Word<'a> {
    Absent,
    Text(&'a str),
    Number(u64),
    /// A definition file, or its drop-in of this name where there is one.
    Piece(&'a str, &'a str),
    /// A line of it.
    Line(&'a str, &'a str, u32),
    /// A root hash.
    Hash(&'a [u8; 32]),
}

/// Why a command isn't done: an exit status, and the words that tell the cause. Seen as the status and the words' texts.
#[derive(Debug, Drop)]
pub struct Refusal<'a> {
    pub(crate) status: u8,
    pub(crate) words: [Word<'a>; MOST],
}

impl<'a> Model for Refusal<'a> {
    ghost use Rattle.std.specs.Prelude.{filter_map};
    ghost use Rattle.rp_outcome.specs.Refusals.{Refusal};
    ghost use Rattle.rp_outcome.specs.Words.{word_text};

    ghost Value = { Refusal };

    ghost view = { λ r. record { status = r.status; words = filter_map word_text r.words } };
}

impl<'a> Refusal<'a> {
    /// Of words that aren't canonical.
    pub fn words() -> Self
        ensures { result ≡ words_refusal }
    {
        Refusal::told(WORDS, "words")
    }

    /// Of a disk that failed.
    pub fn disk() -> Self
        ensures { result ≡ disk_refusal }
    {
        Refusal::told(DISK, "disk")
    }

    /// Of folders that failed.
    pub fn folder() -> Self
        ensures { result ≡ folder_refusal }
    {
        Refusal::told(FILES, "folder")
    }

    /// Of sources that failed.
    pub fn source() -> Self
        ensures { result ≡ source_refusal }
    {
        Refusal::told(FILES, "source")
    }

    /// Of an image that would grow and doesn't show its primary copy.
    pub fn repair_first() -> Self
        ensures { result ≡ repair_refusal }
    {
        Refusal::told(IMAGE, "RepairFirst")
    }

    /// Of a source that has changed: the bytes that were copied have another root hash than those that were planned.
    pub fn changed(planned: &'a [u8; 32], copied: &'a [u8; 32]) -> Self
        ensures { result ≡ changed_refusal planned.now copied.now }
    {
        Refusal {
            status: CHANGED,
            words: [
                Word::Text("changed"),
                Word::Hash(planned),
                Word::Hash(copied),
                Word::Absent,
            ],
        }
    }

    /// Of want of memory.
    pub fn memory() -> Self
        ensures { result ≡ memory_refusal }
    {
        Refusal {
            status: MEMORY,
            words: [Word::Absent; MOST],
        }
    }

    // With one word.
    fn told(status: u8, word: &'a str) -> Self
        ensures { result ≡ record { status = status; words = word.now ∷ [] } }
    {
        Refusal {
            status,
            words: [Word::Text(word), Word::Absent, Word::Absent, Word::Absent],
        }
    }
}
