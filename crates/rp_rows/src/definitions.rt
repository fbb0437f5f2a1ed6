//! Definition files of two folders: folders to pieces, pieces to assignments and to one record.

use crate::printed::{push_definition, push_fault};
use rp_base::{List, Text};
use rp_defs::{Definitions, read};
use rp_files::{Piece, load};
use rp_ini::parse;
use rp_io::{MemFolders, Stored};
use rp_types::Arch;
use std::alloc::{AllocError, Global};
use std::fmt::Write;
use std::test::Fail;

// Bytes of a piece.
const MOST_BYTES: usize = 65_536;

const FILES: [(&str, &str); 4] = [
    (
        "A/10-x.conf",
        "[Partition]\nType=linux-generic\nLabel=big\\\n# inside\ndata\nWeight=5\n",
    ),
    ("A/10-x.conf.d/5.conf", "[Partition]\nWeight=7\n"),
    ("A/20-y.conf", ""),
    ("B/20-y.conf", "[Partition]\nType=swap\n"),
];

#[test]
fn two_folders_with_a_drop_in_and_a_masked_file(rt: HostRuntime) -> Result<(), Fail> {
    let mut files = List::new(rt.alloc());
    for (path, text) in FILES {
        files.push(Stored {
            path: Text::from_str(rt.alloc(), path)?,
            bytes: List::from_vec(text.as_bytes().to_vec(rt.alloc())?),
        })?;
    }
    let there = texts(rt.alloc(), "A B A/10-x.conf.d")?;
    let mut folders = MemFolders::new(there, files, List::new(rt.alloc()));
    let dirs = texts(rt.alloc(), "A B")?;
    let shown = shown(rt.alloc(), &mut folders, dirs.as_slice())?;
    assert_eq!(rt;
        shown.as_str(),
        "10-x.conf  Type=linux-generic;Label=big data;Weight=5;\n10-x.conf 5.conf Weight=7;\n\
        10-x.conf min 2560 linux-generic label big data weight 7"
    );
    Ok(())
}

// The pieces of folders, and their records.
fn shown(alloc: Global, folders: &mut MemFolders, dirs: &[Text]) -> Result<String, Fail> {
    let mut shown = String::new(alloc);
    let Ok(pieces) = load(alloc, folders, dirs) else {
        return Ok(shown);
    };
    for piece in pieces.as_slice() {
        push_piece(&mut shown, piece)?;
    }
    match read(alloc, pieces.as_slice(), Arch::X86_64) {
        Ok(definitions) => push_records(&mut shown, &definitions)?,
        Err(fault) => push_fault(&mut shown, &fault)?,
    }
    Ok(shown)
}

fn push_records(shown: &mut String, definitions: &Definitions) -> Result<(), Fail> {
    for one in definitions.list.as_slice() {
        write!(shown, "{} min {} ", one.file.as_str(), one.want.min)?;
        push_definition(shown, one)?;
    }
    Ok(())
}

// The words of a text, cut at spaces.
fn texts(alloc: Global, words: &str) -> Result<List<Text>, Fail> {
    let mut list = List::new(alloc);
    for word in words.split(' ') {
        list.push(Text::from_str(alloc, word)?)?;
    }
    Ok(list)
}

// A line of the piece's names and its assignments of `[Partition]`.
fn push_piece(shown: &mut String, piece: &Piece) -> Result<(), AllocError> {
    shown.push_str(piece.file.as_str())?;
    shown.push_str(" ")?;
    shown.push_str(piece.part.as_str())?;
    shown.push_str(" ")?;
    let bytes = piece.bytes.as_slice();
    if bytes.len() > MOST_BYTES {
        return shown.push_str("too long\n");
    }
    match parse(*shown.allocator(), bytes) {
        Ok(file) => {
            for assign in file.section("Partition") {
                shown.push_str(assign.key.as_str())?;
                shown.push_str("=")?;
                shown.push_str(assign.value.as_str())?;
                shown.push_str(";")?;
            }
        }
        Err(_) => shown.push_str("no file")?,
    }
    shown.push_str("\n")
}
