ghost use Rattle.std.specs.Prelude.{◌↔◌, ◌≤◌, All, IsTrue, length};
ghost use Rattle.rp_files.specs.declared.piece.Piece.{Piece as Read};

use rp_base::{List, Text};
use rp_defs::{DefFault, Definitions, read};
use rp_files::Piece;
use rp_types::Arch;
use std::alloc::Global;
use std::fmt::Write;
use std::test::Fail;

// Main file, drop-in and text of each piece.
const PIECES: [(&str, &str, &str); 4] = [
    (
        "10-root.conf",
        "",
        "[Partition]\nType=root-x86-64\nVerity=data\nVerityMatchKey=root\nCopyBlocks=/root.img\nPriority=-1\n",
    ),
    (
        "20-hash.conf",
        "",
        "[Partition]\nType=root-x86-64-verity\nVerity=hash\nVerityMatchKey=root\nPriority=5\n",
    ),
    (
        "30-swap.conf",
        "",
        "[Partition]\nType=swap\nWieght=1\nPriority=3\n",
    ),
    (
        "30-swap.conf",
        "5.conf",
        "[Partition]\nWeight=7\nPriority=\n[Install]\na=b\n",
    ),
];

#[test]
fn a_verity_pair_and_a_drop_in(rt: HostRuntime) -> Result<(), Fail> {
    let mut pieces = List::new(rt.alloc());
    for (file, part, text) in PIECES {
        pieces.push(Piece {
            file: Text::from_str(rt.alloc(), file)?,
            part: Text::from_str(rt.alloc(), part)?,
            bytes: List::from_vec(text.as_bytes().to_vec(rt.alloc())?),
        })?;
    }
    let mut shown = String::new(rt.alloc());
    match definitions(rt.alloc(), pieces.as_slice()) {
        Some(Ok(definitions)) => show(&mut shown, &definitions)?,
        Some(Err(fault)) => write!(shown, "{fault}")?,
        None => write!(shown, "too much")?,
    }
    assert_eq!(rt;
        shown.as_str(),
        "10-root.conf Data { partner: 1 } 5 0\n20-hash.conf Hash { partner: 0 } 5 0\n30-swap.conf Off 0 7\n2 ignored"
    );
    Ok(())
}

#[test]
fn no_pieces_are_no_definitions(rt: HostRuntime) -> Result<(), Fail> {
    let mut shown = String::new(rt.alloc());
    match definitions(rt.alloc(), &[]) {
        Some(Ok(definitions)) => show(&mut shown, &definitions)?,
        Some(Err(fault)) => write!(shown, "{fault}")?,
        None => write!(shown, "too much")?,
    }
    assert_eq!(rt; shown.as_str(), "0 ignored");
    Ok(())
}

// The definitions of pieces, where these are few and short.
fn definitions(alloc: Global, pieces: &[Piece]) -> Option<Result<Definitions, DefFault>> {
    if pieces.len() > 256 || !are_short(pieces) {
        return None;
    }
    Some(read(alloc, pieces, Arch::X86_64))
}

// A line of each definition's file, verity, priority and weight, and how many assignments are ignored.
fn show(text: &mut String, definitions: &Definitions) -> Result<(), Fail> {
    for one in definitions.list.as_slice() {
        writeln!(
            text,
            "{} {:?} {} {}",
            one.file.as_str(),
            one.verity,
            one.priority,
            one.want.weight
        )?;
    }
    write!(text, "{} ignored", definitions.ignored)?;
    Ok(())
}

fn are_short(pieces: &[Piece]) -> bool
    ensures { IsTrue result ↔ All (λ (piece : Read). length piece.bytes ≤ 65536) pieces.now }
{
    pieces.iter().all(|piece| piece.bytes.len() <= 65_536)
}

// The fault of few short pieces of one definition, with its drop-in and line.
fn fault_of(rt: &impl AllocGlobal, pieces: &[Piece]) -> Result<String, Fail> {
    let mut text = String::new(rt.alloc());
    if let Some(Err(fault)) = definitions(rt.alloc(), pieces) {
        write!(text, "{} line {}: {fault}", fault.part.as_str(), fault.line)?;
    }
    Ok(text)
}

fn piece(rt: &impl AllocGlobal, part: &str, bytes: &[u8]) -> Result<Piece, Fail> {
    Ok(Piece {
        file: Text::from_str(rt.alloc(), "50-root.conf")?,
        part: Text::from_str(rt.alloc(), part)?,
        bytes: List::from_vec(bytes.to_vec(rt.alloc())?),
    })
}

#[test]
fn the_first_fault_is_named(rt: HostRuntime) -> Result<(), Fail> {
    let main = piece(&rt, "", b"[Partition]\nType=root\n")?;
    let bad = piece(&rt, "10.conf", b"[Partition]\nLabel\n")?;
    let worse = piece(&rt, "20.conf", b"Label=\n")?;
    assert_eq!(rt;
        fault_of(&rt, &[main, bad, worse])?.as_str(),
        "10.conf line 2: neither a section nor an assignment"
    );
    Ok(())
}

// Want of memory would pass in place of a fault, so each fault of a text is met once.
#[test]
fn each_fault_of_a_text_is_named(rt: HostRuntime) -> Result<(), Fail> {
    let pieces = [piece(&rt, "10.conf", b"[Partition]\nLabel=\xff\n")?];
    assert_eq!(rt;
        fault_of(&rt, &pieces)?.as_str(),
        "10.conf line 2: not UTF-8"
    );
    let mut text = String::from_str(rt.alloc(), "[Partition]\n\nLabel=")?;
    for _ in 0..4096 {
        text.push('v')?;
    }
    let pieces = [piece(&rt, "", text.as_bytes())?];
    assert_eq!(rt;
        fault_of(&rt, &pieces)?.as_str(),
        " line 3: too long a line"
    );
    let pieces = [piece(&rt, "20.conf", b"Label=a\n")?];
    assert_eq!(rt;
        fault_of(&rt, &pieces)?.as_str(),
        "20.conf line 1: an assignment before the first section"
    );
    Ok(())
}
