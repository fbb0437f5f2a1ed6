ghost use Rattle.std.specs.Prelude.{◌≡◌, ◌+◌, ◌∷◌, [], map, IfOk, IfErr, IfSome, IsSome, length};
ghost use Rattle.rp_io.specs.Files.{content};
ghost use Rattle.rp_files.specs.Pieces as grammar;
ghost use Rattle.rp_files.specs.Faults.{HasLoadCause, Loads};
ghost use Rattle.rp_files.specs.Found.{bytes_of, found_of, group_of, AreThere};
ghost use Rattle.rp_files.specs.Reading as reading;

use crate::found::Group;
use crate::{LoadFault, Piece};
use rp_base::{List, Text};
use rp_io::{Content, Folders};
use std::alloc::Global;

/// Bytes that a piece may have.
const LONGEST: u64 = 65_536;

// A file as a piece. Its names are copied first, so that no want of memory hides that it is too big.
fn read_piece<F: Folders>(
    alloc: Global,
    folders: &mut F,
    file: &str,
    part: &str,
    path: &str,
) -> Result<Piece, LoadFault>
    ensures told { F.told folders.new ≡ F.told folders.old }
    ensures piece { IfSome (F.told folders.old) (λ tree. Loads
        (λ piece. piece) (reading.judged (grammar.piece_at tree file.now part.now path.now)) result) }
    ensures short { IfOk result grammar.IsShort }
    ensures strays { IfSome (F.told folders.old) (λ tree. IsSome (content tree.files path.now)
        → F.strays folders.new ≡ F.strays folders.old) }
    ensures cause { HasLoadCause (F.faults folders.old) (F.faults folders.new) result }
{
    let file = Text::from_str(alloc, file)?;
    let part = Text::from_str(alloc, part)?;
    let held = folders.read(alloc, path, LONGEST)?;
    held_piece(file, part, held)
}

// A piece of what a read with the limit gave.
fn held_piece(file: Text, part: Text, held: Content) -> Result<Piece, LoadFault>
    ensures { result ≡ reading.held_piece file part held }
{
    match held {
        Content::Whole(bytes) => Ok(Piece { file, part, bytes }),
        Content::More => Err(LoadFault::TooBig { file, part }),
    }
}

// The pieces with one more, unless it is empty.
fn with_piece(pieces: List<Piece>, piece: Piece) -> Result<List<Piece>, LoadFault>
    ensures pieces { IfOk result (λ after. after ≡ reading.with_piece pieces piece) }
    ensures fault { IfErr result (λ fault. fault ≡ LoadFault.Memory) }
{
    let mut pieces = pieces;
    if piece.bytes.len() == 0 {
        return Ok(pieces);
    }
    pieces.push(piece)?;
    Ok(pieces)
}

// The pieces with that of a drop-in.
fn with_part<F: Folders>(
    alloc: Global,
    folders: &mut F,
    pieces: List<Piece>,
    file: &str,
    part: &(String, String),
) -> Result<List<Piece>, LoadFault>
    ensures told { F.told folders.new ≡ F.told folders.old }
    ensures pieces { IfSome (F.told folders.old) (λ tree. Loads
        (λ after. after) (reading.with_judged pieces (reading.judged (grammar.part_at tree file.now (bytes_of part.now)))) result) }
    ensures adds { IfOk result (reading.AddsAtMost 1 pieces) }
    ensures strays { IfSome (F.told folders.old) (λ tree. IsSome (content tree.files (bytes_of part.now).1)
        → F.strays folders.new ≡ F.strays folders.old) }
    ensures cause { HasLoadCause (F.faults folders.old) (F.faults folders.new) result }
{
    let piece = read_piece(alloc, folders, file, part.0.as_str(), part.1.as_str())?;
    with_piece(pieces, piece)
}

// The pieces with those of drop-ins.
fn with_parts<F: Folders>(
    alloc: Global,
    folders: &mut F,
    pieces: List<Piece>,
    file: &str,
    parts: &[(String, String)],
) -> Result<List<Piece>, LoadFault>
    ensures told { F.told folders.new ≡ F.told folders.old }
    ensures pieces { IfSome (F.told folders.old) (λ tree. Loads
        (λ after. after) (reading.joined pieces (grammar.pieces_of (map (grammar.part_at tree file.now) (found_of parts.now)))) result) }
    ensures adds { IfOk result (reading.AddsAtMost (length parts.now) pieces) }
    ensures strays { IfSome (F.told folders.old) (λ tree. AreThere tree (found_of parts.now)
        → F.strays folders.new ≡ F.strays folders.old) }
    ensures cause { HasLoadCause (F.faults folders.old) (F.faults folders.new) result }
{
    let mut pieces = pieces;
    for part in parts {
        pieces = with_part(alloc, folders, pieces, file, part)?;
    }
    Ok(pieces)
}

// The pieces with those of a main file and its drop-ins. An empty file is no piece, and where it is the main file, nor are
// its drop-ins.
pub(crate) fn with_group<F: Folders>(
    alloc: Global,
    folders: &mut F,
    pieces: List<Piece>,
    group: &Group,
) -> Result<List<Piece>, LoadFault>
    ensures told { F.told folders.new ≡ F.told folders.old }
    ensures pieces { IfSome (F.told folders.old) (λ tree. Loads (λ after. after)
        (reading.with_main tree pieces (group_of group.now)
        (reading.judged (grammar.piece_at tree (bytes_of group.now.main).0 [] (bytes_of group.now.main).1))) result) }
    ensures adds { IfOk result (reading.AddsAtMost (length group.now.parts.items + 1) pieces) }
    ensures strays { IfSome (F.told folders.old) (λ tree. AreThere tree ((group_of group.now).main ∷ (group_of group.now).parts)
        → F.strays folders.new ≡ F.strays folders.old) }
    ensures cause { HasLoadCause (F.faults folders.old) (F.faults folders.new) result }
{
    let file = group.main.0.as_str();
    let main = read_piece(alloc, folders, file, "", group.main.1.as_str())?;
    if main.bytes.len() == 0 {
        return Ok(pieces);
    }
    let pieces = with_piece(pieces, main)?;
    with_parts(alloc, folders, pieces, file, group.parts.as_slice())
}
