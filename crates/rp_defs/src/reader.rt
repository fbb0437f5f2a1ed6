ghost use Rattle.std.specs.Prelude.{◌≡◌, ◌≤◌, ◌<◌, ◌+◌, ◌*◌, ◌^◌, All, IfOk, IfErr, ◌==◌, length, drop};
ghost use Rattle.std.specs.List.{prefix_len};
ghost use Rattle.rp_base.specs.Answers.{Gives};
ghost use Rattle.rp_files.specs.Pieces.{ArePieces};
ghost use Rattle.rp_files.specs.declared.piece.Piece.{Piece as Read};
ghost use Rattle.rp_defs.specs.Drafting.{drafts_of, with_group, is_part};
ghost use Rattle.rp_defs.specs.Faults.{no_memory, IsKnown, IsSoundFault};
ghost use Rattle.rp_defs.specs.declared.fault.DefKind.TheVariants.{Memory as want_of_memory};
ghost use Rattle.rp_defs.specs.Records.{records};
ghost use Rattle.rp_defs.specs.SoundDraft.{IsSoundDraft};
ghost use Rattle.rp_defs.specs.WellFormed.{IsWellFormed};

use crate::draft::{Drafts, draft_of};
use crate::pairs::paired;
use crate::sections::settings_of;
use crate::{DefFault, Definitions};
use rp_base::List;
use rp_files::Piece;
use rp_types::Arch;
use std::alloc::Global;

/// The definitions of these pieces, one for each main file, or the first fault: of the definitions in order, then of the
/// verity pairs. `arch` is what `root`, `usr` and the like, and `%a` stand for.
///
/// The pieces are those that `rp_files::load` answers: at most 256 of at most 65,536 bytes each, and each drop-in stands
/// behind its main file or another drop-in of it. The last assignment of a key in `[Partition]` counts, and an empty one
/// means unset.
pub fn read(alloc: Global, pieces: &[Piece], arch: Arch) -> Result<Definitions, DefFault>
    requires { ArePieces pieces.now }
    ensures answer { Gives no_memory (records arch pieces.now) result }
    ensures known { IfErr result (λ fault. IsKnown fault.kind) }
    ensures memory { IfErr result (λ fault. fault.kind ≡ want_of_memory → fault ≡ no_memory) }
    ensures well_formed { IfOk result (λ definitions. IsWellFormed definitions.list) }
{
    let drafts = drafts_of(alloc, pieces, arch)?;
    let list = paired(alloc, drafts.list)?;
    Ok(Definitions {
        list,
        ignored: drafts.ignored,
    })
}

// The drafts of these pieces, one for each main file, or the first fault.
fn drafts_of(alloc: Global, pieces: &[Piece], arch: Arch) -> Result<Drafts, DefFault>
    requires few { length pieces.now ≤ 256 }
    requires short { All (λ (piece : Read). length piece.bytes ≤ 65536) pieces.now }
    ensures answer { Gives no_memory (drafts_of arch pieces.now) result }
    ensures count { IfOk result (λ drafts. length drafts.list ≤ length pieces.now) }
    ensures sound { IfOk result (λ drafts. All IsSoundDraft drafts.list) }
    ensures fault { IfErr result IsSoundFault }
{
    let mut drafts = Drafts {
        list: List::new(alloc),
        ignored: 0,
    };
    let mut start = 0;
    while start < pieces.len() {
        let end = group_end(pieces, start);
        drafts = with_group(alloc, drafts, &pieces[start..end], arch)?;
        start = end;
    }
    Ok(drafts)
}

// Where the group of the piece at a place ends: before the next main file.
fn group_end(pieces: &[Piece], start: usize) -> usize
    requires { start < length pieces.now }
    ensures end { result ≡ start + 1 + prefix_len is_part (drop (start + 1) pieces.now) }
    ensures after { start < result }
    ensures bound { result ≤ length pieces.now }
{
    for place in start + 1..pieces.len() {
        if is_main(&pieces[place]) {
            return place;
        }
    }
    pieces.len()
}

fn is_main(piece: &Piece) -> bool
    ensures { result ≡ (length piece.now.part == 0) }
{
    piece.part.as_str().len() == 0
}

// Drafts with that of one more group of pieces, whose first is the main file, or the fault of that.
#[tactic(auto, using(crate::proofs::CountingLemmas::settings_set))]
fn with_group(
    alloc: Global,
    drafts: Drafts,
    group: &[Piece],
    arch: Arch,
) -> Result<Drafts, DefFault>
    requires some { 0 < length group.now }
    requires few { length group.now ≤ 256 }
    requires short { All (λ (piece : Read). length piece.bytes ≤ 65536) group.now }
    requires room { drafts.ignored + 65536 * length group.now < 2 ^ 32 }
    requires sound { All IsSoundDraft drafts.list }
    ensures answer { Gives no_memory (with_group arch drafts group.now) result }
    ensures count { IfOk result (λ more. length more.list ≡ length drafts.list + 1) }
    ensures bound { IfOk result (λ more. more.ignored ≤ drafts.ignored + 65536 * length group.now) }
    ensures sound { IfOk result (λ more. All IsSoundDraft more.list) }
    ensures fault { IfErr result IsSoundFault }
{
    let settings = settings_of(alloc, group)?;
    let draft = draft_of(
        alloc,
        group[0].file.as_str(),
        settings.counting.as_slice(),
        arch,
    )?;
    let mut drafts = drafts;
    if drafts.list.push(draft).is_err() {
        return Err(DefFault::starved(alloc));
    }
    drafts.ignored += settings.ignored;
    Ok(drafts)
}
