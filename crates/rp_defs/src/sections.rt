ghost use Rattle.std.specs.Prelude.{◌≡◌, ◌<◌, ◌+◌, ◌^◌, ◌*◌, ◌≤◌, All, IfErr, IfOk, length, sum_by};
ghost use Rattle.rp_base.specs.Answers.{Gives};
ghost use Rattle.rp_files.specs.declared.piece.Piece.{Piece as Read};
ghost use Rattle.rp_defs.specs.Faults.{no_memory, IsFault, IsSoundFault};
ghost use Rattle.rp_defs.specs.Answers.{after};
ghost use Rattle.rp_defs.specs.Kept.{all_keyed, counting_of, keyed_in};
ghost use Rattle.rp_defs.specs.Settings.{read_pieces, all_ignored, sections_of, ignored_in, line_of};
ghost use Rattle.rp_defs.specs.Counting.{CountsAlso, IsParsed};

use crate::counting::{no_settings, with_assigns};
use crate::ignored::{PARTITION, ignored_in};
use crate::setting::Setting;
use crate::{DefFault, DefKind};
use rp_base::List;
use rp_files::Piece;
use rp_ini::{File, IniFault, parse};
use std::alloc::Global;

/// What pieces set: of each key the setting that counts, by its place, and how many assignments are ignored.
#[derive(Drop)]
pub(crate) struct Settings {
    pub(crate) counting: List<Option<Setting>>,
    pub(crate) ignored: u32,
}

/// What the pieces of a definition set, or the first piece's fault.
pub(crate) fn settings_of(alloc: Global, pieces: &[Piece]) -> Result<Settings, DefFault>
    requires few { length pieces.now ≤ 256 }
    requires short { All (λ (piece : Read). length piece.bytes ≤ 65536) pieces.now }
    ensures answer { Gives no_memory (after (read_pieces pieces.now)
        (λ read. Ok (record { counting = counting_of (all_keyed read); ignored = all_ignored read }))) result }
    ensures bound { IfOk result (λ settings. settings.ignored ≤ 65536 * length pieces.now) }
    ensures fault { IfErr result IsSoundFault }
{
    let Ok(counting) = no_settings(alloc) else {
        return Err(DefFault::starved(alloc));
    };
    let mut settings = Settings {
        counting,
        ignored: 0,
    };
    for piece in pieces {
        let file = sections_of(alloc, piece)?;
        settings = with_file(alloc, settings, piece, &file)?;
    }
    Ok(settings)
}

// What is set after one more piece, whose text is this file.
fn with_file(
    alloc: Global,
    settings: Settings,
    piece: &Piece,
    file: &File,
) -> Result<Settings, DefFault>
    requires full { length settings.counting ≡ 26 }
    requires room { settings.ignored + 65536 < 2 ^ 32 }
    requires parsed { IsParsed file.now }
    ensures counting { IfOk result (λ now. CountsAlso (keyed_in (piece.now, file.now)) settings.counting now.counting) }
    ensures ignored { IfOk result (λ now. now.ignored ≡ settings.ignored + sum_by ignored_in file.now) }
    ensures bound { IfOk result (λ now. now.ignored ≤ settings.ignored + 65536) }
    ensures starved { IfErr result (λ fault. fault ≡ no_memory) }
    ensures fault { IfErr result IsSoundFault }
{
    let ignored = settings.ignored + ignored_in(file);
    match with_assigns(alloc, settings.counting, piece, file.section(PARTITION)) {
        Ok(counting) => Ok(Settings { counting, ignored }),
        Err(_) => Err(DefFault::starved(alloc)),
    }
}

// The sections of a piece, or its fault.
fn sections_of(alloc: Global, piece: &Piece) -> Result<File, DefFault>
    requires { length piece.now.bytes ≤ 65536 }
    ensures answer { Gives no_memory (sections_of piece.now) result }
    ensures parsed { IfOk result IsParsed }
    ensures fault { IfErr result IsSoundFault }
{
    match parse(alloc, piece.bytes.as_slice()) {
        Ok(file) => Ok(file),
        Err(fault) => Err(fault_of(alloc, piece, fault)),
    }
}

// The fault of a piece's text, or want of memory.
fn fault_of(alloc: Global, piece: &Piece, fault: IniFault) -> DefFault
    ensures answer { IsFault (record {
      file = piece.now.file;
      part = piece.now.part;
      line = line_of fault;
      kind = DefKind.Ini fault;
    }) result }
    ensures memory { fault ≡ IniFault.Memory → result ≡ no_memory }
    ensures sound { IsSoundFault result }
{
    match fault {
        IniFault::NotUtf8 { line }
        | IniFault::TooLong { line }
        | IniFault::BadLine { line }
        | IniFault::NoSection { line } => DefFault::placed(
            alloc,
            piece.file.as_str(),
            piece.part.as_str(),
            line,
            DefKind::Ini(fault),
        ),
        IniFault::Memory => DefFault::starved(alloc),
    }
}
