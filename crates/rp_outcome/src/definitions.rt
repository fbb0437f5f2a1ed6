ghost use Rattle.std.specs.Prelude.{◌≡◌};
ghost use Rattle.rp_defs.specs.Faults.{IsKnown};
ghost use Rattle.rp_outcome.specs.Definitions.{def_refusal as refusal_of, ini_word as word_of, load_refusal as refusal_of_loading};

use crate::refusal::{Refusal, Word};
use crate::status::DEFINITIONS;
use rp_defs::{DefFault, DefKind, key_name};
use rp_files::LoadFault;
use rp_ini::IniFault;

/// Of a fault of the folders' definition files.
pub fn load_refusal(fault: &LoadFault) -> Refusal<'_>
    ensures { result ≡ refusal_of_loading fault.now }
{
    use Word::{Absent, Piece, Text};
    let words = match fault {
        LoadFault::FolderFault => return Refusal::folder(),
        LoadFault::Memory => return Refusal::memory(),
        LoadFault::TooMany => [Text("TooMany"), Absent, Absent, Absent],
        LoadFault::TooBig { file, part } => [
            Piece(file.as_str(), part.as_str()),
            Text("TooBig"),
            Absent,
            Absent,
        ],
    };
    Refusal {
        status: DEFINITIONS,
        words,
    }
}

/// Of a fault of a definition.
pub fn def_refusal(fault: &DefFault) -> Refusal<'_>
    requires { IsKnown fault.now.kind }
    ensures { result ≡ refusal_of fault.now }
{
    use Word::{Absent, Line, Text};
    let (kind, key) = match fault.kind {
        DefKind::Memory => return Refusal::memory(),
        DefKind::Ini(fault) => (ini_word(fault), Absent),
        DefKind::NoType => ("NoType", Absent),
        DefKind::BadValue { key } => ("BadValue", Text(key_name(key))),
        DefKind::Unsupported { key } => ("Unsupported", Text(key_name(key))),
        DefKind::LabelTooLong => ("LabelTooLong", Absent),
        DefKind::Limits => ("Limits", Absent),
        DefKind::VerityPair => ("VerityPair", Absent),
    };
    Refusal {
        status: DEFINITIONS,
        words: [
            Line(fault.file.as_str(), fault.part.as_str(), fault.line),
            Text(kind),
            key,
            Absent,
        ],
    }
}

fn ini_word(fault: IniFault) -> &'static str
    ensures { result.now ≡ word_of fault }
{
    match fault {
        IniFault::NotUtf8 { .. } => "NotUtf8",
        IniFault::TooLong { .. } => "TooLong",
        IniFault::BadLine { .. } => "BadLine",
        IniFault::NoSection { .. } => "NoSection",
        IniFault::Memory => "Memory",
    }
}
