use rp_base::Text;
use rp_ini::IniFault;
use std::alloc::Global;
use thiserror::Error;

/// What is wrong with a definition. `key` is the place of the key in the order in which keys are read, from 0 to 25; its
/// name is `key_name` of it.
#[derive(Clone, Copy, Debug, PartialEq, Eq, Error)]
pub enum DefKind {
    /// The piece is no definition file. The line stands here too.
    #[error("{0}")]
    Ini(IniFault),
    /// `Type=` isn't set.
    #[error("no type")]
    NoType,
    /// The value can't be read, or is out of its bounds.
    #[error("a bad value")]
    BadValue { key: u8 },
    /// The key, or this value of it, isn't supported.
    #[error("not supported")]
    Unsupported { key: u8 },
    /// The label has more than 36 units of UTF-16.
    #[error("a label of more than 36 units")]
    LabelTooLong,
    /// A minimum, of the size or of the padding, is above its maximum, both in grains.
    #[error("a minimum above its maximum")]
    Limits,
    /// Half of a verity pair at fault, the first in order: its match key is unset or isn't that of exactly one data and
    /// one hash definition, or it is data without a source, or a hash with one.
    #[error("half of a verity pair without its other half, or with a wrong source")]
    VerityPair,
    #[error("out of memory")]
    Memory,
}

/// The first fault of the definitions: the main file, the drop-in (empty for the main file), the line, and what is
/// wrong. `NoType`, `Limits` and `VerityPair` have line 0 and no drop-in, and `Memory` has no file either.
#[derive(Debug, Drop, Error)]
#[error("{kind}")]
pub struct DefFault {
    pub file: Text,
    pub part: Text,
    pub line: u32,
    pub kind: DefKind,
}

impl DefFault {
    ghost use Rattle.std.specs.Prelude.{◌≡◌, ◌≢◌};
    ghost use Rattle.rp_defs.specs.Faults.{no_memory, IsFault, IsKnown, IsSoundFault};
    ghost use Rattle.rp_defs.specs.declared.fault.DefKind.TheVariants.{Memory as want_of_memory};

    /// Want of memory.
    #[tactic(auto, using(crate::proofs::FaultLemmas::starved_sound))]
    pub(crate) fn starved(alloc: Global) -> DefFault
        ensures value { result ≡ no_memory }
        ensures sound { IsSoundFault result }
    {
        DefFault {
            file: Text::new(alloc),
            part: Text::new(alloc),
            line: 0,
            kind: DefKind::Memory,
        }
    }

    /// A fault, or want of memory for its texts.
    #[tactic(auto, using(crate::proofs::FaultLemmas::placed_sound, crate::proofs::FaultLemmas::starved_sound))]
    pub(crate) fn placed(
        alloc: Global,
        file: &str,
        part: &str,
        line: u32,
        kind: DefKind,
    ) -> DefFault
        requires known { IsKnown kind }
        requires some { kind ≢ want_of_memory }
        ensures fault { IsFault (record { file = file.now; part = part.now; line = line; kind = kind }) result }
        ensures sound { IsSoundFault result }
    {
        match (Text::from_str(alloc, file), Text::from_str(alloc, part)) {
            (Ok(file), Ok(part)) => DefFault {
                file,
                part,
                line,
                kind,
            },
            (_, _) => DefFault::starved(alloc),
        }
    }
}
