ghost use Rattle.std.specs.Prelude.{◌≡◌, IfErr};
ghost use Rattle.rp_outcome.specs.Store.{store};
ghost use Rattle.rp_reading.specs.Reading.{IsKnownFault, ReadsDefinitions, unread_refusal as refusal_of};
ghost use Rattle.rp_reading.specs.Stages.{refused};

use rp_base::Text;
use rp_defs::{DefFault, Definitions, read};
use rp_files::{LoadFault, load};
use rp_io::Folders;
use rp_outcome::{Refusal, def_refusal, load_refusal};
use rp_types::Arch;
use std::alloc::Global;

/// Why folders have no list of definitions.
#[derive(Debug, Drop)]
pub enum Unread {
    Files(LoadFault),
    Definition(DefFault),
}

/// The definitions of these folders, or the first fault: of the files, then of the definitions in them.
#[tactic(auto, using(crate::proofs::Answered::loading_failed, crate::proofs::Answered::reading_done, crate::proofs::Answered::reading_failed))]
pub fn read_definitions<F: Folders>(
    alloc: Global,
    arch: Arch,
    dirs: &[Text],
    folders: &mut F,
) -> Result<Definitions, Unread>
    ensures read { ReadsDefinitions arch dirs.now (store F.told F.faults F.strays folders.old) (store F.told F.faults F.strays folders.new)
        (refused refusal_of result) }
    ensures known { IfErr result IsKnownFault }
{
    let pieces = match load(alloc, folders, dirs) {
        Ok(pieces) => pieces,
        Err(fault) => return Err(Unread::Files(fault)),
    };
    match read(alloc, pieces.as_slice(), arch) {
        Ok(definitions) => Ok(definitions),
        Err(fault) => Err(Unread::Definition(fault)),
    }
}

/// The refusal of such a fault.
pub fn unread_refusal(fault: &Unread) -> Refusal<'_>
    requires { IsKnownFault fault.now }
    ensures { result ≡ refusal_of fault.now }
{
    match fault {
        Unread::Files(fault) => load_refusal(fault),
        Unread::Definition(fault) => def_refusal(fault),
    }
}
