ghost use Rattle.std.specs.Prelude.{◌≡◌};
ghost use Rattle.rp_step.specs.Answers.{from_disk, from_fill, from_tree};

use rp_base::Failed;
use rp_fill::FillFault;
use thiserror::Error;

/// Why carrying out a plan ended early. The image is to be read again.
#[derive(Clone, Copy, Debug, PartialEq, Eq, Error)]
pub enum ApplyFault {
    #[error("the disk failed")]
    DiskFault,
    #[error("a source failed")]
    SourceFault,
    /// What was copied isn't what was planned: the root hash that was planned, and that of the data that was copied.
    #[error("a source has changed")]
    SourceChanged { planned: [u8; 32], copied: [u8; 32] },
}

// The answer for that of the disk.
pub fn of_disk(answer: Result<(), Failed>) -> Result<(), ApplyFault>
    ensures { result ≡ from_disk answer }
{
    match answer {
        Ok(()) => Ok(()),
        Err(Failed) => Err(ApplyFault::DiskFault),
    }
}

// The answer for that of copying.
pub fn of_fill(answer: Result<(), FillFault>) -> Result<(), ApplyFault>
    ensures { result ≡ from_fill answer }
{
    match answer {
        Ok(()) => Ok(()),
        Err(FillFault::Disk) => Err(ApplyFault::DiskFault),
        Err(FillFault::Source) => Err(ApplyFault::SourceFault),
    }
}

// The answer for that of writing a tree that is planned with a root hash.
pub fn of_tree(
    answer: Result<Option<[u8; 32]>, Failed>,
    planned: [u8; 32],
) -> Result<(), ApplyFault>
    ensures { result ≡ from_tree answer planned }
{
    match answer {
        Ok(None) => Ok(()),
        Ok(Some(copied)) => Err(ApplyFault::SourceChanged { planned, copied }),
        Err(Failed) => Err(ApplyFault::DiskFault),
    }
}
