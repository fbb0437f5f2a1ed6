use rp_base::List;
use rp_gpt::TableFault;
use rp_policy::{Judged, Rule};
use rp_types::Designator;
use thiserror::Error;

/// What a policy says of a designator, and the slot of its row, if there is one.
#[derive(Clone, Copy, Debug, PartialEq, Eq)]
pub struct Verdict {
    pub designator: Designator,
    pub slot: Option<u16>,
    pub judged: Judged,
}

/// The verdicts in the order of designators, and the slots of the rows that are left over.
#[derive(Debug, Drop)]
pub struct Verdicts {
    pub list: List<Verdict>,
    pub extra: List<u16>,
}

/// Why there are no verdicts.
#[derive(Clone, Copy, Debug, PartialEq, Eq, Error)]
pub enum DissectFault {
    #[error("the disk failed")]
    Disk,
    #[error("the image isn't accepted")]
    Table(TableFault),
    /// The first designator, in their order, that is denied.
    #[error("the policy denies a partition")]
    Denied { designator: Designator, rule: Rule },
    #[error("out of memory")]
    Memory,
}
