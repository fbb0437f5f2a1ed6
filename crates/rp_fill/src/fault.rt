use thiserror::Error;

/// What failed while a source was copied.
#[derive(Clone, Copy, Debug, PartialEq, Eq, Error)]
pub enum FillFault {
    #[error("the disk failed")]
    Disk,
    #[error("a source failed")]
    Source,
}
