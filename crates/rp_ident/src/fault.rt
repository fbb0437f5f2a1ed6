/// Why rows can't be named; `file` is the definition's place.
#[derive(Clone, Copy, Debug, PartialEq, Eq, thiserror::Error)]
pub enum IdentFault {
    /// The fixed identifier is zero or that of another row.
    #[error("identifier of definition {file} is in use")]
    TakenIdentifier { file: u16 },
    /// Each of the 256 identifiers derived for the row's type is that of another row.
    #[error("no identifier is left for definition {file}")]
    NoIdentifier { file: u16 },
}
