use thiserror::Error;

/// What a policy says of a designator: bits, the first six of which say what may be used or stand unused or be absent, and
/// the others demand a state.
#[derive(Clone, Copy, Debug, PartialEq, Eq)]
pub struct Flags(pub u16);

impl Flags {
    pub const VERITY: Flags = Flags(1);

    pub const SIGNED: Flags = Flags(2);

    pub const ENCRYPTED: Flags = Flags(4);

    pub const UNPROTECTED: Flags = Flags(8);

    pub const UNUSED: Flags = Flags(16);

    pub const ABSENT: Flags = Flags(32);

    pub const READ_ONLY_ON: Flags = Flags(64);

    pub const READ_ONLY_OFF: Flags = Flags(128);

    pub const GROWFS_ON: Flags = Flags(256);

    pub const GROWFS_OFF: Flags = Flags(512);
}

/// The flags of each designator that is listed, in the order of designators, and those of the others.
#[derive(Clone, Copy, Debug, PartialEq, Eq)]
pub struct Policy {
    pub default: Flags,
    pub listed: [Option<Flags>; 13],
}

/// The first fault of a text from the left, and the byte at which it is.
#[derive(Clone, Copy, Debug, PartialEq, Eq, Error)]
#[error("not a policy at byte {at}")]
pub struct PolicyFault {
    pub at: u32,
    pub kind: PolicyKind,
}

/// What is wrong at the byte.
#[derive(Clone, Copy, Debug, PartialEq, Eq, Error)]
pub enum PolicyKind {
    #[error("more than 4,096 bytes")]
    TooLong,
    #[error("an entry without an equals sign")]
    NoEquals,
    #[error("no such designator")]
    UnknownDesignator,
    #[error("a second entry of its name")]
    Repeated,
    #[error("no such flag")]
    UnknownFlag,
}
