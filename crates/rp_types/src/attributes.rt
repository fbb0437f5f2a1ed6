/// Not to be found by itself (Discoverable Partitions Specification, "no-auto").
pub const NO_AUTO: u64 = 1 << 63;

/// To be mounted read-only (the same, "read-only").
pub const READ_ONLY: u64 = 1 << 60;

/// To be grown with its partition when mounted (the same, "grow-file-system").
pub const GROW_FILE_SYSTEM: u64 = 1 << 59;
