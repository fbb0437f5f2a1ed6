//! The bytes of a GUID partition table: one copy of it, read and written exactly.
#![tactic(auto)]

mod copy;
mod decode;
mod encode;
mod exact;
mod law;
mod layout;
mod mbr;
mod numbers;
mod places;
mod seen_law;
mod table_fault;

pub use copy::CopyFault;
pub use decode::decode_copy;
pub use encode::encode_copy;
pub use exact::is_exact;
pub use law::{
    answers_read_header_and_entries, copies_read_back, primary_has_no_size, rows_can_be_written,
    tables_can_be_written, unsigned_is_none,
};
pub use mbr::{foreign_type, mbr_bytes, mbr_state};
pub use places::entries_of;
pub use rp_base::{Which, copy_bytes, name_units};
pub use seen_law::{
    accepted_is_seen, exact_mbr_is_same, exact_places_are_accepted, foreign_has_no_size,
};
pub use table_fault::{Empty, TableFault};
