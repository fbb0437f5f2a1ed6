//! Types that every layer speaks of: GUIDs, lists, texts, names, rows, tables and plans, and where a table lies.
//!
//! Tables count in units of 512 bytes, whatever the sector; planning counts in grains of 4,096 bytes.
#![tactic(auto)]

mod faults;
mod geometry;
mod guid;
mod list;
mod name;
mod plan;
mod seen;
mod table;
mod text;
mod want;

pub use faults::{Failed, Memory};
pub use geometry::{
    Which, array_place, array_sectors, copy_bytes, copy_place, first_usable, header_place,
    least_sectors, sector_units, usable_end,
};
pub use guid::Guid;
pub use list::List;
pub use name::name_units;
pub use plan::{Change, Note, Plan, Role};
pub use seen::{Mbr, Origin, Seen};
pub use table::{Row, Table};
pub use text::Text;
pub use want::Want;

/// Bytes of a unit of tables: a sector of 512 bytes, or an eighth of one of 4,096.
pub const SECTOR: u64 = 512;

/// Bytes in a grain, the unit of planning: 8 units of tables.
pub const GRAIN: u64 = 4096;

/// The maximum, in grains, of a size that nothing limits.
pub const UNLIMITED: u64 = 1 << 52;
