//! The protective MBR (UEFI 2.10, 5.2.3).

ghost use Rattle.std.specs.Prelude.{◌≡◌, ◌≤◌, ◌==◌, ◌&&◌, not, find, length};
ghost use Rattle.std.specs.Option.{option_copied};
ghost use Rattle.rp_gpt.specs.Mbr.{mbr_bytes, record_types, foreign_type, mbr_state};

use crate::numbers::{put_bytes, put_u32};
use rp_base::Mbr;

/// Where the records begin in the sector.
const RECORDS: usize = 446;

/// The type of the protective record.
const PROTECTIVE: u8 = 0xee;

/// Bytes 446 to 511 of LBA 0 of a disk of this many sectors: one record from LBA 1 to the end, its size `sectors - 1`,
/// or 0xFFFFFFFF where that doesn't fit, and its last CHS always `ff ff ff`.
pub fn mbr_bytes(sectors: u64) -> [u8; 66]
    requires { 1 ≤ sectors }
    ensures { result ≡ mbr_bytes sectors }
{
    let size = (sectors - 1).min(u64::from(u32::MAX)) as u32;
    let mut bytes = [0; 66];
    put_bytes(&mut bytes, 0, &[0, 0, 2, 0, PROTECTIVE, 0xff, 0xff, 0xff]);
    put_u32(&mut bytes, 8, 1);
    put_u32(&mut bytes, 12, size);
    put_bytes(&mut bytes, 16, &[0; 48]);
    put_bytes(&mut bytes, 64, &[0x55, 0xaa]);
    bytes
}

/// The type of the first record of another table, neither 0 nor 0xEE, where the sector has an MBR's signature.
#[tactic(auto, unfolding(crate::specs::Mbr::foreign_type))]
pub fn foreign_type(sector: &[u8]) -> Option<u8>
    requires { length sector.now ≡ 512 }
    ensures { result ≡ foreign_type sector.now }
{
    if sector[510] != 0x55 || sector[511] != 0xaa {
        return None;
    }
    first_foreign(&record_types(sector)).copied()
}

/// The first type that is neither 0 nor 0xEE.
fn first_foreign(types: &[u8]) -> Option<&u8>
    ensures { option_copied result ≡ find (λ kind. not (kind == 0) && not (kind == 0xee)) types.now }
{
    types
        .iter()
        .find(|kind| **kind != 0 && **kind != PROTECTIVE)
}

/// The types of the four records.
#[tactic(auto, unfolding(crate::specs::Mbr::record_types))]
fn record_types(sector: &[u8]) -> [u8; 4]
    requires { length sector.now ≡ 512 }
    ensures { result ≡ record_types sector.now }
{
    [sector[450], sector[466], sector[482], sector[498]]
}

/// The state of a first sector, on a disk of this many sectors.
#[tactic(auto, unfolding(crate::specs::Mbr::mbr_state))]
pub fn mbr_state(sector: &[u8], sectors: u64) -> Mbr
    requires length { length sector.now ≡ 512 }
    requires sectors { 1 ≤ sectors }
    ensures { result ≡ mbr_state sector.now sectors }
{
    if foreign_type(sector).is_some() {
        Mbr::Foreign
    } else if &sector[RECORDS..] == mbr_bytes(sectors).as_slice() {
        Mbr::Same
    } else {
        Mbr::Differs
    }
}
