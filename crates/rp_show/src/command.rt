ghost use Rattle.rp_base.specs.Geometry.{IsSector};
ghost use Rattle.rp_outcome.specs.Output.{output};
ghost use Rattle.rp_show.specs.Shows.{Shows};

use rp_base::Memory;
use rp_disk::Disk;
use rp_io::Sink;
use rp_outcome::{Refusal, finish, refuse, table_refusal};
use rp_report::show_text;
use rp_table::{Empty, read_at};
use std::alloc::Global;

/// Prints the table that the image on a disk with sectors of so many bytes shows, as text or as JSON, and answers the
/// exit status.
///
/// The disk is read alone. The image is refused where it isn't accepted or shows no table.
pub fn show<D: Disk, K: Sink>(
    alloc: Global,
    sector: u32,
    json: bool,
    disk: &mut D,
    out: &mut K,
) -> u8
    requires { IsSector sector }
    ensures { Shows sector json
        (D.device disk.old) (D.device disk.new)
        (output K.told K.faults out.old) (output K.told K.faults out.new) result }
{
    let seen = match read_at(alloc, disk, Empty::Refuse, sector) {
        Ok(seen) => seen,
        Err(fault) => return refuse(out, &table_refusal(fault)),
    };
    match show_text(alloc, json, &seen) {
        Ok(text) => finish(out, text.as_str()),
        Err(Memory) => refuse(out, &Refusal::memory()),
    }
}
