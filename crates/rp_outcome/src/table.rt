ghost use Rattle.std.specs.Prelude.{◌≡◌};
ghost use Rattle.rp_outcome.specs.Refusals.{table_refusal as refusal_of};

use crate::refusal::{Refusal, Word};
use crate::status::IMAGE;
use rp_gpt::TableFault;

/// Of a fault of an image. Lengths are bytes, bounds sectors of 512 bytes.
pub fn table_refusal(fault: TableFault) -> Refusal<'static>
    ensures { result ≡ refusal_of fault }
{
    use Word::{Absent, Number, Text};
    let words = match fault {
        TableFault::Disk => return Refusal::disk(),
        TableFault::Memory => return Refusal::memory(),
        TableFault::TooLong { len } => [Text("TooLong"), Number(len), Absent, Absent],
        TableFault::TooShort { len } => [Text("TooShort"), Number(len), Absent, Absent],
        TableFault::ArrayPlace => [Text("ArrayPlace"), Absent, Absent, Absent],
        TableFault::EntryCount { count, size } => [
            Text("EntryCount"),
            Number(u64::from(count)),
            Number(u64::from(size)),
            Absent,
        ],
        TableFault::OtherTable { kind } => [
            Text("OtherTable"),
            Number(u64::from(kind)),
            Absent,
            Absent,
        ],
        TableFault::NoTable => [Text("NoTable"), Absent, Absent, Absent],
        TableFault::NotEmpty => [Text("NotEmpty"), Absent, Absent, Absent],
        TableFault::Bounds { first, last } => [Text("Bounds"), Number(first), Number(last), Absent],
        TableFault::RowRange { slot } => [
            Text("RowRange"),
            Number(u64::from(slot)),
            Absent,
            Absent,
        ],
        TableFault::Overlap { a, b } => [
            Text("Overlap"),
            Number(u64::from(a)),
            Number(u64::from(b)),
            Absent,
        ],
    };
    Refusal {
        status: IMAGE,
        words,
    }
}
