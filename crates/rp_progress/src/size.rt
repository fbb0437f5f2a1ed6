ghost use Rattle.std.specs.Prelude.{◌<◌};

use std::fmt;
use std::fmt::{Display, Formatter};

/// A number of bytes as eight columns: ` 0.5 KiB`, `  35 MiB`, `1023 GiB`.
#[derive(Clone, Copy)]
pub(crate) struct Size {
    whole: u64,
    tenth: u64,
    unit: &'static str,
}

/// So many bytes in the unit in which they are less than 1,024.
pub(crate) fn size_of(bytes: u64) -> Size {
    if bytes < 1 << 20 {
        in_unit(bytes, 1 << 10, "KiB")
    } else if bytes < 1 << 30 {
        in_unit(bytes, 1 << 20, "MiB")
    } else if bytes < 1 << 40 {
        in_unit(bytes, 1 << 30, "GiB")
    } else if bytes < 1 << 50 {
        in_unit(bytes, 1 << 40, "TiB")
    } else if bytes < 1 << 60 {
        in_unit(bytes, 1 << 50, "PiB")
    } else {
        in_unit(bytes, 1 << 60, "EiB")
    }
}

fn in_unit(bytes: u64, bytes_of_unit: u64, unit: &'static str) -> Size
    requires { 0 < bytes_of_unit }
{
    Size {
        whole: bytes / bytes_of_unit,
        tenth: (bytes % bytes_of_unit).saturating_mul(10) / bytes_of_unit,
        unit,
    }
}

impl Display for Size {
    fn fmt<W: fmt::Write>(&self, f: &mut Formatter<W>) -> fmt::Result {
        let Size { whole, tenth, unit } = *self;
        if whole < 10 {
            write!(f, " {whole}.{tenth} {unit}")
        } else {
            write!(f, "{whole:>4} {unit}")
        }
    }
}
