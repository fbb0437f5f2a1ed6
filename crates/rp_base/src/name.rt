//! Names of partitions.

ghost use Rattle.std.specs.Prelude.{◌≡◌};
ghost use Rattle.rp_base.specs.Name.{name_of, units_of};

/// Units of a name.
const UNITS: usize = 36;

/// A text as the name of an entry: its UTF-16 units, and zeros behind them. `None` exactly where it has more than 36
/// units or a U+0000.
pub fn name_units(text: &str) -> Option<[u16; 36]>
    ensures { result ≡ name_of text.now }
{
    let mut units = [0; UNITS];
    let mut len = 0;
    for unit in text.encode_utf16() {
        if len == UNITS || unit == 0 {
            return None;
        }
        units[len] = unit;
        len += 1;
    }
    Some(units)
}
