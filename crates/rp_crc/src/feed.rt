ghost use Rattle.std.specs.Prelude.{◌≡◌, ◌+◌, ◌*◌, ◌^◌, ◌<◌};
ghost use Rattle.std.specs.List.{concat};
ghost use Rattle.rp_crc.specs.Crc.{fed};
ghost use Rattle.rp_crc.specs.Tables.{shifted_tables, shifts};

use crate::tables::Tables;

/// The register after these groups of eight bytes.
pub(crate) fn feed_words(tables: &Tables, mut register: u32, words: &[[u8; 8]]) -> u32
    requires { tables.now ≡ shifted_tables }
    ensures { result ≡ fed register (concat words.now) }
{
    for word in words {
        register = feed_word(tables, register, *word);
    }
    register
}

/// The register after a group of eight bytes.
#[inline]
fn feed_word(tables: &Tables, register: u32, word: [u8; 8]) -> u32
    requires { tables.now ≡ shifted_tables }
    ensures { result ≡ fed register word }
{
    shifted_word(tables, u64::from(register) ^ u64::from_le_bytes(word))
}

/// The register after these bytes.
pub(crate) fn feed_bytes(tables: &Tables, mut register: u32, bytes: &[u8]) -> u32
    requires { tables.now ≡ shifted_tables }
    ensures { result ≡ fed register bytes.now }
{
    for byte in bytes {
        register = shifted_byte(tables, register ^ u32::from(*byte));
    }
    register
}

/// The register shifted by a byte.
#[inline]
fn shifted_byte(tables: &Tables, register: u32) -> u32
    requires { tables.now ≡ shifted_tables }
    ensures { result ≡ shifts 8 register }
{
    let low = (register & 0xff) as usize;
    entry(tables, 0, low) ^ (register >> 8)
}

/// A word of eight bytes, the first of them the lowest, shifted out of the register whole.
#[inline]
fn shifted_word(tables: &Tables, word: u64) -> u32
    requires { tables.now ≡ shifted_tables }
    ensures { result ≡ shifts 64 word }
{
    entry(tables, 7, (word & 0xff) as usize)
        ^ entry(tables, 6, (word >> 8 & 0xff) as usize)
        ^ entry(tables, 5, (word >> 16 & 0xff) as usize)
        ^ entry(tables, 4, (word >> 24 & 0xff) as usize)
        ^ entry(tables, 3, (word >> 32 & 0xff) as usize)
        ^ entry(tables, 2, (word >> 40 & 0xff) as usize)
        ^ entry(tables, 1, (word >> 48 & 0xff) as usize)
        ^ entry(tables, 0, (word >> 56) as usize)
}

/// A byte shifted `8 * (k + 1)` times.
#[inline(always)]
fn entry(tables: &Tables, k: usize, byte: usize) -> u32
    requires tables { tables.now ≡ shifted_tables }
    requires k_in { k < 8 }
    requires byte_in { byte < 256 }
    ensures { result ≡ shifts (8 * (k + 1)) byte }
{
    tables[k][byte]
}
