ghost use Rattle.std.specs.Prelude.{◌≡◌, ◌+◌, ◌*◌, ◌^◌, ◌<◌, ◌≤◌, ◌++◌, All, length, take};
ghost use Rattle.rp_gpt.specs.Numbers.{u16_at, u32_at, u64_at, guid_at, units_at, u16_bytes, u32_bytes, u64_bytes, guid_bytes, units_bytes};

use rp_base::Guid;

/// The little-endian number at an offset.
#[tactic(auto, unfolding(crate::specs::Numbers::u16_at))]
pub fn u16_at(bytes: &[u8], at: usize) -> u16
    requires { at + 2 ≤ length bytes.now }
    ensures { result ≡ u16_at bytes.now at }
{
    let mut field = [0; 2];
    field.copy_from_slice(&bytes[at..at + 2]);
    u16::from_le_bytes(field)
}

/// The little-endian number at an offset.
#[tactic(auto, unfolding(crate::specs::Numbers::u32_at))]
pub fn u32_at(bytes: &[u8], at: usize) -> u32
    requires { at + 4 ≤ length bytes.now }
    ensures { result ≡ u32_at bytes.now at }
{
    let mut field = [0; 4];
    field.copy_from_slice(&bytes[at..at + 4]);
    u32::from_le_bytes(field)
}

/// The little-endian number at an offset.
#[tactic(auto, unfolding(crate::specs::Numbers::u64_at))]
pub fn u64_at(bytes: &[u8], at: usize) -> u64
    requires { at + 8 ≤ length bytes.now }
    ensures value { result ≡ u64_at bytes.now at }
    ensures fits { result < 2 ^ 64 }
{
    let mut field = [0; 8];
    field.copy_from_slice(&bytes[at..at + 8]);
    u64::from_le_bytes(field)
}

/// The GUID that a disk holds at an offset.
#[tactic(auto, unfolding(crate::specs::Numbers::guid_at))]
pub fn guid_at(bytes: &[u8], at: usize) -> Guid
    requires { at + 16 ≤ length bytes.now }
    ensures value { result ≡ guid_at bytes.now at }
    ensures len { length result.0 ≡ 16 }
{
    let mut field = [0; 16];
    field.copy_from_slice(&bytes[at..at + 16]);
    Guid::from_disk(field)
}

/// The 36 units of a name, at an offset.
#[tactic(auto, unfolding(crate::specs::Numbers::units_at))]
pub fn units_at(bytes: &[u8], at: usize) -> [u16; 36]
    requires { at + 72 ≤ length bytes.now }
    ensures value { result ≡ units_at bytes.now at 36 }
    ensures len { length result ≡ 36 }
    ensures fits { All (λ unit. unit < 2 ^ 16) result }
{
    let mut units = [0; 36];
    for (k, unit) in units.iter_mut().enumerate() {
        *unit = u16_at(bytes, at + 2 * k);
    }
    units
}

/// Writes bytes at an offset.
#[tactic(auto, using(crate::proofs::Put::put))]
pub fn put_bytes(out: &mut [u8], at: usize, bytes: &[u8])
    requires { at + length bytes.now ≤ length out.old }
    ensures { take (at + length bytes.now) out.new ≡ take at out.old ++ bytes.now }
{
    out[at..at + bytes.len()].copy_from_slice(bytes);
}

/// Writes a little-endian number at an offset.
#[tactic(auto, unfolding(crate::specs::Numbers::u16_bytes))]
pub fn put_u16(out: &mut [u8], at: usize, number: u16)
    requires { at + 2 ≤ length out.old }
    ensures { take (at + 2) out.new ≡ take at out.old ++ u16_bytes number }
{
    put_bytes(out, at, &number.to_le_bytes());
}

/// Writes a little-endian number at an offset.
#[tactic(auto, unfolding(crate::specs::Numbers::u32_bytes))]
pub fn put_u32(out: &mut [u8], at: usize, number: u32)
    requires { at + 4 ≤ length out.old }
    ensures { take (at + 4) out.new ≡ take at out.old ++ u32_bytes number }
{
    put_bytes(out, at, &number.to_le_bytes());
}

/// Writes a little-endian number at an offset.
#[tactic(auto, unfolding(crate::specs::Numbers::u64_bytes))]
pub fn put_u64(out: &mut [u8], at: usize, number: u64)
    requires { at + 8 ≤ length out.old }
    ensures front { take (at + 8) out.new ≡ take at out.old ++ u64_bytes number }
    ensures fits { number < 2 ^ 64 }
{
    put_bytes(out, at, &number.to_le_bytes());
}

/// Writes a GUID as a disk holds it, at an offset.
#[tactic(auto, unfolding(crate::specs::Numbers::guid_bytes))]
pub fn put_guid(out: &mut [u8], at: usize, guid: Guid)
    requires { at + 16 ≤ length out.old }
    ensures front { take (at + 16) out.new ≡ take at out.old ++ guid_bytes guid }
    ensures len { length guid.0 ≡ 16 }
{
    put_bytes(out, at, &guid.to_disk());
}

/// Writes the 36 units of a name, at an offset.
pub fn put_units(out: &mut [u8], at: usize, units: &[u16; 36])
    requires { at + 72 ≤ length out.old }
    ensures front { take (at + 72) out.new ≡ take at out.old ++ units_bytes units.now }
    ensures len { length units.now ≡ 36 }
    ensures fits { All (λ unit. unit < 2 ^ 16) units.now }
{
    for (k, unit) in units.iter().enumerate() {
        put_u16(out, at + 2 * k, *unit);
    }
}
