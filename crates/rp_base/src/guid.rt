ghost use Rattle.std.specs.Prelude.{◌≡◌, ◌↔◌, IsTrue, replicate};
ghost use Rattle.rp_base.specs.Guid.{disk_order};

/// A GUID, its 16 bytes in the order of its text.
#[derive(Clone, Copy, Debug, PartialEq, Eq)]
pub struct Guid(pub [u8; 16]);

impl Guid {
    /// The bytes as a disk holds them: the first three fields, of 4, 2 and 2 bytes, are little-endian (UEFI 2.10,
    /// appendix A).
    pub fn to_disk(self) -> [u8; 16]
        ensures { result ≡ disk_order self.0 }
    {
        turned(self.0)
    }

    /// The GUID that a disk holds as these bytes. The inverse of `to_disk`.
    pub fn from_disk(bytes: [u8; 16]) -> Guid
        ensures order { result.0 ≡ disk_order bytes }
        ensures inverse { disk_order result.0 ≡ bytes }
    {
        Guid(turned(bytes))
    }

    /// Whether all bytes are zero, which no identifier is.
    pub fn is_zero(self) -> bool
        ensures { IsTrue result ↔ (self.0 ≡ replicate 16 0) }
    {
        self.0 == [0; 16]
    }
}

// The bytes with each of the first three fields reversed.
fn turned(bytes: [u8; 16]) -> [u8; 16]
    ensures { result ≡ disk_order bytes }
{
    let b = bytes;
    [
        b[3], b[2], b[1], b[0], b[5], b[4], b[7], b[6], b[8], b[9], b[10], b[11], b[12], b[13],
        b[14], b[15],
    ]
}
