ghost use Rattle.std.specs.Prelude.{◌≡◌, Some};
ghost use Rattle.rp_types.specs.Guids.{guid_of, guid_text};

use rp_base::Guid;
use uuid::Uuid;

/// Characters of a GUID as text.
const TEXT_LEN: usize = 36;

/// Reads a GUID in one of four forms: 32 digits, hyphenated, hyphenated in braces, or hyphenated behind `urn:uuid:`.
pub fn read_guid(text: &str) -> Option<Guid>
    ensures { result ≡ guid_of text.now }
{
    match Uuid::parse_str(text) {
        Ok(id) => Some(Guid(id.into_bytes())),
        Err(_) => None,
    }
}

/// A GUID as text, in lower case with hyphens.
pub fn write_guid(id: Guid) -> [u8; TEXT_LEN]
    ensures text { result ≡ guid_text id }
    ensures back { guid_of result ≡ Some id }
{
    let mut buffer = [0; TEXT_LEN];
    let text = Uuid::from_bytes(id.0)
        .hyphenated()
        .encode_lower(&mut buffer);
    let mut copy = [0; TEXT_LEN];
    copy.copy_from_slice(text.as_bytes());
    copy
}
