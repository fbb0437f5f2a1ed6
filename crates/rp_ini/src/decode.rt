ghost use Rattle.std.specs.Prelude.{◌≡◌, ◌<◌, ◌^◌, true, false, length, MatchResult};
ghost use Rattle.std.specs.Str.{is_utf8};
ghost use Rattle.std.specs.Str.Lossy.{utf8_valid_len};
ghost use Rattle.rp_ini.specs.Lines as grammar;

use crate::IniFault;

const BYTE_ORDER_MARK: char = '\u{feff}';

// The text without a byte order mark at its front.
pub(crate) fn decoded(bytes: &[u8]) -> Result<&str, IniFault>
    requires { length bytes.now < 2 ^ 32 }
    ensures { MatchResult result (λ text. (is_utf8 bytes.now ≡ true) × (text.now ≡ grammar.without_mark bytes.now))
        (λ fault. (is_utf8 bytes.now ≡ false) × (fault ≡ IniFault.NotUtf8 (grammar.line_at bytes.now (utf8_valid_len bytes.now)))) }
{
    match std::str::from_utf8(bytes) {
        Ok(text) => Ok(without_mark(text)),
        Err(error) => Err(IniFault::NotUtf8 {
            line: line_at(bytes, error.valid_up_to()),
        }),
    }
}

fn without_mark(text: &str) -> &str
    ensures { result.now ≡ grammar.without_mark text.now }
{
    match text.strip_prefix(BYTE_ORDER_MARK) {
        Some(rest) => rest,
        None => text,
    }
}

// The number of the line, from 1, that has the byte at this place.
fn line_at(bytes: &[u8], place: usize) -> u32
    requires inside { place < length bytes.now }
    requires short { length bytes.now < 2 ^ 32 }
    ensures { result ≡ grammar.line_at bytes.now place }
{
    let feeds = bytes[..place].iter().filter(|byte| **byte == b'\n').count();
    feeds as u32 + 1
}
