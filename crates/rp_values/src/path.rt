ghost use Rattle.std.specs.Prelude.{◌≡◌, ◌==◌, IfOk};
ghost use Rattle.std.specs.List.{list_any};
ghost use Rattle.rp_values.specs.Texts.{is_path, path_of};

use crate::expand::expanded;
use rp_base::{Memory, Text};
use rp_types::Arch;
use std::alloc::Global;

/// The most bytes of a path.
const LONGEST: usize = 4095;

/// A path, absolute or relative, of 1 to 4,095 bytes without U+0000 once `%%` is replaced by `%`, and `%a` by the
/// architecture. `None` exactly for any other text, one with another `%` too.
pub fn read_path(alloc: Global, text: &str, arch: Arch) -> Result<Option<Text>, Memory>
    ensures { IfOk result (λ path. path ≡ path_of arch text.now) }
{
    let Some(whole) = expanded(alloc, text, arch)? else {
        return Ok(None);
    };
    if is_path(whole.as_str()) {
        Ok(Some(Text::from_string(whole)))
    } else {
        Ok(None)
    }
}

// The bounds of a path whose specifiers are replaced.
fn is_path(text: &str) -> bool
    ensures { result ≡ is_path text.now }
{
    !text.is_empty() && text.len() <= LONGEST && !has_zero(text)
}

fn has_zero(text: &str) -> bool
    ensures { result ≡ list_any (λ byte. byte == 0) text.now }
{
    text.as_bytes().iter().any(|byte| *byte == 0)
}
