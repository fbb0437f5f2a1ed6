ghost use Rattle.std.specs.Prelude.{◌≡◌, ◌∷◌, ◌++◌, [], true, false, string_bytes, MatchOption, IfOk};
ghost use Rattle.rp_ini.specs.Text as grammar;

use crate::lines::Lines;
use crate::trim::continues;
use std::alloc::AllocError;

// Puts the next logical line into the buffer, and gives the number of its first line, if there is one.
pub(crate) fn next_logical(
    lines: &mut Lines<'_>,
    text: &mut String,
) -> Result<Option<u32>, AllocError>
    ensures { IfOk result (λ number. grammar.IsNext lines.old lines.new number (string_bytes text.new)) }
{
    text.clear();
    let Some((number, first)) = lines.next() else {
        return Ok(None);
    };
    let mut piece = first;
    while let Some(front) = opened(piece) {
        text.push_str(front)?;
        text.push(' ')?;
        match lines.next() {
            Some((_, next)) => piece = next,
            None => return Ok(Some(number)),
        }
    }
    text.push_str(piece)?;
    Ok(Some(number))
}

// The text of a continued line before its last backslash.
fn opened(line: &str) -> Option<&str>
    ensures { MatchOption result (grammar.continues line.now ≡ false)
        (λ front. (grammar.continues line.now ≡ true) × (grammar.opened line.now ≡ front.now ++ 32 ∷ [])) }
{
    if !continues(line) {
        return None;
    }
    line.strip_suffix('\\')
}
