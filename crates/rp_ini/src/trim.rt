ghost use Rattle.std.specs.Prelude.{◌≡◌, ◌<◌, not, false, length, IfSome, IfNone};
ghost use Rattle.rp_ini.specs.Text as grammar;

// The text without white space, which is spaces and tabs, in front.
pub(crate) fn trim_start(text: &str) -> &str
    ensures { result.now ≡ grammar.trim_start text.now }
{
    let mut rest = text;
    while let Some(next) = behind_blank(rest) {
        rest = next;
    }
    rest
}

// The text without white space at its end.
pub(crate) fn trim_end(text: &str) -> &str
    ensures { result.now ≡ grammar.trim_end text.now }
{
    let mut rest = text;
    while let Some(next) = before_blank(rest) {
        rest = next;
    }
    rest
}

// Whether a line goes on in the next one: it ends in an odd number of backslashes.
pub(crate) fn continues(text: &str) -> bool
    ensures { result ≡ grammar.continues text.now }
{
    let mut odd = false;
    let mut rest = text;
    while let Some(next) = before_backslash(rest) {
        odd = !odd;
        rest = next;
    }
    odd
}

// The text behind one byte of white space in front.
fn behind_blank(text: &str) -> Option<&str>
    ensures none { IfNone result (grammar.trim_start text.now ≡ text.now) }
    ensures some { IfSome result (λ rest. grammar.trim_start text.now ≡ grammar.trim_start rest.now) }
    ensures shorter { IfSome result (λ rest. length rest.now < length text.now) }
{
    if let Some(rest) = text.strip_prefix(' ') {
        return Some(rest);
    }
    text.strip_prefix('\t')
}

// The text before one byte of white space at its end.
fn before_blank(text: &str) -> Option<&str>
    ensures none { IfNone result (grammar.trim_end text.now ≡ text.now) }
    ensures some { IfSome result (λ rest. grammar.trim_end text.now ≡ grammar.trim_end rest.now) }
    ensures shorter { IfSome result (λ rest. length rest.now < length text.now) }
{
    if let Some(rest) = text.strip_suffix(' ') {
        return Some(rest);
    }
    text.strip_suffix('\t')
}

// The text before a backslash at its end.
fn before_backslash(text: &str) -> Option<&str>
    ensures none { IfNone result (grammar.continues text.now ≡ false) }
    ensures some { IfSome result (λ rest. grammar.continues text.now ≡ not (grammar.continues rest.now)) }
    ensures shorter { IfSome result (λ rest. length rest.now < length text.now) }
{
    text.strip_suffix('\\')
}
