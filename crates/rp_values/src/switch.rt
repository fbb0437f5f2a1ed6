ghost use Rattle.std.specs.Prelude.{◌≡◌};
ghost use Rattle.std.specs.List.{list_any};
ghost use Rattle.std.specs.Str.{str_eq_ignore_ascii_case};
ghost use Rattle.rp_values.specs.Switches.{switch_of};

/// What says yes.
const ON: [&str; 6] = ["1", "yes", "y", "true", "t", "on"];

/// What says no.
const OFF: [&str; 6] = ["0", "no", "n", "false", "f", "off"];

/// A boolean: `1`, `yes`, `y`, `true`, `t`, `on`, or `0`, `no`, `n`, `false`, `f`, `off`, in any case of ASCII. `None`
/// exactly for any other text.
#[tactic(auto, unfolding(crate::specs::Switches::switch_of))]
pub fn read_switch(text: &str) -> Option<bool>
    ensures { result ≡ switch_of text.now }
{
    if is_among(&ON, text) {
        return Some(true);
    }
    if is_among(&OFF, text) {
        return Some(false);
    }
    None
}

// Whether a text is one of these in any case.
fn is_among(texts: &[&str], text: &str) -> bool
    ensures { result ≡ list_any (λ each. str_eq_ignore_ascii_case text.now each.now) texts.now }
{
    texts.iter().any(|each| text.eq_ignore_ascii_case(each))
}
