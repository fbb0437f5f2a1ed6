//! Options and images among words.

ghost use Rattle.std.specs.Prelude.{◌≡◌, map, option_map, string_bytes};
ghost use Rattle.rp_words.specs.Words.{at_equals, behind_hyphen, is_image as is_image_word, option_in as option_in_word, value_in as value_in_words, value_of as value_of_word};

/// The name and the value of an option's word.
pub(crate) fn option_in(word: &str) -> Option<(&str, &str)>
    ensures { option_map (λ parts. (parts.0.now, parts.1.now)) result ≡ option_in_word word.now }
{
    at_equals(behind_hyphen(behind_hyphen(word)?)?)
}

// What stands behind a hyphen at the front.
fn behind_hyphen(text: &str) -> Option<&str>
    ensures { option_map (λ rest. rest.now) result ≡ behind_hyphen text.now }
{
    text.strip_prefix('-')
}

// What stands before and behind the first equals sign.
fn at_equals(text: &str) -> Option<(&str, &str)>
    ensures { option_map (λ parts. (parts.0.now, parts.1.now)) result ≡ at_equals text.now }
{
    text.split_once('=')
}

// The value that a word gives to the option of this name.
fn value_of<'a>(name: &str, word: &'a str) -> Option<&'a str>
    ensures { option_map (λ value. value.now) result ≡ value_of_word name.now word.now }
{
    match option_in(word) {
        Some((own, value)) if own == name => Some(value),
        _ => None,
    }
}

/// The value that the words give to the option of this name.
#[tactic(auto, using(crate::proofs::First::passed, crate::proofs::First::found_here, crate::proofs::First::found_none, crate::proofs::First::first_in_map))]
pub(crate) fn value_in<'a>(name: &str, words: &'a [String]) -> Option<&'a str>
    ensures { option_map (λ value. value.now) result ≡ value_in_words name.now (map string_bytes words.now) }
{
    for word in words {
        if let Some(value) = value_of(name, word.as_str()) {
            return Some(value);
        }
    }
    None
}

/// Whether a word names an image.
pub(crate) fn is_image(word: &str) -> bool
    ensures { result ≡ is_image_word word.now }
{
    match word.as_bytes() {
        [] => false,
        [first, ..] => *first != b'-',
    }
}
