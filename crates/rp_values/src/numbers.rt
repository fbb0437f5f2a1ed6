ghost use Rattle.std.specs.Prelude.{◌≡◌, ◌-◌, ◌^◌, if◌then◌else◌, is_some, length, slice_index, Some, take, unwrap_or};
ghost use Rattle.std.specs.Char.{is_ascii_digit};
ghost use Rattle.std.specs.List.{list_all};
ghost use Rattle.rp_values.specs.Numbers.{at_most, factor_of, number_of, priority_of, size_of, weight_of};

/// The greatest weight.
const GREATEST_WEIGHT: u64 = 1_000_000;

/// The greatest size, in bytes.
const GREATEST_SIZE: u64 = 1 << 60;

/// A size in bytes: decimal digits, and B (1), K, M, G or T (powers of 1024) behind them or nothing. `None` exactly for
/// any other text and above 2^60 bytes.
pub fn read_size(text: &str) -> Option<u64>
    ensures { result ≡ size_of text.now }
{
    let (digits, factor) = parts(text);
    let size = number(digits)?.checked_mul(factor)?;
    at_most(GREATEST_SIZE, size)
}

/// A weight: decimal digits, at most 1,000,000. `None` exactly for any other text.
pub fn read_weight(text: &str) -> Option<u64>
    ensures { result ≡ weight_of text.now }
{
    at_most(GREATEST_WEIGHT, number(text)?)
}

/// A priority: decimal digits with `-` or `+` before them or nothing. `None` exactly for any other text and where the
/// number doesn't fit.
pub fn read_priority(text: &str) -> Option<i32>
    ensures { result ≡ priority_of text.now }
{
    text.parse::<i32>().ok()
}

// A number where it is at most so much.
fn at_most(most: u64, number: u64) -> Option<u64>
    ensures { result ≡ at_most most (Some number) }
{
    if number <= most { Some(number) } else { None }
}

// A number that fits 64 bits. `parse` alone would let a plus stand in front.
fn number(text: &str) -> Option<u64>
    ensures { result ≡ at_most (2 ^ 64 - 1) (number_of text.now) }
{
    if is_digits(text) {
        text.parse::<u64>().ok()
    } else {
        None
    }
}

fn is_digits(text: &str) -> bool
    ensures { result ≡ list_all is_ascii_digit text.now }
{
    text.as_bytes().iter().all(|byte| byte.is_ascii_digit())
}

// A size's digits, and what the letter behind them stands for, 1 where there is none.
fn parts(text: &str) -> (&str, u64)
    ensures digits { result.0.now ≡ (if is_some (factor_of (slice_index text.now (length text.now - 1)))
        then take (length text.now - 1) text.now else text.now) }
    ensures factor { result.1 ≡ unwrap_or (factor_of (slice_index text.now (length text.now - 1))) 1 }
{
    match last_factor(text) {
        Some(factor) => (&text[..text.len() - 1], factor),
        None => (text, 1),
    }
}

// What the last letter stands for.
fn last_factor(text: &str) -> Option<u64>
    ensures { result ≡ factor_of (slice_index text.now (length text.now - 1)) }
{
    let letter = text.as_bytes().last()?;
    factor_of(*letter)
}

// The bytes that a letter stands for.
fn factor_of(letter: u8) -> Option<u64>
    ensures { result ≡ factor_of letter }
{
    match letter {
        b'B' => Some(1),
        b'K' => Some(1 << 10),
        b'M' => Some(1 << 20),
        b'G' => Some(1 << 30),
        b'T' => Some(1 << 40),
        _ => None,
    }
}
