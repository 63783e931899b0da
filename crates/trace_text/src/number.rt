ghost use Rattle.std.specs.Prelude.{◌≡◌, ◌≢◌, ℕ, ◌<◌, ◌≤◌, ◌^◌, List, MatchOption, length, not, ◌↔◌, IsTrue};
ghost use Rattle.std.specs.List.{position};
ghost use Rattle.std.specs.Char.{is_ascii_digit};
ghost use Rattle.std.specs.Str.Parse.{AllDigits, digits_value};
ghost use Rattle.trace_text.specs.Fields.{HasNumberForm, ReadsNumber};

use std::str;

/// Where digits end: at the first byte that is none, if there is one.
fn digits_end(bytes: &[u8]) -> Option<usize>
    ensures { result ≡ position (λ b. not (is_ascii_digit b)) bytes.now }
{
    bytes.iter().position(|b| !b.is_ascii_digit())
}

/// Whether digits are a number's: there is one, and no zero stands before others.
fn has_number_form(digits: &[u8]) -> bool
    ensures { IsTrue result ↔ HasNumberForm digits.now }
{
    digits.len() == 1 || (digits.len() > 1 && digits[0] != b'0')
}

/// The number that digits write, unless it is too big.
fn value(digits: &[u8]) -> Option<u64>
    requires digits { AllDigits 10 digits.now }
    requires some { 0 < length digits.now }
    ensures { MatchOption result (2 ^ 64 ≤ digits_value 10 digits.now) (λ n. n ≡ digits_value 10 digits.now) }
{
    let text = str::from_utf8(digits).ok()?;
    text.parse().ok()
}

/// A blank and a number without leading zeros, and what stands behind it.
pub(crate) fn number_at(bytes: &[u8]) -> Option<(u64, &[u8])>
    ensures { MatchOption result
        ((n : ℕ) (rest : List ℕ) → ¬ ReadsNumber 64 bytes.now n rest)
        (λ found. ReadsNumber 64 bytes.now found.0 found.1.now) }
{
    let (blank, bytes) = bytes.split_first()?;
    if *blank != b' ' {
        return None;
    }
    let len = digits_end(bytes).unwrap_or(bytes.len());
    let (digits, rest) = bytes.split_at(len);
    if !has_number_form(digits) {
        return None;
    }
    Some((value(digits)?, rest))
}

/// The same of a number that fits a `u32`.
pub(crate) fn small_number_at(bytes: &[u8]) -> Option<(u32, &[u8])>
    ensures { MatchOption result
        ((n : ℕ) (rest : List ℕ) → ¬ ReadsNumber 32 bytes.now n rest)
        (λ found. ReadsNumber 32 bytes.now found.0 found.1.now) }
{
    let (number, rest) = number_at(bytes)?;
    let small = u32::try_from(number).ok()?;
    Some((small, rest))
}
