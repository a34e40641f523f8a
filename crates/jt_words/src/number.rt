//! Decimal numbers of 1 to 20 digits.

ghost use Rattle.std.specs.Prelude.{Some, ◌≡◌, ◌≤◌, ◌<◌, ◌∷◌, IfSome, List, ℕ, option_map};
ghost use Rattle.jt_words.specs.Values as spec;

/// The most digits of a number.
const MOST_DIGITS: usize = 20;

/// A number with one digit more, if it is a digit and the number is at most this one.
#[tactic(auto, using(crate::proofs::Numbers::too_large))]
fn with_digit(number: u128, digit: u8, most: u128) -> Option<u128>
    requires number { number ≤ most }
    requires most { most < 18446744073709551616 }
    ensures named { (more : List ℕ) → spec.within 0 most (spec.number_from number (digit ∷ more)) ≡ spec.within 0 most (spec.number_with result more) }
    ensures most { IfSome result (λ n. n ≤ most) }
{
    if !digit.is_ascii_digit() {
        return None;
    }
    let number = number * 10 + u128::from(digit - b'0');
    if number > most { None } else { Some(number) }
}

/// The number, at most this one, that the digits of a text are.
fn number_up_to(text: &[u8], most: u128) -> Option<u128>
    requires { most < 18446744073709551616 }
    ensures named { result ≡ spec.within 0 most (spec.number_from 0 text.now) }
    ensures most { IfSome result (λ n. n ≤ most) }
{
    let mut number = 0;
    for digit in text {
        number = with_digit(number, *digit, most)?;
    }
    Some(number)
}

/// The number between these two that a text is, if it is one. Leading zeros are allowed.
pub(crate) fn number(text: &[u8], least: u64, most: u64) -> Option<u64>
    ensures named { result ≡ spec.number least most text.now }
    ensures most { IfSome result (λ n. n ≤ most) }
{
    if text.is_empty() || text.len() > MOST_DIGITS {
        return None;
    }
    match number_up_to(text, u128::from(most)) {
        Some(number) if number >= u128::from(least) => Some(number as u64),
        _ => None,
    }
}

/// The same for smaller numbers.
pub(crate) fn small_number(text: &[u8], least: u32, most: u32) -> Option<u32>
    ensures { result ≡ spec.number least most text.now }
{
    match number(text, u64::from(least), u64::from(most)) {
        Some(number) => Some(number as u32),
        None => None,
    }
}

/// The number that is given, or the default where none is.
pub(crate) fn number_or(given: Option<&str>, default: u64, least: u64, most: u64) -> Option<u64>
    ensures { result ≡ spec.or_default default (spec.number least most) (option_map (λ s. s.now) given.entry) }
{
    match given {
        None => Some(default),
        Some(text) => number(text.as_bytes(), least, most),
    }
}

/// The same for smaller numbers.
pub(crate) fn small_number_or(
    given: Option<&str>,
    default: u32,
    least: u32,
    most: u32,
) -> Option<u32>
    ensures { result ≡ spec.or_default default (spec.number least most) (option_map (λ s. s.now) given.entry) }
{
    match given {
        None => Some(default),
        Some(text) => small_number(text.as_bytes(), least, most),
    }
}

/// The number that must be given.
pub(crate) fn required_number(given: Option<&str>, least: u32, most: u32) -> Option<u32>
    ensures { result ≡ spec.required (spec.number least most) (option_map (λ s. s.now) given.entry) }
{
    match given {
        None => None,
        Some(text) => small_number(text.as_bytes(), least, most),
    }
}
