//! Numbers as they are spelled in a line: a blank, then digits without leading zeros, up to the next blank or the end.

ghost use Rattle.std.specs.Prelude.{◌≡◌, ℕ, ◌+◌, ◌*◌, ◌^◌, ◌<◌, ◌≤◌, List, [], length, drop, IsTrue, IfSome, IfNone};
ghost use Rattle.std.specs.Str.Parse.{digits_value, digits_value_after};
ghost use Rattle.certline.specs.Spelling.{digits as digits_at_front, behind_digits, first_is, EndsWord, BeginsWith, Spells};

/// Digits that were read: their value, how many they are, and what stands behind them.
#[derive(Clone, Copy, Drop)]
struct Run<'a> {
    value: u64,
    count: u64,
    rest: &'a [u8],
}

/// No digit is read behind a value that is not below this: numbers are below 10^19, and fit the type.
const LAST_DIGIT: u64 = 1_000_000_000_000_000_000;

/// Whether bytes begin with this one.
#[inline]
pub fn begins(bytes: &[u8], byte: u8) -> bool
    ensures same { result ≡ first_is byte bytes.now }
    ensures some { IsTrue result → 0 < length bytes.now }
{
    match bytes.split_first() {
        Some((first, _)) => *first == byte,
        None => false,
    }
}

/// All but the first byte.
#[inline]
pub fn tail(bytes: &[u8]) -> &[u8]
    requires { 0 < length bytes.now }
    ensures same { result.now ≡ drop 1 bytes.now }
    ensures length { length result.now + 1 ≡ length bytes.now }
{
    &bytes[1..]
}

/// The digit at the front, and the bytes behind it.
#[inline]
fn next_digit(bytes: &[u8]) -> Option<(u64, &[u8])>
    ensures digit { IfSome result (λ p. p.0 < 10) }
    ensures rest { IfSome result (λ p. length p.1.now + 1 ≡ length bytes.now) }
    ensures value { IfSome result (λ p. (v : ℕ) → digits_value_after 10 v (digits_at_front bytes.now)
        ≡ digits_value_after 10 (v * 10 + p.0) (digits_at_front p.1.now)) }
    ensures count { IfSome result (λ p. length (digits_at_front bytes.now) ≡ length (digits_at_front p.1.now) + 1) }
    ensures behind { IfSome result (λ p. behind_digits bytes.now ≡ behind_digits p.1.now) }
    ensures none { IfNone result ((digits_at_front bytes.now ≡ []) × (behind_digits bytes.now ≡ bytes.now)) }
{
    match bytes.split_first() {
        Some((byte, rest)) => {
            if byte.is_ascii_digit() {
                Some((u64::from(*byte - b'0'), rest))
            } else {
                None
            }
        }
        None => None,
    }
}

/// The digits at the front: all of them, if their value is below 10^19.
fn digits_of(bytes: &[u8]) -> Run<'_>
    ensures value { digits_value_after 10 result.value (digits_at_front result.rest.now) ≡ digits_value 10 (digits_at_front bytes.now) }
    ensures small { result.value < 10 ^ 19 }
    ensures count { result.count + length (digits_at_front result.rest.now) ≡ length (digits_at_front bytes.now) }
    ensures behind { behind_digits result.rest.now ≡ behind_digits bytes.now }
    ensures all { digits_value 10 (digits_at_front bytes.now) < 10 ^ 19 → digits_at_front result.rest.now ≡ [] }
{
    let mut value = 0u64;
    let mut count = 0u64;
    let mut rest = bytes;
    while value < LAST_DIGIT {
        let Some((digit, more)) = next_digit(rest) else {
            break;
        };
        value = value * 10 + digit;
        count += 1;
        rest = more;
    }
    Run { value, count, rest }
}

/// Whether a word ends here.
#[inline]
fn ends_word(rest: &[u8]) -> bool
    ensures yes { IsTrue result → EndsWord rest.now }
    ensures no { ¬ IsTrue result → EndsWord rest.now → ⊥ }
{
    rest.is_empty() || begins(rest, b' ')
}

/// The number of a word at the front, and what stands behind the word.
pub fn number(bytes: &[u8]) -> Option<(u64, &[u8])>
    ensures some { IfSome result (λ p. BeginsWith bytes.now p.0 p.1.now) }
    ensures none { IfNone result ((n : ℕ) (rest : List ℕ) → BeginsWith bytes.now n rest → ⊥) }
{
    let run = digits_of(bytes);
    if run.count == 0 {
        return None;
    }
    if run.count > 1 && begins(bytes, b'0') {
        return None;
    }
    if !ends_word(run.rest) {
        return None;
    }
    Some((run.value, run.rest))
}

/// The number behind a blank at the front, and what stands behind its word.
pub fn next(text: &[u8]) -> Option<(u64, &[u8])>
    ensures some { IfSome result (λ p. Spells text.now p.0 p.1.now) }
    ensures none { IfNone result ((n : ℕ) (rest : List ℕ) → Spells text.now n rest → ⊥) }
{
    if begins(text, b' ') {
        number(tail(text))
    } else {
        None
    }
}
