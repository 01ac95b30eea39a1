//! What number tokens are worth.

ghost use Rattle.std.specs.Prelude.{◌≡◌, ℕ, ◌+◌, ◌*◌, ◌^◌, ◌<◌, ◌≤◌, length, min, nat_abs, IfOk, IfSome, IfNone, Some, None};
ghost use Rattle.tsplex.specs.Number.{behind_point, from_power, power, signed_size, sized, whole_number, whole_of, natural_of, PlainNumbersAreRead};
ghost use Rattle.std.specs.Str.Parse.{digits_value_after};
ghost use Rattle.tsplex.specs.Digits.{Keeps, CapsPower};

use crate::digits::{Kept, Run, capped_digits, digits, power_of_ten};
use crate::front::{begins, tail, unsigned};
use std::error::Error;
use std::fmt;

/// Why a token is not taken, by the number that texts are refused with.
#[derive(Clone, Copy, Debug, PartialEq, Eq, Drop)]
pub enum NumberFault {
    /// It does not have the form of a number.
    NotANumber = 1,
    /// It is a number, and not a whole one.
    Fractional = 2,
    /// It is a whole number of a size above the limit.
    OutOfRange = 3,
}

impl fmt::Display for NumberFault {
    fn fmt<W: fmt::Write>(&self, f: &mut fmt::Formatter<W>) -> fmt::Result {
        match self {
            NumberFault::NotANumber => write!(f, "not a number"),
            NumberFault::Fractional => write!(f, "not a whole number"),
            NumberFault::OutOfRange => write!(f, "out of range"),
        }
    }
}

impl Error for NumberFault {}

/// The digits behind a point at the front, behind others.
fn fraction(before: Kept, bytes: &[u8]) -> Run<'_>
    requires { before.zeros + length bytes.now < 2 ^ 64 }
    ensures keeps { (v : ℕ) → Keeps before.front before.zeros v
        → Keeps result.kept.front result.kept.zeros (digits_value_after 10 v (behind_point bytes.now)) }
    ensures count { result.count ≡ length (behind_point bytes.now) }
    ensures rest { result.rest.now ≡ from_power bytes.now }
    ensures room { result.count + length result.rest.now ≤ length bytes.now }
    ensures zeros { result.kept.zeros ≤ before.zeros + result.count }
{
    if begins(bytes, b'.') {
        digits(before, tail(bytes))
    } else {
        Run {
            kept: before,
            count: 0,
            rest: bytes,
        }
    }
}

/// The positive and the negative part of a power of ten, each capped at the type's greatest.
#[derive(Clone, Copy, Drop)]
struct Powers {
    up: u64,
    down: u64,
}

/// The power that the bytes behind the digits say.
#[tactic(auto, unfolding(crate::specs::Number::power))]
fn read_power(bytes: &[u8]) -> Option<Powers>
    ensures some { IfSome result (λ p. (q : ℕ × ℕ) × (power bytes.now ≡ Some q) × CapsPower p.up p.down q) }
    ensures none { IfNone result (power bytes.now ≡ None) }
{
    if bytes.is_empty() {
        return Some(Powers { up: 0, down: 0 });
    }
    if !begins(bytes, b'e') && !begins(bytes, b'E') {
        return None;
    }
    let bytes = tail(bytes);
    let read = capped_digits(unsigned(bytes));
    if read.count == 0 || !read.rest.is_empty() {
        return None;
    }
    if begins(bytes, b'-') {
        Some(Powers {
            up: 0,
            down: read.value,
        })
    } else {
        Some(Powers {
            up: read.value,
            down: 0,
        })
    }
}

/// The number of this size and sign.
fn signed(negative: bool, size: u32) -> i64
    ensures same { result ≡ signed_size negative size }
    ensures size { nat_abs result ≡ size }
{
    if negative {
        -i64::from(size)
    } else {
        i64::from(size)
    }
}

/// The number whose size is a front and zeros behind it.
fn with_zeros(front: u64, zeros: u64, negative: bool, most: u32) -> Result<i64, NumberFault>
    requires front { front ≤ 2 ^ 32 }
    requires zeros { zeros < 10 }
    ensures same { (f : ℕ) → front ≡ min f (2 ^ 32) → result ≡ sized negative most (f * 10 ^ zeros) }
    ensures size { IfOk result (λ v. nat_abs v ≤ most) }
{
    match u32::try_from(front * power_of_ten(zeros)) {
        Ok(size) if size <= most => Ok(signed(negative, size)),
        _ => Err(NumberFault::OutOfRange),
    }
}

/// What the parts of a number are worth: digits, of which `places` stand behind the point, and a power.
fn judged(
    negative: bool,
    kept: Kept,
    places: u64,
    power: Powers,
    most: u32,
) -> Result<i64, NumberFault>
    requires zeros { kept.zeros < 2 ^ 63 }
    requires places { places < 2 ^ 63 }
    ensures size { IfOk result (λ v. nat_abs v ≤ most) }
    ensures same { (v : ℕ) (q : ℕ × ℕ) → Keeps kept.front kept.zeros v → CapsPower power.up power.down q
        → result ≡ whole_number most (record { negative = negative; digits = v; up = q.0; down = q.1 + places }) }
{
    if kept.front == 0 {
        return Ok(0);
    }
    let up = u128::from(kept.zeros) + u128::from(power.up);
    let down = u128::from(power.down) + u128::from(places);
    if up < down {
        return Err(NumberFault::Fractional);
    }
    let zeros = up - down;
    if zeros >= 10 {
        return Err(NumberFault::OutOfRange);
    }
    with_zeros(kept.front, zeros as u64, negative, most)
}

/// The whole number of size at most `most` that a token spells, exactly, in time linear in its length.
///
/// The token is an optional sign, digits with at most one point among, before or after them, and optionally `e`
/// or `E`, an optional sign and digits. Digits and powers may be of any length.
///
/// # Errors
///
/// `NotANumber` where the token is not of this form, else `Fractional` where its number is not whole, else
/// `OutOfRange` where its size is above `most`.
pub fn whole(token: &[u8], most: u32) -> Result<i64, NumberFault>
    ensures same { result ≡ whole_of token.now most }
    ensures size { IfOk result (λ v. nat_abs v ≤ most) }
{
    let nothing = Kept { front: 0, zeros: 0 };
    let before = digits(nothing, unsigned(token));
    let all = fraction(before.kept, before.rest);
    if before.count + all.count == 0 {
        return Err(NumberFault::NotANumber);
    }
    match read_power(all.rest) {
        Some(power) => judged(begins(token, b'-'), all.kept, all.count, power, most),
        None => Err(NumberFault::NotANumber),
    }
}

/// The number of at most `most` that a token of digits alone spells, else `None`: leading zeros are taken, and no
/// sign, point or power is.
#[tactic(auto, unfolding(crate::specs::Number::natural_of))]
pub fn natural(token: &[u8], most: u32) -> Option<u32>
    ensures same { result ≡ natural_of token.now most }
    ensures bound { IfSome result (λ n. n ≤ most) }
{
    let read = capped_digits(token);
    if read.count > 0 && read.rest.is_empty() && read.value <= u64::from(most) {
        Some(read.value as u32)
    } else {
        None
    }
}

/// A whole number is read from its decimal digits, with a minus before them where it is negative.
pub fn plain_numbers_are_read()
    ensures { PlainNumbersAreRead }
{}

#[cfg(test)]
mod tests {
    use super::*;

    const COORDINATE: u32 = 0x100_0000;

    #[test]
    fn numbers_are_worth_what_they_spell(rt: HostRuntime) {
        let rows: [(&[u8], Result<i64, NumberFault>); 17] = [
            (b"565.0", Ok(565)),
            (b"1.5e2", Ok(150)),
            (b"-0", Ok(0)),
            (b"0e999", Ok(0)),
            (b"10e-1", Ok(1)),
            (b".5", Err(NumberFault::Fractional)),
            (b"1e9", Err(NumberFault::OutOfRange)),
            (b"1x", Err(NumberFault::NotANumber)),
            (b".", Err(NumberFault::NotANumber)),
            (b"-16777216", Ok(-16_777_216)),
            (b"16777217", Err(NumberFault::OutOfRange)),
            (b"+000000000000000000000000000012.50E+1", Ok(125)),
            (b"1234500000000000000000000000000e-26", Ok(12_345)),
            (
                b"0.000000000000000000000000000001e99999999999999999999999",
                Err(NumberFault::OutOfRange),
            ),
            (b"1e-18446744073709551617", Err(NumberFault::Fractional)),
            (b"1e", Err(NumberFault::NotANumber)),
            (b"1.2.3", Err(NumberFault::NotANumber)),
        ];
        for (token, want) in rows {
            assert_eq!(rt; whole(token, COORDINATE), want, "{token:?}");
        }
    }

    #[test]
    fn naturals_are_digits_alone(rt: HostRuntime) {
        let rows: [(&[u8], Option<u32>); 6] = [
            (b"0004", Some(4)),
            (b"2000", Some(2000)),
            (b"2001", None),
            (b"+4", None),
            (b"4.0", None),
            (b"", None),
        ];
        for (token, want) in rows {
            assert_eq!(rt; natural(token, 2000), want, "{token:?}");
        }
    }
}
