//! Runs of digits of any length, read in one pass and kept in two words.
//!
//! Of the value of the digits only two things are kept: the part before the zeros at its end, capped at 2^32,
//! and the number of these zeros. A power of ten shifts the zeros alone, so this tells whether the number is
//! whole, whether its size is below 2^32, and then its value. A capped part stays too great whatever follows.

ghost use Rattle.std.specs.Prelude.{◌≡◌, ℕ, ◌+◌, ◌-◌, ◌*◌, ◌^◌, ◌<◌, ◌≤◌, List, [], length, min, IfSome, IfNone};
ghost use Rattle.std.specs.Str.Parse.{digits_value, digits_value_after};
ghost use Rattle.tsplex.specs.Number.{digits as digits_at_front, behind_digits};
ghost use Rattle.tsplex.specs.Digits.{Keeps};

/// Digits that were read, their value capped at the type's greatest.
#[derive(Clone, Copy, Drop)]
pub struct Capped<'a> {
    pub value: u64,
    pub count: u64,
    pub rest: &'a [u8],
}

/// The digit at the front, and the bytes behind it.
#[inline]
fn next_digit(bytes: &[u8]) -> Option<(u64, &[u8])>
    ensures digit { IfSome result (λ p. p.0 < 10) }
    ensures rest { IfSome result (λ p. length p.1.now + 1 ≡ length bytes.now) }
    ensures value { IfSome result (λ p. (v : ℕ) → digits_value_after 10 v (digits_at_front bytes.now)
        ≡ digits_value_after 10 (v * 10 + p.0) (digits_at_front p.1.now)) }
    ensures count { IfSome result (λ p. length (digits_at_front bytes.now) ≡ length (digits_at_front p.1.now) + 1) }
    ensures behind { IfSome result (λ p. behind_digits bytes.now ≡ behind_digits p.1.now) }
    ensures none { IfNone result ((digits_at_front bytes.now ≡ []) × (behind_digits bytes.now ≡ bytes.now)) }
{
    match bytes.split_first() {
        Some((byte, rest)) => {
            if byte.is_ascii_digit() {
                Some((u64::from(*byte - b'0'), rest))
            } else {
                None
            }
        }
        None => None,
    }
}

/// The digits at the front, their value capped.
pub fn capped_digits(bytes: &[u8]) -> Capped<'_>
    ensures value { result.value ≡ min (digits_value 10 (digits_at_front bytes.now)) (2 ^ 64 - 1) }
    ensures count { result.count ≡ length (digits_at_front bytes.now) }
    ensures rest { result.rest.now ≡ behind_digits bytes.now }
{
    let mut value = 0u64;
    let mut count = 0u64;
    let mut rest = bytes;
    while let Some((digit, more)) = next_digit(rest) {
        value = value.saturating_mul(10).saturating_add(digit);
        count += 1;
        rest = more;
    }
    Capped { value, count, rest }
}

/// One more than the greatest part that is kept exactly.
const CAP: u64 = 0x1_0000_0000;

/// A power of ten that is small.
#[inline]
pub fn power_of_ten(zeros: u64) -> u64
    requires { zeros < 10 }
    ensures same { result ≡ 10 ^ zeros }
    ensures bound { result ≤ 10 ^ 9 }
{
    match zeros {
        0 => 1,
        1 => 10,
        2 => 100,
        3 => 1_000,
        4 => 10_000,
        5 => 100_000,
        6 => 1_000_000,
        7 => 10_000_000,
        8 => 100_000_000,
        _ => 1_000_000_000,
    }
}

/// A digit behind zeros.
#[inline]
fn appended(front: u64, zeros: u64, digit: u64) -> u64
    requires front { front ≤ 2 ^ 32 }
    requires zeros { zeros < 9 }
    requires digit { digit < 10 }
    ensures { result ≡ min (front * 10 ^ (zeros + 1) + digit) (2 ^ 32) }
{
    (front * power_of_ten(zeros + 1) + digit).min(CAP)
}

/// What is kept of a value: the part before the zeros at its end, capped, and the number of these zeros.
#[derive(Clone, Copy, Drop)]
pub struct Kept {
    pub front: u64,
    pub zeros: u64,
    ghost capped: { front ≤ 2 ^ 32 },
}

impl Kept {
    /// One digit more.
    #[inline]
    fn push(self, digit: u64) -> Kept
        requires digit { digit < 10 }
        requires room { self.zeros + 1 < 2 ^ 64 }
        ensures keeps { (v : ℕ) → Keeps self.front self.zeros v → Keeps result.front result.zeros (v * 10 + digit) }
        ensures zeros { result.zeros ≤ self.zeros + 1 }
    {
        if digit == 0 {
            return Kept {
                front: self.front,
                zeros: self.zeros + 1,
            };
        }
        if self.front == 0 {
            return Kept {
                front: digit,
                zeros: 0,
            };
        }
        if self.zeros >= 9 {
            return Kept {
                front: CAP,
                zeros: 0,
            };
        }
        Kept {
            front: appended(self.front, self.zeros, digit),
            zeros: 0,
        }
    }
}

/// Digits that were read, their value as it is kept.
#[derive(Clone, Copy, Drop)]
pub struct Run<'a> {
    pub kept: Kept,
    pub count: u64,
    pub rest: &'a [u8],
}

/// The digits at the front, behind others.
pub fn digits(before: Kept, bytes: &[u8]) -> Run<'_>
    requires { before.zeros + length bytes.now < 2 ^ 64 }
    ensures keeps { (v : ℕ) → Keeps before.front before.zeros v
        → Keeps result.kept.front result.kept.zeros (digits_value_after 10 v (digits_at_front bytes.now)) }
    ensures count { result.count ≡ length (digits_at_front bytes.now) }
    ensures rest { result.rest.now ≡ behind_digits bytes.now }
    ensures room { result.count + length result.rest.now ≡ length bytes.now }
    ensures zeros { result.kept.zeros ≤ before.zeros + result.count }
{
    let mut kept = before;
    let mut count = 0u64;
    let mut rest = bytes;
    while let Some((digit, more)) = next_digit(rest) {
        kept = kept.push(digit);
        count += 1;
        rest = more;
    }
    Run { kept, count, rest }
}
