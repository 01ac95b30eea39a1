//! The number type and its six operations.
ghost use Rattle.std.specs.Prelude.{◌≡◌, ◌≢◌, ◌≤◌, ◌^◌, ℤ, pos, neg_ℤ, ◌+ℤ◌, ◌-ℤ◌, ◌*ℤ◌, ◌≤ℤ◌, IfSome, IfNone};
ghost use Rattle.fixnum.specs.Rounded.{IsFloor, IsCeiling, InSize, one};

use crate::quotient::{ceiling, floor};

/// A whole count of 2^-32, of size at most 2^62: a number from -2^30 to 2^30.
#[derive(Clone, Copy, Debug, PartialEq, Eq)]
pub struct Fix {
    raw: i64,
    ghost low: { neg_ℤ (pos (2 ^ 62)) ≤ℤ raw },
    ghost high: { raw ≤ℤ pos (2 ^ 62) },
}

/// The number of a count, where it is in size.
fn sized(count: i128) -> Option<Fix>
    ensures some { IfSome result (λ f. f.raw ≡ count) }
    ensures none { IfNone result (¬ InSize count) }
{
    if count < -(1 << 62) || count > 1 << 62 {
        return None;
    }
    Some(Fix { raw: count as i64 })
}

/// A quotient, rounded down, where it is in size.
fn down(n: i128, d: i64) -> Option<Fix>
    requires divisor { d ≢ pos 0 }
    requires low { neg_ℤ (pos (2 ^ 126)) ≤ℤ n }
    requires high { n ≤ℤ pos (2 ^ 126) }
    ensures some { IfSome result (λ f. IsFloor n d f.raw) }
    ensures none { IfNone result ((q : ℤ) → IsFloor n d q → ¬ InSize q) }
{
    sized(floor(n, d))
}

/// A quotient, rounded up, where it is in size.
fn up(n: i128, d: i64) -> Option<Fix>
    requires divisor { d ≢ pos 0 }
    requires low { neg_ℤ (pos (2 ^ 126)) ≤ℤ n }
    requires high { n ≤ℤ pos (2 ^ 126) }
    ensures some { IfSome result (λ f. IsCeiling n d f.raw) }
    ensures none { IfNone result ((q : ℤ) → IsCeiling n d q → ¬ InSize q) }
{
    sized(ceiling(n, d))
}

fn product(a: i64, b: i64) -> i128
    ensures value { result ≡ a *ℤ b }
    ensures low { neg_ℤ (pos (2 ^ 126)) ≤ℤ result }
    ensures high { result ≤ℤ pos (2 ^ 126) }
{
    i128::from(a) * i128::from(b)
}

impl Fix {
    /// The number of a count. None exactly where the count is above 2^62 in size.
    pub fn of_raw(raw: i64) -> Option<Fix>
        ensures some { IfSome result (λ f. f.raw ≡ raw) }
        ensures none { IfNone result (¬ InSize raw) }
    {
        sized(i128::from(raw))
    }

    /// The count.
    pub fn raw(self) -> i64
        ensures value { result ≡ self.raw }
        ensures size { InSize result }
    {
        self.raw
    }

    /// The sum. None exactly where it is out of size.
    pub fn add(self, other: Fix) -> Option<Fix>
        ensures some { IfSome result (λ f. f.raw ≡ self.raw +ℤ other.raw) }
        ensures none { IfNone result (¬ InSize (self.raw +ℤ other.raw)) }
    {
        sized(i128::from(self.raw) + i128::from(other.raw))
    }

    /// The difference. None exactly where it is out of size.
    pub fn sub(self, other: Fix) -> Option<Fix>
        ensures some { IfSome result (λ f. f.raw ≡ self.raw -ℤ other.raw) }
        ensures none { IfNone result (¬ InSize (self.raw -ℤ other.raw)) }
    {
        sized(i128::from(self.raw) - i128::from(other.raw))
    }

    /// The product, rounded down to a count. None exactly where that is out of size.
    pub fn mul_down(self, other: Fix) -> Option<Fix>
        ensures some { IfSome result (λ f. IsFloor (self.raw *ℤ other.raw) one f.raw) }
        ensures none { IfNone result ((q : ℤ) → IsFloor (self.raw *ℤ other.raw) one q → ¬ InSize q) }
    {
        down(product(self.raw, other.raw), 1 << 32)
    }

    /// The product, rounded up to a count. None exactly where that is out of size.
    pub fn mul_up(self, other: Fix) -> Option<Fix>
        ensures some { IfSome result (λ f. IsCeiling (self.raw *ℤ other.raw) one f.raw) }
        ensures none { IfNone result ((q : ℤ) → IsCeiling (self.raw *ℤ other.raw) one q → ¬ InSize q) }
    {
        up(product(self.raw, other.raw), 1 << 32)
    }

    /// The quotient, rounded down to a count. None exactly where the divisor is 0 or the quotient is out of size.
    pub fn div_down(self, other: Fix) -> Option<Fix>
        ensures some { IfSome result (λ f. IsFloor (self.raw *ℤ one) other.raw f.raw) }
        ensures none { IfNone result ((q : ℤ) → IsFloor (self.raw *ℤ one) other.raw q → ¬ InSize q) }
    {
        if other.raw == 0 {
            return None;
        }
        down(product(self.raw, 1 << 32), other.raw)
    }

    /// The quotient, rounded up to a count. None exactly where the divisor is 0 or the quotient is out of size.
    pub fn div_up(self, other: Fix) -> Option<Fix>
        ensures some { IfSome result (λ f. IsCeiling (self.raw *ℤ one) other.raw f.raw) }
        ensures none { IfNone result ((q : ℤ) → IsCeiling (self.raw *ℤ one) other.raw q → ¬ InSize q) }
    {
        if other.raw == 0 {
            return None;
        }
        up(product(self.raw, 1 << 32), other.raw)
    }
}
