//! Products and sums of numbers whose sizes are known.
ghost use Rattle.std.specs.Prelude.{◌≡◌, ◌≤◌, ◌^◌, ◌*◌, pos, ◌+ℤ◌, ◌-ℤ◌, ◌*ℤ◌};
ghost use Rattle.lpcheck.specs.Sizes.{IsWithin};
ghost use Rattle.lpcheck.specs.Rows.{signed, term};
ghost use Rattle.lpcheck.specs.Steps.{column_gain};
ghost use Rattle.tspdef.specs.Bounds.{scale};

use crate::Sense;

/// A dual as it counts: an AtMost dual counts negative.
pub fn signed(sense: Sense, y: i64) -> i64
    requires { IsWithin (2 ^ 62) y }
    ensures value { result ≡ signed sense y }
    ensures size { IsWithin (2 ^ 62) result }
{
    match sense {
        Sense::AtMost => -y,
        _ => y,
    }
}

/// A number times a right side.
pub fn times_right(d: i64, rhs: u32) -> i128
    ensures value { result ≡ d *ℤ pos rhs }
    ensures size { IsWithin (2 ^ 95) result }
{
    i128::from(d) * i128::from(rhs)
}

/// A number times a coefficient.
#[inline]
pub fn times_coef(d: i64, coef: u16) -> i128
    ensures value { result ≡ d *ℤ pos coef }
    ensures size { IsWithin (2 ^ 79) result }
{
    i128::from(d) * i128::from(coef)
}

/// A sum.
#[inline]
pub fn plus(a: i128, b: i128) -> i128
    requires a { IsWithin (2 ^ 125) a }
    requires b { IsWithin (2 ^ 125) b }
    ensures { result ≡ a +ℤ b }
{
    a + b
}

/// A difference.
#[inline]
pub fn minus(a: i128, b: i128) -> i128
    requires a { IsWithin (2 ^ 125) a }
    requires b { IsWithin (2 ^ 125) b }
    ensures { result ≡ a -ℤ b }
{
    a - b
}

/// A cost in units.
pub fn in_units(cost: u32) -> i128
    ensures { result ≡ pos (scale * cost) }
{
    i128::from(cost) * (1 << 20)
}

/// What a column of a reduced cost adds to the lower side.
#[inline]
pub fn term(must: bool, r: i128) -> i128
    requires { IsWithin (2 ^ 100) r }
    ensures value { result ≡ term must r }
    ensures size { IsWithin (2 ^ 100) result }
{
    if must { r } else { r.min(0) }
}

/// What it gains where its reduced cost falls by a change.
#[inline]
pub fn term_gain(must: bool, r: i128, change: i128) -> i128
    requires r { IsWithin (2 ^ 104) r }
    requires change { IsWithin (2 ^ 79) change }
    ensures value { result ≡ term must (r -ℤ change) -ℤ term must r }
    ensures size { IsWithin (2 ^ 80) result }
{
    if must {
        -change
    } else {
        (r - change).min(0) - r.min(0)
    }
}
