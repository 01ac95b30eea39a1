//! Arithmetic of the engine: whole counts of 2^-32 in 64 bits, cut to their size where a product or a quotient is out of it.

/// One.
pub const ONE: i64 = 4_294_967_296;

const LIMIT: i128 = 4_611_686_018_427_387_904;

/// A product, rounded down.
#[inline]
pub fn mul(a: i64, b: i64) -> i64 {
    ((i128::from(a) * i128::from(b)) >> 32).clamp(-LIMIT, LIMIT) as i64
}

/// A quotient, rounded toward 0; 0 where the divisor is.
#[inline]
pub fn div(a: i64, b: i64) -> i64 {
    if b == 0 {
        return 0;
    }
    if b == ONE {
        return a;
    }
    let top = i128::from(a) * 4_294_967_296;
    top.wrapping_div(i128::from(b)).clamp(-LIMIT, LIMIT) as i64
}

/// Whether, by size, a / b is below c / d, or equal with b the larger.
#[inline]
pub fn is_less_ratio(a: i64, b: i64, c: i64, d: i64) -> bool {
    let left = i128::from(a.unsigned_abs()).wrapping_mul(i128::from(d.unsigned_abs()));
    let right = i128::from(c.unsigned_abs()).wrapping_mul(i128::from(b.unsigned_abs()));
    left < right || (left == right && b.unsigned_abs() > d.unsigned_abs())
}
