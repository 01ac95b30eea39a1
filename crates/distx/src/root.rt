//! Whole roots of numbers up to 2^51.
ghost use Rattle.std.specs.Prelude.{◌+◌, ◌*◌, ◌^◌, ◌<◌, ◌≤◌};
ghost use Rattle.tspdef.specs.Distances.{euclidean, rounded_up, pseudo_euclidean, is_enough, IsLeast};

/// The coefficients, in 32 binary places, of the cubic in x that is nearest to one over the root of x from 1 to 4:
/// seven parts in a thousand off at most. Their signs take turns.
const CUBIC: [u64; 4] = [6_683_772_695, 3_173_392_602, 836_168_716, 81_820_903];

/// A product of two numbers, without its last binary places.
#[inline]
fn product(a: u64, b: u64, places: u32) -> u64
    requires { places < 64 }
{
    a.wrapping_mul(b) >> places
}

/// Near one over the root of x, in 32 binary places, where x is from 1 to 4 in 30: one step of Newton from the cubic,
/// one part in ten thousand too low at most.
#[inline]
fn reciprocal_root(x: u64) -> u64 {
    let [c0, c1, c2, c3] = CUBIC;
    let first = c0.wrapping_sub(product(
        x,
        c1.wrapping_sub(product(x, c2.wrapping_sub(product(x, c3, 30)), 30)),
        30,
    ));
    let square = product(x, product(first, first, 32), 30);
    product(first, (3u64 << 31).wrapping_sub(square >> 1), 32)
}

/// Near the root of a number: mostly the root itself, rounded down. Nothing rests on how near.
///
/// With `x * 4^31 = s * 4^half` and `y` near one over the root of x, `x * y` is near the root of x, and half of `y`
/// times what its square lacks of x brings it within one part in a hundred million. Multiplications alone overlap from
/// one pair of points to the next, as divisions do not. At the end 32 is added, so that the root of a square is met.
fn guess(s: u64) -> u64
    requires { s ≤ 2 ^ 51 }
    ensures { result < 2 ^ 31 }
{
    if s == 0 {
        return 0;
    }
    let half = (63 - s.ilog2()) / 2;
    let scaled = s << (2 * half);
    let y = reciprocal_root(scaled >> 32);
    let near = product(scaled >> 32, y, 31);
    let lacking = scaled.saturating_sub(near.wrapping_mul(near));
    let root = near
        .wrapping_add(product(lacking >> 20, y, 44))
        .wrapping_add(32);
    (root >> half).min(0x7fff_ffff)
}

/// The root of a number, rounded down.
#[tactic(auto, using(crate::proofs::Least::root_small))]
fn below(s: u64) -> u64
    requires { s ≤ 2 ^ 51 }
    ensures square { result * result ≤ s }
    ensures next { s < (result + 1) * (result + 1) }
    ensures bound { result < 2 ^ 31 }
{
    let mut k = guess(s);
    'down: while k * k > s {
        k -= 1;
    }
    'up: while (k + 1) * (k + 1) <= s {
        k += 1;
    }
    k
}

/// The root of a number, rounded to the nearest whole number.
pub fn nearest(s: u64) -> u32
    requires { s ≤ 2 ^ 51 }
    ensures least { IsLeast (is_enough euclidean s) result }
    ensures bound { result ≤ 2 ^ 26 }
{
    let k = below(s);
    if s <= k * k + k {
        k as u32
    } else {
        k as u32 + 1
    }
}

/// The root of a number, rounded up.
pub fn above(s: u64) -> u32
    requires { s ≤ 2 ^ 51 }
    ensures least { IsLeast (is_enough rounded_up s) result }
    ensures bound { result ≤ 2 ^ 26 }
{
    let k = below(s);
    if s <= k * k { k as u32 } else { k as u32 + 1 }
}

/// The root of a tenth of a number, rounded up.
pub fn above_of_tenth(s: u64) -> u32
    requires { s ≤ 2 ^ 51 }
    ensures least { IsLeast (is_enough pseudo_euclidean s) result }
    ensures bound { result ≤ 2 ^ 26 }
{
    above(s.div_ceil(10))
}
