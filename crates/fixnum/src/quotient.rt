//! Quotients of whole numbers, rounded down and up. The sizes are divided, and the signs set afterwards.
ghost use Rattle.std.specs.Prelude.{◌≡◌, ◌≢◌, ◌≤◌, ◌<◌, ◌+◌, ◌*◌, ◌^◌, pos, neg_ℤ, ◌+ℤ◌, ◌-ℤ◌, ◌*ℤ◌, ◌≤ℤ◌, ◌<ℤ◌};
ghost use Rattle.fixnum.specs.Rounded.{IsFloor, IsCeiling};

fn size_down(n: u128, d: u64) -> u128
    requires { 1 ≤ d }
    ensures below { result * d ≤ n }
    ensures above { n < result * d + d }
    ensures small { result ≤ n }
{
    n / u128::from(d)
}

fn size_up(n: u128, d: u64) -> u128
    requires least { 1 ≤ d }
    requires most { n ≤ 2 ^ 126 }
    ensures below { n ≤ result * d }
    ensures above { result * d < n + d }
    ensures small { result ≤ 2 ^ 126 }
{
    let q = size_down(n, d);
    if q * u128::from(d) == n { q } else { q + 1 }
}

fn plus(q: u128) -> i128
    requires { q ≤ 2 ^ 126 }
    ensures { result ≡ pos q }
{
    q as i128
}

fn minus(q: u128) -> i128
    requires { q ≤ 2 ^ 126 }
    ensures { result ≡ neg_ℤ (pos q) }
{
    -(q as i128)
}

fn down(n: i128, d: u64) -> i128
    requires divisor { 1 ≤ d }
    requires low { neg_ℤ (pos (2 ^ 126)) ≤ℤ n }
    requires high { n ≤ℤ pos (2 ^ 126) }
    ensures below { (result *ℤ pos d) ≤ℤ n }
    ensures above { n <ℤ (result *ℤ pos d +ℤ pos d) }
{
    if n < 0 {
        minus(size_up(n.unsigned_abs(), d))
    } else {
        plus(size_down(n.unsigned_abs(), d))
    }
}

fn up(n: i128, d: u64) -> i128
    requires divisor { 1 ≤ d }
    requires low { neg_ℤ (pos (2 ^ 126)) ≤ℤ n }
    requires high { n ≤ℤ pos (2 ^ 126) }
    ensures below { (result *ℤ pos d -ℤ pos d) <ℤ n }
    ensures above { n ≤ℤ (result *ℤ pos d) }
{
    if n < 0 {
        minus(size_down(n.unsigned_abs(), d))
    } else {
        plus(size_up(n.unsigned_abs(), d))
    }
}

/// The quotient, rounded down.
pub fn floor(n: i128, d: i64) -> i128
    requires divisor { d ≢ pos 0 }
    requires low { neg_ℤ (pos (2 ^ 126)) ≤ℤ n }
    requires high { n ≤ℤ pos (2 ^ 126) }
    ensures { IsFloor n d result }
{
    if d < 0 {
        down(-n, d.unsigned_abs())
    } else {
        down(n, d.unsigned_abs())
    }
}

/// The quotient, rounded up.
pub fn ceiling(n: i128, d: i64) -> i128
    requires divisor { d ≢ pos 0 }
    requires low { neg_ℤ (pos (2 ^ 126)) ≤ℤ n }
    requires high { n ≤ℤ pos (2 ^ 126) }
    ensures { IsCeiling n d result }
{
    if d < 0 {
        up(-n, d.unsigned_abs())
    } else {
        up(n, d.unsigned_abs())
    }
}
