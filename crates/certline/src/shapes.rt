//! Lines of a few numbers, by what stands behind their first word.

ghost use Rattle.std.specs.Prelude.{◌≡◌, ℕ, ℤ, ◌+◌, ◌^◌, ◌<◌, ◌≤◌, ◌++◌, [], ◌∷◌, List, true, ◌&&◌, nat_lt, nat_le, length, nat_abs, codes, IsTrue, IfSome, IfNone};
ghost use Rattle.std.specs.Fmt.{signed_decimal};
ghost use Rattle.certdef.specs.Items.{longest, is_dual as is_dual_size};
ghost use Rattle.certline.specs.Spelling.{EndsWord, BeginsWith, spaced, with_sign as with_sign_of};
ghost use Rattle.certline.specs.Said.{ReadsAs};

use crate::digits::{begins, next, number, tail as behind};
use crate::item::Item;

/// The greatest dual.
const MOST_DUAL: u64 = 1 << 62;

/// The greatest length of a tour that a text may tell.
const MOST_LENGTH: u64 = 1 << 42;

/// The greatest bound that a text may tell.
const MOST_BOUND: u64 = 1 << 42;

/// The one number that stands in a line, if it is at most this.
fn one(tail: &[u8], most: u64) -> Option<u64>
    requires { most < 10 ^ 19 }
    ensures some { IfSome result (λ x. tail.now ≡ spaced (x ∷ [])) }
    ensures small { IfSome result (λ x. x ≤ most) }
    ensures none { IfNone result ((x : ℕ) → x ≤ most → tail.now ≡ spaced (x ∷ []) → ⊥) }
{
    let Some((x, rest)) = next(tail) else {
        return None;
    };
    if !rest.is_empty() {
        return None;
    }
    if x <= most { Some(x) } else { None }
}

/// The one number that stands in a line, if it is from 1 to this.
fn counted(tail: &[u8], most: u64) -> Option<u64>
    requires { most < 10 ^ 19 }
    ensures some { IfSome result (λ x. tail.now ≡ spaced (x ∷ [])) }
    ensures small { IfSome result (λ x. (0 < x) × (x ≤ most)) }
    ensures none { IfNone result ((x : ℕ) → 0 < x → x ≤ most → tail.now ≡ spaced (x ∷ []) → ⊥) }
{
    let Some(x) = one(tail, most) else {
        return None;
    };
    if 0 < x { Some(x) } else { None }
}

/// The two numbers that stand in a line.
fn two(tail: &[u8]) -> Option<(u64, u64)>
    ensures some { IfSome result (λ p. tail.now ≡ spaced (p.0 ∷ p.1 ∷ [])) }
    ensures small { IfSome result (λ p. (p.0 < 10 ^ 19) × (p.1 < 10 ^ 19)) }
    ensures none { IfNone result ((a b : ℕ) → a < 10 ^ 19 → b < 10 ^ 19 → tail.now ≡ spaced (a ∷ b ∷ []) → ⊥) }
{
    let Some((a, behind)) = next(tail) else {
        return None;
    };
    let Some((b, rest)) = next(behind) else {
        return None;
    };
    if rest.is_empty() { Some((a, b)) } else { None }
}

/// The three numbers that stand in a line.
fn three(tail: &[u8]) -> Option<(u64, u64, u64)>
    ensures some { IfSome result (λ p. tail.now ≡ spaced (p.0 ∷ p.1 ∷ p.2 ∷ [])) }
    ensures small { IfSome result (λ p. (p.0 < 10 ^ 19) × (p.1 < 10 ^ 19) × (p.2 < 10 ^ 19)) }
    ensures none { IfNone result ((a b c : ℕ) → a < 10 ^ 19 → b < 10 ^ 19 → c < 10 ^ 19 → tail.now ≡ spaced (a ∷ b ∷ c ∷ []) → ⊥) }
{
    let Some((a, rest)) = next(tail) else {
        return None;
    };
    match two(rest) {
        Some((b, c)) => Some((a, b, c)),
        None => None,
    }
}

/// Whether a number is of the size of a dual.
fn is_dual(y: u64) -> bool
    ensures { result ≡ is_dual_size y }
{
    0 < y && y <= MOST_DUAL
}

/// Whether a number is a city's.
fn is_city(n: u32, city: u64) -> bool
    ensures same { result ≡ nat_lt 0 city && nat_le city n }
    ensures small { IsTrue result → city < 2 ^ 32 }
{
    0 < city && city <= u64::from(n)
}

/// Whether a number is one from 1 to 2^32 - 1.
fn is_number(k: u64) -> bool
    ensures same { result ≡ nat_lt 0 k && nat_lt k (2 ^ 32) }
    ensures small { IsTrue result → k < 2 ^ 32 }
{
    0 < k && k < 1 << 32
}

/// Whether the numbers are two cities, the lower one first.
fn is_pair(n: u32, u: u64, v: u64) -> bool
    ensures same { result ≡ nat_lt 0 u && (nat_lt u v && nat_le v n) }
    ensures first { IsTrue result → u < 2 ^ 32 }
    ensures second { IsTrue result → v < 2 ^ 32 }
{
    0 < u && u < v && v <= u64::from(n)
}

/// Whether a leaf may have so many lines of each kind.
fn are_counts(n: u32, a: u64, b: u64, c: u64) -> bool
    ensures same { result ≡ nat_le a n && (nat_le b 4096 && nat_le c 4096) }
    ensures first { IsTrue result → a < 2 ^ 32 }
    ensures second { IsTrue result → b < 2 ^ 32 }
    ensures third { IsTrue result → c < 2 ^ 32 }
{
    a <= u64::from(n) && b <= 4096 && c <= 4096
}

/// A number of this size and sign.
fn with_sign(negative: bool, size: u64) -> i64
    requires some { 0 < size }
    requires small { size ≤ 2 ^ 62 }
    ensures { result ≡ with_sign_of negative size }
{
    if negative {
        -(size as i64)
    } else {
        size as i64
    }
}

/// The size that the word of a signed dual has, and nothing stands behind it.
fn size_of_dual(word: &[u8]) -> Option<u64>
    ensures some { IfSome result (λ y. BeginsWith word.now y []) }
    ensures dual { IfSome result (λ y. is_dual_size y ≡ true) }
    ensures none { IfNone result ((y : ℕ) → is_dual_size y ≡ true → BeginsWith word.now y [] → ⊥) }
{
    let Some((y, rest)) = number(word) else {
        return None;
    };
    if !rest.is_empty() {
        return None;
    }
    if is_dual(y) { Some(y) } else { None }
}

/// The dual of a city, which is not 0 and may be negative, where it alone stands behind a blank.
fn signed_dual(text: &[u8]) -> Option<i64>
    ensures some { IfSome result (λ x. text.now ≡ 32 ∷ signed_decimal x) }
    ensures dual { IfSome result (λ x. is_dual_size (nat_abs x) ≡ true) }
    ensures none { IfNone result ((x : ℤ) → is_dual_size (nat_abs x) ≡ true → text.now ≡ 32 ∷ signed_decimal x → ⊥) }
{
    if !begins(text, b' ') {
        return None;
    }
    let word = behind(text);
    if begins(word, b'-') {
        match size_of_dual(behind(word)) {
            Some(size) => Some(with_sign(true, size)),
            None => None,
        }
    } else {
        match size_of_dual(word) {
            Some(size) => Some(with_sign(false, size)),
            None => None,
        }
    }
}

/// The first line.
pub fn title(n: u32, tail: &[u8]) -> Option<Item>
    requires tail { EndsWord tail.now }
    requires short { length (codes "TSPCERT" ++ tail.now) ≤ longest }
    ensures { ReadsAs n (codes "TSPCERT" ++ tail.now) result }
{
    match counted(tail, 2) {
        Some(version) => Some(Item::Cert(version as u32)),
        None => None,
    }
}

/// The line of the number of cities.
pub fn size(n: u32, tail: &[u8]) -> Option<Item>
    requires tail { EndsWord tail.now }
    requires short { length (codes "N" ++ tail.now) ≤ longest }
    ensures { ReadsAs n (codes "N" ++ tail.now) result }
{
    match one(tail, u32::MAX as u64) {
        Some(cities) => Some(Item::N(cities as u32)),
        None => None,
    }
}

/// The line of the length.
pub fn length(n: u32, tail: &[u8]) -> Option<Item>
    requires tail { EndsWord tail.now }
    requires short { length (codes "LENGTH" ++ tail.now) ≤ longest }
    ensures { ReadsAs n (codes "LENGTH" ++ tail.now) result }
{
    match one(tail, MOST_LENGTH) {
        Some(long) => Some(Item::Length(long)),
        None => None,
    }
}

/// The line of the bound.
pub fn bound(n: u32, tail: &[u8]) -> Option<Item>
    requires tail { EndsWord tail.now }
    requires short { length (codes "BOUND" ++ tail.now) ≤ longest }
    ensures { ReadsAs n (codes "BOUND" ++ tail.now) result }
{
    match one(tail, MOST_BOUND) {
        Some(bound) => Some(Item::Bound(bound)),
        None => None,
    }
}

/// The line of the number of cuts.
pub fn cuts(n: u32, tail: &[u8]) -> Option<Item>
    requires tail { EndsWord tail.now }
    requires short { length (codes "CUTS" ++ tail.now) ≤ longest }
    ensures { ReadsAs n (codes "CUTS" ++ tail.now) result }
{
    match one(tail, u32::MAX as u64) {
        Some(many) => Some(Item::Cuts(many as u32)),
        None => None,
    }
}

/// The first line of a comb.
pub fn comb(n: u32, tail: &[u8]) -> Option<Item>
    requires tail { EndsWord tail.now }
    requires short { length (codes "C" ++ tail.now) ≤ longest }
    ensures { ReadsAs n (codes "C" ++ tail.now) result }
{
    match one(tail, 2000) {
        Some(teeth) => Some(Item::Comb(teeth as u32)),
        None => None,
    }
}

/// The first line of an odd cut.
pub fn odd(n: u32, tail: &[u8]) -> Option<Item>
    requires tail { EndsWord tail.now }
    requires short { length (codes "B" ++ tail.now) ≤ longest }
    ensures { ReadsAs n (codes "B" ++ tail.now) result }
{
    match counted(tail, 4095) {
        Some(pairs) => Some(Item::Odd(pairs as u32)),
        None => None,
    }
}

/// The line of a pair of an odd cut.
pub fn pair(n: u32, tail: &[u8]) -> Option<Item>
    requires tail { EndsWord tail.now }
    requires short { length (codes "F" ++ tail.now) ≤ longest }
    ensures { ReadsAs n (codes "F" ++ tail.now) result }
{
    match two(tail) {
        Some((u, v)) => {
            if is_pair(n, u, v) {
                Some(Item::Pair(u as u32, v as u32))
            } else {
                None
            }
        }
        None => None,
    }
}

/// The line of a split by a pair.
pub fn edge(n: u32, tail: &[u8]) -> Option<Item>
    requires tail { EndsWord tail.now }
    requires short { length (codes "E" ++ tail.now) ≤ longest }
    ensures { ReadsAs n (codes "E" ++ tail.now) result }
{
    match two(tail) {
        Some((u, v)) => {
            if is_pair(n, u, v) {
                Some(Item::Edge(u as u32, v as u32))
            } else {
                None
            }
        }
        None => None,
    }
}

/// The first line of a closed leaf.
pub fn leaf(n: u32, tail: &[u8]) -> Option<Item>
    requires tail { EndsWord tail.now }
    requires short { length (codes "L" ++ tail.now) ≤ longest }
    ensures { ReadsAs n (codes "L" ++ tail.now) result }
{
    match three(tail) {
        Some((a, b, c)) => {
            if are_counts(n, a, b, c) {
                Some(Item::Leaf(a as u32, b as u32, c as u32))
            } else {
                None
            }
        }
        None => None,
    }
}

/// The line of the dual of a city.
pub fn city(n: u32, tail: &[u8]) -> Option<Item>
    requires tail { EndsWord tail.now }
    requires short { length (codes "P" ++ tail.now) ≤ longest }
    ensures { ReadsAs n (codes "P" ++ tail.now) result }
{
    let Some((city, rest)) = next(tail) else {
        return None;
    };
    let Some(dual) = signed_dual(rest) else {
        return None;
    };
    if is_city(n, city) {
        Some(Item::City(city as u32, dual))
    } else {
        None
    }
}

/// A number from 1 to 2^32 - 1, and a dual that is not signed.
fn numbered_dual(tail: &[u8]) -> Option<(u32, u64)>
    ensures some { IfSome result (λ p. tail.now ≡ spaced (p.0 ∷ p.1 ∷ [])) }
    ensures number { IfSome result (λ p. nat_lt 0 p.0 && nat_lt p.0 (2 ^ 32) ≡ true) }
    ensures dual { IfSome result (λ p. is_dual_size p.1 ≡ true) }
    ensures none { IfNone result ((k y : ℕ) → nat_lt 0 k && nat_lt k (2 ^ 32) ≡ true → is_dual_size y ≡ true → tail.now ≡ spaced (k ∷ y ∷ []) → ⊥) }
{
    let Some((k, y)) = two(tail) else {
        return None;
    };
    if !is_number(k) {
        return None;
    }
    if is_dual(y) {
        Some((k as u32, y))
    } else {
        None
    }
}

/// The line of the dual of a cut.
pub fn cut_dual(n: u32, tail: &[u8]) -> Option<Item>
    requires tail { EndsWord tail.now }
    requires short { length (codes "Y" ++ tail.now) ≤ longest }
    ensures { ReadsAs n (codes "Y" ++ tail.now) result }
{
    match numbered_dual(tail) {
        Some((cut, dual)) => Some(Item::CutDual(cut, dual)),
        None => None,
    }
}

/// The line of the dual of a condition.
pub fn condition_dual(n: u32, tail: &[u8]) -> Option<Item>
    requires tail { EndsWord tail.now }
    requires short { length (codes "Z" ++ tail.now) ≤ longest }
    ensures { ReadsAs n (codes "Z" ++ tail.now) result }
{
    match numbered_dual(tail) {
        Some((depth, dual)) => Some(Item::CondDual(depth, dual)),
        None => None,
    }
}

/// The line of an open leaf.
pub fn open_leaf(n: u32, tail: &[u8]) -> Option<Item>
    requires tail { EndsWord tail.now }
    requires short { length (codes "O" ++ tail.now) ≤ longest }
    ensures { ReadsAs n (codes "O" ++ tail.now) result }
{
    if tail.is_empty() {
        Some(Item::Open)
    } else {
        None
    }
}
