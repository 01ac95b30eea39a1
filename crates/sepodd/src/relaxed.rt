//! Whether values are those of a relaxation.
ghost use Rattle.std.specs.Prelude.{◌≡◌, ◌%◌, ◌^◌, ◌<◌, ◌≤◌, ◌==◌, ◌↔◌, ◌≤ℤ◌, ℕ, pos, IsTrue};
ghost use Rattle.std.specs.List.{AllByRecursion};
ghost use Rattle.cyc.specs.Frac.{AreEntries};
ghost use Rattle.maxflow.specs.Crossings.{crossing_weight, crossing};
ghost use Rattle.sepodd.specs.Odd.{IsRelaxed};

use crate::SCALE;
use cyc::{Entry, Frac};

/// The greatest degree of a city.
const DEGREE: u64 = 2 * SCALE as u64 + 0x400;

/// Whether no value is above one length, and those at each city add up to 2^10 units above two at most.
pub fn is_relaxed(x: &Frac) -> bool
    ensures { IsTrue result ↔ IsRelaxed x.now }
{
    are_small(x.entries()) && are_degrees(x)
}

/// Whether no value is above one length.
fn are_small(entries: &[Entry]) -> bool
    ensures { IsTrue result ↔ AllByRecursion (λ e. e.x ≤ 1048576) entries.now }
{
    let mut rest = entries;
    while let Some((entry, more)) = rest.split_first() {
        if entry.x > SCALE {
            return false;
        }
        rest = more;
    }
    true
}

/// Whether the values at each city add up to little enough.
fn are_degrees(x: &Frac) -> bool
    ensures { IsTrue result ↔ ((k : ℕ) → k < x.now.n → crossing_weight x.now (λ j. j == k) ≤ℤ pos 2098176) }
{
    let n = x.n();
    let entries = x.entries();
    for k in 0..n {
        if degree(n, entries, k) > DEGREE {
            return false;
        }
    }
    true
}

/// The sum of the values at a city.
fn degree(n: u32, entries: &[Entry], k: u32) -> u64
    requires few { n ≤ 2000 }
    requires entries { AreEntries n entries.now }
    ensures { result ≡ crossing entries.now (λ j. j == k) }
{
    let sum = sum_at(entries, k);
    let _few = n;
    sum
}

/// The same, modulo 2^64.
fn sum_at(entries: &[Entry], k: u32) -> u64
    ensures { result ≡ crossing entries.now (λ j. j == k) % 2 ^ 64 }
{
    let mut sum: u64 = 0;
    for entry in entries {
        if (entry.u == k) != (entry.v == k) {
            sum = sum.wrapping_add(u64::from(entry.x));
        }
    }
    sum
}
