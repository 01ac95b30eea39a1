//! Sums of values, one for each city.
ghost use Rattle.std.specs.Prelude.{◌≡◌, ◌≢◌, ◌==◌, ◌+◌, ◌%◌, ◌^◌, ◌<◌, ℕ, length, slice_index};
ghost use Rattle.maxflow.specs.Crossings.{joining, crossing_at};

use cyc::Entry;

/// Adds the value of a pair to the sum of the one end, modulo 2^64, where the other end is `from`.
#[inline]
pub fn add_from(sums: &mut [u64], from: u32, u: u32, v: u32, x: u32)
    ensures size { length sums.new ≡ length sums.old }
    ensures sums { (k : ℕ) → k < length sums.old → slice_index sums.new k ≡ (slice_index sums.old k + joining from k u v x) % 2 ^ 64 }
{
    if u == from {
        add_at(sums, v, x);
    } else if v == from {
        add_at(sums, u, x);
    }
}

/// Adds the value of a pair to the sums of both ends, modulo 2^64.
#[inline]
pub fn add_ends(sums: &mut [u64], entry: Entry)
    ensures size { length sums.new ≡ length sums.old }
    ensures sums { (k : ℕ) → k < length sums.old → slice_index sums.new k ≡ (slice_index sums.old k + crossing_at (λ j. j == k) entry) % 2 ^ 64 }
{
    if entry.u != entry.v {
        add_at(sums, entry.u, entry.x);
        add_at(sums, entry.v, entry.x);
    }
}

/// Adds to one sum, modulo 2^64. There is nothing to add to past the end.
#[inline]
fn add_at(sums: &mut [u64], at: u32, x: u32)
    ensures size { length sums.new ≡ length sums.old }
    ensures here { at < length sums.old → slice_index sums.new at ≡ (slice_index sums.old at + x) % 2 ^ 64 }
    ensures others { (k : ℕ) → k ≢ at → slice_index sums.new k ≡ slice_index sums.old k }
{
    let place = at as usize;
    if place < sums.len() {
        sums[place] = sums[place].wrapping_add(u64::from(x));
    }
}
