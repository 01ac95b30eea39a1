//! A plain program for the least odd cut, through all handles: what tests compare with.

use cyc::Frac;
use sepodd::SCALE;

/// The least weight over all odd cuts whose handle has city 0: of each handle as bits, and for each parity of the pairs that are chosen
/// among those that cross it. The greatest number where there is no odd cut. For at most ten cities.
pub fn least_weight(x: &Frac) -> u64 {
    let mut least = u64::MAX;
    for bits in 0..1u32 << x.n().min(10) {
        if bits & 1 == 1 {
            least = least.min(of_handle(x, bits));
        }
    }
    least
}

/// The least weight over an odd number of the pairs that cross a handle.
fn of_handle(x: &Frac, bits: u32) -> u64 {
    let mut even: u64 = 0;
    let mut odd = u64::MAX;
    let n = x.n().min(10);
    for u in 0..n {
        for v in u + 1..n {
            if (bits >> u) & 1 != (bits >> v) & 1 {
                let out = u64::from(x.x(u, v));
                let among = u64::from(SCALE.saturating_sub(x.x(u, v)));
                let next = even.saturating_add(out).min(odd.saturating_add(among));
                odd = odd.saturating_add(out).min(even.saturating_add(among));
                even = next;
            }
        }
    }
    odd
}
