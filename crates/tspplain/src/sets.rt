//! Sets of cities.

ghost use Rattle.std.specs.Prelude.{◌≡◌, ◌+◌, ◌<◌, ◌≤◌, ◌↔◌, IsTrue, length};
ghost use Rattle.tspdef.specs.Sets as sets;
ghost use Rattle.tspplain.specs.Values.{lists};

/// Whether a city is in the list.
pub fn has(xs: &[u32], city: u32) -> bool
    ensures { result ≡ sets.has xs.now city }
{
    match xs.split_first() {
        None => false,
        Some((x, rest)) => *x == city || has(rest, city),
    }
}

/// Whether the list rises strictly, from `low` on and below `n`.
fn rises_from(n: u32, low: u32, xs: &[u32]) -> bool
    ensures { IsTrue result ↔ sets.RisesFrom n low xs.now }
{
    match xs.split_first() {
        None => true,
        Some((x, rest)) => low <= *x && *x < n && rises_from(n, *x + 1, rest),
    }
}

/// Whether the list is a set of cities below `n`.
pub fn is_set(n: u32, xs: &[u32]) -> bool
    ensures { IsTrue result ↔ sets.IsSet n xs.now }
{
    rises_from(n, 0, xs)
}

/// Whether the list is a set that is neither empty nor all `n` cities.
pub fn is_proper(n: u32, xs: &[u32]) -> bool
    ensures { IsTrue result ↔ sets.IsProper n xs.now }
{
    is_set(n, xs) && !xs.is_empty() && xs.len() < n as usize
}

/// Whether two sets have a city in common.
pub fn meet(xs: &[u32], ys: &[u32]) -> bool
    ensures { result ≡ sets.meet xs.now ys.now }
{
    match xs.split_first() {
        None => false,
        Some((x, rest)) => has(ys, *x) || meet(rest, ys),
    }
}

/// Whether the first set has a city outside the second.
pub fn leaves(xs: &[u32], ys: &[u32]) -> bool
    ensures { result ≡ sets.leaves xs.now ys.now }
{
    match xs.split_first() {
        None => false,
        Some((x, rest)) => !has(ys, *x) || leaves(rest, ys),
    }
}

/// Whether a set has a city in common with one of the others.
fn meets_any(xs: &[u32], others: &[Vec<u32>]) -> bool
    ensures { result ≡ sets.meets_any xs.now (lists others.now) }
{
    match others.split_first() {
        None => false,
        Some((first, rest)) => meet(xs, first.as_slice()) || meets_any(xs, rest),
    }
}

/// Whether no two of the sets meet.
pub fn are_disjoint(all: &[Vec<u32>]) -> bool
    ensures { IsTrue result ↔ sets.AreDisjoint (lists all.now) }
{
    match all.split_first() {
        None => true,
        Some((first, rest)) => !meets_any(first.as_slice(), rest) && are_disjoint(rest),
    }
}
