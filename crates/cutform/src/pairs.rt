//! Pairs of cities as sets of two: counted, compared, hashed, and made into sets.
ghost use Rattle.std.specs.Prelude.{◌≡◌, ◌<◌, ◌≤◌, ◌∷◌, [], ◌++◌, map, fold, IfOk};
ghost use Rattle.std.specs.Ordering.{nat_cmp};
ghost use Rattle.std.specs.Cmp.Lexicographic.{slice_cmp};
ghost use Rattle.std.specs.Hash as fed;
ghost use Rattle.tspdef.specs.Sets.{has};
ghost use Rattle.tspdef.specs.Cuts.{pair_set, coefficient};
ghost use Rattle.cutform.specs.Odds.{ArePairs};
ghost use Rattle.cutform.specs.Cut.{cities_of_each};
ghost use Rattle.cutform.specs.Order.{pair_input};

use cyc::{CitySet, CitySetError};
use std::alloc::{AllocError, Global};
use std::cmp::Ordering;
use std::hash::{Hash, Hasher};

// Whether a city is one of the two.
#[inline]
fn is_end(pair: (u32, u32), city: u32) -> bool
    ensures { result ≡ has (pair_set pair) city }
{
    pair.0 == city || pair.1 == city
}

// How many of the pairs have exactly one of u and v.
pub fn crossed_pairs(pairs: &[(u32, u32)], u: u32, v: u32) -> u32
    requires few { coefficient (map pair_set pairs.now) u v ≤ 3999 }
    ensures { result ≡ coefficient (map pair_set pairs.now) u v }
{
    let mut count = 0;
    for pair in pairs {
        if is_end(*pair, u) != is_end(*pair, v) {
            count += 1;
        }
    }
    count
}

// Compares one pair after the other, as sets are compared.
pub fn compare_pairs(a: &[(u32, u32)], b: &[(u32, u32)]) -> Ordering
    ensures { result ≡ slice_cmp (slice_cmp nat_cmp) (map pair_set a.now) (map pair_set b.now) }
{
    a.cmp(b)
}

// Hashes how many pairs there are, and the two cities of each.
pub fn hash_pairs<H: Hasher>(pairs: &[(u32, u32)], state: &mut H)
    ensures { state.new ≡ fold H.write state.old (fed.slice pair_input pairs.now) }
{
    pairs.hash(state);
}

// The set of two cities.
fn set_of(alloc: Global, n: u32, pair: (u32, u32)) -> Result<CitySet, AllocError>
    requires many { 3 ≤ n }
    requires few { n ≤ 2000 }
    requires rising { pair.0 < pair.1 }
    requires below { pair.1 < n }
    ensures { IfOk result (λ set. set.cities ≡ pair_set pair) }
{
    match CitySet::new(alloc, n, vec![in alloc; pair.0, pair.1]?) {
        Ok(set) => Ok(set),
        Err(CitySetError::NoMemory) => Err(AllocError),
        Err(CitySetError::NotRising) => unreachable!(),
    }
}

// The sets, and behind them each pair as one.
pub fn with_pairs(
    alloc: Global,
    n: u32,
    sets: Vec<CitySet>,
    pairs: &[(u32, u32)],
) -> Result<Vec<CitySet>, AllocError>
    requires many { 3 ≤ n }
    requires few { n ≤ 2000 }
    requires pairs { ArePairs n pairs.now }
    ensures { IfOk result (λ v. cities_of_each v.items ≡ cities_of_each sets.items ++ map pair_set pairs.now) }
{
    let mut all = sets;
    let mut rest = pairs;
    while let Some((pair, more)) = rest.split_first() {
        all.push(set_of(alloc, n, *pair)?)?;
        rest = more;
    }
    Ok(all)
}
