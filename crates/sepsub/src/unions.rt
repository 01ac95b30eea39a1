//! The least set, where shrinking came first: the lightest of its groups, or a union of those that are left.
ghost use Rattle.std.specs.Prelude.{◌≡◌, ◌<◌, ◌≤◌, ℕ, IfOk, length};
ghost use Rattle.std.specs.List.{All};
ghost use Rattle.maxflow.specs.Shrinking.{IsWeighed, IsShrinking};
ghost use Rattle.sepsub.specs.Growth.{IsLight};
ghost use Rattle.sepsub.specs.LeastSets.{IsLeastSet, IsViolated};
ghost use Rattle.sepsub.specs.Grouping.{IsNumbered, IsGroupNetwork, IsCandidate, IsLeastUnion};

use crate::groups::Numbered;
use crate::{LIGHT, LeastSet, Swept, groups, growth, sides};
use cyc::{CitySet, Frac};
use maxflow::{Network, Shrunk};
use std::alloc::{AllocError, Global};

/// The least set, and light ones, from the groups. A flow between groups is given up where it is neither better than the best
/// of them so far nor below `reach`.
pub fn swept(alloc: Global, x: &Frac, shrunk: Shrunk, reach: u64) -> Result<Swept, AllocError>
    requires shrunk { IsShrinking x.now.n x.now.entries shrunk }
    ensures least { IfOk result (λ s. IsLeastSet x.now s.least) }
    ensures sets { IfOk result (λ s. All (IsViolated x.now) s.sets.items) }
    ensures some { IfOk result (λ s. s.least.weight < LIGHT → 0 < length s.sets.items) }
{
    let n = x.n();
    let _entries = x.entries();
    let numbered = groups::number(alloc, n, &shrunk.groups)?;
    let alone = alone(alloc, x, shrunk.best, shrunk.set)?;
    if numbered.firsts.len() < 3 {
        return Ok(alone);
    }
    let unions = unions(alloc, x, &shrunk.groups, &numbered, reach)?;
    let both = lesser(alloc, x, alone, unions)?;
    Ok(both)
}

/// A set alone.
fn alone(alloc: Global, x: &Frac, weight: u64, set: CitySet) -> Result<Swept, AllocError>
    requires { IsWeighed x.now.n x.now.entries weight set }
    ensures candidate { IfOk result (λ s. IsCandidate x.now s) }
    ensures value { IfOk result (λ s. s.least.weight ≡ weight) }
{
    let _entries = x.entries();
    let sets = light(alloc, x, weight, &set)?;
    let set = sides::with_home(alloc, set)?;
    let least = LeastSet { weight, set };
    Ok(Swept { least, sets })
}

/// The set, where it is light.
fn light(alloc: Global, x: &Frac, weight: u64, set: &CitySet) -> Result<Vec<CitySet>, AllocError>
    requires { IsWeighed x.now.n x.now.entries weight set.now }
    ensures sets { IfOk result (λ v. All (IsViolated x.now) v.items) }
    ensures some { IfOk result (λ v. weight < LIGHT → 0 < length v.items) }
{
    let _entries = x.entries();
    let mut sets = Vec::new(alloc);
    if weight < LIGHT {
        sets.push(set.copy(alloc)?)?;
    }
    Ok(sets)
}

/// The least union of groups, and light ones.
fn unions(
    alloc: Global,
    x: &Frac,
    groups: &[u32],
    numbered: &Numbered,
    reach: u64,
) -> Result<Swept, AllocError>
    requires many { 3 ≤ length numbered.now.firsts.items }
    requires numbered { IsNumbered x.now.n groups.now numbered.now }
    ensures candidate { IfOk result (λ s. IsCandidate x.now s) }
    ensures least { IfOk result (λ s. IsLeastUnion x.now groups.now s.least.weight) }
{
    let n = x.n();
    let _entries = x.entries();
    let count = groups::count(numbered);
    let network = Network::of_groups(alloc, x, &numbered.numbers, count)?;
    let found = growth::grown(alloc, &network, reach)?;
    let side = groups::cities_of(alloc, n, &numbered.numbers, &found.best.side)?;
    let set = sides::with_home(alloc, side)?;
    let sets = mapped(alloc, x, numbered, &network, &found.sets)?;
    let least = LeastSet {
        weight: found.best.value,
        set,
    };
    Ok(Swept { least, sets })
}

/// The cities of the groups in each set.
fn mapped(
    alloc: Global,
    x: &Frac,
    numbered: &Numbered,
    network: &Network,
    sets: &[CitySet],
) -> Result<Vec<CitySet>, AllocError>
    requires network { IsGroupNetwork x.now numbered.now network.now }
    requires light { All (IsLight network.now) sets.now }
    ensures light { IfOk result (λ v. All (IsViolated x.now) v.items) }
    ensures many { IfOk result (λ v. length v.items ≡ length sets.now) }
{
    let mut all = Vec::new(alloc);
    for set in sets {
        all.push(mapped_one(alloc, x, numbered, network, set)?)?;
    }
    Ok(all)
}

/// The cities of the groups in a set.
fn mapped_one(
    alloc: Global,
    x: &Frac,
    numbered: &Numbered,
    _network: &Network,
    set: &CitySet,
) -> Result<CitySet, AllocError>
    requires network { IsGroupNetwork x.now numbered.now _network.now }
    requires light { IsLight _network.now set.now }
    ensures { IfOk result (λ s. IsViolated x.now s) }
{
    let _entries = x.entries();
    let cities = groups::cities_of(alloc, x.n(), &numbered.numbers, set)?;
    Ok(cities)
}

/// The lesser of two least sets, and the light sets of both.
fn lesser(_alloc: Global, x: &Frac, one: Swept, other: Swept) -> Result<Swept, AllocError>
    requires one { IsCandidate x.now one }
    requires other { IsCandidate x.now other }
    ensures candidate { IfOk result (λ s. IsCandidate x.now s) }
    ensures first { IfOk result (λ s. s.least.weight ≤ one.least.weight) }
    ensures second { IfOk result (λ s. s.least.weight ≤ other.least.weight) }
{
    let _n = x.n();
    let mut sets = one.sets;
    let mut more = other.sets;
    sets.append(&mut more)?;
    if other.least.weight < one.least.weight {
        return Ok(Swept {
            least: other.least,
            sets,
        });
    }
    Ok(Swept {
        least: one.least,
        sets,
    })
}
