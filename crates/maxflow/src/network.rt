//! The pairs of positive value as a network.
ghost use Rattle.std.specs.Prelude.{◌≡◌, ◌+◌, ◌%◌, ◌<◌, ◌≤◌, ◌^◌, ℕ, Bool, false, List, length, slice_index, pos, IfOk, MatchOption};
ghost use Rattle.std.specs.List.{All};
ghost use Rattle.maxflow.specs.Crossings.{crossing_weight, crossing, between_cities, IsPair};
ghost use Rattle.maxflow.specs.Flows.{is_stop, IsBelowAll, IsLeastFlow};

use crate::rows::Rows;
use crate::{LeastSide, route, sums};
use cyc::{Entry, Frac};
use std::alloc::{AllocError, Global};
use std::marker::Model;

/// Values on pairs, ready for flows. Contracts see n and the entries of positive value.
#[derive(Drop)]
pub struct Network {
    n: u32,
    pairs: Vec<Entry>,
    rows: Rows,
}

impl Model for Network {
    ghost use Rattle.cyc.specs.Frac.{Values};

    ghost Value = { Values };

    ghost use Rattle.maxflow.specs.NetworkInside.{values_of, IsNetwork};

    ghost view = { values_of };

    ghost invariant = { IsNetwork };
}

impl Network {
    /// The network of some values: each set is crossed by the same in both.
    pub fn of(alloc: Global, x: &Frac) -> Result<Network, AllocError>
        ensures cities { IfOk result (λ w. w.n ≡ x.now.n) }
        ensures weights { IfOk result (λ w. (p : ℕ → Bool) → crossing_weight x.now p ≡ pos (crossing w.entries p)) }
    {
        let n = x.n();
        let pairs = positive(alloc, n, x.entries())?;
        let rows = Rows::of(alloc, n, &pairs)?;
        Ok(Network { n, pairs, rows })
    }

    /// The network of groups of the cities, of which city `k` is in that of number `numbers[k]`: each union of groups is crossed
    /// by the same in both.
    pub fn of_groups(
        alloc: Global,
        x: &Frac,
        numbers: &[u32],
        count: u32,
    ) -> Result<Network, AllocError>
        requires many { 3 ≤ count }
        requires few { count ≤ 2000 }
        requires numbers { (k : ℕ) → k < x.now.n → slice_index numbers.now k < count }
        ensures cities { IfOk result (λ w. w.n ≡ count) }
        ensures weights { IfOk result (λ w. (p : ℕ → Bool) → crossing_weight x.now (λ k. p (slice_index numbers.now k)) ≡ pos (crossing w.entries p)) }
    {
        let pairs = joined(alloc, x.n(), x.entries(), numbers, count)?;
        let rows = Rows::of(alloc, count, &pairs)?;
        Ok(Network {
            n: count,
            pairs,
            rows,
        })
    }

    /// How many cities there are.
    pub fn n(&self) -> u32
        ensures value { result ≡ self.now.n }
        ensures many { 3 ≤ result }
        ensures few { result ≤ 2000 }
    {
        self.n
    }

    /// Adds to each city's weight the value of its pair with `city`, modulo 2^64.
    pub fn add_values(&self, city: u32, weights: &mut [u64])
        ensures size { length weights.new ≡ length weights.old }
        ensures sums { (k : ℕ) → k < length weights.old → slice_index weights.new k
            ≡ (slice_index weights.old k + between_cities self.now.entries city k) % 2 ^ 64 }
    {
        for pair in &self.pairs {
            sums::add_from(weights, city, pair.u, pair.v, pair.x);
        }
    }

    /// The least crossing weight of the sets that hold `s` and no stop, and such a set, where it is below `limit`. The flow
    /// is given up once it reaches `limit`.
    pub fn flow_below(
        &self,
        alloc: Global,
        s: u32,
        stops: &[bool],
        limit: u64,
    ) -> Result<Option<LeastSide>, AllocError>
        requires first { s < self.now.n }
        requires all { length stops.now ≡ self.now.n }
        requires free { is_stop stops.now s ≡ false }
        ensures { IfOk result (λ o. MatchOption o
            (IsBelowAll self.now s stops.now limit)
            (λ f. IsLeastFlow self.now s stops.now f × (f.value < limit))) }
    {
        route::flow_below(alloc, self.n, &self.pairs, &self.rows, s, stops, limit)
    }

    /// The least crossing weight of the sets that hold `s` and no stop, and such a set.
    pub fn flow(&self, alloc: Global, s: u32, stops: &[bool]) -> Result<LeastSide, AllocError>
        requires first { s < self.now.n }
        requires all { length stops.now ≡ self.now.n }
        requires free { is_stop stops.now s ≡ false }
        ensures { IfOk result (λ f. IsLeastFlow self.now s stops.now f) }
    {
        route::flow(alloc, self.n, &self.pairs, &self.rows, s, stops)
    }
}

/// The entries of positive value.
fn positive(alloc: Global, n: u32, entries: &[Entry]) -> Result<Vec<Entry>, AllocError>
    requires { All (IsPair n) entries.now }
    ensures within { IfOk result (λ v. All (IsPair n) v.items) }
    ensures crossings { IfOk result (λ v. (p : ℕ → Bool) → crossing v.items p ≡ crossing entries.now p) }
{
    let mut pairs = Vec::new(alloc);
    for entry in entries {
        if entry.x > 0 {
            pairs.push(*entry)?;
        }
    }
    Ok(pairs)
}

/// The entries of positive value between two groups, as pairs of these.
fn joined(
    alloc: Global,
    n: u32,
    entries: &[Entry],
    numbers: &[u32],
    count: u32,
) -> Result<Vec<Entry>, AllocError>
    requires pairs { All (IsPair n) entries.now }
    requires numbers { (k : ℕ) → k < n → slice_index numbers.now k < count }
    ensures within { IfOk result (λ v. All (IsPair count) v.items) }
    ensures crossings { IfOk result (λ v. (p : ℕ → Bool) → crossing v.items p ≡ crossing entries.now (λ k. p (slice_index numbers.now k))) }
{
    let _sizes = (n, count);
    let mut pairs = Vec::new(alloc);
    for entry in entries {
        let pair = Entry {
            u: number_of(numbers, entry.u),
            v: number_of(numbers, entry.v),
            x: entry.x,
        };
        if pair.x > 0 && pair.u != pair.v {
            pairs.push(pair)?;
        }
    }
    Ok(pairs)
}

/// The number of a city's group.
#[inline]
fn number_of(numbers: &[u32], city: u32) -> u32
    ensures { result ≡ slice_index numbers.now city }
{
    numbers.get(city as usize).copied().unwrap_or(0)
}
