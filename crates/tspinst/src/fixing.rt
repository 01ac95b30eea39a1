//! Fixed pairs, as they come together one after the other.

ghost use Rattle.std.specs.Prelude.{slice_index, ◌≡◌, ◌≢◌, ℕ, ◌+◌, ◌<◌, ◌≤◌, Bool, cond, ◌==◌, ◌&&◌, ◌||◌, true, false, nat_lt, List, [], length, map, slice_set, replicate, IfOk, OnOk, OnErr};
ghost use Rattle.std.specs.List.{insert};
ghost use Rattle.tspdef.specs.Tours.{has_step};
ghost use Rattle.tspdef.specs.Fixed.{pairs_at, AreFixable};
ghost use Rattle.tspinst.specs.Fixings.{with_pair, is_pair_before, are_joined, leaves_out, fixed_with, fixed_if, all_fixed, partners_at, is_partner, with_partner, TellPartners, IsJudged, renamed};

use crate::refusals::{FixError, PairFault};
use std::alloc::{AllocError, Global};
use std::marker::Model;

/// The two partners of a city; the number of cities in place of one that it does not have.
pub type Partners = (u32, u32);

/// Whether the list of all cities' partners joins two of `n` cities.
#[inline]
pub fn are_partners(partners: &[Partners], n: u32, u: u32, v: u32) -> bool
    ensures { result ≡ (nat_lt v n && is_partner (partners_at n partners.now u) v) }
{
    match partners.get(u as usize) {
        Some(two) => (two.0 == v || two.1 == v) && v < n,
        None => false,
    }
}

/// Whether a pair comes before another.
fn comes_before(pair: (u32, u32), other: (u32, u32)) -> bool
    ensures { result ≡ is_pair_before pair other }
{
    pair.0 < other.0 || (pair.0 == other.0 && pair.1 < other.1)
}

/// The place of a pair among rising ones.
fn place_of(pairs: &[(u32, u32)], pair: (u32, u32)) -> usize
    ensures place { insert pairs.now result pair ≡ with_pair pair pairs.now }
    ensures bound { result ≤ length pairs.now }
{
    for place in 0..pairs.len() {
        if comes_before(pair, pairs[place]) {
            return place;
        }
    }
    pairs.len()
}

/// Gives one part the name of another.
fn rename(names: &mut Vec<u32>, from: u32, to: u32)
    ensures all { length names.new.items ≡ length names.old.items }
    ensures named { (c : ℕ) → c < length names.old.items → slice_index names.new.items c ≡ renamed from to (slice_index names.old.items c) }
{
    for city in 0..names.len() {
        if names[city] == from {
            names[city] = to;
        }
    }
}

/// No partner of any city.
#[tactic(auto, using(crate::proofs::StartLemmas::blank_step))]
fn no_partners(alloc: Global, n: u32) -> Result<Vec<Partners>, AllocError>
    ensures all { IfOk result (λ partners. length partners.items ≡ n) }
    ensures none { IfOk result (λ partners. (c : ℕ) → partners_at n partners.items c ≡ (n, n)) }
{
    let mut partners = Vec::with_capacity(alloc, n as usize)?;
    for _city in 0..n {
        partners.push((n, n))?;
    }
    Ok(partners)
}

/// Each city's own name.
fn own_names(alloc: Global, n: u32) -> Result<Vec<u32>, AllocError>
    ensures all { IfOk result (λ names. length names.items ≡ n) }
    ensures own { IfOk result (λ names. (c : ℕ) → c < n → slice_index names.items c ≡ c) }
{
    let mut names = Vec::with_capacity(alloc, n as usize)?;
    for city in 0..n {
        names.push(city)?;
    }
    Ok(names)
}

/// Makes `v` a partner of `u`, in the first place that is free.
fn join_to(partners: &mut Vec<Partners>, n: u32, u: u32, v: u32)
    requires { u < length partners.old.items }
    ensures { partners.new.items ≡ slice_set partners.old.items u (with_partner n (partners_at n partners.old.items u) v) }
{
    let two = partners[u as usize];
    partners[u as usize] = if two.0 == n { (v, two.1) } else { (two.0, v) };
}

/// Fixed pairs, and what is kept of them: the pairs rising, each city's partners, and the name of the part that pairs join it to.
#[derive(Drop)]
pub struct Fixing {
    n: u32,
    pairs: Vec<(u32, u32)>,
    partners: Vec<Partners>,
    names: Vec<u32>,
}

impl Model for Fixing {
    ghost use Rattle.std.specs.Prelude.{◌≤◌};
    ghost use Rattle.tspinst.specs.Fixings.{Collected, AreCollected};

    ghost Value = { Collected };

    ghost view = { λ f. record { n = f.n; pairs = f.pairs.items } };

    ghost invariant = { λ f. (f.n ≤ 2000) × AreCollected f.n f.pairs.items f.partners.items f.names.items };
}

impl Fixing {
    /// No pair of `n` cities.
    pub fn new(alloc: Global, n: u32) -> Result<Fixing, AllocError>
        requires { n ≤ 2000 }
        ensures { IfOk result (λ f. (f.n ≡ n) × (f.pairs ≡ [])) }
    {
        Ok(Fixing {
            n,
            pairs: Vec::new(alloc),
            partners: no_partners(alloc, n)?,
            names: own_names(alloc, n)?,
        })
    }

    /// Whether two cities are a pair.
    fn has(&self, u: u32, v: u32) -> bool
        requires { v < self.now.n }
        ensures { result ≡ has_step self.now.pairs u v }
    {
        are_partners(&self.partners, self.n, u, v)
    }

    /// Whether a city has two pairs.
    fn is_full(&self, u: u32) -> bool
        requires { u < self.now.n }
        ensures { result ≡ nat_lt 1 (pairs_at self.now.pairs u) }
    {
        let two = self.partners[u as usize];
        two.0 != self.n && two.1 != self.n
    }

    /// Whether pairs do not join a city to all others.
    #[tactic(auto, using(crate::proofs::PartLemmas::leaving))]
    fn leaves_out(&self, u: u32) -> bool
        requires { u < self.now.n }
        ensures { result ≡ leaves_out self.now.pairs u self.now.n }
    {
        for c in 0..self.n {
            if !self.are_joined(u, c) {
                return true;
            }
        }
        false
    }

    /// Whether pairs join two cities to one part.
    fn are_joined(&self, u: u32, v: u32) -> bool
        requires from { u < self.now.n }
        requires to { v < self.now.n }
        ensures { result ≡ are_joined self.now.pairs u v }
    {
        self.names[u as usize] == self.names[v as usize]
    }
}

impl Fixing {
    /// Keeps one pair more.
    fn keep(&mut self, low: u32, high: u32) -> Result<(), AllocError>
        requires rising { low < high }
        requires below { high < self.old.n }
        requires new { has_step self.old.pairs low high ≡ false }
        requires free { (pairs_at self.old.pairs low < 2) × (pairs_at self.old.pairs high < 2) }
        requires open_ended { (are_joined self.old.pairs low high && leaves_out self.old.pairs low self.old.n) ≡ false }
        ensures kept { OnOk result (self.new.pairs ≡ with_pair (low, high) self.old.pairs) }
        ensures same { self.new.n ≡ self.old.n }
    {
        let from = self.names[low as usize];
        let to = self.names[high as usize];
        let place = place_of(&self.pairs, (low, high));
        self.pairs.insert(place, (low, high))?;
        rename(&mut self.names, from, to);
        join_to(&mut self.partners, self.n, low, high);
        join_to(&mut self.partners, self.n, high, low);
        Ok(())
    }

    /// Adds the pair of two cities, or tells why it may not be fixed. A pair that is there counts once.
    #[tactic(auto, using(crate::proofs::KeepLemmas::lower_first), unfolding(crate::specs::Fixings::fixed_with))]
    pub fn add(&mut self, u: u32, v: u32) -> Result<Option<PairFault>, AllocError>
        requires from { u < self.old.n }
        requires to { v < self.old.n }
        ensures judged { IfOk result (λ fault. IsJudged fault self.new.pairs (fixed_with self.old.n self.old.pairs u v)) }
        ensures same { self.new.n ≡ self.old.n }
    {
        if u == v {
            return Ok(Some(PairFault::Loop));
        }
        if self.has(u, v) {
            return Ok(None);
        }
        if self.is_full(u) || self.is_full(v) {
            return Ok(Some(PairFault::Third));
        }
        if self.are_joined(u, v) && self.leaves_out(u) {
            return Ok(Some(PairFault::Cycle));
        }
        self.keep(u.min(v), u.max(v))?;
        Ok(None)
    }
}

impl Fixing {
    ghost use Rattle.tspinst.specs.Views.{AreFixed};

    /// The number of cities.
    pub fn n(&self) -> u32
        ensures same { result ≡ self.now.n }
        ensures few { result ≤ 2000 }
    {
        self.n
    }

    /// The pairs, rising, and each city's partners.
    pub fn into_parts(self) -> (Vec<(u32, u32)>, Vec<Partners>)
        ensures same { result.0.items ≡ self.pairs }
        ensures fixable { AreFixable self.n result.0.items }
        ensures told { TellPartners self.n result.0.items result.1.items }
    {
        (self.pairs, self.partners)
    }

    /// Adds a pair of any numbers.
    fn add_any(&mut self, pair: (u32, u32)) -> Result<Option<PairFault>, AllocError>
        ensures judged { IfOk result (λ fault. IsJudged fault self.new.pairs (fixed_if self.old.n self.old.pairs pair)) }
        ensures same { self.new.n ≡ self.old.n }
    {
        if pair.0 < self.n && pair.1 < self.n {
            self.add(pair.0, pair.1)
        } else {
            Ok(Some(PairFault::NoCity))
        }
    }

    /// All pairs of `n` cities, or the place of the first that may not be fixed beside those before it, and why.
    #[tactic(auto, using(crate::proofs::KeepLemmas::in_turn))]
    pub fn all(alloc: Global, n: u32, pairs: &[(u32, u32)]) -> Result<Fixing, FixError>
        requires { n ≤ 2000 }
        ensures judged { AreFixed n pairs.now result }
        ensures same { IfOk result (λ f. f.n ≡ n) }
    {
        let mut fixing = Fixing::new(alloc, n)?;
        for place in 0..pairs.len() {
            if let Some(fault) = fixing.add_any(pairs[place])? {
                return Err(FixError::BadFixed { place, k: fault });
            }
        }
        Ok(fixing)
    }
}
