//! The least set that an odd number of pairs above a half cross.
//!
//! Some cities are one group after another, and the odd sets are unions of groups. A least set of groups that parts two groups s and t
//! of them is found by a flow, which is given up half-way between the best weight so far and one length. Where the set is odd, or no
//! lighter than the best so far, no odd set that parts s and t is better, so they are one group from now on. Where it is even, an odd
//! set that crosses it can be changed for its meet or its join with it, which is no heavier and odd (Padberg and Rao 1982): so all
//! groups outside become one group, then all inside. Only odd groups are taken for s and t, and a group made of an even set is not odd,
//! so there are fewer at each step (Rizzi 2003).
ghost use Rattle.std.specs.Prelude.{◌≡◌, ◌≢◌, ◌<◌, ◌≤◌, ◌==◌, ℕ, true, false, not, length, slice_index, IfOk, MatchOption};
ghost use Rattle.tspdef.specs.Sets.{has};
ghost use Rattle.maxflow.specs.Flows.{is_stop};
ghost use Rattle.sepodd.specs.Folding.{folded_entries, differ, joined, is_odd};
ghost use Rattle.sepodd.specs.Sides.{IsBest, IsBelowOdd, AreGroups, is_marked, IsBelowParting, IsEvenLeast};

use crate::folding;
use crate::sides::{self, Best, Side};
use cyc::Frac;
use maxflow::Network;
use std::alloc::{AllocError, Global};

/// The best so far, and marks of the groups of an even least set that parts two of them, where that was found.
#[derive(Drop)]
pub struct Parting {
    pub best: Best,
    pub side: Option<Vec<bool>>,
}

/// The best so far, or the least odd side.
pub fn odd_sides(alloc: Global, x: &Frac, folded: &Frac, best: Best) -> Result<Best, AllocError>
    requires size { folded.now.n ≡ x.now.n }
    requires entries { folded.now.entries ≡ folded_entries x.now.entries }
    requires best { IsBest x.now best }
    ensures best { IfOk result (λ b. IsBest x.now b) }
    ensures no_more { IfOk result (λ b. b.weight ≤ best.weight) }
    ensures least { IfOk result (λ b. IsBelowOdd x.now (λ k. k) b.weight) }
{
    let n = x.n();
    let _entries = x.entries();
    let numbers = alone(alloc, n)?;
    let groups = odd_cities(alloc, x)?;
    let best = least_of_groups(alloc, x, folded, numbers, groups, best)?;
    Ok(best)
}

/// Each city alone.
fn alone(alloc: Global, n: u32) -> Result<Vec<u32>, AllocError>
    ensures size { IfOk result (λ v. length v.items ≡ n) }
    ensures each { IfOk result (λ v. (k : ℕ) → k < n → slice_index v.items k ≡ k) }
{
    let mut numbers = Vec::new(alloc);
    for city in 0..n {
        numbers.push(city)?;
    }
    Ok(numbers)
}

/// The cities that are odd alone.
fn odd_cities(alloc: Global, x: &Frac) -> Result<Vec<u32>, AllocError>
    ensures odd { IfOk result (λ v. (k : ℕ) → k < x.now.n → has v.items k ≡ is_odd x.now.entries (λ j. j == k)) }
    ensures below { IfOk result (λ v. (k : ℕ) → x.now.n ≤ k → has v.items k ≡ false) }
{
    let mut cities = Vec::new(alloc);
    for k in 0..x.n() {
        if folding::is_odd_city(x.entries(), k) {
            cities.push(k)?;
        }
    }
    Ok(cities)
}

/// The best so far, or the least odd union of groups. `numbers` has the number of each city's group, and `groups` those of all odd groups.
fn least_of_groups(
    alloc: Global,
    x: &Frac,
    folded: &Frac,
    numbers: Vec<u32>,
    groups: Vec<u32>,
    best: Best,
) -> Result<Best, AllocError>
    requires size { folded.now.n ≡ x.now.n }
    requires entries { folded.now.entries ≡ folded_entries x.now.entries }
    requires groups { AreGroups x.now numbers.items groups.items }
    requires best { IsBest x.now best }
    ensures best { IfOk result (λ b. IsBest x.now b) }
    ensures no_more { IfOk result (λ b. b.weight ≤ best.weight) }
    ensures least { IfOk result (λ b. IsBelowOdd x.now (slice_index numbers.items) b.weight) }
{
    let _entries = x.entries();
    let Some((s, t)) = two_of(&groups) else {
        return Ok(best);
    };
    let Parting { best, side } = parted(alloc, x, folded, &numbers, s, t, best)?;
    let Some(side) = side else {
        let rest = kept(alloc, &groups, &stop_at(alloc, x.n(), t)?, false)?;
        let fewer = merged(numbers, s, t);
        let merged = least_of_groups(alloc, x, folded, fewer, rest, best)?;
        return Ok(merged);
    };
    let inside = kept(alloc, &groups, &side, true)?;
    let inner = joined(alloc, &numbers, &side, false, t)?;
    let first = least_of_groups(alloc, x, folded, inner, inside, best)?;
    let outside = kept(alloc, &groups, &side, false)?;
    let outer = joined(alloc, &numbers, &side, true, s)?;
    let last = least_of_groups(alloc, x, folded, outer, outside, first)?;
    Ok(last)
}

/// Parts two groups by a least set of groups. Where that is even and lighter than the best so far, it is told; else no odd set that parts
/// the two weighs less than the best.
fn parted(
    alloc: Global,
    x: &Frac,
    folded: &Frac,
    numbers: &[u32],
    s: u32,
    t: u32,
    best: Best,
) -> Result<Parting, AllocError>
    requires size { folded.now.n ≡ x.now.n }
    requires entries { folded.now.entries ≡ folded_entries x.now.entries }
    requires all { length numbers.now ≡ x.now.n }
    requires below { (k : ℕ) → k < x.now.n → slice_index numbers.now k < x.now.n }
    requires first { s < x.now.n }
    requires second { t < x.now.n }
    requires two { s ≢ t }
    requires best { IsBest x.now best }
    ensures best { IfOk result (λ p. IsBest x.now p.best) }
    ensures no_more { IfOk result (λ p. p.best.weight ≤ best.weight) }
    ensures parted { IfOk result (λ p. MatchOption p.side
        (IsBelowParting x.now (slice_index numbers.now) s t p.best.weight)
        (λ side. IsEvenLeast x.now (slice_index numbers.now) s t (is_marked side.items))) }
{
    let n = x.n();
    let _entries = x.entries();
    let network = Network::of_groups(alloc, folded, numbers, n)?;
    let stops = stop_at(alloc, n, t)?;
    let limit = sides::limit(best.weight);
    let Some(found) = network.flow_below(alloc, s, &stops, limit)? else {
        return Ok(Parting { best, side: None });
    };
    let members = sides::members_of(alloc, n, &found.side)?;
    let side = sides::marks_of(alloc, numbers, &members)?;
    if folding::is_odd(x.entries(), &side) {
        let odd = Side {
            weight: found.value,
            side,
            turned: None,
        };
        let best = sides::with_side(alloc, x, best, odd)?;
        return Ok(Parting { best, side: None });
    }
    if found.value >= best.weight {
        return Ok(Parting { best, side: None });
    }
    Ok(Parting {
        best,
        side: Some(members),
    })
}

/// Two different ones of the groups, if there are any.
fn two_of(groups: &[u32]) -> Option<(u32, u32)>
    ensures { MatchOption result
        ((g h : ℕ) → has groups.now g ≡ true → has groups.now h ≡ true → g ≡ h)
        (λ t. (has groups.now t.0 ≡ true) × ((has groups.now t.1 ≡ true) × (t.0 ≢ t.1))) }
{
    let (first, mut rest) = groups.split_first()?;
    while let Some((group, more)) = rest.split_first() {
        if *group != *first {
            return Some((*first, *group));
        }
        rest = more;
    }
    None
}

/// One stop alone.
pub fn stop_at(alloc: Global, n: u32, t: u32) -> Result<Vec<bool>, AllocError>
    requires { t < n }
    ensures size { IfOk result (λ v. length v.items ≡ n) }
    ensures here { IfOk result (λ v. is_stop v.items t ≡ true) }
    ensures others { IfOk result (λ v. (k : ℕ) → k ≢ t → is_stop v.items k ≡ false) }
{
    let mut stops = vec![in alloc; false; n as usize]?;
    stops[t as usize] = true;
    Ok(stops)
}

/// The numbers, with group `t` merged into group `s`.
fn merged(mut numbers: Vec<u32>, s: u32, t: u32) -> Vec<u32>
    ensures size { length result.items ≡ length numbers.items }
    ensures each { (k : ℕ) → k < length numbers.items → slice_index result.items k ≡ joined (λ g. g == t) s (slice_index numbers.items k) }
{
    for k in 0..numbers.len() {
        if numbers[k] == t {
            numbers[k] = s;
        }
    }
    numbers
}

/// The numbers, with all groups that are marked so put into group `to`.
fn joined(
    alloc: Global,
    numbers: &[u32],
    marks: &[bool],
    marked: bool,
    to: u32,
) -> Result<Vec<u32>, AllocError>
    ensures size { IfOk result (λ v. length v.items ≡ length numbers.now) }
    ensures each { IfOk result (λ v. (k : ℕ) → k < length numbers.now → slice_index v.items k ≡ joined (λ g. not (differ (is_marked marks.now g) marked)) to (slice_index numbers.now k)) }
{
    let mut all = Vec::new(alloc);
    for k in 0..numbers.len() {
        all.push(joined_to(numbers[k], marks, marked, to))?;
    }
    Ok(all)
}

/// A group's number, once all groups that are marked so are put into group `to`.
fn joined_to(group: u32, marks: &[bool], marked: bool, to: u32) -> u32
    ensures { result ≡ joined (λ g. not (differ (is_marked marks.now g) marked)) to group }
{
    if folding::is_marked(marks, group) == marked {
        to
    } else {
        group
    }
}

/// The groups that are marked so.
#[tactic(auto, using(crate::proofs::ListLemmas::kept_push))]
fn kept(alloc: Global, groups: &[u32], marks: &[bool], marked: bool) -> Result<Vec<u32>, AllocError>
    ensures kept { IfOk result (λ v. (g : ℕ) → has groups.now g ≡ true → differ (is_marked marks.now g) marked ≡ false → has v.items g ≡ true) }
    ensures known { IfOk result (λ v. (g : ℕ) → has v.items g ≡ true → has groups.now g ≡ true) }
    ensures fewer { IfOk result (λ v. (g : ℕ) → has groups.now g ≡ true → differ (is_marked marks.now g) marked ≡ true → length v.items < length groups.now) }
{
    let mut those = Vec::new(alloc);
    let mut rest = groups;
    while let Some((group, more)) = rest.split_first() {
        if !folding::differ(folding::is_marked(marks, *group), marked) {
            those.push(*group)?;
        }
        rest = more;
    }
    Ok(those)
}
