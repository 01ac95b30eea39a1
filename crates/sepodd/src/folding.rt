//! Values folded at a half.
ghost use Rattle.std.specs.Prelude.{◌≡◌, ◌≤◌, ◌==◌, IfOk};
ghost use Rattle.sepodd.specs.Folding.{folded_entry, folded_entries, is_over, differ, crosses_over, is_odd, turning};
ghost use Rattle.sepodd.specs.Sides.{is_marked};

use crate::SCALE;
use cyc::{Entry, Frac, FracError};
use std::alloc::{AllocError, Global};

/// Half a length: pairs above it are cheaper among the pairs of a cut.
const HALF: u32 = SCALE / 2;

/// Whether a value is above a half.
#[inline]
pub fn is_over(x: u32) -> bool
    ensures { result ≡ is_over x }
{
    x > HALF
}

/// What it costs to turn the choice of a pair over.
pub fn turning(x: u32) -> u64
    requires { x ≤ 1048576 }
    ensures { result ≡ turning x }
{
    let other = SCALE - x;
    if is_over(x) {
        u64::from(x - other)
    } else {
        u64::from(other - x)
    }
}

/// The values folded: of each pair the lesser of what it costs to cross it and to have it among the pairs of a cut.
pub fn folded(alloc: Global, x: &Frac) -> Result<Frac, AllocError>
    ensures size { IfOk result (λ w. w.n ≡ x.now.n) }
    ensures entries { IfOk result (λ w. w.entries ≡ folded_entries x.now.entries) }
{
    let n = x.n();
    let entries = folded_list(alloc, x.entries())?;
    match Frac::new(alloc, n, entries) {
        Ok(folded) => Ok(folded),
        Err(FracError::BadEntry(_)) => unreachable!(),
        Err(FracError::NoMemory) => Err(AllocError),
    }
}

/// The entries folded.
fn folded_list(alloc: Global, entries: &[Entry]) -> Result<Vec<Entry>, AllocError>
    ensures { IfOk result (λ v. v.items ≡ folded_entries entries.now) }
{
    let mut all = Vec::new(alloc);
    for entry in entries {
        all.push(folded_entry(*entry))?;
    }
    Ok(all)
}

/// An entry folded.
fn folded_entry(entry: Entry) -> Entry
    ensures { result ≡ folded_entry entry }
{
    Entry {
        u: entry.u,
        v: entry.v,
        x: entry.x.min(SCALE.saturating_sub(entry.x)),
    }
}

/// Whether a mark stands at a city.
#[inline]
pub fn is_marked(marks: &[bool], city: u32) -> bool
    ensures { result ≡ is_marked marks.now city }
{
    marks.get(city as usize).copied().unwrap_or(false)
}

/// Whether exactly one of two holds.
#[inline]
pub fn differ(a: bool, b: bool) -> bool
    ensures { result ≡ differ a b }
{
    a != b
}

/// Whether an entry is above a half and crosses the marked cities.
fn crosses_over(entry: Entry, marks: &[bool]) -> bool
    ensures { result ≡ crosses_over (is_marked marks.now) entry }
{
    is_over(entry.x) && is_marked(marks, entry.u) != is_marked(marks, entry.v)
}

/// Whether the entries above a half that cross the marked cities are odd in number.
#[tactic(auto, using(crate::proofs::ParityLemmas::differ_assoc, crate::proofs::ParityLemmas::differ_none))]
pub fn is_odd(entries: &[Entry], marks: &[bool]) -> bool
    ensures { result ≡ is_odd entries.now (is_marked marks.now) }
{
    let mut odd = false;
    let mut rest = entries;
    while let Some((entry, more)) = rest.split_first() {
        odd = differ(odd, crosses_over(*entry, marks));
        rest = more;
    }
    odd
}

/// Whether the city alone is crossed by an odd number of entries above a half.
#[tactic(auto, using(crate::proofs::ParityLemmas::differ_assoc, crate::proofs::ParityLemmas::differ_none))]
pub fn is_odd_city(entries: &[Entry], city: u32) -> bool
    ensures { result ≡ is_odd entries.now (λ k. k == city) }
{
    let mut odd = false;
    let mut rest = entries;
    while let Some((entry, more)) = rest.split_first() {
        odd = differ(odd, is_over_at(*entry, city));
        rest = more;
    }
    odd
}

/// Whether an entry is above a half and of a city.
fn is_over_at(entry: Entry, city: u32) -> bool
    ensures { result ≡ crosses_over (λ k. k == city) entry }
{
    is_over(entry.x) && (entry.u == city) != (entry.v == city)
}
