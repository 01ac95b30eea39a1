//! Odd cuts, before a node is split.
//!
//! Where nothing else is missed, an exact search is asked for odd cuts (Padberg and Rao 1982); where it finds some, it comes first in the next round. Such rounds
//! are many, as each moves the values to another end of what is left, and what they violate there is little. So the search first looks half-way between the
//! newest values and a mean of those before: cuts of that place are violated deeper by the newest values, and fewer rounds are left
//! (Ben-Ameur and Neto 2007, on in-out separation). Where these values violate none of them, the newest values decide.
ghost use Rattle.std.specs.Prelude.{◌≡◌, ◌≤◌, IfOk, IfSome, false, length};
ghost use Rattle.std.specs.List.{All};
ghost use Rattle.nodelp.specs.Node.{IsClean, IsMissed, HasSolved};
ghost use Rattle.sepblos.specs.Violated.{IsWorth};
ghost use Rattle.tspdef.specs.Cuts.{IsCut};
ghost use Rattle.cutpool.specs.Pool.{is_worth};
ghost use Rattle.worker.specs.declared.work.OddAnswer.TheVariants.{NotAsked};
ghost use Rattle.grunt.specs.Odds.{at_most_one, lowered_entries, IsAnswer, AnswersOdd};

use crate::boxes::sifted;
use cutform::Cut;
use cyc::{Entry, Frac, FracError};
use sepodd::{OddCuts, SCALE, is_relaxed, odd_cuts};
use simplex::{Lp, LpAnswer};
use std::alloc::{AllocError, Global};
use worker::OddAnswer;

/// How many pairs a cut that the search met has at most for it to come in. A handle of half of all cities is crossed by hundreds, and such a long row slows
/// each solve down by more than it saves rounds; the least of all comes in however long it is.
const LONGEST: usize = 100;

/// How the search for odd cuts goes on from round to round.
#[derive(Drop)]
pub(crate) struct OddSearch {
    // the last round added cuts of it
    comes_first: bool,
    mean: Option<Frac>,
}

/// Odd cuts that values violate, or, where there is none, what the exact search answered.
#[derive(Drop)]
pub(crate) struct Asked {
    pub(crate) cuts: Vec<Cut>,
    pub(crate) answer: OddAnswer,
}

impl OddSearch {
    /// Nothing was asked yet.
    pub(crate) fn new() -> OddSearch {
        OddSearch {
            comes_first: false,
            mean: None,
        }
    }

    /// What is asked of a program's newest values, where the search comes first.
    pub(crate) fn early(&mut self, alloc: Global, lp: &Lp) -> Result<Option<Asked>, AllocError>
        requires clean { IsClean lp.now }
        ensures cuts { IfOk result (λ o. IfSome o (λ a. All (IsCut lp.now.n) a.cuts.items)) }
        ensures missed { IfOk result (λ o. IfSome o (λ a. All (IsMissed lp.now) a.cuts.items)) }
        ensures few { IfOk result (λ o. IfSome o (λ a. length a.cuts.items ≤ 4096)) }
        ensures solved { IfOk result (λ o. IfSome o (λ a. 1 ≤ length a.cuts.items → HasSolved lp.now.last)) }
        ensures answer { IfOk result (λ o. IfSome o (λ a. length a.cuts.items ≡ 0 → AnswersOdd lp.now.last a.answer)) }
    {
        if !self.comes_first {
            return Ok(None);
        }
        let asked = self.asked(alloc, lp)?;
        Ok(Some(asked))
    }

    /// The odd cuts that a program's newest values violate, or else what the exact search answered. It comes first in the next round where there is such a cut.
    pub(crate) fn asked(&mut self, alloc: Global, lp: &Lp) -> Result<Asked, AllocError>
        requires clean { IsClean lp.now }
        ensures cuts { IfOk result (λ a. All (IsCut lp.now.n) a.cuts.items) }
        ensures missed { IfOk result (λ a. All (IsMissed lp.now) a.cuts.items) }
        ensures few { IfOk result (λ a. length a.cuts.items ≤ 4096) }
        ensures solved { IfOk result (λ a. 1 ≤ length a.cuts.items → HasSolved lp.now.last) }
        ensures answer { IfOk result (λ a. length a.cuts.items ≡ 0 → AnswersOdd lp.now.last a.answer) }
    {
        let asked = match lp.last() {
            Some(LpAnswer::Solved { x, .. }) => self.asked_at(alloc, x)?,
            _ => no_answer(alloc),
        };
        self.comes_first = !asked.cuts.is_empty();
        Ok(asked)
    }

    /// The same at some values.
    fn asked_at(&mut self, alloc: Global, x: &Frac) -> Result<Asked, AllocError>
        ensures worth { IfOk result (λ a. All (IsWorth x.now) a.cuts.items) }
        ensures few { IfOk result (λ a. length a.cuts.items ≤ 4096) }
        ensures answer { IfOk result (λ a. length a.cuts.items ≡ 0 → IsAnswer x.now a.answer) }
    {
        if let Some(half_way) = half_way(alloc, self.mean.take(), x)? {
            let cuts = met_at(alloc, x, &half_way)?;
            if !cuts.is_empty() {
                self.mean = Some(half_way);
                return Ok(Asked {
                    cuts,
                    answer: OddAnswer::NotAsked,
                });
            }
        }
        let newest = cut_down(alloc, x)?;
        let asked = exactly(alloc, x, &newest)?;
        self.mean = Some(newest);
        Ok(asked)
    }
}

/// No cut, and no answer.
fn no_answer(alloc: Global) -> Asked
    ensures none { length result.cuts.items ≡ 0 }
    ensures answer { result.answer ≡ NotAsked }
{
    Asked {
        cuts: Vec::new(alloc),
        answer: OddAnswer::NotAsked,
    }
}

/// Of the odd cuts that a search at other values meets, those that some values violate by 2^10 units or more.
fn met_at(alloc: Global, x: &Frac, other: &Frac) -> Result<Vec<Cut>, AllocError>
    ensures worth { IfOk result (λ cuts. All (IsWorth x.now) cuts.items) }
    ensures few { IfOk result (λ cuts. length cuts.items ≤ 4096) }
{
    if !is_relaxed(other) {
        return Ok(Vec::new(alloc));
    }
    let found = odd_cuts(alloc, other)?;
    let met = short(alloc, found.met)?;
    sifted(alloc, x, met)
}

/// Those of some cuts that are not too long.
fn short(alloc: Global, cuts: Vec<Cut>) -> Result<Vec<Cut>, AllocError> {
    let mut kept = Vec::with_capacity(alloc, cuts.len())?;
    for cut in cuts {
        if cut.pairs().len() <= LONGEST {
            kept.push(cut)?;
        }
    }
    Ok(kept)
}

/// The odd cuts that the search meets at values cut down to one length and that the values as they are violate, or else its answer.
fn exactly(alloc: Global, x: &Frac, newest: &Frac) -> Result<Asked, AllocError>
    requires { newest.now ≡ at_most_one x.now }
    ensures worth { IfOk result (λ a. All (IsWorth x.now) a.cuts.items) }
    ensures few { IfOk result (λ a. length a.cuts.items ≤ 4096) }
    ensures answer { IfOk result (λ a. length a.cuts.items ≡ 0 → IsAnswer x.now a.answer) }
{
    if !is_relaxed(newest) {
        return Ok(no_answer(alloc));
    }
    let OddCuts { least, met } = odd_cuts(alloc, newest)?;
    match least {
        Some(least) => {
            let met = short(alloc, met)?;
            let cuts = worth_of_all(alloc, x, &least.cut, met)?;
            Ok(Asked {
                cuts,
                answer: OddAnswer::Least(least),
            })
        }
        None => Ok(Asked {
            cuts: Vec::new(alloc),
            answer: OddAnswer::NoneBelow,
        }),
    }
}

/// Of a cut and others those that values violate by 2^10 units or more; none only where they violate the first by less.
fn worth_of_all(
    alloc: Global,
    x: &Frac,
    first: &Cut,
    others: Vec<Cut>,
) -> Result<Vec<Cut>, AllocError>
    ensures worth { IfOk result (λ cuts. All (IsWorth x.now) cuts.items) }
    ensures few { IfOk result (λ cuts. length cuts.items ≤ 4096) }
    ensures first { IfOk result (λ cuts. length cuts.items ≡ 0 → is_worth x.now first.now ≡ false) }
{
    let mut all = Vec::new(alloc);
    all.push(first.copy(alloc)?)?;
    let mut rest = others;
    all.append(&mut rest)?;
    sifted(alloc, x, all)
}

/// Values, each cut down to one length.
fn cut_down(alloc: Global, x: &Frac) -> Result<Frac, AllocError>
    ensures { IfOk result (λ y. y ≡ at_most_one x.now) }
{
    let n = x.n();
    let entries = lowered(alloc, x.entries())?;
    match Frac::new(alloc, n, entries) {
        Ok(values) => Ok(values),
        Err(FracError::BadEntry(_)) => unreachable!(),
        Err(FracError::NoMemory) => Err(AllocError),
    }
}

/// Entries, each cut down to one length.
fn lowered(alloc: Global, entries: &[Entry]) -> Result<Vec<Entry>, AllocError>
    ensures { IfOk result (λ v. v.items ≡ lowered_entries entries.now) }
{
    let mut all = Vec::with_capacity(alloc, entries.len())?;
    for entry in entries {
        all.push(Entry {
            u: entry.u,
            v: entry.v,
            x: entry.x.min(SCALE),
        })?;
    }
    Ok(all)
}

/// Values half-way between the mean of former ones, if there is one, and the newest, of which none counts for more than one length. The mean is let go
/// of: a table of all pairs is its greatest part.
fn half_way(alloc: Global, mean: Option<Frac>, newest: &Frac) -> Result<Option<Frac>, AllocError> {
    let Some(mean) = mean else {
        return Ok(None);
    };
    let mut entries = Vec::with_capacity(alloc, newest.entries().len())?;
    add_halves(&mut entries, newest, &mean)?;
    add_halves_left(&mut entries, newest, &mean)?;
    match Frac::new(alloc, newest.n(), entries) {
        Ok(values) => Ok(Some(values)),
        Err(FracError::BadEntry(_)) => Ok(None),
        Err(FracError::NoMemory) => Err(AllocError),
    }
}

/// The pairs of positive newest value.
fn add_halves(entries: &mut Vec<Entry>, newest: &Frac, mean: &Frac) -> Result<(), AllocError> {
    for entry in newest.entries() {
        if entry.x > 0 {
            let other = value_at(mean, *entry);
            entries.push(Entry {
                u: entry.u,
                v: entry.v,
                x: (entry.x.min(SCALE) / 2).saturating_add(other / 2),
            })?;
        }
    }
    Ok(())
}

/// The pairs whose value was positive before, and is no more.
fn add_halves_left(entries: &mut Vec<Entry>, newest: &Frac, mean: &Frac) -> Result<(), AllocError> {
    for entry in mean.entries() {
        if entry.x > 0 && value_at(newest, *entry) == 0 {
            entries.push(Entry {
                u: entry.u,
                v: entry.v,
                x: entry.x / 2,
            })?;
        }
    }
    Ok(())
}

/// The value of an entry's pair, 0 where there are no such cities.
fn value_at(x: &Frac, entry: Entry) -> u32 {
    if entry.u < x.n() && entry.v < x.n() {
        x.x(entry.u, entry.v)
    } else {
        0
    }
}
