//! The best odd set of disjoint intervals as the teeth of a handle.
//!
//! Along the order, the best even and the best odd number of teeth that end before each place is kept, with the last one of them: those
//! before it are the best of the other parity that end before its first place. An interval has a city in the handle and one outside
//! where there is a turn in it: a place of one kind, inside or outside, after one of the other. So only the places that intervals
//! with a turn in them reach are gone over, and each interval is looked at once at most: a handle costs O(longest tooth) for each turn,
//! and the intervals that end there.
use crate::intervals::{Interval, Intervals, LONG, narrow};
use std::alloc::{AllocError, Global};

/// Less than any teeth are worth, in units.
const NONE: i64 = -0x1000_0000_0000_0000;

/// A tooth: its first place, and the place after its last one.
#[derive(Clone, Copy)]
pub(crate) struct Tooth {
    pub(crate) from: u32,
    pub(crate) end: u32,
}

/// No tooth: it has no places.
const NO_TOOTH: Tooth = Tooth { from: 0, end: 0 };

/// The best teeth of one parity that end before a place.
#[derive(Clone, Copy)]
struct Best {
    /// What they are worth together, in units.
    worth: i64,
    /// The last one of them.
    tooth: Tooth,
}

impl Best {
    /// The better one of these teeth, and of others and an interval after them that ends before a place.
    #[inline]
    fn or(self, others: Best, interval: Interval, end: usize) -> Best {
        let worth = others.worth.saturating_add(interval.worth);
        if worth > self.worth {
            let tooth = Tooth {
                from: interval.from,
                end: narrow(end),
            };
            Best { worth, tooth }
        } else {
            self
        }
    }
}

/// What is known of a place: the best teeth that end before it.
#[derive(Clone, Copy)]
pub(crate) struct Step {
    even: Best,
    odd: Best,
}

/// The step at the first place.
const START: Step = Step {
    even: Best {
        worth: 0,
        tooth: NO_TOOTH,
    },
    odd: Best {
        worth: NONE,
        tooth: NO_TOOTH,
    },
};

impl Step {
    /// What the best odd set of teeth is worth, in units; less than any are where there is none.
    pub(crate) fn worth(self) -> i64 {
        self.odd.worth
    }
}

/// Room for the steps along an order of n cities.
pub(crate) fn room_for_steps(alloc: Global, n: usize) -> Result<Vec<Step>, AllocError> {
    let mut steps = vec![in alloc; START; n]?;
    steps.push(START)?;
    Ok(steps)
}

/// The step at a place.
#[inline]
fn step_at(steps: &[Step], place: usize) -> Step {
    match steps.get(place) {
        Some(step) => *step,
        None => START,
    }
}

/// Puts the step at a place.
#[inline]
fn put_step(steps: &mut [Step], place: usize, step: Step) {
    if let Some(old) = steps.get_mut(place) {
        *old = step;
    }
}

/// Goes along the order for a handle with these turns, which rise, and gives the step at its end.
///
/// Of the steps only those are put that are asked for: places before a turn from which an interval may reach over it, and places after
/// one where such an interval may end.
pub(crate) fn go_along(intervals: &Intervals, turns: &[usize], steps: &mut [Step]) -> Step {
    let mut known = 0;
    put_step(steps, 0, START);
    for (number, turn) in turns.iter().enumerate() {
        stand_still(steps, known, *turn);
        let next = match turns.get(number.wrapping_add(1)) {
            Some(next) => *next,
            None => intervals.order().len(),
        };
        known = turn.saturating_add(LONG).min(next);
        pass_turn(intervals, steps, *turn, known);
    }
    step_at(steps, known)
}

/// Puts the step at a place to the places up to a turn from which an interval may reach over it. No tooth ends between.
fn stand_still(steps: &mut [Step], known: usize, turn: usize) {
    let step = step_at(steps, known);
    let first = turn.saturating_sub(LONG).max(known.wrapping_add(1));
    for place in first..turn.wrapping_add(1) {
        put_step(steps, place, step);
    }
}

/// Goes on from a turn to a place.
fn pass_turn(intervals: &Intervals, steps: &mut [Step], turn: usize, to: usize) {
    let mut step = step_at(steps, turn);
    for last in turn..to {
        step = next_step(intervals, steps, step, turn, last);
        put_step(steps, last.wrapping_add(1), step);
    }
}

/// The step after a place, whose last turn is this: it lies in the intervals that begin before it.
#[inline]
fn next_step(
    intervals: &Intervals,
    steps: &[Step],
    before: Step,
    turn: usize,
    last: usize,
) -> Step {
    let mut next = before;
    let end = last.wrapping_add(1);
    for interval in intervals.ending_at(last) {
        if (interval.from as usize) < turn {
            let first = step_at(steps, interval.from as usize);
            next.even = next.even.or(first.odd, *interval, end);
            next.odd = next.odd.or(first.even, *interval, end);
        }
    }
    next
}

/// The teeth of the best odd set at the end of the order, from the last one on.
pub(crate) fn teeth_back(
    alloc: Global,
    steps: &[Step],
    end: Step,
) -> Result<Vec<Tooth>, AllocError> {
    let mut teeth = Vec::new(alloc);
    let mut best = end.odd;
    let mut odd = true;
    for _ in 0..steps.len() {
        if best.tooth.end > 0 {
            teeth.push(best.tooth)?;
            odd = !odd;
            let step = step_at(steps, best.tooth.from as usize);
            best = if odd { step.odd } else { step.even };
        }
    }
    Ok(teeth)
}
