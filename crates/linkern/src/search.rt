//! The Lin-Kernighan step.
//!
//! One step of the tour, from `t1` to `t2`, is taken out: what is left is a path from `t2` to `t1`. A near city `t3` of its
//! first city `t2` is joined to it, and the step from the city `t4` before `t3` is taken out: so the part of the path up to
//! `t4` is turned round, and it begins with `t4`. The gain so far must stay above the best that a path closed up to a tour
//! has given; at the first depths several choices are tried, behind them the best alone. Beside these there is one exchange
//! of three steps whose first two would leave a cycle and a path.
//!
//! The tour itself is not touched while this goes on: the path is a list of parts of the tour, each read forwards or
//! backwards, one more at each depth, and a city's neighbour is found by its rank. Only where a better tour was found its
//! turns are made. A step that was added lies between two parts, so it is never taken out again. Nor is a fixed step taken out.
//! Cost of one call: O(1) choices at O(depth) each, and O(n) at most for each turn of a better tour.
//! Source: Lin and Kernighan 1973; Johnson and McGeoch 1997.

use crate::ground::{Ground, View};
use std::alloc::{AllocError, Global};

const NO_GAIN: i64 = i64::MIN;

/// How many steps are added at most.
const DEPTH: usize = 8;

/// How many cities of each of two near lists are looked at for the exchange of three steps.
const CYCLE_WIDTH: usize = 5;

/// A part of the tour, from one rank to another: forwards where the first is no greater.
#[derive(Clone, Copy)]
struct Part {
    first: u32,
    last: u32,
}

/// A city that the path's first is joined to, and that before it, from which the path then begins.
#[derive(Clone, Copy)]
struct Choice {
    /// The gain while the path is open.
    open: i64,
    end: u32,
    part: u32,
    near_rank: u32,
    end_rank: u32,
}

const NO_CHOICE: Choice = Choice {
    open: NO_GAIN,
    end: 0,
    part: 0,
    near_rank: 0,
    end_rank: 0,
};

/// The exchange of three steps that leaves a cycle in between.
#[derive(Clone, Copy)]
struct Cycle {
    open: i64,
    near: u32,
    inner: u32,
    last: u32,
    near_rank: u32,
    inner_rank: u32,
    ahead: bool,
}

const NO_CYCLE: Cycle = Cycle {
    open: NO_GAIN,
    near: 0,
    inner: 0,
    last: 0,
    near_rank: 0,
    inner_rank: 0,
    ahead: false,
};

/// A depth of the search: the path's first city, its parts, and its choices, of which the last is the next to be tried.
#[derive(Clone, Copy)]
struct Level {
    first: u32,
    /// Where the parts begin, and how many there are.
    start: usize,
    count: usize,
    /// How many turns lead here.
    turns: usize,
    /// How many choices there are of the depths above.
    above: usize,
}

/// A search from one step of the tour.
#[derive(Drop)]
pub(crate) struct Search {
    levels: Vec<Level>,
    parts: Vec<Part>,
    choices: Vec<Choice>,
    turns: Vec<(u32, u32)>,
    best: Vec<(u32, u32)>,
    gain: i64,
}

/// How many choices are tried at a depth.
#[inline]
fn breadth(depth: usize) -> usize {
    match depth {
        0 => 5,
        1 => 3,
        2 => 2,
        _ => 1,
    }
}

/// The part that has a rank, and its place among the parts.
#[inline]
fn part_of(parts: &[Part], rank: u32) -> Option<(u32, Part)> {
    let mut place = 0u32;
    for part in parts {
        let inside = if part.first <= part.last {
            part.first <= rank && rank <= part.last
        } else {
            part.last <= rank && rank <= part.first
        };
        if inside {
            return Some((place, *part));
        }
        place = place.wrapping_add(1);
    }
    None
}

/// The best choices of a path's first city, the most open first.
fn choices(
    ground: &Ground,
    view: View,
    parts: &[Part],
    t1: u32,
    t2: u32,
    gain: i64,
    least: i64,
    ways: usize,
) -> [Choice; 5] {
    let mut best = [NO_CHOICE; 5];
    for near in ground.near(t2) {
        let rest = gain.wrapping_sub(i64::from(near.far));
        if rest <= least {
            break;
        }
        let t3 = near.city;
        if t3 == t1 {
            continue;
        }
        let near_rank = ground.rank(view, t3);
        let Some((place, part)) = part_of(parts, near_rank) else {
            continue;
        };
        if near_rank == part.first {
            continue;
        }
        let end_rank = if part.first <= part.last {
            near_rank.wrapping_sub(1)
        } else {
            near_rank.wrapping_add(1)
        };
        let end = ground.ranked(view, end_rank);
        if end == t2 || ground.is_fixed(t3, end) {
            continue;
        }
        let mut held = Choice {
            open: rest.wrapping_add(ground.d(t3, end)),
            end,
            part: place,
            near_rank,
            end_rank,
        };
        for slot in best.iter_mut().take(ways) {
            if held.open > slot.open {
                let other = *slot;
                *slot = held;
                held = other;
            }
        }
    }
    best
}

/// The best exchanges of three steps that leave a cycle in between, the most open first.
fn cycles(ground: &Ground, view: View, t1: u32, t2: u32) -> [Cycle; 3] {
    let mut best = [NO_CYCLE; 3];
    let gain = ground.d(t1, t2);
    for near in ground.near(t2).iter().take(CYCLE_WIDTH) {
        let rest = gain.wrapping_sub(i64::from(near.far));
        if rest <= 0 {
            break;
        }
        let near_rank = ground.rank(view, near.city);
        if near.city == t1 || near_rank <= 1 {
            continue;
        }
        let t4 = ground.ranked(view, near_rank.wrapping_add(1));
        if ground.is_fixed(near.city, t4) {
            continue;
        }
        let open = rest.wrapping_add(ground.d(near.city, t4));
        for other in ground.near(t4).iter().take(CYCLE_WIDTH) {
            let rest = open.wrapping_sub(i64::from(other.far));
            if rest <= 0 {
                break;
            }
            let inner_rank = ground.rank(view, other.city);
            if inner_rank >= near_rank {
                continue;
            }
            for ahead in [true, false] {
                if !ahead && inner_rank == 0 {
                    continue;
                }
                let last_rank = if ahead {
                    inner_rank.wrapping_add(1)
                } else {
                    inner_rank.wrapping_sub(1)
                };
                let last = ground.ranked(view, last_rank);
                if ground.is_fixed(other.city, last) {
                    continue;
                }
                let mut held = Cycle {
                    open: rest.wrapping_add(ground.d(other.city, last)),
                    near: near.city,
                    inner: other.city,
                    last,
                    near_rank,
                    inner_rank,
                    ahead,
                };
                for slot in best.iter_mut() {
                    if held.open > slot.open {
                        let other = *slot;
                        *slot = held;
                        held = other;
                    }
                }
            }
        }
    }
    best
}

impl Search {
    pub(crate) fn new(alloc: Global) -> Search {
        Search {
            levels: Vec::new(alloc),
            parts: Vec::new(alloc),
            choices: Vec::new(alloc),
            turns: Vec::new(alloc),
            best: Vec::new(alloc),
            gain: 0,
        }
    }

    /// The paths to be turned round for the better tour that was found, each from one city to another.
    pub(crate) fn best(&self) -> &[(u32, u32)] {
        &self.best
    }

    fn part(&self, place: usize) -> Part {
        match self.parts.get(place) {
            Some(part) => *part,
            None => Part { first: 0, last: 0 },
        }
    }

    /// The parts of the path of the last depth, which lie from a place on.
    fn parts_from(&self, start: usize) -> &[Part] {
        match self.parts.get(start..) {
            Some(parts) => parts,
            None => &[],
        }
    }

    /// Goes one depth down: to the path that begins with `first` and has the parts from `start` on.
    fn enter(
        &mut self,
        ground: &Ground,
        view: View,
        t1: u32,
        first: u32,
        open: i64,
        start: usize,
        depth: usize,
    ) -> Result<(), AllocError> {
        let parts = self.parts_from(start);
        let count = parts.len();
        let best = choices(
            ground,
            view,
            parts,
            t1,
            first,
            open,
            self.gain,
            breadth(depth),
        );
        self.levels.push(Level {
            first,
            start,
            count,
            turns: self.turns.len(),
            above: self.choices.len(),
        })?;
        for choice in best.iter().rev() {
            if choice.open > NO_GAIN {
                self.choices.push(*choice)?;
            }
        }
        Ok(())
    }

    /// Adds the parts of the path after a choice.
    fn add_parts(&mut self, level: &Level, choice: &Choice) -> Result<(), AllocError> {
        let place = choice.part as usize;
        let split = self.part(level.start.wrapping_add(place));
        self.parts.push(Part {
            first: choice.end_rank,
            last: split.first,
        })?;
        for back in 0..place {
            let part = self.part(
                level
                    .start
                    .wrapping_add(place)
                    .wrapping_sub(1)
                    .wrapping_sub(back),
            );
            self.parts.push(Part {
                first: part.last,
                last: part.first,
            })?;
        }
        self.parts.push(Part {
            first: choice.near_rank,
            last: split.last,
        })?;
        for behind in place.wrapping_add(1)..level.count {
            let part = self.part(level.start.wrapping_add(behind));
            self.parts.push(part)?;
        }
        Ok(())
    }

    /// Keeps the turns so far, where a tour that closes up with this gain is the best yet.
    fn close(&mut self, gain: i64) -> Result<(), AllocError> {
        if gain > self.gain {
            self.gain = gain;
            self.best.clear();
            self.best.extend_from_slice(&self.turns)?;
        }
        Ok(())
    }

    /// Takes the next choice of the last depth, or leaves it where there is none. Whether the search goes on.
    fn advance(
        &mut self,
        ground: &Ground,
        view: View,
        t1: u32,
        above: usize,
    ) -> Result<bool, AllocError> {
        let depth = self.levels.len().wrapping_add(above);
        let Some(level) = self.levels.last().copied() else {
            return Ok(false);
        };
        if self.choices.len() <= level.above {
            self.levels
                .truncate(depth.wrapping_sub(above).wrapping_sub(1));
            self.parts.truncate(level.start);
            return Ok(self.gain <= 0);
        }
        let Some(choice) = self.choices.pop() else {
            return Ok(false);
        };
        self.turns.truncate(level.turns);
        self.turns.push((level.first, choice.end))?;
        self.close(choice.open.wrapping_sub(ground.d(choice.end, t1)))?;
        if depth < DEPTH && choice.open > self.gain {
            let start = self.parts.len();
            self.add_parts(&level, &choice)?;
            self.enter(ground, view, t1, choice.end, choice.open, start, depth)?;
            return Ok(true);
        }
        Ok(self.gain <= 0)
    }

    /// Searches on from the last depth, with so many steps added above it.
    fn explore(
        &mut self,
        ground: &Ground,
        view: View,
        t1: u32,
        above: usize,
    ) -> Result<(), AllocError> {
        for _ in 0..1_000_000u32 {
            if !self.advance(ground, view, t1, above)? {
                break;
            }
        }
        self.levels.clear();
        self.parts.clear();
        self.choices.clear();
        Ok(())
    }

    /// Searches on from the path after an exchange of three steps.
    fn explore_cycle(
        &mut self,
        ground: &Ground,
        view: View,
        t1: u32,
        t2: u32,
        cycle: &Cycle,
    ) -> Result<(), AllocError> {
        self.turns.clear();
        if cycle.ahead {
            self.turns.push((t2, cycle.near))?;
            self.turns.push((cycle.near, cycle.last))?;
            self.turns.push((cycle.inner, t2))?;
            self.parts.push(Part {
                first: cycle.inner_rank.wrapping_add(1),
                last: cycle.near_rank,
            })?;
            self.parts.push(Part {
                first: 0,
                last: cycle.inner_rank,
            })?;
        } else {
            self.turns.push((t2, cycle.last))?;
            self.turns.push((cycle.inner, cycle.near))?;
            self.parts.push(Part {
                first: cycle.inner_rank.wrapping_sub(1),
                last: 0,
            })?;
            self.parts.push(Part {
                first: cycle.near_rank,
                last: cycle.inner_rank,
            })?;
        }
        self.parts.push(Part {
            first: cycle.near_rank.wrapping_add(1),
            last: ground.n().wrapping_sub(1),
        })?;
        self.close(cycle.open.wrapping_sub(ground.d(cycle.last, t1)))?;
        if cycle.open > self.gain {
            self.enter(ground, view, t1, cycle.last, cycle.open, 0, 2)?;
        }
        self.explore(ground, view, t1, 2)
    }

    /// Looks for a better tour without the step from `t1` to `t2`, which is the next city, or the one before where the tour
    /// is read against its direction. By how much it is shorter; 0 where none was found, and where that step is fixed.
    pub(crate) fn from_step(
        &mut self,
        ground: &Ground,
        t1: u32,
        t2: u32,
        against: bool,
    ) -> Result<i64, AllocError> {
        let view = ground.view(t2, against);
        self.gain = 0;
        self.best.clear();
        self.turns.clear();
        if ground.is_fixed(t1, t2) {
            return Ok(0);
        }
        self.parts.push(Part {
            first: 0,
            last: ground.n().wrapping_sub(1),
        })?;
        self.enter(ground, view, t1, t2, ground.d(t1, t2), 0, 0)?;
        self.explore(ground, view, t1, 0)?;
        if self.gain > 0 {
            return Ok(self.gain);
        }
        for cycle in &cycles(ground, view, t1, t2) {
            if cycle.open == NO_GAIN {
                break;
            }
            self.explore_cycle(ground, view, t1, t2, cycle)?;
            if self.gain > 0 {
                break;
            }
        }
        Ok(self.gain)
    }
}
