//! Steps until none is found, and kicks.

use crate::ground::{Ground, View};
use crate::search::Search;
use cyc::Tour;
use flips::ArrayTour;
use neigh::Neigh;
use rand_core::SeedableRng;
use rand_core::utils::NextWord;
use rand_pcg::Pcg32;
use std::alloc::{AllocError, Global};
use tspinst::Instance;

/// How far apart the steps that a kick takes out are at most.
const REACH: u32 = 60;

/// A tour under work, and the cities at which it may be made shorter.
#[derive(Drop)]
struct Work<'a> {
    ground: Ground<'a>,
    search: Search,
    queue: Vec<u32>,
    waits: Vec<bool>,
    random: Pcg32,
}

impl<'a> Work<'a> {
    /// Puts a city into the queue, if it does not wait there.
    fn wait(&mut self, a: u32) -> Result<(), AllocError> {
        if let Some(waits) = self.waits.get_mut(a as usize) {
            if !*waits {
                *waits = true;
                self.queue.push(a)?;
            }
        }
        Ok(())
    }

    /// Turns a path round; its ends and the cities beside them wait.
    fn turn(&mut self, b: u32, c: u32) -> Result<(), AllocError> {
        let before = self.ground.prev(b);
        let behind = self.ground.next(c);
        self.ground.turn(b, c)?;
        for city in [before, b, c, behind] {
            self.wait(city)?;
        }
        Ok(())
    }

    /// Makes the turns of the better tour that was found.
    fn make(&mut self, against: bool) -> Result<(), AllocError> {
        for place in 0..self.search.best().len() {
            if let Some((b, c)) = self.search.best().get(place).copied() {
                if against {
                    self.turn(c, b)?;
                } else {
                    self.turn(b, c)?;
                }
            }
        }
        Ok(())
    }

    /// Makes the tour shorter at a city, if it finds how; by how much.
    fn better(&mut self, a: u32) -> Result<i64, AllocError> {
        for against in [false, true] {
            let b = if against {
                self.ground.prev(a)
            } else {
                self.ground.next(a)
            };
            let gain = self.search.from_step(&self.ground, a, b, against)?;
            if gain > 0 {
                self.make(against)?;
                return Ok(gain);
            }
        }
        Ok(0)
    }

    /// Works at a city until nothing more is found there; by how much the tour became shorter.
    fn search_at(&mut self, a: u32) -> Result<i64, AllocError> {
        let mut all: i64 = 0;
        for _ in 0..1_000_000u32 {
            let gain = self.better(a)?;
            if gain <= 0 {
                break;
            }
            all = all.wrapping_add(gain);
        }
        Ok(all)
    }

    /// Works off the queue, the first first; by how much the tour became shorter.
    fn drain(&mut self) -> Result<i64, AllocError> {
        let mut all: i64 = 0;
        for place in 0..1_000_000_000usize {
            let Some(a) = self.queue.get(place).copied() else {
                break
            };
            if let Some(waits) = self.waits.get_mut(a as usize) {
                *waits = false;
            }
            all = all.wrapping_add(self.search_at(a)?);
        }
        self.queue.clear();
        Ok(all)
    }

    /// All cities are worked at.
    fn start(&mut self) -> Result<(), AllocError> {
        let view = self.ground.view(0, false);
        for rank in 0..self.ground.n() {
            let city = self.ground.ranked(view, rank);
            self.wait(city)?;
        }
        let _gain = self.drain()?;
        self.ground.forget();
        Ok(())
    }

    /// A number below `n` that is drawn.
    fn below(&mut self, n: u32) -> u32 {
        ((u64::from(self.random.next_word()).wrapping_mul(u64::from(n)) >> 32) & 0xffff_ffff) as u32
    }

    /// The first rank from one on at which the step onward is not fixed; the number of cities where there is none.
    fn free_from(&self, view: View, rank: u32) -> u32 {
        if !self.ground.fixes() {
            return rank;
        }
        let n = self.ground.n();
        for free in rank..n {
            let here = self.ground.ranked(view, free);
            let there = self.ground.ranked(view, free.wrapping_add(1));
            if !self.ground.is_fixed(here, there) {
                return free;
            }
        }
        n
    }

    /// A double bridge: two neighbouring short paths of the tour change places, each between two steps that are not fixed. By how
    /// much it became longer; where too few steps are free it stays as it is.
    fn kick(&mut self) -> Result<i64, AllocError> {
        let n = self.ground.n();
        let reach = (n / 2).min(REACH);
        let start = self.below(n);
        let mut cuts = [self.below(reach), self.below(reach), self.below(reach)];
        cuts.sort_unstable();
        let view = self.ground.view(start, false);
        let one = self.free_from(view, cuts[0]);
        let two = self.free_from(view, cuts[1].max(one.wrapping_add(1)));
        let three = self.free_from(view, cuts[2].max(two.wrapping_add(1)));
        if three >= n {
            return Ok(0);
        }
        let p = self.ground.ranked(view, one);
        let s1 = self.ground.ranked(view, one.wrapping_add(1));
        let e1 = self.ground.ranked(view, two);
        let s2 = self.ground.ranked(view, two.wrapping_add(1));
        let e2 = self.ground.ranked(view, three);
        let q = self.ground.ranked(view, three.wrapping_add(1));
        let before = self
            .ground
            .d(p, s1)
            .wrapping_add(self.ground.d(e1, s2))
            .wrapping_add(self.ground.d(e2, q));
        let after = self
            .ground
            .d(p, s2)
            .wrapping_add(self.ground.d(e2, s1))
            .wrapping_add(self.ground.d(e1, q));
        self.turn(s1, e2)?;
        self.turn(e2, s2)?;
        self.turn(e1, s1)?;
        Ok(after.wrapping_sub(before))
    }

    /// Kicks so often, each time works at the cities around it, and turns all of it back where the tour is not shorter.
    fn kicks(&mut self, count: u32) -> Result<(), AllocError> {
        if self.ground.n() < 8 {
            return Ok(());
        }
        for _ in 0..count {
            self.ground.forget();
            let longer = self.kick()?;
            let gain = self.drain()?.wrapping_sub(longer);
            if gain <= 0 {
                self.ground.undo();
            }
        }
        Ok(())
    }
}

/// A tour that the search found from another on; nothing is known of it but that it is one.
pub(crate) fn searched(
    alloc: Global,
    instance: &Instance,
    near: &Neigh,
    tour: &Tour,
    kicks: u32,
    seed: u64,
) -> Result<ArrayTour, AllocError> {
    let ground = Ground::new(alloc, instance, near, ArrayTour::new(alloc, tour)?)?;
    let waits = vec![in alloc; false; ground.n() as usize]?;
    let mut work = Work {
        ground,
        search: Search::new(alloc),
        queue: Vec::new(alloc),
        waits,
        random: Pcg32::seed_from_u64(seed),
    };
    work.start()?;
    work.kicks(kicks)?;
    Ok(work.ground.into_tour())
}
