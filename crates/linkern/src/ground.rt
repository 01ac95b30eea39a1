//! What the search stands on: the distances, the near lists, and the tour with a log of the paths turned round in it.
//!
//! Nothing is proved of the search but that it is safe and ends: a city or a place out of range, which never comes, counts
//! as 0, and sums wrap.

use flips::ArrayTour;
use neigh::Neigh;
use std::alloc::{AllocError, Global};
use tspinst::Instance;

/// The most cities of each near list that the search looks at.
const WIDTH: u32 = 8;

/// A near city, and how far it is.
#[derive(Clone, Copy)]
pub(crate) struct Nearby {
    pub(crate) city: u32,
    pub(crate) far: u32,
}

/// The tour as a path: the cities from a start on, which has rank 0, in one of the two directions.
#[derive(Clone, Copy)]
pub(crate) struct View {
    start: u32,
    against: bool,
}

/// The distances, the near lists, and the tour.
#[derive(Drop)]
pub(crate) struct Ground<'a> {
    instance: &'a Instance,
    near: Vec<Nearby>,
    width: usize,
    tour: ArrayTour,
    log: Vec<(u32, u32)>,
    /// Whether any pair is fixed.
    fixes: bool,
}

impl<'a> Ground<'a> {
    pub(crate) fn new(
        alloc: Global,
        instance: &'a Instance,
        near: &Neigh,
        tour: ArrayTour,
    ) -> Result<Ground<'a>, AllocError> {
        let width = near.k().min(WIDTH) as usize;
        let mut ground = Ground {
            instance,
            near: Vec::new(alloc),
            width,
            tour,
            log: Vec::new(alloc),
            fixes: !instance.fixed().is_empty(),
        };
        for city in 0..near.n() {
            ground.add_row(city, near.of(city))?;
        }
        Ok(ground)
    }

    /// Adds the list of a city, with the distances.
    fn add_row(&mut self, from: u32, list: &[u32]) -> Result<(), AllocError> {
        for city in list.iter().take(self.width) {
            let far = self.far(from, *city);
            self.near.push(Nearby { city: *city, far })?;
        }
        Ok(())
    }

    /// How many cities there are.
    #[inline]
    pub(crate) fn n(&self) -> u32 {
        self.tour.n()
    }

    /// The tour.
    pub(crate) fn into_tour(self) -> ArrayTour {
        self.tour
    }

    #[inline]
    fn far(&self, a: u32, b: u32) -> u32 {
        let n = self.instance.n();
        if a < n && b < n {
            self.instance.d(a, b)
        } else {
            0
        }
    }

    /// The distance of two cities.
    #[inline]
    pub(crate) fn d(&self, a: u32, b: u32) -> i64 {
        i64::from(self.far(a, b))
    }

    /// Whether any pair is fixed.
    #[inline]
    pub(crate) fn fixes(&self) -> bool {
        self.fixes
    }

    /// Whether a step may not be taken out.
    #[inline]
    pub(crate) fn is_fixed(&self, a: u32, b: u32) -> bool {
        self.fixes && self.instance.is_fixed(a, b)
    }

    /// The cities near to one, the nearest first.
    #[inline]
    pub(crate) fn near(&self, a: u32) -> &[Nearby] {
        let start = (a as usize).wrapping_mul(self.width);
        match self.near.get(start..start.wrapping_add(self.width)) {
            Some(row) => row,
            None => &[],
        }
    }

    #[inline]
    pub(crate) fn next(&self, a: u32) -> u32 {
        if a < self.tour.n() {
            self.tour.next(a)
        } else {
            0
        }
    }

    #[inline]
    pub(crate) fn prev(&self, a: u32) -> u32 {
        if a < self.tour.n() {
            self.tour.prev(a)
        } else {
            0
        }
    }

    #[inline]
    fn place(&self, a: u32) -> u32 {
        if a < self.tour.n() {
            self.tour.place(a)
        } else {
            0
        }
    }

    #[inline]
    fn at(&self, place: u32) -> u32 {
        if place < self.tour.n() {
            self.tour.at(place)
        } else {
            0
        }
    }

    /// The tour as a path from a city on, in its direction or against it.
    #[inline]
    pub(crate) fn view(&self, start: u32, against: bool) -> View {
        View {
            start: self.place(start),
            against,
        }
    }

    /// How many steps a city is behind the start.
    #[inline]
    pub(crate) fn rank(&self, view: View, a: u32) -> u32 {
        let place = self.place(a);
        let (from, to) = if view.against {
            (place, view.start)
        } else {
            (view.start, place)
        };
        if from <= to {
            to - from
        } else {
            to.wrapping_sub(from).wrapping_add(self.tour.n())
        }
    }

    /// The city so many steps behind the start.
    #[inline]
    pub(crate) fn ranked(&self, view: View, rank: u32) -> u32 {
        let n = self.tour.n();
        if view.against {
            if rank <= view.start {
                self.at(view.start - rank)
            } else {
                self.at(view.start.wrapping_sub(rank).wrapping_add(n))
            }
        } else {
            let place = view.start.wrapping_add(rank);
            self.at(if place < n { place } else { place - n })
        }
    }

    /// Turns the path from `b` on to `c` round, and logs it.
    pub(crate) fn turn(&mut self, b: u32, c: u32) -> Result<(), AllocError> {
        let n = self.tour.n();
        if b < n && c < n {
            self.tour.reverse_path(b, c);
            self.log.push((b, c))?;
        }
        Ok(())
    }

    /// Turns back what was logged, the last first.
    pub(crate) fn undo(&mut self) {
        for _ in 0..self.log.len() {
            let Some((b, c)) = self.log.pop() else { return };
            let n = self.tour.n();
            if b < n && c < n {
                self.tour.reverse_path(c, b);
            }
        }
    }

    /// Forgets what was logged.
    pub(crate) fn forget(&mut self) {
        self.log.clear();
    }
}
