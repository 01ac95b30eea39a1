//! Intervals of an order of the cities that may be teeth.
use crate::support::Support;
use std::alloc::{AllocError, Global};

/// One length, in units.
pub(crate) const ONE: i64 = 0x10_0000;

/// How much a tooth has to be worth, in units: a twentieth of one length.
const LEAST: i64 = ONE / 20;

/// How many cities a tooth has at most.
pub(crate) const LONG: usize = 60;

/// An interval of an order: the places from its first one up to, not with, its end.
#[derive(Clone, Copy)]
pub(crate) struct Interval {
    pub(crate) from: u32,
    /// Three lengths less its crossing weight, in units: what it adds as a tooth to how much the values violate a comb.
    pub(crate) worth: i64,
}

/// The intervals of an order of the cities that may be teeth.
#[derive(Drop)]
pub(crate) struct Intervals {
    order: Vec<u32>,
    /// The place of each city in the order.
    places: Vec<u32>,
    /// By their ends.
    list: Vec<Interval>,
    /// Up to where in the list those stand that end before a place.
    firsts: Vec<usize>,
}

/// A place as it stands in a list.
#[inline]
pub(crate) fn narrow(place: usize) -> u32 {
    (place & 0xffff_ffff) as u32
}

impl Intervals {
    /// The intervals of an order of two cities or more, of at most sixty and at most half of all, whose crossing weight is less than
    /// 2.95 lengths.
    ///
    /// O(n * longest tooth * pairs of a city).
    pub(crate) fn of(
        alloc: Global,
        support: &Support,
        order: &[u32],
    ) -> Result<Intervals, AllocError> {
        let n = order.len();
        let mut intervals = Intervals {
            order: Vec::from_slice(alloc, order)?,
            places: vec![in alloc; 0; n]?,
            list: Vec::new(alloc),
            firsts: Vec::new(alloc),
        };
        intervals.find_places();
        intervals.firsts.push(0)?;
        for end in 0..n {
            intervals.add_ending_at(support, end)?;
            let many = intervals.list.len();
            intervals.firsts.push(many)?;
        }
        Ok(intervals)
    }

    /// Where each city stands.
    fn find_places(&mut self) {
        for (place, city) in self.order.iter().enumerate() {
            if let Some(of) = self.places.get_mut(*city as usize) {
                *of = narrow(place);
            }
        }
    }

    /// Adds the intervals whose last place is this.
    fn add_ending_at(&mut self, support: &Support, last: usize) -> Result<(), AllocError> {
        let longest = LONG.min(self.order.len() / 2);
        let least = last.saturating_sub(longest.saturating_sub(1));
        let mut crossing: i64 = 0;
        for from in (least..last.wrapping_add(1)).rev() {
            crossing = crossing.wrapping_add(self.change(support, from, last));
            let worth = (3 * ONE).wrapping_sub(crossing);
            if from < last && worth > LEAST {
                self.list.push(Interval {
                    from: narrow(from),
                    worth,
                })?;
            }
        }
        Ok(())
    }

    /// By how much the crossing weight of an interval rises where the city before it joins it.
    #[inline]
    fn change(&self, support: &Support, from: usize, last: usize) -> i64 {
        let mut change: i64 = 0;
        for arm in support.arms(self.city(from)) {
            let place = self.place(arm.city);
            if place > from && place <= last {
                change = change.wrapping_sub(i64::from(arm.value));
            } else {
                change = change.wrapping_add(i64::from(arm.value));
            }
        }
        change
    }

    /// The city at a place of the order.
    #[inline]
    pub(crate) fn city(&self, place: usize) -> u32 {
        match self.order.get(place) {
            Some(city) => *city,
            None => 0,
        }
    }

    /// The place of a city in the order.
    #[inline]
    pub(crate) fn place(&self, city: u32) -> usize {
        match self.places.get(city as usize) {
            Some(place) => *place as usize,
            None => 0,
        }
    }

    /// The cities in their order.
    pub(crate) fn order(&self) -> &[u32] {
        &self.order
    }

    /// The intervals with this last place.
    #[inline]
    pub(crate) fn ending_at(&self, last: usize) -> &[Interval] {
        let from = self.first(last);
        let to = self.first(last.wrapping_add(1));
        match self.list.get(from..to) {
            Some(list) => list,
            None => &[],
        }
    }

    /// Where in the list those with this last place begin.
    #[inline]
    fn first(&self, last: usize) -> usize {
        match self.firsts.get(last) {
            Some(first) => *first,
            None => 0,
        }
    }
}
