//! The handle at work. Its room is kept through all handles, so that a handle costs nothing for cities that are far from it.
use crate::intervals::Intervals;
use crate::programming::{Step, room_for_steps};
use crate::support::Support;
use sepblos::{is_marked, mark};
use std::alloc::{AllocError, Global};

/// A handle: its cities, marks on them, and room for what is known of the order.
#[derive(Drop)]
pub(crate) struct Room {
    cities: Vec<u32>,
    pub(crate) inside: Vec<bool>,
    /// The places, in rising order, whose city is inside where the one before is outside, or the other way round.
    pub(crate) turns: Vec<usize>,
    pub(crate) steps: Vec<Step>,
}

impl Room {
    /// Room for handles of n cities.
    pub(crate) fn of(alloc: Global, n: usize) -> Result<Room, AllocError> {
        Ok(Room {
            cities: Vec::new(alloc),
            inside: vec![in alloc; false; n]?,
            turns: Vec::new(alloc),
            steps: room_for_steps(alloc, n)?,
        })
    }

    /// Makes these cities the handle.
    pub(crate) fn take(&mut self, cities: &[u32]) -> Result<(), AllocError> {
        for city in &self.cities {
            set_mark(&mut self.inside, *city, false);
        }
        self.cities.clear();
        self.cities.extend_from_slice(cities)?;
        mark(&mut self.inside, cities);
        Ok(())
    }

    /// Takes one city more into the handle.
    pub(crate) fn join(&mut self, city: u32) -> Result<(), AllocError> {
        self.cities.push(city)?;
        set_mark(&mut self.inside, city, true);
        Ok(())
    }

    /// Takes the last city out of the handle.
    pub(crate) fn leave(&mut self) {
        if let Some(city) = self.cities.pop() {
            set_mark(&mut self.inside, city, false);
        }
    }

    /// Finds the turns: each is at a city of the handle, or right after one.
    pub(crate) fn find_turns(&mut self, intervals: &Intervals) -> Result<(), AllocError> {
        self.turns.clear();
        for city in &self.cities {
            let place = intervals.place(*city);
            let next = place.wrapping_add(1);
            if place > 0 && !is_marked(&self.inside, intervals.city(place.wrapping_sub(1))) {
                self.turns.push(place)?;
            }
            if next < intervals.order().len() && !is_marked(&self.inside, intervals.city(next)) {
                self.turns.push(next)?;
            }
        }
        self.turns.sort_unstable();
        Ok(())
    }

    /// The crossing weight of the handle, in units.
    pub(crate) fn crossing(&self, support: &Support) -> i64 {
        let mut weight: i64 = 0;
        for city in &self.cities {
            weight = weight.wrapping_add(self.leaving(support, *city));
        }
        weight
    }

    /// What the pairs of a city add up to that lead out of the handle.
    #[inline]
    fn leaving(&self, support: &Support, city: u32) -> i64 {
        let mut weight: i64 = 0;
        for arm in support.arms(city) {
            if !is_marked(&self.inside, arm.city) {
                weight = weight.wrapping_add(i64::from(arm.value));
            }
        }
        weight
    }

    /// The places, in rising order, of the cities outside that pairs join to the handle, each as often as they do.
    pub(crate) fn joined(
        &self,
        alloc: Global,
        support: &Support,
        intervals: &Intervals,
    ) -> Result<Vec<usize>, AllocError> {
        let mut places = Vec::new(alloc);
        for city in &self.cities {
            self.add_joined(support, intervals, *city, &mut places)?;
        }
        places.sort_unstable();
        Ok(places)
    }

    /// Adds the places of the cities outside that pairs join to a city.
    #[inline]
    fn add_joined(
        &self,
        support: &Support,
        intervals: &Intervals,
        city: u32,
        places: &mut Vec<usize>,
    ) -> Result<(), AllocError> {
        for arm in support.arms(city) {
            if !is_marked(&self.inside, arm.city) {
                places.push(intervals.place(arm.city))?;
            }
        }
        Ok(())
    }
}

/// Sets or takes away the mark of a city.
#[inline]
fn set_mark(marks: &mut [bool], city: u32, value: bool) {
    if let Some(mark) = marks.get_mut(city as usize) {
        *mark = value;
    }
}
