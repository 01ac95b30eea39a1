//! The five points, conditions of paths, and duals with what is wrong with them and their bound: sums and tests as they are read.

/// How many cities there are.
pub const CITIES: u32 = 5;

/// Where they lie.
pub const POINTS: [(i32, i32); 5] = [(0, 0), (0, 10), (10, 10), (10, 0), (4, 5)];

pub(crate) const SCALE: i128 = 1_048_576;

const GREATEST: i128 = 4_611_686_018_427_387_904;

pub(crate) const ALL: u32 = 31;

/// A condition of a path.
#[derive(Clone, Copy, PartialEq, Eq)]
pub enum Told {
    /// A pair that each tour has.
    Fixed(u32, u32),
    /// A pair that is not used.
    Absent(u32, u32),
    /// A pair that is used.
    Present(u32, u32),
    /// A set, by its bits, that is crossed twice.
    Two(u32),
    /// A set that is crossed four times or more.
    Four(u32),
}

/// Duals: of the first so many cities, of a subtour cut of a set of so many cities, which comes so often, and of conditions by depth.
#[derive(Clone, Copy)]
pub struct Duals {
    /// Of the cities in turn.
    pub city: [i64; 6],
    /// How many of them count.
    pub cities: usize,
    /// The cut's number of cities.
    pub cut_n: u32,
    /// The cut's set, by its bits.
    pub cut_set: u32,
    /// The dual of each copy of the cut.
    pub cut_dual: u64,
    /// How many copies there are.
    pub cuts: usize,
    /// Depths, with their duals.
    pub conds: [(u32, u64); 2],
    /// How many of them count.
    pub cond_count: usize,
}

/// A count, as a number of 32 bits.
pub fn number(count: usize) -> u32 {
    (count & 0xffff_ffff) as u32
}

fn distance(u: u32, v: u32) -> u32 {
    match (POINTS.get(u as usize), POINTS.get(v as usize)) {
        (Some(p), Some(q)) => (p.0.abs_diff(q.0)).saturating_add(p.1.abs_diff(q.1)),
        _ => 0,
    }
}

/// Whether a set has a city.
pub fn holds(set: u32, city: u32) -> bool {
    set.checked_shr(city).unwrap_or(0) & 1 == 1
}

fn crosses(set: u32, u: u32, v: u32) -> bool {
    holds(set, u) != holds(set, v)
}

/// How long a tour is.
pub fn tour_length(tour: &[u32]) -> u64 {
    let mut here = tour.last().copied().unwrap_or(0);
    let mut sum = 0u64;
    for next in tour {
        sum = sum.saturating_add(u64::from(distance(here, *next)));
        here = *next;
    }
    sum
}

pub(crate) fn decides(path: &[Told], u: u32, v: u32) -> bool {
    path.iter().any(|told| {
        *told == Told::Fixed(u, v) || *told == Told::Absent(u, v) || *told == Told::Present(u, v)
    })
}

/// The condition at a depth, from 1 on. Fixed pairs have none.
fn at_depth(path: &[Told], depth: u32) -> Option<Told> {
    let mut left = depth;
    for told in path {
        if !matches!(told, Told::Fixed(_, _)) {
            if left == 1 {
                return Some(*told);
            }
            left = left.saturating_sub(1);
        }
    }
    None
}

fn is_on_set(path: &[Told], depth: u32) -> bool {
    matches!(at_depth(path, depth), Some(Told::Two(_) | Told::Four(_)))
}

fn is_size(dual: u64) -> bool {
    dual >= 1 && i128::from(dual) <= GREATEST
}

impl Duals {
    fn dual(&self, city: u32) -> i128 {
        match self.city.get(city as usize) {
            Some(dual) => i128::from(*dual),
            None => 0,
        }
    }

    fn depth_duals(&self) -> &[(u32, u64)] {
        self.conds.get(..self.cond_count).unwrap_or(&[])
    }

    fn have_sizes(&self) -> bool {
        let listed = self.city.get(..self.cities).unwrap_or(&[]);
        listed.iter().all(|dual| i128::from(*dual).unsigned_abs() <= GREATEST.unsigned_abs())
            && (self.cuts == 0 || is_size(self.cut_dual))
            && self.depth_duals().iter().all(|entry| is_size(entry.1))
    }

    fn have_depths(&self, path: &[Told]) -> bool {
        let mut last = 0;
        for entry in self.depth_duals() {
            if entry.0 <= last || !is_on_set(path, entry.0) {
                return false;
            }
            last = entry.0;
        }
        true
    }

    /// The least that is wrong with the duals on a path.
    pub(crate) fn misfit(&self, path: &[Told]) -> Option<u32> {
        if self.cities != CITIES as usize {
            Some(1)
        } else if !self.have_sizes() {
            Some(2)
        } else if (self.cuts > 0 && self.cut_n != CITIES) || self.cuts > 1 {
            Some(3)
        } else if !self.have_depths(path) {
            Some(4)
        } else {
            None
        }
    }

    /// What the conditions by depth take off the cost of a pair.
    fn depth_price(&self, path: &[Told], u: u32, v: u32) -> i128 {
        let mut price = 0i128;
        for entry in self.depth_duals() {
            match at_depth(path, entry.0) {
                Some(Told::Two(set)) if crosses(set, u, v) => {
                    price = price.saturating_sub(i128::from(entry.1));
                }
                Some(Told::Four(set)) if crosses(set, u, v) => {
                    price = price.saturating_add(i128::from(entry.1));
                }
                _ => (),
            }
        }
        price
    }

    fn depth_worth(&self, path: &[Told]) -> i128 {
        let mut worth = 0i128;
        for entry in self.depth_duals() {
            match at_depth(path, entry.0) {
                Some(Told::Two(_)) => {
                    worth = worth.saturating_sub(i128::from(entry.1).saturating_mul(2));
                }
                Some(Told::Four(_)) => {
                    worth = worth.saturating_add(i128::from(entry.1).saturating_mul(4));
                }
                _ => (),
            }
        }
        worth
    }

    fn reduced_cost(&self, path: &[Told], u: u32, v: u32) -> i128 {
        let cut = if self.cuts > 0 && crosses(self.cut_set, u, v) {
            i128::from(self.cut_dual)
        } else {
            0
        };
        i128::from(distance(u, v))
            .saturating_mul(SCALE)
            .saturating_sub(self.dual(u))
            .saturating_sub(self.dual(v))
            .saturating_sub(cut)
            .saturating_sub(self.depth_price(path, u, v))
    }

    fn pair_term(&self, path: &[Told], u: u32, v: u32) -> i128 {
        let cost = self.reduced_cost(path, u, v);
        if path.contains(&Told::Fixed(u, v)) || path.contains(&Told::Present(u, v)) {
            cost
        } else if path.contains(&Told::Absent(u, v)) {
            0
        } else {
            cost.min(0)
        }
    }

    /// The bound on a path, in units.
    pub(crate) fn bound(&self, path: &[Told]) -> i128 {
        let mut sum = self.depth_worth(path);
        if self.cuts > 0 {
            sum = sum.saturating_add(i128::from(self.cut_dual).saturating_mul(2));
        }
        for u in 0..CITIES {
            sum = sum.saturating_add(self.dual(u).saturating_mul(2));
            for v in u + 1..CITIES {
                sum = sum.saturating_add(self.pair_term(path, u, v));
            }
        }
        sum
    }
}
