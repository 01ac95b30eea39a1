//! Drawn reports, tours and leases: mostly such as fit, at times such as do not.
ghost use Rattle.std.specs.Prelude.{◌<◌, ◌≤◌};

use crate::book::Said;
use crate::duals::Duals;
use crate::starts::Start;

/// Numbers that look drawn.
#[derive(Drop)]
pub struct Draw {
    state: u64,
}

impl Draw {
    /// The numbers of a list, which differ from those of others.
    pub fn new(list: u32) -> Draw {
        Draw {
            state: u64::from(list).wrapping_mul(0x9e37_79b9_7f4a_7c15),
        }
    }

    /// A number below another, or 0 where there is none.
    pub fn below(&mut self, most: u32) -> u32
        ensures { 1 ≤ most → result < most }
    {
        if most == 0 {
            return 0;
        }
        self.state = self
            .state
            .wrapping_mul(6_364_136_223_846_793_005)
            .wrapping_add(1_442_695_040_888_963_407);
        ((self.state >> 33) % u64::from(most)) as u32
    }

    /// Whether it is one case of so many.
    pub fn one_of(&mut self, most: u32) -> bool {
        self.below(most) == 0
    }

    /// A lease: mostly one of the newest, at times an old one or one that was never granted.
    pub fn lease(&mut self, grants: u32) -> u32 {
        if self.one_of(6) {
            self.below(grants.saturating_add(3))
        } else {
            grants.saturating_sub(1).saturating_sub(self.below(3))
        }
    }

    /// Two cities, of which the first is mostly the lesser.
    pub fn edge(&mut self) -> (u32, u32) {
        let u = self.below(5);
        let v = self.below(6);
        if self.one_of(8) {
            (u, v)
        } else {
            (u.min(v), u.max(v))
        }
    }

    /// Duals of cities near those of a good bound.
    fn city_duals(&mut self) -> [i64; 6] {
        let mut city = [5_242_880i64, 5_242_880, 5_242_880, 5_242_880, 4_194_304, 0];
        for dual in city.iter_mut() {
            *dual = dual.saturating_add(i64::from(self.below(4)).saturating_mul(131_072));
        }
        if self.one_of(16) {
            city[0] = i64::MIN;
        }
        if self.one_of(6) {
            city = [-1_000_000; 6];
        }
        city
    }

    /// Duals that mostly fit, and are at times enough.
    pub fn duals(&mut self) -> Duals {
        let city = self.city_duals();
        Duals {
            city,
            cities: if self.one_of(12) { 4 } else { 5 },
            cut_n: if self.one_of(8) { 6 } else { 5 },
            cut_set: 1 + self.below(30),
            cut_dual: u64::from(self.below(8)).saturating_mul(65_536),
            cuts: if self.one_of(3) {
                1 + self.below(2) as usize
            } else {
                0
            },
            conds: [
                (1 + self.below(3), 1 + u64::from(self.below(300_000))),
                (
                    2 + self.below(3),
                    u64::from(self.below(4)).saturating_mul(100_000),
                ),
            ],
            cond_count: if self.one_of(2) {
                self.below(3) as usize
            } else {
                0
            },
        }
    }

    /// What is said of a node.
    pub fn said(&mut self) -> Said {
        match self.below(8) {
            0 | 1 | 2 => {
                let (u, v) = self.edge();
                Said::Edge(u, v)
            }
            3 | 4 => Said::Clique(if self.one_of(10) { 6 } else { 5 }, self.below(32)),
            _ => Said::Closed(self.duals()),
        }
    }

    /// The cities in any order.
    pub fn tour(&mut self) -> [u32; 5] {
        let mut cities = [0u32, 1, 2, 3, 4];
        for k in 0..5usize {
            let other = self.below(5) as usize;
            cities.swap(k, other);
        }
        cities
    }

    /// What a book begins with: a fixed pair in one case of three, and a small budget.
    pub fn start(&mut self) -> Start {
        Start {
            fixed: if self.one_of(3) { Some((0, 2)) } else { None },
            budget: self.below(60),
            gap: match self.below(4) {
                0 => 0,
                1 => 1,
                2 => 3,
                _ => 60,
            },
        }
    }
}
