//! Instances: cities and the table of their distances.

ghost use Rattle.std.specs.Prelude.{◌≡◌, ◌≢◌, ◌↔◌, ℕ, ◌+◌, ◌*◌, ◌^◌, ◌<◌, ◌≤◌, ◌==◌, ◌&&◌, [], length, replicate, IfOk, IsTrue};
ghost use Rattle.std.specs.Cmp.{partial_equiv_from_equiv};
ghost use Rattle.tspdef.specs.Instances.{IsInstance, dist, length_in};
ghost use Rattle.tspdef.specs.Tours.{has_step};
ghost use Rattle.tspinst.specs.Fixings.{TellPartners};
ghost use Rattle.tspinst.specs.Tables.{IsTable, is_same, same_is_equivalence};

use crate::fixing::{Fixing, Partners, are_partners};
use crate::refusals::FixError;
use cyc::Tour;
use std::alloc::{AllocError, Global};
use std::marker::Model;

/// From 3 to 2,000 cities, the distances of all pairs, each below 2^30, and the fixed pairs, which each tour joins.
///
/// Contracts see the number of cities, the table, which is square, by rows, symmetric, with zeros on its diagonal, and the fixed
/// pairs, strictly rising.
#[derive(Drop)]
pub struct Instance {
    n: u32,
    table: Vec<u32>,
    fixed: Vec<(u32, u32)>,
    /// Each city's partners in fixed pairs; no entry where nothing is fixed.
    partners: Vec<Partners>,
    ghost told: { TellPartners n fixed.items partners.items },
}

impl Model for Instance {
    ghost use Rattle.tspdef.specs.Instances.{Instance as TheInstance, IsInstance};

    ghost Value = { TheInstance };

    ghost view = { λ i. record { n = i.n; table = i.table.items; fixed = i.fixed.items } };

    ghost invariant = { λ i. IsInstance (record { n = i.n; table = i.table.items; fixed = i.fixed.items }) };
}

impl Instance {
    ghost use Rattle.tspinst.specs.Views.{IsFixedBy};

    /// The instance of a table, which fixes no pair.
    pub(crate) fn of_table(alloc: Global, n: u32, table: Vec<u32>) -> Instance
        requires { IsTable n table.items }
        ensures { result ≡ record { n = n; table = table.items; fixed = [] } }
    {
        Instance {
            n,
            table,
            fixed: Vec::new(alloc),
            partners: Vec::new(alloc),
        }
    }

    /// The number of cities.
    pub fn n(&self) -> u32
        ensures same { result ≡ self.now.n }
        ensures instance { IsInstance self.now }
    {
        self.n
    }

    /// The distance of two cities.
    #[inline]
    pub fn d(&self, u: u32, v: u32) -> u32
        requires from { u < self.now.n }
        requires to { v < self.now.n }
        ensures same { result ≡ dist self.now u v }
        ensures small { result < 2 ^ 30 }
    {
        self.table[u as usize * self.n as usize + v as usize]
    }

    /// The fixed pairs, which each tour joins: each with its lower city first, and strictly rising.
    pub fn fixed(&self) -> &[(u32, u32)]
        ensures { result.now ≡ self.now.fixed }
    {
        &self.fixed
    }

    /// Whether two cities are a fixed pair, in either order. It takes O(1).
    #[inline]
    pub fn is_fixed(&self, u: u32, v: u32) -> bool
        ensures { result ≡ has_step self.now.fixed u v }
    {
        are_partners(&self.partners, self.n, u, v)
    }

    /// The instance with the pairs that came together, in place of those that it had.
    pub(crate) fn hold(self, fixing: Fixing) -> Instance
        requires { fixing.n ≡ self.n }
        ensures { result ≡ record { n = self.n; table = self.table; fixed = fixing.pairs } }
    {
        let (fixed, partners) = fixing.into_parts();
        Instance {
            n: self.n,
            table: self.table,
            fixed,
            partners,
        }
    }

    /// The same cities and distances with exactly these pairs fixed, in place of those that were. Cities count from 0, a pair may stand
    /// in either order, and one that comes twice counts once; the pairs may be a whole tour. It takes O(n) for each different pair.
    ///
    /// # Errors
    ///
    /// `BadFixed` with the place of the first pair, from 0, that may not be fixed beside those before it, and why: the first of
    /// `NoCity`, `Loop`, `Third` and `Cycle` that holds. `NoMemory` where memory ran out.
    pub fn fix(self, alloc: Global, pairs: &[(u32, u32)]) -> Result<Instance, FixError>
        ensures judged { IsFixedBy self.n pairs.now result }
        ensures same { IfOk result (λ i. (i.n ≡ self.n) × (i.table ≡ self.table)) }
        ensures exact { IfOk result (λ i. (u v : ℕ) → has_step i.fixed u v ≡ has_step pairs.now u v) }
    {
        let fixing = Fixing::all(alloc, self.n, pairs)?;
        Ok(self.hold(fixing))
    }

    /// Whether each part is the same.
    fn agrees(&self, other: &Instance) -> bool
        ensures { result ≡ is_same self.now other.now }
    {
        self.n == other.n && self.table == other.table && self.fixed == other.fixed
    }

    /// How long a tour of these cities is.
    pub fn length(&self, tour: &Tour) -> u64
        requires { length tour.now ≡ self.now.n }
        ensures { result ≡ length_in self.now tour.now }
    {
        let cities = tour.cities();
        let home = cities[0];
        let mut here = home;
        let mut travelled = 0u64;
        for i in 1..cities.len() {
            travelled += u64::from(self.d(here, cities[i]));
            here = cities[i];
        }
        travelled + u64::from(self.d(here, home))
    }

    /// An equal instance.
    pub fn copy(&self, alloc: Global) -> Result<Instance, AllocError>
        ensures { IfOk result (λ i. i ≡ self.now) }
    {
        let mut table = Vec::new(alloc);
        table.extend_from_slice(&self.table)?;
        let mut fixed = Vec::new(alloc);
        fixed.extend_from_slice(&self.fixed)?;
        let mut partners = Vec::new(alloc);
        partners.extend_from_slice(&self.partners)?;
        Ok(Instance {
            n: self.n,
            table,
            fixed,
            partners,
        })
    }
}

impl PartialEq for Instance {
    ghost eq = { is_same };

    ghost laws = { partial_equiv_from_equiv same_is_equivalence };

    /// Whether both have the same cities, the same distances and the same fixed pairs.
    #[tactic(auto, using(crate::proofs::SameLemmas::same_told))]
    fn eq(&self, other: &Self) -> bool
        ensures tests { result ≡ is_same self.now other.now }
        ensures same { IsTrue result ↔ (self.now ≡ other.now) }
    {
        self.agrees(other)
    }
}

impl Eq for Instance {
    ghost laws = { same_is_equivalence };
}
