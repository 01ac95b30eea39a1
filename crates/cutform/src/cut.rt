//! A cut as one value, with its order and its hash.
ghost use Rattle.std.specs.Prelude.{◌≡◌, ◌≢◌, ℕ, ◌≤◌, ◌↔◌, List, fold, IsTrue, IfOk, OnOk, IfErr, IsErrOf, IsOkUnless};
ghost use Rattle.std.specs.Ordering.{nat_cmp, eq_by_cmp, as_partial_cmp};
ghost use Rattle.std.specs.Cmp.Lexicographic.{slice_cmp};
ghost use Rattle.std.specs.Hash as fed;
ghost use Rattle.std.specs.Arc.{arc_value};
ghost use Rattle.tspdef.specs.Sets.{IsProper};
ghost use Rattle.tspdef.specs.Cuts.{subtour, comb, odd, cities_of, sets_of, right_side, coefficient, IsComb, IsOdd, IsCut, HoldsOf, cut_cmp};
ghost use Rattle.tspdef.specs.Instances.{Instance, IsTourOf};
ghost use Rattle.cutform.specs.Combs.{IsDefect};
ghost use Rattle.cutform.specs.Odds.{IsOddDefect};
ghost use Rattle.cutform.specs.Cut.{cities_of_each, kind_of, wide_sets, pairs_of};
ghost use Rattle.cutform.specs.Order.{rank};

use crate::error::CutError;
use crate::pairs::{compare_pairs, crossed_pairs, hash_pairs, with_pairs};
use crate::{comb, odd};
use cyc::CitySet;
use std::alloc::{AllocError, Global};
use std::cmp::Ordering;
use std::hash::{Hash, Hasher};
use std::marker::Model;
use std::sync::Arc;

/// What a cut is.
#[derive(Clone, Copy, Debug, PartialEq, Eq)]
pub enum Kind {
    /// One set (Dantzig, Fulkerson and Johnson 1954).
    Subtour,
    /// A handle and its teeth (Grötschel and Padberg 1979).
    Comb,
    /// A handle and an odd number of pairs that cross it (Edmonds 1965; Padberg and Rao 1982).
    Odd,
}

/// A cut of n cities. Contracts see its kind, n, its sets and its pairs as one value, and equal cuts are one value.
///
/// Copies share their sets: a cut found at one node of a search goes into a pool, the programs of other nodes and the proof of each.
#[derive(Debug, Drop)]
pub struct Cut {
    kind: Kind,
    n: u32,
    // a comb's handle, then its teeth; an odd cut's handle
    sets: Arc<Vec<CitySet>, Global>,
    // the pairs of an odd cut
    pairs: Vec<(u32, u32)>,
}

impl Model for Cut {
    ghost use Rattle.tspdef.specs.Cuts as cuts;
    ghost use Rattle.cutform.specs.Cut.{cities_of_each, cut_of, MakeCut};

    ghost Value = { cuts.Cut };

    ghost use Rattle.std.specs.Arc.{arc_value};

    ghost view = { λ c. cut_of c.kind c.n (cities_of_each (arc_value c.sets).items) c.pairs.items };

    ghost invariant = { λ c. MakeCut c.kind c.n (cities_of_each (arc_value c.sets).items) c.pairs.items };
}

impl Cut {
    /// The subtour cut of a set.
    pub fn subtour(alloc: Global, set: CitySet) -> Result<Cut, CutError>
        ensures made { IfOk result (λ c. c ≡ subtour set.n set.cities) }
        ensures proper { OnOk result (IsProper set.n set.cities) }
        ensures complete { IsProper set.n set.cities → IsOkUnless result CutError.NoMemory }
        ensures refused { (IsErrOf result CutError.NotProper) ↔ (¬ IsProper set.n set.cities) }
    {
        if !set.is_proper() {
            return Err(CutError::NotProper);
        }
        let n = set.n();
        let mut sets = Vec::new(alloc);
        sets.push(set)?;
        Ok(Cut {
            kind: Kind::Subtour,
            n,
            sets: shared(alloc, sets)?,
            pairs: Vec::new(alloc),
        })
    }

    /// The comb of a handle and its teeth.
    pub fn comb(alloc: Global, handle: CitySet, teeth: Vec<CitySet>) -> Result<Cut, CutError>
        ensures made { IfOk result (λ c. c ≡ comb handle.n handle.cities (cities_of_each teeth.items)) }
        ensures is_comb { OnOk result (IsComb handle.n handle.cities (cities_of_each teeth.items)) }
        ensures complete { IsComb handle.n handle.cities (cities_of_each teeth.items) → IsOkUnless result CutError.NoMemory }
        ensures refused { IfErr result (IsDefect handle.n handle.cities (cities_of_each teeth.items)) }
    {
        comb::check(alloc, &handle, &teeth)?;
        let n = handle.n();
        let mut sets = teeth;
        sets.insert(0, handle)?;
        Ok(Cut {
            kind: Kind::Comb,
            n,
            sets: shared(alloc, sets)?,
            pairs: Vec::new(alloc),
        })
    }

    /// The odd cut of a handle and some pairs.
    pub fn odd(alloc: Global, handle: CitySet, pairs: Vec<(u32, u32)>) -> Result<Cut, CutError>
        ensures made { IfOk result (λ c. c ≡ odd handle.n handle.cities pairs.items) }
        ensures is_odd { OnOk result (IsOdd handle.n handle.cities pairs.items) }
        ensures complete { IsOdd handle.n handle.cities pairs.items → IsOkUnless result CutError.NoMemory }
        ensures refused { IfErr result (IsOddDefect handle.n handle.cities pairs.items) }
    {
        odd::check(&handle, &pairs)?;
        let n = handle.n();
        let mut sets = Vec::new(alloc);
        sets.push(handle)?;
        Ok(Cut {
            kind: Kind::Odd,
            n,
            sets: shared(alloc, sets)?,
            pairs,
        })
    }

    /// An equal cut, in O(pairs of an odd cut): the sets are shared.
    pub fn copy(&self, alloc: Global) -> Result<Cut, AllocError>
        ensures { IfOk result (λ c. c ≡ self.now) }
    {
        Ok(Cut {
            kind: self.kind,
            n: self.n,
            sets: Arc::try_clone(&self.sets)?,
            pairs: Vec::from_slice(alloc, &self.pairs)?,
        })
    }

    /// Of how many cities it is a cut.
    pub fn n(&self) -> u32
        ensures value { result ≡ cities_of self.now }
        ensures many { 3 ≤ result }
        ensures few { result ≤ 2000 }
        ensures is_cut { IsCut result self.now }
    {
        self.n
    }

    /// Which kind of cut it is.
    pub fn kind(&self) -> Kind
        ensures { result ≡ kind_of self.now }
    {
        self.kind
    }

    /// Its sets other than pairs: the set of a subtour cut; a comb's handle, then its teeth in their order; an odd cut's handle.
    pub fn sets(&self) -> &[CitySet]
        ensures { cities_of_each result.now ≡ wide_sets self.now }
    {
        listed(&self.sets)
    }

    /// The pairs of an odd cut, in rising order; none of a cut of another kind.
    pub fn pairs(&self) -> &[(u32, u32)]
        ensures { result.now ≡ pairs_of self.now }
    {
        &self.pairs
    }

    /// Copies of all its sets: those other than pairs, then each pair as a set of two cities.
    pub fn all_sets(&self, alloc: Global) -> Result<Vec<CitySet>, AllocError>
        ensures { IfOk result (λ v. cities_of_each v.items ≡ sets_of self.now) }
    {
        let sets = copy_sets(alloc, listed(&self.sets))?;
        with_pairs(alloc, self.n, sets, &self.pairs)
    }

    /// What the crossings of its sets by a tour add up to at least.
    pub fn rhs(&self) -> u32
        ensures value { result ≡ right_side self.now }
        ensures met { (i : Instance) (tour : List ℕ) → i.n ≡ cities_of self.now → IsTourOf i tour → HoldsOf self.now tour }
    {
        match self.kind {
            Kind::Subtour => 2,
            Kind::Comb => 3 * (listed(&self.sets).len() as u32 - 1) + 1,
            Kind::Odd => 3 * self.pairs.len() as u32 + 1,
        }
    }

    /// How many of its sets have exactly one of u and v: 3 at most, but of an odd cut 3,999.
    pub fn coef(&self, u: u32, v: u32) -> u32
        ensures value { result ≡ coefficient (sets_of self.now) u v }
        ensures bound { result ≤ 3999 }
        ensures few { kind_of self.now ≢ Kind.Odd → result ≤ 3 }
    {
        crossed_sets(listed(&self.sets), u, v) + crossed_pairs(&self.pairs, u, v)
    }
}

/// Equality is that of the value: of kind, n, and the sets and the pairs in their order.
impl PartialEq for Cut {
    ghost use Rattle.std.specs.Cmp.{partial_equiv_from_equiv};
    ghost use Rattle.cutform.specs.Order.{equal_cuts};

    ghost eq = { eq_by_cmp cut_cmp };

    ghost laws = { partial_equiv_from_equiv equal_cuts };

    fn eq(&self, other: &Self) -> bool
        ensures eq { result ≡ eq_by_cmp cut_cmp self.now other.now }
        ensures same { IsTrue result ↔ (self.now ≡ other.now) }
    {
        self.cmp(other).is_eq()
    }
}

impl Eq for Cut {
    ghost use Rattle.cutform.specs.Order.{equal_cuts};

    ghost laws = { equal_cuts };
}

impl PartialOrd for Cut {
    ghost use Rattle.cutform.specs.Order.{partly_ordered_cuts};

    ghost partial_cmp = { as_partial_cmp cut_cmp };

    ghost laws = { partly_ordered_cuts };

    fn partial_cmp(&self, other: &Self) -> Option<Ordering> {
        Some(self.cmp(other))
    }
}

/// Subtour cuts come before combs, and those before odd cuts; cuts of one kind go by their sets, one after the other, and then
/// by n.
impl Ord for Cut {
    ghost use Rattle.std.specs.Prelude.{refl};
    ghost use Rattle.cutform.specs.Order.{ordered_cuts};

    ghost cmp = { cut_cmp };

    ghost total = { ordered_cuts };

    ghost matches_partial_cmp = { λ _ _. refl };

    ghost matches_eq = { λ _ _. refl };

    fn cmp(&self, other: &Self) -> Ordering {
        let order = rank(self.kind).cmp(&rank(other.kind));
        if order.is_ne() {
            return order;
        }
        compare_sets(listed(&self.sets), listed(&other.sets))
            .then(compare_pairs(&self.pairs, &other.pairs))
            .then(self.n.cmp(&other.n))
    }
}

impl Hash for Cut {
    ghost use Rattle.cutform.specs.Order.{hash_input_of, equal_cuts_alike};

    ghost hash_input = { hash_input_of };

    ghost respects_eq = { equal_cuts_alike };

    fn hash<H: Hasher>(&self, state: &mut H) {
        state.write_u8(rank(self.kind));
        hash_sets(listed(&self.sets), state);
        hash_pairs(&self.pairs, state);
        self.n.hash(state);
    }
}

// The place of a kind in the order of cuts.
fn rank(kind: Kind) -> u8
    ensures { result ≡ rank kind }
{
    match kind {
        Kind::Subtour => 0,
        Kind::Comb => 1,
        Kind::Odd => 2,
    }
}

// How many of the sets have exactly one of u and v.
fn crossed_sets(sets: &[CitySet], u: u32, v: u32) -> u32
    requires few { coefficient (cities_of_each sets.now) u v ≤ 3999 }
    ensures { result ≡ coefficient (cities_of_each sets.now) u v }
{
    let mut count = 0;
    for set in sets {
        if set.contains(u) != set.contains(v) {
            count += 1;
        }
    }
    count
}

// Compares the cities of one set after the other.
fn compare_sets(a: &[CitySet], b: &[CitySet]) -> Ordering
    ensures { result ≡ slice_cmp (slice_cmp nat_cmp) (cities_of_each a.now) (cities_of_each b.now) }
{
    for i in 0..a.len().min(b.len()) {
        let order = a[i].cities().cmp(&b[i].cities());
        if order.is_ne() {
            return order;
        }
    }
    a.len().cmp(&b.len())
}

// Hashes how many sets there are, and the cities of each.
fn hash_sets<H: Hasher>(sets: &[CitySet], state: &mut H)
    ensures { state.new ≡ fold H.write state.old (fed.slice (fed.slice fed.u32) (cities_of_each sets.now)) }
{
    state.write_usize(sets.len());
    for set in sets {
        set.cities().hash(state);
    }
}

// The list of shared sets.
#[inline]
fn listed(sets: &Arc<Vec<CitySet>, Global>) -> &[CitySet]
    ensures { result.now ≡ (arc_value sets.now).items }
{
    &**sets
}

// Sets that copies of a cut share.
fn shared(alloc: Global, sets: Vec<CitySet>) -> Result<Arc<Vec<CitySet>, Global>, AllocError>
    ensures { IfOk result (λ a. arc_value a ≡ sets) }
{
    let sets = Arc::new(alloc, sets)?;
    Ok(sets)
}

fn copy_sets(alloc: Global, sets: &[CitySet]) -> Result<Vec<CitySet>, AllocError>
    ensures { IfOk result (λ v. v.items ≡ sets.now) }
{
    let mut copies = Vec::with_capacity(alloc, sets.len())?;
    for set in sets {
        copies.push(set.copy(alloc)?)?;
    }
    Ok(copies)
}
