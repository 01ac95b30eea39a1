//! The pool that threads share, and the seats at it.
ghost use Rattle.std.specs.Prelude.{◌≡◌, ◌≢◌, ℕ, ◌<◌, ◌≤◌, true, [], ◌∷◌, length, slice_get, Some, IfOk, OnOk, OnErr};
ghost use Rattle.std.specs.List.{All, Contains};
ghost use Rattle.boxcar.specs.Table.{first, Shows};
ghost use Rattle.tspdef.specs.Cuts.{cities_of, IsCut};
ghost use Rattle.cutpool.specs.Nears.{AreRows};
ghost use Rattle.cutpool.specs.Pool.{IsWorthAdding, violated_cuts};
ghost use Rattle.cutpool.specs.Seat.{IsSeated, IsTaken};

use crate::nears::{Row, rows_of};
use crate::sharing::CutBox;
use crate::violated::is_violated;
use boxcar::tag::{Names, Tag};
use boxcar::{Keeps, Pushed};
use cutform::Cut;
use cyc::Frac;
use indexmap::IndexSet;
use std::alloc::{AllocError, Global};
use std::marker::Model;
use std::sync::Wait;

/// How many cuts a seat has room for.
const MOST: usize = 4_096;

/// What sharing a cut from a seat tells.
#[derive(Clone, Copy, Debug, PartialEq, Eq)]
pub enum Seated {
    /// The place of the cut among those of the seat: that of an equal one, or else it goes last.
    Shared(u32),
    /// The seat holds 4,096 cuts, none equal to this one: the cut is left out.
    Full,
}

/// The rule of a pool: what is in it are cuts of the number of cities that its tag carries.
struct OfItsCities;

impl Keeps<Cut> for OfItsCities {
    ghost holds = { λ tag _ cut. IsCut (first tag) cut };
}

/// A number of cities as a tag.
struct Cities;

impl Names<u32> for Cities {
    ghost numbers = { λ n. n ∷ [] };
}

type Cuts = boxcar::Vec<Cut, Global, OfItsCities>;

type Token = Pushed<Cut, Global, OfItsCities>;

/// Cuts of n cities that threads share through `&`, from seats: a cut that was pushed stays, and no lock is held over them.
/// Contracts see n, and where the cuts are kept.
#[derive(Drop)]
pub struct SharedPool {
    n: u32,
    alloc: Global,
    cuts: Cuts,
}

impl Model for SharedPool {
    ghost use Rattle.cutpool.specs.Seat.{Shelf, IsShelf};

    ghost Value = { Shelf };

    ghost view = { λ p. record { n = p.n; kept = p.cuts } };

    ghost invariant = { λ p. IsShelf record { n = p.n; kept = p.cuts } };
}

impl SharedPool {
    /// A pool for cuts of `n` cities, with none in it.
    pub fn new(alloc: Global, n: u32) -> Result<SharedPool, AllocError>
        requires many { 3 ≤ n }
        requires few { n ≤ 2000 }
        ensures { IfOk result (λ pool. pool.n ≡ n) }
    {
        Ok(SharedPool {
            n,
            alloc,
            cuts: boxcar::Vec::with_rule(alloc, Tag::of::<u32, Cities>(&n))?,
        })
    }

    /// Of how many cities its cuts are.
    pub fn n(&self) -> u32
        ensures value { result ≡ self.now.n }
        ensures many { 3 ≤ result }
        ensures few { result ≤ 2000 }
    {
        self.n
    }

    /// A seat at the pool, of which no cut is yet.
    pub fn seat<'a, R>(&'a self, rt: &'a R) -> Seat<'a, R>
        ensures { result ≡ record { n = self.now.n; cuts = [] } }
    {
        Seat {
            pool: self,
            rt,
            cuts: IndexSet::new(self.alloc),
            tokens: Vec::new(self.alloc),
        }
    }

    /// The cuts in it.
    fn cuts(&self) -> &Cuts
        ensures kept { result.now ≡ self.now.kept }
        ensures tag { result.now.tag ≡ self.now.n ∷ [] }
    {
        &self.cuts
    }

    /// Pushes a copy of a cut, and gives what shows it.
    fn push<R: Wait>(&self, rt: &R, alloc: Global, cut: &Cut) -> Result<Token, AllocError>
        requires { IsCut self.now.n cut.now }
        ensures shown { IfOk result (λ token. Shows self.now.kept token) }
        ensures value { IfOk result (λ token. token.value ≡ cut.now) }
    {
        let copy = cut.copy(alloc)?;
        match self.cuts.push_shown(rt, copy) {
            Ok(token) => Ok(token),
            Err(_) => Err(AllocError),
        }
    }
}

/// A grunt's seat at a shared pool: what it shared it can read again, whatever other seats do. Contracts see n, and the list
/// of the seat's own cuts, in order of place.
#[derive(Drop)]
pub struct Seat<'a, R> {
    pool: &'a SharedPool,
    rt: &'a R,
    // copies of its own cuts, to find an equal one
    cuts: IndexSet<Cut>,
    tokens: Vec<Token>,
}

impl<'a, R> Model for Seat<'a, R> {
    ghost use Rattle.cutpool.specs.Pool.{Pool};
    ghost use Rattle.cutpool.specs.Seat.{AreSeatsOwn};

    ghost Value = { Pool };

    ghost view = { λ s. record { n = s.pool.now.n; cuts = s.cuts.keys } };

    ghost invariant = { λ s. AreSeatsOwn s.pool.now s.cuts.keys s.tokens.items };
}

impl<'a, R> Seat<'a, R> {
    /// Of how many cities the cuts of its pool are.
    pub fn n(&self) -> u32
        ensures value { result ≡ self.now.n }
        ensures many { 3 ≤ result }
        ensures few { result ≤ 2000 }
    {
        self.pool.n()
    }

    /// How many cuts are its own.
    pub fn len(&self) -> usize
        ensures value { result ≡ length self.now.cuts }
        ensures few { result ≤ 4096 }
        ensures cuts { All (IsCut self.now.n) self.now.cuts }
    {
        self.cuts.len()
    }

    /// The cut that this seat shared at a place.
    #[tactic(auto, using(crate::proofs::SeatLemmas::shown_at, crate::proofs::SeatLemmas::cut_shown))]
    pub fn own(&self, place: u32) -> &Cut
        requires { place < length self.now.cuts }
        ensures { slice_get self.now.cuts place ≡ Some result.now }
    {
        self.pool.cuts().value(&self.tokens[place as usize])
    }

    /// Copies of cuts of the pool that the values violate by 2^10 units or more: the seat's own, in order of place, then
    /// those of other seats that it sees, unless they are equal to one of its own.
    ///
    /// A cut costs what it costs [`CutPool::violated`](crate::CutPool::violated); one that is not violated is not copied.
    pub fn fetch(&self, alloc: Global, x: &Frac) -> Result<Vec<Cut>, AllocError>
        requires { x.now.n ≡ self.now.n }
        ensures worth { IfOk result (λ cuts. All (IsWorthAdding x.now) cuts.items) }
        ensures cuts { IfOk result (λ cuts. All (IsCut x.now.n) cuts.items) }
        ensures own { IfOk result (λ cuts. All (Contains cuts.items) (violated_cuts x.now self.now.cuts)) }
    {
        let rows = rows_of(alloc, x)?;
        let mut found = self.own_violated(alloc, x, &rows)?;
        let mut others = self.others_violated(alloc, x, &rows)?;
        found.append(&mut others)?;
        Ok(found)
    }

    /// Copies of the seat's own cuts that the values violate, as the pool gives them back.
    #[tactic(auto, using(crate::proofs::SeatLemmas::cut_at, crate::proofs::SeatLemmas::one_more, crate::proofs::SeatLemmas::no_more))]
    fn own_violated(&self, alloc: Global, x: &Frac, rows: &[Row]) -> Result<Vec<Cut>, AllocError>
        requires cities { x.now.n ≡ self.now.n }
        requires rows { AreRows x.now.entries rows.now }
        ensures violated { IfOk result (λ cuts. cuts.items ≡ violated_cuts x.now self.now.cuts) }
        ensures worth { IfOk result (λ cuts. All (IsWorthAdding x.now) cuts.items) }
    {
        let mut found = Vec::new(alloc);
        for place in 0..self.len() as u32 {
            let cut = self.own(place);
            if is_violated(x, rows, cut) {
                found.push(cut.copy(alloc)?)?;
            }
        }
        Ok(found)
    }

    /// Copies of other cuts of the pool that the values violate.
    fn others_violated(&self, alloc: Global, x: &Frac, rows: &[Row]) -> Result<Vec<Cut>, AllocError>
        requires cities { x.now.n ≡ self.now.n }
        requires rows { AreRows x.now.entries rows.now }
        ensures { IfOk result (λ cuts. All (IsWorthAdding x.now) cuts.items) }
    {
        let mut found = Vec::new(alloc);
        let walk = self.pool.cuts().iter();
        for (_, cut) in walk {
            if is_violated(x, rows, cut) && self.cuts.get_index_of(cut).is_none() {
                found.push(cut.copy(alloc)?)?;
            }
        }
        Ok(found)
    }
}

impl<'a, R: Wait> Seat<'a, R> {
    /// Shares a copy of a cut, where none of the seat's own is equal and there is room. On want of memory the seat's own are
    /// as they were.
    ///
    /// O(cities of its sets), in the mean. The push may wait for another seat's push to end.
    pub fn share(&mut self, alloc: Global, cut: &Cut) -> Result<Seated, AllocError>
        requires { cities_of cut.now ≡ self.old.n }
        ensures seated { IfOk result (IsSeated self.old self.new cut.now) }
        ensures unchanged { OnErr result (self.new ≡ self.old) }
    {
        let _n = cut.n();
        if let Some(place) = self.cuts.get_index_of(cut) {
            return Ok(Seated::Shared(place as u32));
        }
        let place = self.cuts.len();
        if place >= MOST {
            return Ok(Seated::Full);
        }
        let copy = cut.copy(alloc)?;
        self.tokens.reserve(1)?;
        let token = self.pool.push(self.rt, alloc, cut)?;
        self.cuts.insert(copy)?;
        self.tokens.push_reserved(token);
        Ok(Seated::Shared(place as u32))
    }
}

/// Cuts of another number of cities, and those for which there is no room, are passed over; values on another number of
/// cities get no cut.
impl<'a, R: Wait> CutBox for Seat<'a, R> {
    ghost honest = { true };

    fn share(&mut self, alloc: Global, cut: &Cut) -> Result<(), AllocError>
        ensures taken { OnOk result (IsTaken self.old self.new cut.now) }
        ensures unchanged { OnErr result (self.new ≡ self.old) }
    {
        if cut.n() != self.n() {
            return Ok(());
        }
        Seat::share(self, alloc, cut)?;
        Ok(())
    }

    fn fetch(&mut self, alloc: Global, x: &Frac) -> Result<Vec<Cut>, AllocError>
        ensures cuts { IfOk result (λ cuts. All (IsCut x.now.n) cuts.items) }
        ensures worth { IfOk result (λ cuts. All (IsWorthAdding x.now) cuts.items) }
        ensures own { x.now.n ≡ self.old.n → IfOk result (λ cuts. All (Contains cuts.items) (violated_cuts x.now self.old.cuts)) }
        ensures none { x.now.n ≢ self.old.n → IfOk result (λ cuts. cuts.items ≡ []) }
        ensures unchanged { self.new ≡ self.old }
    {
        if x.n() != self.n() {
            return Ok(Vec::new(alloc));
        }
        Seat::fetch(self, alloc, x)
    }
}
