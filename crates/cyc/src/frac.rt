//! Values on pairs of cities.
ghost use Rattle.std.specs.Prelude.{◌≡◌, ◌≢◌, ℕ, ◌+◌, ◌*◌, ◌^◌, ◌<◌, ◌≤◌, ◌↔◌, min, max, IfOk, IsErrOf, IsOkUnless, IsTrue};
ghost use Rattle.cyc.specs.Frac.{IsEntry, AreEntries, IsFirstBad, value_of};
ghost use Rattle.cyc.specs.Laws.{SumsGoByEntries};
ghost use Rattle.cyc.specs.Table.{IsTableOf};

use std::alloc::{AllocError, Global};
use std::error::Error;
use std::fmt;
use std::marker::Model;

/// The value of the pair of two cities, named in either order.
#[derive(Clone, Copy, Debug, PartialEq, Eq)]
pub struct Entry {
    pub u: u32,
    pub v: u32,
    /// In units, 2^20 to one.
    pub x: u32,
}

/// Why some entries are no values on pairs.
#[derive(Clone, Copy, Debug, PartialEq, Eq)]
pub enum FracError {
    /// The first entry, by its place, that is of no pair, of a pair that an entry before it has, or of a value above 2^30.
    BadEntry(u32),
    /// There is no memory.
    NoMemory,
}

impl fmt::Display for FracError {
    fn fmt<W: fmt::Write>(&self, f: &mut fmt::Formatter<W>) -> fmt::Result {
        match self {
            FracError::BadEntry(place) => write!(f, "entry {place} is bad"),
            FracError::NoMemory => write!(f, "out of memory"),
        }
    }
}

impl Error for FracError {}

impl From<AllocError> for FracError {
    ghost use Rattle.std.specs.Prelude.{◌≡◌};
    ghost use Rattle.cyc.specs.declared.frac.FracError.TheVariants.{NoMemory};

    ghost from_gives = { λ _ e. e ≡ NoMemory };

    fn from(_: AllocError) -> FracError {
        FracError::NoMemory
    }
}

/// A value on each pair of n cities: 0, but where an entry says another. Contracts see n and the list of the entries.
#[derive(Debug, Drop)]
pub struct Frac {
    n: u32,
    entries: Vec<Entry>,
    // of a pair u <= v at place u * n + v: one more than its value where it has an entry, else 0
    table: Vec<u32>,
}

impl Model for Frac {
    ghost use Rattle.cyc.specs.Frac.{Values};

    ghost Value = { Values };

    ghost use Rattle.cyc.specs.FracInside.{values_of, IsTabled};

    ghost view = { values_of };

    ghost invariant = { IsTabled };
}

impl Frac {
    /// The values that some entries list.
    pub fn new(alloc: Global, n: u32, entries: Vec<Entry>) -> Result<Frac, FracError>
        requires many { 3 ≤ n }
        requires few { n ≤ 2000 }
        ensures ok { IfOk result (λ x. (x ≡ record { n = n; entries = entries.items }) × AreEntries n entries.items) }
        ensures complete { AreEntries n entries.items → IsOkUnless result FracError.NoMemory }
        ensures bad_entry { (place : ℕ) → IsErrOf result (FracError.BadEntry place) → IsFirstBad n entries.items place }
    {
        let table = table_of(alloc, n, &entries)?;
        Ok(Frac { n, entries, table })
    }

    /// How many cities there are.
    pub fn n(&self) -> u32
        ensures value { result ≡ self.now.n }
        ensures many { 3 ≤ result }
        ensures few { result ≤ 2000 }
    {
        self.n
    }

    /// The entries, as they were listed.
    pub fn entries(&self) -> &[Entry]
        ensures value { result.now ≡ self.now.entries }
        ensures entries { AreEntries self.now.n self.now.entries }
    {
        &self.entries
    }

    /// The value of a pair.
    #[inline]
    pub fn x(&self, u: u32, v: u32) -> u32
        requires u_below { u < self.now.n }
        requires v_below { v < self.now.n }
        ensures value { result ≡ value_of self.now.entries u v }
        ensures small { result ≤ 2 ^ 30 }
    {
        self.table[cell_of(self.n, u, v)].saturating_sub(1)
    }
}

/// A sum over all pairs of cities, of their values times weights, is that over the entries alone.
#[tactic(auto, using(crate::proofs::EntrySums::sums_by_entries))]
pub fn sums_go_by_entries()
    ensures { SumsGoByEntries }
{}

/// Where the table has a pair.
#[inline]
fn cell_of(n: u32, u: u32, v: u32) -> usize
    requires few { n ≤ 2000 }
    requires u_below { u < n }
    requires v_below { v < n }
    ensures cell { result ≡ min u v * n + max u v }
    ensures within { result < n * n }
{
    u.min(v) as usize * n as usize + u.max(v) as usize
}

/// Whether an entry is of two cities below `n`, and of a value that a pair may have.
fn is_entry(n: u32, entry: &Entry) -> bool
    ensures { IsTrue result ↔ IsEntry n entry.now }
{
    entry.u < n && entry.v < n && entry.u != entry.v && entry.x <= 0x4000_0000
}

/// The table of some entries.
fn table_of(alloc: Global, n: u32, entries: &[Entry]) -> Result<Vec<u32>, FracError>
    requires { n ≤ 2000 }
    ensures ok { IfOk result (λ table. AreEntries n entries.now × IsTableOf n entries.now table.items) }
    ensures complete { AreEntries n entries.now → IsOkUnless result FracError.NoMemory }
    ensures bad_entry { (place : ℕ) → IsErrOf result (FracError.BadEntry place) → IsFirstBad n entries.now place }
{
    let mut table = vec![in alloc; 0; n as usize * n as usize]?;
    for (place, entry) in entries.iter().enumerate() {
        if !is_entry(n, entry) {
            return Err(FracError::BadEntry(place as u32));
        }
        let cell = cell_of(n, entry.u, entry.v);
        if table[cell] != 0 {
            return Err(FracError::BadEntry(place as u32));
        }
        table[cell] = entry.x + 1;
    }
    Ok(table)
}
