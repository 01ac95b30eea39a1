//! A path beside a table of the pairs that it decides.
ghost use Rattle.std.specs.Prelude.{◌≡◌, ℕ, ◌+◌, ◌*◌, ◌<◌, ◌||◌, ◌&&◌, not, false, [], ◌∷◌, ◌++◌, length, slice_index_or, IfOk, IfSome, IfNone, OnOk};
ghost use Rattle.std.specs.List.{AllByRecursion};
ghost use Rattle.tspdef.specs.Fixed.{AreRisingPairs};
ghost use Rattle.tspdef.specs.Paths.{IsPair, IsPath, MayFollow, is_decided, branches, fixed_conditions};
ghost use Rattle.branchx.specs.Cond.{condition_of, conditions_of, decides};
ghost use Rattle.branchx.specs.Table.{IsTableOf, tabled};
ghost use Rattle.certcheck.specs.Marked.{HasRoom, on_pair, AreMarksOf};

use branchx::{Cond, Path};
use std::alloc::{AllocError, Global};
use std::marker::Model;

/// A path and a table of the pairs that it decides, so that no pair needs a look through the path. Contracts see the path.
#[derive(Debug, Drop)]
pub(crate) struct MarkedPath {
    path: Path,
    /// Each pair u < v of n cities at place u * n + v. Empty until a pair is decided.
    table: Vec<bool>,
}

impl Model for MarkedPath {
    ghost use Rattle.branchx.specs.Path.{Conditions};
    ghost use Rattle.certcheck.specs.Marked.{AreMarksOf};

    ghost Value = { Conditions };

    ghost view = { λ p. p.path };

    ghost invariant = { λ p. AreMarksOf p.path.n p.path.conditions p.table.items };
}

impl MarkedPath {
    /// The path of the root, where no pair is fixed.
    pub(crate) fn new(alloc: Global, n: u32) -> MarkedPath
        ensures { result ≡ record { n = n; conditions = [] } }
    {
        MarkedPath {
            path: Path::new(alloc, n),
            table: Vec::new(alloc),
        }
    }

    /// The path of the root, where these pairs are fixed.
    pub(crate) fn root(
        alloc: Global,
        n: u32,
        fixed: &[(u32, u32)],
    ) -> Result<MarkedPath, AllocError>
        requires pairs { AllByRecursion (λ p. (p.0 < p.1) × (p.1 < n)) fixed.now }
        requires rising { AreRisingPairs fixed.now }
        ensures { IfOk result (λ p. p ≡ record { n = n; conditions = fixed_conditions fixed.now }) }
    {
        let path = Path::root(alloc, n, fixed)?;
        let table = table_of(alloc, n, path.conditions())?;
        Ok(MarkedPath { path, table })
    }

    /// The path without its table.
    pub(crate) fn path(&self) -> &Path
        ensures { result.now ≡ self.now }
    {
        &self.path
    }

    /// Whether the path says of two cities, the lower one first, if they are joined. O(1).
    pub(crate) fn decides(&self, u: u32, v: u32) -> bool
        requires { IsPair self.now.n u v }
        ensures { result ≡ is_decided self.now.conditions u v }
    {
        is_set(&self.table, place(self.path.n(), u, v))
    }

    /// Adds a condition last: on a pair that is undecided, or on a proper set. O(1), but for the first pair, which makes the table.
    pub(crate) fn push(&mut self, alloc: Global, cond: Cond) -> Result<(), AllocError>
        requires { MayFollow self.old.n self.old.conditions (condition_of cond) }
        ensures ok { OnOk result (self.new ≡ record self.old { conditions = self.old.conditions ++ condition_of cond ∷ [] }) }
        ensures same { self.new.n ≡ self.old.n }
    {
        let n = self.path.n();
        let pair = cond.pair();
        make_room(alloc, n, pair, &mut self.table)?;
        self.path.push(cond)?;
        mark(n, pair, &mut self.table);
        Ok(())
    }

    /// Takes the last condition off, if there is one behind the fixed pairs. O(1).
    pub(crate) fn pop(&mut self) -> Option<Cond>
        ensures last { IfSome result (λ c. self.old ≡ record self.new { conditions = self.new.conditions ++ condition_of c ∷ [] }) }
        ensures follows { IfSome result (λ c. MayFollow self.new.n self.new.conditions (condition_of c)) }
        ensures none { IfNone result (branches self.old.conditions ≡ []) }
        ensures same { self.new.n ≡ self.old.n }
    {
        match take_last(&mut self.path) {
            Some(last) => {
                clear(self.path.n(), last.pair(), &mut self.table);
                Some(last)
            }
            None => None,
        }
    }
}

/// Takes the last condition off, if there is one behind the fixed pairs.
#[tactic(auto, using(crate::proofs::PathLemmas::last_follows))]
fn take_last(path: &mut Path) -> Option<Cond>
    ensures last { IfSome result (λ c. path.old ≡ record path.new { conditions = path.new.conditions ++ condition_of c ∷ [] }) }
    ensures follows { IfSome result (λ c. MayFollow path.new.n path.new.conditions (condition_of c)) }
    ensures none { IfNone result (branches path.old.conditions ≡ []) }
    ensures kept { IfNone result (path.new ≡ path.old) }
    ensures same { path.new.n ≡ path.old.n }
{
    let _path = path.conditions();
    path.pop()
}

/// The table of the pairs that conditions decide; none is needed where there are no conditions.
fn table_of(alloc: Global, n: u32, conditions: &[Cond]) -> Result<Vec<bool>, AllocError>
    requires { IsPath n (conditions_of conditions.now) }
    ensures { IfOk result (λ t. AreMarksOf n (conditions_of conditions.now) t.items) }
{
    if conditions.is_empty() {
        return Ok(Vec::new(alloc));
    }
    let mut table = empty_table(alloc, n)?;
    mark_each(n, conditions, &mut table);
    Ok(table)
}

/// A table of no pairs.
fn empty_table(alloc: Global, n: u32) -> Result<Vec<bool>, AllocError>
    ensures square { IfOk result (λ t. length t.items ≡ n * n) }
    ensures none { IfOk result (λ t. (k : ℕ) → slice_index_or t.items k false ≡ false) }
{
    let size = n as usize;
    vec![in alloc; false; size * size]
}

/// Marks the pairs of conditions.
fn mark_each(n: u32, conditions: &[Cond], table: &mut [bool])
    requires none { (k : ℕ) → slice_index_or table.old k false ≡ false }
    requires square { length table.old ≡ n * n }
    requires is_path { IsPath n (conditions_of conditions.now) }
    ensures { IsTableOf n (conditions_of conditions.now) table.new }
{
    for cond in conditions {
        if let Some((u, v)) = cond.pair() {
            table[place(n, u, v)] = true;
        }
    }
}

/// Makes the table, where a pair needs it and there is none so far.
fn make_room(
    alloc: Global,
    n: u32,
    pair: Option<(u32, u32)>,
    table: &mut Vec<bool>,
) -> Result<(), AllocError>
    requires { HasRoom n table.old.items }
    ensures square { OnOk result (IfSome pair (λ p. length table.new.items ≡ n * n)) }
    ensures room { HasRoom n table.new.items }
    ensures same { (k : ℕ) → slice_index_or table.new.items k false ≡ slice_index_or table.old.items k false }
{
    if pair.is_some() && table.is_empty() {
        *table = empty_table(alloc, n)?;
    }
    Ok(())
}

/// Marks a pair, if there is one.
fn mark(n: u32, pair: Option<(u32, u32)>, table: &mut Vec<bool>)
    requires pair { IfSome pair (λ p. IsPair n p.0 p.1) }
    requires square { IfSome pair (λ p. length table.old.items ≡ n * n) }
    ensures marked { (u v : ℕ) → u < v → v < n → tabled n table.new.items u v ≡ (tabled n table.old.items u v || on_pair pair u v) }
    ensures same { length table.new.items ≡ length table.old.items }
{
    if let Some((u, v)) = pair {
        table[place(n, u, v)] = true;
    }
}

/// Clears a pair, if there is one.
fn clear(n: u32, pair: Option<(u32, u32)>, table: &mut Vec<bool>)
    requires { IfSome pair (λ p. IsPair n p.0 p.1) }
    ensures cleared { (u v : ℕ) → u < v → v < n → tabled n table.new.items u v ≡ (tabled n table.old.items u v && not (on_pair pair u v)) }
    ensures same { length table.new.items ≡ length table.old.items }
{
    if let Some((u, v)) = pair {
        let place = place(n, u, v);
        if place < table.len() {
            table[place] = false;
        }
    }
}

/// Where a table has a pair.
fn place(n: u32, u: u32, v: u32) -> usize
    requires { IsPair n u v }
    ensures value { result ≡ u * n + v }
    ensures within { result < n * n }
{
    u as usize * n as usize + v as usize
}

/// Whether a table has a mark at a place.
fn is_set(table: &[bool], place: usize) -> bool
    ensures { result ≡ slice_index_or table.now place false }
{
    match table.get(place) {
        Some(mark) => *mark,
        None => false,
    }
}
