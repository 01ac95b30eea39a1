//! For each city the cities that it has a pair of positive value with.
ghost use Rattle.std.specs.Prelude.{◌≡◌, ℕ, ◌+◌, ◌<◌, Bool, cond, ◌==◌, [], ◌∷◌, ◌++◌, length, IfOk, OnOk};
ghost use Rattle.std.specs.List.{All};
ghost use Rattle.cutpool.specs.Nears.{AreRows, row_weight};

use cyc::{Entry, Frac};
use std::alloc::{AllocError, Global};
use std::marker::Model;

/// The other city of a pair, and the value of the pair in units.
#[derive(Clone, Copy, Debug)]
pub struct Near {
    pub city: u32,
    pub x: u32,
}

/// The pairs of one city. Contracts see the list.
#[derive(Drop)]
pub struct Row {
    nears: Vec<Near>,
}

impl Model for Row {
    ghost use Rattle.std.specs.Prelude.{List};
    ghost use Rattle.cutpool.specs.declared.nears.Near.{Near};

    ghost Value = { List Near };

    ghost view = { λ r. r.nears.items };
}

impl Row {
    fn new(alloc: Global) -> Row
        ensures { result ≡ [] }
    {
        Row {
            nears: Vec::new(alloc),
        }
    }

    fn push(&mut self, near: Near) -> Result<(), AllocError>
        ensures { OnOk result (self.new ≡ self.old ++ near ∷ []) }
    {
        self.nears.push(near)?;
        Ok(())
    }

    /// The pairs.
    #[inline]
    pub fn nears(&self) -> &[Near]
        ensures { result.now ≡ self.now }
    {
        &self.nears
    }
}

/// The pairs of each city.
pub fn rows_of(alloc: Global, x: &Frac) -> Result<Vec<Row>, AllocError>
    ensures { IfOk result (λ rows. AreRows x.now.entries rows.items) }
{
    let mut rows = empty_rows(alloc, x.n())?;
    list(&mut rows, x.entries())?;
    Ok(rows)
}

/// Lists each pair at both of its cities, where nothing is listed yet.
fn list(rows: &mut [Row], entries: &[Entry]) -> Result<(), AllocError>
    requires within { All (λ e. (e.u < length rows.old) × (e.v < length rows.old)) entries.now }
    requires empty { (c : ℕ) (p : ℕ → Bool) → row_weight rows.old c p ≡ 0 }
    ensures { OnOk result (AreRows entries.now rows.new) }
{
    for entry in entries {
        add(rows, entry.u, entry.v, entry.x)?;
        add(rows, entry.v, entry.u, entry.x)?;
    }
    Ok(())
}

fn empty_rows(alloc: Global, n: u32) -> Result<Vec<Row>, AllocError>
    ensures long { IfOk result (λ rows. length rows.items ≡ n) }
    ensures empty { IfOk result (λ rows. (c : ℕ) (p : ℕ → Bool) → row_weight rows.items c p ≡ 0) }
{
    let mut rows = Vec::with_capacity(alloc, n as usize)?;
    for _ in 0..n {
        rows.push(Row::new(alloc))?;
    }
    Ok(rows)
}

/// Lists the value of a pair at one of its cities.
fn add(rows: &mut [Row], at: u32, city: u32, x: u32) -> Result<(), AllocError>
    requires { at < length rows.old }
    ensures { OnOk result ((c : ℕ) (p : ℕ → Bool) → row_weight rows.new c p ≡ row_weight rows.old c p + cond (c == at) (cond (p city) 0 x) 0) }
{
    if x == 0 {
        return Ok(());
    }
    rows[at as usize].push(Near { city, x })
}
