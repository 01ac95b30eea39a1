//! The conditions from the root to a node.
ghost use Rattle.std.specs.Prelude.{◌≡◌, ◌<◌, ◌↔◌, false, [], ◌∷◌, ◌++◌, length, IsTrue, IsSome, IfOk, IfSome, IfNone, OnOk, OnErr};
ghost use Rattle.std.specs.List.{AllByRecursion};
ghost use Rattle.tspdef.specs.Fixed.{AreRisingPairs};
ghost use Rattle.tspdef.specs.Paths.{MayFollow, IsPath, is_decided, IsNew, branches, fixed_conditions};
ghost use Rattle.branchx.specs.Cond.{condition_of, conditions_of, is_fixed};
ghost use Rattle.branchx.specs.Path.{ends_in_fixed};

use crate::cond::Cond;
use cyc::CitySet;
use std::alloc::{AllocError, Global};
use std::marker::Model;

/// The conditions from the root to a node, on tours of n cities: no pair is decided twice, and each set is proper.
/// Fixed pairs come first; depths count from 1 behind them. Contracts see n and the list of the conditions.
#[derive(Debug, Drop)]
pub struct Path {
    n: u32,
    conditions: Vec<Cond>,
}

impl Model for Path {
    ghost use Rattle.tspdef.specs.Paths.{IsPath};
    ghost use Rattle.branchx.specs.Cond.{conditions_of};
    ghost use Rattle.branchx.specs.Path.{Conditions};

    ghost Value = { Conditions };

    ghost view = { λ p. record { n = p.n; conditions = conditions_of p.conditions.items } };

    ghost invariant = { λ p. IsPath p.n (conditions_of p.conditions.items) };
}

impl Path {
    /// The path of the root, where no pair is fixed.
    pub fn new(alloc: Global, n: u32) -> Path
        ensures { result ≡ record { n = n; conditions = [] } }
    {
        Path {
            n,
            conditions: Vec::new(alloc),
        }
    }

    /// The path of the root, where these pairs are fixed.
    pub fn root(alloc: Global, n: u32, fixed: &[(u32, u32)]) -> Result<Path, AllocError>
        requires pairs { AllByRecursion (λ p. (p.0 < p.1) × (p.1 < n)) fixed.now }
        requires rising { AreRisingPairs fixed.now }
        ensures { IfOk result (λ p. p ≡ record { n = n; conditions = fixed_conditions fixed.now }) }
    {
        Ok(Path {
            n,
            conditions: fixed_conds(alloc, fixed)?,
        })
    }

    /// An equal path.
    pub fn copy(&self, alloc: Global) -> Result<Path, AllocError>
        ensures { IfOk result (λ p. p ≡ self.now) }
    {
        Ok(Path {
            n: self.n,
            conditions: copy_conditions(alloc, &self.conditions)?,
        })
    }

    /// How many cities there are.
    pub fn n(&self) -> u32
        ensures { result ≡ self.now.n }
    {
        self.n
    }

    /// The conditions, from the root on. The first behind the fixed pairs has depth 1.
    pub fn conditions(&self) -> &[Cond]
        ensures value { conditions_of result.now ≡ self.now.conditions }
        ensures is_path { IsPath self.now.n self.now.conditions }
    {
        &self.conditions
    }

    /// Adds a condition last: on a pair that is undecided, or on a proper set; a fixed pair only behind fixed pairs.
    pub fn push(&mut self, cond: Cond) -> Result<(), AllocError>
        requires { MayFollow self.old.n self.old.conditions (condition_of cond) }
        ensures ok { OnOk result (self.new ≡ record self.old { conditions = self.old.conditions ++ condition_of cond ∷ [] }) }
        ensures err { OnErr result (self.new ≡ self.old) }
    {
        self.conditions.push(cond)?;
        Ok(())
    }

    /// Takes the last condition off, if there is one behind the fixed pairs.
    pub fn pop(&mut self) -> Option<Cond>
        ensures found { IsSome result ↔ (0 < length (branches self.old.conditions)) }
        ensures branch { IfSome result (λ c. is_fixed (condition_of c) ≡ false) }
        ensures last { IfSome result (λ c. self.old ≡ record self.new { conditions = self.new.conditions ++ condition_of c ∷ [] }) }
        ensures none { IfNone result (self.new ≡ self.old) }
    {
        if ends_in_fixed(&self.conditions) {
            return None;
        }
        self.conditions.pop()
    }
}

/// Whether a path says of two cities, in either order, if they are joined.
pub fn decided(path: &Path, u: u32, v: u32) -> bool
    ensures { result ≡ is_decided path.now.conditions u v }
{
    for cond in path.conditions() {
        if cond.decides(u, v) {
            return true;
        }
    }
    false
}

/// Whether a path has no condition on a set or its complement.
pub fn is_new(path: &Path, set: &CitySet) -> bool
    ensures { IsTrue result ↔ IsNew path.now.n path.now.conditions set.now.cities }
{
    for cond in path.conditions() {
        if !cond.is_apart_from(path.n(), set) {
            return false;
        }
    }
    true
}

fn ends_in_fixed(conditions: &[Cond]) -> bool
    ensures { result ≡ ends_in_fixed (conditions_of conditions.now) }
{
    match conditions.last() {
        Some(last) => last.is_fixed(),
        None => false,
    }
}

fn fixed_conds(alloc: Global, fixed: &[(u32, u32)]) -> Result<Vec<Cond>, AllocError>
    ensures { IfOk result (λ v. conditions_of v.items ≡ fixed_conditions fixed.now) }
{
    let mut conditions = Vec::with_capacity(alloc, fixed.len())?;
    for (u, v) in fixed {
        conditions.push(Cond::Fixed(*u, *v))?;
    }
    Ok(conditions)
}

fn copy_conditions(alloc: Global, conditions: &[Cond]) -> Result<Vec<Cond>, AllocError>
    ensures { IfOk result (λ v. v.items ≡ conditions.now) }
{
    let mut copies = Vec::with_capacity(alloc, conditions.len())?;
    for cond in conditions {
        copies.push(cond.copy(alloc)?)?;
    }
    Ok(copies)
}
