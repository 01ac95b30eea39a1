//! The rows of a node.
ghost use Rattle.std.specs.Prelude.{◌≡◌, ◌<◌, ◌≤◌, [], ◌∷◌, ◌++◌, length, map, All, IfOk, OnOk};
ghost use Rattle.tspdef.specs.Cuts.{sets_of};
ghost use Rattle.branchx.specs.Cond.{condition_of, conditions_of};
ghost use Rattle.lpcheck.specs.Rows.{IsSmall, cities_of_each};
ghost use Rattle.nodelp.specs.Shapes.{shape_of, degree_shape, degree_shapes, clique_shapes, first_shapes, cut_shape, cliques};

use branchx::{Cond, Path};
use cutform::Cut;
use cyc::{CitySet, CitySetError};
use simplex::{Row, Sense};
use std::alloc::{AllocError, Global};

/// The set of one city.
fn set_of(alloc: Global, n: u32, city: u32) -> Result<CitySet, AllocError>
    requires many { 3 ≤ n }
    requires few { n ≤ 2000 }
    requires below { city < n }
    ensures { IfOk result (λ set. set.cities ≡ city ∷ []) }
{
    let mut cities = Vec::with_capacity(alloc, 1)?;
    cities.push(city)?;
    match CitySet::new(alloc, n, cities) {
        Ok(set) => Ok(set),
        Err(CitySetError::NoMemory) => Err(AllocError),
        Err(CitySetError::NotRising) => unreachable!(),
    }
}

/// The row of one set.
fn row_of(alloc: Global, sense: Sense, rhs: u32, set: CitySet) -> Result<Row, AllocError>
    ensures shape { IfOk result (λ row. shape_of row ≡ record { sense = sense; right = rhs; sets = set.cities ∷ [] }) }
    ensures small { IfOk result IsSmall }
{
    let mut sets = Vec::with_capacity(alloc, 1)?;
    sets.push(set)?;
    Ok(Row { sense, rhs, sets })
}

/// The degree row of a city.
fn degree_row(alloc: Global, n: u32, city: u32) -> Result<Row, AllocError>
    requires many { 3 ≤ n }
    requires few { n ≤ 2000 }
    requires below { city < n }
    ensures shape { IfOk result (λ row. shape_of row ≡ degree_shape city) }
    ensures small { IfOk result IsSmall }
{
    row_of(alloc, Sense::Eq, 2, set_of(alloc, n, city)?)
}

/// The degree rows of all cities.
fn degree_rows(alloc: Global, n: u32) -> Result<Vec<Row>, AllocError>
    requires many { 3 ≤ n }
    requires few { n ≤ 2000 }
    ensures shapes { IfOk result (λ rows. map shape_of rows.items ≡ degree_shapes n) }
    ensures small { IfOk result (λ rows. All IsSmall rows.items) }
{
    let mut rows = Vec::with_capacity(alloc, n as usize)?;
    for city in 0..n {
        rows.push(degree_row(alloc, n, city)?)?;
    }
    Ok(rows)
}

/// Adds the row of a condition, if it is on a set.
fn add_clique(alloc: Global, cond: &Cond, rows: &mut Vec<Row>) -> Result<(), AllocError>
    requires { All IsSmall rows.old.items }
    ensures shapes { OnOk result (map shape_of rows.new.items ≡ map shape_of rows.old.items ++ clique_shapes (condition_of cond.now ∷ [])) }
    ensures small { OnOk result (All IsSmall rows.new.items) }
{
    match cond {
        Cond::Two(set) => rows.push(row_of(alloc, Sense::AtMost, 2, set.copy(alloc)?)?)?,
        Cond::Four(set) => rows.push(row_of(alloc, Sense::AtLeast, 4, set.copy(alloc)?)?)?,
        Cond::Fixed(_, _) | Cond::Absent(_, _) | Cond::Present(_, _) => {}
    }
    Ok(())
}

/// Adds the rows of a path's conditions on sets.
fn add_cliques(alloc: Global, conditions: &[Cond], rows: &mut Vec<Row>) -> Result<(), AllocError>
    requires { All IsSmall rows.old.items }
    ensures shapes { OnOk result (map shape_of rows.new.items ≡ map shape_of rows.old.items ++ clique_shapes (conditions_of conditions.now)) }
    ensures small { OnOk result (All IsSmall rows.new.items) }
{
    for cond in conditions {
        add_clique(alloc, cond, rows)?;
    }
    Ok(())
}

/// The rows that a node begins with: those of its cities and of its path.
pub fn first_rows(alloc: Global, n: u32, path: &Path) -> Result<Vec<Row>, AllocError>
    requires many { 3 ≤ n }
    requires few { n ≤ 2000 }
    requires few_cliques { cliques path.now.conditions ≤ 2097152 }
    ensures shapes { IfOk result (λ rows. map shape_of rows.items ≡ first_shapes n path.now.conditions) }
    ensures small { IfOk result (λ rows. All IsSmall rows.items) }
    ensures some { IfOk result (λ rows. length rows.items ≤ 2099152) }
{
    let mut rows = degree_rows(alloc, n)?;
    add_cliques(alloc, path.conditions(), &mut rows)?;
    Ok(rows)
}

/// The row of a cut. The pairs of an odd cut are sets of two cities there.
#[tactic(auto, using(crate::proofs::CutLemmas::few_members))]
pub fn cut_row(alloc: Global, cut: &Cut) -> Result<Row, AllocError>
    ensures shape { IfOk result (λ row. shape_of row ≡ cut_shape cut.now) }
    ensures small { IfOk result IsSmall }
{
    let _few = cut.n();
    let sets = cut.all_sets(alloc)?;
    Ok(Row {
        sense: Sense::AtLeast,
        rhs: cut.rhs(),
        sets,
    })
}
