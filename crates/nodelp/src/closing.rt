//! The closing that the newest duals make.
ghost use Rattle.std.specs.Prelude.{◌≡◌, ◌≤◌, ◌+◌, [], ◌∷◌, ◌++◌, length, take, IfOk, OnOk};
ghost use Rattle.std.specs.List.{AllByRecursion};
ghost use Rattle.tspdef.specs.Cuts.{IsCut};
ghost use Rattle.tspdef.specs.Paths.{branches};
ghost use Rattle.tspdef.specs.Closings as closings;
ghost use Rattle.branchx.specs.Cond.{condition_of, conditions_of};
ghost use Rattle.nodelp.specs.Node.{Node};
ghost use Rattle.nodelp.specs.Shapes.{cliques};
ghost use Rattle.nodelp.specs.Cuts.{AreCutRows};
ghost use Rattle.nodelp.specs.Duals.{dual_at, cut_duals, clique_duals, closing_of, newest_duals};

use branchx::{Cond, Path};
use cutform::Cut;
use pricer::{Closing, round};
use simplex::{Lp, LpAnswer};
use std::alloc::{AllocError, Global};

/// The duals of the newest answer; none before the first solve.
pub fn newest_duals(lp: &Lp) -> &[i128]
    ensures { result.now ≡ newest_duals lp.now.last }
{
    match lp.last() {
        Some(LpAnswer::Solved { duals, .. }) | Some(LpAnswer::Rough { duals, .. }) => duals,
        None => &[],
    }
}

/// The dual of the row at a place.
fn dual_at(ys: &[i128], row: u32) -> i128
    ensures { result ≡ dual_at ys.now row }
{
    ys.get(row as usize).copied().unwrap_or(0)
}

/// The first of some duals.
fn first(ys: &[i128], n: u32) -> &[i128]
    ensures { result.now ≡ take n ys.now }
{
    let (front, _) = ys.split_at(ys.len().min(n as usize));
    front
}

/// Each cut with the dual of its row.
fn cut_duals(
    alloc: Global,
    cuts: &[(Cut, u32)],
    ys: &[i128],
) -> Result<Vec<(Cut, i128)>, AllocError>
    ensures { IfOk result (λ v. v.items ≡ cut_duals ys.now cuts.now) }
{
    let mut duals = Vec::with_capacity(alloc, cuts.len())?;
    for (cut, row) in cuts {
        duals.push((cut.copy(alloc)?, dual_at(ys, *row)))?;
    }
    Ok(duals)
}

/// Adds the depth of a condition with the dual of its row, if it is on a set, and says where the next row is.
fn add_clique_dual(
    duals: &mut Vec<(u32, i128)>,
    cond: &Cond,
    ys: &[i128],
    depth: u32,
    row: u32,
) -> Result<u32, AllocError>
    requires { row ≤ 4196304 }
    ensures row { IfOk result (λ next. next ≡ row + cliques (condition_of cond.now ∷ [])) }
    ensures step { IfOk result (λ next. next ≤ row + 1) }
    ensures duals { OnOk result (duals.new.items ≡ duals.old.items ++ clique_duals ys.now depth row (condition_of cond.now ∷ [])) }
{
    match cond {
        Cond::Two(_) | Cond::Four(_) => {
            duals.push((depth, dual_at(ys, row)))?;
            Ok(row + 1)
        }
        Cond::Fixed(_, _) | Cond::Absent(_, _) | Cond::Present(_, _) => Ok(row),
    }
}

/// The depth of the condition behind one at a depth: a fixed pair has none.
fn depth_behind(cond: &Cond, depth: u32) -> u32
    requires { depth ≤ 4194304 }
    ensures is { result ≡ depth + length (branches (condition_of cond.now ∷ [])) }
    ensures step { result ≤ depth + 1 }
{
    match cond {
        Cond::Fixed(_, _) => depth,
        Cond::Absent(_, _) | Cond::Present(_, _) | Cond::Two(_) | Cond::Four(_) => depth + 1,
    }
}

/// The depths of conditions on sets, each with the dual of its row, where the rows begin at a place.
fn clique_duals(
    alloc: Global,
    conditions: &[Cond],
    ys: &[i128],
    first: u32,
) -> Result<Vec<(u32, i128)>, AllocError>
    requires few { first ≤ 2000 }
    requires short { length conditions.now ≤ 4194304 }
    ensures { IfOk result (λ v. v.items ≡ clique_duals ys.now 1 first (conditions_of conditions.now)) }
{
    let mut duals = Vec::new(alloc);
    let mut row = first;
    let mut depth = 1;
    for cond in conditions {
        row = add_clique_dual(&mut duals, cond, ys, depth, row)?;
        depth = depth_behind(cond, depth);
    }
    Ok(duals)
}

/// The closing of the newest duals.
pub fn of(alloc: Global, path: &Path, cuts: &[(Cut, u32)], lp: &Lp) -> Result<Closing, AllocError>
    requires cities { path.now.n ≡ lp.now.n }
    requires short { length path.now.conditions ≤ 4194304 }
    requires cuts { AreCutRows lp.now.n lp.now.rows cuts.now }
    ensures closing { IfOk result (λ c. c ≡ closing_of path.now.n path.now.conditions (record { program = lp.now; cuts = cuts.now }) (newest_duals lp.now.last)) }
    ensures fits { IfOk result (closings.Fits path.now.n path.now.conditions) }
{
    let n = lp.n();
    let ys = newest_duals(lp);
    let cuts = cut_duals(alloc, cuts, ys)?;
    let conds = clique_duals(alloc, path.conditions(), ys, n)?;
    round(alloc, n, first(ys, n), cuts, conds)
}
