//! Square tables that are filled pair by pair.

ghost use Rattle.std.specs.Prelude.{◌≡◌, ◌≢◌, ℕ, ◌+◌, ◌*◌, ◌^◌, ◌<◌, ◌≤◌, length, replicate, IfOk};
ghost use Rattle.distx.specs.Kind.{rule_of};
ghost use Rattle.tspinst.specs.Tables.{IsTable, Fills, put, distances, instance_of};

use crate::table::Instance;
use distx::{Kind, Point, dist};
use std::alloc::{AllocError, Global};

/// A table of zeros.
#[tactic(auto, using(crate::proofs::TableLemmas::zeros_table))]
pub fn zeros(alloc: Global, n: usize) -> Result<Vec<u32>, AllocError>
    requires many { 3 ≤ n }
    requires few { n ≤ 2000 }
    ensures same { IfOk result (λ v. v.items ≡ replicate (n * n) 0) }
    ensures table { IfOk result (λ v. IsTable n v.items) }
{
    vec![in alloc; 0; n * n]
}

/// Sets the distance of two cities, in both directions.
pub fn set_distance(table: &mut [u32], n: usize, u: usize, v: usize, d: u32)
    requires table { IsTable n table.old }
    requires from { u < n }
    requires to { v < n }
    requires apart { u ≢ v }
    requires small { d < 2 ^ 30 }
    ensures table { IsTable n table.new }
    ensures same { table.new ≡ put n table.old u v d }
{
    table[u * n + v] = d;
    table[v * n + u] = d;
}

/// Sets the distances of point `u` to those before it.
#[tactic(auto, using(crate::proofs::FillLemmas::fill_steps))]
fn fill_row(kind: Kind, points: &[Point], u: usize, table: &mut [u32])
    requires table { IsTable (length points.now) table.old }
    requires row { u < length points.now }
    requires fills { Fills (rule_of kind) points.now table.old u 0 }
    ensures table { IsTable (length points.now) table.new }
    ensures fills { Fills (rule_of kind) points.now table.new (u + 1) 0 }
{
    let n = points.len();
    for v in 0..u {
        set_distance(table, n, u, v, dist(kind, points[u], points[v]));
    }
}

/// Fills a table with the distances of all points.
#[tactic(auto, using(crate::proofs::FillLemmas::fill_steps))]
pub fn fill(kind: Kind, points: &[Point], table: &mut [u32])
    requires table { IsTable (length points.now) table.old }
    ensures table { IsTable (length points.now) table.new }
    ensures same { table.new ≡ distances (rule_of kind) points.now }
{
    for u in 0..points.len() {
        fill_row(kind, points, u, table);
    }
}

/// The table of the distances of 3 to 2,000 points.
pub fn table_of_points(alloc: Global, kind: Kind, points: &[Point]) -> Result<Vec<u32>, AllocError>
    requires many { 3 ≤ length points.now }
    requires few { length points.now ≤ 2000 }
    ensures table { IfOk result (λ v. IsTable (length points.now) v.items) }
    ensures same { IfOk result (λ v. v.items ≡ distances (rule_of kind) points.now) }
{
    let mut table = zeros(alloc, points.len())?;
    fill(kind, points, &mut table);
    Ok(table)
}

/// The instance of 3 to 2,000 points, whose distances are of this kind.
pub fn from_points(alloc: Global, kind: Kind, points: &[Point]) -> Result<Instance, AllocError>
    requires many { 3 ≤ length points.now }
    requires few { length points.now ≤ 2000 }
    ensures { IfOk result (λ i. i ≡ instance_of (rule_of kind) points.now) }
{
    let table = table_of_points(alloc, kind, points)?;
    Ok(Instance::of_table(alloc, points.len() as u32, table))
}
