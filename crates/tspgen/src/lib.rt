//! Instances for benches: points that a seed draws.
#![tactic(auto)]

ghost use Rattle.std.specs.Prelude.{◌≡◌, ◌≤◌, ◌<◌, ◌^◌, pos, nat_abs, IfOk};
ghost use Rattle.tspgen.specs.Points.{seeded, coordinate, after, point, points, drawn};

use distx::{Kind, Point};
use rand_core::SeedableRng;
use rand_core::utils::NextWord;
use rand_pcg::Pcg32;
use std::alloc::{AllocError, Global};
use tspinst::{Instance, from_points};

/// The generator that a seed starts.
#[tactic(auto, unfolding(crate::specs::Points::seeded))]
fn seeded(seed: u64) -> Pcg32
    ensures { result ≡ seeded seed }
{
    Pcg32::seed_from_u64(seed)
}

/// Draws a coordinate: the high 20 bits of the next word.
fn coordinate(random: &mut Pcg32) -> i32
    ensures value { result ≡ pos (coordinate random.old) }
    ensures next { random.new ≡ after random.old }
    ensures small { nat_abs result < 2 ^ 20 }
{
    (random.next_word() >> 12) as i32
}

/// Draws a point: its x, and then its y.
fn point(random: &mut Pcg32) -> Point
    ensures value { result ≡ point random.old }
    ensures next { random.new ≡ after (after random.old) }
{
    let x = coordinate(random);
    let y = coordinate(random);
    Point::new(x, y)
}

/// Draws so many points.
#[tactic(auto, using(crate::proofs::PointLemmas::one_more, crate::proofs::PointLemmas::no_more))]
fn points(alloc: Global, random: &mut Pcg32, n: u32) -> Result<Vec<Point>, AllocError>
    ensures { IfOk result (λ v. v.items ≡ points n random.old) }
{
    let mut points = Vec::with_capacity(alloc, n as usize)?;
    for _ in 0..n {
        points.push(point(random))?;
    }
    Ok(points)
}

/// The instance of `n` cities that a seed draws: a `Pcg32` from the seed; for each city in order its x and then its y, each the
/// next 32-bit word without its 12 low bits; distances of the kind Euc (EUC_2D of TSPLIB 95). The same seed and `n` give the
/// same instance. It takes O(n^2).
#[tactic(auto, using(crate::proofs::PointLemmas::length_points))]
pub fn make(alloc: Global, seed: u64, n: u32) -> Result<Instance, AllocError>
    requires many { 3 ≤ n }
    requires few { n ≤ 2000 }
    ensures { IfOk result (λ i. i ≡ drawn seed n) }
{
    let mut random = seeded(seed);
    let points = points(alloc, &mut random, n)?;
    from_points(alloc, Kind::Euc, &points)
}

#[cfg(test)]
mod tests;
