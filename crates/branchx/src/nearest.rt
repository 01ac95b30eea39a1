//! The undecided pair whose value is nearest to a half.
ghost use Rattle.std.specs.Prelude.{◌≡◌, ◌+◌, ◌*◌, ◌<◌, length};
ghost use Rattle.branchx.specs.Table.{IsBestBefore, nearer};

use crate::table::place;
use cyc::Frac;

/// Half a length, in units.
const HALF: u32 = 0x8_0000;

/// An undecided pair, and how far its value is from a half.
#[derive(Clone, Copy)]
pub struct Open {
    pub u: u32,
    pub v: u32,
    pub far: u32,
}

/// The pair that the table leaves open whose value is nearest to a half, by its lower city first.
pub fn nearest_open(x: &Frac, table: &[bool]) -> Option<Open>
    requires { length table.now ≡ x.now.n * x.now.n }
    ensures { IsBestBefore x.now table.now x.now.n 0 result }
{
    let mut best = None;
    for u in 0..x.n() {
        best = nearest_in_row(x, table, u, best);
    }
    best
}

/// The nearest of the best so far and of the open pairs of u with a city above it.
fn nearest_in_row(x: &Frac, table: &[bool], u: u32, before: Option<Open>) -> Option<Open>
    requires square { length table.now ≡ x.now.n * x.now.n }
    requires below { u < x.now.n }
    requires before { IsBestBefore x.now table.now u 0 before }
    ensures { IsBestBefore x.now table.now (u + 1) 0 result }
{
    let n = x.n();
    let mut best = before;
    for v in u + 1..n {
        if !table[place(n, u, v)] {
            let far = x.x(u, v).abs_diff(HALF);
            best = Some(nearer(best, Open { u, v, far }));
        }
    }
    best
}

/// The nearer of the best so far and a later pair.
fn nearer(best: Option<Open>, pair: Open) -> Open
    ensures { result ≡ nearer best pair }
{
    match best {
        Some(best) => { if pair.far < best.far { pair } else { best } }
        None => pair,
    }
}
