//! The tests.
ghost use Rattle.std.specs.Prelude.{◌≤◌};

use crate::games::{Draw, play};
use crate::tallies::Tally;
use std::alloc::Global;
use std::sync::Wait;
use std::test::Fail;
use std::thread::Threads;

/// Games on drawn instances of so many cities, with two to five grunts. In one game of four the worker is honest, and in the others it
/// makes up a quarter to three quarters of its works; in every other four all its closings fit.
fn games<R: Threads + Wait + Sync>(rt: &R, alloc: Global, n: u32, count: u64) -> Result<Tally, Fail>
    requires many { 3 ≤ n }
    requires few { n ≤ 2000 }
{
    let mut tally = Tally::new();
    for seed in 0..count {
        let draw = Draw {
            seed,
            n,
            grunts: (seed / 4 % 4) as u32 + 2,
            lies: seed % 4 * 6,
            is_fitting: seed % 8 < 4,
        };
        play(rt, alloc, draw, &mut tally)?;
    }
    Ok(tally)
}

/// Whether each game ended right, no round lost a report but by its fate, so many rounds were played and so many games answered, and
/// something was refused.
fn is_as_promised(tally: &Tally, rounds: u64, answered: u64) -> bool {
    tally.right == tally.games
        && tally.kept == tally.rounds
        && tally.rounds >= rounds
        && tally.answered >= answered
        && tally.came > tally.taken
        && tally.unfit > 0
}

#[test]
fn four_hundred_rounds_on_five_cities(rt: HostRuntime) -> Result<(), Fail> {
    let tally = games(&rt, rt.alloc(), 5, 400)?;
    assert!(rt; is_as_promised(&tally, 400, 200), "{tally:?}");
    Ok(())
}

#[test]
fn three_hundred_rounds_on_six_cities(rt: HostRuntime) -> Result<(), Fail> {
    let tally = games(&rt, rt.alloc(), 6, 300)?;
    assert!(rt; is_as_promised(&tally, 300, 150), "{tally:?}");
    Ok(())
}

#[test]
fn two_hundred_rounds_on_seven_cities(rt: HostRuntime) -> Result<(), Fail> {
    let tally = games(&rt, rt.alloc(), 7, 200)?;
    assert!(rt; is_as_promised(&tally, 200, 60), "{tally:?}");
    Ok(())
}

#[test]
fn a_hundred_rounds_on_eight_cities(rt: HostRuntime) -> Result<(), Fail> {
    let tally = games(&rt, rt.alloc(), 8, 100)?;
    assert!(rt; is_as_promised(&tally, 100, 15), "{tally:?}");
    Ok(())
}
