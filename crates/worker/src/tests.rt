ghost use Rattle.std.specs.Prelude.{◌≡◌};

use crate::{PlainWorker, Work, Worker};
use branchx::{Branch, Cond, Path};
use cutpool::NoCuts;
use distx::{Kind, Point};
use neigh::nearest;
use pricer::Report;
use std::alloc::{AllocError, Global};
use std::process::Abort;
use std::test::Fail;
use tspinst::{Instance, from_points};

/// The four corners of a square of side 10.
fn square(alloc: Global) -> Result<Instance, AllocError> {
    let corners = [
        Point::new(0, 0),
        Point::new(0, 10),
        Point::new(10, 10),
        Point::new(10, 0),
    ];
    from_points(alloc, Kind::Euc, &corners)
}

/// Whether the work splits a node by a pair, without a tour or a reason.
fn splits_by(work: &Work, u: u32, v: u32) -> bool {
    match &work.report {
        Report::Split(Branch::Edge(a, b)) => {
            *a == u && *b == v && work.tour.is_none() && work.why.is_none()
        }
        _ => false,
    }
}

/// Whether the work closes a node by duals that are all 0.
fn closes_by_zeros(work: &Work) -> bool {
    match &work.report {
        Report::Closed(closing) => {
            closing.city() == [0i64, 0, 0, 0].as_slice()
                && closing.cuts().is_empty()
                && closing.conds().is_empty()
        }
        Report::Split(_) => false,
    }
}

/// Whether the tour that was found is this one.
fn finds(work: &Work, cities: &[u32]) -> bool {
    match &work.tour {
        Some(tour) => tour.cities() == cities,
        None => false,
    }
}

/// What the plain worker does at a path of four cities, of which no pair is fixed.
#[tactic(auto, using(crate::proofs::RootPaths::unfixed_begins))]
fn plain_work(
    rt: &impl Abort,
    alloc: Global,
    square: &Instance,
    path: &Path,
    best: u64,
    gap: u64,
) -> Result<Work, Fail>
    requires { path.now.n ≡ 4 }
{
    assert_eq!(rt; square.n(), 4);
    assert!(rt; square.fixed().is_empty());
    assert!(rt; best < 100);
    let near = nearest(alloc, square, 3)?;
    Ok(PlainWorker.work(alloc, square, &near, &mut NoCuts, path, best, 1, gap)?)
}

#[test]
fn the_plain_worker_splits_a_square(rt: HostRuntime) -> Result<(), Fail> {
    let alloc = rt.alloc();
    let square = square(alloc)?;
    let path = Path::new(alloc, 4);
    let work = plain_work(&rt, alloc, &square, &path, 40, 0)?;
    assert!(rt; splits_by(&work, 0, 1));
    assert_eq!(rt; work.hint, 0);
    Ok(())
}

/// No tour is shorter than nothing.
#[test]
fn a_gap_of_the_best_length_closes_a_root(rt: HostRuntime) -> Result<(), Fail> {
    let alloc = rt.alloc();
    let square = square(alloc)?;
    let path = Path::new(alloc, 4);
    for gap in [40u64, 41] {
        let work = plain_work(&rt, alloc, &square, &path, 40, gap)?;
        assert!(rt; closes_by_zeros(&work));
        assert!(rt; work.tour.is_none());
    }
    let work = plain_work(&rt, alloc, &square, &path, 40, 39)?;
    assert!(rt; splits_by(&work, 0, 1));
    Ok(())
}

#[test]
fn a_path_that_decides_all_is_closed(rt: HostRuntime) -> Result<(), Fail> {
    let alloc = rt.alloc();
    let square = square(alloc)?;
    let mut path = Path::new(alloc, 4);
    path.push(Cond::Present(0, 1))?;
    path.push(Cond::Present(1, 2))?;
    path.push(Cond::Present(2, 3))?;
    path.push(Cond::Present(0, 3))?;
    path.push(Cond::Absent(0, 2))?;
    path.push(Cond::Absent(1, 3))?;
    let work = plain_work(&rt, alloc, &square, &path, 48, 0)?;
    assert!(rt; finds(&work, &[0, 1, 2, 3]));
    assert!(rt; closes_by_zeros(&work));
    assert_eq!(rt; work.hint, 40);
    Ok(())
}
