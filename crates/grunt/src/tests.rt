//! Nodes that are closed, and one that is split, at their roots.
ghost use Rattle.std.specs.Prelude.{◌≤◌, true, false};

use crate::LpWorker;
use crate::starts::Start;
use crate::work::work_from;
use branchx::{Cond, Path};
use cutform::{Cut, Kind as CutKind};
use cutpool::{CutBox, CutPool, NoCuts};
use cyc::{CitySet, Frac};
use distx::{Kind, Point};
use neigh::nearest;
use nodelp::NodeLp;
use ports::{MemDesk, Room};
use pricer::{Fit, Report, bound, fits};
use simplex::LpAnswer;
use std::alloc::{AllocError, Global};
use std::process::Abort;
use std::test::Fail;
use std::thread;
use tspinst::{Instance, from_points, read};
use worker::{OddAnswer, Why, Work, Worker, root_path};

/// Two triangles of sides 1, and 10 between them.
const GROUPS: &[u8] =
    b"TYPE : TSP\nDIMENSION : 6\nEDGE_WEIGHT_TYPE : EXPLICIT\nEDGE_WEIGHT_FORMAT : UPPER_ROW\nEDGE_WEIGHT_SECTION\n1 1 10 10 10\n1 10 10 10\n10 10 10\n1 1\n1\nEOF\n";

/// Two triangles of sides 1 whose corners are joined two by two by sides of no length.
const PRISM: &[u8] =
    b"TYPE : TSP\nDIMENSION : 6\nEDGE_WEIGHT_TYPE : EXPLICIT\nEDGE_WEIGHT_FORMAT : UPPER_ROW\nEDGE_WEIGHT_SECTION\n1 1 0 100 100\n1 100 0 100\n100 100 0\n1 1\n1\nEOF\n";

/// The pairs of Petersen's graph have length 1, all others 2: no tour is shorter than 11, and values of two thirds on the 15 pairs
/// of the graph miss no comb and have length 10.
const PETERSEN: &[u8] =
    b"TYPE : TSP\nDIMENSION : 10\nEDGE_WEIGHT_TYPE : EXPLICIT\nEDGE_WEIGHT_FORMAT : UPPER_ROW\nEDGE_WEIGHT_SECTION\n1 2 2 1 1 2 2 2 2\n1 2 2 2 1 2 2 2\n1 2 2 2 1 2 2\n1 2 2 2 1 2\n2 2 2 2 1\n2 1 1 2\n2 1 1\n2 1\n2\nEOF\n";

/// A square of side 10, its corners in turn.
fn square(alloc: Global) -> Result<Instance, Fail> {
    let points = [
        Point::new(0, 0),
        Point::new(10, 0),
        Point::new(10, 10),
        Point::new(0, 10),
    ];
    Ok(from_points(alloc, Kind::Euc, &points)?)
}

/// What a text says.
fn told(alloc: Global, text: &[u8]) -> Result<Instance, Fail> {
    let room = Room {
        bytes: 0,
        paths: 0,
        calls: 100_000,
    };
    let mut desk = MemDesk::new(alloc, text, b"", 65_536, 1, &[], &[], &[], room)?;
    Ok(read(alloc, &mut desk)?)
}

/// What a worker does at the root, over lists of three near cities, with a box and no gap.
fn boxed_work<W: Worker, B: CutBox>(
    rt: &impl Abort,
    alloc: Global,
    worker: &W,
    shared: &mut B,
    instance: &Instance,
    best: u64,
) -> Result<Work, Fail> {
    assert!(rt; instance.n() > 3);
    assert!(rt; best < 1 << 42);
    let near = nearest(alloc, instance, 3)?;
    let path = root_path(alloc, instance)?;
    Ok(worker.work(alloc, instance, &near, shared, &path, best, 1, 0)?)
}

/// What a worker does at the root without a box.
fn root_work<W: Worker>(
    rt: &impl Abort,
    alloc: Global,
    worker: &W,
    instance: &Instance,
    best: u64,
) -> Result<Work, Fail> {
    boxed_work(rt, alloc, worker, &mut NoCuts, instance, best)
}

/// A box that keeps copies of the cuts that are shared, and gives nothing.
#[derive(Drop)]
struct Recorder {
    cuts: Vec<Cut>,
}

impl CutBox for Recorder {
    ghost honest = { true };

    fn share(&mut self, alloc: Global, cut: &Cut) -> Result<(), AllocError> {
        self.cuts.push(cut.copy(alloc)?)?;
        Ok(())
    }

    fn fetch(&mut self, alloc: Global, _x: &Frac) -> Result<Vec<Cut>, AllocError> {
        Ok(Vec::new(alloc))
    }
}

/// A box that keeps nothing, and gives the same cuts for ever, 65,536 of them: cuts of other cities, cuts that each x meets, and one
/// cut many times.
#[derive(Drop)]
struct Liar {
    foreign: Cut,
    met: Cut,
    same: Cut,
}

impl CutBox for Liar {
    ghost honest = { false };

    fn share(&mut self, _alloc: Global, _cut: &Cut) -> Result<(), AllocError> {
        Ok(())
    }

    fn fetch(&mut self, alloc: Global, _x: &Frac) -> Result<Vec<Cut>, AllocError> {
        let mut cuts = Vec::new(alloc);
        for _ in 0..16_384u32 {
            cuts.push(self.foreign.copy(alloc)?)?;
            cuts.push(self.met.copy(alloc)?)?;
            cuts.push(self.same.copy(alloc)?)?;
            cuts.push(self.same.copy(alloc)?)?;
        }
        Ok(cuts)
    }
}

/// The subtour cut of some cities.
fn subtour(alloc: Global, n: u32, cities: &[u32]) -> Result<Cut, Fail>
    requires many { 3 ≤ n }
    requires few { n ≤ 2000 }
{
    Ok(Cut::subtour(
        alloc,
        CitySet::new(alloc, n, Vec::from_slice(alloc, cities)?)?,
    )?)
}

/// The comb that the values of a prism violate.
fn prism_comb(alloc: Global) -> Result<Cut, Fail> {
    let mut teeth = Vec::new(alloc);
    for u in 0..3u32 {
        teeth.push(CitySet::new(alloc, 6, Vec::from_slice(alloc, &[u, u + 3])?)?)?;
    }
    let handle = CitySet::new(alloc, 6, Vec::from_slice(alloc, &[0, 1, 2])?)?;
    Ok(Cut::comb(alloc, handle, teeth)?)
}

/// Whether there is a comb among some cuts.
fn has_comb(cuts: &[Cut]) -> bool {
    cuts.iter().any(|cut| cut.kind() == CutKind::Comb)
}

/// Whether the work closes the root by a closing with a bound above a number.
fn closes_above(
    rt: &impl Abort,
    alloc: Global,
    instance: &Instance,
    work: &Work,
    number: i128,
) -> Result<bool, Fail> {
    let path = root_path(alloc, instance)?;
    match &work.report {
        Report::Closed(closing) => {
            assert_eq!(rt; fits(instance, &path, closing), Fit::Fits);
            Ok(bound(instance, &path, closing) > number)
        }
        Report::Split(_) => Ok(false),
    }
}

/// Whether the reason of a split is a checked answer, with an odd cut that is hardly violated or none.
fn is_checked(work: &Work) -> bool {
    match &work.why {
        Some(Why::Checked(_, OddAnswer::Least(odd))) => odd.weight > 0xf_f000,
        Some(Why::Checked(_, OddAnswer::NoneBelow)) => true,
        _ => false,
    }
}

/// Whether the work closes the root by duals of which a comb has one.
fn closes_by_a_comb(work: &Work) -> bool {
    match &work.report {
        Report::Closed(closing) => closing
            .cuts()
            .iter()
            .any(|(cut, _)| cut.kind() == CutKind::Comb),
        Report::Split(_) => false,
    }
}

/// The length of the tour that was found; 0 if there is none.
fn found_length(instance: &Instance, work: &Work) -> u64 {
    match &work.tour {
        Some(tour) => {
            if tour.n() == instance.n() {
                instance.length(tour)
            } else {
                0
            }
        }
        None => 0,
    }
}

#[test]
fn the_square_is_closed_at_its_root(rt: HostRuntime) -> Result<(), Fail> {
    let alloc = rt.alloc();
    let instance = square(alloc)?;
    let work = root_work(&rt, alloc, &LpWorker::new(alloc), &instance, 40)?;
    assert!(rt; closes_above(&rt, alloc, &instance, &work, 40_894_464)?);
    assert!(rt; work.tour.is_none());
    assert!(rt; work.why.is_none());
    assert_eq!(rt; work.effort.closed, 1);
    assert_eq!(rt; work.effort.split, 0);
    assert_eq!(rt; work.effort.programs, 1);
    Ok(())
}

#[test]
fn groups_are_closed_by_a_subtour_cut(rt: HostRuntime) -> Result<(), Fail> {
    let alloc = rt.alloc();
    let instance = told(alloc, GROUPS)?;
    let work = root_work(&rt, alloc, &LpWorker::new(alloc), &instance, 24)?;
    assert!(rt; closes_above(&rt, alloc, &instance, &work, 23 << 20)?);
    assert!(rt; 0 < work.effort.subtours);
    Ok(())
}

/// The values of the least relaxation by subtour cuts have length 3.
#[test]
fn the_prism_is_closed_by_a_comb(rt: HostRuntime) -> Result<(), Fail> {
    let alloc = rt.alloc();
    let instance = told(alloc, PRISM)?;
    let work = root_work(&rt, alloc, &LpWorker::new(alloc), &instance, 4)?;
    assert!(rt; closes_above(&rt, alloc, &instance, &work, 3 << 20)?);
    assert!(rt; closes_by_a_comb(&work));
    assert!(rt; 0 < work.effort.blossoms);
    assert!(rt; work.tour.is_none());
    Ok(())
}

#[test]
fn a_tour_is_found_on_the_way(rt: HostRuntime) -> Result<(), Fail> {
    let alloc = rt.alloc();
    let instance = told(alloc, PRISM)?;
    let work = root_work(&rt, alloc, &LpWorker::new(alloc), &instance, 300)?;
    assert_eq!(rt; found_length(&instance, &work), 4);
    assert!(rt; closes_above(&rt, alloc, &instance, &work, 3 << 20)?);
    Ok(())
}

#[test]
fn petersens_graph_is_split_with_a_reason(rt: HostRuntime) -> Result<(), Fail> {
    let alloc = rt.alloc();
    let instance = told(alloc, PETERSEN)?;
    let work = root_work(&rt, alloc, &LpWorker::new(alloc), &instance, 11)?;
    assert!(rt; is_checked(&work));
    assert_eq!(rt; work.hint, 10);
    assert_eq!(rt; work.effort.closed, 0);
    assert_eq!(rt; work.effort.split, 1);
    assert!(rt; 0 < work.effort.rounds);
    assert_eq!(rt; work.effort.most_rounds, work.effort.rounds);
    assert!(rt; 0 < work.effort.columns);
    assert!(rt; matches!(&work.report, Report::Split(_)));
    Ok(())
}

#[test]
fn cuts_are_shared(rt: HostRuntime) -> Result<(), Fail> {
    let alloc = rt.alloc();
    let instance = told(alloc, PRISM)?;
    let mut recorder = Recorder {
        cuts: Vec::new(alloc),
    };
    let work = boxed_work(
        &rt,
        alloc,
        &LpWorker::new(alloc),
        &mut recorder,
        &instance,
        4,
    )?;
    assert!(rt; closes_above(&rt, alloc, &instance, &work, 3 << 20)?);
    assert!(rt; has_comb(&recorder.cuts));
    Ok(())
}

#[test]
fn cuts_of_a_pool_are_used(rt: HostRuntime) -> Result<(), Fail> {
    let alloc = rt.alloc();
    let instance = told(alloc, PRISM)?;
    let mut pool = CutPool::new(alloc, 6);
    let first = boxed_work(&rt, alloc, &LpWorker::new(alloc), &mut pool, &instance, 4)?;
    let many = pool.len();
    assert!(rt; 0 < many);
    let second = boxed_work(&rt, alloc, &LpWorker::new(alloc), &mut pool, &instance, 4)?;
    assert!(rt; closes_above(&rt, alloc, &instance, &second, 3 << 20)?);
    assert!(rt; second.effort.rounds <= first.effort.rounds);
    assert_eq!(rt; pool.len(), many);
    Ok(())
}

#[test]
fn a_box_that_lies_costs_time_alone(rt: HostRuntime) -> Result<(), Fail> {
    let alloc = rt.alloc();
    let instance = told(alloc, PRISM)?;
    let mut liar = Liar {
        foreign: subtour(alloc, 7, &[0, 1])?,
        met: subtour(alloc, 6, &[0])?,
        same: prism_comb(alloc)?,
    };
    let work = boxed_work(&rt, alloc, &LpWorker::new(alloc), &mut liar, &instance, 4)?;
    assert!(rt; closes_above(&rt, alloc, &instance, &work, 3 << 20)?);
    assert!(rt; closes_by_a_comb(&work));
    Ok(())
}

/// What the root of an instance leaves to its children after one solve.
fn left_at_root(rt: &impl Abort, alloc: Global, instance: &Instance) -> Result<Start, Fail> {
    assert!(rt; instance.n() > 3);
    let near = nearest(alloc, instance, 3)?;
    let path = root_path(alloc, instance)?;
    assert!(rt; path.conditions().is_empty());
    let mut node = NodeLp::new(alloc, instance, &near, &path)?;
    node.solve(alloc)?;
    Ok(Start::of(alloc, &node, 1 << 40)?)
}

/// A start of the petersen graph names cities that a prism lacks, and rows and a basis of another program.
#[test]
fn a_start_of_another_node_costs_time_alone(rt: HostRuntime) -> Result<(), Fail> {
    let alloc = rt.alloc();
    let other = told(alloc, PETERSEN)?;
    let start = left_at_root(&rt, alloc, &other)?;
    let instance = told(alloc, PRISM)?;
    assert!(rt; instance.n() > 3);
    let near = nearest(alloc, &instance, 3)?;
    let path = root_path(alloc, &instance)?;
    let (work, _) = work_from(
        alloc,
        &instance,
        &near,
        &mut NoCuts,
        &path,
        4,
        1,
        0,
        Some(&start),
    )?;
    assert!(rt; closes_above(&rt, alloc, &instance, &work, 3 << 20)?);
    Ok(())
}

/// Numbers that look random (a linear congruence modulo 2^64, its high bits).
fn next(state: &mut u64, below: u32) -> u32 {
    *state = state
        .wrapping_mul(6_364_136_223_846_793_005)
        .wrapping_add(1_442_695_040_888_963_407);
    (*state >> 33) as u32 % below.max(1)
}

/// Pairs that are drawn of more cities than there are, some of one city twice.
fn drawn_pairs(alloc: Global, state: &mut u64) -> Result<Vec<(u32, u32)>, AllocError> {
    let mut pairs = Vec::new(alloc);
    for _ in 0..next(state, 40) {
        pairs.push((next(state, 12), next(state, 12)))?;
    }
    Ok(pairs)
}

/// Keys that are drawn, and that need not rise; of pairs that there are, now and then.
fn drawn_keys(alloc: Global, state: &mut u64) -> Result<Vec<u64>, AllocError> {
    let mut keys = Vec::new(alloc);
    for _ in 0..next(state, 30) {
        let u = u64::from(next(state, 12));
        keys.push((u << 32) | u64::from(next(state, 12)))?;
    }
    Ok(keys)
}

/// Of more or fewer rows than there are, whether the slack is basic.
fn drawn_slacks(alloc: Global, state: &mut u64) -> Result<Vec<bool>, AllocError> {
    let mut slacks = Vec::new(alloc);
    for _ in 0..next(state, 20) {
        slacks.push(next(state, 2) == 0)?;
    }
    Ok(slacks)
}

/// Subtour cuts of two cities of six, or of seven.
fn drawn_cuts(alloc: Global, state: &mut u64) -> Result<Vec<Cut>, Fail> {
    let mut cuts = Vec::new(alloc);
    for _ in 0..next(state, 6) {
        let first = next(state, 5).min(4);
        let n = if next(state, 2) == 0 { 6 } else { 7 };
        cuts.push(subtour(alloc, n, &[first, first + 1])?)?;
    }
    Ok(cuts)
}

/// A start of which nothing is true.
fn drawn_start(alloc: Global, state: &mut u64) -> Result<Start, Fail> {
    let pairs = drawn_pairs(alloc, state)?;
    let basic = drawn_keys(alloc, state)?;
    let slacks = drawn_slacks(alloc, state)?;
    Ok(Start::saying(pairs, basic, slacks, drawn_cuts(alloc, state)?))
}

/// Whatever a start says, the prism is closed as it is without one: above three lengths.
#[test]
fn drawn_starts_cost_time_alone(rt: HostRuntime) -> Result<(), Fail> {
    let alloc = rt.alloc();
    let instance = told(alloc, PRISM)?;
    assert!(rt; instance.n() > 3);
    let near = nearest(alloc, &instance, 3)?;
    let path = root_path(alloc, &instance)?;
    let mut state = 27;
    for _ in 0..60 {
        let start = drawn_start(alloc, &mut state)?;
        let (work, _) = work_from(
            alloc,
            &instance,
            &near,
            &mut NoCuts,
            &path,
            4,
            1,
            0,
            Some(&start),
        )?;
        assert!(rt; closes_above(&rt, alloc, &instance, &work, 3 << 20)?);
    }
    Ok(())
}

/// What the values of the program cost that is the reason of a split, in units.
fn costs_of_reason(work: &Work) -> u64 {
    let mut total: u64 = 0;
    if let Some(Why::Checked(lp, _)) = &work.why {
        if let Some(LpAnswer::Solved { x, .. }) = lp.last() {
            for column in lp.cols() {
                if column.u < x.n() && column.v < x.n() {
                    let value = u64::from(x.x(column.u, column.v));
                    total = total.wrapping_add(u64::from(column.cost).wrapping_mul(value));
                }
            }
        }
    }
    total
}

/// Whatever a start says, Petersen's graph is split as it is without one: where its program is solved, at length 10.
#[test]
fn drawn_starts_are_no_reason_to_split(rt: HostRuntime) -> Result<(), Fail> {
    let alloc = rt.alloc();
    let instance = told(alloc, PETERSEN)?;
    assert!(rt; instance.n() > 3);
    let near = nearest(alloc, &instance, 3)?;
    let path = root_path(alloc, &instance)?;
    let mut state = 5;
    for _ in 0..20 {
        let start = drawn_start(alloc, &mut state)?;
        let (work, _) = work_from(
            alloc,
            &instance,
            &near,
            &mut NoCuts,
            &path,
            11,
            1,
            0,
            Some(&start),
        )?;
        assert!(rt; is_checked(&work));
        assert!(rt; costs_of_reason(&work).abs_diff(10 << 20) < 1 << 14);
        // the bound may lack some units, and the hint is rounded down
        assert!(rt; work.hint == 9 || work.hint == 10);
    }
    Ok(())
}

#[test]
fn threads_share_a_worker(rt: HostRuntime) -> Result<(), Fail> {
    let alloc = rt.alloc();
    let worker = LpWorker::new(alloc);
    let path = Path::new(alloc, 6);
    let (first, second) = thread::join(
        &rt,
        || worker.start_for(&path).is_none(),
        || worker.start_for(&path).is_none(),
    );
    assert!(rt; first && second);
    Ok(())
}

/// What is kept for a node is given twice, to each of its children, and then let go.
#[test]
fn two_children_begin_with_what_is_kept(rt: HostRuntime) -> Result<(), Fail> {
    let alloc = rt.alloc();
    let instance = told(alloc, PETERSEN)?;
    let worker = LpWorker::new(alloc);
    let start = left_at_root(&rt, alloc, &instance)?;
    let root = Path::new(alloc, 10);
    worker.keep(alloc, &root, Some(start))?;
    assert!(rt; worker.start_for(&root).is_none());
    let mut child = Path::new(alloc, 10);
    child.push(Cond::Absent(0, 1))?;
    assert!(rt; worker.start_for(&child).is_some());
    assert!(rt; worker.start_for(&child).is_some());
    assert!(rt; worker.start_for(&child).is_none());
    Ok(())
}
