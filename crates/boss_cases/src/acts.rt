//! Bosses over the square, and events that are written in short.
ghost use Rattle.std.specs.Prelude.{IsTrue};
ghost use Rattle.tspdef.specs.Instances.{IsTourOf};
ghost use Rattle.bossx.specs.Steps.{IsCall};

use bossx::{Asked, Boss, Brought, Event, Reply, first_off};
use branchx::{Branch, Path};
use cyc::Tour;
use distx::{Kind, Point};
use pricer::{Closing, Priced, Pricing, Report};
use std::alloc::Global;
use std::sync::Arc;
use std::test::Fail;
use treebook::Tree;
use tspinst::{Instance, from_points};

/// An event on the square. Duals of cities are all the same.
#[derive(Clone, Copy)]
pub(crate) enum Act {
    Ask(u32),
    /// A split for a lease.
    Split(u32, u32, u32),
    /// The same with a key.
    Hint(u32, u32, u32, i64),
    /// A closing of so many cities for a lease.
    Close(u32, usize, i64),
    /// The same, priced for the square at the root.
    CloseSquare(u32, i64),
    /// The same, priced for the triangle of sides 3, 4, 5 at the root.
    CloseTriangle(u32, i64),
    /// A split of a node by the boss itself.
    Own(u32, u32, u32),
    Gone(u32),
    Expire(u32),
    Offer([u32; 4]),
    /// A tour of three cities.
    OfferThree,
}

fn square(alloc: Global) -> Result<Instance, Fail> {
    let corners = [
        Point::new(0, 0),
        Point::new(0, 10),
        Point::new(10, 10),
        Point::new(10, 0),
    ];
    Ok(from_points(alloc, Kind::Euc, &corners)?)
}

fn triangle(alloc: Global) -> Result<Instance, Fail> {
    let points = [Point::new(0, 0), Point::new(3, 0), Point::new(0, 4)];
    Ok(from_points(alloc, Kind::Euc, &points)?)
}

/// The tour of these cities.
fn tour(alloc: Global, cities: &[u32]) -> Result<Tour, Fail> {
    if cities.len() < 3 || cities.len() > 2000 {
        return Err("no tour".into());
    }
    Ok(Tour::new(alloc, cities.len() as u32, Vec::from_slice(alloc, cities)?)?)
}

/// Whether a tour has the cities and the fixed pairs of an instance.
fn is_tour_of(instance: &Instance, tour: &Tour) -> bool
    ensures { IsTrue result → IsTourOf instance.now tour.now }
{
    if tour.n() != instance.n() {
        return false;
    }
    match first_off(tour.cities(), instance.fixed()) {
        Some(_) => false,
        None => true,
    }
}

/// A boss over the tree of one open node.
fn boss(
    alloc: Global,
    instance: &Instance,
    best: Tour,
    budget: u32,
    grunts: u32,
    gap: u64,
) -> Result<Boss, Fail> {
    if budget > 500_000 || grunts < 1 || grunts > 64 {
        return Err("too many".into());
    }
    if !is_tour_of(instance, &best) {
        return Err("no tour of the instance".into());
    }
    let tree = Tree::with_fixed(alloc, instance.n(), instance.fixed())?;
    Ok(Boss::start(alloc, instance, tree, best, budget, grunts, gap)?)
}

/// A boss over the square, with its shortest tour and two grunts.
pub(crate) fn square_boss(alloc: Global, budget: u32, gap: u64) -> Result<Boss, Fail> {
    let instance = square(alloc)?;
    let best = tour(alloc, &[0, 1, 2, 3])?;
    boss(alloc, &instance, best, budget, 2, gap)
}

/// A boss over the square with fixed pairs, and with this tour.
pub(crate) fn boss_with(
    alloc: Global,
    fixed: &[(u32, u32)],
    cities: [u32; 4],
) -> Result<Boss, Fail> {
    let instance = square(alloc)?.fix(alloc, fixed)?;
    let best = tour(alloc, &cities)?;
    boss(alloc, &instance, best, 1, 2, 0)
}

/// A lease of a node where the best tour has length 40.
pub(crate) fn leased(lease: u32, node: u32) -> Reply {
    Reply::Asked(Asked::Leased {
        lease,
        node,
        best: 40,
    })
}

fn closing(alloc: Global, count: usize, dual: i64) -> Result<Closing, Fail> {
    let city = vec![in alloc; dual; count]?;
    Ok(Closing::new(city, Vec::new(alloc), Vec::new(alloc)))
}

fn priced(alloc: Global, instance: Instance, dual: i64) -> Result<Brought, Fail> {
    let n = instance.n();
    let path = Path::new(alloc, n);
    let shared = Arc::new(alloc, instance)?;
    match Priced::new(shared, path, closing(alloc, n as usize, dual)?) {
        Pricing::Priced(priced) => Ok(Brought::Weighed(priced)),
        Pricing::Misfit(_) => Err("a misfit".into()),
    }
}

fn split(u: u32, v: u32) -> Report {
    Report::Split(Branch::Edge(u, v))
}

fn event(alloc: Global, act: Act) -> Result<Event, Fail> {
    Ok(match act {
        Act::Ask(grunt) => Event::Ask(grunt),
        Act::Split(lease, u, v) => Event::Report(lease, Brought::Plain(split(u, v))),
        Act::Hint(lease, u, v, hint) => {
            Event::Report(lease, Brought::Hinted(Branch::Edge(u, v), hint))
        }
        Act::Close(lease, count, dual) => {
            let report = Report::Closed(closing(alloc, count, dual)?);
            Event::Report(lease, Brought::Plain(report))
        }
        Act::CloseSquare(lease, dual) => Event::Report(lease, priced(alloc, square(alloc)?, dual)?),
        Act::CloseTriangle(lease, dual) => {
            Event::Report(lease, priced(alloc, triangle(alloc)?, dual)?)
        }
        Act::Own(node, u, v) => Event::Own(node, split(u, v)),
        Act::Gone(grunt) => Event::Gone(grunt),
        Act::Expire(lease) => Event::Expire(lease),
        Act::Offer(cities) => Event::Offer(tour(alloc, &cities)?),
        Act::OfferThree => Event::Offer(tour(alloc, &[0, 1, 2])?),
    })
}

/// Whether a grunt that asks is one of the boss's.
fn is_call(boss: &Boss, event: &Event) -> bool
    ensures { IsTrue result → IsCall boss.now.grunts event.now }
{
    match event {
        Event::Ask(grunt) => 1 <= *grunt && *grunt <= boss.grunts(),
        Event::Report(_, _)
        | Event::Own(_, _)
        | Event::Gone(_)
        | Event::Expire(_)
        | Event::Offer(_) => true,
    }
}

/// What a boss replies to an event. A grunt that asks has to be one of the boss's.
fn reply(boss: &mut Boss, event: Event) -> Result<Reply, Fail> {
    if !is_call(boss, &event) {
        return Err("no such grunt".into());
    }
    Ok(boss.act(event))
}

/// Plays a table of events. The place of the first reply that is another one, if there is one.
pub(crate) fn first_other(
    alloc: Global,
    boss: &mut Boss,
    table: &[(Act, Reply)],
) -> Result<Option<usize>, Fail> {
    for k in 0..table.len() {
        if reply(boss, event(alloc, table[k].0)?)? != table[k].1 {
            return Ok(Some(k));
        }
    }
    Ok(None)
}
