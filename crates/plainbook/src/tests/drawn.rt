//! Lists of drawn events, each played by the boss and by the plain book: wrong leases, reports that are late or come twice, wrong
//! paths, another instance's closings, weak ones and such that do not fit.

use super::acts::{reply, tour};
use crate::{
    Draw, Duals, Fate, PlainBook, Said, Start, Told, boss, five_points, holds, number, tour_length,
};
use bossx::{Asked, Boss, Brought, Event, Expiry, Front, Offered, Reply, Reported};
use branchx::{Branch, Cond, Path};
use cutform::Cut;
use cyc::CitySet;
use distx::Kind;
use pricer::{Closing, Priced, Pricing, Report};
use std::alloc::Global;
use std::sync::Arc;
use std::test::Fail;
use tspinst::Instance;

/// An event with its data.
#[derive(Drop)]
enum Case {
    Ask(u32),
    Report(u32, Said),
    Hinted(u32, u32, u32, i64),
    /// A closing for a lease, priced on the path of a node, for the boss's instance or another.
    Weighed(u32, u32, bool, Duals),
    Own(u32, Said),
    Gone(u32),
    Expire(u32),
    /// A tour of so many of these cities.
    Offer([u32; 5], usize),
}

/// What is answered, by the boss or the plain book.
#[derive(Clone, Copy, PartialEq, Eq)]
enum Heard {
    Replied(Reply),
    /// A closing that does not fit where it was priced: there is nothing to report.
    Unpriced(u32),
}

/// Answers that were heard, by their numbers.
#[derive(Drop)]
struct Tally {
    heard: u64,
}

fn number_of_report(reply: Reported) -> u32 {
    match reply {
        Reported::Unknown => 4,
        Reported::Stale => 5,
        Reported::Spent => 6,
        Reported::Weak { .. } => 7,
        Reported::Taken => 8,
        Reported::Misfit(k) => 8 + k.min(7),
    }
}

fn number_of_answer(heard: &Heard) -> u32 {
    match heard {
        Heard::Replied(Reply::Asked(Asked::Done)) => 0,
        Heard::Replied(Reply::Asked(Asked::Spent)) => 1,
        Heard::Replied(Reply::Asked(Asked::NotYet)) => 2,
        Heard::Replied(Reply::Asked(Asked::Leased { .. })) => 3,
        Heard::Replied(Reply::Asked(Asked::Home)) => 63,
        Heard::Replied(Reply::Reported(reply)) => number_of_report(*reply),
        Heard::Replied(Reply::Went(None)) => 16,
        Heard::Replied(Reply::Went(Some(_))) => 17,
        Heard::Replied(Reply::Expired(Expiry::Unknown)) => 18,
        Heard::Replied(Reply::Expired(Expiry::NotHeld)) => 19,
        Heard::Replied(Reply::Expired(Expiry::Expired)) => 20,
        Heard::Replied(Reply::Offered(Offered::OtherSize)) => 21,
        Heard::Replied(Reply::Offered(Offered::OffFixed(_, _))) => 22,
        Heard::Replied(Reply::Offered(Offered::NotShorter(_))) => 23,
        Heard::Replied(Reply::Offered(Offered::Better)) => 24,
        Heard::Unpriced(_) => 25,
    }
}

impl Tally {
    fn note(&mut self, heard: &Heard) {
        self.heard |= 1u64.checked_shl(number_of_answer(heard)).unwrap_or(0);
    }
}

// ---- drawing

/// The node of a lease in the plain book, or at times another.
fn draw_node(draw: &mut Draw, plain: &PlainBook, lease: u32) -> u32 {
    if draw.one_of(4) {
        return draw.below(number(plain.nodes.len()));
    }
    match plain.leases.get(lease as usize) {
        Some(found) => found.node,
        None => draw.below(number(plain.nodes.len())),
    }
}

/// A tour of the five cities, or at times of four.
fn draw_offer(draw: &mut Draw) -> Case {
    if draw.one_of(8) {
        Case::Offer([0, 1, 2, 3, 4], 4)
    } else {
        Case::Offer(draw.tour(), 5)
    }
}

fn draw_case(draw: &mut Draw, plain: &PlainBook) -> Case {
    let lease = draw.lease(number(plain.leases.len()));
    match draw.below(20) {
        0..=6 => Case::Ask(1 + draw.below(3)),
        7..=10 => Case::Report(lease, draw.said()),
        11 | 12 => {
            let (u, v) = draw.edge();
            Case::Hinted(lease, u, v, i64::from(draw.below(5)) - 2)
        }
        13 | 14 => {
            let node = draw_node(draw, plain, lease);
            Case::Weighed(lease, node, !draw.one_of(6), draw.duals())
        }
        15 => Case::Own(draw.below(number(plain.nodes.len())), draw.said()),
        16 => Case::Gone(draw.below(5)),
        17 => Case::Expire(lease),
        _ => draw_offer(draw),
    }
}

// ---- real values

/// The set of so many cities that has these bits.
fn set(alloc: Global, n: u32, bits: u32) -> Result<CitySet, Fail> {
    if n < 3 || n > 2000 {
        return Err("no cities".into());
    }
    let mut cities = Vec::new(alloc);
    for city in 0..n {
        if holds(bits, city) {
            cities.push(city)?;
        }
    }
    Ok(CitySet::new(alloc, n, cities)?)
}

fn closing(alloc: Global, duals: &Duals) -> Result<Closing, Fail> {
    let city = Vec::from_slice(alloc, duals.city.get(..duals.cities).unwrap_or(&[]))?;
    let mut cuts = Vec::new(alloc);
    for _ in 0..duals.cuts {
        let cut = Cut::subtour(alloc, set(alloc, duals.cut_n, duals.cut_set)?)?;
        cuts.push((cut, duals.cut_dual))?;
    }
    let conds = Vec::from_slice(alloc, duals.conds.get(..duals.cond_count).unwrap_or(&[]))?;
    Ok(Closing::new(city, cuts, conds))
}

fn report(alloc: Global, said: &Said) -> Result<Report, Fail> {
    Ok(match said {
        Said::Edge(u, v) => Report::Split(Branch::Edge(*u, *v)),
        Said::Clique(n, bits) => Report::Split(Branch::Clique(set(alloc, *n, *bits)?)),
        Said::Closed(duals) => Report::Closed(closing(alloc, duals)?),
    })
}

/// The path of a node of the boss.
fn path(alloc: Global, boss: &Boss, node: u32) -> Result<Path, Fail> {
    let (_, tree) = boss.snapshot();
    if node >= tree.nodes() {
        return Err("no such node".into());
    }
    Ok(boss.path(alloc, node)?)
}

fn priced(alloc: Global, instance: &Instance, path: Path, duals: &Duals) -> Result<Pricing, Fail> {
    if path.n() != instance.n() {
        return Err("another number of cities".into());
    }
    let shared = Arc::new(alloc, instance.copy(alloc)?)?;
    Ok(Priced::new(shared, path, closing(alloc, duals)?))
}

// ---- playing

/// The two instances: the boss's, and one of as many cities with other distances.
#[derive(Drop)]
struct Pair {
    own: Instance,
    other: Instance,
}

/// A closing priced on the path of a node, or what is wrong with it there.
fn weighed(
    alloc: Global,
    boss: &Boss,
    pair: &Pair,
    node: u32,
    own: bool,
    duals: &Duals,
) -> Result<Pricing, Fail> {
    let instance = if own { &pair.own } else { &pair.other };
    priced(alloc, instance, path(alloc, boss, node)?, duals)
}

/// The event of a case but one that brings a priced closing.
fn event(alloc: Global, case: &Case) -> Result<Event, Fail> {
    Ok(match case {
        Case::Ask(grunt) => Event::Ask(*grunt),
        Case::Report(lease, said) => Event::Report(*lease, Brought::Plain(report(alloc, said)?)),
        Case::Hinted(lease, u, v, hint) => {
            Event::Report(*lease, Brought::Hinted(Branch::Edge(*u, *v), *hint))
        }
        Case::Weighed(_, _, _, _) => return Err("no priced closing".into()),
        Case::Own(node, said) => Event::Own(*node, report(alloc, said)?),
        Case::Gone(grunt) => Event::Gone(*grunt),
        Case::Expire(lease) => Event::Expire(*lease),
        Case::Offer(cities, n) => Event::Offer(tour(alloc, cities.get(..*n).unwrap_or(&[]))?),
    })
}

fn boss_plays(alloc: Global, boss: &mut Boss, pair: &Pair, case: &Case) -> Result<Heard, Fail> {
    if let Case::Weighed(lease, node, own, duals) = case {
        return Ok(match weighed(alloc, boss, pair, *node, *own, duals)? {
            Pricing::Misfit(k) => Heard::Unpriced(k),
            Pricing::Priced(priced) => {
                Heard::Replied(Reply::Reported(boss.report_priced(*lease, priced)))
            }
        });
    }
    Ok(Heard::Replied(reply(boss, event(alloc, case)?)?))
}

/// A priced closing is at home where its instance is the boss's and its path is that of the node of the lease.
fn plain_weighs(
    alloc: Global,
    plain: &mut PlainBook,
    lease: u32,
    node: u32,
    own: bool,
    duals: &Duals,
) -> Result<Heard, Fail> {
    if let Some(k) = duals.misfit(plain.path(node)) {
        return Ok(Heard::Unpriced(k));
    }
    let home = match plain.leases.get(lease as usize) {
        Some(lease) => own && plain.path(lease.node) == plain.path(node),
        None => false,
    };
    let reply = plain.report(alloc, lease, &Said::Closed(*duals), home, None)?;
    Ok(Heard::Replied(Reply::Reported(reply)))
}

fn plain_replies(alloc: Global, plain: &mut PlainBook, case: &Case) -> Result<Reply, Fail> {
    Ok(match case {
        Case::Ask(grunt) => Reply::Asked(plain.ask(*grunt)?),
        Case::Report(lease, said) => Reply::Reported(plain.report(
            alloc, *lease, said, true, None,
        )?),
        Case::Hinted(lease, u, v, hint) => {
            let said = Said::Edge(*u, *v);
            Reply::Reported(plain.report(alloc, *lease, &said, true, Some(*hint))?)
        }
        Case::Weighed(_, _, _, _) => return Err("no priced closing".into()),
        Case::Own(node, said) => Reply::Reported(plain.own(alloc, *node, said)?),
        Case::Gone(grunt) => Reply::Went(plain.gone(*grunt)),
        Case::Expire(lease) => Reply::Expired(plain.expire(*lease)),
        Case::Offer(cities, n) => Reply::Offered(plain.offer(cities.get(..*n).unwrap_or(&[]))),
    })
}

fn plain_plays(alloc: Global, plain: &mut PlainBook, case: &Case) -> Result<Heard, Fail> {
    if let Case::Weighed(lease, node, own, duals) = case {
        return plain_weighs(alloc, plain, *lease, *node, *own, duals);
    }
    Ok(Heard::Replied(plain_replies(alloc, plain, case)?))
}

// ---- comparing

/// What both books count.
#[derive(Clone, Copy, PartialEq, Eq)]
struct Counts {
    grants: u32,
    held: u32,
    lost: u32,
    settled: u32,
    open: u32,
    nodes: u32,
    best: u64,
    front: Front,
}

fn boss_counts(boss: &Boss) -> Counts {
    let leases = boss.leases();
    let (_, tree) = boss.snapshot();
    Counts {
        grants: leases.grants(),
        held: leases.held(),
        lost: leases.lost(),
        settled: boss.settled(),
        open: tree.open_nodes(),
        nodes: tree.nodes(),
        best: boss.best_length(),
        front: boss.front(),
    }
}

fn plain_counts(plain: &PlainBook) -> Counts {
    Counts {
        grants: number(plain.leases.len()),
        held: plain.count(Fate::Held),
        lost: plain.count(Fate::Lost),
        settled: plain.settled,
        open: plain.open_count(),
        nodes: number(plain.nodes.len()),
        best: plain.best,
        front: plain.front(),
    }
}

fn bits(set: &CitySet) -> u32 {
    let mut bits = 0;
    for city in set.cities() {
        bits |= 1u32.checked_shl(*city).unwrap_or(0);
    }
    bits
}

fn told(cond: &Cond) -> Told {
    match cond {
        Cond::Fixed(u, v) => Told::Fixed(*u, *v),
        Cond::Absent(u, v) => Told::Absent(*u, *v),
        Cond::Present(u, v) => Told::Present(*u, *v),
        Cond::Two(set) => Told::Two(bits(set)),
        Cond::Four(set) => Told::Four(bits(set)),
    }
}

fn same_path(path: &Path, plain: &[Told]) -> bool {
    path.conditions().len() == plain.len()
        && path
            .conditions()
            .iter()
            .zip(plain)
            .all(|(cond, other)| told(cond) == *other)
}

/// Whether each node has the same path in both.
fn same_paths(alloc: Global, boss: &Boss, plain: &PlainBook) -> Result<bool, Fail> {
    for node in 0..number(plain.nodes.len()) {
        if !same_path(&path(alloc, boss, node)?, plain.path(node)) {
            return Ok(false);
        }
    }
    Ok(true)
}

/// The boss and the plain book side by side.
#[derive(Drop)]
struct Both {
    boss: Boss,
    plain: PlainBook,
    pair: Pair,
}

fn pair_of(alloc: Global, fixed: Option<(u32, u32)>) -> Result<Pair, Fail> {
    let own = five_points(alloc, Kind::Man, fixed)?;
    let other = five_points(alloc, Kind::Max, fixed)?;
    Ok(Pair { own, other })
}

fn both_of(alloc: Global, start: &Start) -> Result<Both, Fail> {
    let pair = pair_of(alloc, start.fixed)?;
    let boss = boss(alloc, &pair.own, start, 3)?;
    let plain = PlainBook::new(alloc, start)?;
    Ok(Both { boss, plain, pair })
}

impl Both {
    /// Whether both reply to an event alike, and count alike afterwards.
    fn go_alike(&mut self, alloc: Global, case: &Case, tally: &mut Tally) -> Result<bool, Fail> {
        let heard = boss_plays(alloc, &mut self.boss, &self.pair, case)?;
        let expected = plain_plays(alloc, &mut self.plain, case)?;
        tally.note(&heard);
        Ok(heard == expected && boss_counts(&self.boss) == plain_counts(&self.plain))
    }

    /// Plays 200 events, of which some come twice in a row. The number of the first after which the two differ, if they do.
    fn first_difference(
        &mut self,
        alloc: Global,
        draw: &mut Draw,
        tally: &mut Tally,
    ) -> Result<Option<u32>, Fail> {
        let mut case = Case::Gone(0);
        for k in 0..200 {
            if !draw.one_of(8) {
                case = draw_case(draw, &self.plain);
            }
            if !self.go_alike(alloc, &case, tally)? {
                return Ok(Some(k));
            }
        }
        Ok(None)
    }
}

/// Plays a list from a start of its own. Whether both went the same way.
fn plays_alike(alloc: Global, list: u32, tally: &mut Tally) -> Result<bool, Fail> {
    let mut draw = Draw::new(list);
    let mut both = both_of(alloc, &draw.start())?;
    if both.first_difference(alloc, &mut draw, tally)?.is_some() {
        return Ok(false);
    }
    same_paths(alloc, &both.boss, &both.plain)
}

#[test]
fn drawn_events_go_as_in_a_plain_book(rt: HostRuntime) -> Result<(), Fail> {
    let mut tally = Tally { heard: 0 };
    for list in 0..1000 {
        assert!(rt; plays_alike(rt.alloc(), list, &mut tally)?, "list {list}");
    }
    // each answer but Home came
    assert_eq!(rt; tally.heard, 0x3ff_ffff);
    Ok(())
}
