//! Worked books: tables of events, each with its reply.

use crate::acts::{Act, boss_with, first_other, leased, square_boss};
use bossx::{Asked, Boss, Event, Expiry, Front, Offered, Reply, Reported};
use std::alloc::Global;
use std::test::Fail;

const TAKEN: Reply = Reply::Reported(Reported::Taken);

/// Leases that are granted, held and lost.
fn counts(boss: &Boss) -> (u32, u32, u32) {
    let leases = boss.leases();
    (leases.grants(), leases.held(), leases.lost())
}

#[test]
fn the_second_copy_of_a_report_is_stale(rt: HostRuntime) -> Result<(), Fail> {
    let alloc = rt.alloc();
    let mut boss = square_boss(alloc, 1, 0)?;
    let table = [
        (Act::Ask(1), leased(0, 0)),
        (Act::Ask(2), Reply::Asked(Asked::NotYet)),
        (Act::Gone(1), Reply::Went(Some(0))),
        (Act::Ask(2), leased(1, 0)),
        (Act::Split(0, 0, 2), TAKEN),
        (Act::Split(1, 0, 2), Reply::Reported(Reported::Stale)),
        (Act::Split(7, 0, 2), Reply::Reported(Reported::Unknown)),
        (Act::Ask(1), Reply::Asked(Asked::Spent)),
    ];
    assert_eq!(rt; first_other(alloc, &mut boss, &table)?, None);
    assert_eq!(rt; (boss.front(), counts(&boss)), (Front::Spent, (2, 0, 2)));
    Ok(())
}

#[test]
fn a_weak_closing_loses_its_lease(rt: HostRuntime) -> Result<(), Fail> {
    let alloc = rt.alloc();
    let mut boss = square_boss(alloc, 1, 0)?;
    let weak = Reported::Weak {
        bound: 40_894_464,
        needed: 40_894_464,
    };
    let table = [
        (Act::Ask(1), leased(0, 0)),
        (Act::Close(0, 4, 5_111_808), Reply::Reported(weak)),
        (Act::Expire(0), Reply::Expired(Expiry::NotHeld)),
        (Act::Expire(1), Reply::Expired(Expiry::Unknown)),
        (Act::Ask(2), leased(1, 0)),
        (
            Act::Close(1, 3, 5_111_808),
            Reply::Reported(Reported::Misfit(1)),
        ),
        (Act::Close(1, 4, 5_111_809), TAKEN),
    ];
    assert_eq!(rt; first_other(alloc, &mut boss, &table)?, None);
    assert_eq!(rt; (boss.front(), counts(&boss)), (Front::Done, (2, 0, 2)));
    Ok(())
}

#[test]
fn a_closing_priced_elsewhere_is_foreign(rt: HostRuntime) -> Result<(), Fail> {
    let alloc = rt.alloc();
    let mut boss = square_boss(alloc, 1, 0)?;
    let table = [
        (Act::Ask(1), leased(0, 0)),
        (
            Act::CloseTriangle(0, 0),
            Reply::Reported(Reported::Misfit(7)),
        ),
        (Act::Gone(1), Reply::Went(None)),
        (Act::Ask(1), leased(1, 0)),
        (Act::CloseSquare(1, 5_242_880), TAKEN),
        (Act::Ask(1), Reply::Asked(Asked::Done)),
    ];
    assert_eq!(rt; first_other(alloc, &mut boss, &table)?, None);
    assert_eq!(rt; (boss.front(), counts(&boss)), (Front::Done, (2, 0, 1)));
    Ok(())
}

#[test]
fn the_least_key_is_lent_first(rt: HostRuntime) -> Result<(), Fail> {
    let alloc = rt.alloc();
    let mut boss = square_boss(alloc, 5, 0)?;
    let table = [
        (Act::Ask(1), leased(0, 0)),
        (Act::Hint(0, 0, 2, 7), TAKEN),
        (Act::Ask(1), leased(1, 1)),
        (Act::Hint(1, 0, 1, 3), TAKEN),
        (Act::Ask(1), leased(2, 3)),
        (Act::Expire(2), Reply::Expired(Expiry::Expired)),
        (Act::Own(3, 0, 2), Reply::Reported(Reported::Misfit(5))),
        (Act::Own(0, 1, 3), Reply::Reported(Reported::Stale)),
        (Act::Own(9, 1, 3), Reply::Reported(Reported::Stale)),
        (Act::Own(3, 1, 3), TAKEN),
    ];
    assert_eq!(rt; first_other(alloc, &mut boss, &table)?, None);
    assert_eq!(rt; (boss.settled(), counts(&boss)), (3, (3, 0, 1)));
    Ok(())
}

#[test]
fn tours_are_judged_in_order(rt: HostRuntime) -> Result<(), Fail> {
    let alloc = rt.alloc();
    let mut boss = boss_with(alloc, &[], [0, 2, 1, 3])?;
    let table = [
        (Act::OfferThree, Reply::Offered(Offered::OtherSize)),
        (Act::Offer([0, 1, 2, 3]), Reply::Offered(Offered::Better)),
        (
            Act::Offer([1, 2, 3, 0]),
            Reply::Offered(Offered::NotShorter(40)),
        ),
    ];
    assert_eq!(rt; first_other(alloc, &mut boss, &table)?, None);
    assert_eq!(rt; (boss.first_length(), boss.best_length()), (48, 40));
    Ok(())
}

#[test]
fn a_tour_without_a_fixed_pair_is_off(rt: HostRuntime) -> Result<(), Fail> {
    let alloc = rt.alloc();
    let mut boss = boss_with(alloc, &[(0, 2)], [0, 2, 1, 3])?;
    let table = [
        (Act::OfferThree, Reply::Offered(Offered::OtherSize)),
        (
            Act::Offer([0, 1, 2, 3]),
            Reply::Offered(Offered::OffFixed(0, 2)),
        ),
        (
            Act::Offer([1, 3, 0, 2]),
            Reply::Offered(Offered::NotShorter(48)),
        ),
    ];
    assert_eq!(rt; first_other(alloc, &mut boss, &table)?, None);
    Ok(())
}

#[test]
fn a_gap_lowers_what_is_needed(rt: HostRuntime) -> Result<(), Fail> {
    let alloc = rt.alloc();
    let mut boss = square_boss(alloc, 1, 40)?;
    let weak = Reported::Weak {
        bound: -8_000_000,
        needed: -1_048_576,
    };
    let table = [
        (Act::Ask(1), leased(0, 0)),
        (Act::Close(0, 4, -1_000_000), Reply::Reported(weak)),
        (Act::Close(0, 4, 0), TAKEN),
    ];
    assert_eq!(rt; first_other(alloc, &mut boss, &table)?, None);
    assert_eq!(rt; (boss.front(), boss.gap()), (Front::Done, 40));
    Ok(())
}

#[test]
fn a_gap_is_taken_off_once(rt: HostRuntime) -> Result<(), Fail> {
    let alloc = rt.alloc();
    let mut boss = square_boss(alloc, 1, 20)?;
    let weak = Reported::Weak {
        bound: 8_388_608,
        needed: 19_922_944,
    };
    let table = [
        (Act::Ask(1), leased(0, 0)),
        (Act::Close(0, 4, 1_048_576), Reply::Reported(weak)),
        (Act::Close(0, 4, 2_621_440), TAKEN),
    ];
    assert_eq!(rt; first_other(alloc, &mut boss, &table)?, None);
    Ok(())
}

/// Whether the snapshot is the tour around the square and one open node, whose path is empty.
fn is_fresh(alloc: Global, boss: &Boss) -> Result<bool, Fail> {
    let (best, tree) = boss.snapshot();
    if best.cities() != [0, 1, 2, 3].as_slice() || tree.nodes() != 1 || tree.open_nodes() != 1 {
        return Ok(false);
    }
    Ok(boss.path(alloc, 0)?.conditions().is_empty())
}

#[test]
fn a_snapshot_is_what_the_boss_was_started_with(rt: HostRuntime) -> Result<(), Fail> {
    let alloc = rt.alloc();
    let boss = square_boss(alloc, 1, 0)?;
    assert!(rt; is_fresh(alloc, &boss)?);
    assert_eq!(rt;
        (boss.budget(), boss.grunts(), boss.first_nodes()),
        (1, 2, 1)
    );
    assert_eq!(rt; (boss.instance().n(), boss.first_settled()), (4, 0));
    Ok(())
}

#[test]
fn events_are_played_in_turn(rt: HostRuntime) -> Result<(), Fail> {
    let alloc = rt.alloc();
    let mut boss = square_boss(alloc, 1, 0)?;
    let mut events = Vec::new(alloc);
    events.push(Event::Gone(1))?;
    events.push(Event::Expire(0))?;
    let replies = boss.play(alloc, events)?;
    let expected = [Reply::Went(None), Reply::Expired(Expiry::Unknown)];
    assert!(rt; replies.as_slice() == expected.as_slice());
    Ok(())
}

/// Grunt 2 is lent the root and is gone, so many times. Whether each time that was the next lease.
fn loses_leases(alloc: Global, boss: &mut Boss, times: u32) -> Result<bool, Fail> {
    for lease in 0..times {
        let table = [
            (Act::Ask(2), leased(lease, 0)),
            (Act::Gone(2), Reply::Went(Some(lease))),
        ];
        if first_other(alloc, boss, &table)?.is_some() {
            return Ok(false);
        }
    }
    Ok(true)
}

#[test]
fn grunts_go_home_after_256_lost_leases(rt: HostRuntime) -> Result<(), Fail> {
    let alloc = rt.alloc();
    let mut boss = square_boss(alloc, 1, 0)?;
    assert!(rt; loses_leases(alloc, &mut boss, 256)?);
    let table = [
        (Act::Ask(1), Reply::Asked(Asked::Home)),
        (Act::Gone(1), Reply::Went(None)),
        (Act::Split(255, 0, 2), TAKEN),
    ];
    assert_eq!(rt; first_other(alloc, &mut boss, &table)?, None);
    assert_eq!(rt; counts(&boss), (256, 0, 256));
    Ok(())
}
