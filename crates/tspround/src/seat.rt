//! A grunt's seat: who it is, its shares of the ledgers, and what they count.
ghost use Rattle.std.specs.Prelude.{◌≡◌, ◌+◌, ◌<◌, ◌≤◌};
ghost use Rattle.bossx.specs.Steps.{Step, IsCall};
ghost use Rattle.bossx.specs.Laws.{IsSameStart};
ghost use Rattle.tspround.specs.Rounds.{MayComeIn};

use crate::held::{Held, Shares};
use crate::opening::Opening;
use bossx::{Asked, Event, Reply, Reported};
use std::marker::PhantomData;
use std::sync::ledger::Ledger;
use worker::Worker;

/// How many leases a grunt was granted in a round, and how many of its reports were taken.
#[derive(Clone, Copy, Debug, PartialEq, Eq)]
pub struct Counts {
    pub granted: u64,
    pub taken: u64,
}

/// A grunt with its shares, and what they count.
#[derive(Drop)]
pub(crate) struct Seat<J: Opening, L: Ledger, M: Ledger> {
    pub grunt: u32,
    /// The newest lease, 0 before the first.
    pub newest: u32,
    /// Whether memory ran out.
    pub starved: bool,
    pub counts: Counts,
    pub shares: Shares<L, M>,
    pub opening: PhantomData<J>,
    ghost from: { 1 ≤ grunt },
    ghost to: { grunt ≤ J.book.grunts },
    ghost one_of_grants: { shares.grants.parts ≡ 1 },
    ghost one_of_takes: { shares.takes.parts ≡ 1 },
    ghost granted: { shares.grants.amount ≡ counts.granted },
    ghost taken: { shares.takes.amount ≡ counts.taken },
}

impl<J: Opening, L: Ledger, M: Ledger> Seat<J, L, M> {
    /// A seat with a part of each ledger.
    pub(crate) fn new(grunt: u32, shares: Shares<L, M>) -> Seat<J, L, M>
        requires from { 1 ≤ grunt }
        requires to { grunt ≤ J.book.grunts }
        requires parts { (shares.grants.parts ≡ 1) × (shares.takes.parts ≡ 1) }
        requires amounts { (shares.grants.amount ≡ 0) × (shares.takes.amount ≡ 0) }
    {
        Seat {
            grunt,
            newest: 0,
            starved: false,
            counts: Counts {
                granted: 0,
                taken: 0,
            },
            shares,
            opening: PhantomData,
        }
    }

    /// One event in a hold of the lock.
    pub(crate) fn act<W: Worker>(&mut self, held: &mut Held<J, W, L, M>, event: Event) -> Reply
        requires call { IsCall J.book.grunts event }
        requires may { MayComeIn W.splits held.old.book event }
        ensures step { Step held.old.book event result held.new.book }
        ensures start { IsSameStart J.book held.new.book }
    {
        let reply = held.act(event, &mut self.shares);
        match reply {
            Reply::Asked(Asked::Leased { .. }) => self.counts.granted += 1,
            Reply::Reported(Reported::Taken) => self.counts.taken += 1,
            _ => {}
        }
        reply
    }
}
