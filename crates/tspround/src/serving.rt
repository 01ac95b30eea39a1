//! What a grunt does from its seat: it asks, works and reports.
ghost use Rattle.std.specs.Prelude.{◌≡◌, ◌≢◌, None, IfOk, IfSome};
ghost use Rattle.bossx.specs.declared.replies.Asked as told;
ghost use Rattle.worker.specs.Works.{SplitsOnly};
ghost use Rattle.tspround.specs.Rounds.{IsOrder, IfWork};

use crate::opening::Opening;
use crate::order::Order;
use crate::room::Room;
use crate::seat::Seat;
use crate::sent::Sent;
use bossx::{Asked, Event, Reply};
use cutpool::CutBox;
use cyc::Tour;
use ports::{Fate, Gate, Point, Posts};
use std::alloc::AllocError;
use std::sync::Wait;
use std::sync::ledger::Ledger;
use worker::{Work, Worker};

/// So many leases a grunt takes in a round at most.
const MOST_LEASES: u64 = 32;

/// So often a grunt asks at most: once more after each lease, as a late report may be posted then.
const MOST_TURNS: u32 = 65;

/// What the boss's answer means for a grunt.
#[derive(Drop)]
pub(crate) enum Given {
    /// The round is over for it.
    Leave,
    /// It has a late report to post, and asks again then.
    Again,
    /// It works on a node.
    Work(Order),
}

impl<J: Opening, L: Ledger, M: Ledger> Seat<J, L, M> {
    /// Works in a round, and is gone at its end, whatever ended it.
    pub(crate) fn serve<W: Worker, P: Posts, G: Gate, R: Wait>(
        &mut self,
        rt: &R,
        room: &Room<'_, J, W, P, G, L, M>,
    ) {
        let mut late = None;
        if self.work_on(rt, room, &mut late).is_err() {
            self.starved = true;
        }
        if let Some(sent) = late {
            if sent.post(rt, room, self).is_err() {
                self.starved = true;
            }
        }
        let mut held = room.held.lock(rt);
        self.act(&mut *held, Event::Gone(self.grunt));
        room.freed.notify_all();
    }

    /// Asks, works and reports until there is nothing to do for this grunt.
    fn work_on<W: Worker, P: Posts, G: Gate, R: Wait>(
        &mut self,
        rt: &R,
        room: &Room<'_, J, W, P, G, L, M>,
        late: &mut Option<Sent<J, W>>,
    ) -> Result<(), AllocError> {
        let mut shared = room.pool.seat(rt);
        for _ in 0..MOST_TURNS {
            if !self.turn(rt, room, &mut shared, late)? {
                break;
            }
        }
        Ok(())
    }

    /// Asks once, and works on the node that is lent, if one is. A late report is posted after the answer. Says whether to go on.
    fn turn<B: CutBox, W: Worker, P: Posts, G: Gate, R: Wait>(
        &mut self,
        rt: &R,
        room: &Room<'_, J, W, P, G, L, M>,
        shared: &mut B,
        late: &mut Option<Sent<J, W>>,
    ) -> Result<bool, AllocError> {
        room.gate.pass(self.grunt, self.newest, Point::BeforeAsk);
        if self.counts.granted >= MOST_LEASES {
            return Ok(false);
        }
        let given = self.ask(rt, room, late.is_some())?;
        if let Some(sent) = late.take() {
            if !sent.post(rt, room, self)? {
                return Ok(false);
            }
        }
        match given {
            Given::Leave => Ok(false),
            Given::Again => Ok(true),
            Given::Work(order) => self.settle(rt, room, shared, late, order),
        }
    }

    /// Works on a node, and reports as the posts let it. Says whether to go on.
    fn settle<B: CutBox, W: Worker, P: Posts, G: Gate, R: Wait>(
        &mut self,
        rt: &R,
        room: &Room<'_, J, W, P, G, L, M>,
        shared: &mut B,
        late: &mut Option<Sent<J, W>>,
        order: Order,
    ) -> Result<bool, AllocError>
        requires order { IsOrder J.book order }
        requires none { late.old ≡ None }
    {
        self.newest = order.lease;
        room.gate.pass(self.grunt, self.newest, Point::BeforeWork);
        let sent = self.work(rt, room, shared, order)?;
        room.gate.pass(self.grunt, self.newest, Point::BeforeReport);
        let fate = room.posts.fate(self.newest);
        let goes_on = self.send(rt, room, fate, sent, late)?;
        room.gate.pass(self.grunt, self.newest, Point::AfterReport);
        Ok(goes_on)
    }

    /// The worker's report on a node. A tour that it found is offered at once.
    fn work<B: CutBox, W: Worker, P: Posts, G: Gate, R: Wait>(
        &mut self,
        rt: &R,
        room: &Room<'_, J, W, P, G, L, M>,
        shared: &mut B,
        order: Order,
    ) -> Result<Sent<J, W>, AllocError>
        requires { IsOrder J.book order }
    {
        let Order {
            lease,
            node,
            path,
            best,
        } = order;
        let work = room.worker.work(
            room.alloc,
            &room.instance,
            room.near,
            shared,
            &path,
            best,
            room.seed,
            room.gap,
        )?;
        let Work {
            tour,
            report,
            hint,
            ..
        } = work;
        self.offer(rt, room, tour);
        Ok(Sent::new(lease, node, path, report, hint))
    }

    /// Offers a tour, if one was found.
    fn offer<W: Worker, P: Posts, G: Gate, R: Wait>(
        &mut self,
        rt: &R,
        room: &Room<'_, J, W, P, G, L, M>,
        tour: Option<Tour>,
    ) {
        if let Some(tour) = tour {
            let mut held = room.held.lock(rt);
            self.act(&mut *held, Event::Offer(tour));
            room.freed.notify_all();
        }
    }

    /// Sends a report as its fate is: once, twice, later or never. Says whether to go on.
    fn send<W: Worker, P: Posts, G: Gate, R: Wait>(
        &mut self,
        rt: &R,
        room: &Room<'_, J, W, P, G, L, M>,
        fate: Fate,
        sent: Sent<J, W>,
        late: &mut Option<Sent<J, W>>,
    ) -> Result<bool, AllocError>
        requires { late.old ≡ None }
        ensures { late.new ≢ None → fate ≡ Fate.Late }
    {
        match fate {
            Fate::Never => Ok(true),
            Fate::Once => sent.post(rt, room, self),
            Fate::Twice => {
                let again = sent.copy(room.alloc)?;
                Ok(sent.post(rt, room, self)? && again.post(rt, room, self)?)
            }
            Fate::Late => {
                *late = Some(sent);
                Ok(true)
            }
        }
    }

    /// Asks for a node, and waits where none is free but one may come free.
    fn ask<W: Worker, P: Posts, G: Gate, R: Wait>(
        &mut self,
        rt: &R,
        room: &Room<'_, J, W, P, G, L, M>,
        has_late: bool,
    ) -> Result<Given, AllocError>
        ensures { IfOk result (IfWork (IsOrder J.book)) }
    {
        let mut held = room.held.lock(rt);
        let mut was_told = false;
        for _ in rt.forever() {
            let reply = self.act(&mut *held, Event::Ask(self.grunt));
            // an ask may have lost a lease; one after a wait has changed nothing where none is lent
            if !was_told {
                room.freed.notify_all();
                was_told = true;
            }
            if let Some((lease, node, best)) = lent(reply) {
                return Ok(Given::Work(held.order(room.alloc, lease, node, best)?));
            }
            if !matches!(reply, Reply::Asked(Asked::NotYet)) {
                return Ok(Given::Leave);
            }
            if has_late {
                return Ok(Given::Again);
            }
            held = room.freed.wait(rt, held);
        }
        unreachable!()
    }
}

/// The lease, its node and the best tour's length, where a reply lends a node.
fn lent(reply: Reply) -> Option<(u32, u32, u64)>
    ensures { IfSome result (λ order. reply ≡ Reply.Asked (told.Asked.Leased order.0 order.1 order.2)) }
{
    match reply {
        Reply::Asked(Asked::Leased { lease, node, best }) => Some((lease, node, best)),
        _ => None,
    }
}
