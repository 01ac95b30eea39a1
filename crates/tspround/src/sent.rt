//! What a worker reports, on its way to the boss.
ghost use Rattle.std.specs.Prelude.{◌≡◌, IfOk};
ghost use Rattle.worker.specs.Works.{SplitsOnly};

use crate::opening::Opening;
use crate::room::Room;
use crate::seat::Seat;
use bossx::{Brought, Event};
use branchx::{Branch, Path};
use ports::{Gate, Posts};
use pricer::{Closing, Priced, Pricing, Report};
use std::alloc::{AllocError, Global};
use std::marker::{Model, PhantomData};
use std::sync::Wait;
use std::sync::ledger::Ledger;
use worker::Worker;

/// A report with its lease, and the node and path that were worked on. A split is one that the worker may make there, where tours
/// of the length are known that the boss started with.
#[derive(Drop)]
pub(crate) struct Sent<J: Opening, W: Worker> {
    lease: u32,
    node: u32,
    path: Path,
    report: Report,
    hint: i64,
    worker: PhantomData<W>,
    opening: PhantomData<J>,
}

impl<J: Opening, W: Worker> Model for Sent<J, W> {
    ghost use Rattle.tspround.specs.Rounds.{Message, IsFair};

    ghost Value = { Message };

    ghost view = { λ s. record { lease = s.lease; node = s.node; path = s.path; report = s.report; hint = s.hint } };

    ghost invariant = { λ s. IsFair W.splits J.book s.path s.report };
}

impl<J: Opening, W: Worker> Sent<J, W> {
    /// A report on a node that was lent.
    pub(crate) fn new(lease: u32, node: u32, path: Path, report: Report, hint: i64) -> Sent<J, W>
        requires cities { path.n ≡ J.book.instance.n }
        requires fair { SplitsOnly W.splits J.book.instance path.conditions J.book.start.length report J.book.gap }
        ensures { result ≡ record { lease = lease; node = node; path = path; report = report; hint = hint } }
    {
        Sent {
            lease,
            node,
            path,
            report,
            hint,
            worker: PhantomData,
            opening: PhantomData,
        }
    }

    /// The same once more.
    pub(crate) fn copy(&self, alloc: Global) -> Result<Sent<J, W>, AllocError>
        ensures { IfOk result (λ s. s ≡ self.now) }
    {
        Ok(Sent {
            lease: self.lease,
            node: self.node,
            path: self.path.copy(alloc)?,
            report: self.report.copy(alloc)?,
            hint: self.hint,
            worker: PhantomData,
            opening: PhantomData,
        })
    }

    /// Posts the report in one hold of the lock, and says whether the grunt may go on. A closing is priced before; one that does not
    /// fit its path cannot be, and is passed over: the grunt's next question loses its lease, as the boss's answer would have. A
    /// split is posted only where the lease names the node that was lent with it, and that node's path is the one worked on.
    pub(crate) fn post<P: Posts, G: Gate, L: Ledger, M: Ledger, R: Wait>(
        self,
        rt: &R,
        room: &Room<'_, J, W, P, G, L, M>,
        seat: &mut Seat<J, L, M>,
    ) -> Result<bool, AllocError> {
        let Sent {
            lease,
            node,
            path,
            report,
            hint,
            ..
        } = self;
        match report {
            Report::Closed(closing) => {
                post_closing(rt, room, seat, lease, path, closing)?;
                Ok(true)
            }
            Report::Split(branch) => {
                Ok(post_split(rt, room, seat, lease, node, &path, branch, hint))
            }
        }
    }
}

/// Prices a closing, and posts it if it fits.
fn post_closing<J: Opening, W: Worker, P: Posts, G: Gate, L: Ledger, M: Ledger, R: Wait>(
    rt: &R,
    room: &Room<'_, J, W, P, G, L, M>,
    seat: &mut Seat<J, L, M>,
    lease: u32,
    path: Path,
    closing: Closing,
) -> Result<(), AllocError>
    requires { path.n ≡ J.book.instance.n }
{
    let Pricing::Priced(priced) = Priced::new(room.instance.clone()?, path, closing) else {
        return Ok(());
    };
    let standing = {
        let mut held = room.held.lock(rt);
        seat.act(&mut *held, Event::Report(lease, Brought::Weighed(priced)));
        room.freed.notify_all();
        held.standing()
    };
    room.tell(standing);
    Ok(())
}

/// Posts a split, if the lease still names the node and path that were worked on; says whether it does.
fn post_split<J: Opening, W: Worker, P: Posts, G: Gate, L: Ledger, M: Ledger, R: Wait>(
    rt: &R,
    room: &Room<'_, J, W, P, G, L, M>,
    seat: &mut Seat<J, L, M>,
    lease: u32,
    node: u32,
    path: &Path,
    branch: Branch,
    hint: i64,
) -> bool
    requires { SplitsOnly W.splits J.book.instance path.now.conditions J.book.start.length (Report.Split branch) J.book.gap }
{
    let standing = {
        let mut held = room.held.lock(rt);
        if !held.is_at(lease, node, path) {
            return false;
        }
        seat.act(
            &mut *held,
            Event::Report(lease, Brought::Hinted(branch, hint)),
        );
        room.freed.notify_all();
        held.standing()
    };
    room.tell(standing);
    true
}
