//! Events, and what is answered to them.
ghost use Rattle.std.specs.Prelude.{◌≡◌, IfOk, OnErr};
ghost use Rattle.std.specs.List.{AllByRecursion};
ghost use Rattle.bossx.specs.Steps.{Step, Run, IsCall};

use crate::boss::Boss;
use crate::brought::Brought;
use crate::replies::{Asked, Expiry, Offered, Reported};
use cyc::Tour;
use pricer::Report;
use std::alloc::{AllocError, Global};

/// A call of the boss, with its data.
#[derive(Drop)]
pub enum Event {
    /// A grunt asks for a node.
    Ask(u32),
    /// Something is brought for the node of a lease.
    Report(u32, Brought),
    /// The boss itself reports on a node.
    Own(u32, Report),
    /// A grunt is gone.
    Gone(u32),
    /// The time of a lease is over.
    Expire(u32),
    /// A tour is offered.
    Offer(Tour),
}

/// What is answered to an event.
#[derive(Clone, Copy, PartialEq, Eq, Debug)]
pub enum Reply {
    Asked(Asked),
    Reported(Reported),
    /// The lease that was lost, if the grunt held one.
    Went(Option<u32>),
    Expired(Expiry),
    Offered(Offered),
}

impl Boss {
    /// One event: the call that it names. A grunt that asks is one of the boss's.
    pub fn act(&mut self, event: Event) -> Reply
        requires { IsCall self.old.grunts event }
        ensures { Step self.old event result self.new }
    {
        match event {
            Event::Ask(grunt) => Reply::Asked(self.ask(grunt)),
            Event::Report(lease, brought) => Reply::Reported(self.bring(lease, brought)),
            Event::Own(node, report) => Reply::Reported(self.own(node, report)),
            Event::Gone(grunt) => Reply::Went(self.gone(grunt)),
            Event::Expire(lease) => Reply::Expired(self.expire(lease)),
            Event::Offer(tour) => Reply::Offered(self.offer(&tour)),
        }
    }

    /// Events in turn, whatever their data, with the reply to each. Room for the replies is taken first.
    pub fn play(&mut self, alloc: Global, events: Vec<Event>) -> Result<Vec<Reply>, AllocError>
        requires { AllByRecursion (IsCall self.old.grunts) events.items }
        ensures ok { IfOk result (λ replies. Run self.old events.items replies.items self.new) }
        ensures err { OnErr result (self.new ≡ self.old) }
    {
        let mut replies = Vec::with_capacity(alloc, events.len())?;
        for event in events {
            let reply = self.act(event);
            replies.push_reserved(reply);
        }
        Ok(replies)
    }
}
