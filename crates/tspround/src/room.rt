//! What the grunts of a round share.
ghost use Rattle.std.specs.Prelude.{◌≡◌, ◌+◌, ◌*◌, ◌≤◌, length};
ghost use Rattle.std.specs.Arc.{arc_value};

use crate::held::{Held, Standing};
use crate::opening::Opening;
use cutpool::SharedPool;
use neigh::Neigh;
use ports::{Gate, Posts};
use std::alloc::Global;
use std::sync::ledger::Ledger;
use std::sync::{Arc, Condvar, Mutex};
use tspinst::Instance;
use worker::Worker;

/// What the grunts of a round share: the boss under its lock, whom they wait for, and what they work with.
#[derive(Drop)]
pub(crate) struct Room<'a, J: Opening, W: Worker, P: Posts, G: Gate, L: Ledger, M: Ledger> {
    pub alloc: Global,
    pub held: Mutex<Held<J, W, L, M>>,
    /// Told of each event that may free a node or end the round.
    pub freed: Condvar,
    pub pool: &'a SharedPool,
    pub instance: Arc<Instance, Global>,
    pub near: &'a Neigh,
    pub worker: &'a W,
    pub posts: &'a P,
    pub gate: &'a G,
    pub seed: u64,
    pub gap: u64,
    ghost instance_is: { arc_value instance ≡ J.book.instance },
    ghost gap_is: { gap ≡ J.book.gap },
    ghost lists: { near.now.n ≡ J.book.instance.n },
    ghost few: { length J.book.start.nodes + 2 * J.book.budget ≤ 1048576 },
}

impl<'a, J: Opening, W: Worker, P: Posts, G: Gate, L: Ledger, M: Ledger> Room<
    'a,
    J,
    W,
    P,
    G,
    L,
    M,
> {
    /// Tells the gate how the search stands, out of the lock.
    pub(crate) fn tell(&self, standing: Standing) {
        let Standing {
            best,
            open,
            settled,
            least_key,
        } = standing;
        self.gate.stands(best, open, settled, least_key);
    }
}
