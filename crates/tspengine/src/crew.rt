//! Whom and what a search sends out.
ghost use Rattle.std.specs.Prelude.{◌≡◌};
ghost use Rattle.ports.specs.Posts.{plain_fate, IsWorseOf};

use cutpool::SharedPool;
use grunt::LpWorker;
use neigh::Neigh;
use ports::{Fate, PlainPosts, Posts};
use std::alloc::Global;
use std::sync::Arc;
use tspinst::Instance;

/// What the grunts meet outside: the runtime that starts their threads and waits for them, what decides of their reports, and what
/// they pass on their way.
#[derive(Drop)]
pub(crate) struct Crew<'a, R, P, G> {
    pub(crate) rt: &'a R,
    pub(crate) posts: &'a P,
    pub(crate) gate: &'a G,
}

/// The posts that the words ask for, and those that are handed in: of each report the worse of both fates comes true.
#[derive(Drop)]
pub(crate) struct BothPosts<'a, P: Posts> {
    pub(crate) told: &'a PlainPosts,
    pub(crate) handed: &'a P,
}

impl<'a, P: Posts> Posts for BothPosts<'a, P> {
    ghost may_tell = { λ posts. IsWorseOf (λ lease fate. fate ≡ plain_fate posts.told.now.lose posts.told.now.twice posts.told.now.late lease) (P.may_tell posts.handed.now) };

    fn fate(&self, lease: u32) -> Fate
        ensures { IsWorseOf (λ l fate. fate ≡ plain_fate self.now.told.now.lose self.now.told.now.twice self.now.told.now.late l) (P.may_tell self.now.handed.now) lease result }
    {
        self.told.fate(lease).worse(self.handed.fate(lease))
    }
}

/// What all work of a search shares: the instance, its near lists, the cuts that were found, the worker with what it keeps for the
/// children of split nodes, and the seed.
#[derive(Drop)]
pub(crate) struct Field {
    pub(crate) instance: Arc<Instance, Global>,
    pub(crate) near: Neigh,
    pub(crate) pool: SharedPool,
    pub(crate) worker: LpWorker,
    pub(crate) seed: u64,
}
