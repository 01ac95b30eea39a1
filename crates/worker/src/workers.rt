//! Who works on nodes.
ghost use Rattle.std.specs.Prelude.{◌≡◌, ℕ, ◌^◌, ◌<◌, ◌≤◌, Bool, true, List, IfOk};
ghost use Rattle.worker.specs.Splits.{Splits, StayForMore};
ghost use Rattle.worker.specs.Works.{BeginsAt, IsWork, SplitsOnly, cliques};

use crate::work::Work;
use branchx::Path;
use cutpool::CutBox;
use neigh::Neigh;
use std::alloc::{AllocError, Global};
use tspinst::Instance;

/// Who works on nodes: an untrusted part of a solver, since a report is looked at before it is taken.
///
/// Two things are known of a kind of worker. `splits` says when it may split a node of an instance with some path, where tours
/// of a length are known, by a branch, for a gap; it stays so for greater lengths. Where it is `sure`, its report fits the node, a
/// tour that it found is one of the instance, and a closing's bound exceeds what the level needs of the lesser of the best length
/// handed in and the found tour's. All of this is so whatever the box of cuts gives.
pub trait Worker {
    ghost splits: { Splits };

    ghost sure: { Bool };

    ghost splits_stay: { StayForMore splits };

    /// Works on the node with this path, where the best tour so far has this length and it is enough to show that no tour is
    /// shorter than the best by more than the gap. Cuts may be put into the box `shared` and fetched from it.
    /// The same seed gives the same work where the box gives the same cuts.
    ///
    /// The path begins with the fixed pairs of the instance. It has at most 2^21 conditions on sets. On pairs it has at most one for each of the n (n - 1) / 2.
    fn work<B: CutBox>(
        &self,
        alloc: Global,
        instance: &Instance,
        near: &Neigh,
        shared: &mut B,
        path: &Path,
        best: u64,
        seed: u64,
        gap: u64,
    ) -> Result<Work, AllocError>
        requires cities { path.now.n ≡ instance.now.n }
        requires begins { BeginsAt instance.now path.now.conditions }
        requires lists { near.now.n ≡ instance.now.n }
        requires few_cliques { cliques path.now.conditions ≤ 2 ^ 21 }
        requires short { best < 2 ^ 42 }
        ensures splits { IfOk result (λ w. SplitsOnly splits instance.now path.now.conditions best w.report gap) }
        ensures work { sure ≡ true → IfOk result (IsWork instance.now path.now.conditions best gap) };
}
