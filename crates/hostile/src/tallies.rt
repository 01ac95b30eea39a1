//! What games came to, and whether a round lost no report but by its fate.
use crate::counting::Counting;
use crate::fates::Drawn;
use crate::liars::Liar;
use bossx::Boss;
use leasebook::{Lease, LeaseFate};
use ports::Fate;
use treebook::State;
use tspround::Counts;

/// What games came to.
#[derive(Clone, Copy, Debug)]
pub(crate) struct Tally {
    pub(crate) games: u64,
    /// Games whose end is right.
    pub(crate) right: u64,
    /// Games that ended with no node open.
    pub(crate) answered: u64,
    pub(crate) rounds: u64,
    /// Rounds that lost no report but by its fate.
    pub(crate) kept: u64,
    /// Reports that came to the boss.
    pub(crate) came: u64,
    /// Reports that the boss took.
    pub(crate) taken: u64,
    /// Closings that did not fit.
    pub(crate) unfit: u64,
}

impl Tally {
    pub(crate) fn new() -> Tally {
        Tally {
            games: 0,
            right: 0,
            answered: 0,
            rounds: 0,
            kept: 0,
            came: 0,
            taken: 0,
            unfit: 0,
        }
    }

    pub(crate) fn add_round(&mut self, is_kept: bool, came: u64, counts: &[Counts], unfit: u64) {
        self.rounds = self.rounds.saturating_add(1);
        self.kept = self.kept.saturating_add(u64::from(is_kept));
        self.came = self.came.saturating_add(came);
        self.taken = self.taken.saturating_add(taken_by(counts));
        self.unfit = self.unfit.saturating_add(unfit);
    }

    pub(crate) fn add_game(&mut self, is_right: bool, is_answered: bool) {
        self.games = self.games.saturating_add(1);
        self.right = self.right.saturating_add(u64::from(is_right));
        self.answered = self.answered.saturating_add(u64::from(is_answered));
    }
}

/// How many leases were granted, how many nodes settled, and how many are open.
#[derive(Clone, Copy, Debug)]
pub(crate) struct Stand {
    pub(crate) grants: u32,
    pub(crate) settled: u32,
    pub(crate) open: u32,
}

impl Stand {
    pub(crate) fn of(boss: &Boss) -> Stand {
        let (_, tree) = boss.snapshot();
        Stand {
            grants: boss.leases().grants(),
            settled: boss.settled(),
            open: tree.open_nodes(),
        }
    }
}

/// Whether a round lost no report but by its fate, and nothing came of one that was to come never.
pub(crate) fn is_kept(
    boss: &Boss,
    counts: &[Counts],
    before: Stand,
    worker: &Liar,
    posts: &Drawn,
    gate: &Counting,
) -> bool {
    has_all(posts.to_come(), gate.came(), worker.unfit())
        && taken_by(counts) <= gate.came()
        && is_told(boss, counts, before, posts)
        && are_as_told(boss, before.grants, posts, worker.is_honest())
}

/// Whether all reports came that were to come by their fates, but for closings that do not fit: such a one may have been to come
/// never, once or twice.
fn has_all(to_come: u64, came: u64, unfit: u64) -> bool {
    came <= to_come && to_come <= came.saturating_add(unfit.saturating_mul(2))
}

fn taken_by(counts: &[Counts]) -> u64 {
    let mut taken = 0u64;
    for count in counts {
        taken = taken.saturating_add(count.taken);
    }
    taken
}

fn granted_by(counts: &[Counts]) -> u64 {
    let mut granted = 0u64;
    for count in counts {
        granted = granted.saturating_add(count.granted);
    }
    granted
}

/// Whether one fate was told for each lease that was granted, and the counts of the grunts are those of the boss.
fn is_told(boss: &Boss, counts: &[Counts], before: Stand, posts: &Drawn) -> bool {
    let after = Stand::of(boss);
    let granted = u64::from(after.grants.saturating_sub(before.grants));
    let settled = u64::from(after.settled.saturating_sub(before.settled));
    granted == posts.told() && granted == granted_by(counts) && settled == taken_by(counts)
}

/// Whether each lease from a number on ended as the fate of its report lets it.
fn are_as_told(boss: &Boss, from: u32, posts: &Drawn, is_honest: bool) -> bool {
    let mut number = 0u32;
    for lease in boss.leases().leases() {
        if number >= from && !is_as_told(boss, *lease, posts.fate_of(number), is_honest) {
            return false;
        }
        number = number.wrapping_add(1);
    }
    true
}

/// Whether a lease ended as the fate of its report lets it: it is held no more; it brought nothing where its report was to come never;
/// and else an honest report settled its node, if none did before and the budget was not spent.
fn is_as_told(boss: &Boss, lease: Lease, fate: Fate, is_honest: bool) -> bool {
    match (lease.fate, fate) {
        (LeaseFate::Held, _) => false,
        (_, Fate::Never) => lease.fate == LeaseFate::Lost,
        (_, Fate::Once | Fate::Twice | Fate::Late) => {
            !is_honest || !is_open(boss, lease.node) || boss.settled() == boss.budget()
        }
    }
}

fn is_open(boss: &Boss, node: u32) -> bool {
    let (_, tree) = boss.snapshot();
    node < tree.nodes() && matches!(tree.state(node), State::Open)
}
