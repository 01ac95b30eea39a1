//! What the boss answers.

/// The answer to a grunt that asks for a node.
#[derive(Clone, Copy, PartialEq, Eq, Debug)]
pub enum Asked {
    /// No node is open.
    Done,
    /// As many nodes are settled as the budget allows.
    Spent,
    /// Too many leases were lost: the grunts go home.
    Home,
    /// Every open node is held, or as many as the budget has left.
    NotYet,
    /// The node is lent: the lease's number, the node, and the best tour's length.
    Leased { lease: u32, node: u32, best: u64 },
}

/// The answer to a report.
#[derive(Clone, Copy, PartialEq, Eq, Debug)]
pub enum Reported {
    /// There is no such lease.
    Unknown,
    /// The node is not open any more.
    Stale,
    /// As many nodes are settled as the budget allows.
    Spent,
    /// It does not fit the node. 1 to 4: what is wrong with the closing, as `pricer::Fit` tells it. 5: a pair that is none, or is
    /// decided. 6: a set of another number of cities, or not proper, or not new. 7: the closing was priced for another instance, or
    /// on another path.
    Misfit(u32),
    /// The closing's bound is no more than what is needed, both in units.
    Weak { bound: i128, needed: i128 },
    /// The node is closed, or split.
    Taken,
}

/// The answer to the end of a lease's time.
#[derive(Clone, Copy, PartialEq, Eq, Debug)]
pub enum Expiry {
    /// There is no such lease.
    Unknown,
    /// It had ended before.
    NotHeld,
    /// It was held, and is lost.
    Expired,
}

/// The answer to a tour that is offered.
#[derive(Clone, Copy, PartialEq, Eq, Debug)]
pub enum Offered {
    /// It is of another number of cities.
    OtherSize,
    /// It lacks this fixed pair, the first one that it lacks.
    OffFixed(u32, u32),
    /// It is no shorter than the best tour, which is so long.
    NotShorter(u64),
    /// It is the best tour now.
    Better,
}

/// Which node a boss without grunts works on.
#[derive(Clone, Copy, PartialEq, Eq, Debug)]
pub enum Front {
    /// No node is open.
    Done,
    /// As many nodes are settled as the budget allows.
    Spent,
    /// The open node with the least number.
    Node(u32),
}
