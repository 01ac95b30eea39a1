//! What work costs.
ghost use Rattle.std.specs.Prelude.{◌≡◌};
ghost use Rattle.worker.specs.Efforts.{together};

/// What work on nodes cost, in counts that stand still at 2^64 - 1. They are for benches: no promise rests on them.
#[derive(Clone, Copy, Debug, PartialEq, Eq)]
pub struct Effort {
    /// Nodes that were closed.
    pub closed: u64,
    /// Nodes that were split.
    pub split: u64,
    /// Linear programs that were set up, at most one for each node.
    pub programs: u64,
    /// Rounds of all programs: solves after which something was added, and each program's last.
    pub rounds: u64,
    /// The most rounds of one program.
    pub most_rounds: u64,
    /// Pivots of all programs.
    pub pivots: u64,
    /// Rows of subtour cuts.
    pub subtours: u64,
    /// Rows of blossoms: combs whose teeth are pairs.
    pub blossoms: u64,
    /// Rows of other combs.
    pub combs: u64,
    /// Columns.
    pub columns: u64,
}

impl Effort {
    /// No work.
    pub fn none() -> Effort {
        Effort {
            closed: 0,
            split: 0,
            programs: 0,
            rounds: 0,
            most_rounds: 0,
            pivots: 0,
            subtours: 0,
            blossoms: 0,
            combs: 0,
            columns: 0,
        }
    }

    /// What both cost.
    pub fn and(self, other: Effort) -> Effort
        ensures { result ≡ together self other }
    {
        Effort {
            closed: self.closed.saturating_add(other.closed),
            split: self.split.saturating_add(other.split),
            programs: self.programs.saturating_add(other.programs),
            rounds: self.rounds.saturating_add(other.rounds),
            most_rounds: self.most_rounds.max(other.most_rounds),
            pivots: self.pivots.saturating_add(other.pivots),
            subtours: self.subtours.saturating_add(other.subtours),
            blossoms: self.blossoms.saturating_add(other.blossoms),
            combs: self.combs.saturating_add(other.combs),
            columns: self.columns.saturating_add(other.columns),
        }
    }
}
