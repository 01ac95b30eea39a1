//! What a node's program costs.

use cutform::{Cut, Kind};
use nodelp::NodeLp;
use worker::Effort;

/// What the solves of a node's program cost: its rounds and pivots.
pub(crate) fn solves_of(node: &NodeLp) -> Effort {
    Effort {
        rounds: u64::from(node.lp().rounds()),
        pivots: node.lp().pivots(),
        ..Effort::none()
    }
}

/// What the program of a node cost: its rounds and pivots, its rows of cuts by their kinds, and its columns. O(cuts).
pub(crate) fn effort_of(node: &NodeLp) -> Effort {
    let solves = solves_of(node);
    let mut effort = Effort {
        programs: 1,
        most_rounds: solves.rounds,
        columns: node.lp().cols().len() as u64,
        ..solves
    };
    for (cut, _) in node.cuts() {
        effort = effort.and(row_of(cut));
    }
    effort
}

/// A row of a cut.
fn row_of(cut: &Cut) -> Effort {
    let none = Effort::none();
    match cut.kind() {
        Kind::Subtour => Effort {
            subtours: 1,
            ..none
        },
        Kind::Comb if has_pairs_as_teeth(cut) => Effort {
            blossoms: 1,
            ..none
        },
        Kind::Comb => Effort { combs: 1, ..none },
        Kind::Odd => Effort {
            blossoms: 1,
            ..none
        },
    }
}

/// Whether the teeth of a comb are pairs.
fn has_pairs_as_teeth(comb: &Cut) -> bool {
    comb.sets()
        .iter()
        .skip(1)
        .all(|tooth| tooth.cities().len() == 2)
}
