//! Why a node is split.
ghost use Rattle.std.specs.Prelude.{◌≡◌, ℕ, true, false, List};
ghost use Rattle.tspdef.specs.Instances.{Instance as TheInstance};
ghost use Rattle.tspdef.specs.Paths.{Condition};
ghost use Rattle.nodelp.specs.Node.{IsClean, HasSolved};
ghost use Rattle.grunt.specs.Whys.{IsReason, HasRough};
ghost use Rattle.grunt.specs.Rounds.{IsStuck};

use crate::rounds::ROUNDS;
use nodelp::NodeLp;
use simplex::{Lp, LpAnswer};
use worker::{OddAnswer, Why};

/// Why a node is split: its rounds are used up, or its answer, rough or checked, lacks nothing. With a checked one goes what the search for odd cuts answered.
pub(crate) fn reason_of(node: NodeLp, odd: OddAnswer) -> Why
    requires { IsClean node.program }
    ensures { (i : TheInstance) (path : List Condition) (l : ℕ) → IsStuck i path l node odd → IsReason i path l result }
{
    if node.lp().rounds() == ROUNDS {
        return Why::Rounds(node.into_lp());
    }
    if is_solved(node.lp()) {
        Why::Checked(node.into_lp(), odd)
    } else {
        Why::Rough(node.into_lp())
    }
}

/// Whether the newest answer is Solved.
fn is_solved(lp: &Lp) -> bool
    requires { IsClean lp.now }
    ensures solved { result ≡ true → HasSolved lp.now.last }
    ensures rough { result ≡ false → HasRough lp.now.last }
{
    match lp.last() {
        Some(LpAnswer::Solved { .. }) => true,
        _ => false,
    }
}
