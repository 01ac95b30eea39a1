//! Whether a path is a node's.
ghost use Rattle.std.specs.Prelude.{◌≡◌, ◌<◌, ◌↔◌, List, [], ◌∷◌, ◌++◌, length, IsTrue, MatchOption};
ghost use Rattle.tspdef.specs.Paths.{Condition, fixed_conditions};
ghost use Rattle.tspdef.specs.Paths as paths;
ghost use Rattle.branchx.specs.Cond as cond;
ghost use Rattle.pricer.specs.Trails.{condition_of};
ghost use Rattle.treebook.specs.Tables.{path_at};

use crate::tree::Tree;
use branchx::{Cond, Path};
use cyc::CitySet;
use pricer::Step;

impl Tree {
    /// Whether a path is that of a node: of as many cities, the fixed pairs, and the conditions from the root to the node. It is
    /// found by going up from the node, without memory.
    pub fn on_path(&self, node: u32, path: &Path) -> bool
        requires { node < length self.now.nodes }
        ensures { IsTrue result ↔ (path.now ≡ record { n = self.now.n; conditions = path_at self.now.fixed self.now.nodes node }) }
    {
        path.n() == self.n() && self.ends_with(node, path.conditions())
    }

    /// Whether conditions are those of a node's path.
    fn ends_with(&self, node: u32, conditions: &[Cond]) -> bool
        requires { node < length self.now.nodes }
        ensures { IsTrue result ↔ (cond.conditions_of conditions.now ≡ path_at self.now.fixed self.now.nodes node) }
    {
        let mut here = node;
        let mut rest = conditions;
        while let Some((parent, step)) = self.above(here) {
            let Some(before) = before_last(rest, step) else {
                return false;
            };
            here = parent;
            rest = before;
        }
        are_fixed(rest, self.fixed())
    }
}

/// The conditions before the last one, where that is the step.
fn before_last<'a>(conditions: &'a [Cond], step: Step<'_>) -> Option<&'a [Cond]>
    ensures { MatchOption result ((before : List Condition) → cond.conditions_of conditions.now ≡ before ++ condition_of step.entry ∷ [] → ⊥)
        (λ before. cond.conditions_of conditions.now ≡ cond.conditions_of before.now ++ condition_of step.entry ∷ []) }
{
    let Some((last, before)) = conditions.split_last() else {
        return None;
    };
    if is_same(step, last) {
        Some(before)
    } else {
        None
    }
}

/// The conditions behind the first one, where that is a fixed pair.
fn behind_first(conditions: &[Cond], u: u32, v: u32) -> Option<&[Cond]>
    ensures { MatchOption result ((behind : List Condition) → cond.conditions_of conditions.now ≡ paths.fixed u v ∷ behind → ⊥)
        (λ behind. cond.conditions_of conditions.now ≡ paths.fixed u v ∷ cond.conditions_of behind.now) }
{
    let Some((first, behind)) = conditions.split_first() else {
        return None;
    };
    if is_same(Step::Fixed(u, v), first) {
        Some(behind)
    } else {
        None
    }
}

/// Whether the conditions are these fixed pairs.
fn are_fixed(conditions: &[Cond], fixed: &[(u32, u32)]) -> bool
    ensures { IsTrue result ↔ (cond.conditions_of conditions.now ≡ fixed_conditions fixed.now) }
{
    let mut rest = conditions;
    let mut pairs = fixed;
    while let Some((pair, more)) = pairs.split_first() {
        let Some(behind) = behind_first(rest, pair.0, pair.1) else {
            return false;
        };
        rest = behind;
        pairs = more;
    }
    rest.is_empty()
}

/// Whether a step is a condition.
fn is_same(step: Step<'_>, condition: &Cond) -> bool
    ensures { IsTrue result ↔ (condition_of step.entry ≡ cond.condition_of condition.now) }
{
    match (step, condition) {
        (Step::Fixed(u, v), Cond::Fixed(a, b))
        | (Step::Absent(u, v), Cond::Absent(a, b))
        | (Step::Present(u, v), Cond::Present(a, b)) => u == *a && v == *b,
        (Step::Two(set), Cond::Two(other)) | (Step::Four(set), Cond::Four(other)) => {
            have_same_cities(set, other)
        }
        _ => false,
    }
}

fn have_same_cities(set: &CitySet, other: &CitySet) -> bool
    ensures { IsTrue result ↔ (set.now.cities ≡ other.now.cities) }
{
    set.cities() == other.cities()
}
