//! The way up from a node of the tree to the root.

ghost use Rattle.std.specs.Prelude.{◌≡◌, ℕ, ◌+◌, ◌-◌, ◌≤◌, List, [], ◌∷◌, ◌++◌, length, take, MatchOption, IfSome};
ghost use Rattle.std.specs.Option.{option_map};
ghost use Rattle.tspdef.specs.Paths.{Condition, IsPath, branches, condition_at};
ghost use Rattle.branchx.specs.Cond as cond;
ghost use Rattle.pricer.specs.Trails.{condition_of, IsFront, fixed_in_front, HasProperSet};

use branchx::{Cond, Path};
use cyc::CitySet;

/// A condition, its set borrowed.
#[derive(Clone, Copy)]
pub enum Step<'a> {
    /// The two cities, the lower one first, are joined by a fixed pair of the instance.
    Fixed(u32, u32),
    /// The two cities, the lower one first, are not joined.
    Absent(u32, u32),
    /// The two cities, the lower one first, are joined.
    Present(u32, u32),
    /// The set is crossed exactly twice.
    Two(&'a CitySet),
    /// The set is crossed four times or more.
    Four(&'a CitySet),
}

/// The conditions from the root to a node, gone through from the last one up: of a path, or of a node that knows its own
/// condition and the node above it. Contracts see the number of cities and the list of the conditions, from the root on.
pub trait Trail<'a>: Copy {
    ghost cities: { Self → ℕ };

    ghost conditions: { Self → List Condition };

    /// Of how many cities it is.
    fn n(self) -> u32
        ensures same { result ≡ cities self }
        ensures is_path { IsPath result (conditions self) };

    /// How many conditions there are behind the fixed pairs.
    fn depth(self) -> usize
        ensures { result ≡ length (branches (conditions self)) };

    /// The last condition, and the trail before it. The way up ends behind the first of the fixed pairs.
    fn up(self) -> Option<(Step<'a>, Self)>
        ensures conditions { MatchOption result (conditions self ≡ []) (λ s. conditions self ≡ conditions s.1 ++ condition_of s.0 ∷ []) }
        ensures cities { IfSome result (λ s. cities s.1 ≡ cities self) };
}

/// The first conditions of a path.
#[derive(Clone, Copy)]
pub(crate) struct Front<'a> {
    path: &'a Path,
    count: usize,
    fixed: usize,
    ghost within: { count ≤ length path.now.conditions },
    ghost depths: { (k : ℕ) → k ≤ length path.now.conditions → length (branches (take k path.now.conditions)) ≡ k - fixed },
}

impl<'a> Front<'a> {
    /// All conditions of a path.
    pub fn whole(path: &'a Path) -> Front<'a>
        ensures cities { result.path.now.n ≡ path.now.n }
        ensures conditions { take result.count result.path.now.conditions ≡ path.now.conditions }
    {
        Front {
            path,
            count: path.conditions().len(),
            fixed: fixed_in_front(path.conditions()),
        }
    }
}

impl<'a> Trail<'a> for Front<'a> {
    ghost cities = { λ f. f.path.now.n };

    ghost conditions = { λ f. take f.count f.path.now.conditions };

    fn n(self) -> u32 {
        let _ = self.path.conditions();
        self.path.n()
    }

    fn depth(self) -> usize {
        self.count.saturating_sub(self.fixed)
    }

    fn up(self) -> Option<(Step<'a>, Front<'a>)> {
        if self.count == 0 {
            return None;
        }
        let count = self.count - 1;
        let step = step_of(&self.path.conditions()[count]);
        Some((
            step,
            Front {
                path: self.path,
                count,
                fixed: self.fixed,
            },
        ))
    }
}

/// How many fixed pairs there are before the first other condition.
fn fixed_in_front(conditions: &[Cond]) -> usize
    ensures { result ≡ fixed_in_front (cond.conditions_of conditions.now) }
{
    let mut count = 0;
    for condition in conditions {
        if !condition.is_fixed() {
            return count;
        }
        count += 1;
    }
    count
}

/// The condition with its set borrowed.
fn step_of(condition: &Cond) -> Step<'_>
    ensures { condition_of result ≡ cond.condition_of condition.now }
{
    match condition {
        Cond::Fixed(u, v) => Step::Fixed(*u, *v),
        Cond::Absent(u, v) => Step::Absent(*u, *v),
        Cond::Present(u, v) => Step::Present(*u, *v),
        Cond::Two(set) => Step::Two(set),
        Cond::Four(set) => Step::Four(set),
    }
}

/// The front of a trail up to a depth.
fn climb<'a, T: Trail<'a>>(trail: T, depth: usize) -> T
    ensures depth { branches (T.conditions result) ≡ take depth (branches (T.conditions trail)) }
    ensures front { IsFront (T.conditions result) (T.conditions trail) }
    ensures cities { T.cities result ≡ T.cities trail }
{
    let mut here = trail;
    while here.depth() > depth {
        match here.up() {
            None => return here,
            Some(next) => here = next.1,
        }
    }
    here
}

/// The condition of a trail at a depth, and a front of the trail that is near it, from which a lesser depth is found soon:
/// `near` is any front of the trail.
pub fn step_at<'a, T: Trail<'a>>(trail: T, near: T, depth: u32) -> (Option<Step<'a>>, T)
    requires near { IsFront (T.conditions near) (T.conditions trail) }
    requires cities { T.cities near ≡ T.cities trail }
    ensures step { option_map condition_of result.0 ≡ condition_at (T.conditions trail) depth }
    ensures set { HasProperSet (T.cities trail) (condition_at (T.conditions trail) depth) }
    ensures near { IsFront (T.conditions result.1) (T.conditions trail) }
    ensures cities { T.cities result.1 ≡ T.cities trail }
{
    let place = depth as usize;
    let from = if place <= near.depth() { near } else { trail };
    let there = climb(from, place);
    let _ = trail.n();
    (last_at(there, place), there)
}

/// The last condition of a trail that is as deep as the depth says. It is no fixed pair, since those come first.
fn last_at<'a, T: Trail<'a>>(there: T, depth: usize) -> Option<Step<'a>>
    requires { length (branches (T.conditions there)) ≤ depth }
    ensures { option_map condition_of result ≡ condition_at (T.conditions there) depth }
{
    let _ = there.n();
    if depth == 0 || there.depth() < depth {
        return None;
    }
    match there.up() {
        None => None,
        Some((step, _)) => Some(step),
    }
}
