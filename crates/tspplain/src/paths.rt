//! Conditions and paths.

ghost use Rattle.std.specs.Prelude.{◌≡◌, ◌↔◌, IsTrue, slice_get};
ghost use Rattle.std.specs.Option.{option_map};
ghost use Rattle.tspdef.specs.Tours as tours;
ghost use Rattle.tspdef.specs.Paths as defs;
ghost use Rattle.tspplain.specs.Values.{condition_of, path_of, is_fixed_condition};

use crate::values::Condition;

/// Whether the step from `a` to `b` joins `u` and `v`.
pub fn joins(u: u32, v: u32, a: u32, b: u32) -> bool
    ensures { result ≡ tours.joins u v (a, b) }
{
    (a == u && b == v) || (a == v && b == u)
}

/// Whether the condition is a fixed pair.
fn is_fixed(condition: &Condition) -> bool
    ensures { result ≡ is_fixed_condition (condition_of condition.now) }
{
    match condition {
        Condition::Fixed(_, _) => true,
        Condition::Absent(_, _) => false,
        Condition::Present(_, _) => false,
        Condition::Two(_) => false,
        Condition::Four(_) => false,
    }
}

/// The condition at a place behind the fixed pairs, from 0 on, if there is one.
#[tactic(auto, using(crate::proofs::PathLemmas::branches_of))]
pub fn branch_at(path: &[Condition], place: u32) -> Option<&Condition>
    ensures { option_map (λ c. condition_of c.now) result ≡ slice_get (defs.branches (path_of path.now)) place }
{
    match path.split_first() {
        None => None,
        Some((condition, rest)) => {
            if is_fixed(condition) {
                branch_at(rest, place)
            } else if place == 0 {
                Some(condition)
            } else {
                branch_at(rest, place - 1)
            }
        }
    }
}

/// Whether the path says that the pair is not used.
pub fn is_absent(path: &[Condition], u: u32, v: u32) -> bool
    ensures { result ≡ defs.is_absent (path_of path.now) u v }
{
    match path.split_first() {
        None => false,
        Some((condition, rest)) => match condition {
            Condition::Fixed(_, _) => is_absent(rest, u, v),
            Condition::Absent(a, b) => joins(u, v, *a, *b) || is_absent(rest, u, v),
            Condition::Present(_, _) => is_absent(rest, u, v),
            Condition::Two(_) => is_absent(rest, u, v),
            Condition::Four(_) => is_absent(rest, u, v),
        },
    }
}

/// Whether the path says that the pair is used.
pub fn is_present(path: &[Condition], u: u32, v: u32) -> bool
    ensures { result ≡ defs.is_present (path_of path.now) u v }
{
    match path.split_first() {
        None => false,
        Some((condition, rest)) => match condition {
            Condition::Fixed(a, b) => joins(u, v, *a, *b) || is_present(rest, u, v),
            Condition::Absent(_, _) => is_present(rest, u, v),
            Condition::Present(a, b) => joins(u, v, *a, *b) || is_present(rest, u, v),
            Condition::Two(_) => is_present(rest, u, v),
            Condition::Four(_) => is_present(rest, u, v),
        },
    }
}

/// Whether the path says whether the pair is used.
pub fn is_decided(path: &[Condition], u: u32, v: u32) -> bool
    ensures { result ≡ defs.is_decided (path_of path.now) u v }
{
    is_absent(path, u, v) || is_present(path, u, v)
}
