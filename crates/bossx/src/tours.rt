//! Which fixed pairs a tour has as steps.
ghost use Rattle.std.specs.Prelude.{◌≡◌, ◌<◌, length, IsTrue, MatchOption};
ghost use Rattle.tspdef.specs.Tours as defs;
ghost use Rattle.tspdef.specs.Fixed.{AreSteps};
ghost use Rattle.bossx.specs.Steps.{IsFirstOff};

/// The first of the pairs that is no step of the tour, without memory: O(n) for each pair.
pub fn first_off(cities: &[u32], pairs: &[(u32, u32)]) -> Option<(u32, u32)>
    ensures { MatchOption result (AreSteps (defs.steps cities.now) pairs.now) (λ p. IsFirstOff (defs.steps cities.now) pairs.now p.0 p.1) }
{
    for i in 0..pairs.len() {
        if !has_step(cities, pairs[i].0, pairs[i].1) {
            return Some(pairs[i]);
        }
    }
    None
}

/// Whether a step of the tour joins the two cities.
fn has_step(cities: &[u32], u: u32, v: u32) -> bool
    ensures { result ≡ defs.has_step (defs.steps cities.now) u v }
{
    let Some((first, behind)) = cities.split_first() else {
        return false;
    };
    let home = *first;
    let mut here = home;
    let mut rest = behind;
    while let Some((next, more)) = rest.split_first() {
        if joins(here, *next, u, v) {
            return true;
        }
        here = *next;
        rest = more;
    }
    joins(here, home, u, v)
}

/// Whether a step from a to b joins the two cities, in one of the two directions.
fn joins(a: u32, b: u32, u: u32, v: u32) -> bool
    ensures { result ≡ defs.joins u v (a, b) }
{
    (a == u && b == v) || (a == v && b == u)
}
