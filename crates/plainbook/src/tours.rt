//! Which pairs a tour has as steps.
ghost use Rattle.std.specs.Prelude.{◌≡◌, length, IsTrue};
ghost use Rattle.tspdef.specs.Tours as defs;
ghost use Rattle.tspdef.specs.Fixed.{AreSteps};

/// Whether each of the pairs is a step of the tour.
pub(crate) fn has_all(cities: &[u32], pairs: &[(u32, u32)]) -> bool
    ensures { IsTrue result → AreSteps (defs.steps cities.now) pairs.now }
{
    for i in 0..pairs.len() {
        if !has_step(cities, pairs[i].0, pairs[i].1) {
            return false;
        }
    }
    true
}

/// Whether a step of the tour joins the two cities.
pub(crate) fn has_step(cities: &[u32], u: u32, v: u32) -> bool
    ensures { result ≡ defs.has_step (defs.steps cities.now) u v }
{
    let Some((first, behind)) = cities.split_first() else {
        return false;
    };
    let home = *first;
    let mut here = home;
    let mut rest = behind;
    while let Some((next, more)) = rest.split_first() {
        if joins(here, *next, u, v) {
            return true;
        }
        here = *next;
        rest = more;
    }
    joins(here, home, u, v)
}

/// Whether a step from a to b joins the two cities, in one of the two directions.
fn joins(a: u32, b: u32, u: u32, v: u32) -> bool
    ensures { result ≡ defs.joins u v (a, b) }
{
    (a == u && b == v) || (a == v && b == u)
}
