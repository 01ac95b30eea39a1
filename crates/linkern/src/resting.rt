//! Exchanges of two steps until none shortens the tour.

ghost use Rattle.std.specs.Prelude.{◌≡◌, ◌+◌, ◌<◌, ◌≤◌, ℕ, true, length, MatchOption};
ghost use Rattle.tspdef.specs.Sets.{has};
ghost use Rattle.tspdef.specs.Tours.{IsTour, steps};
ghost use Rattle.tspdef.specs.Fixed.{AreSteps};
ghost use Rattle.tspdef.specs.Instances.{length_in};
ghost use Rattle.neigh.specs.Near.{near_to};
ghost use Rattle.linkern.specs.Exchanges.{are_free, Gains, IsPairAtRest};
ghost use Rattle.linkern.specs.Rests.{IsAtRest};

use flips::ArrayTour;
use neigh::Neigh;
use tspinst::Instance;

/// Steps `ab` and `cd`, to become `ac` and `bd`.
#[derive(Clone, Copy)]
pub struct Exchange {
    a: u32,
    b: u32,
    c: u32,
    d: u32,
}

/// Whether neither of the steps `ab` and `cd` is fixed.
#[inline]
fn may_go(instance: &Instance, a: u32, b: u32, c: u32, d: u32) -> bool
    ensures { result ≡ are_free instance.now a b c d }
{
    !instance.is_fixed(a, b) && !instance.is_fixed(c, d)
}

/// An exchange that joins `a` and `c` and shortens the tour: of the steps behind the two cities, or of those before them, where
/// neither is fixed.
#[inline]
fn gain_at(instance: &Instance, tour: &ArrayTour, a: u32, c: u32) -> Option<Exchange>
    requires first { a < length tour.now }
    requires second { c < length tour.now }
    requires cities { instance.now.n ≡ length tour.now }
    ensures { MatchOption result (IsPairAtRest instance.now tour.now a c) (λ x. Gains instance.now tour.now x) }
{
    if a == c {
        return None;
    }
    let _n = tour.n();
    let joined = instance.d(a, c);
    let b = tour.next(a);
    let d = tour.next(c);
    if joined + instance.d(b, d) < instance.d(a, b) + instance.d(c, d)
        && may_go(instance, a, b, c, d)
    {
        return Some(Exchange { a, b, c, d });
    }
    let p = tour.prev(a);
    let q = tour.prev(c);
    if instance.d(p, q) + joined < instance.d(p, a) + instance.d(q, c)
        && may_go(instance, p, a, q, c)
    {
        return Some(Exchange {
            a: p,
            b: a,
            c: q,
            d: c,
        });
    }
    None
}

/// An exchange that joins a city to one of its list and shortens the tour.
fn gain_near(instance: &Instance, near: &Neigh, tour: &ArrayTour, a: u32) -> Option<Exchange>
    requires city { a < length tour.now }
    requires cities { instance.now.n ≡ length tour.now }
    requires lists { near.now.n ≡ length tour.now }
    ensures { MatchOption result ((c : ℕ) → has (near_to near.now a) c ≡ true → IsPairAtRest instance.now tour.now a c)
        (λ x. Gains instance.now tour.now x) }
{
    let list = near.of(a);
    for place in 0..list.len() {
        if let Some(x) = gain_at(instance, tour, a, list[place]) {
            return Some(x);
        }
    }
    None
}

/// An exchange with a near replacement that shortens the tour.
fn gain(instance: &Instance, near: &Neigh, tour: &ArrayTour) -> Option<Exchange>
    requires cities { instance.now.n ≡ length tour.now }
    requires lists { near.now.n ≡ length tour.now }
    ensures tour { IsTour (length tour.now) tour.now }
    ensures found { MatchOption result (IsAtRest instance.now near.now tour.now) (λ x. Gains instance.now tour.now x) }
{
    for a in 0..tour.n() {
        if let Some(x) = gain_near(instance, near, tour, a) {
            return Some(x);
        }
    }
    None
}

/// Exchanges steps that are not fixed until no such exchange with a near replacement shortens the tour. Each makes it shorter by a
/// whole number, so this ends.
pub fn bring_to_rest(instance: &Instance, near: &Neigh, tour: &mut ArrayTour)
    requires cities { instance.now.n ≡ length tour.old }
    requires lists { near.now.n ≡ length tour.old }
    requires held { AreSteps (steps tour.old) instance.now.fixed }
    ensures size { length tour.new ≡ length tour.old }
    ensures no_longer { length_in instance.now tour.new ≤ length_in instance.now tour.old }
    ensures held { AreSteps (steps tour.new) instance.now.fixed }
    ensures rest { IsAtRest instance.now near.now tour.new }
{
    while let Some(x) = gain(instance, near, tour) {
        tour.flip(x.a, x.b, x.c, x.d);
    }
}
