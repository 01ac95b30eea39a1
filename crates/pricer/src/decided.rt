//! Decided pairs: what each condition on a pair changes in the sum over all pairs, as if none were decided.

ghost use Rattle.std.specs.Prelude.{◌≡◌, ◌*◌, ◌^◌, ◌<◌, ◌≤◌, [], pos, ◌+ℤ◌, ◌-ℤ◌};
ghost use Rattle.tspdef.specs.Instances.{IsInstance};
ghost use Rattle.tspdef.specs.Closings.{IsClosing};
ghost use Rattle.tspdef.specs.Bounds as defs;
ghost use Rattle.pricer.specs.Sizes.{IsWithin};
ghost use Rattle.pricer.specs.Trails.{condition_of, IsPairBelow};
ghost use Rattle.pricer.specs.Prices.{change_of, terms};

use crate::closing::Closing;
use crate::duals::{city_dual, cliques_price, cuts_price};
use crate::numbers::{below_zero, less, less_sets, plus, signed};
use crate::trail::{Step, Trail};
use tspinst::Instance;

/// The reduced cost of a pair, in units.
fn reduced_cost<'a, T: Trail<'a>>(
    instance: &Instance,
    trail: T,
    closing: &Closing,
    u: u32,
    v: u32,
) -> i128
    requires closing { IsClosing instance.now.n (T.conditions trail) closing.now }
    requires from { u < instance.now.n }
    requires to { v < instance.now.n }
    ensures value { result ≡ defs.reduced_cost instance.now (T.conditions trail) closing.now u v }
    ensures size { IsWithin (2 ^ 103) result }
{
    let n = instance.n();
    let cost = less(
        instance.d(u, v),
        city_dual(closing, u),
        city_dual(closing, v),
    );
    let cuts = signed(cuts_price(n, closing.cuts(), u, v));
    let cliques = cliques_price(trail, closing.conds(), u, v);
    less_sets(cost, cuts, cliques)
}

/// What a condition changes in the sum over all pairs.
fn change<'a, T: Trail<'a>>(
    instance: &Instance,
    trail: T,
    closing: &Closing,
    step: Step<'_>,
) -> i128
    requires closing { IsClosing instance.now.n (T.conditions trail) closing.now }
    requires pair { IsPairBelow instance.now.n (condition_of step) }
    ensures value { result ≡ change_of (defs.reduced_cost instance.now (T.conditions trail) closing.now) (condition_of step.entry) }
    ensures size { IsWithin (2 ^ 104) result }
{
    match step {
        Step::Absent(u, v) => {
            let cost = reduced_cost(instance, trail, closing, u, v);
            signed(below_zero(cost))
        }
        Step::Fixed(u, v) | Step::Present(u, v) => {
            let cost = reduced_cost(instance, trail, closing, u, v);
            plus(cost, signed(below_zero(cost)))
        }
        Step::Two(_) | Step::Four(_) => 0,
    }
}

/// What the conditions of the trail change in the sum over all pairs.
pub fn changes<'a, T: Trail<'a>>(instance: &Instance, trail: T, closing: &Closing) -> i128
    requires cities { T.cities trail ≡ instance.now.n }
    requires closing { IsClosing instance.now.n (T.conditions trail) closing.now }
    ensures value { result ≡ terms instance.now.n (defs.reduced_cost instance.now (T.conditions trail) closing.now) (T.conditions trail)
        -ℤ terms instance.now.n (defs.reduced_cost instance.now (T.conditions trail) closing.now) [] }
    ensures size { IsWithin (2 ^ 110) result }
{
    let _ = (instance.n(), trail.n());
    let mut total: i128 = 0;
    let mut here = trail;
    while let Some(next) = here.up() {
        total += change(instance, trail, closing, next.0);
        here = next.1;
    }
    total
}
