//! What a pair costs, and what some pairs weigh.

ghost use Rattle.std.specs.Prelude.{◌≡◌, ◌*◌, ◌^◌, ◌<◌, ◌≤◌, length, nat_abs, pos, ◌-ℤ◌};
ghost use Rattle.tspdef.specs.Bounds.{scale};
ghost use Rattle.onetree.specs.OneTrees as defs;
ghost use Rattle.onetree.specs.OneTrees.{AreDuals};
ghost use Rattle.onetree.specs.Growing.{IsWithin, AreBelow};

use tspinst::Instance;

/// How many units one length is.
const SCALE: i128 = 1 << 20;

/// The cost of a pair, in units: its distance less the duals of its cities.
#[inline]
pub fn cost(instance: &Instance, duals: &[i64], u: u32, v: u32) -> i128
    requires duals { AreDuals instance.now.n duals.now }
    requires from { u < instance.now.n }
    requires to { v < instance.now.n }
    ensures value { result ≡ defs.reduced instance.now duals.now u v }
    ensures size { IsWithin (2 ^ 64) result }
{
    less(instance.d(u, v), duals[u as usize], duals[v as usize])
}

/// A distance, in units, less two duals.
#[inline]
fn less(d: u32, a: i64, b: i64) -> i128
    requires d { d < 2 ^ 30 }
    requires a { nat_abs a ≤ 2 ^ 62 }
    requires b { nat_abs b ≤ 2 ^ 62 }
    ensures value { result ≡ pos (scale * d) -ℤ a -ℤ b }
    ensures size { IsWithin (2 ^ 64) result }
{
    SCALE * i128::from(d) - (i128::from(a) + i128::from(b))
}

/// What some pairs weigh.
pub fn weigh(instance: &Instance, duals: &[i64], pairs: &[(u32, u32)]) -> i128
    requires duals { AreDuals instance.now.n duals.now }
    requires below { AreBelow instance.now.n pairs.now }
    requires few { length pairs.now ≤ 2000 }
    ensures value { result ≡ defs.weight (defs.reduced instance.now duals.now) pairs.now }
    ensures size { IsWithin (2 ^ 75) result }
{
    let mut total = 0i128;
    for pair in pairs {
        total += cost(instance, duals, pair.0, pair.1);
    }
    total
}
