//! How much the duals of a closing's cuts weigh, so that sums of light ones are made of small numbers.

ghost use Rattle.std.specs.Prelude.{◌≡◌, ℕ, ◌+◌, ◌*◌, ◌^◌, ◌≤◌, length, true};
ghost use Rattle.std.specs.List.{AllByRecursion};
ghost use Rattle.tspdef.specs.Cuts.{IsCut, sets_of};
ghost use Rattle.tspdef.specs.Closings.{IsClosing, IsDualSize};
ghost use Rattle.pricer.specs.Weights.{weight, IsLight};

use crate::closing::Closing;
use cutform::Cut;

/// The greatest weight, in units, that is light.
const LIGHT: u128 = 1 << 46;

/// Whether a closing has no dual of a condition, and duals of cuts whose sums at a city are small.
pub fn is_light(n: u32, closing: &Closing) -> bool
    requires few { n ≤ 2000 }
    requires cuts { AllByRecursion (λ q. IsCut n q.0) closing.now.cuts }
    requires sizes { AllByRecursion (λ q. IsDualSize q.1) closing.now.cuts }
    requires some { length closing.now.cuts ≤ 4096 }
    ensures { result ≡ true → IsLight closing.now }
{
    closing.conds().is_empty() && weigh(n, closing.cuts()) <= LIGHT
}

/// The weight of duals of cuts.
fn weigh(n: u32, cuts: &[(Cut, u64)]) -> u128
    requires few { n ≤ 2000 }
    requires cuts { AllByRecursion (λ q. IsCut n q.0) cuts.now }
    requires sizes { AllByRecursion (λ q. IsDualSize q.1) cuts.now }
    requires some { length cuts.now ≤ 4096 }
    ensures { result ≡ weight cuts.now }
{
    let mut total: u128 = 0;
    let mut rest = cuts;
    while let Some((q, more)) = rest.split_first() {
        total += cut_weight(n, &q.0, q.1);
        rest = more;
    }
    total
}

/// The weight of the dual of a cut.
fn cut_weight(n: u32, cut: &Cut, dual: u64) -> u128
    requires few { n ≤ 2000 }
    requires cut { IsCut n cut.now }
    requires dual { dual ≤ 2 ^ 62 }
    ensures value { result ≡ dual * (1 + length (sets_of cut.now)) }
    ensures size { result ≤ 2 ^ 62 * 8192 }
{
    u128::from(dual) * u128::from(set_count(n, cut))
}

/// How many sets a cut has, and one more.
fn set_count(n: u32, cut: &Cut) -> u32
    requires few { n ≤ 2000 }
    requires cut { IsCut n cut.now }
    ensures value { result ≡ 1 + length (sets_of cut.now) }
    ensures size { result ≤ 8192 }
{
    1 + cut.sets().len() as u32 + cut.pairs().len() as u32
}
