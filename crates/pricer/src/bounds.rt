//! The bound of a closing: a pass over all pairs as if none were decided, and a correction for each that is.
//!
//! A set with exactly one of two cities has the first, or the second, but not both. So a pair's reduced cost is its distance
//! less the prices of its cities, where a city's price is its dual and those of the sets that have it, and twice the
//! duals of the sets that have both. The prices are one array; the duals that a city shares with others are a second one,
//! filled anew for each city that a set holds, so that the sets cost n times their total size and not a look at each set for
//! each pair.

ghost use Rattle.std.specs.Prelude.{◌≡◌, ℕ, ◌*◌, ◌^◌, ◌<◌, ◌≤◌, [], List, length, IfSome, pos, neg_ℤ, ◌+ℤ◌, ◌-ℤ◌, ◌≤ℤ◌, false, slice_index_or};
ghost use Rattle.std.specs.Int.{int_min};
ghost use Rattle.tspdef.specs.Tours.{steps};
ghost use Rattle.tspdef.specs.Paths.{Obeys};
ghost use Rattle.tspdef.specs.Instances.{IsTourOf, length_in};
ghost use Rattle.tspdef.specs.Closings.{IsClosing};
ghost use Rattle.tspdef.specs.Sums.{sum_below, sum_pairs};
ghost use Rattle.tspdef.specs.Bounds as defs;
ghost use Rattle.pricer.specs.Sizes.{IsWithin};
ghost use Rattle.pricer.specs.Marks.{is_marked};
ghost use Rattle.pricer.specs.Prices.{at, AreSmall, price_of, shared_by, terms};

use crate::closing::Closing;
use crate::decided::changes;
use crate::duals::{city_sum, cliques_worth, cuts_worth};
use crate::holding::mark_held;
use crate::light_rows::light_rows;
use crate::numbers::{SCALE, signed};
use crate::rows::{bare_row_loss, narrow, row_loss};
use crate::spread::{spread_cliques, spread_cuts};
use crate::trail::{Front, Trail};
use crate::weights::is_light;
use branchx::Path;
use tspdef::bound_is_below;
use tspinst::Instance;

/// The greatest number of cities.
const CITIES: usize = 2000;

/// What the bound of a closing must exceed, in units, so that no tour is shorter than the length.
pub fn needed(length: u64) -> i128
    ensures value { result ≡ defs.needed length }
    ensures size { IsWithin (2 ^ 85) result }
{
    SCALE * i128::from(length) - SCALE
}

/// The bound of a closing on a path, in units: no tour that obeys the path is shorter.
pub fn bound(instance: &Instance, path: &Path, closing: &Closing) -> i128
    requires cities { path.now.n ≡ instance.now.n }
    requires closing { IsClosing instance.now.n path.now.conditions closing.now }
    ensures value { result ≡ defs.bound instance.now path.now.conditions closing.now }
    ensures size { IsWithin (2 ^ 110) result }
    ensures below { (tour : List ℕ) → IsTourOf instance.now tour → Obeys (steps tour) path.now.conditions
        → result ≤ℤ pos (defs.scale * length_in instance.now tour) }
{
    bound_on(instance, Front::whole(path), closing)
}

/// The bound of a closing at the end of a trail, in units: no tour that obeys the trail's conditions is shorter.
pub fn bound_on<'a, T: Trail<'a>>(instance: &Instance, trail: T, closing: &Closing) -> i128
    requires cities { T.cities trail ≡ instance.now.n }
    requires closing { IsClosing instance.now.n (T.conditions trail) closing.now }
    ensures value { result ≡ defs.bound instance.now (T.conditions trail) closing.now }
    ensures size { IsWithin (2 ^ 110) result }
    ensures below { (tour : List ℕ) → IsTourOf instance.now tour → Obeys (steps tour) (T.conditions trail)
        → result ≤ℤ pos (defs.scale * length_in instance.now tour) }
{
    bound_is_below();
    let worth = worth(instance.n(), trail, closing);
    let changes = changes(instance, trail, closing);
    balance(worth, changes, losses(instance, trail, closing))
}

/// What the duals and the decided pairs add, less what all pairs lose.
fn balance(worth: i128, changes: i128, losses: u128) -> i128
    requires worth { IsWithin (2 ^ 89) worth }
    requires changes { IsWithin (2 ^ 110) changes }
    requires losses { losses ≤ 2 ^ 125 }
    ensures { result ≡ worth +ℤ changes -ℤ pos losses }
{
    worth + changes - signed(losses)
}

/// A number for each city, 0 at first.
fn zeros() -> [i128; CITIES]
    ensures long { length result ≡ 2000 }
    ensures empty { (c : ℕ) → at result c ≡ pos 0 }
{
    [0; CITIES]
}

/// A small number for each city.
pub fn small_zeros() -> [i64; CITIES]
    ensures { length result ≡ 2000 }
{
    [0; CITIES]
}

/// No mark on any city.
pub fn unmarked() -> [bool; CITIES]
    ensures { length result ≡ 2000 }
{
    [false; CITIES]
}

/// What the duals alone add to the bound.
fn worth<'a, T: Trail<'a>>(n: u32, trail: T, closing: &Closing) -> i128
    requires few { n ≤ 2000 }
    requires closing { IsClosing n (T.conditions trail) closing.now }
    ensures value { result ≡ sum_below (defs.city_dual closing.now) n +ℤ sum_below (defs.city_dual closing.now) n
        +ℤ defs.worth (defs.cut_rows closing.now.cuts) +ℤ defs.worth (defs.condition_rows (T.conditions trail) closing.now.conds) }
    ensures size { IsWithin (2 ^ 89) result }
{
    let cities = city_sum(n, closing);
    let cuts = signed(cuts_worth(n, closing.cuts()));
    let cliques = cliques_worth(trail, closing.conds());
    cities + cities + cuts + cliques
}

/// How far all pairs are below 0, as if none were decided.
fn losses<'a, T: Trail<'a>>(instance: &Instance, trail: T, closing: &Closing) -> u128
    requires few { instance.now.n ≤ 2000 }
    requires cities { T.cities trail ≡ instance.now.n }
    requires closing { IsClosing instance.now.n (T.conditions trail) closing.now }
    ensures value { neg_ℤ (pos result) ≡ terms instance.now.n (defs.reduced_cost instance.now (T.conditions trail) closing.now) [] }
    ensures size { result ≤ 2 ^ 125 }
{
    let mut price = zeros();
    lay_prices(instance, trail, closing, &mut price);
    all_rows(instance, trail, closing, &price)
}

/// Writes the price of each city.
fn lay_prices<'a, T: Trail<'a>>(
    instance: &Instance,
    trail: T,
    closing: &Closing,
    price: &mut [i128],
)
    requires cities { T.cities trail ≡ instance.now.n }
    requires closing { IsClosing instance.now.n (T.conditions trail) closing.now }
    requires long { instance.now.n ≤ length price.old }
    requires empty { (c : ℕ) → at price.old c ≡ pos 0 }
    ensures { (c : ℕ) → at price.new c ≡ price_of (T.conditions trail) closing.now c }
{
    let n = instance.n();
    lay_duals(price, closing.city());
    spread_cuts(n, price, None, closing.cuts());
    spread_cliques(n, price, None, trail, closing.conds());
}

/// Writes the dual of each city.
fn lay_duals(price: &mut [i128], city: &[i64])
    requires long { length city.now ≤ length price.old }
    requires empty { (c : ℕ) → at price.old c ≡ pos 0 }
    ensures { (c : ℕ) → at price.new c ≡ slice_index_or city.now c (pos 0) }
{
    for i in 0..city.len() {
        price[i] = i128::from(city[i]);
    }
}

/// How far the pairs of all cities are below 0. Prices that are small are summed up as small numbers, and so are the duals of
/// cuts if they are light.
fn all_rows<'a, T: Trail<'a>>(
    instance: &Instance,
    trail: T,
    closing: &Closing,
    price: &[i128],
) -> u128
    requires few { instance.now.n ≤ 2000 }
    requires cities { T.cities trail ≡ instance.now.n }
    requires closing { IsClosing instance.now.n (T.conditions trail) closing.now }
    requires long { length price.now ≡ 2000 }
    requires price { (c : ℕ) → at price.now c ≡ price_of (T.conditions trail) closing.now c }
    ensures value { neg_ℤ (pos result) ≡ terms instance.now.n (defs.reduced_cost instance.now (T.conditions trail) closing.now) [] }
    ensures size { result ≤ 2 ^ 125 }
{
    let mut small = small_zeros();
    if !narrow(price, &mut small) {
        return rows(instance, trail, closing, price, None);
    }
    if is_light(instance.n(), closing) {
        light_rows(instance, trail, closing, &small)
    } else {
        rows(instance, trail, closing, price, Some(&small))
    }
}

/// How far the pairs of all cities are below 0.
fn rows<'a, T: Trail<'a>>(
    instance: &Instance,
    trail: T,
    closing: &Closing,
    price: &[i128],
    small: Option<&[i64]>,
) -> u128
    requires cities { T.cities trail ≡ instance.now.n }
    requires small { IfSome small (λ s. AreSmall price.now s.now) }
    requires closing { IsClosing instance.now.n (T.conditions trail) closing.now }
    requires long { instance.now.n ≤ length price.now }
    requires price { (c : ℕ) → at price.now c ≡ price_of (T.conditions trail) closing.now c }
    ensures value { neg_ℤ (pos result) ≡ terms instance.now.n (defs.reduced_cost instance.now (T.conditions trail) closing.now) [] }
    ensures size { result ≤ 2 ^ 125 }
{
    let n = instance.n();
    let mut marks = unmarked();
    mark_held(n, trail, closing, &mut marks);
    let mut shared = zeros();
    let room = &mut shared[..n as usize];
    marked_rows(instance, trail, closing, price, small, &marks, room)
}

/// The same, with the cities that sets hold marked, and with room for a number for each city.
fn marked_rows<'a, T: Trail<'a>>(
    instance: &Instance,
    trail: T,
    closing: &Closing,
    price: &[i128],
    small: Option<&[i64]>,
    marks: &[bool],
    shared: &mut [i128],
) -> u128
    requires cities { T.cities trail ≡ instance.now.n }
    requires small { IfSome small (λ s. AreSmall price.now s.now) }
    requires closing { IsClosing instance.now.n (T.conditions trail) closing.now }
    requires long { instance.now.n ≤ length price.now }
    requires price { (c : ℕ) → at price.now c ≡ price_of (T.conditions trail) closing.now c }
    requires marks { (u : ℕ) → is_marked marks.now u ≡ false → (c : ℕ) → shared_by (T.conditions trail) closing.now u c ≡ pos 0 }
    requires room { length shared.old ≡ instance.now.n }
    ensures value { neg_ℤ (pos result) ≡ terms instance.now.n (defs.reduced_cost instance.now (T.conditions trail) closing.now) [] }
    ensures size { result ≤ 2 ^ 125 }
{
    let mut total: u128 = 0;
    for v in 0..instance.n() {
        total += row(instance, trail, closing, price, small, marks, shared, v);
    }
    total
}

/// How far the pairs of a city with a lower one are below 0. Most rows of a closing with few cuts need no second array.
fn row<'a, T: Trail<'a>>(
    instance: &Instance,
    trail: T,
    closing: &Closing,
    price: &[i128],
    small: Option<&[i64]>,
    marks: &[bool],
    shared: &mut [i128],
    v: u32,
) -> u128
    requires cities { T.cities trail ≡ instance.now.n }
    requires small { IfSome small (λ s. AreSmall price.now s.now) }
    requires few { instance.now.n ≤ 2000 }
    requires closing { IsClosing instance.now.n (T.conditions trail) closing.now }
    requires long { instance.now.n ≤ length price.now }
    requires price { (c : ℕ) → at price.now c ≡ price_of (T.conditions trail) closing.now c }
    requires marks { (u : ℕ) → is_marked marks.now u ≡ false → (c : ℕ) → shared_by (T.conditions trail) closing.now u c ≡ pos 0 }
    requires room { length shared.old ≡ instance.now.n }
    requires city { v < instance.now.n }
    ensures value { neg_ℤ (pos result) ≡ sum_below (λ u. int_min (pos 0) (defs.reduced_cost instance.now (T.conditions trail) closing.now u v)) v }
    ensures size { result ≤ 2 ^ 103 * 2000 }
{
    if is_at(marks, v) {
        shared_row(instance, trail, closing, price, shared, v)
    } else {
        bare_row_loss(instance, v, price, small)
    }
}

/// Whether a city is marked.
#[inline]
pub fn is_at(marks: &[bool], city: u32) -> bool
    ensures { result ≡ is_marked marks.now city }
{
    marks.get(city as usize).copied().unwrap_or(false)
}

/// The same for a city that a set holds. The shared duals of the row before are cleared first.
fn shared_row<'a, T: Trail<'a>>(
    instance: &Instance,
    trail: T,
    closing: &Closing,
    price: &[i128],
    shared: &mut [i128],
    v: u32,
) -> u128
    requires cities { T.cities trail ≡ instance.now.n }
    requires few { instance.now.n ≤ 2000 }
    requires closing { IsClosing instance.now.n (T.conditions trail) closing.now }
    requires long { instance.now.n ≤ length price.now }
    requires price { (c : ℕ) → at price.now c ≡ price_of (T.conditions trail) closing.now c }
    requires room { length shared.old ≡ instance.now.n }
    requires city { v < instance.now.n }
    ensures value { neg_ℤ (pos result) ≡ sum_below (λ u. int_min (pos 0) (defs.reduced_cost instance.now (T.conditions trail) closing.now u v)) v }
    ensures size { result ≤ 2 ^ 103 * 2000 }
{
    shared.fill(0);
    lay_shared(instance, trail, closing, shared, v);
    row_loss(instance, v, price[v as usize], price, shared)
}

/// Writes, for each city, the duals of the sets that have it and v.
fn lay_shared<'a, T: Trail<'a>>(
    instance: &Instance,
    trail: T,
    closing: &Closing,
    shared: &mut [i128],
    v: u32,
)
    requires cities { T.cities trail ≡ instance.now.n }
    requires closing { IsClosing instance.now.n (T.conditions trail) closing.now }
    requires long { instance.now.n ≤ length shared.old }
    requires empty { (c : ℕ) → at shared.old c ≡ pos 0 }
    ensures { (c : ℕ) → at shared.new c ≡ shared_by (T.conditions trail) closing.now v c }
{
    let n = instance.n();
    spread_cuts(n, shared, Some(v), closing.cuts());
    spread_cliques(n, shared, Some(v), trail, closing.conds());
}
