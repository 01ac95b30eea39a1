//! The pairs of all cities by small numbers: of a closing with light duals of cuts.

ghost use Rattle.std.specs.Prelude.{◌≡◌, ℕ, ◌*◌, ◌^◌, ◌<◌, ◌≤◌, [], length, pos, neg_ℤ, false};
ghost use Rattle.std.specs.Int.{int_min};
ghost use Rattle.tspdef.specs.Closings.{IsClosing};
ghost use Rattle.tspdef.specs.Sums.{sum_below};
ghost use Rattle.tspdef.specs.Bounds as defs;
ghost use Rattle.pricer.specs.Sizes.{IsWithin};
ghost use Rattle.pricer.specs.Groups.{AreGrouped};
ghost use Rattle.pricer.specs.Marks.{is_marked};
ghost use Rattle.pricer.specs.Prices.{at, price_of, shared_by, terms};
ghost use Rattle.pricer.specs.Weights.{IsLight};

use crate::bounds::{is_at, small_zeros, unmarked};
use crate::closing::Closing;
use crate::groups::{group_count, lay_groups, mark_groups, no_marks};
use crate::holding::mark_held;
use crate::rows::{light_row_loss, small_row_loss};
use crate::trail::Trail;
use tspinst::Instance;

/// The least number of cuts that are worth groups.
const MANY: usize = 8;

/// How far the pairs of all cities are below 0, by prices that are small.
pub fn light_rows<'a, T: Trail<'a>>(
    instance: &Instance,
    trail: T,
    closing: &Closing,
    price: &[i64],
) -> u128
    requires cities { T.cities trail ≡ instance.now.n }
    requires few { instance.now.n ≤ 2000 }
    requires closing { IsClosing instance.now.n (T.conditions trail) closing.now }
    requires light { IsLight closing.now }
    requires long { instance.now.n ≤ length price.now }
    requires price { (c : ℕ) → at price.now c ≡ price_of (T.conditions trail) closing.now c }
    requires small { (c : ℕ) → IsWithin (2 ^ 50) (at price.now c) }
    ensures value { neg_ℤ (pos result) ≡ terms instance.now.n (defs.reduced_cost instance.now (T.conditions trail) closing.now) [] }
    ensures size { result ≤ 2 ^ 125 }
{
    if closing.cuts().len() < MANY {
        return held_rows(instance, trail, closing, price, 0, 0, &[]);
    }
    grouped_rows(instance, trail, closing, price)
}

/// The same, with the cuts in groups, each of which has marks on the cities that its sets hold.
fn grouped_rows<'a, T: Trail<'a>>(
    instance: &Instance,
    trail: T,
    closing: &Closing,
    price: &[i64],
) -> u128
    requires cities { T.cities trail ≡ instance.now.n }
    requires few { instance.now.n ≤ 2000 }
    requires closing { IsClosing instance.now.n (T.conditions trail) closing.now }
    requires light { IsLight closing.now }
    requires long { instance.now.n ≤ length price.now }
    requires price { (c : ℕ) → at price.now c ≡ price_of (T.conditions trail) closing.now c }
    requires small { (c : ℕ) → IsWithin (2 ^ 50) (at price.now c) }
    ensures value { neg_ℤ (pos result) ≡ terms instance.now.n (defs.reduced_cost instance.now (T.conditions trail) closing.now) [] }
    ensures size { result ≤ 2 ^ 125 }
{
    let n = instance.n();
    let cuts = closing.cuts();
    let count = group_count(n);
    let size = cuts.len() / count as usize + 1;
    let mut groups = no_marks();
    mark_groups(n, size, count, &mut groups, cuts);
    held_rows(instance, trail, closing, price, size, count, &groups)
}

/// The same, with marks on the cities that sets hold, and room for a number for each city.
fn held_rows<'a, T: Trail<'a>>(
    instance: &Instance,
    trail: T,
    closing: &Closing,
    price: &[i64],
    size: usize,
    count: u32,
    groups: &[bool],
) -> u128
    requires cities { T.cities trail ≡ instance.now.n }
    requires few { instance.now.n ≤ 2000 }
    requires closing { IsClosing instance.now.n (T.conditions trail) closing.now }
    requires light { IsLight closing.now }
    requires long { instance.now.n ≤ length price.now }
    requires price { (c : ℕ) → at price.now c ≡ price_of (T.conditions trail) closing.now c }
    requires small { (c : ℕ) → IsWithin (2 ^ 50) (at price.now c) }
    requires groups_room { instance.now.n * count ≤ length groups.now }
    requires groups { AreGrouped instance.now.n size count groups.now closing.now.cuts }
    ensures value { neg_ℤ (pos result) ≡ terms instance.now.n (defs.reduced_cost instance.now (T.conditions trail) closing.now) [] }
    ensures size { result ≤ 2 ^ 125 }
{
    let n = instance.n();
    let mut marks = unmarked();
    mark_held(n, trail, closing, &mut marks);
    let mut shared = small_zeros();
    let room = &mut shared[..n as usize];
    marked_rows(
        instance, trail, closing, price, size, count, groups, &marks, room,
    )
}

/// The same, with the cities that sets hold marked, and with room for a number for each city.
fn marked_rows<'a, T: Trail<'a>>(
    instance: &Instance,
    trail: T,
    closing: &Closing,
    price: &[i64],
    size: usize,
    count: u32,
    groups: &[bool],
    marks: &[bool],
    shared: &mut [i64],
) -> u128
    requires few { instance.now.n ≤ 2000 }
    requires closing { IsClosing instance.now.n (T.conditions trail) closing.now }
    requires light { IsLight closing.now }
    requires long { instance.now.n ≤ length price.now }
    requires price { (c : ℕ) → at price.now c ≡ price_of (T.conditions trail) closing.now c }
    requires small { (c : ℕ) → IsWithin (2 ^ 50) (at price.now c) }
    requires marks { (u : ℕ) → is_marked marks.now u ≡ false → (c : ℕ) → shared_by (T.conditions trail) closing.now u c ≡ pos 0 }
    requires room { length shared.old ≡ instance.now.n }
    requires groups_room { instance.now.n * count ≤ length groups.now }
    requires groups { AreGrouped instance.now.n size count groups.now closing.now.cuts }
    ensures value { neg_ℤ (pos result) ≡ terms instance.now.n (defs.reduced_cost instance.now (T.conditions trail) closing.now) [] }
    ensures size { result ≤ 2 ^ 125 }
{
    let mut total: u128 = 0;
    for v in 0..instance.n() {
        total += u128::from(row(
            instance, trail, closing, price, size, count, groups, marks, shared, v,
        ));
    }
    total
}

/// How far the pairs of a city with a lower one are below 0.
fn row<'a, T: Trail<'a>>(
    instance: &Instance,
    trail: T,
    closing: &Closing,
    price: &[i64],
    size: usize,
    count: u32,
    groups: &[bool],
    marks: &[bool],
    shared: &mut [i64],
    v: u32,
) -> u64
    requires few { instance.now.n ≤ 2000 }
    requires closing { IsClosing instance.now.n (T.conditions trail) closing.now }
    requires light { IsLight closing.now }
    requires long { instance.now.n ≤ length price.now }
    requires price { (c : ℕ) → at price.now c ≡ price_of (T.conditions trail) closing.now c }
    requires small { (c : ℕ) → IsWithin (2 ^ 50) (at price.now c) }
    requires marks { (u : ℕ) → is_marked marks.now u ≡ false → (c : ℕ) → shared_by (T.conditions trail) closing.now u c ≡ pos 0 }
    requires room { length shared.old ≡ instance.now.n }
    requires groups_room { instance.now.n * count ≤ length groups.now }
    requires groups { AreGrouped instance.now.n size count groups.now closing.now.cuts }
    requires city { v < instance.now.n }
    ensures value { neg_ℤ (pos result) ≡ sum_below (λ u. int_min (pos 0) (defs.reduced_cost instance.now (T.conditions trail) closing.now u v)) v }
    ensures size { result ≤ 2 ^ 52 * 2000 }
{
    if is_at(marks, v) {
        shared_row(
            instance, trail, closing, price, size, count, groups, shared, v,
        )
    } else {
        small_row_loss(instance, v, price[v as usize], price)
    }
}

/// The same for a city that a set holds. The shared duals of the row before are cleared first.
fn shared_row<'a, T: Trail<'a>>(
    instance: &Instance,
    trail: T,
    closing: &Closing,
    price: &[i64],
    size: usize,
    count: u32,
    groups: &[bool],
    shared: &mut [i64],
    v: u32,
) -> u64
    requires few { instance.now.n ≤ 2000 }
    requires closing { IsClosing instance.now.n (T.conditions trail) closing.now }
    requires light { IsLight closing.now }
    requires long { instance.now.n ≤ length price.now }
    requires price { (c : ℕ) → at price.now c ≡ price_of (T.conditions trail) closing.now c }
    requires small { (c : ℕ) → IsWithin (2 ^ 50) (at price.now c) }
    requires room { length shared.old ≡ instance.now.n }
    requires groups_room { instance.now.n * count ≤ length groups.now }
    requires groups { AreGrouped instance.now.n size count groups.now closing.now.cuts }
    requires city { v < instance.now.n }
    ensures value { neg_ℤ (pos result) ≡ sum_below (λ u. int_min (pos 0) (defs.reduced_cost instance.now (T.conditions trail) closing.now u v)) v }
    ensures size { result ≤ 2 ^ 52 * 2000 }
{
    shared.fill(0);
    lay_groups(instance.n(), size, count, groups, shared, v, closing.cuts());
    light_row_loss(instance, v, price[v as usize], price, shared)
}
