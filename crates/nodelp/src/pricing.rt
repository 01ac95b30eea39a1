//! Pairs of negative reduced cost.
//!
//! Most pairs are passed over by a bound: a set that a pair crosses has one of its cities, so what a row of positive dual
//! takes off the pair's cost is at most its dual once for each of its sets and each of the two cities that the set has. A
//! row of negative dual takes nothing off, but for the rows of single cities, where the count is exact whatever the sign.
//! The sum over the rows, city by city, is a potential, and a pair whose cost is no less than its cities' potentials has no
//! negative reduced cost.
//!
//! The exact reduced cost of a pair that the potentials leave open takes no look at each row. A set with one or both of the
//! cities is crossed by their pair just if it does not have both. So what the rows take off the cost is what they count at
//! the two cities, each dual once for each set that has the city (its holding, which is its potential less what rows of
//! several cities and negative dual leave out there), less twice each dual for each set that has both. For all pairs of one
//! city the latter sum needs only the few rows that join it to others: those of a dual other than 0 with a set of this city
//! and others. So all pairs are judged in O(cities * sets), and then in O(sets of the rows that join v) each open pair (u, v).
ghost use Rattle.std.specs.Prelude.{◌≡◌, ◌≢◌, ℕ, ◌*◌, ◌^◌, ◌<◌, ◌≤◌, false, drop, length, slice_index_or, pos, ◌*ℤ◌, ◌+ℤ◌, ◌-ℤ◌, ◌≤ℤ◌, All, IfOk, OnOk, IsTrue};
ghost use Rattle.std.specs.Int.Signed.{lt_z};
ghost use Rattle.tspdef.specs.Bounds.{scale};
ghost use Rattle.tspdef.specs.Instances.{dist};
ghost use Rattle.lpcheck.specs.Sizes.{IsWithin};
ghost use Rattle.lpcheck.specs.Rows.{IsSmall, cities_of_each, signed, price, reduced};
ghost use Rattle.nodelp.specs.Node.{IsClean, IsPriced, column_of};
ghost use Rattle.nodelp.specs.Duals.{newest_duals};
ghost use Rattle.nodelp.specs.Core.{IsNegative};
ghost use Rattle.nodelp.specs.Potentials.{is_single, holders, weight, potential};
ghost use Rattle.nodelp.specs.Holding.{shared, is_joined, holding, excess, sharing_at, first_sharing, AreHoldings, AreJoining};
ghost use Rattle.nodelp.specs.Pricing.{IsPassed, ArePotentials};

use crate::closing::newest_duals;
use branchx::{Path, decided};
use cyc::CitySet;
use simplex::{Lp, Row, Sense};
use std::alloc::{AllocError, Global};
use tspinst::Instance;

/// A dual as it counts: an AtMost dual counts negative.
fn signed(sense: Sense, y: i128) -> i128
    requires { IsWithin (2 ^ 62) y }
    ensures value { result ≡ signed sense y }
    ensures size { IsWithin (2 ^ 62) result }
{
    match sense {
        Sense::AtMost => -y,
        Sense::Eq | Sense::AtLeast => y,
    }
}

/// A number times a count.
#[inline]
fn times(y: i128, count: u16) -> i128
    requires size { IsWithin (2 ^ 62) y }
    ensures value { result ≡ y *ℤ pos count }
    ensures size { IsWithin (2 ^ 78) result }
{
    y * i128::from(count)
}

/// A sum.
#[inline]
fn plus(a: i128, b: i128) -> i128
    requires a { IsWithin (2 ^ 101) a }
    requires b { IsWithin (2 ^ 101) b }
    ensures { result ≡ a +ℤ b }
{
    a + b
}

/// Whether the sets are one city.
fn is_single(sets: &[CitySet]) -> bool
    ensures { result ≡ is_single (cities_of_each sets.now) }
{
    match sets.split_first() {
        Some((set, rest)) => set.cities().len() == 1 && rest.is_empty(),
        None => false,
    }
}

/// What a row counts at a city.
fn weight(row: &Row, y: i128) -> i128
    requires { IsWithin (2 ^ 62) y }
    ensures value { result ≡ weight row.now y }
    ensures size { IsWithin (2 ^ 62) result }
{
    let dual = signed(row.sense, y);
    if is_single(&row.sets) {
        dual
    } else {
        dual.max(0)
    }
}

/// How many of the sets have a city.
fn holders(sets: &[CitySet], v: u32) -> u16
    requires { length sets.now ≤ 4096 }
    ensures value { result ≡ holders (cities_of_each sets.now) v }
    ensures most { result ≤ 4096 }
{
    let mut count: u16 = 0;
    for set in sets {
        if set.contains(v) {
            count += 1;
        }
    }
    count
}

/// What a row adds to the potential of a city.
#[tactic(auto, using(crate::proofs::HoldingLemmas::zero_times))]
fn row_potential(row: &Row, y: i128, v: u32) -> i128
    requires small { IsSmall row.now }
    requires dual { IsWithin (2 ^ 62) y }
    ensures value { result ≡ weight row.now y *ℤ pos (holders (cities_of_each row.now.sets.items) v) }
    ensures size { IsWithin (2 ^ 78) result }
{
    let counted = weight(row, y);
    if counted == 0 {
        return 0;
    }
    times(counted, holders(&row.sets, v))
}

/// The potential of a city.
fn potential(rows: &[Row], ys: &[i128], v: u32) -> i128
    requires small { All IsSmall rows.now }
    requires few { length rows.now ≤ 4194304 }
    requires size { length ys.now ≡ length rows.now }
    requires sizes { All (IsWithin (2 ^ 62)) ys.now }
    ensures value { result ≡ potential rows.now ys.now v }
    ensures size { IsWithin (2 ^ 100) result }
{
    let mut total: i128 = 0;
    for at in 0..rows.len() {
        total = plus(total, row_potential(&rows[at], ys[at], v));
    }
    total
}

/// The potentials of all cities.
fn potentials(alloc: Global, n: u32, rows: &[Row], ys: &[i128]) -> Result<Vec<i128>, AllocError>
    requires small { All IsSmall rows.now }
    requires few { length rows.now ≤ 4194304 }
    requires size { length ys.now ≡ length rows.now }
    requires sizes { All (IsWithin (2 ^ 62)) ys.now }
    ensures each { IfOk result (λ ps. ArePotentials n rows.now ys.now ps.items) }
    ensures size { IfOk result (λ ps. All (IsWithin (2 ^ 100)) ps.items) }
{
    let mut ps = Vec::with_capacity(alloc, n as usize)?;
    for v in 0..n {
        ps.push(potential(rows, ys, v))?;
    }
    Ok(ps)
}

/// What a row counts in potentials beyond its dual: for a row of several cities whose dual counts negative, as much as
/// cancels it.
fn extra(row: &Row, y: i128) -> i128
    requires { IsWithin (2 ^ 62) y }
    ensures value { result ≡ weight row.now y -ℤ signed row.now.sense y }
    ensures size { IsWithin (2 ^ 62) result }
{
    let dual = signed(row.sense, y);
    if dual >= 0 || is_single(&row.sets) {
        0
    } else {
        -dual
    }
}

/// What a row adds to the potential of a city beyond its dual.
#[tactic(auto, using(crate::proofs::HoldingLemmas::zero_times))]
fn row_excess(row: &Row, y: i128, v: u32) -> i128
    requires small { IsSmall row.now }
    requires dual { IsWithin (2 ^ 62) y }
    ensures value { result ≡ (weight row.now y -ℤ signed row.now.sense y) *ℤ pos (holders (cities_of_each row.now.sets.items) v) }
    ensures size { IsWithin (2 ^ 78) result }
{
    let more = extra(row, y);
    if more == 0 {
        return 0;
    }
    times(more, holders(&row.sets, v))
}

/// What the potential of a city has beyond its holding, in O(rows), and O(sets) of those of negative dual.
fn excess(rows: &[Row], ys: &[i128], v: u32) -> i128
    requires small { All IsSmall rows.now }
    requires few { length rows.now ≤ 4194304 }
    requires size { length ys.now ≡ length rows.now }
    requires sizes { All (IsWithin (2 ^ 62)) ys.now }
    ensures value { result ≡ excess rows.now ys.now v }
    ensures size { IsWithin (2 ^ 100) result }
{
    let mut total: i128 = 0;
    for at in 0..rows.len() {
        total = plus(total, row_excess(&rows[at], ys[at], v));
    }
    total
}

/// A difference.
#[inline]
fn less(a: i128, b: i128) -> i128
    requires a { IsWithin (2 ^ 100) a }
    requires b { IsWithin (2 ^ 100) b }
    ensures value { result ≡ a -ℤ b }
    ensures size { IsWithin (2 ^ 101) result }
{
    a - b
}

/// What the duals count at a city, each as often as its row's sets have the city: its potential less its excess.
fn holding(rows: &[Row], ys: &[i128], ps: &[i128], v: u32) -> i128
    requires small { All IsSmall rows.now }
    requires few { length rows.now ≤ 4194304 }
    requires size { length ys.now ≡ length rows.now }
    requires sizes { All (IsWithin (2 ^ 62)) ys.now }
    requires potentials { ArePotentials (length ps.now) rows.now ys.now ps.now }
    requires within { All (IsWithin (2 ^ 100)) ps.now }
    requires city { v < length ps.now }
    ensures value { result ≡ holding rows.now ys.now v }
    ensures size { IsWithin (2 ^ 101) result }
{
    less(ps[v as usize], excess(rows, ys, v))
}

/// What the duals count at each city, each as often as its row's sets have the city, in O(cities * rows).
fn holdings(
    alloc: Global,
    n: u32,
    rows: &[Row],
    ys: &[i128],
    ps: &[i128],
) -> Result<Vec<i128>, AllocError>
    requires small { All IsSmall rows.now }
    requires few { length rows.now ≤ 4194304 }
    requires size { length ys.now ≡ length rows.now }
    requires sizes { All (IsWithin (2 ^ 62)) ys.now }
    requires potentials { ArePotentials n rows.now ys.now ps.now }
    requires within { All (IsWithin (2 ^ 100)) ps.now }
    ensures { IfOk result (λ hs. AreHoldings n rows.now ys.now hs.items) }
{
    let mut hs = Vec::with_capacity(alloc, n as usize)?;
    for v in 0..n {
        hs.push(holding(rows, ys, ps, v))?;
    }
    Ok(hs)
}

/// Whether one of the sets has a city and others.
fn is_joined(sets: &[CitySet], v: u32) -> bool
    ensures { result ≡ is_joined (cities_of_each sets.now) v }
{
    for set in sets {
        if set.cities().len() > 1 && set.contains(v) {
            return true;
        }
    }
    false
}

/// Whether a row's dual is not 0 and one of its sets has a city and others. If not, it counts nothing where a set has both
/// this city and another.
#[tactic(auto, using(crate::proofs::HoldingLemmas::joined_by_none, crate::proofs::HoldingLemmas::dual_of_none))]
fn is_joining(row: &Row, y: i128, v: u32) -> bool
    ensures { result ≡ false → (u : ℕ) → u ≢ v → signed row.now.sense y *ℤ pos (shared (cities_of_each row.now.sets.items) u v) ≡ pos 0 }
{
    y != 0 && is_joined(&row.sets, v)
}

/// The places of the rows that suffice for the pairs of a city: those that join it to others; in O(sets).
fn joining(alloc: Global, rows: &[Row], ys: &[i128], v: u32) -> Result<Vec<u32>, AllocError>
    requires few { length rows.now ≤ 4194304 }
    requires size { length ys.now ≡ length rows.now }
    requires sizes { All (IsWithin (2 ^ 62)) ys.now }
    ensures { IfOk result (λ places. AreJoining rows.now ys.now v places.items) }
{
    let mut places = Vec::new(alloc);
    for at in 0..rows.len() {
        if is_joining(&rows[at], ys[at], v) {
            places.push(at as u32)?;
        }
    }
    Ok(places)
}

/// How many of the sets have both cities.
fn shared(sets: &[CitySet], u: u32, v: u32) -> u16
    requires { length sets.now ≤ 4096 }
    ensures value { result ≡ shared (cities_of_each sets.now) u v }
    ensures most { result ≤ 4096 }
{
    let mut count: u16 = 0;
    for set in sets {
        if set.contains(u) && set.contains(v) {
            count += 1;
        }
    }
    count
}

/// What the dual of the row at a place counts where a set has both cities.
fn sharing_of(rows: &[Row], ys: &[i128], at: usize, u: u32, v: u32) -> i128
    requires small { All IsSmall rows.now }
    requires size { length ys.now ≡ length rows.now }
    requires sizes { All (IsWithin (2 ^ 62)) ys.now }
    requires within { at < length rows.now }
    ensures value { result ≡ first_sharing (drop at rows.now) (drop at ys.now) u v }
    ensures size { IsWithin (2 ^ 78) result }
{
    let row = &rows[at];
    times(signed(row.sense, ys[at]), shared(&row.sets, u, v))
}

/// What the duals of the rows at some places count where a set has both cities, in O(sets of these rows).
fn sharing_at(rows: &[Row], ys: &[i128], places: &[u32], u: u32, v: u32) -> i128
    requires small { All IsSmall rows.now }
    requires few { length places.now ≤ 4194304 }
    requires size { length ys.now ≡ length rows.now }
    requires sizes { All (IsWithin (2 ^ 62)) ys.now }
    requires within { All (λ k. k < length rows.now) places.now }
    ensures value { result ≡ sharing_at rows.now ys.now places.now u v }
    ensures size { IsWithin (2 ^ 100) result }
{
    let mut total: i128 = 0;
    for i in 0..places.len() {
        total = plus(total, sharing_of(rows, ys, places[i] as usize, u, v));
    }
    total
}

/// A sum, less twice a number.
#[inline]
fn less_twice(a: i128, b: i128, both: i128) -> i128
    requires a { IsWithin (2 ^ 101) a }
    requires b { IsWithin (2 ^ 101) b }
    requires both { IsWithin (2 ^ 100) both }
    ensures value { result ≡ (a +ℤ b) -ℤ (both +ℤ both) }
    ensures size { IsWithin (2 ^ 103) result }
{
    a + b - (both + both)
}

/// What the duals take off the cost of a pair, in O(sets of the rows that join the second city to others).
fn price_of(rows: &[Row], ys: &[i128], hs: &[i128], places: &[u32], u: u32, v: u32) -> i128
    requires small { All IsSmall rows.now }
    requires few { length rows.now ≤ 4194304 }
    requires size { length ys.now ≡ length rows.now }
    requires sizes { All (IsWithin (2 ^ 62)) ys.now }
    requires holdings { AreHoldings (length hs.now) rows.now ys.now hs.now }
    requires joining { AreJoining rows.now ys.now v places.now }
    requires from { u < v }
    requires to { v < length hs.now }
    ensures value { result ≡ price rows.now ys.now u v }
    ensures size { IsWithin (2 ^ 103) result }
{
    less_twice(
        hs[u as usize],
        hs[v as usize],
        sharing_at(rows, ys, places, u, v),
    )
}

/// A distance in units.
#[inline]
fn in_units(d: u32) -> i128
    ensures value { result ≡ pos (scale * d) }
    ensures size { IsWithin (2 ^ 52) result }
{
    i128::from(d) * (1 << 20)
}

/// Whether the reduced cost of a pair is negative.
fn is_negative(
    instance: &Instance,
    rows: &[Row],
    ys: &[i128],
    hs: &[i128],
    places: &[u32],
    u: u32,
    v: u32,
) -> bool
    requires small { All IsSmall rows.now }
    requires few { length rows.now ≤ 4194304 }
    requires size { length ys.now ≡ length rows.now }
    requires sizes { All (IsWithin (2 ^ 62)) ys.now }
    requires holdings { AreHoldings instance.now.n rows.now ys.now hs.now }
    requires joining { AreJoining rows.now ys.now v places.now }
    requires from { u < v }
    requires to { v < instance.now.n }
    ensures { result ≡ lt_z (reduced rows.now ys.now (column_of instance.now u v)) (pos 0) }
{
    in_units(instance.d(u, v)) - price_of(rows, ys, hs, places, u, v) < 0
}

/// Whether a pair is undecided, has no column and has a negative reduced cost, and so is to have one.
fn is_wanting(
    instance: &Instance,
    path: &Path,
    lp: &Lp,
    ys: &[i128],
    hs: &[i128],
    places: &[u32],
    u: u32,
    v: u32,
) -> bool
    requires cities { lp.now.n ≡ instance.now.n }
    requires size { length ys.now ≡ length lp.now.rows }
    requires sizes { All (IsWithin (2 ^ 62)) ys.now }
    requires duals { ys.now ≡ newest_duals lp.now.last }
    requires holdings { AreHoldings instance.now.n lp.now.rows ys.now hs.now }
    requires joining { AreJoining lp.now.rows ys.now v places.now }
    requires ordered { u < v }
    requires within { v < instance.now.n }
    ensures wanting { IsTrue result → IsNegative instance.now path.now.conditions lp.now (u, v) }
    ensures passed { result ≡ false → IsPassed instance.now path.now.conditions lp.now u v }
{
    !lp.has_col(u, v)
        && is_negative(instance, lp.rows(), ys, hs, places, u, v)
        && !decided(path, u, v)
}

/// Whether the potentials show that the reduced cost of a pair is not negative.
#[inline]
fn is_shown(instance: &Instance, ps: &[i128], u: u32, v: u32) -> bool
    requires u_below { u < instance.now.n }
    requires v_below { v < instance.now.n }
    requires long { length ps.now ≡ instance.now.n }
    requires size { All (IsWithin (2 ^ 100)) ps.now }
    ensures { IsTrue result → (slice_index_or ps.now u (pos 0) +ℤ slice_index_or ps.now v (pos 0)) ≤ℤ pos (scale * dist instance.now u v) }
{
    in_units(instance.d(u, v)) >= ps[u as usize] + ps[v as usize]
}

/// Whether a pair is to have a column; it is looked at closely only where the potentials do not do.
fn is_lacking(
    instance: &Instance,
    path: &Path,
    lp: &Lp,
    ys: &[i128],
    ps: &[i128],
    hs: &[i128],
    places: &[u32],
    u: u32,
    v: u32,
) -> bool
    requires cities { lp.now.n ≡ instance.now.n }
    requires size { length ys.now ≡ length lp.now.rows }
    requires sizes { All (IsWithin (2 ^ 62)) ys.now }
    requires duals { ys.now ≡ newest_duals lp.now.last }
    requires potentials { ArePotentials instance.now.n lp.now.rows ys.now ps.now }
    requires small { All (IsWithin (2 ^ 100)) ps.now }
    requires holdings { AreHoldings instance.now.n lp.now.rows ys.now hs.now }
    requires joining { AreJoining lp.now.rows ys.now v places.now }
    requires ordered { u < v }
    requires within { v < instance.now.n }
    ensures wanting { IsTrue result → IsNegative instance.now path.now.conditions lp.now (u, v) }
    ensures passed { result ≡ false → IsPassed instance.now path.now.conditions lp.now u v }
{
    if is_shown(instance, ps, u, v) {
        return false;
    }
    is_wanting(instance, path, lp, ys, hs, places, u, v)
}

/// Adds the pairs of a city and lower ones that are to have columns.
fn add_wanting_of(
    alloc: Global,
    instance: &Instance,
    path: &Path,
    lp: &Lp,
    ys: &[i128],
    ps: &[i128],
    hs: &[i128],
    v: u32,
    found: &mut Vec<(u32, u32)>,
) -> Result<(), AllocError>
    requires cities { lp.now.n ≡ instance.now.n }
    requires size { length ys.now ≡ length lp.now.rows }
    requires sizes { All (IsWithin (2 ^ 62)) ys.now }
    requires duals { ys.now ≡ newest_duals lp.now.last }
    requires potentials { ArePotentials instance.now.n lp.now.rows ys.now ps.now }
    requires small { All (IsWithin (2 ^ 100)) ps.now }
    requires holdings { AreHoldings instance.now.n lp.now.rows ys.now hs.now }
    requires within { v < instance.now.n }
    requires negative { All (IsNegative instance.now path.now.conditions lp.now) found.old.items }
    ensures negative { OnOk result (All (IsNegative instance.now path.now.conditions lp.now) found.new.items) }
    ensures longer { OnOk result (length found.old.items ≤ length found.new.items) }
    ensures passed { OnOk result (length found.new.items ≡ 0 → (u : ℕ) → u < v → IsPassed instance.now path.now.conditions lp.now u v) }
{
    let places = joining(alloc, lp.rows(), ys, v)?;
    for u in 0..v {
        if is_lacking(instance, path, lp, ys, ps, hs, &places, u, v) {
            found.push((u, v))?;
        }
    }
    Ok(())
}

/// Undecided pairs without a column whose reduced cost is negative at the newest duals: all of them, or the first ones
/// where they are over four times as many as cities.
pub fn negative_pairs(
    alloc: Global,
    instance: &Instance,
    path: &Path,
    lp: &Lp,
) -> Result<Vec<(u32, u32)>, AllocError>
    requires cities { lp.now.n ≡ instance.now.n }
    requires clean { IsClean lp.now }
    ensures negative { IfOk result (λ found. All (IsNegative instance.now path.now.conditions lp.now) found.items) }
    ensures priced { IfOk result (λ found. length found.items ≡ 0 → IsPriced instance.now path.now.conditions lp.now (newest_duals lp.now.last)) }
{
    let n = instance.n();
    let ys = newest_duals(lp);
    let ps = potentials(alloc, n, lp.rows(), ys)?;
    let hs = holdings(alloc, n, lp.rows(), ys, &ps)?;
    let many = 4 * n as usize;
    let mut found = Vec::new(alloc);
    for v in 0..n {
        add_wanting_of(alloc, instance, path, lp, ys, &ps, &hs, v, &mut found)?;
        if found.len() >= many {
            break;
        }
    }
    Ok(found)
}
