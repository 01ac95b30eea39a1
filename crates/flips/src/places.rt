//! The cities of a tour in an array, and each city's place in it.

ghost use Rattle.std.specs.Prelude.{◌≡◌, ◌+◌, ◌-◌, ◌<◌, ◌≤◌, ◌++◌, ℕ, nat_le, vec_len, slice_index, slice_set, take, drop, length, reverse, cond, IfOk};
ghost use Rattle.tspdef.specs.Tours.{IsTour};
ghost use Rattle.flips.specs.Cycles.{IsFlipped, Follows, is_between};
ghost use Rattle.flips.specs.Places.{wrap, turn, read};

use std::alloc::{AllocError, Global};

/// The cities in some order, and the place of each. The facts on indexes are kept in the type, so that no access tests
/// its index.
#[derive(Drop)]
pub struct Places {
    n: u32,
    order: Vec<u32>,
    place: Vec<u32>,
    ghost many: { 3 ≤ n },
    ghost few: { n ≤ 2000 },
    ghost order_size: { vec_len order ≡ n },
    ghost place_size: { vec_len place ≡ n },
    ghost order_in: { (k : ℕ) → k < n → slice_index order.items k < n },
    ghost place_in: { (k : ℕ) → k < n → slice_index place.items k < n },
    ghost place_of_order: { (k : ℕ) → k < n → slice_index place.items (slice_index order.items k) ≡ k },
    ghost order_of_place: { (k : ℕ) → k < n → slice_index order.items (slice_index place.items k) ≡ k },
}

/// The place of each city.
fn places_of(alloc: Global, cities: &[u32]) -> Result<Vec<u32>, AllocError>
    requires few { length cities.now ≤ 2000 }
    requires tour { IsTour (length cities.now) cities.now }
    ensures size { IfOk result (λ v. vec_len v ≡ length cities.now) }
    ensures within { IfOk result (λ v. (k : ℕ) → k < length cities.now → slice_index v.items k < length cities.now) }
    ensures back { IfOk result (λ v. (k : ℕ) → k < length cities.now → slice_index v.items (slice_index cities.now k) ≡ k) }
    ensures forth { IfOk result (λ v. (k : ℕ) → k < length cities.now → slice_index cities.now (slice_index v.items k) ≡ k) }
{
    let mut place = vec![in alloc; 0; cities.len()]?;
    for k in 0..cities.len() {
        place[cities[k] as usize] = k as u32;
    }
    Ok(place)
}

impl Places {
    /// The places of a tour.
    pub fn new(alloc: Global, cities: &[u32]) -> Result<Places, AllocError>
        requires many { 3 ≤ length cities.now }
        requires few { length cities.now ≤ 2000 }
        requires tour { IsTour (length cities.now) cities.now }
        ensures { IfOk result (λ t. t.order.items ≡ cities.now) }
    {
        let order = Vec::from_slice(alloc, cities)?;
        let place = places_of(alloc, cities)?;
        Ok(Places {
            n: cities.len() as u32,
            order,
            place,
        })
    }

    /// How many cities there are.
    #[inline]
    pub fn n(&self) -> u32
        ensures { result ≡ self.now.n }
    {
        self.n
    }

    /// The cities in order.
    pub fn order(&self) -> &[u32]
        ensures { result.now ≡ self.now.order.items }
    {
        &self.order
    }

    #[inline]
    fn above(&self, p: u32) -> u32
        requires { p < self.now.n }
        ensures inside { result < self.now.n }
        ensures value { result ≡ wrap self.now.n (p + 1) }
    {
        if p + 1 < self.n { p + 1 } else { 0 }
    }

    #[inline]
    fn below(&self, p: u32) -> u32
        requires { p < self.now.n }
        ensures inside { result < self.now.n }
        ensures value { result ≡ wrap self.now.n (p + (self.now.n - 1)) }
    {
        if p == 0 { self.n - 1 } else { p - 1 }
    }

    /// The city at a place of the array as it is read.
    #[inline]
    pub fn at(&self, backward: bool, p: u32) -> u32
        requires { p < self.now.n }
        ensures inside { result < self.now.n }
        ensures value { result ≡ slice_index (read backward self.now.order.items) p }
    {
        if backward {
            self.order[(self.n - 1 - p) as usize]
        } else {
            self.order[p as usize]
        }
    }

    /// Where a city stands in the array as it is read.
    #[inline]
    pub fn place_of(&self, backward: bool, a: u32) -> u32
        requires { a < self.now.n }
        ensures inside { result < self.now.n }
        ensures value { slice_index (read backward self.now.order.items) result ≡ a }
    {
        let p = self.place[a as usize];
        if backward { self.n - 1 - p } else { p }
    }

    /// The city that is read after `a`.
    #[inline]
    pub fn next(&self, backward: bool, a: u32) -> u32
        requires { a < self.now.n }
        ensures inside { result < self.now.n }
        ensures follows { Follows (read backward self.now.order.items) a result }
    {
        let p = self.place[a as usize];
        let q = if backward {
            self.below(p)
        } else {
            self.above(p)
        };
        self.order[q as usize]
    }

    /// The city that is read before `a`.
    #[inline]
    pub fn prev(&self, backward: bool, a: u32) -> u32
        requires { a < self.now.n }
        ensures inside { result < self.now.n }
        ensures follows { Follows (read backward self.now.order.items) result a }
    {
        let p = self.place[a as usize];
        let q = if backward {
            self.above(p)
        } else {
            self.below(p)
        };
        self.order[q as usize]
    }

    /// Whether a walk on from `a` meets `b` no later than `c`.
    #[inline]
    pub fn between(&self, backward: bool, a: u32, b: u32, c: u32) -> bool
        requires first { a < self.now.n }
        requires second { b < self.now.n }
        requires third { c < self.now.n }
        ensures { result ≡ is_between (read backward self.now.order.items) a b c }
    {
        let p = self.place_of(backward, a);
        let q = self.place_of(backward, b);
        let r = self.place_of(backward, c);
        if p <= r {
            p <= q && q <= r
        } else {
            p <= q || q <= r
        }
    }

    /// Exchanges the cities at two places.
    #[inline]
    fn swap(&mut self, i: u32, j: u32)
        requires first { i < self.old.n }
        requires second { j < self.old.n }
        ensures size { self.new.n ≡ self.old.n }
        ensures order { self.new.order.items
            ≡ slice_set (slice_set self.old.order.items i (slice_index self.old.order.items j)) j (slice_index self.old.order.items i) }
    {
        let a = self.order[i as usize];
        let b = self.order[j as usize];
        self.order[i as usize] = b;
        self.order[j as usize] = a;
        self.place[b as usize] = i;
        self.place[a as usize] = j;
    }

    /// Turns the `count` places from `start` on to `end` round.
    fn reverse_places(&mut self, start: u32, end: u32, count: u32)
        requires first { start < self.old.n }
        requires last { end < self.old.n }
        requires few { count ≤ self.old.n }
        requires counted { (j : ℕ) → j + 1 ≡ count → end ≡ wrap self.old.n (start + j) }
        ensures size { self.new.n ≡ self.old.n }
        ensures turned { let before = turn start self.old.order.items in
            turn start self.new.order.items ≡ reverse (take count before) ++ drop count before }
    {
        let mut low = start;
        let mut high = end;
        for done in 0..count / 2 {
            self.swap(low, high);
            low = self.above(low);
            high = self.below(high);
        }
    }

    /// How many places there are from `start` on to `end`.
    #[inline]
    fn span(&self, start: u32, end: u32) -> u32
        requires first { start < self.now.n }
        requires last { end < self.now.n }
        ensures some { 0 < result }
        ensures few { result ≤ self.now.n }
        ensures counted { end ≡ wrap self.now.n (start + (result - 1)) }
    {
        if start <= end {
            end - start + 1
        } else {
            self.n - start + end + 1
        }
    }

    /// Turns the part of the cycle from one place on to another round, by the fewer exchanges: where the other side is the
    /// shorter one that is turned, and the array read in the other direction from then on. Returns the direction.
    fn reverse_span(&mut self, backward: bool, start: u32, end: u32) -> bool
        requires first { start < self.old.n }
        requires last { end < self.old.n }
        ensures size { self.new.n ≡ self.old.n }
        ensures flips { let first = slice_index self.old.order.items start in
            let last = slice_index self.old.order.items end in
            IsFlipped (read backward self.old.order.items) (read result self.new.order.items) (cond backward last first) (cond backward first last) }
    {
        let count = self.span(start, end);
        let others = self.n - count;
        if count <= others {
            self.reverse_places(start, end, count);
            backward
        } else {
            let after = self.above(end);
            let before = self.below(start);
            self.reverse_places(after, before, others);
            !backward
        }
    }

    /// Turns the path from `b` on to `c` round. Returns the direction in which the array is read from then on.
    pub fn reverse_path(&mut self, backward: bool, b: u32, c: u32) -> bool
        requires first { b < self.old.n }
        requires last { c < self.old.n }
        ensures size { self.new.n ≡ self.old.n }
        ensures flips { IsFlipped (read backward self.old.order.items) (read result self.new.order.items) b c }
    {
        let p = self.place[b as usize];
        let q = self.place[c as usize];
        if backward {
            self.reverse_span(true, q, p)
        } else {
            self.reverse_span(false, p, q)
        }
    }
}
