ghost use Rattle.std.specs.Prelude.{◌≤◌};

use crate::tests::{comb, prism, subtour};
use cutform::Cut;
use cutpool::{CutBox, Seat, Seated, SharedPool};
use cyc::Frac;
use std::alloc::{AllocError, Global};
use std::sync::Wait;
use std::test::Fail;

/// Whether a cut is the one that a seat shared at a place.
fn reads_back<R>(seat: &Seat<'_, R>, place: u32, cut: &Cut) -> bool {
    (place as usize) < seat.len() && *seat.own(place) == *cut
}

/// Whether a cut is all that a seat gives for some values.
fn gives_alone<R>(
    alloc: Global,
    seat: &mut Seat<'_, R>,
    x: &Frac,
    cut: &Cut,
) -> Result<bool, Fail> {
    if x.n() != seat.n() {
        return Ok(false);
    }
    let fetched = seat.fetch(alloc, x)?;
    Ok(fetched.len() == 1 && fetched[0] == *cut)
}

/// A cut shared twice from one seat: where it stands, whether it is read back, and whether it is all that the seat gives.
fn shared_twice<R: Wait>(
    rt: &R,
    alloc: Global,
    cut: &Cut,
    x: &Frac,
) -> Result<(Option<Seated>, Option<Seated>, bool, bool), Fail> {
    let pool = SharedPool::new(alloc, 6)?;
    let mut seat = pool.seat(rt);
    let first = offered(alloc, &mut seat, cut)?;
    let second = offered(alloc, &mut seat, cut)?;
    let is_back = reads_back(&seat, 0, cut);
    let is_alone = gives_alone(alloc, &mut seat, x, cut)?;
    Ok((first, second, is_back, is_alone))
}

#[test]
fn a_seat_reads_back_what_it_shared(rt: HostRuntime) -> Result<(), Fail> {
    let alloc = rt.alloc();
    let comb = comb(alloc)?;
    let x = prism(alloc)?;
    let (first, second, is_back, is_alone) = shared_twice(&rt, alloc, &comb, &x)?;
    assert_eq!(rt; first, Some(Seated::Shared(0)));
    assert_eq!(rt; second, Some(Seated::Shared(0)));
    assert!(rt; is_back);
    assert!(rt; is_alone);
    Ok(())
}

/// A cut shared from one seat and another from a second: where that stands, and whether the first is all that the second seat gives.
fn seen_by_another<R: Wait>(
    rt: &R,
    alloc: Global,
    cut: &Cut,
    other: &Cut,
    x: &Frac,
) -> Result<(Option<Seated>, bool), Fail> {
    let pool = SharedPool::new(alloc, 6)?;
    let mut a = pool.seat(rt);
    offered(alloc, &mut a, cut)?;
    let mut b = pool.seat(rt);
    let place = offered(alloc, &mut b, other)?;
    Ok((place, gives_alone(alloc, &mut b, x, cut)?))
}

#[test]
fn a_seat_sees_what_another_shared(rt: HostRuntime) -> Result<(), Fail> {
    let alloc = rt.alloc();
    let comb = comb(alloc)?;
    let pair = subtour(alloc, 6, &[0, 1])?;
    let x = prism(alloc)?;
    let (place, is_alone) = seen_by_another(&rt, alloc, &comb, &pair, &x)?;
    assert_eq!(rt; place, Some(Seated::Shared(0)));
    assert!(rt; is_alone);
    Ok(())
}

/// Shares a cut from a seat, where it is of the pool's cities.
fn offered<R: Wait>(
    alloc: Global,
    seat: &mut Seat<'_, R>,
    cut: &Cut,
) -> Result<Option<Seated>, Fail> {
    if cut.n() != seat.n() {
        return Ok(None);
    }
    Ok(Some(seat.share(alloc, cut)?))
}

/// The subtour cut of the cities, of 13, whose bits a number has.
fn subtour_of_bits(alloc: Global, bits: u32) -> Result<Cut, Fail> {
    let mut cities = Vec::new(alloc);
    for city in 0..13u32 {
        if (bits >> city) & 1 == 1 {
            cities.push(city)?;
        }
    }
    subtour(alloc, 13, &cities)
}

#[test]
fn a_seat_of_4096_cuts_takes_no_other(rt: HostRuntime) -> Result<(), Fail> {
    let alloc = rt.alloc();
    let pool = SharedPool::new(alloc, 13)?;
    let mut seat = pool.seat(&rt);
    let mut shared = 0u32;
    for bits in 0..8192u32 {
        if bits.count_ones() < 2 || bits.count_ones() > 11 || shared == 4096 {
            continue;
        }
        let cut = subtour_of_bits(alloc, bits)?;
        assert_eq!(rt;
            offered(alloc, &mut seat, &cut)?,
            Some(Seated::Shared(shared))
        );
        shared = shared.wrapping_add(1);
    }
    assert_eq!(rt; shared, 4096);
    let other = subtour_of_bits(alloc, 0b1_1111_1000_0000)?;
    assert_eq!(rt; offered(alloc, &mut seat, &other)?, Some(Seated::Full));
    let first = subtour_of_bits(alloc, 0b11)?;
    assert_eq!(rt; offered(alloc, &mut seat, &first)?, Some(Seated::Shared(0)));
    assert_eq!(rt; seat.len(), 4096);
    Ok(())
}

/// Shares a cut and fetches by a box's bound; how many were fetched.
fn given_back<B: CutBox>(
    alloc: Global,
    cuts: &mut B,
    cut: &Cut,
    x: &Frac,
) -> Result<usize, AllocError> {
    cuts.share(alloc, cut)?;
    Ok(cuts.fetch(alloc, x)?.len())
}

/// A box with a cut shared, for values; how many were fetched.
fn fetched_for<R: Wait>(rt: &R, alloc: Global, cut: &Cut, x: &Frac) -> Result<usize, Fail> {
    let pool = SharedPool::new(alloc, 6)?;
    let mut seat = pool.seat(rt);
    Ok(given_back(alloc, &mut seat, cut, x)?)
}

#[test]
fn a_seat_passes_over_cuts_of_other_cities(rt: HostRuntime) -> Result<(), Fail> {
    let alloc = rt.alloc();
    let x = prism(alloc)?;
    let other = subtour(alloc, 7, &[0, 1])?;
    assert_eq!(rt; fetched_for(&rt, alloc, &other, &x)?, 0);
    let comb = comb(alloc)?;
    assert_eq!(rt; fetched_for(&rt, alloc, &comb, &x)?, 1);
    let wider = Frac::new(alloc, 7, Vec::new(alloc))?;
    assert_eq!(rt; fetched_for(&rt, alloc, &comb, &wider)?, 0);
    Ok(())
}
