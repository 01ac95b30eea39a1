use cyc::Tour;
use distx::{Kind, Point};
use neigh::nearest_walk;
use opening::find_opening;
use std::alloc::{AllocError, Global};
use std::test::Fail;
use tspinst::{Instance, from_points};

/// The next of some numbers that look drawn.
fn next(state: u64) -> u64 {
    state
        .wrapping_mul(6_364_136_223_846_793_005)
        .wrapping_add(1_442_695_040_888_963_407)
}

/// So many points that look drawn.
fn drawn(alloc: Global, count: u32) -> Result<Vec<Point>, AllocError> {
    let mut points = Vec::new(alloc);
    let mut state = 7;
    for _ in 0..count {
        let first = next(state);
        state = next(first);
        let x = (first >> 44) as i32;
        let y = (state >> 44) as i32;
        points.push(Point::new(x & 0xf_ffff, y & 0xf_ffff))?;
    }
    Ok(points)
}

/// The instance of some points.
fn of_points(alloc: Global, points: &[Point]) -> Result<Instance, AllocError> {
    if points.len() < 3 || points.len() > 2000 {
        return Err(AllocError);
    }
    from_points(alloc, Kind::Euc, points)
}

/// The length of a tour; 0 if it is of another number of cities.
fn length(instance: &Instance, tour: &Tour) -> u64 {
    if tour.n() == instance.n() {
        instance.length(tour)
    } else {
        0
    }
}

#[test]
fn a_few_cities_have_all_others_near(rt: HostRuntime) -> Result<(), Fail> {
    let alloc = rt.alloc();
    let corners = [
        Point::new(0, 0),
        Point::new(10, 10),
        Point::new(0, 10),
        Point::new(10, 0),
    ];
    let square = of_points(alloc, &corners)?;
    let found = find_opening(alloc, &square, 1)?;
    assert_eq!(rt; found.near.k(), 3);
    assert_eq!(rt; length(&square, &found.tour), 40);
    let three = of_points(alloc, &corners[..3])?;
    let least = find_opening(alloc, &three, 1)?;
    assert_eq!(rt; least.near.k(), 2);
    assert_eq!(rt; length(&three, &least.tour), 34);
    Ok(())
}

#[test]
fn a_seed_chooses_the_tour(rt: HostRuntime) -> Result<(), Fail> {
    let alloc = rt.alloc();
    let instance = of_points(alloc, &drawn(alloc, 300)?)?;
    let first = find_opening(alloc, &instance, 1)?;
    let again = find_opening(alloc, &instance, 1)?;
    let other = find_opening(alloc, &instance, 2)?;
    assert_eq!(rt; first.near.k(), 10);
    assert_eq!(rt; first.tour.cities(), again.tour.cities());
    assert!(rt; first.tour.cities() != other.tour.cities());
    let walk = length(&instance, &nearest_walk(alloc, &instance)?);
    assert!(rt; 0 < length(&instance, &first.tour));
    assert!(rt; length(&instance, &first.tour) < walk);
    Ok(())
}

#[test]
fn a_fixed_diagonal_of_a_square_is_in_the_opening(rt: HostRuntime) -> Result<(), Fail> {
    let alloc = rt.alloc();
    let corners = [
        Point::new(0, 0),
        Point::new(0, 10),
        Point::new(10, 10),
        Point::new(10, 0),
    ];
    let square = of_points(alloc, &corners)?.fix(alloc, &[(0, 2)])?;
    let found = find_opening(alloc, &square, 1)?;
    assert_eq!(rt; length(&square, &found.tour), 48);
    Ok(())
}
