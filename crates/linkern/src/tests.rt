ghost use Rattle.std.specs.Prelude.{◌≡◌, [], IfOk};
ghost use Rattle.tspdef.specs.Instances.{IsTourOf};

use super::*;
use cyc::TourError;
use distx::{Kind, Point};
use neigh::{nearest, nearest_walk};
use std::test::Fail;
use tspinst::from_points;

/// The instance of some points, which fixes no pair.
fn of_points(alloc: Global, points: &[Point]) -> Result<Instance, AllocError>
    ensures { IfOk result (λ i. i.fixed ≡ []) }
{
    if points.len() < 3 || points.len() > 2000 {
        return Err(AllocError);
    }
    from_points(alloc, Kind::Euc, points)
}

/// The next of some numbers that look drawn.
fn next(state: u64) -> u64 {
    state
        .wrapping_mul(6_364_136_223_846_793_005)
        .wrapping_add(1_442_695_040_888_963_407)
}

/// A point of two numbers.
fn point(first: u64, second: u64) -> Point {
    let x = (first >> 44) as i32;
    let y = (second >> 44) as i32;
    Point::new(x & 0xf_ffff, y & 0xf_ffff)
}

/// So many points that look drawn.
fn drawn(alloc: Global, count: u32, seed: u64) -> Result<Vec<Point>, AllocError> {
    let mut points = Vec::new(alloc);
    let mut state = seed;
    for _ in 0..count {
        let first = next(state);
        state = next(first);
        points.push(point(first, state))?;
    }
    Ok(points)
}

/// Points of a grid, 10 apart.
fn grid(alloc: Global, columns: i32, rows: i32) -> Result<Vec<Point>, AllocError> {
    let mut points = Vec::new(alloc);
    for x in 0..columns {
        for y in 0..rows {
            points.push(Point::new((x & 0x3ff) * 10, (y & 0x3ff) * 10))?;
        }
    }
    Ok(points)
}

/// A tour through a list of cities, where no pair is fixed.
#[tactic(auto, using(crate::proofs::RestLemmas::none_to_hold))]
fn free_tour(alloc: Global, instance: &Instance, cities: Vec<u32>) -> Result<Tour, TourError>
    requires { instance.now.fixed ≡ [] }
    ensures { IfOk result (λ tour. IsTourOf instance.now tour) }
{
    Tour::new(alloc, instance.n(), cities)
}

/// The nearest-neighbour walk of an instance, improved over lists of so many cities at most.
fn improved(
    alloc: Global,
    instance: &Instance,
    most: u32,
    kicks: u32,
    seed: u64,
) -> Result<Tour, AllocError> {
    let n = instance.n();
    let near = nearest(alloc, instance, most.clamp(1, n - 1))?;
    let walk = nearest_walk(alloc, instance)?;
    if walk.n() != n || near.n() != n {
        return Err(AllocError);
    }
    improve(alloc, instance, &near, &walk, kicks, seed)
}

/// The length of a tour; 0 if it is of another number of cities.
fn length(instance: &Instance, tour: &Tour) -> u64 {
    if tour.n() == instance.n() {
        instance.length(tour)
    } else {
        0
    }
}

#[test]
fn a_crossed_square_is_put_right(rt: HostRuntime) -> Result<(), Fail> {
    let alloc = rt.alloc();
    let corners = vec![in alloc;
        Point::new(0, 0),
        Point::new(0, 10),
        Point::new(10, 10),
        Point::new(10, 0),
    ]?;
    let square = of_points(alloc, &corners)?;
    assert_eq!(rt; square.n(), 4);
    let crossed = free_tour(alloc, &square, vec![in alloc; 0, 2, 1, 3]?)?;
    assert_eq!(rt; crossed.n(), 4);
    assert_eq!(rt; square.length(&crossed), 48);
    let near = nearest(alloc, &square, 2)?;
    assert_eq!(rt; near.n(), 4);
    let tour = improve(alloc, &square, &near, &crossed, 0, 1)?;
    assert_eq!(rt; length(&square, &tour), 40);
    Ok(())
}

#[test]
fn a_few_cities_are_toured_whatever_the_lists(rt: HostRuntime) -> Result<(), Fail> {
    for count in 3..6u32 {
        let instance = of_points(rt.alloc(), &drawn(rt.alloc(), count, 7)?)?;
        let best = length(&instance, &improved(rt.alloc(), &instance, count, 10, 1)?);
        assert!(rt; best > 0);
        for k in 1..count {
            let tour = improved(rt.alloc(), &instance, k, 3, 1)?;
            assert_eq!(rt; tour.n(), count);
            assert!(rt; length(&instance, &tour) >= best);
        }
    }
    Ok(())
}

#[test]
fn cities_at_one_point_have_a_tour_of_no_length(rt: HostRuntime) -> Result<(), Fail> {
    let alloc = rt.alloc();
    let points = vec![in alloc; Point::new(3, 4); 20]?;
    let instance = of_points(alloc, &points)?;
    let tour = improved(alloc, &instance, 10, 20, 1)?;
    assert_eq!(rt; (tour.n(), length(&instance, &tour)), (20, 0));
    Ok(())
}

#[test]
fn two_far_clusters_are_joined_by_two_steps(rt: HostRuntime) -> Result<(), Fail> {
    let alloc = rt.alloc();
    let mut points = Vec::new(alloc);
    for (x, y) in [(0, 0), (0, 1), (1, 0), (1, 1), (2, 0), (2, 1)] {
        points.push(Point::new(x, y))?;
        points.push(Point::new(x + 1000, y))?;
    }
    let instance = of_points(alloc, &points)?;
    let tour = improved(alloc, &instance, 4, 50, 1)?;
    assert_eq!(rt; length(&instance, &tour), 2006);
    Ok(())
}

#[test]
fn a_grid_of_two_thousand_is_nearly_best(rt: HostRuntime) -> Result<(), Fail> {
    let instance = of_points(rt.alloc(), &grid(rt.alloc(), 50, 40)?)?;
    let tour = improved(rt.alloc(), &instance, 10, 200, 1)?;
    assert_eq!(rt; tour.n(), 2000);
    assert!(rt; length(&instance, &tour) >= 20_000);
    assert!(rt; length(&instance, &tour) <= 21_000);
    Ok(())
}

#[test]
fn a_seed_gives_one_tour_and_another_seed_another(rt: HostRuntime) -> Result<(), Fail> {
    let alloc = rt.alloc();
    let instance = of_points(alloc, &drawn(alloc, 300, 1)?)?;
    let first = improved(alloc, &instance, 10, 100, 1)?;
    assert_eq!(rt;
        first.cities(),
        improved(alloc, &instance, 10, 100, 1)?.cities()
    );
    let second = improved(alloc, &instance, 10, 100, 2)?;
    assert!(rt; first.canonical(alloc)?.cities() != second.canonical(alloc)?.cities());
    Ok(())
}

/// Whether two cities are neighbours in a tour.
fn joins(cities: &[u32], u: u32, v: u32) -> bool {
    for place in 0..cities.len() {
        let here = cities[place];
        let next = if place + 1 < cities.len() {
            cities[place + 1]
        } else {
            cities[0]
        };
        if (here == u && next == v) || (here == v && next == u) {
            return true;
        }
    }
    false
}

/// Whether a tour has each fixed pair of an instance.
fn holds(instance: &Instance, tour: &Tour) -> bool {
    for pair in instance.fixed() {
        if !joins(tour.cities(), pair.0, pair.1) {
            return false;
        }
    }
    true
}

/// Some steps of a walk through all cities that looks drawn.
fn drawn_steps(alloc: Global, count: u32, seed: u64) -> Result<Vec<(u32, u32)>, AllocError> {
    let mut order = Vec::new(alloc);
    for city in 0..count {
        order.push(city)?;
    }
    let mut state = seed;
    for place in 0..order.len() {
        state = next(state);
        let other = (state >> 33) as usize % order.len();
        order.swap(place, other);
    }
    let mut steps = Vec::new(alloc);
    for place in 1..order.len() {
        state = next(state);
        if state >> 62 == 0 {
            steps.push((order[place - 1], order[place]))?;
        }
    }
    Ok(steps)
}

#[test]
fn a_fixed_diagonal_of_a_square_stays(rt: HostRuntime) -> Result<(), Fail> {
    let alloc = rt.alloc();
    let corners = vec![in alloc;
        Point::new(0, 0),
        Point::new(0, 10),
        Point::new(10, 10),
        Point::new(10, 0),
    ]?;
    let square = of_points(alloc, &corners)?.fix(alloc, &[(2, 0)])?;
    let tour = improved(alloc, &square, 3, 10, 1)?;
    assert_eq!(rt; length(&square, &tour), 48);
    assert!(rt; holds(&square, &tour));
    Ok(())
}

#[test]
fn long_fixed_steps_stay(rt: HostRuntime) -> Result<(), Fail> {
    let alloc = rt.alloc();
    let instance = of_points(alloc, &grid(alloc, 6, 5)?)?.fix(
        alloc,
        &[(0, 29), (4, 25), (29, 12)],
    )?;
    let tour = improved(alloc, &instance, 8, 100, 1)?;
    assert!(rt; holds(&instance, &tour));
    assert!(rt; length(&instance, &tour) >= 434);
    Ok(())
}

#[test]
fn a_tour_that_is_fixed_whole_comes_back(rt: HostRuntime) -> Result<(), Fail> {
    let alloc = rt.alloc();
    let ring = [
        (0, 5),
        (5, 2),
        (2, 7),
        (7, 3),
        (3, 8),
        (8, 1),
        (1, 6),
        (6, 4),
        (4, 0),
    ];
    let instance = of_points(alloc, &grid(alloc, 3, 3)?)?.fix(alloc, &ring)?;
    let tour = improved(alloc, &instance, 8, 20, 1)?;
    assert_eq!(rt;
        tour.canonical(alloc)?.cities(),
        [0, 4, 6, 1, 8, 3, 7, 2, 5].as_slice()
    );
    Ok(())
}

#[test]
fn drawn_fixed_steps_stay_whatever_is_kicked(rt: HostRuntime) -> Result<(), Fail> {
    let alloc = rt.alloc();
    for count in 12..41u32 {
        let seed = u64::from(count);
        let steps = drawn_steps(alloc, count, seed)?;
        let instance = of_points(alloc, &drawn(alloc, count, seed)?)?.fix(alloc, &steps)?;
        let walk = nearest_walk(alloc, &instance)?;
        let tour = improved(alloc, &instance, 8, 50, seed)?;
        assert_eq!(rt; instance.fixed().len(), steps.len());
        assert!(rt; holds(&instance, &walk));
        assert!(rt; holds(&instance, &tour));
        assert!(rt; length(&instance, &tour) > 0);
        assert!(rt; length(&instance, &tour) <= length(&instance, &walk));
    }
    Ok(())
}
