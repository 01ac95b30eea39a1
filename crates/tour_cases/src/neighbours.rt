use distx::{Kind, Point};
use neigh::{Neigh, nearest, nearest_walk};
use std::alloc::Global;
use std::test::Fail;
use tspinst::{Instance, from_points};

/// The corners of a square whose sides are 10, in turn.
fn square(alloc: Global) -> Result<Instance, Fail> {
    let mut points = Vec::new(alloc);
    points.push(Point::new(0, 0))?;
    points.push(Point::new(0, 10))?;
    points.push(Point::new(10, 10))?;
    points.push(Point::new(10, 0))?;
    prove!(points.len() == 4);
    Ok(from_points(alloc, Kind::Euc, &points)?)
}

#[test]
fn the_two_nearest_corners_of_a_square_are_its_neighbours(rt: HostRuntime) -> Result<(), Fail> {
    let square = square(rt.alloc())?;
    assert_eq!(rt; square.n(), 4);
    let near = nearest(rt.alloc(), &square, 2)?;
    assert_eq!(rt; near.n(), 4);
    assert_eq!(rt; near.k(), 2);
    assert_eq!(rt; near.of(0), [1, 3].as_slice());
    assert_eq!(rt; near.of(1), [0, 2].as_slice());
    Ok(())
}

#[test]
fn all_others_are_in_order(rt: HostRuntime) -> Result<(), Fail> {
    let square = square(rt.alloc())?;
    assert_eq!(rt; square.n(), 4);
    let near = nearest(rt.alloc(), &square, 3)?;
    assert_eq!(rt; near.n(), 4);
    assert_eq!(rt; near.of(0), [1, 3, 2].as_slice());
    assert_eq!(rt; near.of(3), [0, 2, 1].as_slice());
    Ok(())
}

#[test]
fn the_walk_round_a_square_goes_to_the_lesser_of_two_near_corners(
    rt: HostRuntime,
) -> Result<(), Fail> {
    let square = square(rt.alloc())?;
    let walk = nearest_walk(rt.alloc(), &square)?;
    assert_eq!(rt; walk.cities(), [0, 1, 2, 3].as_slice());
    Ok(())
}

#[test]
fn cities_at_one_point_are_near_by_number(rt: HostRuntime) -> Result<(), Fail> {
    let mut points = Vec::new(rt.alloc());
    points.push(Point::new(7, 7))?;
    points.push(Point::new(7, 7))?;
    points.push(Point::new(7, 7))?;
    prove!(points.len() == 3);
    let instance = from_points(rt.alloc(), Kind::Euc, &points)?;
    assert_eq!(rt; instance.n(), 3);
    let near = nearest(rt.alloc(), &instance, 2)?;
    assert_eq!(rt; near.n(), 3);
    assert_eq!(rt; near.of(2), [0, 1].as_slice());
    assert_eq!(rt;
        nearest_walk(rt.alloc(), &instance)?.cities(),
        [0, 1, 2].as_slice()
    );
    Ok(())
}

#[test]
fn the_walk_goes_to_a_fixed_partner_first(rt: HostRuntime) -> Result<(), Fail> {
    let square = square(rt.alloc())?.fix(rt.alloc(), &[(2, 0)])?;
    let walk = nearest_walk(rt.alloc(), &square)?;
    assert_eq!(rt; walk.cities(), [0, 2, 1, 3].as_slice());
    Ok(())
}

#[test]
fn the_walk_goes_along_a_whole_fixed_tour(rt: HostRuntime) -> Result<(), Fail> {
    let square = square(rt.alloc())?.fix(rt.alloc(), &[(0, 2), (2, 1), (1, 3), (3, 0)])?;
    let walk = nearest_walk(rt.alloc(), &square)?;
    assert_eq!(rt; walk.cities(), [0, 3, 1, 2].as_slice());
    Ok(())
}

#[test]
fn the_walk_enters_a_fixed_path_at_its_end(rt: HostRuntime) -> Result<(), Fail> {
    let mut points = Vec::new(rt.alloc());
    points.push(Point::new(0, 0))?;
    points.push(Point::new(10, 0))?;
    points.push(Point::new(1, 0))?;
    points.push(Point::new(12, 0))?;
    prove!(points.len() == 4);
    let instance = from_points(rt.alloc(), Kind::Euc, &points)?;
    assert_eq!(rt;
        nearest_walk(rt.alloc(), &instance)?.cities(),
        [0, 2, 1, 3].as_slice()
    );
    let fixed = instance.fix(rt.alloc(), &[(1, 2), (2, 3)])?;
    assert_eq!(rt;
        nearest_walk(rt.alloc(), &fixed)?.cities(),
        [0, 1, 2, 3].as_slice()
    );
    Ok(())
}

#[test]
fn the_walk_begins_at_an_end_of_a_path(rt: HostRuntime) -> Result<(), Fail> {
    let square = square(rt.alloc())?.fix(rt.alloc(), &[(0, 2), (0, 3)])?;
    let walk = nearest_walk(rt.alloc(), &square)?;
    assert_eq!(rt; walk.cities(), [1, 2, 0, 3].as_slice());
    Ok(())
}
