//! Worked trees.
ghost use Rattle.std.specs.Prelude.{◌≡◌, IfOk};

use branchx::{Branch, Cond};
use cyc::CitySet;
use distx::{Kind, Point};
use pricer::{Closing, Fit};
use std::test::Fail;
use treebook::{State, Tree};
use tspinst::from_points;

#[test]
fn a_split_has_two_children(rt: HostRuntime) -> Result<(), Fail> {
    let alloc = rt.alloc();
    let mut tree = Tree::new(alloc, 4)?;
    tree.reserve(alloc, 2)?;
    assert_eq!(rt; tree.least_open(), Some(0));
    tree.split(0, Branch::Edge(0, 2));
    let path = tree.path_of(alloc, 2)?;
    assert!(rt; path.conditions() == [Cond::Present(0, 2)].as_slice());
    assert_eq!(rt; tree.open_nodes(), 2);
    assert_eq!(rt; tree.settled(), 1);
    assert_eq!(rt; tree.nodes(), 3);
    assert_eq!(rt; tree.least_open(), Some(1));
    assert!(rt; tree.decided_at(1, 2, 0));
    assert!(rt; !tree.decided_at(1, 0, 1));
    assert!(rt; matches!(tree.state(0), State::Split(_, 1)));
    assert!(rt; matches!(tree.state(2), State::Open));
    Ok(())
}

#[test]
fn no_set_is_new_below_its_split(rt: HostRuntime) -> Result<(), Fail> {
    let alloc = rt.alloc();
    let mut tree = Tree::new(alloc, 4)?;
    tree.reserve(alloc, 2)?;
    let pair = CitySet::new(alloc, 4, Vec::from_slice(alloc, &[0, 1])?)?;
    let rest = CitySet::new(alloc, 4, Vec::from_slice(alloc, &[2, 3])?)?;
    assert!(rt; tree.new_at(0, &pair));
    if pair.is_proper() {
        tree.split(0, Branch::Clique(pair));
        assert!(rt; !tree.new_at(2, &rest));
    }
    assert_eq!(rt; tree.nodes(), 3);
    Ok(())
}

#[test]
fn duals_close_the_triangle(rt: HostRuntime) -> Result<(), Fail> {
    let alloc = rt.alloc();
    let instance = from_points(
        alloc,
        Kind::Euc,
        &[Point::new(0, 0), Point::new(3, 0), Point::new(0, 4)],
    )?;
    let mut tree = Tree::new(alloc, 3)?;
    let city = Vec::from_slice(alloc, &[1 << 20, 2 << 20, 3 << 20])?;
    let closing = Closing::new(city, Vec::new(alloc), Vec::new(alloc));
    assert_eq!(rt; tree.fits_at(&instance, 0, &closing), Fit::Fits);
    assert_eq!(rt; tree.bound_at(&instance, 0, &closing), 12 << 20);
    tree.close(0, closing);
    assert_eq!(rt; tree.open_nodes(), 0);
    assert_eq!(rt; tree.settled(), 1);
    assert_eq!(rt; tree.least_open(), None);
    assert!(rt; matches!(tree.state(0), State::Closed(_)));
    Ok(())
}

#[test]
fn paths_begin_with_the_fixed_pairs(rt: HostRuntime) -> Result<(), Fail> {
    let alloc = rt.alloc();
    let mut tree = Tree::with_fixed(alloc, 4, &[(0, 3), (1, 2)])?;
    tree.reserve(alloc, 2)?;
    assert!(rt; tree.fixed() == [(0, 3), (1, 2)].as_slice());
    assert!(rt; tree.decided_at(0, 2, 1));
    assert!(rt; !tree.decided_at(0, 0, 2));
    tree.split(0, Branch::Edge(0, 2));
    let path = tree.path_of(alloc, 1)?;
    assert!(rt;
        path.conditions() == [Cond::Fixed(0, 3), Cond::Fixed(1, 2), Cond::Absent(0, 2)].as_slice()
    );
    assert!(rt; tree.decided_at(1, 3, 0));
    Ok(())
}

/// No closed node sets a limit.
#[test]
fn an_open_tree_bears_each_bound(rt: HostRuntime) -> Result<(), Fail> {
    let alloc = rt.alloc();
    let instance = from_points(
        alloc,
        Kind::Euc,
        &[Point::new(0, 0), Point::new(3, 0), Point::new(0, 4)],
    )?;
    let tree = Tree::new(alloc, 3)?;
    assert_eq!(rt; tree.greatest_bound(&instance, 12), 12);
    Ok(())
}
