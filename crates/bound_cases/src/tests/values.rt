//! One-trees and values.

use super::square;
use onetree::{held_karp, least_tree, proved_length, tours_are_one_trees};
use std::test::Fail;

#[test]
fn the_square_is_bounded_by_its_tour(rt: HostRuntime) -> Result<(), Fail> {
    tours_are_one_trees();
    let alloc = rt.alloc();
    let square = square(alloc)?;
    let tree = least_tree(alloc, &square, &[0; 4])?;
    assert_eq!(rt; (tree.pairs.len(), tree.weight), (4, 40 << 20));
    assert!(rt; held_karp(alloc, &square, &[0; 4])? == 40 << 20);
    Ok(())
}

#[test]
fn a_value_proves_the_length_that_it_needs(rt: HostRuntime) -> Result<(), Fail> {
    assert!(rt; proved_length(3 << 20) == 3);
    assert!(rt; proved_length((3 << 20) + 1) == 4);
    assert!(rt; proved_length(0) == 0);
    assert!(rt; proved_length(1) == 1);
    assert!(rt; proved_length(1 - (1 << 20)) == 0);
    Ok(())
}
