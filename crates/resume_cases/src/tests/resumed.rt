//! Bodies that are read.

use crate::tests::{DUALS, DUALS_OF_30, HEAD, HEAD_OF_30, nodes, open_chain, square, taken};
use std::test::Fail;
use treebook::State;

#[test]
fn a_stopped_search_goes_on_from_one_open_node(rt: HostRuntime) -> Result<(), Fail> {
    let alloc = rt.alloc();
    let text = format!(in alloc; "{HEAD}O\n")?;
    let (tree, tour) = taken(alloc, &text, 1, 0)?;
    assert_eq!(rt; tree.nodes(), 1);
    assert_eq!(rt; tree.open_nodes(), 1);
    assert_eq!(rt; tour.cities(), [0u32, 1, 2, 3].as_slice());
    Ok(())
}

#[test]
fn a_body_without_an_open_leaf_is_read(rt: HostRuntime) -> Result<(), Fail> {
    let alloc = rt.alloc();
    let text = format!(in alloc; "{HEAD}{DUALS}")?;
    assert_eq!(rt; nodes(alloc, &text, 65_536, 0)?, (1, 0));
    let split = format!(in alloc; "{HEAD}E 1 3\n{DUALS}K 2 1 2\nO\n{DUALS}")?;
    assert_eq!(rt; nodes(alloc, &split, 65_536, 0)?, (5, 1));
    Ok(())
}

/// The bound of the leaves is 30: they suffice for the body's bound, and for the level with a gap of 10.
#[test]
fn leaves_open_that_are_too_weak_for_the_level(rt: HostRuntime) -> Result<(), Fail> {
    let alloc = rt.alloc();
    let text = format!(in alloc; "{HEAD_OF_30}E 1 3\n{DUALS_OF_30}{DUALS}")?;
    let rows = [
        (0u64, (3u32, 1u32)),
        (1, (3, 1)),
        (9, (3, 1)),
        (10, (3, 0)),
        (11, (3, 0)),
        (40, (3, 0)),
        (1_000, (3, 0)),
    ];
    for (gap, counts) in &rows {
        assert_eq!(rt; nodes(alloc, &text, 1, *gap)?, *counts);
    }
    Ok(())
}

/// Of the two children, the first one is opened.
#[test]
fn the_weak_leaf_is_the_open_one(rt: HostRuntime) -> Result<(), Fail> {
    let alloc = rt.alloc();
    let text = format!(in alloc; "{HEAD_OF_30}E 1 3\n{DUALS_OF_30}{DUALS}")?;
    let (tree, _) = taken(alloc, &text, 1, 0)?;
    assert_eq!(rt; tree.least_open(), Some(1));
    Ok(())
}

/// Two listed cuts are equal, and the sum of their duals is 2^62: they are one cut.
#[test]
fn equal_cuts_are_one(rt: HostRuntime) -> Result<(), Fail> {
    let alloc = rt.alloc();
    let head = "TSPCERT 1\nN 4\nLENGTH 40\nTOUR 1 2 3 4\nCUTS 2\nS 1 1\nS 1 1\n";
    let cities = "L 4 2 0\nP 1 -4611686018422145024\nP 2 5242880\nP 3 5242880\nP 4 5242880\n";
    let text = format!(in alloc;
        "{head}{cities}Y 1 2305843009213693952\nY 2 2305843009213693952\n"
    )?;
    let (tree, _) = taken(alloc, &text, 0, 0)?;
    if tree.nodes() == 0 {
        return Err("no node".into());
    }
    let State::Closed(closing) = tree.state(0) else {
        return Err("the root is not closed".into());
    };
    assert_eq!(rt; closing.cuts().len(), 1);
    assert_eq!(rt; closing.cuts().first().map(|cut| cut.1), Some(1 << 62));
    Ok(())
}

#[test]
fn odd_cuts_are_read(rt: HostRuntime) -> Result<(), Fail> {
    let alloc = rt.alloc();
    let head = "TSPCERT 1\nN 4\nLENGTH 40\nTOUR 1 2 3 4\nCUTS 1\nB 1\nH 1 1\nF 1 2\n";
    let text = format!(in alloc; "{head}{DUALS}")?;
    assert_eq!(rt; nodes(alloc, &text, 0, 0)?, (1, 0));
    Ok(())
}

#[test]
fn the_depth_of_a_tree_takes_no_stack(rt: HostRuntime) -> Result<(), Fail> {
    let alloc = rt.alloc();
    let text = open_chain(alloc, 200_000)?;
    assert_eq!(rt; nodes(alloc, &text, 0, 0)?, (400_001, 200_001));
    let mut first = format!(in alloc; "{HEAD}")?;
    for _ in 0..100_000u32 {
        first.push_str("K 1 1\n")?;
    }
    for _ in 0..100_001u32 {
        first.push_str("O\n")?;
    }
    assert_eq!(rt; nodes(alloc, &first, 0, 0)?, (200_001, 100_001));
    Ok(())
}

/// Fixed pairs are on each path: here a diagonal of the square.
#[test]
fn the_tree_has_the_fixed_pairs(rt: HostRuntime) -> Result<(), Fail> {
    let alloc = rt.alloc();
    let crossed = square(alloc)?.fix(alloc, &[(0, 2)])?;
    let text = "TSPCERT 1\nN 4\nLENGTH 48\nTOUR 1 2 4 3\nCUTS 0\nO\n";
    match resume_form::read(alloc, &crossed, text.as_bytes(), 0, 0) {
        Ok((tree, _)) => assert_eq!(rt; tree.fixed(), [(0u32, 2u32)].as_slice()),
        Err(_) => return Err("the body was not read".into()),
    }
    Ok(())
}
