//! Bodies that are refused.

use crate::tests::{DUALS, DUALS_OF_30, HEAD, HEAD_OF_30, nodes, open_chain, refusal, square};
use distx::{Kind, Point};
use std::alloc::Global;
use std::test::Fail;
use tspinst::{Instance, from_points};

/// A leaf of the square whose bound is just what 40 needs.
const WEAK: &str = "L 4 0 0\nP 1 5111808\nP 2 5111808\nP 3 5111808\nP 4 5111808\n";

/// Six cities, the corners of a prism seen from above.
fn prism(alloc: Global) -> Result<Instance, Fail> {
    let points = [
        Point::new(0, 0),
        Point::new(4, 0),
        Point::new(2, 3),
        Point::new(0, 10),
        Point::new(4, 10),
        Point::new(2, 13),
    ];
    Ok(from_points(alloc, Kind::Euc, &points)?)
}

/// The first of these texts for the square that is not refused so.
fn first_other(
    alloc: Global,
    front: &str,
    rows: &[(&str, (u32, u64))],
) -> Result<Option<usize>, Fail> {
    let square = square(alloc)?;
    for place in 0..rows.len() {
        let (lines, told) = &rows[place];
        let text = format!(in alloc; "{front}{lines}")?;
        if refusal(alloc, &square, &text, 0)? != *told {
            return Ok(Some(place));
        }
    }
    Ok(None)
}

#[test]
fn a_leaf_that_is_too_weak_for_its_bound(rt: HostRuntime) -> Result<(), Fail> {
    let alloc = rt.alloc();
    let rows = [(WEAK, (4u32, 6u64)), ("E 1 3\nO\nL 0 0 0\n", (4, 8))];
    assert_eq!(rt; first_other(alloc, HEAD, &rows)?, None);
    let weak = [("L 0 0 0\n", (4u32, 7u64)), (WEAK, (0, 0)), (DUALS, (0, 0))];
    assert_eq!(rt; first_other(alloc, HEAD_OF_30, &weak)?, None);
    Ok(())
}

#[test]
fn a_body_of_another_instance(rt: HostRuntime) -> Result<(), Fail> {
    let alloc = rt.alloc();
    let text = format!(in alloc; "{HEAD}O\n")?;
    assert_eq!(rt; refusal(alloc, &prism(alloc)?, &text, 0)?, (2, 2));
    Ok(())
}

#[test]
fn heads(rt: HostRuntime) -> Result<(), Fail> {
    let rows = [
        ("", (1u32, 1u64)),
        ("TSPCERT 3\n", (1, 1)),
        ("TSPCERT 1\nN 4\nLENGTH 41\nTOUR 1 2 3 4\n", (3, 4)),
        ("TSPCERT 1\nN 4\nLENGTH 40\nTOUR 1 4 3 2\n", (1, 4)),
        ("TSPCERT 1\nN 4\nLENGTH 40\nTOUR 1 2 3 3\n", (1, 4)),
        ("TSPCERT 2\nN 4\nLENGTH 40\nBOUND 40\n", (1, 4)),
        ("TSPCERT 2\nN 4\nLENGTH 40\nTOUR 1 2 3 4\n", (1, 4)),
        (
            "TSPCERT 2\nN 4\nLENGTH 41\nBOUND 40\nTOUR 1 2 3 4\n",
            (3, 5),
        ),
        (
            "TSPCERT 2\nN 4\nLENGTH 40\nBOUND 30\nTOUR 1 4 3 2\n",
            (1, 5),
        ),
        (
            "TSPCERT 1\nN 4\nLENGTH 40\nTOUR 1 2 3 4\nCUTS 1\nS 4 1 2 3 4\n",
            (1, 6),
        ),
    ];
    assert_eq!(rt; first_other(rt.alloc(), "", &rows)?, None);
    Ok(())
}

#[test]
fn trees(rt: HostRuntime) -> Result<(), Fail> {
    let rows = [
        ("", (1u32, 6u64)),
        ("O\nO\n", (1, 7)),
        ("O", (1, 6)),
        ("E 1 3\nE 1 3\n", (1, 7)),
        ("K 4 1 2 3 4\n", (1, 6)),
        ("E 1 3\nO\n", (1, 8)),
        ("L 0 1 0\nY 1 1\n", (1, 7)),
    ];
    assert_eq!(rt; first_other(rt.alloc(), HEAD, &rows)?, None);
    Ok(())
}

/// The sum of the duals of two equal cuts is one above 2^62, and they would close the leaf.
#[test]
fn sums_above_the_limit(rt: HostRuntime) -> Result<(), Fail> {
    let alloc = rt.alloc();
    let head = "TSPCERT 1\nN 4\nLENGTH 40\nTOUR 1 2 3 4\nCUTS 2\nS 1 1\nS 1 1\n";
    let cities = "L 4 2 0\nP 1 -4611686018422145024\nP 2 5242880\nP 3 5242880\nP 4 5242880\n";
    let front = format!(in alloc; "{head}{cities}")?;
    let rows = [
        (
            "Y 1 2305843009213693952\nY 2 2305843009213693952\n",
            (0u32, 0u64),
        ),
        ("Y 1 2305843009213693952\nY 2 2305843009213693953\n", (4, 8)),
        ("Y 1 4611686018427387904\nY 2 4611686018427387904\n", (4, 8)),
    ];
    assert_eq!(rt; first_other(alloc, &front, &rows)?, None);
    Ok(())
}

/// A diagonal of the square is fixed.
#[test]
fn fixed_pairs(rt: HostRuntime) -> Result<(), Fail> {
    let alloc = rt.alloc();
    let crossed = square(alloc)?.fix(alloc, &[(0, 2)])?;
    let text = format!(in alloc; "{HEAD}O\n")?;
    assert_eq!(rt; refusal(alloc, &crossed, &text, 0)?, (1, 4));
    let split = "TSPCERT 1\nN 4\nLENGTH 48\nTOUR 1 2 4 3\nCUTS 0\nE 1 3\nO\nO\n";
    assert_eq!(rt; refusal(alloc, &crossed, split, 0)?, (1, 6));
    Ok(())
}

/// A budget of 65,536 leaves room for 917,504 nodes.
#[test]
fn too_many_nodes(rt: HostRuntime) -> Result<(), Fail> {
    let alloc = rt.alloc();
    let many = open_chain(alloc, 458_752)?;
    assert_eq!(rt; refusal(alloc, &square(alloc)?, &many, 65_536)?, (5, 0));
    let most = open_chain(alloc, 458_751)?;
    assert_eq!(rt; nodes(alloc, &most, 65_536, 0)?, (917_503, 458_752));
    Ok(())
}

/// Too many nodes are told after all other refusals.
#[test]
fn the_number_of_nodes_is_told_last(rt: HostRuntime) -> Result<(), Fail> {
    let alloc = rt.alloc();
    let square = square(alloc)?;
    let weak = format!(in alloc; "{HEAD}{WEAK}")?;
    assert_eq!(rt; refusal(alloc, &square, &weak, u32::MAX)?, (4, 6));
    let whole = format!(in alloc; "{HEAD}{DUALS}")?;
    assert_eq!(rt; refusal(alloc, &square, &whole, u32::MAX)?, (5, 0));
    assert_eq!(rt; refusal(alloc, &square, &whole, 524_288)?, (5, 0));
    assert_eq!(rt; refusal(alloc, &square, &whole, 524_287)?, (0, 0));
    let low = format!(in alloc; "{HEAD}{DUALS_OF_30}")?;
    assert_eq!(rt; refusal(alloc, &square, &low, 524_288)?, (4, 6));
    Ok(())
}
