//! Whole runs on the square whose cities 1 and 3 each tour joins. Its shortest tour goes along both diagonals.

use crate::runs::{solved, verified};
use std::test::Fail;
use tspengine::Status;

const BRIDGE: &str =
    "NAME : bridge\nTYPE : TSP\nDIMENSION : 4\nEDGE_WEIGHT_TYPE : EUC_2D\nNODE_COORD_SECTION\n1 0 0\n2 0 10\n3 10 10\n4 10 0\nFIXED_EDGES_SECTION\n1 3\n-1\nEOF\n";

const TRIANGLE: &str =
    "NAME : square\nTYPE : TSP\nDIMENSION : 4\nEDGE_WEIGHT_TYPE : EUC_2D\nNODE_COORD_SECTION\n1 0 0\n2 0 10\n3 10 10\n4 10 0\nFIXED_EDGES_SECTION\n1 2\n2 3\n1 3\n-1\nEOF\n";

#[test]
fn a_fixed_edge_is_in_the_answer(rt: HostRuntime) -> Result<(), Fail> {
    let alloc = rt.alloc();
    let bridge = solved(&rt, alloc, "tspc solve a b c", BRIDGE)?;
    assert_eq!(rt; bridge.status, Status::Optimal);
    let one = b"OPTIMAL 48\nTOUR 1 2 4 3\n".as_slice();
    let other = b"OPTIMAL 48\nTOUR 1 3 2 4\n".as_slice();
    assert!(rt; bridge.text() == one || bridge.text() == other);
    let checked = verified(&rt, alloc, BRIDGE, bridge.desk.proof())?;
    assert_eq!(rt; checked.status, Status::Verified);
    assert_eq!(rt; checked.text(), b"VERIFIED 48\n".as_slice());
    let toured = solved(&rt, alloc, "tspc tour a", BRIDGE)?;
    assert_eq!(rt; toured.status, Status::Toured);
    let along =
        b"NAME : tour\nTYPE : TOUR\nDIMENSION : 4\nTOUR_SECTION\n1\n2\n4\n3\n-1\nEOF\n".as_slice();
    let across =
        b"NAME : tour\nTYPE : TOUR\nDIMENSION : 4\nTOUR_SECTION\n1\n3\n2\n4\n-1\nEOF\n".as_slice();
    assert!(rt; toured.text() == along || toured.text() == across);
    Ok(())
}

#[test]
fn a_stopped_search_keeps_a_fixed_edge(rt: HostRuntime) -> Result<(), Fail> {
    let alloc = rt.alloc();
    let stopped = solved(&rt, alloc, "tspc solve a b c --budget 0", BRIDGE)?;
    assert_eq!(rt; stopped.status, Status::Stopped);
    assert_eq!(rt; stopped.text(), b"STOPPED 48 1\n".as_slice());
    Ok(())
}

#[test]
fn a_cycle_that_leaves_out_a_city_is_refused(rt: HostRuntime) -> Result<(), Fail> {
    let alloc = rt.alloc();
    let refused = solved(&rt, alloc, "tspc solve a b c", TRIANGLE)?;
    assert_eq!(rt; refused.status, Status::BadInstance);
    assert_eq!(rt; refused.text(), b"INSTANCE 14 13 3\n".as_slice());
    Ok(())
}

#[test]
fn proofs_of_a_tour_with_a_fixed_edge(rt: HostRuntime) -> Result<(), Fail> {
    let alloc = rt.alloc();
    let proof =
        b"TSPCERT 1\nN 4\nLENGTH 48\nTOUR 1 2 4 3\nCUTS 0\nL 4 0 0\nP 1 3145728\nP 2 7340032\nP 3 3145728\nP 4 7340032\n";
    let accepted = verified(&rt, alloc, BRIDGE, proof.as_slice())?;
    assert_eq!(rt; accepted.text(), b"VERIFIED 48\n".as_slice());
    let without =
        b"TSPCERT 1\nN 4\nLENGTH 40\nTOUR 1 2 3 4\nCUTS 0\nL 4 0 0\nP 1 5242880\nP 2 5242880\nP 3 5242880\nP 4 5242880\n";
    let refused = verified(&rt, alloc, BRIDGE, without.as_slice())?;
    assert_eq!(rt; refused.text(), b"REFUSED 3 4\n".as_slice());
    let split = b"TSPCERT 1\nN 4\nLENGTH 48\nTOUR 1 2 4 3\nCUTS 0\nE 1 3\n";
    let decided = verified(&rt, alloc, BRIDGE, split.as_slice())?;
    assert_eq!(rt; decided.text(), b"REFUSED 6 6\n".as_slice());
    Ok(())
}
