//! Whole runs of `bound` and `checkbound` over a desk in memory.

use crate::runs::{Faults, NONE, OPEN, ROOM, SQUARE, run_with, words};
use ports::{MemDesk, MemSlots, OpenGate};
use std::alloc::Global;
use std::sync::Wait;
use std::test::Fail;
use std::thread::Threads;
use tspengine::{Status, run};

/// Two triangles of sides 1, and three edges of length 0 between them: its shortest tours have length 4, and no one-tree bound exceeds 3.
const PRISM: &str =
    "NAME : prism\nTYPE : TSP\nDIMENSION : 6\nEDGE_WEIGHT_TYPE : EXPLICIT\nEDGE_WEIGHT_FORMAT : UPPER_ROW\nEDGE_WEIGHT_SECTION\n1 1 0 100 100\n1 100 0 100\n100 100 0\n1 1\n1\nEOF\n";

/// Checks a certificate for the prism where one read fails, or none; gives the status and the text.
fn checked<R: Threads + Wait + Sync>(
    rt: &R,
    alloc: Global,
    certificate: &[u8],
    bad_reads: &[u64],
) -> Result<(Status, Vec<u8>), Fail> {
    let mut desk = MemDesk::new(
        alloc,
        PRISM.as_bytes(),
        certificate,
        4096,
        65_536,
        &[],
        bad_reads,
        &[],
        ROOM,
    )?;
    let mut slots = MemSlots::new(alloc, b"", b"", &[], ROOM)?;
    let words = words(alloc, "tspc checkbound a b")?;
    let status = run(rt, alloc, &words, &mut desk, &mut slots, &OPEN, &OpenGate);
    Ok((status, Vec::from_slice(alloc, desk.text())?))
}

#[test]
fn the_square_is_bounded_by_its_tour(rt: HostRuntime) -> Result<(), Fail> {
    let alloc = rt.alloc();
    let ended = run_with(&rt, alloc, "tspc bound a b --steps 0", SQUARE, &NONE)?;
    assert_eq!(rt; ended.status, Status::Bounded);
    assert!(rt; ended.text() == b"BOUND 40\n".as_slice());
    assert!(rt; ended.desk.proof() == b"TSPTREE 1\nN 4\nBOUND 40\n".as_slice());
    Ok(())
}

#[test]
fn the_prism_is_bounded_by_three_and_no_more(rt: HostRuntime) -> Result<(), Fail> {
    let alloc = rt.alloc();
    let ended = run_with(&rt, alloc, "tspc bound a b --steps 0", PRISM, &NONE)?;
    assert_eq!(rt; ended.status, Status::Bounded);
    assert!(rt; ended.text() == b"BOUND 3\n".as_slice());
    let (status, text) = checked(&rt, alloc, ended.desk.proof(), &[])?;
    assert_eq!(rt; status, Status::Checked);
    assert_eq!(rt; status.code(), 0);
    assert!(rt; text.as_slice() == b"CHECKED 3\n".as_slice());
    let (status, text) = checked(&rt, alloc, b"TSPTREE 1\nN 6\nBOUND 4\n", &[])?;
    assert_eq!(rt; status, Status::BoundRefused);
    assert_eq!(rt; status.code(), 4);
    assert!(rt; text.as_slice() == b"REFUSED 7 3\n".as_slice());
    Ok(())
}

#[test]
fn a_failing_read_of_either_file_is_told(rt: HostRuntime) -> Result<(), Fail> {
    let alloc = rt.alloc();
    for k in 1..5u64 {
        let (status, text) = checked(&rt, alloc, b"TSPTREE 1\nN 6\nBOUND 3\n", &[k])?;
        assert_eq!(rt; status, Status::ReadFault);
        assert!(rt; text.is_empty());
    }
    let (status, _) = checked(&rt, alloc, b"TSPTREE 1\nN 6\nBOUND 3\n", &[5])?;
    assert_eq!(rt; status, Status::Checked);
    Ok(())
}

#[test]
fn a_failing_write_of_a_bound_leaves_fronts(rt: HostRuntime) -> Result<(), Fail> {
    let alloc = rt.alloc();
    let certificate = b"TSPTREE 1\nN 4\nBOUND 40\n".as_slice();
    let line = b"BOUND 40\n".as_slice();
    for k in 1..certificate.len() + line.len() + 1 {
        let bad = [k as u64];
        let cut = run_with(
            &rt,
            alloc,
            "tspc bound a b --steps 0",
            SQUARE,
            &Faults {
                most_write: 1,
                bad_writes: &bad,
                ..NONE
            },
        )?;
        assert_eq!(rt; cut.status, Status::WriteFault);
        assert_eq!(rt; cut.desk.proof().len(), certificate.len().min(k - 1));
        assert!(rt; certificate.starts_with(cut.desk.proof()));
        assert_eq!(rt; cut.text().len(), k - 1 - certificate.len().min(k - 1));
        assert!(rt; line.starts_with(cut.text()));
    }
    Ok(())
}
