//! Whole runs that go on with what the slots hold, and runs with a gap.

use crate::runs::{CROSSED, OPEN, ROOM, SQUARE, solved, verified, words};
use ports::{MemDesk, MemSlots, OpenGate};
use std::alloc::{AllocError, Global};
use std::sync::Wait;
use std::test::Fail;
use std::thread::Threads;
use tspengine::{Status, run};

/// Two triangles, and three pairs that join them.
const PRISM: &str =
    "TYPE : TSP\nDIMENSION : 6\nEDGE_WEIGHT_TYPE : EXPLICIT\nEDGE_WEIGHT_FORMAT : UPPER_ROW\nEDGE_WEIGHT_SECTION\n0 0 1 2 2\n0 2 1 2\n2 2 1\n0 0\n0\nEOF\n";

/// The slot of a body.
fn slot_of(alloc: Global, body: &[u8]) -> Result<Vec<u8>, AllocError> {
    let mut slot = Vec::new(alloc);
    slot.extend_from_slice(&[1, 0, 0, 0, 0, 0, 0, 0])?;
    slot.push((body.len() / 256 % 256) as u8)?;
    slot.push((body.len() % 256) as u8)?;
    slot.extend_from_slice(body)?;
    Ok(slot)
}

/// How a run ended on slots that hold something.
#[derive(Drop)]
struct Ended {
    status: Status,
    desk: MemDesk,
    slots: MemSlots,
}

fn run_on<R: Threads + Wait + Sync>(
    rt: &R,
    alloc: Global,
    line: &str,
    text: &str,
    slot0: &[u8],
    slot1: &[u8],
) -> Result<Ended, AllocError> {
    let mut desk = MemDesk::new(
        alloc,
        text.as_bytes(),
        b"",
        4096,
        65_536,
        &[],
        &[],
        &[],
        ROOM,
    )?;
    let mut slots = MemSlots::new(alloc, slot0, slot1, &[], ROOM)?;
    let status = run(
        rt,
        alloc,
        &words(alloc, line)?,
        &mut desk,
        &mut slots,
        &OPEN,
        &OpenGate,
    );
    Ok(Ended {
        status,
        desk,
        slots,
    })
}

#[test]
fn a_stopped_search_goes_on(rt: HostRuntime) -> Result<(), Fail> {
    let alloc = rt.alloc();
    let stopped = solved(&rt, alloc, "tspc solve a b c --budget 0", SQUARE)?;
    assert_eq!(rt; stopped.text(), b"STOPPED 40 1\n".as_slice());
    let line = "tspc solve a b c --resume --budget 1";
    let ended = run_on(
        &rt,
        alloc,
        line,
        SQUARE,
        stopped.slots.slot(0),
        stopped.slots.slot(1),
    )?;
    assert_eq!(rt; ended.status, Status::Optimal);
    assert_eq!(rt; ended.desk.text(), b"OPTIMAL 40\nTOUR 1 2 3 4\n".as_slice());
    let checked = verified(&rt, alloc, SQUARE, ended.desk.proof())?;
    assert_eq!(rt; checked.text(), b"VERIFIED 40\n".as_slice());
    // With no budget left it stops again, and saves the same body to the other slot.
    let line = "tspc solve a b c --resume --budget 0";
    let again = run_on(
        &rt,
        alloc,
        line,
        SQUARE,
        stopped.slots.slot(0),
        stopped.slots.slot(1),
    )?;
    assert_eq!(rt; again.status, Status::Stopped);
    assert_eq!(rt;
        again.slots.slot(1).get(2..),
        stopped.slots.slot(0).get(2..)
    );
    Ok(())
}

#[test]
fn bodies_that_are_none_are_refused(rt: HostRuntime) -> Result<(), Fail> {
    let alloc = rt.alloc();
    let weak =
        b"TSPCERT 1\nN 4\nLENGTH 40\nTOUR 1 2 3 4\nCUTS 0\nL 4 0 0\nP 1 5111808\nP 2 5111808\nP 3 5111808\nP 4 5111808\n";
    let wrong_length = b"TSPCERT 1\nN 4\nLENGTH 39\nTOUR 1 2 3 4\nCUTS 0\nO\n";
    let decided = b"TSPCERT 1\nN 4\nLENGTH 40\nTOUR 1 2 3 4\nCUTS 0\nE 1 3\nE 1 3\nO\nO\nO\n";
    let wrong_bound = b"TSPCERT 2\nN 4\nLENGTH 40\nBOUND 40\nTOUR 1 2 3 4\nCUTS 0\nO\n";
    let square = b"TSPCERT 1\nN 4\nLENGTH 40\nTOUR 1 2 3 4\nCUTS 0\nO\n";
    let rows: [(&str, &[u8], &[u8]); 6] = [
        (SQUARE, weak, b"RESTART 4 6\n"),
        (SQUARE, wrong_length, b"RESTART 3 4\n"),
        (SQUARE, decided, b"RESTART 1 7\n"),
        (SQUARE, wrong_bound, b"RESTART 1 4\n"),
        (PRISM, square, b"RESTART 2 2\n"),
        (SQUARE, b"TSPCERT 1\nN 4\n", b"RESTART 1 3\n"),
    ];
    for (text, body, told) in rows {
        let slot = slot_of(alloc, body)?;
        let ended = run_on(&rt, alloc, "tspc solve a b c --resume", text, &slot, b"")?;
        assert_eq!(rt; ended.status, Status::BadRestart);
        assert_eq!(rt; ended.desk.text(), told);
        assert_eq!(rt; ended.slots.slot(0), slot.as_slice());
        assert_eq!(rt; ended.desk.proof_binds(), 0);
    }
    Ok(())
}

#[test]
fn slots_without_a_body_are_refused(rt: HostRuntime) -> Result<(), Fail> {
    let alloc = rt.alloc();
    let rows: [&[u8]; 3] = [b"", b"\x01\0\xff\xff\xff\xff\xff\xff\xff\xff", b"\0\0old"];
    for slot in rows {
        let ended = run_on(&rt, alloc, "tspc solve a b c --resume", SQUARE, slot, b"")?;
        assert_eq!(rt; ended.status, Status::BadRestart);
        assert_eq!(rt; ended.status.code(), 4);
        assert_eq!(rt; ended.desk.text(), b"RESTART 1 0\n".as_slice());
    }
    Ok(())
}

#[test]
fn a_gap_is_allowed(rt: HostRuntime) -> Result<(), Fail> {
    let alloc = rt.alloc();
    let ended = solved(&rt, alloc, "tspc solve a b c --gap 40 --budget 1", SQUARE)?;
    assert_eq!(rt; ended.status, Status::Within);
    assert_eq!(rt; ended.status.code(), 10);
    assert_eq!(rt; ended.text(), b"WITHIN 40 0\nTOUR 1 2 3 4\n".as_slice());
    let proof = b"TSPCERT 2\nN 4\nLENGTH 40\nBOUND 0\nTOUR 1 2 3 4\nCUTS 0\nL 0 0 0\n".as_slice();
    assert_eq!(rt; ended.desk.proof(), proof);
    let checked = verified(&rt, alloc, SQUARE, proof)?;
    assert_eq!(rt; checked.text(), b"WITHIN 40 0\n".as_slice());
    // Without a gap its leaf is too weak, and is opened again.
    let slot = slot_of(alloc, proof)?;
    let line = "tspc solve a b c --resume --budget 1";
    let resumed = run_on(&rt, alloc, line, SQUARE, &slot, b"")?;
    assert_eq!(rt; resumed.status, Status::Optimal);
    assert_eq!(rt;
        resumed.desk.text(),
        b"OPTIMAL 40\nTOUR 1 2 3 4\n".as_slice()
    );
    Ok(())
}

#[test]
fn a_better_tour_of_the_body_is_kept(rt: HostRuntime) -> Result<(), Fail> {
    let alloc = rt.alloc();
    // The body's tour is longer than the opening tour, which is offered.
    let body = b"TSPCERT 1\nN 4\nLENGTH 48\nTOUR 1 2 3 4\nCUTS 0\nO\n";
    let slot = slot_of(alloc, body)?;
    let ended = run_on(
        &rt,
        alloc,
        "tspc solve a b c --resume --budget 0",
        CROSSED,
        &slot,
        b"",
    )?;
    assert_eq!(rt; ended.status, Status::Stopped);
    assert_eq!(rt; ended.desk.text(), b"STOPPED 40 1\n".as_slice());
    Ok(())
}
