//! Whole runs of tapes. The lines are those of the worked values of the formats.

ghost use Rattle.std.specs.Prelude.{◌<◌};

use crate::runs::{OPEN, ROOM, SQUARE, words};
use ports::{Inlet, MemDesk, MemSlots, OpenGate};
use std::alloc::{AllocError, Global};
use std::sync::Wait;
use std::test::Fail;
use std::thread::Threads;
use tspengine::{Status, run};

/// Two grunts ask, one is gone and its lease lost, and both report the same split.
const TWO_GRUNTS: &[u8] =
    b"\0\0\0\x05\x01\0\0\0\x01\0\0\0\x05\x01\0\0\0\x02\0\0\0\x05\x03\0\0\0\x01\0\0\0\x05\x01\0\0\0\x02\0\0\0\x12\x02\0\0\0\0CUTS 0\nE 1 3\n\0\0\0\x12\x02\0\0\0\x01CUTS 0\nE 1 3\n\0\0\0\x12\x02\0\0\0\x07CUTS 0\nE 1 3\n\0\0\0\x05\x01\0\0\0\x01";

const TWO_GRUNTS_LINES: &[u8] =
    b"LEASED 0 0 40\nNOTYET\nLOST 0\nLEASED 1 0 40\nTAKEN\nSTALE\nUNKNOWN\nSPENT\nEND 1 2 40\n";

/// A run over the square, with its desk.
#[derive(Drop)]
struct Ending {
    status: Status,
    desk: MemDesk,
}

/// Plays a tape over the square with a budget of one node and two grunts.
fn played<R: Threads + Wait + Sync>(
    rt: &R,
    alloc: Global,
    tape: &[u8],
    most_read: usize,
    bad_reads: &[u64],
    bad_writes: &[u64],
) -> Result<Ending, AllocError>
    requires { 0 < most_read }
{
    let mut desk = MemDesk::new(
        alloc,
        SQUARE.as_bytes(),
        tape,
        most_read,
        1,
        &[],
        bad_reads,
        bad_writes,
        ROOM,
    )?;
    let mut slots = MemSlots::new(alloc, b"", b"", &[], ROOM)?;
    let words = words(alloc, "tspc replay a t --budget 1 --grunts 2")?;
    let status = run(rt, alloc, &words, &mut desk, &mut slots, &OPEN, &OpenGate);
    Ok(Ending { status, desk })
}

#[test]
fn events_are_answered(rt: HostRuntime) -> Result<(), Fail> {
    let alloc = rt.alloc();
    for most_read in [1, 4096] {
        let ended = played(&rt, alloc, TWO_GRUNTS, most_read, &[], &[])?;
        assert_eq!(rt; ended.status, Status::Replayed);
        assert_eq!(rt; ended.status.code(), 0);
        assert_eq!(rt; ended.desk.text(), TWO_GRUNTS_LINES);
        assert_eq!(rt; ended.desk.proof(), b"".as_slice());
        assert_eq!(rt; ended.desk.inlet_binds(Inlet::Proof), 1);
        assert_eq!(rt; ended.desk.left(Inlet::Proof), b"".as_slice());
    }
    Ok(())
}

#[test]
fn faults_of_a_tape_are_told(rt: HostRuntime) -> Result<(), Fail> {
    let alloc = rt.alloc();
    let zero = played(&rt, alloc, b"\0\0\0\0", 4096, &[], &[])?;
    assert_eq!(rt; zero.status, Status::BadTape);
    assert_eq!(rt; zero.status.code(), 4);
    assert_eq!(rt; zero.desk.text(), b"FRAME 1 1\n".as_slice());
    let short = played(&rt, alloc, b"\0\0\0\x05\x01", 4096, &[], &[])?;
    assert_eq!(rt; short.status, Status::BadTape);
    assert_eq!(rt; short.desk.text(), b"FRAME 4 1\n".as_slice());
    let empty = played(&rt, alloc, b"", 4096, &[], &[])?;
    assert_eq!(rt; empty.status, Status::Replayed);
    assert_eq!(rt; empty.desk.text(), b"END 0 1 40\n".as_slice());
    Ok(())
}

#[test]
fn a_failing_call_leaves_a_front_of_the_lines(rt: HostRuntime) -> Result<(), Fail> {
    let alloc = rt.alloc();
    for k in 1..6 {
        let bad = [k];
        let unread = played(&rt, alloc, TWO_GRUNTS, 60, &bad, &[])?;
        assert_eq!(rt; unread.status, Status::ReadFault);
        assert!(rt; TWO_GRUNTS_LINES.starts_with(unread.desk.text()));
        let torn = played(&rt, alloc, TWO_GRUNTS, 60, &[], &bad)?;
        assert_eq!(rt; torn.status, Status::WriteFault);
        assert_eq!(rt; torn.desk.text().len() as u64, k - 1);
        assert!(rt; TWO_GRUNTS_LINES.starts_with(torn.desk.text()));
    }
    Ok(())
}
