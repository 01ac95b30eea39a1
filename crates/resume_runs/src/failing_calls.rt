//! Whole runs in which a read, a write, a bind or a call on a slot fails.

use crate::runs::{CROSSED, Faults, NONE, OPEN, ROOM, SQUARE, run_with, solved, words};
use ports::{MemDesk, MemSlots, OpenGate, SlotCall};
use slotstore::Store;
use std::alloc::Global;
use std::test::Fail;
use tspengine::{Status, run};

#[test]
fn a_failing_save_leaves_the_other_slot(rt: HostRuntime) -> Result<(), Fail> {
    let alloc = rt.alloc();
    let first = solved(&rt, alloc, "tspc solve a b c --budget 0", SQUARE)?;
    let kept = first.slots.slot(0);
    for k in 1..first.slots.entries().len() + 1 {
        let bad = [(SlotCall::Any, k as u64)];
        let mut desk = MemDesk::new(
            alloc,
            CROSSED.as_bytes(),
            b"",
            4096,
            65_536,
            &[],
            &[],
            &[],
            ROOM,
        )?;
        let mut slots = MemSlots::new(alloc, kept, b"", &bad, ROOM)?;
        let words = words(alloc, "tspc solve a b c --budget 0")?;
        let status = run(&rt, alloc, &words, &mut desk, &mut slots, &OPEN, &OpenGate);
        assert_eq!(rt; status, Status::StoreFault);
        assert_eq!(rt; slots.slot(0), kept);
        assert_eq!(rt; desk.text(), b"".as_slice());
        // The gate of the other slot is not open yet, and the body of the first run loads.
        let body = body_in(alloc, &mut slots);
        assert_eq!(rt; body.as_ref().map(|body| body.as_slice()), kept.get(10..));
    }
    Ok(())
}

/// The body that slots hold.
fn body_in(alloc: Global, slots: &mut MemSlots) -> Option<Vec<u8>> {
    let store = Store::begin(slots).ok()?;
    store.load(alloc, slots).ok()?
}

#[test]
fn a_failing_write_leaves_a_front(rt: HostRuntime) -> Result<(), Fail> {
    let alloc = rt.alloc();
    let whole = solved(&rt, alloc, "tspc solve a b c", SQUARE)?;
    let proof = whole.desk.proof().len();
    let ended = run_with(
        &rt,
        alloc,
        "tspc solve a b c",
        SQUARE,
        &Faults {
            most_write: 1,
            bad_writes: &[5],
            ..NONE
        },
    )?;
    assert_eq!(rt; ended.status, Status::WriteFault);
    assert_eq!(rt; ended.desk.proof(), b"TSPC".as_slice());
    assert_eq!(rt; ended.text(), b"".as_slice());
    let writes = proof + whole.text().len();
    for k in 1..writes + 1 {
        let bad = [k as u64];
        let cut = run_with(
            &rt,
            alloc,
            "tspc solve a b c",
            SQUARE,
            &Faults {
                most_write: 1,
                bad_writes: &bad,
                ..NONE
            },
        )?;
        assert_eq!(rt; cut.status, Status::WriteFault);
        assert_eq!(rt; cut.desk.proof().len(), proof.min(k - 1));
        assert_eq!(rt; cut.text().len(), k - 1 - proof.min(k - 1));
        assert!(rt; whole.desk.proof().starts_with(cut.desk.proof()));
        assert!(rt; whole.text().starts_with(cut.text()));
    }
    let unbound = run_with(
        &rt,
        alloc,
        "tspc solve a b c",
        SQUARE,
        &Faults {
            bad_binds: &[2],
            ..NONE
        },
    )?;
    assert_eq!(rt; unbound.status, Status::WriteFault);
    assert_eq!(rt; unbound.desk.proof(), b"".as_slice());
    Ok(())
}

#[test]
fn a_failing_read_is_told(rt: HostRuntime) -> Result<(), Fail> {
    let alloc = rt.alloc();
    for k in 1..3 {
        let bad = [k];
        let ended = run_with(
            &rt,
            alloc,
            "tspc solve a b c",
            SQUARE,
            &Faults {
                bad_reads: &bad,
                ..NONE
            },
        )?;
        assert_eq!(rt; ended.status, Status::ReadFault);
        assert_eq!(rt; ended.text(), b"".as_slice());
    }
    let unbound = run_with(
        &rt,
        alloc,
        "tspc solve a b c",
        SQUARE,
        &Faults {
            bad_binds: &[1],
            ..NONE
        },
    )?;
    assert_eq!(rt; unbound.status, Status::ReadFault);
    let past = run_with(
        &rt,
        alloc,
        "tspc solve a b c",
        SQUARE,
        &Faults {
            bad_reads: &[3],
            ..NONE
        },
    )?;
    assert_eq!(rt; past.status, Status::Optimal);
    Ok(())
}

#[test]
fn failing_slots_matter_where_they_are_used(rt: HostRuntime) -> Result<(), Fail> {
    let alloc = rt.alloc();
    let bad = [
        (SlotCall::Write, 1),
        (SlotCall::Write, 2),
        (SlotCall::Write, 3),
    ];
    let unused = run_with(
        &rt,
        alloc,
        "tspc solve a b c",
        SQUARE,
        &Faults {
            bad_slots: &bad,
            ..NONE
        },
    )?;
    assert_eq!(rt; unused.status, Status::Optimal);
    assert_eq!(rt; unused.text(), b"OPTIMAL 40\nTOUR 1 2 3 4\n".as_slice());
    let used = run_with(
        &rt,
        alloc,
        "tspc solve a b c --budget 0",
        SQUARE,
        &Faults {
            bad_slots: &bad,
            ..NONE
        },
    )?;
    assert_eq!(rt; used.status, Status::StoreFault);
    assert_eq!(rt; used.text(), b"".as_slice());
    // A first read that fails stands in the way of both.
    for line in ["tspc solve a b c", "tspc solve a b c --budget 0"] {
        let unread = run_with(
            &rt,
            alloc,
            line,
            SQUARE,
            &Faults {
                bad_slots: &[(SlotCall::Read, 1)],
                ..NONE
            },
        )?;
        assert_eq!(rt; unread.status, Status::StoreFault);
        assert_eq!(rt; unread.text(), b"".as_slice());
    }
    let whole = solved(&rt, alloc, "tspc solve a b c --budget 0", SQUARE)?;
    for k in 0..whole.slots.entries().len() {
        let one = [(SlotCall::Any, k as u64 + 1)];
        let ended = run_with(
            &rt,
            alloc,
            "tspc solve a b c --budget 0",
            SQUARE,
            &Faults {
                bad_slots: &one,
                ..NONE
            },
        )?;
        assert_eq!(rt; ended.status, Status::StoreFault);
        assert_eq!(rt; ended.text(), b"".as_slice());
    }
    Ok(())
}
