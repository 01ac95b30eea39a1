use ports::{
    Desk, Failed, Fate, FileDesk, FileSlots, Gate, Inlet, MemDesk, MemSlots, OpenGate, Outlet,
    PlainPosts, Point, Posts, ReadError, Room, SlotCall, SlotEntry, Slots, read_to_end, write_all,
};
use std::alloc::{AllocError, Global};
use std::fs;
use std::test::Fail;

const TEXT: &[u8] = b"DIMENSION : 4\nEOF\n";

const ROOM: Room = Room {
    bytes: 64,
    paths: 16,
    calls: 64,
};

// A desk with `TEXT` to read, whose reads and writes have this greatest size.
fn desk_of(
    alloc: Global,
    most: usize,
    bad_read: u64,
    bad_write: u64,
) -> Result<MemDesk, AllocError> {
    let size = most.max(1);
    MemDesk::new(
        alloc,
        TEXT,
        b"",
        size,
        size,
        &[],
        &[bad_read],
        &[bad_write],
        ROOM,
    )
}

#[test]
fn a_failing_read_fails_the_transfer(rt: HostRuntime) -> Result<(), Fail> {
    let alloc = rt.alloc();
    // 18 bytes and the end take 19 reads of 1, 4 of 7 and 2 of 4096.
    for (most, reads) in [(1, 19), (7, 4), (4096, 2)] {
        for bad in 1..reads + 2 {
            let mut desk = desk_of(alloc, most, bad, 0)?;
            let read = read_to_end(alloc, &mut desk, Inlet::Instance, 64);
            if bad > reads {
                assert_eq!(rt; read?.as_slice(), TEXT);
                assert_eq!(rt; desk.read_faults(), 0);
            } else {
                assert_eq!(rt; read.err(), Some(ReadError::Failed));
                assert_eq!(rt; desk.read_faults(), 1);
                let left = TEXT
                    .len()
                    .saturating_sub(most.saturating_mul(bad as usize - 1));
                assert_eq!(rt; desk.left(Inlet::Instance).len(), left);
            }
        }
    }
    Ok(())
}

#[test]
fn the_limit_is_exact(rt: HostRuntime) -> Result<(), Fail> {
    let alloc = rt.alloc();
    let mut desk = desk_of(alloc, 4096, 0, 0)?;
    assert_eq!(rt;
        read_to_end(alloc, &mut desk, Inlet::Instance, 18)?.as_slice(),
        TEXT
    );
    let mut desk = desk_of(alloc, 4096, 0, 0)?;
    let read = read_to_end(alloc, &mut desk, Inlet::Instance, 16);
    assert_eq!(rt; read.err(), Some(ReadError::TooLong));
    assert_eq!(rt; desk.left(Inlet::Instance), b"\n".as_slice());
    Ok(())
}

#[test]
fn a_failing_write_leaves_a_front(rt: HostRuntime) -> Result<(), Fail> {
    let alloc = rt.alloc();
    for (most, writes) in [(1, 18), (7, 3), (4096, 1)] {
        for bad in 1..writes + 2 {
            let mut desk = desk_of(alloc, most, 0, bad)?;
            let wrote = write_all(&mut desk, Outlet::Proof, TEXT);
            assert_eq!(rt; wrote.is_ok(), bad > writes);
            assert_eq!(rt; desk.write_faults(), u64::from(wrote.is_err()));
            let count = TEXT.len().min(most.saturating_mul(bad as usize - 1));
            assert_eq!(rt; desk.proof(), TEXT.get(..count).unwrap_or(b""));
            assert_eq!(rt; desk.text(), b"".as_slice());
        }
    }
    Ok(())
}

// Calls whose contracts a test has no need of.
fn bind(desk: &mut MemDesk, from: Option<Inlet>, path: &str) -> bool {
    match from {
        Some(from) => desk.bind_in(from, path).is_ok(),
        None => desk.bind_out(Outlet::Proof, path).is_ok(),
    }
}

fn write(desk: &mut MemDesk, to: Outlet, piece: &[u8]) -> Option<usize> {
    desk.write(to, piece).ok()
}

fn call(slots: &mut MemSlots, call: SlotCall, slot: bool, pos: u64, text: &str) -> bool {
    let slot = u8::from(slot);
    let mut buf = [0u8; 4];
    match call {
        SlotCall::Bind => slots.bind(text).is_ok(),
        SlotCall::Write => slots.write_at(slot, pos, text.as_bytes()).is_ok(),
        SlotCall::Sync => slots.sync(slot).is_ok(),
        SlotCall::Read | SlotCall::Any => slots.read_at(slot, pos, &mut buf) == Ok(3),
    }
}

#[test]
fn a_desk_binds_as_long_as_there_is_room(rt: HostRuntime) -> Result<(), Fail> {
    let room = Room {
        bytes: 0,
        paths: 3,
        calls: 5,
    };
    let mut desk = MemDesk::new(rt.alloc(), b"", b"ab", 9, 9, &[3], &[], &[], room)?;
    for (from, path, works) in [
        (Some(Inlet::Proof), "", true),
        (Some(Inlet::Proof), "in", true),
        (Some(Inlet::Instance), "x", false),
        (None, "xy", false),
        (None, "x", true),
        (None, "", false),
    ] {
        assert_eq!(rt; bind(&mut desk, from, path), works, "{path}");
    }
    assert_eq!(rt;
        desk.inlet_path(Inlet::Proof).unwrap_or(b"none"),
        b"in".as_slice()
    );
    assert_eq!(rt; desk.inlet_path(Inlet::Instance).is_none(), true);
    assert_eq!(rt; desk.proof_path().unwrap_or(b"none"), b"x".as_slice());
    assert_eq!(rt; desk.inlet_binds(Inlet::Proof), 2);
    assert_eq!(rt; desk.inlet_binds(Inlet::Instance), 0);
    assert_eq!(rt; desk.proof_binds(), 1);
    assert_eq!(rt; desk.left(Inlet::Proof), b"ab".as_slice());
    assert_eq!(rt; (desk.read_faults(), desk.write_faults()), (1, 2));
    Ok(())
}

#[test]
fn a_desk_writes_as_long_as_there_is_room(rt: HostRuntime) -> Result<(), Fail> {
    let room = Room {
        bytes: 5,
        paths: 0,
        calls: 4,
    };
    let mut desk = MemDesk::new(rt.alloc(), b"", b"", 9, 9, &[], &[], &[], room)?;
    for (to, piece, count) in [
        (Outlet::Text, "abc", Some(3)),
        (Outlet::Proof, "defg", Some(2)),
        (Outlet::Text, "h", None),
        (Outlet::Text, "", Some(0)),
        (Outlet::Text, "", None),
    ] {
        assert_eq!(rt; write(&mut desk, to, piece.as_bytes()), count, "{piece}");
    }
    assert_eq!(rt; desk.text(), b"abc".as_slice());
    assert_eq!(rt; desk.proof(), b"de".as_slice());
    assert_eq!(rt; desk.write_faults(), 2);
    let none_left = Room {
        bytes: 0,
        paths: 0,
        calls: 0,
    };
    assert_eq!(rt; desk.room(), none_left);
    Ok(())
}

#[test]
fn named_slot_calls_fail(rt: HostRuntime) -> Result<(), Fail> {
    let bad = [
        (SlotCall::Write, 2),
        (SlotCall::Any, 6),
        (SlotCall::Bind, 3),
    ];
    let mut slots = MemSlots::new(rt.alloc(), b"abc", b"", &bad, ROOM)?;
    for (kind, slot, pos, text, works) in [
        (SlotCall::Bind, false, 0, "p", true),
        (SlotCall::Write, false, 1, "xyz", true),
        (SlotCall::Write, true, 0, "no", false),
        (SlotCall::Write, true, 2, "yes", true),
        (SlotCall::Sync, true, 0, "", true),
        (SlotCall::Sync, false, 0, "", false),
        (SlotCall::Read, false, 1, "", true),
    ] {
        assert_eq!(rt; call(&mut slots, kind, slot, pos, text), works, "{text}");
    }
    assert_eq!(rt; slots.slot(0), b"axyz".as_slice());
    assert_eq!(rt; slots.slot(1), b"\0\0yes".as_slice());
    assert_eq!(rt; slots.written(), b"xyzyes".as_slice());
    assert_eq!(rt; slots.path().unwrap_or(b"none"), b"p".as_slice());
    assert_eq!(rt; slots.binds(), 1);
    assert_eq!(rt; slots.faults(), 2);
    let read = SlotEntry {
        call: SlotCall::Read,
        slot: 0,
        pos: 1,
        len: 4,
        failed: false,
    };
    assert_eq!(rt; slots.entries().last().copied(), Some(read));
    Ok(())
}

#[test]
fn each_slot_call_can_fail(rt: HostRuntime) -> Result<(), Fail> {
    for bad in 1..7u64 {
        let mut slots = MemSlots::new(rt.alloc(), b"abc", b"", &[(SlotCall::Any, bad)], ROOM)?;
        let mut number = 0u64;
        for (kind, text) in [
            (SlotCall::Bind, "p"),
            (SlotCall::Write, "xyz"),
            (SlotCall::Sync, ""),
            (SlotCall::Read, ""),
            (SlotCall::Write, "xyz"),
        ] {
            number = number.saturating_add(1);
            assert_eq!(rt;
                call(&mut slots, kind, false, 0, text),
                number != bad,
                "{bad}"
            );
        }
        assert_eq!(rt; slots.faults(), u64::from(bad < 6));
    }
    Ok(())
}

#[test]
fn slots_run_out_of_room(rt: HostRuntime) -> Result<(), Fail> {
    let room = Room {
        bytes: 4,
        paths: 0,
        calls: 4,
    };
    let mut slots = MemSlots::new(rt.alloc(), b"ab", b"", &[], room)?;
    for (kind, slot, pos, text, works) in [
        (SlotCall::Bind, false, 0, "p", false),
        (SlotCall::Write, false, 5, "xy", false),
        (SlotCall::Write, false, 4, "xy", true),
        (SlotCall::Sync, false, 0, "", true),
        (SlotCall::Sync, false, 0, "", false),
    ] {
        assert_eq!(rt; call(&mut slots, kind, slot, pos, text), works, "{text}");
    }
    assert_eq!(rt; slots.slot(0), b"ab\0\0xy".as_slice());
    assert_eq!(rt; (slots.faults(), slots.binds()), (3, 0));
    assert_eq!(rt; slots.entries().len(), 4);
    Ok(())
}

#[test]
fn a_desk_over_real_files(rt: HostRuntime) -> Result<(), Fail> {
    let alloc = rt.alloc();
    let mut desk = FileDesk::new(rt.clone()?);
    assert_eq!(rt;
        read_to_end(alloc, &mut desk, Inlet::Proof, 9).err(),
        Some(ReadError::Failed)
    );
    assert_eq!(rt; desk.bind_in(Inlet::Proof, "no_such_file"), Err(Failed));
    assert_eq!(rt; desk.write(Outlet::Proof, b"x"), Err(Failed));
    assert_eq!(rt; (desk.read_faults(), desk.write_faults()), (2, 1));

    let long = vec![in alloc; 7u8; 200_000]?;
    desk.bind_out(Outlet::Proof, "desk_test.out")?;
    write_all(&mut desk, Outlet::Proof, &long)?;
    write_all(&mut desk, Outlet::Text, b"printed\n")?;
    desk.bind_in(Inlet::Proof, "desk_test.out")?;
    assert_eq!(rt;
        read_to_end(alloc, &mut desk, Inlet::Proof, 200_000)?.as_slice(),
        long.as_slice()
    );
    assert_eq!(rt; (desk.read_faults(), desk.write_faults()), (2, 1));
    fs::remove_file(&rt, "desk_test.out")?;
    Ok(())
}

#[test]
fn slots_over_real_files(rt: HostRuntime) -> Result<(), Fail> {
    let mut slots = FileSlots::new(rt.alloc(), rt.clone()?)?;
    let mut buf = [0u8; 8];
    assert_eq!(rt; slots.read_at(0, 0, &mut buf), Err(Failed));
    slots.bind("slots_test")?;
    assert_eq!(rt; slots.read_at(0, 0, &mut buf), Ok(0));
    assert_eq!(rt; slots.sync(0), Ok(()));
    assert_eq!(rt; fs::exists(&rt, "slots_test.0")?, false);

    slots.write_at(1, 2, b"abc")?;
    slots.write_at(1, 0, b"x")?;
    slots.sync(1)?;
    assert_eq!(rt; fs::exists(&rt, "slots_test.0")?, false);
    let mut again = FileSlots::new(rt.alloc(), rt.clone()?)?;
    again.bind("slots_test")?;
    assert_eq!(rt; again.read_at(1, 0, &mut buf), Ok(5));
    assert_eq!(rt; buf, *b"x\0abc\0\0\0");
    assert_eq!(rt; again.read_at(1, 5, &mut buf), Ok(0));
    // the last place of all, to which no file reaches and the system does not go
    assert_eq!(rt; again.read_at(1, u64::MAX, &mut buf), Ok(0));
    assert_eq!(rt; (slots.faults(), again.faults()), (1, 0));

    slots.bind("no_such_folder/slots")?;
    assert_eq!(rt; slots.write_at(0, 0, b"x"), Err(Failed));
    assert_eq!(rt; slots.faults(), 2);
    fs::remove_file(&rt, "slots_test.1")?;
    Ok(())
}

#[test]
fn leases_have_the_fates_of_plain_rules(rt: HostRuntime) -> Result<(), Fail> {
    let plain = PlainPosts {
        lose: 2,
        twice: true,
        late: false,
    };
    assert_eq!(rt; plain.fate(0), Fate::Never);
    assert_eq!(rt; plain.fate(1), Fate::Never);
    assert_eq!(rt; plain.fate(2), Fate::Twice);
    let late = PlainPosts {
        lose: 0,
        twice: true,
        late: true,
    };
    assert_eq!(rt; late.fate(0), Fate::Late);
    assert_eq!(rt; Fate::Once.worse(Fate::Twice), Fate::Twice);
    assert_eq!(rt; Fate::Late.worse(Fate::Twice), Fate::Late);
    assert_eq!(rt; Fate::Late.worse(Fate::Never), Fate::Never);
    assert_eq!(rt; Fate::Once.worse(Fate::Once), Fate::Once);
    OpenGate.pass(1, 0, Point::BeforeAsk);
    OpenGate.stands(40, 1, 0, Some(0));
    Ok(())
}
