use ports::{MemSlots, Room, SlotCall, SlotEntry};
use slotstore::{LoadError, Store};
use std::alloc::{AllocError, Global};
use std::test::Fail;

mod crashes;

ghost use Rattle.std.specs.Prelude.{◌≡◌, IfSome, Some};
ghost use Rattle.ports.specs.MemSlots.{told_of};
ghost use Rattle.slotstore.specs.Standing.{StandsFor};

/// The body that the search of the square leaves with no budget.
const BODY: &[u8] = b"TSPCERT 1\nN 4\nLENGTH 40\nTOUR 1 2 3 4\nCUTS 0\nO\n";

const ROOM: Room = Room {
    bytes: 1024,
    paths: 0,
    calls: 256,
};

fn slots_of(alloc: Global, slot0: &[u8], slot1: &[u8]) -> Result<MemSlots, AllocError> {
    MemSlots::new(alloc, slot0, slot1, &[], ROOM)
}

/// A store on slots, unless a call of theirs fails.
fn begins(slots: &mut MemSlots) -> Option<Store>
    ensures { IfSome result (λ store. StandsFor store (told_of slots.new)) }
{
    Store::begin(slots).ok()
}

fn saves(store: &mut Store, slots: &mut MemSlots, body: &[u8]) -> bool
    requires { StandsFor store.old (told_of slots.old) }
    ensures { StandsFor store.new (told_of slots.new) }
{
    store.save(slots, body).is_ok()
}

/// The body that is loaded, or what kept it from that.
fn loads(store: &Store, alloc: Global, slots: &mut MemSlots) -> Result<Option<Vec<u8>>, LoadError>
    requires { StandsFor store.now (told_of slots.old) }
    ensures { told_of slots.new ≡ told_of slots.old }
{
    store.load(alloc, slots)
}

fn is_body(loaded: &Result<Option<Vec<u8>>, LoadError>, body: Option<&[u8]>) -> bool {
    match (loaded, body) {
        (Ok(None), None) => true,
        (Ok(Some(loaded)), Some(body)) => loaded.as_slice() == body,
        _ => false,
    }
}

#[test]
fn a_store_on_empty_slots(rt: HostRuntime) -> Result<(), Fail> {
    let alloc = rt.alloc();
    let mut slots = slots_of(alloc, b"", b"")?;
    let mut store = begins(&mut slots).expect(&rt, "no call fails");
    assert!(rt; is_body(&loads(&store, alloc, &mut slots), None));
    assert!(rt; saves(&mut store, &mut slots, BODY));
    assert!(rt; is_body(&loads(&store, alloc, &mut slots), Some(BODY)));
    assert_eq!(rt;
        slots.slot(0),
        b"\x01\x00\x00\x00\x00\x00\x00\x00\x00\x2eTSPCERT 1\nN 4\nLENGTH 40\nTOUR 1 2 3 4\nCUTS 0\nO\n".as_slice()
    );
    assert_eq!(rt; slots.slot(1), b"".as_slice());
    assert!(rt; saves(&mut store, &mut slots, b""));
    assert!(rt; is_body(&loads(&store, alloc, &mut slots), Some(b"")));
    assert_eq!(rt; slots.slot(1), b"\x01\x01\0\0\0\0\0\0\0\0".as_slice());
    assert!(rt; saves(&mut store, &mut slots, b"third"));
    assert_eq!(rt;
        slots.slot(0),
        b"\x01\x02\0\0\0\0\0\0\0\x05thirdRT 1\nN 4\nLENGTH 40\nTOUR 1 2 3 4\nCUTS 0\nO\n".as_slice()
    );
    assert!(rt; is_body(&loads(&store, alloc, &mut slots), Some(b"third")));
    assert!(rt; saves(&mut store, &mut slots, b"4"));
    assert_eq!(rt; slots.slot(1), b"\x01\0\0\0\0\0\0\0\0\x014".as_slice());
    assert!(rt; is_body(&loads(&store, alloc, &mut slots), Some(b"4")));
    Ok(())
}

#[test]
fn the_gate_opens_after_the_body_is_synced(rt: HostRuntime) -> Result<(), Fail> {
    let mut slots = slots_of(
        rt.alloc(),
        b"\x01\0\0\0\0\0\0\0\0\0",
        b"\x01\x01\0\0\0\0\0\0\0\0",
    )?;
    let mut store = begins(&mut slots).expect(&rt, "no call fails");
    assert!(rt; saves(&mut store, &mut slots, BODY));
    let calls = [
        (SlotCall::Sync, 0, 0, 0),
        (SlotCall::Sync, 1, 0, 0),
        (SlotCall::Read, 0, 0, 10),
        (SlotCall::Read, 0, 9, 1),
        (SlotCall::Read, 1, 0, 10),
        (SlotCall::Read, 1, 9, 1),
        (SlotCall::Read, 0, 0, 1),
        (SlotCall::Write, 0, 0, 1),
        (SlotCall::Sync, 0, 0, 0),
        (SlotCall::Write, 0, 1, 9),
        (SlotCall::Write, 0, 10, 46),
        (SlotCall::Sync, 0, 0, 0),
        (SlotCall::Write, 0, 0, 1),
        (SlotCall::Sync, 0, 0, 0),
    ];
    assert_eq!(rt; slots.entries().len(), calls.len());
    for (k, (call, slot, pos, len)) in calls.iter().enumerate() {
        let entry = SlotEntry {
            call: *call,
            slot: *slot,
            pos: *pos,
            len: *len,
            failed: false,
        };
        assert_eq!(rt; slots.entries().get(k).copied(), Some(entry), "{k}");
    }
    assert_eq!(rt; slots.written().first().copied(), Some(0));
    Ok(())
}

#[test]
fn the_newer_body_is_loaded_and_the_older_slot_written(rt: HostRuntime) -> Result<(), Fail> {
    let alloc = rt.alloc();
    let zero = b"\x01\0\0\0\0\0\0\0\0\x01a".as_slice();
    let one = b"\x01\x01\0\0\0\0\0\0\0\x01b".as_slice();
    let two = b"\x01\x02\0\0\0\0\0\0\0\x01c".as_slice();
    let shut = b"\0\x01\0\0\0\0\0\0\0\x01b".as_slice();
    let torn = b"\x01\x01\0\0\0\0\0\0\0\x02b".as_slice();
    let three = b"\x01\x03\0\0\0\0\0\0\0\x01b".as_slice();
    let long = b"\x01\x01\xff\xff\xff\xff\xff\xff\xff\xf6b".as_slice();
    let cut = b"\x01\x01\0\0\0\0\0\0\0".as_slice();
    let endless = b"\x01\0\xff\xff\xff\xff\xff\xff\xff\xff".as_slice();
    let empty = b"".as_slice();
    for (slot0, slot1, body, slot, number) in [
        (zero, one, Some(b"b".as_slice()), 0, 2),
        (two, zero, Some(b"a"), 0, 1),
        (one, zero, Some(b"b"), 1, 2),
        (zero, two, Some(b"a"), 1, 1),
        (one, one, Some(b"b"), 1, 2),
        (zero, shut, Some(b"a"), 1, 1),
        (zero, torn, Some(b"a"), 1, 1),
        (torn, zero, Some(b"a"), 0, 1),
        (zero, three, Some(b"a"), 1, 1),
        (zero, long, Some(b"a"), 1, 1),
        (zero, cut, Some(b"a"), 1, 1),
        (torn, shut, None, 0, 0),
        (empty, two, Some(b"c"), 0, 0),
        (endless, empty, None, 0, 0),
    ] {
        let mut slots = slots_of(alloc, slot0, slot1)?;
        let mut store = begins(&mut slots).expect(&rt, "no call fails");
        assert!(rt; is_body(&loads(&store, alloc, &mut slots), body));
        assert!(rt; saves(&mut store, &mut slots, b"new"));
        assert!(rt; is_body(&loads(&store, alloc, &mut slots), Some(b"new")));
        let (written, kept, old) = if slot == 0 {
            (slots.slot(0), slots.slot(1), slot1)
        } else {
            (slots.slot(1), slots.slot(0), slot0)
        };
        assert_eq!(rt; written.get(1).copied(), Some(number));
        assert_eq!(rt; written.get(10..13).unwrap_or(b""), b"new".as_slice());
        assert_eq!(rt; kept, old);
    }
    Ok(())
}

#[test]
fn each_failing_call_fails_its_call_of_the_store(rt: HostRuntime) -> Result<(), Fail> {
    let alloc = rt.alloc();
    let one = b"\x01\x01\0\0\0\0\0\0\0\x01b".as_slice();
    // A begin: two syncs, two reads of slot 0 and one of slot 1. A save: a read, four writes and three syncs. A load: two reads.
    for bad in 1..16u64 {
        let mut slots = MemSlots::new(alloc, one, b"", &[(SlotCall::Any, bad)], ROOM)?;
        let Some(mut store) = begins(&mut slots) else {
            assert!(rt; bad < 6);
            continue;
        };
        assert!(rt; bad >= 6);
        assert_eq!(rt; saves(&mut store, &mut slots, BODY), bad >= 14, "{bad}");
        assert_eq!(rt; slots.slot(0), one);
        let loaded = loads(&store, alloc, &mut slots);
        let faulty = matches!(loaded, Err(LoadError::StoreFault));
        assert_eq!(rt; faulty, bad == 14 || bad == 15, "{bad}");
        assert_eq!(rt; slots.faults(), 1, "{bad}");
        // The store can be used on.
        assert!(rt; saves(&mut store, &mut slots, b"last"));
        assert!(rt; is_body(&loads(&store, alloc, &mut slots), Some(b"last")));
    }
    Ok(())
}

#[test]
fn a_save_makes_one_pass_over_the_body(rt: HostRuntime) -> Result<(), Fail> {
    let alloc = rt.alloc();
    let body = vec![in alloc; 7u8; 100_000]?;
    let room = Room {
        bytes: 200_000,
        paths: 0,
        calls: 64,
    };
    let mut slots = MemSlots::new(alloc, b"", b"", &[], room)?;
    let mut store = begins(&mut slots).expect(&rt, "no call fails");
    assert!(rt; saves(&mut store, &mut slots, &body));
    assert_eq!(rt; slots.written().len(), 100_011);
    let begun = slots.entries().len();
    assert!(rt; is_body(&loads(&store, alloc, &mut slots), Some(body.as_slice())));
    // The front, and pieces of 4,096 bytes.
    assert_eq!(rt; slots.entries().len().saturating_sub(begun), 26);
    Ok(())
}
