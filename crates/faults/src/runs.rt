//! A run over a desk and slots in memory, with calls that are to fail.
ghost use Rattle.std.specs.Prelude.{◌<◌};

use crate::cases::Case;
use ports::{MemDesk, MemSlots, OpenGate, PlainPosts, Room, SlotCall};
use std::alloc::{AllocError, Global};
use std::sync::Wait;
use std::test::Fail;
use std::thread::Threads;
use tspengine::{Status, run};

const ROOM: Room = Room {
    bytes: 1 << 20,
    paths: 64,
    calls: 100_000,
};

/// Posts that lose, repeat and delay nothing.
const OPEN: PlainPosts = PlainPosts {
    lose: 0,
    twice: false,
    late: false,
};

/// More calls than any run makes that is tried here.
const MOST_CALLS: u64 = 2000;

/// What is to fail, and how many bytes a call moves at most.
#[derive(Clone, Copy, Drop)]
pub(crate) struct Faults<'a> {
    pub(crate) most: usize,
    pub(crate) bad_reads: &'a [u64],
    pub(crate) bad_writes: &'a [u64],
    pub(crate) bad_slots: &'a [(SlotCall, u64)],
}

/// Nothing fails.
pub(crate) const NONE: Faults<'static> = Faults {
    most: 4096,
    bad_reads: &[],
    bad_writes: &[],
    bad_slots: &[],
};

/// How a run ended, and what it left.
#[derive(Drop)]
pub(crate) struct Ending {
    pub(crate) status: Status,
    pub(crate) text: Vec<u8>,
    pub(crate) proof: Vec<u8>,
    pub(crate) slots: [Vec<u8>; 2],
}

fn words(alloc: Global, line: &str) -> Result<Vec<String>, AllocError> {
    let mut words = Vec::new(alloc);
    for word in line.split(' ') {
        words.push(format!(in alloc; "{word}")?)?;
    }
    Ok(words)
}

fn desk(alloc: Global, case: &Case<'_>, faults: &Faults<'_>) -> Result<MemDesk, Fail> {
    if faults.most == 0 {
        return Err("no byte can be moved".into());
    }
    Ok(MemDesk::new(
        alloc,
        case.instance.as_bytes(),
        case.proof,
        faults.most,
        faults.most,
        &[],
        faults.bad_reads,
        faults.bad_writes,
        ROOM,
    )?)
}

/// Runs a case. Without a contract, so that those who call it need not look at all that a run promises.
pub(crate) fn ended<R: Threads + Wait + Sync>(
    rt: &R,
    alloc: Global,
    case: &Case<'_>,
    faults: &Faults<'_>,
) -> Result<Ending, Fail> {
    let mut desk = desk(alloc, case, faults)?;
    let mut slots = MemSlots::new(alloc, case.slot, b"", faults.bad_slots, ROOM)?;
    let words = words(alloc, case.line)?;
    let status = run(rt, alloc, &words, &mut desk, &mut slots, &OPEN, &OpenGate);
    Ok(Ending {
        status,
        text: Vec::from_slice(alloc, desk.text())?,
        proof: Vec::from_slice(alloc, desk.proof())?,
        slots: [
            Vec::from_slice(alloc, slots.slot(0))?,
            Vec::from_slice(alloc, slots.slot(1))?,
        ],
    })
}

/// Whether two runs ended alike and left the same.
pub(crate) fn are_alike(one: &Ending, other: &Ending) -> bool {
    one.status == other.status
        && one.text == other.text
        && one.proof == other.proof
        && one.slots == other.slots
}

/// Whether what a run that was broken off printed and wrote is a front of what the whole run did.
pub(crate) fn is_front(cut: &Ending, whole: &Ending) -> bool {
    whole.proof.starts_with(cut.proof.as_slice()) && whole.text.starts_with(cut.text.as_slice())
}

/// The kinds of calls that fail.
#[derive(Clone, Copy, PartialEq, Eq)]
pub(crate) enum Kind {
    Read,
    Write,
    Slot,
}

/// The run of a case whose k-th call of a kind fails, byte by byte where it is a write.
pub(crate) fn ended_at<R: Threads + Wait + Sync>(
    rt: &R,
    alloc: Global,
    case: &Case<'_>,
    kind: Kind,
    k: u64,
) -> Result<Ending, Fail> {
    let bad = [k];
    let bad_slots = [(SlotCall::Any, k)];
    match kind {
        Kind::Read => ended(
            rt,
            alloc,
            case,
            &Faults {
                bad_reads: &bad,
                ..NONE
            },
        ),
        Kind::Write => ended(
            rt,
            alloc,
            case,
            &Faults {
                most: 1,
                bad_writes: &bad,
                ..NONE
            },
        ),
        Kind::Slot => ended(
            rt,
            alloc,
            case,
            &Faults {
                bad_slots: &bad_slots,
                ..NONE
            },
        ),
    }
}

/// Whether a run whose call of a kind failed ended with the kind's status and left what it may: after a failing write a front, and else
/// no text, but of a tape.
fn is_told(case: &Case<'_>, kind: Kind, cut: &Ending, whole: &Ending) -> bool {
    match kind {
        Kind::Read => {
            cut.status == Status::ReadFault
                && is_front(cut, whole)
                && (cut.text.is_empty() || case.prints_as_it_reads)
        }
        Kind::Write => cut.status == Status::WriteFault && is_front(cut, whole),
        Kind::Slot => cut.status == Status::StoreFault
            && cut.text.is_empty()
            && cut.proof.is_empty(),
    }
}

/// Lets each call of a kind fail in its turn, until there is none of the number. How many there are, or nothing where a failing one is
/// not told as it should be.
pub(crate) fn count_told<R: Threads + Wait + Sync>(
    rt: &R,
    alloc: Global,
    case: &Case<'_>,
    kind: Kind,
) -> Result<Option<u64>, Fail> {
    let whole = ended(rt, alloc, case, &NONE)?;
    for k in 1..MOST_CALLS {
        let cut = ended_at(rt, alloc, case, kind, k)?;
        if are_alike(&cut, &whole) {
            return Ok(Some(k.saturating_sub(1)));
        }
        if !is_told(case, kind, &cut, &whole) {
            return Ok(None);
        }
    }
    Ok(None)
}

/// How many bytes a whole run wrote: the proof and the text.
pub(crate) fn written<R: Threads + Wait + Sync>(
    rt: &R,
    alloc: Global,
    case: &Case<'_>,
) -> Result<u64, Fail> {
    let whole = ended(rt, alloc, case, &NONE)?;
    Ok((whole.proof.len() as u64).saturating_add(whole.text.len() as u64))
}

/// Whether a run that moves a byte at a time ends as the whole one does, with this status.
pub(crate) fn is_same_by_bytes<R: Threads + Wait + Sync>(
    rt: &R,
    alloc: Global,
    case: &Case<'_>,
    status: Status,
) -> Result<bool, Fail> {
    let whole = ended(rt, alloc, case, &NONE)?;
    let bytes = ended(rt, alloc, case, &Faults { most: 1, ..NONE })?;
    Ok(whole.status == status && are_alike(&whole, &bytes))
}
