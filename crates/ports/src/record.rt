//! The record of the calls of slots in memory, and the calls that are to fail.
ghost use Rattle.std.specs.Prelude.{◌≡◌, ◌+◌, ◌-◌, ◌≤◌, not, IsTrue, length, vec_len, vec_capacity};
ghost use Rattle.std.specs.List.{list_any};
ghost use Rattle.ports.specs.Records.{is_kind, count_of, names, is_bad_call, noted};
ghost use Rattle.ports.specs.Calls.{faults_after};
ghost use Rattle.ports.specs.Outside.{Cause};

/// A kind of call. `Any` is used only to name calls by their number among all.
#[derive(Clone, Copy, Debug, PartialEq, Eq)]
pub enum SlotCall {
    Any,
    Bind,
    Read,
    Write,
    Sync,
}

/// A call of slots in memory.
#[derive(Clone, Copy, Debug, PartialEq, Eq)]
pub struct SlotEntry {
    /// Never `Any`.
    pub call: SlotCall,
    /// 0 or 1; 0 of a bind.
    pub slot: u8,
    /// The place read or written; 0 of a bind and a sync.
    pub pos: u64,
    /// The bytes of the path, the buffer or the piece; 0 of a sync.
    pub len: usize,
    pub failed: bool,
}

/// Two kinds are the same.
pub fn is_kind(a: SlotCall, b: SlotCall) -> bool
    ensures { result ≡ is_kind a b }
{
    a == b
}

/// How many calls of a kind are on record.
pub fn count_of(call: SlotCall, entries: &[SlotEntry]) -> usize
    ensures count { result ≡ count_of call entries.now }
    ensures within { result ≤ length entries.now }
{
    entries
        .iter()
        .filter(|entry| is_kind(entry.call, call))
        .count()
}

/// Whether the next call may go on: there is room for a call, and the list does not name it.
pub fn admits(room: usize, bad: &[(SlotCall, u64)], entries: &[SlotEntry], call: SlotCall) -> bool
    ensures { result ≡ not (is_bad_call room bad.now entries.now call) }
{
    room > 0
        && !is_named(
            bad,
            call,
            count_of(call, entries) as u64 + 1,
            entries.len() as u64 + 1,
        )
}

/// Puts a call on record, if there is room for one, and counts its fault.
pub fn note(entries: &mut Vec<SlotEntry>, room: &mut usize, faults: &mut u64, entry: SlotEntry)
    requires { vec_len entries.old + room.old ≤ vec_capacity entries.old }
    ensures entries { entries.new.items ≡ noted room.old entries.old.items entry }
    ensures fits { vec_len entries.new + room.new ≤ vec_capacity entries.new }
    ensures room { room.new ≡ room.old - 1 }
    ensures faults { faults.new ≡ faults_after entry.failed faults.old }
    ensures cause { Cause (IsTrue entry.failed) faults.old faults.new }
{
    if *room > 0 {
        *room -= 1;
        entries.push_reserved(entry);
    }
    if entry.failed {
        *faults = faults.saturating_add(1);
    }
}

/// Whether a list names the call that has this number among its kind and that among all.
pub fn is_named(bad: &[(SlotCall, u64)], call: SlotCall, number: u64, any: u64) -> bool
    ensures { result ≡ list_any (names call number any) bad.now }
{
    bad.iter().any(|entry| names(*entry, call, number, any))
}

fn names(bad: (SlotCall, u64), call: SlotCall, number: u64, any: u64) -> bool
    ensures { result ≡ names call number any bad }
{
    is_kind(bad.0, call) && bad.1 == number || is_kind(bad.0, SlotCall::Any) && bad.1 == any
}
