//! Saves that crashes cut off, by the record of the calls of slots in memory.
use super::*;

/// A slot as a crash finds it: what was written, what the last sync kept, and which bytes were written since.
#[derive(Drop)]
struct Disk {
    now: Vec<u8>,
    kept: Vec<u8>,
    loose: Vec<bool>,
}

/// What stands in bytes that a crash may change.
#[derive(Clone, Copy)]
enum Filling {
    Zeros,
    Old,
    New,
    Mixed,
    Drawn(u64),
}

const FILLINGS: [Filling; 4] = [Filling::Zeros, Filling::Old, Filling::New, Filling::Mixed];

impl Disk {
    fn new(alloc: Global, bytes: &[u8]) -> Result<Disk, AllocError> {
        let mut loose = Vec::new(alloc);
        loose.resize(bytes.len(), false)?;
        Ok(Disk {
            now: Vec::from_slice(alloc, bytes)?,
            kept: Vec::from_slice(alloc, bytes)?,
            loose,
        })
    }

    /// Marks a range as written.
    fn loosen(&mut self, pos: usize, len: usize) -> Result<(), AllocError> {
        let end = pos.saturating_add(len);
        if self.now.len() < end {
            self.now.resize(end, 0)?;
        }
        if self.loose.len() < end {
            self.loose.resize(end, true)?;
        }
        for i in pos..end {
            if let Some(loose) = self.loose.get_mut(i) {
                *loose = true;
            }
        }
        Ok(())
    }

    fn write(&mut self, pos: usize, piece: &[u8]) -> Result<(), AllocError> {
        self.loosen(pos, piece.len())?;
        for (i, byte) in piece.iter().enumerate() {
            if let Some(old) = self.now.get_mut(pos.saturating_add(i)) {
                *old = *byte;
            }
        }
        Ok(())
    }

    fn sync(&mut self, alloc: Global) -> Result<(), AllocError> {
        self.kept = Vec::from_slice(alloc, &self.now)?;
        self.loose.clear();
        self.loose.resize(self.now.len(), false)
    }

    /// What a crash leaves, with this filling, and of what stands past the old end no more than this.
    fn image(
        &self,
        alloc: Global,
        filling: Filling,
        past_end: usize,
    ) -> Result<Vec<u8>, AllocError> {
        let mut image = Vec::new(alloc);
        let mut draw = Draw { state: 1 };
        if let Filling::Drawn(seed) = filling {
            draw.state = seed;
        }
        let size = self.kept.len().saturating_add(past_end);
        for (i, (new, loose)) in self.now.iter().zip(&self.loose).enumerate().take(size) {
            let old = self.kept.get(i).copied().unwrap_or(0);
            image.push(if *loose {
                filled(filling, &mut draw, i, old, *new)
            } else {
                *new
            })?;
        }
        Ok(image)
    }
}

fn filled(filling: Filling, draw: &mut Draw, i: usize, old: u8, new: u8) -> u8 {
    match filling {
        Filling::Zeros => 0,
        Filling::Old => old,
        Filling::New => new,
        Filling::Mixed => { if i % 2 == 0 { new } else { old } }
        Filling::Drawn(_) => match draw.below(4) {
            0 => 0,
            1 => old,
            2 => new,
            _ => 1,
        },
    }
}

/// A plain generator.
#[derive(Clone, Copy)]
struct Draw {
    state: u64,
}

impl Draw {
    fn below(&mut self, end: u64) -> u64 {
        self.state = self
            .state
            .wrapping_mul(6364136223846793005)
            .wrapping_add(1442695040888963407);
        (self.state >> 33).checked_rem(end).unwrap_or(0)
    }
}

/// Both slots after so many calls, by their record; of a call that failed, its range was written.
fn after_calls(
    alloc: Global,
    slot0: &[u8],
    slot1: &[u8],
    slots: &MemSlots,
    count: usize,
) -> Result<(Disk, Disk), AllocError> {
    let mut first = Disk::new(alloc, slot0)?;
    let mut second = Disk::new(alloc, slot1)?;
    let mut at = 0usize;
    for entry in slots.entries().iter().take(count) {
        let disk = if entry.slot == 0 {
            &mut first
        } else {
            &mut second
        };
        match (entry.call, entry.failed) {
            (SlotCall::Write, false) => {
                let end = at.saturating_add(entry.len);
                disk.write(
                    entry.pos as usize,
                    slots.written().get(at..end).unwrap_or(b""),
                )?;
                at = end;
            }
            (SlotCall::Write, true) => disk.loosen(entry.pos as usize, entry.len)?,
            (SlotCall::Sync, false) => disk.sync(alloc)?,
            _ => {}
        }
    }
    Ok((first, second))
}

/// What a store finds on slots with these bytes.
fn found(alloc: Global, slot0: &[u8], slot1: &[u8]) -> Result<Option<Vec<u8>>, LoadError> {
    let mut slots = slots_of(alloc, slot0, slot1)?;
    match begins(&mut slots) {
        Some(store) => loads(&store, alloc, &mut slots),
        None => Err(LoadError::StoreFault),
    }
}

#[test]
fn a_save_that_is_cut_off_leaves_the_old_body_or_the_new_one(rt: HostRuntime) -> Result<(), Fail> {
    let alloc = rt.alloc();
    let zero = b"\x01\0\0\0\0\0\0\0\0\x05first".as_slice();
    let torn = b"\x07\x01\0\0\0\0\0\0\0\x02b".as_slice();
    let mut cases = 0u32;
    for (slot0, slot1, start) in [
        (b"".as_slice(), b"".as_slice(), None),
        (zero, torn, Some(b"first".as_slice())),
    ] {
        let mut slots = slots_of(alloc, slot0, slot1)?;
        let mut store = begins(&mut slots).expect(&rt, "no call fails");
        let begun = slots.entries().len();
        assert!(rt; saves(&mut store, &mut slots, b"a body"));
        let saved = slots.entries().len();
        assert!(rt; saves(&mut store, &mut slots, BODY));
        let ended = slots.entries().len();
        for count in 0..ended + 1 {
            let (first, second) = after_calls(alloc, slot0, slot1, &slots, count)?;
            for filling in FILLINGS {
                for past_end in [0, 1, 7, 12, 1000] {
                    let left0 = first.image(alloc, filling, past_end)?;
                    let left1 = second.image(alloc, filling, past_end)?;
                    let body = found(alloc, &left0, &left1);
                    let is_old = if count <= begun {
                        is_body(&body, start)
                    } else if count < saved {
                        is_body(&body, start) || is_body(&body, Some(b"a body"))
                    } else {
                        is_body(&body, Some(b"a body"))
                    };
                    let is_new = count > saved && is_body(&body, Some(BODY));
                    assert!(rt; is_new || (is_old && count < ended), "{count} {past_end}");
                    cases = cases.saturating_add(1);
                }
            }
        }
    }
    assert!(rt; cases > 800);
    Ok(())
}

/// The body of a number.
fn body_of(alloc: Global, number: u8) -> Result<Vec<u8>, AllocError> {
    vec![in alloc; number; usize::from(number % 13)]
}

/// What may be loaded: the body last acknowledged or found, those handed in since, and the one that the last call acknowledged.
#[derive(Drop)]
struct Expected {
    bodies: Vec<Option<Vec<u8>>>,
    acknowledged: Option<Option<Vec<u8>>>,
}

impl Expected {
    fn has(&self, body: &Result<Option<Vec<u8>>, LoadError>) -> bool {
        self.bodies.iter().chain(self.acknowledged.iter()).any(|one| is_body(
            body,
            one.as_ref().map(|items| items.as_slice()),
        ))
    }

    /// The last call has returned, and no crash came before that.
    fn settle(&mut self) -> Result<(), AllocError> {
        if let Some(body) = self.acknowledged.take() {
            self.bodies.clear();
            self.bodies.push(body)?;
        }
        Ok(())
    }
}

/// A process on slots with these bytes, whose calls fail now and then, until a crash at a moment of its last call; and what that
/// leaves. `None` where something was loaded that is not expected.
fn lives(
    alloc: Global,
    draw: &mut Draw,
    slot0: &[u8],
    slot1: &[u8],
    expected: &mut Expected,
) -> Result<Option<(Vec<u8>, Vec<u8>)>, AllocError> {
    let bad = [
        (SlotCall::Any, draw.below(40)),
        (SlotCall::Any, draw.below(80)),
    ];
    let mut slots = MemSlots::new(alloc, slot0, slot1, &bad, ROOM)?;
    let mut store = None;
    let mut start = 0usize;
    'calls: for _ in 0..draw.below(7) {
        expected.settle()?;
        start = slots.entries().len();
        match &mut store {
            Some(store) if draw.below(4) > 0 => {
                let body = body_of(alloc, u8::try_from(draw.below(200)).unwrap_or(0))?;
                if saves(store, &mut slots, &body) {
                    expected.acknowledged = Some(Some(body));
                } else {
                    expected.bodies.push(Some(body))?;
                }
            }
            Some(begun) => {
                let loaded = loads(begun, alloc, &mut slots);
                if !expected.has(&loaded) && !matches!(loaded, Err(LoadError::StoreFault)) {
                    return Ok(None);
                }
                if draw.below(3) == 0 {
                    store = None;
                }
            }
            None => store = begins(&mut slots),
        }
    }
    let calls = slots.entries().len();
    let count = start.saturating_add(draw.below(calls.saturating_sub(start) as u64 + 1) as usize);
    if count == calls {
        expected.settle()?;
    }
    let (first, second) = after_calls(alloc, slot0, slot1, &slots, count)?;
    let left0 = first.image(
        alloc,
        Filling::Drawn(draw.below(1 << 30)),
        draw.below(30) as usize,
    )?;
    let left1 = second.image(
        alloc,
        Filling::Drawn(draw.below(1 << 30)),
        draw.below(30) as usize,
    )?;
    Ok(Some((left0, left1)))
}

#[test]
fn ten_thousand_lists_of_calls_and_crashes_lose_nothing(rt: HostRuntime) -> Result<(), Fail> {
    let alloc = rt.alloc();
    let mut draw = Draw { state: 20 };
    for list in 0..10_000u32 {
        let mut expected = Expected {
            bodies: vec![in alloc; None]?,
            acknowledged: None,
        };
        let mut left0 = Vec::new(alloc);
        let mut left1 = Vec::new(alloc);
        for _ in 0..3u32 {
            let left = lives(alloc, &mut draw, &left0, &left1, &mut expected)?;
            (left0, left1) = left.expect(&rt, "what is loaded is expected");
            let body = found(alloc, &left0, &left1);
            assert!(rt; expected.has(&body), "{list}");
            if let Ok(body) = body {
                expected.acknowledged = Some(body);
            }
            expected.settle()?;
        }
    }
    Ok(())
}
