//! A tape of which one byte is another. It is answered as before up to the frame of that byte, and then to an end or to a fault, which a
//! plain reader of frames finds too, but for faults of texts.

use crate::squares::{Told, answers_by_bytes_within, answers_within, framed, text};
use std::alloc::Global;
use std::test::Fail;
use tapeboss::Fault;

/// Frames, as heads and texts, each with the line that is answered: one of each kind, and reports of each kind.
const WORKED: [(&[u8], &str, &str); 9] = [
    (b"\x01\0\0\0\x01", "", "LEASED 0 0 40\n"),
    (b"\x02\0\0\0\0", "CUTS 0\nK 2 1 2\n", "TAKEN\n"),
    (b"\x01\0\0\0\x02", "", "LEASED 1 1 40\n"),
    (
        b"\x02\0\0\0\x01",
        "CUTS 1\nS 2 1 2\nL 4 1 1\nP 1 5242880\nP 2 5242880\nP 3 5242880\nP 4 5242880\nY 1 1\nZ 1 1\n",
        "TAKEN\n",
    ),
    (b"\x05", "TOUR 1 2 3 4\n", "NOTSHORTER 40\n"),
    (b"\x04\0\0\0\0", "", "NOTHELD\n"),
    (b"\x03\0\0\0\x01", "", "NONE\n"),
    (b"\x02\0\0\0\x09", "CUTS 0\nE 1 3\n", "UNKNOWN\n"),
    (b"\x01\0\0\0\x01", "", "SPENT\n"),
];

const BUDGET: u32 = 2;

/// The frames as one tape.
fn worked(alloc: Global) -> Result<Vec<u8>, Fail> {
    let mut tape = Vec::new(alloc);
    for (head, said, _) in WORKED {
        tape.extend_from_slice(&framed(alloc, head, said)?)?;
    }
    Ok(tape)
}

/// How many frames end at or before a place.
fn frames_before(place: usize) -> u64 {
    let mut end = 0usize;
    let mut frames = 0u64;
    for (head, said, _) in WORKED {
        end = end
            .saturating_add(4)
            .saturating_add(head.len())
            .saturating_add(said.len());
        if end <= place {
            frames = frames.saturating_add(1);
        }
    }
    frames
}

/// The lines of so many frames.
fn first_lines(alloc: Global, frames: u64) -> Result<String, Fail> {
    let mut lines = String::new(alloc);
    let mut left = frames;
    for (_, _, line) in WORKED {
        if left > 0 {
            lines.push_str(line)?;
            left = left.saturating_sub(1);
        }
    }
    Ok(lines)
}

#[test]
fn the_worked_tape_is_answered(rt: HostRuntime) -> Result<(), Fail> {
    let alloc = rt.alloc();
    let got = answers_within(alloc, BUDGET, &worked(alloc)?)?;
    let mut lines = first_lines(alloc, 9)?;
    lines.push_str("END 2 1 40\n")?;
    assert_eq!(rt; text(&got), lines.as_str());
    Ok(())
}

// ---- the plain reader

/// What a plain reader finds: so many frames, and then the end or a fault.
#[derive(Clone, Copy)]
struct Found {
    frames: u64,
    fault: Option<Fault>,
}

/// The bytes of the frame that comes first, and those behind it.
fn split_frame(rest: &[u8]) -> Result<(&[u8], &[u8]), Fault> {
    if rest.len() < 4 {
        return Err(Fault::Truncated);
    }
    let (size, behind) = rest.split_at(4);
    let size = u32::from_be_bytes([size[0], size[1], size[2], size[3]]) as usize;
    if size == 0 || size > 16_777_216 {
        return Err(Fault::BadLength);
    }
    if behind.len() < size {
        return Err(Fault::Truncated);
    }
    Ok(behind.split_at(size))
}

fn is_grunt(args: &[u8]) -> bool {
    args == b"\0\0\0\x01".as_slice() || args == b"\0\0\0\x02".as_slice()
}

/// What is wrong with a frame, but for its text.
fn frame_fault(body: &[u8]) -> Option<Fault> {
    let Some((kind, args)) = body.split_first() else {
        return Some(Fault::BadKind);
    };
    match *kind {
        1 | 3 if args.len() != 4 => Some(Fault::BadKind),
        1 | 3 if is_grunt(args) => None,
        1 | 3 => Some(Fault::BadGrunt),
        2 if args.len() < 4 => Some(Fault::BadKind),
        4 if args.len() != 4 => Some(Fault::BadKind),
        2 | 4 | 5 => None,
        _ => Some(Fault::BadKind),
    }
}

fn read_plainly(tape: &[u8]) -> Found {
    let mut rest = tape;
    for frames in 0..1_000_000u64 {
        if rest.is_empty() {
            return Found {
                frames,
                fault: None,
            };
        }
        match split_frame(rest) {
            Err(fault) => return Found {
                frames,
                fault: Some(fault),
            },
            Ok((body, more)) => {
                if let Some(fault) = frame_fault(body) {
                    return Found {
                        frames,
                        fault: Some(fault),
                    };
                }
                rest = more;
            }
        }
    }
    Found {
        frames: 0,
        fault: None,
    }
}

/// Whether the frame with a number, from 1, has a text.
fn has_text(tape: &[u8], number: u64) -> bool {
    let mut rest = tape;
    for frame in 1..1_000_000u64 {
        let Ok((body, more)) = split_frame(rest) else {
            return false;
        };
        if frame == number {
            return matches!(body.first(), Some(2 | 5));
        }
        rest = more;
    }
    false
}

// ---- comparing

/// How many lines there are.
fn lines_of(told: &Told) -> u64 {
    let mut lines = 0u64;
    for byte in &told.lines {
        if *byte == 10 {
            lines = lines.saturating_add(1);
        }
    }
    lines
}

/// The last line that belongs to a fault.
fn fault_line(alloc: Global, fault: Fault, frame: u64) -> Result<String, Fail> {
    let number = match fault {
        Fault::BadLength => 1,
        Fault::BadKind => 2,
        Fault::BadText => 3,
        Fault::Truncated => 4,
        Fault::BadGrunt => 5,
        Fault::TooLong => 6,
    };
    Ok(format!(in alloc; "\nFRAME {number} {frame}\n")?)
}

/// Whether a fault is the first that the plain reader finds, or one of a text before that.
fn is_first_fault(tape: &[u8], fault: Fault, frame: u64) -> bool {
    let found = read_plainly(tape);
    if fault == Fault::BadText {
        return frame <= found.frames && has_text(tape, frame);
    }
    found.fault == Some(fault) && found.frames.saturating_add(1) == frame
}

/// Whether the end of an answer is right, where so many frames are as before.
fn ends_right(alloc: Global, tape: &[u8], got: &Told, before: u64) -> Result<bool, Fail> {
    match got.fault {
        None => {
            let found = read_plainly(tape);
            Ok(found.fault.is_none() && lines_of(got) == found.frames.saturating_add(1))
        }
        Some((fault, frame)) => {
            // (a line for each frame before, and the fault's)
            let mut lines = String::new(alloc);
            lines.push_str("\n")?;
            lines.push_str(text(got))?;
            let is_last = lines.ends_with(fault_line(alloc, fault, frame)?.as_str());
            Ok(
                is_last
                    && lines_of(got) == frame
                    && frame > before
                    && is_first_fault(tape, fault, frame),
            )
        }
    }
}

/// Whether a tape with another byte at this place is answered right, whole and byte by byte alike.
fn is_answered_right(alloc: Global, tape: &[u8], place: usize) -> Result<bool, Fail> {
    let whole = answers_within(alloc, BUDGET, tape)?;
    let bytes = answers_by_bytes_within(alloc, BUDGET, tape)?;
    let before = frames_before(place);
    Ok(
        text(&whole) == text(&bytes)
            && whole.fault == bytes.fault
            && text(&whole).starts_with(first_lines(alloc, before)?.as_str())
            && ends_right(alloc, tape, &whole, before)?,
    )
}

/// The first place, and how much was added there, at which the answer is not right.
fn first_wrong(alloc: Global) -> Result<Option<(usize, u8)>, Fail> {
    let mut tape = worked(alloc)?;
    for place in 0..tape.len() {
        for more in [1u8, 2, 8, 64, 255] {
            if place < tape.len() {
                let old = tape[place];
                tape[place] = old.wrapping_add(more);
                if !is_answered_right(alloc, &tape, place)? {
                    return Ok(Some((place, more)));
                }
                if place < tape.len() {
                    tape[place] = old;
                }
            }
        }
    }
    Ok(None)
}

#[test]
fn each_byte_changed_to_five_others_gives_an_answer(rt: HostRuntime) -> Result<(), Fail> {
    assert_eq!(rt; first_wrong(rt.alloc())?, None);
    Ok(())
}
