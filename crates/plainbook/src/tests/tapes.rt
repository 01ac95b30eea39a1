//! Drawn tapes, each fed in drawn pieces, and compared with the lines of what the plain book replies.

use super::frames::{put_call, put_frame, put_offer, put_report};
use super::spoken::{ALL_HEARD, Tally, line_of};
use super::texts::{can_be_said, report_text, tour_text};
use crate::{Draw, PlainBook, Said, Start, boss, five_points, number};
use bossx::Reply;
use distx::Kind;
use std::alloc::Global;
use std::test::Fail;
use tapeboss::{Fault, Tape, TapeError};

/// How many events a tape has.
const EVENTS: u32 = 100;

/// How many grunts a boss has.
const GRUNTS: u32 = 3;

/// An event of a tape.
#[derive(Drop)]
enum Act {
    Ask(u32),
    /// A report for a lease, with a cut that is not used, or without.
    Report(u32, Said, bool),
    Gone(u32),
    Expire(u32),
    Offer([u32; 5]),
}

// ---- drawing

/// Something that a text can say.
fn draw_said(draw: &mut Draw) -> Said {
    for _ in 0..64 {
        let said = draw.said();
        if can_be_said(&said) {
            return said;
        }
    }
    Said::Edge(0, 1)
}

fn draw_act(draw: &mut Draw, plain: &PlainBook) -> Act {
    let lease = draw.lease(number(plain.leases.len()));
    match draw.below(20) {
        0..=6 => Act::Ask(1 + draw.below(GRUNTS)),
        7..=13 => Act::Report(lease, draw_said(draw), draw.one_of(3)),
        14 | 15 => Act::Gone(1 + draw.below(GRUNTS)),
        16 => Act::Expire(lease),
        _ => Act::Offer(draw.tour()),
    }
}

// ---- what is fed

fn put_act(alloc: Global, out: &mut Vec<u8>, act: &Act) -> Result<(), Fail> {
    match act {
        Act::Ask(grunt) => put_call(out, 1, *grunt),
        Act::Report(lease, said, spare) => {
            put_report(alloc, out, *lease, &report_text(alloc, said, *spare)?)
        }
        Act::Gone(grunt) => put_call(out, 3, *grunt),
        Act::Expire(lease) => put_call(out, 4, *lease),
        Act::Offer(cities) => put_offer(alloc, out, &tour_text(alloc, cities)?),
    }
}

/// A frame of a length that is none.
fn put_bad_length(out: &mut Vec<u8>, draw: &mut Draw) -> Result<Fault, Fail> {
    let size = [0u32, 0x0100_0001, 0xffff_ffff][draw.below(3) as usize];
    out.extend_from_slice(&size.to_be_bytes())?;
    Ok(Fault::BadLength)
}

/// A frame of a kind that is none, or of a wrong size.
fn put_bad_kind(out: &mut Vec<u8>, draw: &mut Draw) -> Result<Fault, Fail> {
    let bodies: [&[u8]; 6] = [
        b"\x00\0\0\0\x01",
        b"\x06\0\0\0\x01",
        b"\x01\0\0\x01",
        b"\x03\0\0\0\x01\0",
        b"\x04\0\0\0",
        b"\x02\0\0\0",
    ];
    put_frame(out, bodies[draw.below(6) as usize])?;
    Ok(Fault::BadKind)
}

/// A report or a tour that is not of the form.
fn put_bad_text(alloc: Global, out: &mut Vec<u8>, draw: &mut Draw) -> Result<Fault, Fail> {
    let texts = [
        "CUTS 0\nE 3 1\n",
        "CUTS 0\nE 1 6\n",
        "CUTS 0\nE 1 2",
        "CUTS 0\nK 0\n",
        "CUTS 1\nS 5 1 2 3 4 5\nL 0 0 0\n",
        "CUTS 1\nS 1 1\nE 1 2\n",
        "CUTS 0\nL 0 0 2\nZ 2 1\nZ 2 1\n",
        "CUTS 0\nL 0 1 0\nY 1 1\n",
        "CUTS 0\nL 0 0 0\n\n",
    ];
    if draw.one_of(4) {
        put_offer(alloc, out, "TOUR 1 2 3 4 4\n")?;
    } else {
        put_report(alloc, out, draw.below(4), texts[draw.below(9) as usize])?;
    }
    Ok(Fault::BadText)
}

fn put_bad_grunt(out: &mut Vec<u8>, draw: &mut Draw) -> Result<Fault, Fail> {
    let kind = if draw.one_of(2) { 1 } else { 3 };
    let grunt = if draw.one_of(2) {
        0
    } else {
        GRUNTS + 1 + draw.below(1000)
    };
    put_call(out, kind, grunt)?;
    Ok(Fault::BadGrunt)
}

/// A frame that is not whole. What it says does not matter.
fn put_part(alloc: Global, out: &mut Vec<u8>, draw: &mut Draw, act: &Act) -> Result<Fault, Fail> {
    let mut frame = Vec::new(alloc);
    put_act(alloc, &mut frame, act)?;
    let count = 1 + draw.below(number(frame.len()).saturating_sub(1)) as usize;
    out.extend_from_slice(frame.get(..count).unwrap_or(&[]))?;
    Ok(Fault::Truncated)
}

/// A frame with a fault. Behind one that is whole there may be others, which are not heard.
fn put_fault(alloc: Global, out: &mut Vec<u8>, draw: &mut Draw, act: &Act) -> Result<Fault, Fail> {
    let fault = match draw.below(5) {
        0 => put_bad_length(out, draw)?,
        1 => put_bad_kind(out, draw)?,
        2 => put_bad_text(alloc, out, draw)?,
        3 => put_bad_grunt(out, draw)?,
        _ => return put_part(alloc, out, draw, act),
    };
    if draw.one_of(2) {
        put_act(alloc, out, act)?;
    }
    Ok(fault)
}

// ---- what is expected

fn plain_reply(alloc: Global, plain: &mut PlainBook, act: &Act) -> Result<Reply, Fail> {
    Ok(match act {
        Act::Ask(grunt) => Reply::Asked(plain.ask(*grunt)?),
        Act::Report(lease, said, _) => {
            Reply::Reported(plain.report(alloc, *lease, said, true, None)?)
        }
        Act::Gone(grunt) => Reply::Went(plain.gone(*grunt)),
        Act::Expire(lease) => Reply::Expired(plain.expire(*lease)),
        Act::Offer(cities) => Reply::Offered(plain.offer(cities)),
    })
}

fn last_line(alloc: Global, plain: &PlainBook) -> Result<String, Fail> {
    let open = plain.open_count();
    Ok(format!(in alloc; "END {} {open} {}\n", plain.settled, plain.best)?)
}

/// A tape, the lines that it is to be answered with, and the fault at its end.
#[derive(Drop)]
struct Case {
    tape: Vec<u8>,
    lines: String,
    fault: Option<(Fault, u64)>,
}

impl Case {
    /// Puts events, of which some come twice in a row, and the lines of what the plain book replies.
    fn put_events(
        &mut self,
        alloc: Global,
        draw: &mut Draw,
        plain: &mut PlainBook,
        tally: &mut Tally,
    ) -> Result<(), Fail> {
        let mut act = draw_act(draw, plain);
        for _ in 0..EVENTS {
            if !draw.one_of(8) {
                act = draw_act(draw, plain);
            }
            put_act(alloc, &mut self.tape, &act)?;
            let line = line_of(alloc, plain_reply(alloc, plain, &act)?)?;
            tally.note(&line);
            self.lines.push_str(&line)?;
        }
        Ok(())
    }

    /// Puts the end: of each three tapes one has a fault.
    fn put_end(
        &mut self,
        alloc: Global,
        draw: &mut Draw,
        plain: &PlainBook,
        tally: &mut Tally,
    ) -> Result<(), Fail> {
        if !draw.one_of(3) {
            return Ok(self.lines.push_str(&last_line(alloc, plain)?)?);
        }
        let act = draw_act(draw, plain);
        let fault = put_fault(alloc, &mut self.tape, draw, &act)?;
        let frame = u64::from(EVENTS) + 1;
        let line = format!(in alloc; "FRAME {} {frame}\n", number_of(fault))?;
        tally.note(&line);
        self.fault = Some((fault, frame));
        Ok(self.lines.push_str(&line)?)
    }
}

fn number_of(fault: Fault) -> u32 {
    match fault {
        Fault::BadLength => 1,
        Fault::BadKind => 2,
        Fault::BadText => 3,
        Fault::Truncated => 4,
        Fault::BadGrunt => 5,
        Fault::TooLong => 6,
    }
}

fn case_of(alloc: Global, start: &Start, draw: &mut Draw, tally: &mut Tally) -> Result<Case, Fail> {
    let mut case = Case {
        tape: Vec::new(alloc),
        lines: String::new(alloc),
        fault: None,
    };
    let mut plain = PlainBook::new(alloc, start)?;
    case.put_events(alloc, draw, &mut plain, tally)?;
    case.put_end(alloc, draw, &plain, tally)?;
    Ok(case)
}

// ---- playing

fn tape_of(alloc: Global, start: &Start) -> Result<Tape, Fail> {
    let instance = five_points(alloc, Kind::Man, start.fixed)?;
    Ok(Tape::new(alloc, boss(alloc, &instance, start, GRUNTS)?))
}

/// Feeds bytes in pieces below a size, some of them empty, and ends the tape.
fn play_in_pieces(
    alloc: Global,
    tape: Tape,
    bytes: &[u8],
    draw: &mut Draw,
    out: &mut Vec<u8>,
) -> Result<(), TapeError> {
    let below = if draw.one_of(16) {
        3
    } else {
        [40u32, 400, 5000][draw.below(3) as usize]
    };
    let mut tape = tape;
    let mut rest = bytes;
    for _ in 0..200_000 {
        if rest.is_empty() {
            return tape.finish(alloc, out);
        }
        let count = rest.len().min(draw.below(below) as usize);
        let (piece, more) = rest.split_at(count);
        tape = tape.feed(alloc, piece, out)?;
        rest = more;
    }
    tape.feed(alloc, rest, out)?.finish(alloc, out)
}

/// What is told at the end.
fn fault_of(ending: Result<(), TapeError>) -> Result<Option<(Fault, u64)>, Fail> {
    match ending {
        Ok(()) => Ok(None),
        Err(TapeError::Bad(fault, frame)) => Ok(Some((fault, frame))),
        Err(TapeError::NoMemory) => Err("no memory".into()),
    }
}

/// Whether a tape is answered with the lines of a case.
fn is_answered_so(
    alloc: Global,
    case: &Case,
    start: &Start,
    draw: &mut Draw,
) -> Result<bool, Fail> {
    let mut lines = Vec::new(alloc);
    let tape = tape_of(alloc, start)?;
    let fault = fault_of(play_in_pieces(alloc, tape, &case.tape, draw, &mut lines))?;
    Ok(lines.as_slice() == case.lines.as_bytes() && fault == case.fault)
}

/// Plays a tape of its own start. Whether it is answered as by the plain book.
fn is_played_plainly(alloc: Global, list: u32, tally: &mut Tally) -> Result<bool, Fail> {
    let mut draw = Draw::new(list);
    let start = draw.start();
    let case = case_of(alloc, &start, &mut draw, tally)?;
    is_answered_so(alloc, &case, &start, &mut draw)
}

#[test]
fn drawn_tapes_are_answered_as_by_a_plain_book(rt: HostRuntime) -> Result<(), Fail> {
    let mut tally = Tally { heard: 0 };
    for list in 0..2000 {
        assert!(rt;
            is_played_plainly(rt.alloc(), list, &mut tally)?,
            "tape {list}"
        );
    }
    assert_eq!(rt; tally.heard, ALL_HEARD);
    Ok(())
}
