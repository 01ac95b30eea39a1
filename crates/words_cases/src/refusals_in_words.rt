//! Each refusal and what is said of it, by the table of docs/FORMATS.md; and what a desk keeps.

use ports::{Desk, Inlet, MemDesk, Outlet, Room, write_all};
use std::alloc::{AllocError, Global};
use std::fmt::Display;
use std::io;
use std::sync::atomic::{AtomicU64, Ordering};
use std::test::Fail;
use wording::{KeepingDesk, Subject, TABLES, explain, tell};

/// A printed line, and how its words begin. Each refusal of an instance, a proof and a restart body, and each usage.
const LINES: &[(&str, &str)] = &[
    (
        "USAGE tspc solve/verify/tour/bench/replay/bound/checkbound\n",
        "the words are of no command's form; ",
    ),
    (
        "USAGE tspverify INSTANCE PROOF\n",
        "there are not just two words; ",
    ),
    (
        "USAGE tspview INSTANCE TEXT OUT\n",
        "there are not just three words, or one begins with a dash; ",
    ),
    ("INSTANCE 1 0\n", "the file has more than 2^26 bytes; "),
    (
        "INSTANCE 2 3\n",
        "line 3: the line begins with no keyword of the table; ",
    ),
    ("INSTANCE 3 4\n", "line 4: a keyword stands a second time; "),
    ("INSTANCE 4 2\n", "line 2: TYPE is not TSP; "),
    (
        "INSTANCE 5 4\n",
        "line 4: EDGE_WEIGHT_TYPE is not one that is taken; ",
    ),
    (
        "INSTANCE 6 5\n",
        "line 5: EDGE_WEIGHT_FORMAT is not one that is taken, or is FUNCTION before a table; ",
    ),
    (
        "INSTANCE 7 3\n",
        "line 3: DIMENSION is not a number of digits from 3 to 2000; ",
    ),
    (
        "INSTANCE 8 5\n",
        "line 5: a section stands before a line that it needs, or weights without EXPLICIT; ",
    ),
    (
        "INSTANCE 9 7 1\n",
        "line 7: a word on the line is not a number; ",
    ),
    (
        "INSTANCE 9 7 2\n",
        "line 7: a number is not whole; coordinates and weights must be whole: ",
    ),
    (
        "INSTANCE 9 2007 3\n",
        "line 2007: a number is too large, or a weight is negative; ",
    ),
    (
        "INSTANCE 10 8\n",
        "line 8: a node number is not one of 1 to DIMENSION, or a node stands twice; ",
    ),
    (
        "INSTANCE 11 9 1 3\n",
        "line 9: the distances from I to J and from J to I differ; ",
    ),
    ("INSTANCE 12 0\n", "the file ends within a section; "),
    ("INSTANCE 13 0 1\n", "there is no TYPE; "),
    ("INSTANCE 13 0 2\n", "there is no DIMENSION; "),
    ("INSTANCE 13 0 3\n", "there is no EDGE_WEIGHT_TYPE; "),
    (
        "INSTANCE 13 0 4\n",
        "there is no section of coordinates or weights; ",
    ),
    (
        "INSTANCE 14 11 1\n",
        "line 11: a fixed edge joins a city to itself; ",
    ),
    (
        "INSTANCE 14 11 2\n",
        "line 11: a fixed edge is the third one at a city; ",
    ),
    (
        "INSTANCE 14 11 3\n",
        "line 11: a fixed edge closes a round trip that leaves out a city; ",
    ),
    (
        "REFUSED 1 9\n",
        "line 9: the line is not of the form at its place, or the text ends before the tree does; ",
    ),
    (
        "REFUSED 2 2\n",
        "the proof is of another number of cities; ",
    ),
    (
        "REFUSED 3 4\n",
        "line 4: the tour is not one of the instance in the form that is asked for, or leaves out a fixed edge; ",
    ),
    (
        "REFUSED 4 4\n",
        "line 4: LENGTH is not the length of the tour; it belongs to another instance, ",
    ),
    ("REFUSED 5 6\n", "line 6: a set or cut is none; "),
    (
        "REFUSED 6 7\n",
        "line 7: a split of a pair that is decided already; ",
    ),
    ("REFUSED 7 6\n", "line 6: a leaf's bound is too weak: "),
    ("REFUSED 8 6\n", "line 6: a leaf is open: "),
    ("REFUSED 9 11\n", "line 11: bytes follow the proof; "),
    (
        "REFUSED 10 18446744073709551615\n",
        "line 18446744073709551615: the text is longer than 2^60 bytes",
    ),
    ("REFUSED 11 4\n", "the bound is not below the length; "),
    ("REFUSED 12 0\n", "the text has more than 1,048,576 nodes, "),
    (
        "RESTART 1 0\n",
        "there is no whole body in RESTART.0 and RESTART.1; ",
    ),
    (
        "RESTART 1 5\n",
        "line 5: the body is not of the form, or not of this instance; ",
    ),
    ("RESTART 2 2\n", "the body is of another number of cities; "),
    (
        "RESTART 3 4\n",
        "line 4: LENGTH is not the length of the tour; the instance has changed since: ",
    ),
    (
        "RESTART 4 6\n",
        "line 6: a closed leaf's bound is too weak; ",
    ),
    (
        "RESTART 5 0\n",
        "the body's nodes and twice the budget exceed 1,048,576; ",
    ),
];

/// Refusals of the certificate of a bound.
const CERTIFICATE_LINES: &[(&str, &str)] = &[
    (
        "REFUSED 1 3\n",
        "line 3: the line is not of the form at its place, or bytes follow the certificate; ",
    ),
    (
        "REFUSED 2 2\n",
        "the certificate is of another number of cities; ",
    ),
    ("REFUSED 7 3\n", "the duals do not prove the bound; "),
];

/// Refusals of a tape.
const FRAME_LINES: &[(&str, &str)] = &[
    ("FRAME 1 2\n", "frame 2: the length is 0 or above 2^24; "),
    ("FRAME 2 1\n", "frame 1: the first byte is none of 1 to 5, "),
    ("FRAME 3 10\n", "frame 10: the text is not of the form, "),
    ("FRAME 4 2\n", "frame 2: the tape ends inside the frame; "),
    (
        "FRAME 5 1\n",
        "frame 1: the grunt is none of those of the search; ",
    ),
    (
        "FRAME 6 1234\n",
        "frame 1234: the tape is longer than 2^60 bytes",
    ),
];

/// Exit statuses that tell of a fault outside.
const FAULTS: &[(u8, &str)] = &[
    (6, "a file could not be opened or read; "),
    (7, "a file or the answer could not be written; "),
    (
        8,
        "the restart files could not be read, written or synced; ",
    ),
    (9, "there is not enough memory; "),
];

/// Lines that are no refusals of anything that is not a certificate or a tape.
const OTHERS: &[&str] = &[
    "",
    "\n",
    "OPTIMAL 40\n",
    "TOUR 1 2 3 4\n",
    "WITHIN 40 0\n",
    "VERIFIED 40\n",
    "STOPPED 40 1\n",
    "BOUND 40\n",
    "CHECKED 40\n",
    "END 0 1 40\n",
    "FRAME 4 2\n",
    "INSTANCE\n",
    "INSTANCE 9\n",
    "INSTANCE 9 7 4\n",
    "INSTANCE 15 1\n",
    "INSTANCE x 1\n",
    "REFUSED 12 3\n",
    "REFUSED 7\n",
    "RESTART 6 0\n",
    " REFUSED 7 6\n",
    "USAGE\n",
];

/// A desk in memory whose writes take no more than this many bytes at once.
fn desk_of(alloc: Global, most_write: usize) -> Result<KeepingDesk<MemDesk>, AllocError> {
    let room = Room {
        bytes: 4096,
        paths: 64,
        calls: 4096,
    };
    let desk = MemDesk::new(
        alloc,
        b"ab",
        b"c",
        64,
        most_write.max(1),
        &[2],
        &[3],
        &[],
        room,
    )?;
    KeepingDesk::new(alloc, desk)
}

/// What a desk keeps of a text that is printed in pieces of at most so many bytes.
fn kept_of(
    alloc: Global,
    text: &str,
    most_write: usize,
) -> Result<KeepingDesk<MemDesk>, AllocError> {
    let mut desk = desk_of(alloc, most_write)?;
    let _ = write_all(&mut desk, Outlet::Text, text.as_bytes());
    Ok(desk)
}

#[test]
fn each_refusal_in_words(rt: HostRuntime) -> Result<(), Fail> {
    for (subject, lines, status) in [
        (Subject::Other, LINES, 4),
        (Subject::Certificate, CERTIFICATE_LINES, 4),
        (Subject::Tape, FRAME_LINES, 4),
    ] {
        for (line, front) in lines {
            let words = explain(rt.alloc(), &TABLES, status, subject, line.as_bytes())?;
            let is_front = match words {
                Some(words) => words.as_str().starts_with(*front),
                None => false,
            };
            assert!(rt; is_front);
        }
    }
    for (status, front) in FAULTS {
        let words = explain(
            rt.alloc(),
            &TABLES,
            *status,
            Subject::Other,
            b"REFUSED 7 6\n",
        )?;
        let is_front = match words {
            Some(words) => words.as_str().starts_with(*front),
            None => false,
        };
        assert!(rt; is_front);
    }
    Ok(())
}

#[test]
fn other_lines_are_no_refusals(rt: HostRuntime) -> Result<(), Fail> {
    for line in OTHERS {
        for status in [0, 2, 3, 4, 5, 10] {
            let words = explain(rt.alloc(), &TABLES, status, Subject::Other, line.as_bytes())?;
            assert!(rt; words.is_none());
        }
    }
    let tape = explain(rt.alloc(), &TABLES, 4, Subject::Tape, b"REFUSED 7 6\n")?;
    assert!(rt; tape.is_none());
    let certificate = explain(
        rt.alloc(),
        &TABLES,
        4,
        Subject::Certificate,
        b"REFUSED 8 6\n",
    )?;
    assert!(rt; certificate.is_none());
    Ok(())
}

#[test]
fn a_desk_keeps_the_last_line(rt: HostRuntime) -> Result<(), Fail> {
    for (text, line) in [
        ("INSTANCE 9 7 2\n", "INSTANCE 9 7 2\n"),
        ("LEASED 0 0 40\nTAKEN\nFRAME 4 3\n", "FRAME 4 3\n"),
        ("LEASED 0 0 40\nFRA", "FRA"),
        ("a\n\n", "\n"),
        ("", ""),
    ] {
        for most_write in [1, 2, 7, 64] {
            let desk = kept_of(rt.alloc(), text, most_write)?;
            assert_eq!(rt; desk.last_line(), line.as_bytes());
            assert_eq!(rt; desk.inner().text(), text.as_bytes());
        }
    }
    let mut desk = desk_of(rt.alloc(), 64)?;
    for _ in 0..30 {
        let _ = write_all(&mut desk, Outlet::Text, b"0123456789");
    }
    assert_eq!(rt; desk.last_line().len(), 256);
    let _ = write_all(&mut desk, Outlet::Text, b"0123456789\nFRAME 1 1\n");
    assert_eq!(rt; desk.last_line(), b"FRAME 1 1\n".as_slice());
    Ok(())
}

#[test]
fn a_desk_passes_calls_on(rt: HostRuntime) -> Result<(), Fail> {
    let mut desk = desk_of(rt.alloc(), 64)?;
    assert!(rt; desk.bind_in(Inlet::Instance, "i").is_ok());
    assert!(rt; desk.bind_in(Inlet::Proof, "p").is_err());
    assert!(rt; desk.bind_out(Outlet::Proof, "o").is_ok());
    let mut buf = [0; 4];
    assert_eq!(rt; desk.read(Inlet::Instance, &mut buf).ok(), Some(2));
    assert_eq!(rt; buf[0], b'a');
    assert_eq!(rt; desk.read(Inlet::Proof, &mut buf).ok(), Some(1));
    assert!(rt; desk.read(Inlet::Proof, &mut buf).is_err());
    assert!(rt; write_all(&mut desk, Outlet::Proof, b"REFUSED 1 1\n").is_ok());
    assert_eq!(rt; desk.last_line(), b"".as_slice());
    assert_eq!(rt; desk.inner().proof(), b"REFUSED 1 1\n".as_slice());
    assert_eq!(rt; desk.inner().read_faults(), 2);
    assert_eq!(rt;
        desk.inner().inlet_path(Inlet::Instance),
        Some(b"i".as_slice())
    );
    Ok(())
}

/// A standard error that counts what is printed.
#[derive(Drop)]
struct Outside {
    printed: AtomicU64,
}

impl Eprint for Outside {
    fn eprint<D: Display + Drop>(&self, _value: D) -> io::Result<()> {
        self.printed.fetch_add(1, Ordering::SeqCst);
        Ok(())
    }

    fn eprintln<D: Display + Drop>(&self, value: D) -> io::Result<()> {
        self.eprint(value)
    }
}

#[test]
fn a_refusal_is_told_on_a_terminal(rt: HostRuntime) {
    for (is_terminal, status, line, lines) in [
        (true, 4, "REFUSED 7 6\n", 1),
        (true, 6, "", 1),
        (true, 0, "OPTIMAL 40\n", 0),
        (false, 4, "REFUSED 7 6\n", 0),
        (false, 6, "", 0),
    ] {
        let outside = Outside {
            printed: AtomicU64::new(0),
        };
        tell(
            &outside,
            rt.alloc(),
            is_terminal,
            status,
            Subject::Other,
            line.as_bytes(),
        );
        assert_eq!(rt; outside.printed.load(Ordering::SeqCst), lines);
    }
}
