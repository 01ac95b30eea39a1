//! Worked tapes.

use crate::squares::{answers, answers_by_bytes, framed, text};
use std::alloc::Global;
use std::test::Fail;

/// Two grunts ask, one is gone and its lease lost, and both report the same split.
const TWO_GRUNTS: &[u8] =
    b"\0\0\0\x05\x01\0\0\0\x01\0\0\0\x05\x01\0\0\0\x02\0\0\0\x05\x03\0\0\0\x01\0\0\0\x05\x01\0\0\0\x02\0\0\0\x12\x02\0\0\0\0CUTS 0\nE 1 3\n\0\0\0\x12\x02\0\0\0\x01CUTS 0\nE 1 3\n\0\0\0\x12\x02\0\0\0\x07CUTS 0\nE 1 3\n\0\0\0\x05\x01\0\0\0\x01";

const TWO_GRUNTS_LINES: &str =
    "LEASED 0 0 40\nNOTYET\nLOST 0\nLEASED 1 0 40\nTAKEN\nSTALE\nUNKNOWN\nSPENT\nEND 1 2 40\n";

#[test]
fn the_second_copy_of_a_report_is_stale(rt: HostRuntime) -> Result<(), Fail> {
    let alloc = rt.alloc();
    let got = answers(alloc, TWO_GRUNTS)?;
    assert_eq!(rt; text(&got), TWO_GRUNTS_LINES);
    assert_eq!(rt; got.fault, None);
    Ok(())
}

#[test]
fn pieces_of_one_byte_change_nothing(rt: HostRuntime) -> Result<(), Fail> {
    let alloc = rt.alloc();
    let got = answers_by_bytes(alloc, TWO_GRUNTS)?;
    assert_eq!(rt; text(&got), TWO_GRUNTS_LINES);
    assert_eq!(rt; got.fault, None);
    Ok(())
}

#[test]
fn an_empty_tape_has_an_end(rt: HostRuntime) -> Result<(), Fail> {
    let alloc = rt.alloc();
    let got = answers(alloc, b"")?;
    assert_eq!(rt; text(&got), "END 0 1 40\n");
    assert_eq!(rt; got.fault, None);
    Ok(())
}

/// Whether a tape is answered with some lines, whole and byte by byte.
fn is_answered(alloc: Global, tape: &[u8], lines: &str) -> Result<bool, Fail> {
    let whole = answers(alloc, tape)?;
    let bytes = answers_by_bytes(alloc, tape)?;
    Ok(text(&whole) == lines && text(&bytes) == lines && whole.fault == bytes.fault)
}

/// The first of some tapes that is answered otherwise.
fn first_other(alloc: Global, table: &[(&[u8], &str)]) -> Result<Option<usize>, Fail> {
    for place in 0..table.len() {
        let (tape, lines) = table[place];
        if !is_answered(alloc, tape, lines)? {
            return Ok(Some(place));
        }
    }
    Ok(None)
}

#[test]
fn the_first_fault_of_a_length_is_told(rt: HostRuntime) -> Result<(), Fail> {
    let table: [(&[u8], &str); 7] = [
        (b"\0\0\0\0", "FRAME 1 1\n"),
        (b"\x01\0\0\x01", "FRAME 1 1\n"),
        (b"\x01\0\0\x01\x09", "FRAME 1 1\n"),
        (b"\x01\0\0\0", "FRAME 4 1\n"),
        (b"\0\0\0", "FRAME 4 1\n"),
        (b"\0\0\0\x05\x01", "FRAME 4 1\n"),
        (b"\0\0\0\x05\x04\0\0\0\0\0", "UNKNOWN\nFRAME 4 2\n"),
    ];
    assert_eq!(rt; first_other(rt.alloc(), &table)?, None);
    Ok(())
}

#[test]
fn the_first_fault_of_a_kind_is_told(rt: HostRuntime) -> Result<(), Fail> {
    let table: [(&[u8], &str); 9] = [
        (b"\0\0\0\x01\0", "FRAME 2 1\n"),
        (b"\0\0\0\x01\x06", "FRAME 2 1\n"),
        (b"\0\0\0\x04\x01\0\0\x01", "FRAME 2 1\n"),
        (b"\0\0\0\x06\x03\0\0\0\x01\0", "FRAME 2 1\n"),
        (b"\0\0\0\x04\x02\0\0\0", "FRAME 2 1\n"),
        (b"\0\0\0\x06\x04\0\0\0\x01\0", "FRAME 2 1\n"),
        (b"\0\0\0\x05\x01\0\0\0\0", "FRAME 5 1\n"),
        (b"\0\0\0\x05\x01\0\0\0\x03", "FRAME 5 1\n"),
        (b"\0\0\0\x05\x03\0\0\0\x03", "FRAME 5 1\n"),
    ];
    assert_eq!(rt; first_other(rt.alloc(), &table)?, None);
    Ok(())
}

#[test]
fn calls_without_a_text_are_answered(rt: HostRuntime) -> Result<(), Fail> {
    let table: [(&[u8], &str); 3] = [
        (b"\0\0\0\x05\x03\0\0\0\x02", "NONE\nEND 0 1 40\n"),
        (b"\0\0\0\x05\x04\xff\xff\xff\xff", "UNKNOWN\nEND 0 1 40\n"),
        (
            b"\0\0\0\x05\x01\0\0\0\x02\0\0\0\x05\x04\0\0\0\0\0\0\0\x05\x04\0\0\0\0",
            "LEASED 0 0 40\nEXPIRED\nNOTHELD\nEND 0 1 40\n",
        ),
    ];
    assert_eq!(rt; first_other(rt.alloc(), &table)?, None);
    Ok(())
}

/// Whether the line of a text as a tape of one frame, a report on lease 0 where it is granted or an offer, is this.
fn first_other_text(
    alloc: Global,
    head: &[u8],
    before: &str,
    table: &[(&str, &str)],
) -> Result<Option<usize>, Fail> {
    for place in 0..table.len() {
        let (said, line) = table[place];
        let tape = framed(alloc, head, said)?;
        let lines = format!(in alloc; "{before}{line}")?;
        if !is_answered(alloc, &tape, &lines)? {
            return Ok(Some(place));
        }
    }
    Ok(None)
}

#[test]
fn offers_are_tours_of_any_order(rt: HostRuntime) -> Result<(), Fail> {
    let table = [
        ("TOUR 1 2 3 4\n", "NOTSHORTER 40\nEND 0 1 40\n"),
        ("TOUR 3 4 2 1\n", "NOTSHORTER 40\nEND 0 1 40\n"),
        ("TOUR 1 2 3 4", "FRAME 3 1\n"),
        ("TOUR 1 2 3\n", "FRAME 3 1\n"),
        ("TOUR 0 1 2 3\n", "FRAME 3 1\n"),
        ("TOUR 1 2 3 5\n", "FRAME 3 1\n"),
        ("TOUR 1 2 3 3\n", "FRAME 3 1\n"),
        ("TOUR 1 2 3 04\n", "FRAME 3 1\n"),
        ("TOUR 1 2 3 4\n\n", "FRAME 3 1\n"),
        ("N 4\n", "FRAME 3 1\n"),
        ("", "FRAME 3 1\n"),
    ];
    assert_eq!(rt; first_other_text(rt.alloc(), b"\x05", "", &table)?, None);
    Ok(())
}

#[test]
fn texts_of_splits_have_a_form(rt: HostRuntime) -> Result<(), Fail> {
    let table = [
        ("CUTS 0\nE 1 3\n", "UNKNOWN\nEND 0 1 40\n"),
        ("CUTS 0\nK 2 1 3\n", "UNKNOWN\nEND 0 1 40\n"),
        ("CUTS 0\nK 4 1 2 3 4\n", "UNKNOWN\nEND 0 1 40\n"),
        ("CUTS 0\nE 1 3", "FRAME 3 1\n"),
        ("CUTS 0\nE 3 1\n", "FRAME 3 1\n"),
        ("CUTS 0\nE 1 5\n", "FRAME 3 1\n"),
        ("CUTS 0\nE 1 3\nO\n", "FRAME 3 1\n"),
        ("CUTS 0\nO\n", "FRAME 3 1\n"),
        ("CUTS 0\n", "FRAME 3 1\n"),
        ("E 1 3\n", "FRAME 3 1\n"),
        ("", "FRAME 3 1\n"),
        ("CUTS 1\nS 2 1 2\nE 1 3\n", "FRAME 3 1\n"),
        ("CUTS 1\nS 2 1 2\nK 2 1 3\n", "FRAME 3 1\n"),
    ];
    assert_eq!(rt;
        first_other_text(rt.alloc(), b"\x02\0\0\0\x09", "", &table)?,
        None
    );
    Ok(())
}

#[test]
fn texts_of_leaves_have_a_form(rt: HostRuntime) -> Result<(), Fail> {
    let table = [
        ("CUTS 0\nL 0 0 0\n", "UNKNOWN\nEND 0 1 40\n"),
        ("CUTS 1\nS 2 1 2\nL 0 0 0\n", "UNKNOWN\nEND 0 1 40\n"),
        (
            "CUTS 2\nS 1 1\nS 1 1\nL 1 2 1\nP 4 -1\nY 1 1\nY 2 9\nZ 7 1\n",
            "UNKNOWN\nEND 0 1 40\n",
        ),
        ("CUTS 0\nL 2 0 0\nP 2 1\nP 2 1\n", "FRAME 3 1\n"),
        ("CUTS 0\nL 1 0 0\nP 2 0\n", "FRAME 3 1\n"),
        ("CUTS 0\nL 1 0 0\n", "FRAME 3 1\n"),
        ("CUTS 1\nS 1 1\nL 0 1 0\nY 2 1\n", "FRAME 3 1\n"),
        ("CUTS 1\nS 1 1\nL 0 2 0\nY 1 1\nY 1 1\n", "FRAME 3 1\n"),
        ("CUTS 0\nL 0 0 2\nZ 2 1\nZ 1 1\n", "FRAME 3 1\n"),
        ("CUTS 0\nL 0 0 1\nZ 0 1\n", "FRAME 3 1\n"),
        ("CUTS 0\nL 0 0 1\nY 1 1\n", "FRAME 3 1\n"),
        ("CUTS 0\nL 0 0 0\nO\n", "FRAME 3 1\n"),
    ];
    assert_eq!(rt;
        first_other_text(rt.alloc(), b"\x02\0\0\0\x09", "", &table)?,
        None
    );
    Ok(())
}

#[test]
fn texts_of_cuts_have_a_form(rt: HostRuntime) -> Result<(), Fail> {
    let table = [
        ("CUTS 1\nS 4 1 2 3 4\nL 0 0 0\n", "FRAME 3 1\n"),
        (
            "CUTS 1\nC 3\nH 2 1 2\nT 1 1\nT 1 2\nT 1 3\nL 0 0 0\n",
            "FRAME 3 1\n",
        ),
        ("CUTS 1\nC 1\nH 2 1 2\nL 0 0 0\n", "FRAME 3 1\n"),
        (
            "CUTS 1\nB 1\nH 1 1\nF 1 2\nL 0 0 0\n",
            "UNKNOWN\nEND 0 1 40\n",
        ),
        ("CUTS 1\nB 1\nH 1 1\nF 2 3\nL 0 0 0\n", "FRAME 3 1\n"),
        (
            "CUTS 1\nB 3\nH 1 1\nF 1 2\nF 1 3\nF 1 4\nL 0 0 0\n",
            "UNKNOWN\nEND 0 1 40\n",
        ),
        (
            "CUTS 1\nB 3\nH 1 1\nF 1 3\nF 1 2\nF 1 4\nL 0 0 0\n",
            "FRAME 3 1\n",
        ),
        ("CUTS 1\nL 0 0 0\n", "FRAME 3 1\n"),
        ("CUTS 4294967295\nS 1 1\nL 0 0 0\n", "FRAME 3 1\n"),
    ];
    assert_eq!(rt;
        first_other_text(rt.alloc(), b"\x02\0\0\0\x09", "", &table)?,
        None
    );
    Ok(())
}
