//! What is refused: the order of the faults of one frame, and each rule of the form of a text.

use crate::squares::{answers, framed, text};
use std::alloc::Global;
use std::test::Fail;

/// The first of some tapes that is answered otherwise.
fn first_other(alloc: Global, table: &[(&[u8], &str)]) -> Result<Option<usize>, Fail> {
    for place in 0..table.len() {
        let (tape, lines) = table[place];
        if text(&answers(alloc, tape)?) != lines {
            return Ok(Some(place));
        }
    }
    Ok(None)
}

#[test]
fn of_the_faults_of_a_frame_the_first_in_order_is_told(rt: HostRuntime) -> Result<(), Fail> {
    let table: [(&[u8], &str); 9] = [
        // a length, though the tape ends
        (b"\0\0\0\0\x09", "FRAME 1 1\n"),
        (b"\xff\xff\xff\xff", "FRAME 1 1\n"),
        // the end before the kind, the grunt and the text
        (b"\0\0\0\x05\x09", "FRAME 4 1\n"),
        (b"\0\0\0\x05\x01\0\0\0", "FRAME 4 1\n"),
        (b"\0\0\0\x09\x02\0\0\0\0BAD", "FRAME 4 1\n"),
        // the size before the grunt
        (b"\0\0\0\x06\x01\0\0\0\0\0", "FRAME 2 1\n"),
        // the first frame before the second, and lines before both
        (b"\0\0\0\x01\x05\0\0\0\0", "FRAME 3 1\n"),
        (
            b"\0\0\0\x05\x03\0\0\0\x01\0\0\0\x05\x01\0\0\0\x09\0\0\0\0",
            "NONE\nFRAME 5 2\n",
        ),
        (
            b"\0\0\0\x05\x04\0\0\0\0\0\0\0\x05\x04\0\0\0\0\0\0\0\x01\x07",
            "UNKNOWN\nUNKNOWN\nFRAME 2 3\n",
        ),
    ];
    assert_eq!(rt; first_other(rt.alloc(), &table)?, None);
    Ok(())
}

/// The first text that is not answered so as a report for a lease that was never granted.
fn first_not(alloc: Global, texts: &[&str], lines: &str) -> Result<Option<usize>, Fail> {
    for place in 0..texts.len() {
        let tape = framed(alloc, b"\x02\0\0\0\x09", texts[place])?;
        if text(&answers(alloc, &tape)?) != lines {
            return Ok(Some(place));
        }
    }
    Ok(None)
}

const BAD: &str = "FRAME 3 1\n";

const HEARD: &str = "UNKNOWN\nEND 0 1 40\n";

#[test]
fn splits_out_of_form_are_refused(rt: HostRuntime) -> Result<(), Fail> {
    let texts = [
        "CUTS 00\nE 1 3\n",
        "CUTS 0 \nE 1 3\n",
        " CUTS 0\nE 1 3\n",
        "CUTS  0\nE 1 3\n",
        "CUTS 0\r\nE 1 3\n",
        "cuts 0\nE 1 3\n",
        "CUTS\nE 1 3\n",
        "CUTS -0\nE 1 3\n",
        "CUTS 4294967296\nE 1 3\n",
        "\nCUTS 0\nE 1 3\n",
        "CUTS 0\n\nE 1 3\n",
        "CUTS 0\nE 01 3\n",
        "CUTS 0\nE 1 3 \n",
        "CUTS 0\nE 1\n",
        "CUTS 0\nE 1 3 4\n",
        "CUTS 0\nE 1 1\n",
        "CUTS 0\nE 0 1\n",
        "CUTS 0\nK 0\n",
        "CUTS 0\nK 2 3 1\n",
        "CUTS 0\nK 2 1 1\n",
        "CUTS 0\nK 1 1 2\n",
        "CUTS 0\nK 2 1\n",
        "CUTS 0\nK 2 1 5\n",
        "CUTS 0\nK 2 0 1\n",
        "CUTS 0\nK 5 1 2 3 4 5\n",
    ];
    assert_eq!(rt; first_not(rt.alloc(), &texts, BAD)?, None);
    Ok(())
}

#[test]
fn leaves_out_of_form_are_refused(rt: HostRuntime) -> Result<(), Fail> {
    let texts = [
        "CUTS 0\nL 5 0 0\n",
        "CUTS 0\nL 0 4097 0\n",
        "CUTS 0\nL 0 0 4097\n",
        "CUTS 0\nL 0 0\n",
        "CUTS 0\nL -1 0 0\n",
        "CUTS 0\nL 1 0 0\nP 1 4611686018427387905\n",
        "CUTS 0\nL 1 0 0\nP 1 -4611686018427387905\n",
        "CUTS 0\nL 1 0 0\nP 1 -0\n",
        "CUTS 0\nL 1 0 0\nP 1 +1\n",
        "CUTS 0\nL 1 0 0\nP 1 1.0\n",
        "CUTS 0\nL 1 0 0\nP 5 1\n",
        "CUTS 0\nL 1 0 0\nP 0 1\n",
        "CUTS 0\nL 2 0 0\nP 2 1\nP 1 1\n",
        "CUTS 1\nS 1 1\nL 0 1 0\nY 0 1\n",
        "CUTS 1\nS 1 1\nL 0 1 0\nY 1 0\n",
        "CUTS 1\nS 1 1\nL 0 1 0\nY 1 -1\n",
        "CUTS 1\nS 1 1\nL 0 1 0\nY 1 4611686018427387905\n",
        "CUTS 2\nS 1 1\nS 1 2\nL 0 2 0\nY 2 1\nY 1 1\n",
        "CUTS 0\nL 0 0 1\nZ 4294967296 1\n",
        "CUTS 0\nL 0 0 1\nZ 1 0\n",
        "CUTS 0\nL 0 0 1\nZ 1 4611686018427387905\n",
        "CUTS 0\nL 0 0 2\nZ 1 1\nZ 1 1\n",
        "CUTS 1\nS 1 1\nL 0 1 1\nZ 1 1\nY 1 1\n",
    ];
    assert_eq!(rt; first_not(rt.alloc(), &texts, BAD)?, None);
    Ok(())
}

#[test]
fn cuts_out_of_form_are_refused(rt: HostRuntime) -> Result<(), Fail> {
    let texts = [
        "CUTS 1\nS 0\nL 0 0 0\n",
        "CUTS 1\nS 2 2 1\nL 0 0 0\n",
        "CUTS 1\nS 1 5\nL 0 0 0\n",
        "CUTS 1\nS 4 1 2 3 4\nL 0 0 0\n",
        "CUTS 1\nC 2001\nH 1 1\nL 0 0 0\n",
        "CUTS 1\nC 0\nH 1 1\nL 0 0 0\n",
        "CUTS 1\nC 2\nH 2 1 2\nT 2 1 3\nT 2 2 4\nL 0 0 0\n",
        "CUTS 1\nC 3\nT 2 1 2\nH 2 1 2\nT 2 1 3\nT 2 2 4\nL 0 0 0\n",
        "CUTS 1\nC 3\nH 2 1 2\nT 2 1 3\nT 2 2 4\nL 0 0 0\n",
        "CUTS 1\nH 1 1\nL 0 0 0\n",
        "CUTS 1\nT 1 1\nL 0 0 0\n",
        "CUTS 1\nF 1 2\nL 0 0 0\n",
        "CUTS 1\nB 2\nH 1 1\nF 1 2\nF 1 3\nL 0 0 0\n",
        "CUTS 1\nB 1\nF 1 2\nL 0 0 0\n",
        "CUTS 1\nE 1 3\n",
        "CUTS 2\nS 1 1\nL 0 0 0\n",
    ];
    assert_eq!(rt; first_not(rt.alloc(), &texts, BAD)?, None);
    Ok(())
}

#[test]
fn numbers_at_their_limits_are_of_the_form(rt: HostRuntime) -> Result<(), Fail> {
    let texts = [
        "CUTS 0\nL 1 0 0\nP 4 4611686018427387904\n",
        "CUTS 0\nL 1 0 0\nP 1 -4611686018427387904\n",
        "CUTS 1\nS 1 1\nL 0 1 0\nY 1 4611686018427387904\n",
        "CUTS 0\nL 0 0 1\nZ 4294967295 4611686018427387904\n",
        "CUTS 0\nK 4 1 2 3 4\n",
        "CUTS 0\nE 3 4\n",
    ];
    assert_eq!(rt; first_not(rt.alloc(), &texts, HEARD)?, None);
    Ok(())
}
