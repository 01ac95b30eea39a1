//! Texts of the second version, and odd cuts, each with the answer that the grammar gives it by hand.

use crate::runs::{PRISM, SQUARE, verified, with_line};
use crate::table_tests::{printed, printed_for};
use ports::Inlet;
use std::alloc::{AllocError, Global};
use std::test::Fail;
use verification::VerifyStatus;

/// No tour of the square is shorter than 0.
const WITHIN: &str = "TSPCERT 2\nN 4\nLENGTH 40\nBOUND 0\nTOUR 1 2 3 4\nCUTS 0\nL 0 0 0\n";

/// The four duals of the square bear 39.0625 lengths, so a bound of 40 and each lesser one.
const SQUARE_WITHIN: &str =
    "TSPCERT 2\nN 4\nLENGTH 40\nBOUND 39\nTOUR 1 2 3 4\nCUTS 0\nL 4 0 0\nP 1 5120000\nP 2 5120000\nP 3 5120000\nP 4 5120000\n";

/// The prism's proof with an odd cut in place of its comb.
const ODD_PROOF: &str =
    "TSPCERT 1\nN 6\nLENGTH 4\nTOUR 1 2 3 6 5 4\nCUTS 1\nB 3\nH 3 1 2 3\nF 1 4\nF 2 5\nF 3 6\nL 6 1 0\nP 1 -524288\nP 2 -524288\nP 3 -524288\nP 4 -524288\nP 5 -524288\nP 6 -524288\nY 1 1048576\n";

/// What is printed for a text with a line changed.
fn printed_with(
    alloc: Global,
    instance: &str,
    text: &str,
    number: usize,
    line: &str,
) -> Result<String, AllocError> {
    printed_for(alloc, instance, &with_line(alloc, text, number, line)?)
}

#[test]
fn a_bound_below_the_length_is_printed(rt: HostRuntime) -> Result<(), Fail> {
    let alloc = rt.alloc();
    let rows: [(&str, &[u8]); 2] = [
        (WITHIN, b"WITHIN 40 0\n"),
        (SQUARE_WITHIN, b"WITHIN 40 39\n"),
    ];
    for (proof, want) in rows {
        let ended = verified(alloc, SQUARE, proof)?;
        assert_eq!(rt; ended.status, VerifyStatus::Within);
        assert_eq!(rt; ended.status.code(), 10);
        assert_eq!(rt; ended.desk.text(), want);
        assert_eq!(rt; ended.desk.left(Inlet::Proof), b"".as_slice());
    }
    Ok(())
}

/// A line of the text without duals is changed.
#[test]
fn lines_of_the_second_version(rt: HostRuntime) -> Result<(), Fail> {
    let alloc = rt.alloc();
    for (number, line, want) in [
        (1, "TSPCERT 1", "REFUSED 1 4\n"),
        (1, "TSPCERT 3", "REFUSED 1 1\n"),
        (1, "TSPCERT 0", "REFUSED 1 1\n"),
        (1, "TSPCERT 02", "REFUSED 1 1\n"),
        (2, "N 5", "REFUSED 2 2\n"),
        (3, "LENGTH 0", "REFUSED 11 4\n"),
        (3, "LENGTH 39", "REFUSED 4 5\n"),
        (4, "BOUND 1", "REFUSED 7 7\n"),
        (4, "BOUND 39", "REFUSED 7 7\n"),
        (4, "BOUND 40", "REFUSED 11 4\n"),
        (4, "BOUND 41", "REFUSED 11 4\n"),
        (4, "BOUND 4398046511103", "REFUSED 11 4\n"),
        (4, "BOUND 4398046511104", "REFUSED 11 4\n"),
        (4, "BOUND 4398046511105", "REFUSED 1 4\n"),
        (4, "BOUND -1", "REFUSED 1 4\n"),
        (4, "BOUND 00", "REFUSED 1 4\n"),
        (4, "BOUND", "REFUSED 1 4\n"),
        (4, "BOUND 0 0", "REFUSED 1 4\n"),
        (4, "TOUR 1 2 3 4", "REFUSED 1 4\n"),
        (5, "BOUND 0", "REFUSED 1 5\n"),
        (5, "TOUR 1 4 3 2", "REFUSED 3 5\n"),
        (5, "TOUR 1 3 2 4", "REFUSED 4 5\n"),
        (6, "CUTS 1", "REFUSED 1 7\n"),
        (7, "O", "REFUSED 8 7\n"),
        (7, "L 1 0 0", "REFUSED 1 8\n"),
    ] {
        assert_eq!(rt;
            printed_with(alloc, SQUARE, WITHIN, number, line)?.as_str(),
            want,
            "{line}"
        );
    }
    Ok(())
}

/// A bound that the duals bear, and the next one.
#[test]
fn a_leaf_bears_so_much(rt: HostRuntime) -> Result<(), Fail> {
    let alloc = rt.alloc();
    for (number, line, want) in [
        (4, "BOUND 38", "WITHIN 40 38\n"),
        (3, "LENGTH 40", "WITHIN 40 39\n"),
        (8, "P 1 4562943", "REFUSED 7 7\n"),
        (8, "P 1 4562944", "REFUSED 7 7\n"),
        (8, "P 1 4562945", "WITHIN 40 39\n"),
    ] {
        assert_eq!(rt;
            printed_with(alloc, SQUARE, SQUARE_WITHIN, number, line)?.as_str(),
            want,
            "{line}"
        );
    }
    Ok(())
}

#[test]
fn an_odd_cut_takes_the_place_of_a_comb(rt: HostRuntime) -> Result<(), Fail> {
    let alloc = rt.alloc();
    assert_eq!(rt;
        printed_for(alloc, PRISM, ODD_PROOF)?.as_str(),
        "VERIFIED 4\n"
    );
    for (number, line, want) in [
        (6, "B 2", "REFUSED 5 6\n"),
        (6, "B 4", "REFUSED 1 11\n"),
        (7, "H 6 1 2 3 4 5 6", "REFUSED 5 6\n"),
        (8, "F 1 2", "REFUSED 5 6\n"),
        (8, "F 4 5", "REFUSED 1 9\n"),
        (9, "F 1 4", "REFUSED 1 9\n"),
        (9, "F 1 5", "REFUSED 7 11\n"),
        (8, "F 1 1", "REFUSED 1 8\n"),
        (8, "F 0 4", "REFUSED 1 8\n"),
        (8, "F 1 7", "REFUSED 1 8\n"),
        (8, "F 4 1", "REFUSED 1 8\n"),
        (8, "F 1 4 ", "REFUSED 1 8\n"),
        (8, "T 2 1 4", "REFUSED 1 8\n"),
        (7, "F 1 4", "REFUSED 1 7\n"),
    ] {
        assert_eq!(rt;
            printed_with(alloc, PRISM, ODD_PROOF, number, line)?.as_str(),
            want,
            "{line}"
        );
    }
    Ok(())
}

/// What follows the square's tour is changed.
#[test]
fn odd_cuts(rt: HostRuntime) -> Result<(), Fail> {
    let alloc = rt.alloc();
    for (rest, want) in [
        ("CUTS 1\nB 0\n", "1 6"),
        ("CUTS 1\nB 4096\n", "1 6"),
        ("CUTS 1\nB 4095\n", "1 7"),
        ("CUTS 1\nB 01\n", "1 6"),
        ("CUTS 1\nB 1\nH 2 1 2\n", "1 8"),
        ("CUTS 1\nB 1\nH 2 2 1\n", "1 7"),
        ("CUTS 1\nB 1\nT 2 1 3\n", "1 7"),
        ("CUTS 1\nF 1 3\n", "1 6"),
        ("CUTS 1\nB 1\nH 2 1 2\nF 1 2\n", "5 6"),
        ("CUTS 1\nB 1\nH 2 1 2\nF 3 4\n", "5 6"),
        ("CUTS 1\nB 1\nH 4 1 2 3 4\nF 1 3\n", "5 6"),
        ("CUTS 1\nB 2\nH 2 1 2\nF 1 3\nF 2 4\n", "5 6"),
        ("CUTS 1\nB 3\nH 2 1 2\nF 1 3\nF 1 3\nF 2 4\n", "1 9"),
        (
            "CUTS 1\nB 3\nH 2 1 2\nF 1 3\nF 1 4\nF 2 3\nL 0 0 0\n",
            "7 11",
        ),
    ] {
        let proof = format!(in alloc; "TSPCERT 1\nN 4\nLENGTH 40\nTOUR 1 2 3 4\n{rest}")?;
        let want = format!(in alloc; "REFUSED {want}\n")?;
        assert_eq!(rt; printed(alloc, &proof)?.as_str(), want.as_str(), "{rest}");
    }
    Ok(())
}

/// A front of a text says less than the whole.
#[test]
fn no_front_is_accepted(rt: HostRuntime) -> Result<(), Fail> {
    let alloc = rt.alloc();
    for (instance, text) in [(SQUARE, WITHIN), (PRISM, ODD_PROOF)] {
        let mut front = format!(in alloc; "")?;
        for byte in text.bytes() {
            let ended = verified(alloc, instance, &front)?;
            assert_eq!(rt; ended.status, VerifyStatus::Refused, "{front}");
            front.push(char::from(byte))?;
        }
    }
    Ok(())
}
