//! The lines of both versions of a text, with each bound of form at, below and above its limit. The instance is the square.

use crate::checker_tests::in_pieces;
use crate::tests::{DUALS, HEAD, shortest, square};
use certcheck::Answer;
use std::alloc::Global;
use std::test::Fail;

/// The lines before the one of the tour.
const BEFORE_TOUR: &str = "TSPCERT 1\nN 4\nLENGTH 40\n";

/// The lines before the one of the bound.
const BEFORE_BOUND: &str = "TSPCERT 2\nN 4\nLENGTH 40\n";

/// The lines before the number of cuts.
const BEFORE_CUTS: &str = "TSPCERT 1\nN 4\nLENGTH 40\nTOUR 1 2 3 4\n";

/// The lines before the first cut, which is line 6.
const BEFORE_CUT: &str = "TSPCERT 1\nN 4\nLENGTH 40\nTOUR 1 2 3 4\nCUTS 1\n";

/// The first row whose answer is not that of the text of the front and the row's lines, if there is one.
fn first_other(alloc: Global, front: &str, rows: &[(&str, Answer)]) -> Result<Option<usize>, Fail> {
    let square = square(alloc)?;
    for place in 0..rows.len() {
        let (lines, answer) = &rows[place];
        let text = format!(in alloc; "{front}{lines}\n")?;
        if in_pieces(alloc, &square, text.as_bytes(), 65_536)? != *answer {
            return Ok(Some(place));
        }
    }
    Ok(None)
}

#[test]
fn titles(rt: HostRuntime) -> Result<(), Fail> {
    let rows = [
        ("TSPCERT 0", Answer::No(1, 1)),
        ("TSPCERT 1", Answer::No(1, 2)),
        ("TSPCERT 2", Answer::No(1, 2)),
        ("TSPCERT 3", Answer::No(1, 1)),
        ("TSPCERT 01", Answer::No(1, 1)),
        ("TSPCERT", Answer::No(1, 1)),
        ("", Answer::No(1, 1)),
    ];
    assert_eq!(rt; first_other(rt.alloc(), "", &rows)?, None);
    Ok(())
}

#[test]
fn numbers_of_cities(rt: HostRuntime) -> Result<(), Fail> {
    let rows = [
        ("N 3", Answer::No(2, 2)),
        ("N 4", Answer::No(1, 3)),
        ("N 5", Answer::No(2, 2)),
        ("N 4294967295", Answer::No(2, 2)),
        ("N 4294967296", Answer::No(1, 2)),
    ];
    assert_eq!(rt; first_other(rt.alloc(), "TSPCERT 1\n", &rows)?, None);
    Ok(())
}

#[test]
fn lengths(rt: HostRuntime) -> Result<(), Fail> {
    let rows = [
        ("LENGTH 39\nTOUR 1 2 3 4", Answer::No(4, 4)),
        ("LENGTH 40\nTOUR 1 2 3 4", Answer::No(1, 5)),
        ("LENGTH 41\nTOUR 1 2 3 4", Answer::No(4, 4)),
        ("LENGTH 0", Answer::No(1, 4)),
        ("LENGTH 4398046511104", Answer::No(1, 4)),
        ("LENGTH 4398046511105", Answer::No(1, 3)),
    ];
    assert_eq!(rt; first_other(rt.alloc(), "TSPCERT 1\nN 4\n", &rows)?, None);
    Ok(())
}

#[test]
fn bounds(rt: HostRuntime) -> Result<(), Fail> {
    let rows = [
        ("BOUND 0", Answer::No(1, 5)),
        ("BOUND 39", Answer::No(1, 5)),
        ("BOUND 40", Answer::No(11, 4)),
        ("BOUND 4398046511104", Answer::No(11, 4)),
        ("BOUND 4398046511105", Answer::No(1, 4)),
        ("TOUR 1 2 3 4", Answer::No(1, 4)),
    ];
    assert_eq!(rt; first_other(rt.alloc(), BEFORE_BOUND, &rows)?, None);
    let first_version = [("BOUND 39", Answer::No(1, 4))];
    assert_eq!(rt; first_other(rt.alloc(), BEFORE_TOUR, &first_version)?, None);
    Ok(())
}

#[test]
fn tours(rt: HostRuntime) -> Result<(), Fail> {
    let rows = [
        ("TOUR 1 2 3", Answer::No(1, 4)),
        ("TOUR 1 2 3 4", Answer::No(1, 5)),
        ("TOUR 1 2 3 4 1", Answer::No(1, 4)),
        ("TOUR 0 2 3 4", Answer::No(3, 4)),
        ("TOUR 1 2 3 5", Answer::No(3, 4)),
        ("TOUR 1 4 3 2", Answer::No(3, 4)),
        ("TOUR 1 2 3 9999999999", Answer::No(3, 4)),
        ("TOUR 1 2 3 10000000000", Answer::No(1, 4)),
    ];
    assert_eq!(rt; first_other(rt.alloc(), BEFORE_TOUR, &rows)?, None);
    Ok(())
}

#[test]
fn numbers_of_cuts(rt: HostRuntime) -> Result<(), Fail> {
    let rows = [
        ("CUTS 0", Answer::No(1, 6)),
        ("CUTS 4294967295", Answer::No(1, 6)),
        ("CUTS 4294967296", Answer::No(1, 5)),
    ];
    assert_eq!(rt; first_other(rt.alloc(), BEFORE_CUTS, &rows)?, None);
    Ok(())
}

#[test]
fn subtour_cuts(rt: HostRuntime) -> Result<(), Fail> {
    let rows = [
        ("S 0", Answer::No(1, 6)),
        ("S 1 0", Answer::No(1, 6)),
        ("S 1 1", Answer::No(1, 7)),
        ("S 1 4", Answer::No(1, 7)),
        ("S 1 5", Answer::No(1, 6)),
        ("S 2 2 1", Answer::No(1, 6)),
        ("S 3 1 2 3", Answer::No(1, 7)),
        ("S 4 1 2 3 4", Answer::No(5, 6)),
    ];
    assert_eq!(rt; first_other(rt.alloc(), BEFORE_CUT, &rows)?, None);
    Ok(())
}

#[test]
fn combs(rt: HostRuntime) -> Result<(), Fail> {
    let rows = [
        ("C 0\nH 1 1", Answer::No(5, 6)),
        ("C 0\nT 1 1", Answer::No(1, 7)),
        ("C 1\nH 1 1\nT 2 1 2", Answer::No(5, 6)),
        ("C 2000", Answer::No(1, 7)),
        ("C 2001", Answer::No(1, 6)),
    ];
    assert_eq!(rt; first_other(rt.alloc(), BEFORE_CUT, &rows)?, None);
    Ok(())
}

#[test]
fn odd_cuts(rt: HostRuntime) -> Result<(), Fail> {
    let rows = [
        ("B 0", Answer::No(1, 6)),
        ("B 1", Answer::No(1, 7)),
        ("B 4095", Answer::No(1, 7)),
        ("B 4096", Answer::No(1, 6)),
        ("B 1\nH 1 1\nF 0 1", Answer::No(1, 8)),
        ("B 1\nH 1 1\nF 1 4", Answer::No(1, 9)),
        ("B 1\nH 1 1\nF 1 5", Answer::No(1, 8)),
        ("B 1\nH 1 1\nF 2 3", Answer::No(5, 6)),
        ("B 3\nH 2 1 2\nF 1 3\nF 1 3", Answer::No(1, 9)),
    ];
    assert_eq!(rt; first_other(rt.alloc(), BEFORE_CUT, &rows)?, None);
    Ok(())
}

#[test]
fn splits(rt: HostRuntime) -> Result<(), Fail> {
    let rows = [
        ("E 0 1", Answer::No(1, 6)),
        ("E 1 1", Answer::No(1, 6)),
        ("E 1 2", Answer::No(1, 7)),
        ("E 1 4", Answer::No(1, 7)),
        ("E 1 5", Answer::No(1, 6)),
        ("K 0", Answer::No(1, 6)),
        ("K 3 2 3 4", Answer::No(1, 7)),
        ("K 4 1 2 3 4", Answer::No(5, 6)),
        ("K 1 5", Answer::No(1, 6)),
    ];
    assert_eq!(rt; first_other(rt.alloc(), HEAD, &rows)?, None);
    Ok(())
}

#[test]
fn leaves(rt: HostRuntime) -> Result<(), Fail> {
    let rows = [
        ("L 0 0 0", Answer::No(7, 6)),
        ("L 4 0 0", Answer::No(1, 7)),
        ("L 5 0 0", Answer::No(1, 6)),
        ("L 0 4096 0", Answer::No(1, 7)),
        ("L 0 4097 0", Answer::No(1, 6)),
        ("L 0 0 4096", Answer::No(1, 7)),
        ("L 0 0 4097", Answer::No(1, 6)),
    ];
    assert_eq!(rt; first_other(rt.alloc(), HEAD, &rows)?, None);
    Ok(())
}

#[test]
fn duals_of_cities(rt: HostRuntime) -> Result<(), Fail> {
    let rows = [
        ("L 2 0 0\nP 0 1", Answer::No(1, 7)),
        ("L 2 0 0\nP 4 1", Answer::No(1, 8)),
        ("L 2 0 0\nP 5 1", Answer::No(1, 7)),
        ("L 2 0 0\nP 1 0", Answer::No(1, 7)),
        ("L 2 0 0\nP 1 4611686018427387904", Answer::No(1, 8)),
        ("L 2 0 0\nP 1 4611686018427387905", Answer::No(1, 7)),
        ("L 2 0 0\nP 1 -4611686018427387904", Answer::No(1, 8)),
        ("L 2 0 0\nP 1 -4611686018427387905", Answer::No(1, 7)),
    ];
    assert_eq!(rt; first_other(rt.alloc(), HEAD, &rows)?, None);
    Ok(())
}

#[test]
fn duals_of_cuts(rt: HostRuntime) -> Result<(), Fail> {
    let rows = [
        ("S 1 1\nL 0 1 0\nY 0 1", Answer::No(1, 8)),
        ("S 1 1\nL 0 1 0\nY 1 0", Answer::No(1, 8)),
        ("S 1 1\nL 0 1 0\nY 1 1", Answer::No(7, 7)),
        ("S 1 1\nL 0 1 0\nY 2 1", Answer::No(1, 8)),
        ("S 1 1\nL 0 1 0\nY 1 4611686018427387904", Answer::No(7, 7)),
        ("S 1 1\nL 0 1 0\nY 1 4611686018427387905", Answer::No(1, 8)),
    ];
    assert_eq!(rt; first_other(rt.alloc(), BEFORE_CUT, &rows)?, None);
    Ok(())
}

#[test]
fn duals_of_conditions(rt: HostRuntime) -> Result<(), Fail> {
    let rows = [
        ("K 1 1\nL 0 0 1\nZ 0 1", Answer::No(1, 8)),
        ("K 1 1\nL 0 0 1\nZ 1 0", Answer::No(1, 8)),
        ("K 1 1\nL 0 0 1\nZ 1 1", Answer::No(7, 7)),
        ("K 1 1\nL 0 0 1\nZ 2 1", Answer::No(1, 8)),
        ("K 1 1\nL 0 0 1\nZ 1 4611686018427387904", Answer::No(7, 7)),
        ("K 1 1\nL 0 0 1\nZ 1 4611686018427387905", Answer::No(1, 8)),
    ];
    assert_eq!(rt; first_other(rt.alloc(), HEAD, &rows)?, None);
    Ok(())
}

/// A pair is decided below its split, in both children, and nowhere else.
#[test]
fn decided_pairs(rt: HostRuntime) -> Result<(), Fail> {
    let rows = [
        ("E 1 3\nE 2 4\nE 1 3", Answer::No(6, 8)),
        ("E 1 3\nE 2 4\nE 2 4", Answer::No(6, 8)),
        ("K 1 1\nE 1 3\nK 1 1\nE 1 3", Answer::No(6, 9)),
        (
            "E 1 2\nE 1 3\nE 1 4\nE 2 3\nE 2 4\nE 3 4",
            Answer::No(1, 12),
        ),
        (
            "E 1 2\nE 1 3\nE 1 4\nE 2 3\nE 2 4\nE 3 4\nE 1 4",
            Answer::No(6, 12),
        ),
    ];
    assert_eq!(rt; first_other(rt.alloc(), HEAD, &rows)?, None);
    Ok(())
}

#[test]
fn a_pair_of_a_split_that_was_left_is_free(rt: HostRuntime) -> Result<(), Fail> {
    let alloc = rt.alloc();
    let square = square(alloc)?;
    let inner = format!(in alloc; "E 2 4\n{DUALS}{DUALS}")?;
    let whole = format!(in alloc; "{HEAD}E 1 3\n{inner}{inner}")?;
    assert_eq!(rt;
        in_pieces(alloc, &square, whole.as_bytes(), 65_536)?,
        shortest(40)
    );
    let second = format!(in alloc; "{HEAD}E 1 3\n{DUALS}E 1 3\n")?;
    assert_eq!(rt;
        in_pieces(alloc, &square, second.as_bytes(), 65_536)?,
        Answer::No(6, 12)
    );
    let below = format!(in alloc; "{HEAD}E 1 3\n{inner}E 2 4\nE 1 3\n")?;
    assert_eq!(rt;
        in_pieces(alloc, &square, below.as_bytes(), 65_536)?,
        Answer::No(6, 19)
    );
    Ok(())
}

/// A text of the second version, cut after each byte: no front of it is accepted.
#[test]
fn a_text_of_a_bound_cut_after_each_byte(rt: HostRuntime) -> Result<(), Fail> {
    let alloc = rt.alloc();
    let square = square(alloc)?;
    let text = format!(in alloc;
        "TSPCERT 2\nN 4\nLENGTH 40\nBOUND 39\nTOUR 1 2 3 4\nCUTS 1\nS 2 1 2\nK 2 1 2\n{DUALS}{DUALS}"
    )?;
    let bytes = text.as_bytes();
    for end in 0..bytes.len() {
        let front = &bytes[..end];
        let lines = front.iter().filter(|byte| **byte == b'\n').count() as u64;
        assert_eq!(rt;
            in_pieces(alloc, &square, front, 7)?,
            Answer::No(1, lines.saturating_add(1))
        );
    }
    assert_eq!(rt;
        in_pieces(alloc, &square, bytes, 7)?,
        Answer::Yes {
            length: 40,
            bound: 39
        }
    );
    Ok(())
}
