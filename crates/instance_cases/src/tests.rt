//! Worked texts, with values from the definition of the format.

ghost use Rattle.std.specs.Prelude.{◌<◌};

use cyc::Tour;
use distx::{Kind, Point};
use ports::{MemDesk, Room};
use std::alloc::{AllocError, Global};
use std::test::Fail;
use tspinst::{FixError, Instance, PairFault, Part, ReadError, Refusal, from_points, read};
use tsplex::NumberFault;

const SQUARE: &[u8] =
    b"NAME : square\nTYPE : TSP\nDIMENSION : 4\nEDGE_WEIGHT_TYPE : EUC_2D\nNODE_COORD_SECTION\n1 0 0\n2 0 10\n3 10 10\n4 10 0\nEOF\n";

/// A desk whose reads give at most so many bytes, and fail at these calls.
fn desk(
    alloc: Global,
    text: &[u8],
    most_read: usize,
    bad_reads: &[u64],
) -> Result<MemDesk, AllocError>
    requires { 0 < most_read }
{
    let room = Room {
        bytes: 0,
        paths: 0,
        calls: 100_000,
    };
    MemDesk::new(alloc, text, b"", most_read, 1, &[], bad_reads, &[], room)
}

/// What a text is read as.
fn told(alloc: Global, text: &[u8]) -> Result<Instance, ReadError> {
    read(alloc, &mut desk(alloc, text, 65_536, &[])?)
}

/// The number, the line and the further numbers of a text's first refusal; 0 where there is none.
fn refused(alloc: Global, text: &[u8]) -> (u32, u32, u32, u32) {
    match told(alloc, text) {
        Err(ReadError::Refused(refusal)) => {
            let (first, second) = refusal.extras();
            (
                refusal.number(),
                refusal.line(),
                first.unwrap_or(0),
                second.unwrap_or(0),
            )
        }
        Ok(_) => (0, 0, 0, 0),
        Err(_) => (99, 0, 0, 0),
    }
}

#[test]
fn spellings_of_a_number_are_one(rt: HostRuntime) -> Result<(), Fail> {
    let alloc = rt.alloc();
    let square = told(alloc, SQUARE)?;
    let other = told(
        alloc,
        b"\n  NAME:square\r\nTYPE :TSP \nDIMENSION: 0004\r\n\tEDGE_WEIGHT_TYPE EUC_2D x\nCOMMENT : a\nCOMMENT \xff\nNODE_COORD_SECTION\n4 +10 0 2\n-0 1.0e1 1 .0 0\n\n3.0e0 10 100e-1 EOF:\n1 0\n",
    )?;
    assert!(rt; square == other);
    assert_eq!(rt;
        refused(
            alloc,
            b"TYPE : TSP\nDIMENSION : 3\nEDGE_WEIGHT_TYPE : MAX_2D\nNODE_COORD_SECTION\n1 0 0\n2 0 565.0\n3 16777216 -16777216"
        ),
        (0, 0, 0, 0)
    );
    Ok(())
}

#[test]
fn points_give_the_distances_of_their_kind(rt: HostRuntime) -> Result<(), Fail> {
    let alloc = rt.alloc();
    let square = told(alloc, SQUARE)?;
    let points = [
        Point::new(0, 0),
        Point::new(0, 10),
        Point::new(10, 10),
        Point::new(10, 0),
    ];
    let made = from_points(alloc, Kind::Euc, &points)?;
    assert!(rt; made == square);
    assert!(rt; made.copy(alloc)? == square);
    assert!(rt; from_points(alloc, Kind::Man, &points)? != square);
    assert_eq!(rt; square.n(), 4);
    assert_eq!(rt; made.n(), 4);
    assert_eq!(rt; made.d(0, 2), 14);
    assert_eq!(rt; made.d(3, 2), 10);
    let tour = Tour::identity(alloc, 4)?;
    assert_eq!(rt; tour.n(), 4);
    assert_eq!(rt; made.length(&tour), 40);
    let rows: [(&[u8], u32); 5] = [
        (b"EUC_2D", 7),
        (b"CEIL_2D", 8),
        (b"ATT", 3),
        (b"MAN_2D", 10),
        (b"MAX_2D", 6),
    ];
    for (kind, want) in rows {
        let mut text = Vec::new(alloc);
        text.extend_from_slice(b"DIMENSION 3 TYPE x\nTYPE TSP\nEDGE_WEIGHT_TYPE ")?;
        text.extend_from_slice(kind)?;
        text.extend_from_slice(b"\nNODE_COORD_SECTION 9\n1 0 0\n2 6 -4 3 0 0")?;
        let told = told(alloc, &text)?;
        assert_eq!(rt; told.n(), 3);
        assert_eq!(rt; told.d(0, 1), want, "{kind:?}");
    }
    Ok(())
}

/// The text of four cities whose weights have this format.
fn weighted(alloc: Global, format: &str, weights: &str) -> Result<Instance, ReadError> {
    let mut text = Vec::new(alloc);
    text.extend_from_slice(
        b"TYPE: TSP\nDIMENSION: 4\nEDGE_WEIGHT_TYPE: EXPLICIT\nEDGE_WEIGHT_FORMAT: ",
    )?;
    text.extend_from_slice(format.as_bytes())?;
    text.extend_from_slice(
        b"\nDISPLAY_DATA_TYPE: TWOD_DISPLAY\nDISPLAY_DATA_SECTION\n1 x y 2 . . 3 ? ? 4 ! !\nEDGE_WEIGHT_SECTION\n",
    )?;
    text.extend_from_slice(weights.as_bytes())?;
    told(alloc, &text)
}

#[test]
fn formats_list_the_same_weights(rt: HostRuntime) -> Result<(), Fail> {
    let alloc = rt.alloc();
    let full = weighted(
        alloc,
        "FULL_MATRIX",
        "0 1 2 3\n1 x 4 5\n2 4 -1 6\n3 5 6 .\nEOF",
    )?;
    let rows = [
        ("UPPER_ROW", "1 2 3 4 5 6"),
        ("LOWER_COL", "1 2 3\n4 5\n6\n"),
        ("LOWER_ROW", "1 2 4 3 5 6\nEOF\n?"),
        ("UPPER_COL", "1\n2 4\n3 5 6"),
        ("UPPER_DIAG_ROW", "0 1 2 3 0 4 5 0 6 0"),
        ("LOWER_DIAG_COL", "9 1 2 3 9 4 5 9 6 9"),
        ("LOWER_DIAG_ROW", "0 1 0 2 4 0 3 5 6 0"),
        ("UPPER_DIAG_COL", "0\n1 0\n2 4 0\n3 5 6 0 EOF"),
    ];
    for (format, weights) in rows {
        assert!(rt; weighted(alloc, format, weights)? == full, "{format}");
    }
    assert_eq!(rt; full.n(), 4);
    assert_eq!(rt; full.d(1, 2), 4);
    assert_eq!(rt; full.d(3, 0), 3);
    let lower = weighted(alloc, "LOWER_ROW", "1 2 3 4 5 6")?;
    assert!(rt; weighted(alloc, "UPPER_COL", "1 2 3 4 5 6")? == lower);
    assert_eq!(rt; lower.n(), 4);
    assert_eq!(rt; lower.d(1, 2), 3);
    assert_eq!(rt; lower.d(0, 3), 4);
    Ok(())
}

/// The first lines of a text of three cities with points, and of one with weights, without a section.
const POINTS: &str = "TYPE : TSP\nDIMENSION : 3\nEDGE_WEIGHT_TYPE : EUC_2D\n";

const WEIGHTS: &str =
    "TYPE : TSP\nDIMENSION : 3\nEDGE_WEIGHT_TYPE : EXPLICIT\nEDGE_WEIGHT_FORMAT : FULL_MATRIX\n";

#[test]
fn first_refusals_of_headers(rt: HostRuntime) -> Result<(), Fail> {
    let alloc = rt.alloc();
    let rows: [(&str, &str, (u32, u32, u32, u32)); 22] = [
        // Unknown keywords, which come before what else is wrong with their line.
        ("", "name : x\nDIMENSION : 2\n", (2, 1, 0, 0)),
        ("", ": TYPE\n", (2, 1, 0, 0)),
        (
            POINTS,
            "NODE_COORD_SECTION\n1 0 0 2 0 0 3 0 0 4\nTYPE : TSP\n",
            (2, 5, 0, 0),
        ),
        // Repeated ones.
        ("", "NAME : a\nNAME : b\nTYPE : ATSP\n", (3, 2, 0, 0)),
        (POINTS, "TYPE : ATSP\n", (3, 4, 0, 0)),
        (POINTS, "DIMENSION : 2001\nDIMENSION", (3, 4, 0, 0)),
        // Values.
        ("", "\n\nTYPE : ATSP", (4, 3, 0, 0)),
        ("", "TYPE :", (4, 1, 0, 0)),
        ("", "DIMENSION : 4\nTYPE : tsp\nDIMENSION : 4", (4, 2, 0, 0)),
        ("", "EDGE_WEIGHT_TYPE : GEO\n", (5, 1, 0, 0)),
        (
            "",
            "NAME : x\nEDGE_WEIGHT_TYPE\nEDGE_WEIGHT_FORMAT",
            (5, 2, 0, 0),
        ),
        ("", "EDGE_WEIGHT_TYPE : : EUC_2D", (5, 1, 0, 0)),
        ("", "EDGE_WEIGHT_FORMAT : UPPER", (6, 1, 0, 0)),
        (
            "",
            "EDGE_WEIGHT_FORMAT :\tFUNCTION\nEDGE_WEIGHT_TYPE:EXPLICIT\nDIMENSION 3\nEDGE_WEIGHT_SECTION\n",
            (6, 4, 0, 0),
        ),
        ("", "COMMENT\nCOMMENT\nEDGE_WEIGHT_FORMAT", (6, 3, 0, 0)),
        ("", "TYPE : TSP\nTYPE_X\nDIMENSION : 2", (2, 2, 0, 0)),
        ("", "DIMENSION : 2\nTYPE", (7, 1, 0, 0)),
        ("", "NAME\r\nDIMENSION : 2001", (7, 2, 0, 0)),
        ("", "DIMENSION : +4", (7, 1, 0, 0)),
        // Fixed edges.
        ("", "FIXED_EDGES_SECTION\n1 2\n-1\n", (8, 1, 0, 0)),
        (POINTS, "FIXED_EDGES_SECTION : x", (12, 0, 0, 0)),
        (
            "",
            "TYPE TSP\nTYPE TSP FIXED_EDGES_SECTION\nFIXED_EDGES_SECTION",
            (3, 2, 0, 0),
        ),
    ];
    for (head, rest, want) in rows {
        let text = format!(in alloc; "{head}{rest}")?;
        assert_eq!(rt; refused(alloc, text.as_bytes()), want, "{text}");
    }
    Ok(())
}

#[test]
fn first_refusals_of_sections(rt: HostRuntime) -> Result<(), Fail> {
    let alloc = rt.alloc();
    let rows: [(&str, &str, (u32, u32, u32, u32)); 25] = [
        // Misplaced sections.
        (
            "",
            "TYPE : TSP\nEDGE_WEIGHT_TYPE : EUC_2D\nNODE_COORD_SECTION\n1 x",
            (8, 3, 0, 0),
        ),
        (
            POINTS,
            "EDGE_WEIGHT_FORMAT : FUNCTION\nEDGE_WEIGHT_SECTION\n",
            (8, 5, 0, 0),
        ),
        ("", "DISPLAY_DATA_SECTION\nDIMENSION : 3", (8, 1, 0, 0)),
        ("", "DIMENSION 3\nNODE_COORD_SECTION", (8, 2, 0, 0)),
        (
            "",
            "DIMENSION 3\nEDGE_WEIGHT_TYPE EXPLICIT\nEDGE_WEIGHT_SECTION",
            (8, 3, 0, 0),
        ),
        // Numbers.
        (
            POINTS,
            "NODE_COORD_SECTION\n1 0 0\n2 0 565.5 1 1",
            (9, 6, 2, 0),
        ),
        (
            POINTS,
            "NODE_COORD_SECTION\n1 0 16777217\n1 x",
            (9, 5, 3, 0),
        ),
        (
            POINTS,
            "NODE_COORD_SECTION\nx 0 16777217\n1 x",
            (9, 5, 1, 0),
        ),
        (
            WEIGHTS,
            "EDGE_WEIGHT_SECTION\nx 1073741823 1\n1073741824",
            (9, 7, 3, 0),
        ),
        (WEIGHTS, "EDGE_WEIGHT_SECTION\nx 1\n-1", (9, 7, 3, 0)),
        (WEIGHTS, "EDGE_WEIGHT_SECTION\n0 1 1 .5", (9, 6, 2, 0)),
        // Nodes.
        (
            POINTS,
            "NODE_COORD_SECTION\n3 0 0\n2 0 0\n3 x",
            (10, 7, 0, 0),
        ),
        (POINTS, "NODE_COORD_SECTION\n4 x x", (10, 5, 0, 0)),
        (POINTS, "NODE_COORD_SECTION\n2 0 0 -0 0 0", (10, 5, 0, 0)),
        (
            POINTS,
            "NODE_COORD_SECTION\n99999999999999999999 0 0",
            (10, 5, 0, 0),
        ),
        // Weights that differ.
        (
            "",
            "TYPE : TSP\nDIMENSION : 3\nEDGE_WEIGHT_TYPE : EXPLICIT\nEDGE_WEIGHT_FORMAT : FULL_MATRIX\nEDGE_WEIGHT_SECTION\n0 5 7\n6 0 8\n7 8 0\n",
            (11, 7, 1, 2),
        ),
        (
            WEIGHTS,
            "EDGE_WEIGHT_SECTION\n0 5 7\n5 0 8 7\n9 0\n",
            (11, 8, 2, 3),
        ),
        (
            WEIGHTS,
            "EDGE_WEIGHT_SECTION\n0 5 7 5 0 8 1 x",
            (11, 6, 1, 3),
        ),
        // Texts that end inside a section.
        (POINTS, "NODE_COORD_SECTION\n1 0 0\n2 0 10\n", (12, 0, 0, 0)),
        (
            WEIGHTS,
            "EDGE_WEIGHT_SECTION\n0 5 7 5 0 8 7 8",
            (12, 0, 0, 0),
        ),
        ("", "DIMENSION 3\nDISPLAY_DATA_SECTION", (12, 0, 0, 0)),
        // Texts that lack something.
        ("", "", (13, 0, 1, 0)),
        (WEIGHTS, "EOF\nEDGE_WEIGHT_SECTION", (13, 0, 4, 0)),
        ("", "TYPE TSP\nEOF : 1\nDIMENSION 3", (13, 0, 2, 0)),
        ("", "TYPE TSP\nDIMENSION 3\n", (13, 0, 3, 0)),
    ];
    for (head, rest, want) in rows {
        let text = format!(in alloc; "{head}{rest}")?;
        assert_eq!(rt; refused(alloc, text.as_bytes()), want, "{text}");
    }
    Ok(())
}

#[test]
fn refusals_print_their_numbers(rt: HostRuntime) -> Result<(), Fail> {
    let alloc = rt.alloc();
    let rows = [
        (Refusal::TooLong, "1 0"),
        (Refusal::Repeated(3), "3 3"),
        (Refusal::BadNumber(7, NumberFault::Fractional), "9 7 2"),
        (Refusal::Asymmetric(7, 1, 2), "11 7 1 2"),
        (Refusal::Missing(Part::Distances), "13 0 4"),
        (Refusal::FixedEdges(13, PairFault::Cycle), "14 13 3"),
    ];
    for (refusal, want) in rows {
        let told = format!(in alloc; "{refusal}")?;
        assert_eq!(rt; told.as_str(), want);
    }
    Ok(())
}

#[test]
fn a_text_of_too_many_bytes_is_refused_for_that(rt: HostRuntime) -> Result<(), Fail> {
    let alloc = rt.alloc();
    let mut text = Vec::with_capacity(alloc, 0x400_0001)?;
    text.extend_from_slice(SQUARE)?;
    text.resize(0x400_0000, b'\n')?;
    assert_eq!(rt; refused(alloc, &text), (0, 0, 0, 0));
    text.push(b'\n')?;
    assert_eq!(rt; refused(alloc, &text), (1, 0, 0, 0));
    text.truncate(0);
    text.resize(0x400_0001, b'x')?;
    assert_eq!(rt; refused(alloc, &text), (1, 0, 0, 0));
    text.truncate(0);
    text.resize(0x400_0002, b' ')?;
    assert_eq!(rt; refused(alloc, &text), (1, 0, 0, 0));
    Ok(())
}

/// Whether reading the square fails where the `bad`-th read fails, and not otherwise.
fn fails_there(alloc: Global, most_read: usize, bad: u64) -> Result<bool, Fail>
    requires { 0 < most_read }
{
    match read(alloc, &mut desk(alloc, SQUARE, most_read, &[bad])?) {
        Err(ReadError::Failed) => Ok(true),
        Err(error) => Err(error.into()),
        Ok(_) => Ok(false),
    }
}

#[test]
fn a_read_that_fails_is_told(rt: HostRuntime) -> Result<(), Fail> {
    let alloc = rt.alloc();
    let rows: [(usize, u64); 3] = [(1, 117), (7, 18), (4096, 2)];
    for (most_read, reads) in rows {
        assert!(rt; most_read > 0);
        for bad in 1..reads + 1 {
            assert!(rt; fails_there(alloc, most_read, bad)?, "{most_read} {bad}");
        }
        assert!(rt; !fails_there(alloc, most_read, reads + 1)?, "{most_read}");
    }
    Ok(())
}

const LINES: [&str; 10] = [
    "NAME : square",
    "TYPE : TSP",
    "DIMENSION : 4",
    "EDGE_WEIGHT_TYPE : EUC_2D",
    "NODE_COORD_SECTION",
    "1 0 0",
    "2 0 10",
    "3 10 10",
    "4 10 0",
    "EOF",
];

/// The square's text with another line in the place of one, which counts from 1.
fn with_line(alloc: Global, place: usize, line: &str) -> Result<String, AllocError> {
    let mut text = String::new(alloc);
    for (before, own) in LINES.iter().enumerate() {
        text.push_str(if before + 1 == place { line } else { *own })?;
        text.push_str("\n")?;
    }
    Ok(text)
}

#[test]
fn the_square_with_one_line_changed(rt: HostRuntime) -> Result<(), Fail> {
    let alloc = rt.alloc();
    let square = told(alloc, SQUARE)?;
    assert!(rt; told(alloc, with_line(alloc, 0, "")?.as_bytes())? == square);
    assert!(rt; told(alloc, with_line(alloc, 7, "2 0 1.0e1")?.as_bytes())? == square);
    let rows: [(usize, &str, (u32, u32, u32, u32)); 9] = [
        (7, "2 0 565.0", (0, 0, 0, 0)),
        (7, "2 0 565.5", (9, 7, 2, 0)),
        (7, "2 0 16777217", (9, 7, 3, 0)),
        (4, "EDGE_WEIGHT_TYPE : GEO", (5, 4, 0, 0)),
        (3, "DIMENSION : 2", (7, 3, 0, 0)),
        (3, "DIMENSION : 2001", (7, 3, 0, 0)),
        (9, "3 10 0", (10, 9, 0, 0)),
        (3, "TYPE : ATSP", (3, 3, 0, 0)),
        (3, "NODE_COORD_SECTION", (8, 3, 0, 0)),
    ];
    for (place, line, want) in rows {
        assert_eq!(rt;
            refused(alloc, with_line(alloc, place, line)?.as_bytes()),
            want,
            "{line}"
        );
    }
    let cut =
        b"NAME : square\nTYPE : TSP\nDIMENSION : 4\nEDGE_WEIGHT_TYPE : EUC_2D\nNODE_COORD_SECTION\n1 0 0\n2 0 10\n";
    assert_eq!(rt; refused(alloc, cut), (12, 0, 0, 0));
    Ok(())
}

/// The square's text with these words of fixed edges in the place of its last line.
fn with_edges(alloc: Global, words: &str) -> Result<String, AllocError> {
    with_line(
        alloc,
        10,
        format!(in alloc; "FIXED_EDGES_SECTION\n{words}")?.as_str(),
    )
}

#[test]
fn fixed_edges_are_read(rt: HostRuntime) -> Result<(), Fail> {
    let alloc = rt.alloc();
    let square = told(alloc, SQUARE)?;
    assert!(rt; square.fixed().is_empty() && !square.is_fixed(0, 2));
    let crossed = told(alloc, with_edges(alloc, "1 3\n-1")?.as_bytes())?;
    assert!(rt; crossed.fixed() == [(0, 2)].as_slice());
    assert!(rt; crossed.is_fixed(0, 2) && crossed.is_fixed(2, 0));
    assert!(rt; !crossed.is_fixed(0, 1) && !crossed.is_fixed(0, 4) && !crossed.is_fixed(9, 0));
    assert!(rt; crossed != square && crossed.copy(alloc)? == crossed);
    let before = with_line(alloc, 5, "FIXED_EDGES_SECTION\n3 1 -1\nNODE_COORD_SECTION")?;
    assert!(rt; told(alloc, before.as_bytes())? == crossed);
    let twice = with_edges(alloc, "1 3 3\n1 1 3 -1.0\nEOF")?;
    assert!(rt; told(alloc, twice.as_bytes())? == crossed);
    let whole = told(
        alloc,
        with_edges(alloc, "4 1 2 1\n3 2 2 3 4 3 -1")?.as_bytes(),
    )?;
    assert!(rt; whole.fixed() == [(0, 1), (0, 3), (1, 2), (2, 3)].as_slice());
    assert!(rt; told(alloc, with_edges(alloc, "-1")?.as_bytes())? == square);
    Ok(())
}

#[test]
fn first_refusals_of_fixed_edges(rt: HostRuntime) -> Result<(), Fail> {
    let alloc = rt.alloc();
    let rows: [(&str, (u32, u32, u32, u32)); 13] = [
        ("1 1 5 5", (14, 11, 1, 0)),
        ("1 2 1 3\n1\n4", (14, 13, 2, 0)),
        ("1 2\n2 3\n1 3\n-1", (14, 13, 3, 0)),
        ("1 2\n1 2\n2 1\n3 2 3\n1", (14, 15, 3, 0)),
        ("1 -1\n-1", (10, 11, 0, 0)),
        ("1 5", (10, 11, 0, 0)),
        ("0 1", (10, 11, 0, 0)),
        ("-2 1", (10, 11, 0, 0)),
        ("1.5 1", (9, 11, 2, 0)),
        ("1\nx", (9, 12, 1, 0)),
        ("1 2", (12, 0, 0, 0)),
        ("1 2 3", (12, 0, 0, 0)),
        ("1 2 -1\nFIXED_EDGES_SECTION\n-1", (3, 12, 0, 0)),
    ];
    for (words, want) in rows {
        assert_eq!(rt;
            refused(alloc, with_edges(alloc, words)?.as_bytes()),
            want,
            "{words}"
        );
    }
    Ok(())
}

/// The place of the first pair that the square may not fix, and why, by its number; 9 and 0 where there is none.
fn unfixable(alloc: Global, pairs: &[(u32, u32)]) -> Result<(usize, u32), Fail> {
    match told(alloc, SQUARE)?.fix(alloc, pairs) {
        Ok(_) => Ok((9, 0)),
        Err(FixError::BadFixed { place, k }) => Ok((place, k as u32)),
        Err(FixError::NoMemory) => Ok((9, 9)),
    }
}

#[test]
fn pairs_are_fixed_in_turn(rt: HostRuntime) -> Result<(), Fail> {
    let alloc = rt.alloc();
    assert_eq!(rt; unfixable(alloc, &[(1, 1)])?, (0, 1));
    assert_eq!(rt; unfixable(alloc, &[(0, 1), (4, 4)])?, (1, 4));
    assert_eq!(rt;
        unfixable(alloc, &[(0, 1), (2, 0), (0, 3), (1, 1)])?,
        (2, 2)
    );
    assert_eq!(rt;
        unfixable(alloc, &[(0, 1), (1, 2), (1, 0), (2, 0)])?,
        (3, 3)
    );
    let crossed = told(alloc, SQUARE)?.fix(alloc, &[(2, 0), (0, 2)])?;
    assert!(rt; crossed == told(alloc, with_edges(alloc, "1 3\n-1")?.as_bytes())?);
    let whole = crossed.fix(alloc, &[(0, 1), (3, 2), (2, 1), (3, 0)])?;
    assert!(rt; whole.fixed() == [(0, 1), (0, 3), (1, 2), (2, 3)].as_slice());
    assert!(rt; whole.fix(alloc, &[])? == told(alloc, SQUARE)?);
    Ok(())
}
