//! Runs of the viewer over a desk in memory. The pictures and the lines are worked out by hand.
ghost use Rattle.std.specs.Prelude.{◌<◌};

use ports::{Inlet, MemDesk, Room};
use std::alloc::{AllocError, Global};
use std::test::Fail;
use viewing::{ViewStatus, run_view};

const SQUARE: &str =
    "NAME : square\nTYPE : TSP\nDIMENSION : 4\nEDGE_WEIGHT_TYPE : EUC_2D\nNODE_COORD_SECTION\n1 0 0\n2 0 10\n3 10 10\n4 10 0\nFIXED_EDGES_SECTION\n2 3\n-1\nEOF\n";

const TABLE: &str =
    "TYPE : TSP\nDIMENSION : 4\nEDGE_WEIGHT_TYPE : EXPLICIT\nEDGE_WEIGHT_FORMAT : UPPER_ROW\nEDGE_WEIGHT_SECTION\n10 14 10\n10 14\n10\nEOF\n";

/// The square's proof of four duals.
const PROOF: &str =
    "TSPCERT 1\nN 4\nLENGTH 40\nTOUR 1 2 3 4\nCUTS 0\nL 4 0 0\nP 1 5242880\nP 2 5242880\nP 3 5242880\nP 4 5242880\n";

/// A body whose tree has a split by a pair, an open leaf and a closed one.
const BODY: &str =
    "TSPCERT 1\nN 4\nLENGTH 40\nTOUR 1 2 3 4\nCUTS 0\nE 1 3\nO\nL 4 0 0\nP 1 5242880\nP 2 5242880\nP 3 5242880\nP 4 5242880\n";

const HEAD: &str =
    "<svg xmlns='http://www.w3.org/2000/svg' viewBox='0 0 1000 1240'>\n<rect width='1000' height='1240' fill='#ffffff'/>\n<polygon fill='none' stroke='#4477aa' stroke-width='2' points='";

/// The square by its coordinates, up to the note on the tree.
const PLANE: &str =
    "20,980 20,20 980,20 980,980 '/>\n<g stroke='#cc3311' stroke-width='5'>\n<line x1='20' y1='20' x2='980' y2='20'/>\n</g>\n<g fill='#222222'>\n<circle cx='20' cy='980' r='5'><title>1</title></circle>\n<circle cx='20' cy='20' r='5'><title>2</title></circle>\n<circle cx='980' cy='20' r='5'><title>3</title></circle>\n<circle cx='980' cy='980' r='5'><title>4</title></circle>\n</g>\n<g font-family='sans-serif' font-size='20'>\n<text x='20' y='1020'>4 cities, a tour of length 40</text>\n<text x='20' y='1045'>drawn by their coordinates; fixed pairs are red</text>\n";

/// Its table on a circle.
const CIRCLE: &str =
    "500,40 960,500 500,960 40,500 '/>\n<g stroke='#cc3311' stroke-width='5'>\n</g>\n<g fill='#222222'>\n<circle cx='500' cy='40' r='5'><title>1</title></circle>\n<circle cx='960' cy='500' r='5'><title>2</title></circle>\n<circle cx='500' cy='960' r='5'><title>3</title></circle>\n<circle cx='40' cy='500' r='5'><title>4</title></circle>\n</g>\n<g font-family='sans-serif' font-size='20'>\n<text x='20' y='1020'>4 cities, a tour of length 40</text>\n<text x='20' y='1045'>no coordinates: drawn on a circle, by their numbers; fixed pairs are red</text>\n";

/// A tree of one closed leaf.
const ONE: &str =
    "<text x='20' y='1080'>the tree by depth: 0 split (grey), 1 closed (green), 0 open (orange)</text>\n</g>\n<rect x='20' y='1100' width='40' height='120' fill='#228833'/>\n</svg>\n";

/// A split, with an open and a closed leaf below it.
const TWO: &str =
    "<text x='20' y='1080'>the tree by depth: 1 split (grey), 1 closed (green), 1 open (orange)</text>\n</g>\n<rect x='20' y='1160' width='40' height='60' fill='#bbbbbb'/>\n<rect x='60' y='1160' width='40' height='60' fill='#228833'/>\n<rect x='60' y='1100' width='40' height='60' fill='#ee7733'/>\n</svg>\n";

/// What is to fail, and how long the pieces are.
#[derive(Clone, Copy, Drop)]
struct Faults<'a> {
    most: usize,
    bad_binds: &'a [u64],
    bad_reads: &'a [u64],
    bad_writes: &'a [u64],
}

const NONE: Faults<'static> = Faults {
    most: 4096,
    bad_binds: &[],
    bad_reads: &[],
    bad_writes: &[],
};

/// A run that has ended.
#[derive(Drop)]
struct Ended {
    status: ViewStatus,
    desk: MemDesk,
}

fn run_with(
    alloc: Global,
    line: &str,
    instance: &str,
    text: &str,
    faults: &Faults<'_>,
) -> Result<Ended, AllocError>
    requires { 0 < faults.now.most }
{
    let mut words = Vec::new(alloc);
    for word in line.split(' ') {
        words.push(format!(in alloc; "{word}")?)?;
    }
    let mut desk = MemDesk::new(
        alloc,
        instance.as_bytes(),
        text.as_bytes(),
        faults.most,
        faults.most,
        faults.bad_binds,
        faults.bad_reads,
        faults.bad_writes,
        Room {
            bytes: 1 << 13,
            paths: 64,
            calls: 1 << 20,
        },
    )?;
    let status = run_view(&(), alloc, &words, &mut desk);
    Ok(Ended { status, desk })
}

/// Whether a path was bound, and is this one.
fn is_bound_to(path: Option<&[u8]>, want: &[u8]) -> bool {
    match path {
        Some(path) => path == want,
        None => false,
    }
}

#[test]
fn proofs_and_bodies_are_drawn(rt: HostRuntime) -> Result<(), Fail> {
    let alloc = rt.alloc();
    for (instance, text, places, tree) in [
        (SQUARE, PROOF, PLANE, ONE),
        (SQUARE, BODY, PLANE, TWO),
        (TABLE, PROOF, CIRCLE, ONE),
        (TABLE, BODY, CIRCLE, TWO),
    ] {
        let want = format!(in alloc; "{HEAD}{places}{tree}")?;
        for most in [1, 100, 4096] {
            let ended = run_with(
                alloc,
                "tspview i p o",
                instance,
                text,
                &Faults { most, ..NONE },
            )?;
            assert_eq!(rt; ended.status, ViewStatus::Drawn);
            assert_eq!(rt; ended.desk.proof(), want.as_bytes());
            assert_eq!(rt; ended.desk.text(), b"DRAWN 40\n".as_slice());
            assert!(rt; is_bound_to(ended.desk.inlet_path(Inlet::Instance), b"i"));
            assert!(rt; is_bound_to(ended.desk.inlet_path(Inlet::Proof), b"p"));
            assert!(rt; is_bound_to(ended.desk.proof_path(), b"o"));
        }
    }
    Ok(())
}

#[test]
fn other_words_and_texts_are_refused(rt: HostRuntime) -> Result<(), Fail> {
    let alloc = rt.alloc();
    for line in [
        "tspview",
        "tspview a b",
        "tspview a b c d",
        "tspview --help",
        "tspview a b --out",
    ] {
        let ended = run_with(alloc, line, SQUARE, PROOF, &NONE)?;
        assert_eq!(rt; ended.status, ViewStatus::Usage, "{line}");
        assert_eq!(rt;
            ended.desk.text(),
            b"USAGE tspview INSTANCE TEXT OUT\n".as_slice()
        );
        assert_eq!(rt; ended.desk.left(Inlet::Instance), SQUARE.as_bytes());
    }
    for (text, want) in [
        ("", "REFUSED 1 1\n"),
        ("TSPCERT 1\nN 5\n", "REFUSED 2 2\n"),
        ("TSPCERT 1\nN 4\nLENGTH 40\nTOUR 1 4 3 2\n", "REFUSED 3 4\n"),
        ("TSPCERT 1\nN 4\nLENGTH 48\nTOUR 1 2 4 3\n", "REFUSED 3 4\n"),
        ("TSPCERT 1\nN 4\nLENGTH 39\nTOUR 1 2 3 4\n", "REFUSED 4 4\n"),
        (
            "TSPCERT 1\nN 4\nLENGTH 40\nTOUR 1 2 3 4\nCUTS 0\nL 0 0 0\n",
            "REFUSED 7 6\n",
        ),
        (
            "TSPCERT 1\nN 4\nLENGTH 40\nTOUR 1 2 3 4\nCUTS 0\nO\nO\n",
            "REFUSED 9 7\n",
        ),
    ] {
        let ended = run_with(alloc, "tspview i p o", SQUARE, text, &NONE)?;
        assert_eq!(rt; ended.status, ViewStatus::Refused, "{text}");
        assert_eq!(rt; ended.desk.text(), want.as_bytes(), "{text}");
        assert_eq!(rt; ended.desk.proof_binds(), 0);
        assert_eq!(rt; ended.desk.proof(), b"".as_slice());
    }
    let ended = run_with(alloc, "tspview i p o", "TYPE : TSP\n", PROOF, &NONE)?;
    assert_eq!(rt; ended.status, ViewStatus::BadInstance);
    assert_eq!(rt; ended.desk.text(), b"INSTANCE 13 0 2\n".as_slice());
    assert_eq!(rt; ended.desk.inlet_binds(Inlet::Proof), 0);
    for (status, code) in [
        (ViewStatus::Drawn, 0),
        (ViewStatus::Usage, 2),
        (ViewStatus::BadInstance, 3),
        (ViewStatus::Refused, 4),
        (ViewStatus::ReadFault, 6),
        (ViewStatus::WriteFault, 7),
        (ViewStatus::NoMemory, 9),
    ] {
        assert_eq!(rt; status.code(), code);
    }
    Ok(())
}

#[test]
fn each_fault_is_told(rt: HostRuntime) -> Result<(), Fail> {
    let alloc = rt.alloc();
    let want = format!(in alloc; "{HEAD}{PLANE}{ONE}")?;
    for (k, status) in [
        (1, ViewStatus::ReadFault),
        (2, ViewStatus::ReadFault),
        (3, ViewStatus::WriteFault),
        (4, ViewStatus::Drawn),
    ] {
        let bad = [k];
        let faults = Faults {
            bad_binds: &bad,
            ..NONE
        };
        let ended = run_with(alloc, "tspview i p o", SQUARE, PROOF, &faults)?;
        assert_eq!(rt; ended.status, status, "bind {k}");
    }
    // each read of a byte of both files, and one at each end
    let count = (SQUARE.len() + PROOF.len() + 2) as u64;
    for k in 1..count + 2 {
        let bad = [k];
        let faults = Faults {
            most: 1,
            bad_reads: &bad,
            ..NONE
        };
        let ended = run_with(alloc, "tspview i p o", SQUARE, PROOF, &faults)?;
        if k <= count {
            assert_eq!(rt; ended.status, ViewStatus::ReadFault, "read {k}");
            assert_eq!(rt; ended.desk.text().len() + ended.desk.proof().len(), 0);
        } else {
            assert_eq!(rt; ended.status, ViewStatus::Drawn);
        }
    }
    // pieces of 100 bytes of the picture, and the line that is printed
    for k in 1..want.len().div_ceil(100) as u64 + 2 {
        let bad = [k];
        let faults = Faults {
            most: 100,
            bad_writes: &bad,
            ..NONE
        };
        let ended = run_with(alloc, "tspview i p o", SQUARE, PROOF, &faults)?;
        assert_eq!(rt; ended.status, ViewStatus::WriteFault, "write {k}");
        assert_eq!(rt; ended.desk.text(), b"".as_slice());
        assert_eq!(rt;
            ended.desk.proof().len() as u64,
            ((k - 1) * 100).min(want.len() as u64)
        );
        assert!(rt; want.as_bytes().starts_with(ended.desk.proof()));
    }
    Ok(())
}
