//! Verdicts on texts: those of the worked values of the formats, and a text of a hundred thousand splits.

ghost use Rattle.std.specs.Prelude.{◌<◌};

use certcheck::{Answer, CheckError, check};
use distx::{Kind, Point};
use ports::{Inlet, MemDesk, Room};
use std::alloc::{AllocError, Global};
use std::test::Fail;
use tspinst::{Instance, from_points};

pub(crate) const HEAD: &str = "TSPCERT 1\nN 4\nLENGTH 40\nTOUR 1 2 3 4\nCUTS 0\n";

pub(crate) const DUALS: &str = "L 4 0 0\nP 1 5242880\nP 2 5242880\nP 3 5242880\nP 4 5242880\n";

const ROOM: Room = Room {
    bytes: 1 << 16,
    paths: 64,
    calls: 1_000_000,
};

/// The answer that a tour of this length is shortest.
pub(crate) fn shortest(length: u64) -> Answer {
    Answer::Yes {
        length,
        bound: length,
    }
}

/// The corners of a square of side 10.
pub(crate) fn square(alloc: Global) -> Result<Instance, Fail> {
    let points = [
        Point::new(0, 0),
        Point::new(10, 0),
        Point::new(10, 10),
        Point::new(0, 10),
    ];
    Ok(from_points(alloc, Kind::Euc, &points)?)
}

/// A desk with this proof, which gives at most so many bytes a read, and fails the reads that are listed.
fn desk(alloc: Global, text: &str, most: usize, bad_reads: &[u64]) -> Result<MemDesk, AllocError>
    requires { 0 < most }
{
    MemDesk::new(
        alloc,
        b"",
        text.as_bytes(),
        most,
        1,
        &[],
        bad_reads,
        &[],
        ROOM,
    )
}

/// The verdict on a text for the square.
fn verdict(alloc: Global, text: &str, most: usize) -> Result<Answer, Fail>
    requires { 0 < most }
{
    let mut desk = desk(alloc, text, most, &[])?;
    let answer = check(alloc, &square(alloc)?, &mut desk);
    answer.map_err(|_| "no verdict".into())
}

#[test]
fn a_proof_is_accepted_in_pieces_of_each_size(rt: HostRuntime) -> Result<(), Fail> {
    let alloc = rt.alloc();
    let text = format!(in alloc; "{HEAD}{DUALS}")?;
    for most in [1usize, 2, 7, 64, 65_536] {
        assert_eq!(rt; verdict(alloc, &text, most.max(1))?, shortest(40));
    }
    Ok(())
}

#[test]
fn first_refusals(rt: HostRuntime) -> Result<(), Fail> {
    let alloc = rt.alloc();
    let rows = [
        ("O\n", Answer::No(8, 6)),
        ("E 1 3\nE 1 3\n", Answer::No(6, 7)),
        ("E 1 3\nL 0 0 0\n", Answer::No(7, 7)),
        ("L 4 0 0\nP 1 1\nP 2 1\nP 3 1\nP 4 1\n", Answer::No(7, 6)),
        ("L 1 0 0\nP 0 1\n", Answer::No(1, 7)),
        ("L 2 0 0\nP 1 1\nP 1 1\n", Answer::No(1, 8)),
        ("L 0 1 0\nY 1 1\n", Answer::No(1, 7)),
        ("E 1 2\nL 0 0 1\nZ 1 1\n", Answer::No(1, 8)),
        ("K 4 1 2 3 4\n", Answer::No(5, 6)),
        ("K 2 1 2\nL 0 0 1\nZ 1 1\n", Answer::No(7, 7)),
        ("K 2 1 2\n", Answer::No(1, 7)),
        ("", Answer::No(1, 6)),
    ];
    for (tree, answer) in &rows {
        let text = format!(in alloc; "{HEAD}{tree}")?;
        assert_eq!(rt; verdict(alloc, &text, 3)?, *answer);
        assert_eq!(rt; verdict(alloc, &text, 65_536)?, *answer);
    }
    Ok(())
}

#[test]
fn bytes_behind_the_tree_are_refused(rt: HostRuntime) -> Result<(), Fail> {
    let alloc = rt.alloc();
    for more in ["\n", "x", "O\n", " "] {
        let text = format!(in alloc; "{HEAD}{DUALS}{more}")?;
        assert_eq!(rt; verdict(alloc, &text, 5)?, Answer::No(9, 11));
        assert_eq!(rt; verdict(alloc, &text, 65_536)?, Answer::No(9, 11));
    }
    Ok(())
}

#[test]
fn what_stands_behind_the_piece_of_a_refusal_is_left(rt: HostRuntime) -> Result<(), Fail> {
    let alloc = rt.alloc();
    let text = format!(in alloc; "{HEAD}O\n{DUALS}{DUALS}")?;
    let mut desk = desk(alloc, &text, 10, &[])?;
    assert_eq!(rt;
        check(alloc, &square(alloc)?, &mut desk),
        Ok(Answer::No(8, 6))
    );
    assert_eq!(rt; desk.left(Inlet::Proof).len() + 50, text.len());
    Ok(())
}

#[test]
fn both_children_of_a_split_are_wanted(rt: HostRuntime) -> Result<(), Fail> {
    let alloc = rt.alloc();
    let edge = format!(in alloc; "{HEAD}E 1 3\n{DUALS}{DUALS}")?;
    assert_eq!(rt; verdict(alloc, &edge, 65_536)?, shortest(40));
    let clique = format!(in alloc; "{HEAD}K 2 1 2\nE 1 3\n{DUALS}{DUALS}{DUALS}")?;
    assert_eq!(rt; verdict(alloc, &clique, 65_536)?, shortest(40));
    let half = format!(in alloc; "{HEAD}K 2 1 2\n{DUALS}")?;
    assert_eq!(rt; verdict(alloc, &half, 65_536)?, Answer::No(1, 12));
    Ok(())
}

/// A diagonal of the square is fixed.
#[test]
fn a_fixed_pair_is_on_each_path(rt: HostRuntime) -> Result<(), Fail> {
    let alloc = rt.alloc();
    let crossed = square(alloc)?.fix(alloc, &[(0, 2)])?;
    let head = "TSPCERT 1\nN 4\nLENGTH 48\nTOUR 1 2 4 3\nCUTS 0\n";
    let duals = "L 4 0 0\nP 1 3145728\nP 2 7340032\nP 3 3145728\nP 4 7340032\n";
    let rows = [
        (HEAD, DUALS, Answer::No(3, 4)),
        (head, duals, shortest(48)),
        (head, "E 1 3\n", Answer::No(6, 6)),
        (head, "E 2 4\nE 1 3\n", Answer::No(6, 7)),
        (head, "K 2 1 2\nL 0 0 1\nZ 1 1\n", Answer::No(7, 7)),
        (head, "K 2 1 2\nL 0 0 1\nZ 2 1\n", Answer::No(1, 8)),
    ];
    for (head, tree, answer) in &rows {
        let text = format!(in alloc; "{head}{tree}")?;
        let mut desk = desk(alloc, &text, 65_536, &[])?;
        assert_eq!(rt; check(alloc, &crossed, &mut desk), Ok(*answer));
    }
    let text = format!(in alloc; "{head}E 2 4\n{duals}{duals}")?;
    let mut desk = desk(alloc, &text, 65_536, &[])?;
    assert_eq!(rt; check(alloc, &crossed, &mut desk), Ok(shortest(48)));
    Ok(())
}

#[test]
fn a_hundred_thousand_splits_take_no_stack(rt: HostRuntime) -> Result<(), Fail> {
    let alloc = rt.alloc();
    let mut text = format!(in alloc; "{HEAD}")?;
    for _ in 0..100_000u32 {
        text.push_str("K 1 1\n")?;
    }
    assert_eq!(rt; verdict(alloc, &text, 65_536)?, Answer::No(1, 100_006));
    Ok(())
}

#[test]
fn a_read_that_fails_is_told(rt: HostRuntime) -> Result<(), Fail> {
    let alloc = rt.alloc();
    let text = format!(in alloc; "{HEAD}{DUALS}")?;
    for k in 1..7u64 {
        let mut desk = desk(alloc, &text, 20, &[k])?;
        assert_eq!(rt;
            check(alloc, &square(alloc)?, &mut desk),
            Err(CheckError::Failed)
        );
        assert_eq!(rt; desk.read_faults(), 1);
        assert_eq!(rt;
            desk.left(Inlet::Proof).len() + 20 * (k as usize - 1),
            text.len()
        );
    }
    Ok(())
}
