//! Runs of the verifier over a desk in memory. The expected lines are worked out from the formats by hand.

ghost use Rattle.std.specs.Prelude.{◌<◌};

use ports::{Inlet, MemDesk, Room};
use std::alloc::{AllocError, Global};
use std::env::FillError;
use std::rt::Env;
use std::test::Fail;
use verification::{VerifyStatus, command_words, run_verify};

const SQUARE: &str =
    "NAME : square\nTYPE : TSP\nDIMENSION : 4\nEDGE_WEIGHT_TYPE : EUC_2D\nNODE_COORD_SECTION\n1 0 0\n2 0 10\n3 10 10\n4 10 0\nEOF\n";

const PRISM: &str =
    "NAME : prism\nTYPE : TSP\nDIMENSION : 6\nEDGE_WEIGHT_TYPE : EXPLICIT\nEDGE_WEIGHT_FORMAT : UPPER_ROW\nEDGE_WEIGHT_SECTION\n1 1 0 100 100\n1 100 0 100\n100 100 0\n1 1\n1\nEOF\n";

const GROUPS: &str =
    "NAME : groups\nTYPE : TSP\nDIMENSION : 6\nEDGE_WEIGHT_TYPE : EXPLICIT\nEDGE_WEIGHT_FORMAT : UPPER_ROW\nEDGE_WEIGHT_SECTION\n1 1 10 10 10\n1 10 10 10\n10 10 10\n1 1\n1\nEOF\n";

/// The square's first five lines.
const HEAD: &str = "TSPCERT 1\nN 4\nLENGTH 40\nTOUR 1 2 3 4\nCUTS 0\n";

/// The square's proof of four duals.
const PROOF: &str =
    "TSPCERT 1\nN 4\nLENGTH 40\nTOUR 1 2 3 4\nCUTS 0\nL 4 0 0\nP 1 5242880\nP 2 5242880\nP 3 5242880\nP 4 5242880\n";

const PRISM_PROOF: &str =
    "TSPCERT 1\nN 6\nLENGTH 4\nTOUR 1 2 3 6 5 4\nCUTS 1\nC 3\nH 3 1 2 3\nT 2 1 4\nT 2 2 5\nT 2 3 6\nL 6 1 0\nP 1 -524288\nP 2 -524288\nP 3 -524288\nP 4 -524288\nP 5 -524288\nP 6 -524288\nY 1 1048576\n";

const GROUPS_PROOF: &str =
    "TSPCERT 1\nN 6\nLENGTH 24\nTOUR 1 2 3 4 5 6\nCUTS 1\nS 3 1 2 3\nK 3 1 2 3\nL 6 1 0\nP 1 524288\nP 2 524288\nP 3 524288\nP 4 524288\nP 5 524288\nP 6 524288\nY 1 9437184\nL 6 0 1\nP 1 524288\nP 2 524288\nP 3 524288\nP 4 524288\nP 5 524288\nP 6 524288\nZ 1 9437184\n";

const ROOM: Room = Room {
    bytes: 1 << 12,
    paths: 64,
    calls: 4_000_000,
};

/// What is to fail, and how long the pieces are.
#[derive(Clone, Copy, Drop)]
struct Faults<'a> {
    most_read: usize,
    most_write: usize,
    bad_binds: &'a [u64],
    bad_reads: &'a [u64],
    bad_writes: &'a [u64],
}

const NONE: Faults<'static> = Faults {
    most_read: 65_536,
    most_write: 65_536,
    bad_binds: &[],
    bad_reads: &[],
    bad_writes: &[],
};

/// A run that has ended.
#[derive(Drop)]
struct Ended {
    status: VerifyStatus,
    desk: MemDesk,
}

fn words(alloc: Global, line: &str) -> Result<Vec<String>, AllocError> {
    let mut words = Vec::new(alloc);
    for word in line.split(' ') {
        words.push(format!(in alloc; "{word}")?)?;
    }
    Ok(words)
}

fn desk_of(
    alloc: Global,
    instance: &str,
    proof: &str,
    faults: &Faults<'_>,
) -> Result<MemDesk, AllocError>
    requires some_read { 0 < faults.now.most_read }
    requires some_write { 0 < faults.now.most_write }
{
    MemDesk::new(
        alloc,
        instance.as_bytes(),
        proof.as_bytes(),
        faults.most_read,
        faults.most_write,
        faults.bad_binds,
        faults.bad_reads,
        faults.bad_writes,
        ROOM,
    )
}

fn run_with(
    alloc: Global,
    line: &str,
    instance: &str,
    proof: &str,
    faults: &Faults<'_>,
) -> Result<Ended, AllocError>
    requires some_read { 0 < faults.now.most_read }
    requires some_write { 0 < faults.now.most_write }
{
    let mut desk = desk_of(alloc, instance, proof, faults)?;
    let status = run_verify(&(), alloc, &words(alloc, line)?, &mut desk);
    Ok(Ended { status, desk })
}

/// Runs the verifier on an instance's text and the bytes of a proof.
fn verified(alloc: Global, instance: &str, proof: &str) -> Result<Ended, AllocError> {
    run_with(alloc, "tspverify a b", instance, proof, &NONE)
}

/// A text with one line, from 1, in place of another.
fn with_line(alloc: Global, text: &str, number: usize, line: &str) -> Result<String, AllocError> {
    let mut changed = format!(in alloc; "")?;
    for (k, old) in text.lines().enumerate() {
        changed.push_str(if k + 1 == number { line } else { old })?;
        changed.push_str("\n")?;
    }
    Ok(changed)
}

fn is_bound_to(path: Option<&[u8]>, word: &[u8]) -> bool {
    match path {
        Some(path) => path == word,
        None => false,
    }
}

#[test]
fn accepted_proofs_are_verified(rt: HostRuntime) -> Result<(), Fail> {
    let alloc = rt.alloc();
    let rows: [(&str, &str, &[u8]); 3] = [
        (SQUARE, PROOF, b"VERIFIED 40\n"),
        (PRISM, PRISM_PROOF, b"VERIFIED 4\n"),
        (GROUPS, GROUPS_PROOF, b"VERIFIED 24\n"),
    ];
    for (instance, proof, want) in rows {
        let ended = verified(alloc, instance, proof)?;
        assert_eq!(rt; ended.status, VerifyStatus::Verified);
        assert_eq!(rt; ended.desk.text(), want);
        assert_eq!(rt; ended.desk.proof(), b"".as_slice());
        assert_eq!(rt; ended.desk.left(Inlet::Proof), b"".as_slice());
    }
    Ok(())
}

#[test]
fn duals_just_above_the_level_close_a_leaf(rt: HostRuntime) -> Result<(), Fail> {
    let alloc = rt.alloc();
    let level =
        "TSPCERT 1\nN 4\nLENGTH 40\nTOUR 1 2 3 4\nCUTS 0\nL 4 0 0\nP 1 5111808\nP 2 5111808\nP 3 5111808\nP 4 5111808\n";
    let at_level = verified(alloc, SQUARE, level)?;
    assert_eq!(rt; at_level.status, VerifyStatus::Refused);
    assert_eq!(rt; at_level.desk.text(), b"REFUSED 7 6\n".as_slice());
    let above = verified(alloc, SQUARE, &with_line(alloc, level, 9, "P 3 5111809")?)?;
    assert_eq!(rt; above.status, VerifyStatus::Verified);
    assert_eq!(rt; above.desk.text(), b"VERIFIED 40\n".as_slice());
    Ok(())
}

#[test]
fn changed_lines_are_refused(rt: HostRuntime) -> Result<(), Fail> {
    let alloc = rt.alloc();
    let rows: [(usize, &str, &[u8]); 10] = [
        (2, "N 5", b"REFUSED 2 2\n"),
        (3, "LENGTH 41", b"REFUSED 4 4\n"),
        (3, "LENGTH 040", b"REFUSED 1 3\n"),
        (4, "TOUR 1 4 3 2", b"REFUSED 3 4\n"),
        (5, "CUTS 4294967296", b"REFUSED 1 5\n"),
        (6, "L 5 0 0", b"REFUSED 1 6\n"),
        (7, "P 1 0", b"REFUSED 1 7\n"),
        (7, "P 1 4611686018427387905", b"REFUSED 1 7\n"),
        (8, "P 1 5242880", b"REFUSED 1 8\n"),
        (6, "E 1 3\nE 1 3", b"REFUSED 6 7\n"),
    ];
    for (number, line, want) in rows {
        let ended = verified(alloc, SQUARE, &with_line(alloc, PROOF, number, line)?)?;
        assert_eq!(rt; ended.status, VerifyStatus::Refused, "{line}");
        assert_eq!(rt; ended.desk.text(), want, "{line}");
    }
    Ok(())
}

#[test]
fn texts_of_another_length_are_refused(rt: HostRuntime) -> Result<(), Fail> {
    let alloc = rt.alloc();
    let open = format!(in alloc; "{HEAD}O\n")?;
    let longer = format!(in alloc; "{PROOF}x")?;
    let rows: [(&str, &[u8]); 4] = [
        (&open, b"REFUSED 8 6\n"),
        (&longer, b"REFUSED 9 11\n"),
        (
            "TSPCERT 1\nN 4\nLENGTH 40\nTOUR 1 2 3 4\nCUTS 0\nL 4 0 0\nP 1 5242880\nP 2 5242880\n",
            b"REFUSED 1 9\n",
        ),
        ("", b"REFUSED 1 1\n"),
    ];
    for (proof, want) in rows {
        let ended = verified(alloc, SQUARE, proof)?;
        assert_eq!(rt; ended.status, VerifyStatus::Refused, "{proof}");
        assert_eq!(rt; ended.desk.text(), want, "{proof}");
    }
    Ok(())
}

#[test]
fn a_comb_of_two_teeth_is_refused(rt: HostRuntime) -> Result<(), Fail> {
    let alloc = rt.alloc();
    let two =
        "TSPCERT 1\nN 6\nLENGTH 4\nTOUR 1 2 3 6 5 4\nCUTS 1\nC 2\nH 3 1 2 3\nT 2 1 4\nT 2 2 5\nL 6 1 0\nP 1 -524288\nP 2 -524288\nP 3 -524288\nP 4 -524288\nP 5 -524288\nP 6 -524288\nY 1 1048576\n";
    let ended = verified(alloc, PRISM, two)?;
    assert_eq!(rt; ended.status, VerifyStatus::Refused);
    assert_eq!(rt; ended.desk.text(), b"REFUSED 5 6\n".as_slice());
    Ok(())
}

#[test]
fn a_deep_tree_uses_no_stack(rt: HostRuntime) -> Result<(), Fail> {
    let alloc = rt.alloc();
    let mut proof = format!(in alloc; "{HEAD}")?;
    for _ in 0..100_000 {
        proof.push_str("K 1 1\n")?;
    }
    let ended = verified(alloc, SQUARE, &proof)?;
    assert_eq!(rt; ended.status, VerifyStatus::Refused);
    assert_eq!(rt; ended.desk.text(), b"REFUSED 1 100006\n".as_slice());
    Ok(())
}

#[test]
fn a_refused_instance_is_told(rt: HostRuntime) -> Result<(), Fail> {
    let alloc = rt.alloc();
    for (number, line, want) in [
        (7, "2 0 565.5", "INSTANCE 9 7 2\n"),
        (4, "EDGE_WEIGHT_TYPE : GEO", "INSTANCE 5 4\n"),
        (3, "DIMENSION : 2", "INSTANCE 7 3\n"),
    ] {
        let ended = verified(alloc, &with_line(alloc, SQUARE, number, line)?, PROOF)?;
        assert_eq!(rt; ended.status, VerifyStatus::BadInstance);
        assert_eq!(rt; ended.desk.text(), want.as_bytes());
        assert_eq!(rt; ended.desk.left(Inlet::Instance), b"".as_slice());
        assert_eq!(rt; ended.desk.left(Inlet::Proof), PROOF.as_bytes());
    }
    Ok(())
}

#[test]
fn each_file_is_bound_once_to_its_word(rt: HostRuntime) -> Result<(), Fail> {
    let alloc = rt.alloc();
    for proof in [PROOF, "", "TSPCERT 1\n"] {
        let ended = run_with(alloc, "tspverify i.tsp p.cert", SQUARE, proof, &NONE)?;
        assert!(rt; is_bound_to(ended.desk.inlet_path(Inlet::Instance), b"i.tsp"));
        assert!(rt; is_bound_to(ended.desk.inlet_path(Inlet::Proof), b"p.cert"));
        assert_eq!(rt; ended.desk.inlet_binds(Inlet::Instance), 1);
        assert_eq!(rt; ended.desk.inlet_binds(Inlet::Proof), 1);
        assert_eq!(rt; ended.desk.proof_binds(), 0);
    }
    Ok(())
}

#[test]
fn no_proof_is_bound_for_a_bad_instance(rt: HostRuntime) -> Result<(), Fail> {
    let alloc = rt.alloc();
    let ended = run_with(
        alloc,
        "tspverify i.tsp p.cert",
        "TYPE : TSP\n",
        PROOF,
        &NONE,
    )?;
    assert_eq!(rt; ended.desk.text(), b"INSTANCE 13 0 2\n".as_slice());
    assert!(rt; is_bound_to(ended.desk.inlet_path(Inlet::Instance), b"i.tsp"));
    assert!(rt; ended.desk.inlet_path(Inlet::Proof).is_none());
    assert_eq!(rt; ended.desk.inlet_binds(Inlet::Instance), 1);
    assert_eq!(rt; ended.desk.inlet_binds(Inlet::Proof), 0);
    assert_eq!(rt; ended.desk.proof_binds(), 0);
    Ok(())
}

#[test]
fn nothing_is_bound_for_other_words(rt: HostRuntime) -> Result<(), Fail> {
    let alloc = rt.alloc();
    let ended = run_with(alloc, "tspverify i.tsp", SQUARE, PROOF, &NONE)?;
    assert!(rt; ended.desk.inlet_path(Inlet::Instance).is_none());
    assert!(rt; ended.desk.inlet_path(Inlet::Proof).is_none());
    assert_eq!(rt; ended.desk.inlet_binds(Inlet::Instance), 0);
    assert_eq!(rt; ended.desk.inlet_binds(Inlet::Proof), 0);
    assert_eq!(rt; ended.desk.proof_binds(), 0);
    assert_eq!(rt; ended.desk.left(Inlet::Instance), SQUARE.as_bytes());
    Ok(())
}

/// A command line whose first word is one byte that is no UTF-8.
#[derive(Drop)]
struct Garbled;

impl Env for Garbled {
    fn arg(&self, i: usize, buf: &mut [u8]) -> Result<usize, FillError> {
        if i > 0 {
            return Err(FillError::NotPresent);
        }
        if buf.is_empty() {
            return Err(FillError::TooLong);
        }
        buf[0] = 255;
        Ok(1)
    }

    fn var(&self, _name: &str, _buf: &mut [u8]) -> Result<usize, FillError> {
        Err(FillError::NotPresent)
    }

    fn var_at(&self, _i: usize, _buf: &mut [u8]) -> Result<usize, FillError> {
        Err(FillError::NotPresent)
    }
}

#[test]
fn words_that_are_no_text_are_usage(rt: HostRuntime) -> Result<(), Fail> {
    let alloc = rt.alloc();
    let words = command_words(&(Garbled, alloc))?;
    assert_eq!(rt; words.len(), 0);
    let mut desk = desk_of(alloc, SQUARE, PROOF, &NONE)?;
    let status = run_verify(&(), alloc, &words, &mut desk);
    assert_eq!(rt; status, VerifyStatus::Usage);
    assert_eq!(rt; desk.text(), b"USAGE tspverify INSTANCE PROOF\n".as_slice());
    Ok(())
}

#[test]
fn other_words_are_usage(rt: HostRuntime) -> Result<(), Fail> {
    let alloc = rt.alloc();
    for line in [
        "tspverify",
        "tspverify a",
        "tspverify a b c",
        "tspverify --help",
        "tspverify a b --budget 1",
    ] {
        let ended = run_with(alloc, line, SQUARE, PROOF, &NONE)?;
        assert_eq!(rt; ended.status, VerifyStatus::Usage, "{line}");
        assert_eq!(rt;
            ended.desk.text(),
            b"USAGE tspverify INSTANCE PROOF\n".as_slice(),
            "{line}"
        );
    }
    Ok(())
}

#[test]
fn each_failing_read_is_told(rt: HostRuntime) -> Result<(), Fail> {
    let alloc = rt.alloc();
    let mut told = 0;
    for k in 1..200 {
        let bad = [k];
        let ended = run_with(
            alloc,
            "tspverify a b",
            SQUARE,
            PROOF,
            &Faults {
                most_read: 7,
                bad_reads: &bad,
                ..NONE
            },
        )?;
        if ended.status == VerifyStatus::Verified {
            assert_eq!(rt; ended.desk.text(), b"VERIFIED 40\n".as_slice());
        } else {
            assert_eq!(rt; ended.status, VerifyStatus::ReadFault, "{k}");
            assert_eq!(rt; ended.desk.text(), b"".as_slice());
            assert_eq!(rt; told, k - 1);
            told = k;
        }
    }
    // 17 pieces of the instance and 15 of the proof, and one read at each end
    assert_eq!(rt; told, 34);
    for k in 1..3 {
        let bad = [k];
        let ended = run_with(
            alloc,
            "tspverify a b",
            SQUARE,
            PROOF,
            &Faults {
                bad_binds: &bad,
                ..NONE
            },
        )?;
        assert_eq!(rt; ended.status, VerifyStatus::ReadFault);
        assert_eq!(rt; ended.desk.text(), b"".as_slice());
    }
    Ok(())
}

#[test]
fn each_failing_write_leaves_a_front(rt: HostRuntime) -> Result<(), Fail> {
    let alloc = rt.alloc();
    for (line, proof, whole) in [
        ("tspverify a b", PROOF, "VERIFIED 40\n"),
        ("tspverify a b", "", "REFUSED 1 1\n"),
        ("tspverify", PROOF, "USAGE tspverify INSTANCE PROOF\n"),
    ] {
        for k in 1..whole.len() + 1 {
            let bad = [k as u64];
            let ended = run_with(
                alloc,
                line,
                SQUARE,
                proof,
                &Faults {
                    most_write: 1,
                    bad_writes: &bad,
                    ..NONE
                },
            )?;
            assert_eq!(rt; ended.status, VerifyStatus::WriteFault);
            assert_eq!(rt; ended.desk.text().len(), k - 1);
            assert!(rt; whole.as_bytes().starts_with(ended.desk.text()));
        }
    }
    Ok(())
}

#[test]
fn pieces_of_any_length_give_the_same_answer(rt: HostRuntime) -> Result<(), Fail> {
    let alloc = rt.alloc();
    let weak = with_line(alloc, PROOF, 10, "P 4 1")?;
    let cut = with_line(alloc, PROOF, 8, "P  2 5242880")?;
    for (instance, proof, want) in [
        (SQUARE, PROOF, "VERIFIED 40\n"),
        (SQUARE, weak.as_str(), "REFUSED 7 6\n"),
        (SQUARE, cut.as_str(), "REFUSED 1 8\n"),
        (PRISM, PRISM_PROOF, "VERIFIED 4\n"),
        (GROUPS, GROUPS_PROOF, "VERIFIED 24\n"),
    ] {
        for most_read in [1, 7, 65_536] {
            let ended = run_with(
                alloc,
                "tspverify a b",
                instance,
                proof,
                &Faults { most_read, ..NONE },
            )?;
            assert_eq!(rt; ended.desk.text(), want.as_bytes());
        }
    }
    Ok(())
}

#[test]
fn statuses_have_their_codes(rt: HostRuntime) -> Result<(), Fail> {
    for (status, code) in [
        (VerifyStatus::Verified, 0),
        (VerifyStatus::Usage, 2),
        (VerifyStatus::BadInstance, 3),
        (VerifyStatus::Refused, 4),
        (VerifyStatus::ReadFault, 6),
        (VerifyStatus::WriteFault, 7),
        (VerifyStatus::NoMemory, 9),
        (VerifyStatus::Within, 10),
    ] {
        assert_eq!(rt; status.code(), code);
    }
    Ok(())
}
