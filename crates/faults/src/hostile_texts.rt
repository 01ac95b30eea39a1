//! Texts that are no instance and no proof, each with what is told of it.
use crate::cases::{Case, SQUARE, VERIFY};
use crate::runs::{NONE, ended};
use std::alloc::Global;
use std::sync::Wait;
use std::test::Fail;
use std::thread::Threads;

/// Whether `verify` prints this line of an instance and a proof.
fn prints<'x, R: Threads + Wait + Sync>(
    rt: &R,
    alloc: Global,
    instance: &'x str,
    proof: &'x str,
    line: &str,
) -> Result<bool, Fail> {
    let case = Case {
        instance,
        proof: proof.as_bytes(),
        ..VERIFY
    };
    let told = ended(rt, alloc, &case, &NONE)?;
    Ok(told.text.as_slice() == line.as_bytes())
}

/// The square's proof.
fn proof_text() -> &'static str {
    std::str::from_utf8(VERIFY.proof).unwrap_or("")
}

/// The square's proof with one line, from 1 on, in place of another.
fn with_line(alloc: Global, number: usize, line: &str) -> Result<String, Fail> {
    let mut text = String::new(alloc);
    let mut at = 1usize;
    for old in proof_text().lines() {
        text.push_str(if at == number { line } else { old })?;
        text.push_str("\n")?;
        at = at.saturating_add(1);
    }
    Ok(text)
}

/// The first row of a table that is told otherwise: the line that stands in the place of another, and what is printed.
fn first_other<R: Threads + Wait + Sync>(
    rt: &R,
    alloc: Global,
    table: &[(usize, &str, &str)],
) -> Result<Option<usize>, Fail> {
    for row in 0..table.len() {
        let (number, line, told) = table[row];
        let proof = with_line(alloc, number, line)?;
        if !prints(rt, alloc, SQUARE, &proof, told)? {
            return Ok(Some(row));
        }
    }
    Ok(None)
}

#[test]
fn the_squares_proof_is_verified_and_an_empty_one_is_none(rt: HostRuntime) -> Result<(), Fail> {
    let alloc = rt.alloc();
    assert!(rt; prints(&rt, alloc, SQUARE, proof_text(), "VERIFIED 40\n")?);
    assert!(rt; prints(&rt, alloc, SQUARE, "", "REFUSED 1 1\n")?);
    Ok(())
}

#[test]
fn numbers_past_their_limits_are_of_no_form(rt: HostRuntime) -> Result<(), Fail> {
    let table = [
        (5, "CUTS 4294967296", "REFUSED 1 5\n"),
        (6, "L 5 0 0", "REFUSED 1 6\n"),
        (7, "P 1 0", "REFUSED 1 7\n"),
        (7, "P 1 4611686018427387905", "REFUSED 1 7\n"),
        (8, "P 1 5242880", "REFUSED 1 8\n"),
        (3, "LENGTH 040", "REFUSED 1 3\n"),
    ];
    assert_eq!(rt; first_other(&rt, rt.alloc(), &table)?, None);
    Ok(())
}

#[test]
fn a_proof_of_another_tour_or_size_is_refused(rt: HostRuntime) -> Result<(), Fail> {
    let table = [
        (2, "N 5", "REFUSED 2 2\n"),
        (4, "TOUR 1 4 3 2", "REFUSED 3 4\n"),
        (3, "LENGTH 41", "REFUSED 4 4\n"),
        (6, "O", "REFUSED 8 6\n"),
    ];
    assert_eq!(rt; first_other(&rt, rt.alloc(), &table)?, None);
    Ok(())
}

#[test]
fn texts_that_are_no_instance_are_told(rt: HostRuntime) -> Result<(), Fail> {
    let alloc = rt.alloc();
    let far =
        "NAME : square\nTYPE : TSP\nDIMENSION : 4\nEDGE_WEIGHT_TYPE : EUC_2D\nNODE_COORD_SECTION\n1 0 0\n2 16777217 10\n3 10 10\n4 10 0\nEOF\n";
    assert!(rt;
        prints(&rt, alloc, far, proof_text(), "INSTANCE 9 7 3\n")?,
        "a coordinate"
    );
    let exchanged =
        "NAME : square\nTYPE : TSP\nNODE_COORD_SECTION\n1 0 0\n2 0 10\n3 10 10\n4 10 0\nDIMENSION : 4\nEDGE_WEIGHT_TYPE : EUC_2D\nEOF\n";
    assert!(rt;
        prints(&rt, alloc, exchanged, proof_text(), "INSTANCE 8 3\n")?,
        "sections"
    );
    let twice = "NAME : square\nTYPE : TSP\nTYPE : ATSP\nDIMENSION : 4\nEOF\n";
    assert!(rt;
        prints(&rt, alloc, twice, proof_text(), "INSTANCE 3 3\n")?,
        "a keyword"
    );
    Ok(())
}
