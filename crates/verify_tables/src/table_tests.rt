//! Texts that are refused, each with the refusal and the line that the grammar gives it by hand.

use crate::runs::{HEAD, PROOF, SQUARE, verified, with_line};
use std::alloc::{AllocError, Global};
use std::test::Fail;
use verification::VerifyStatus;

/// What the verifier prints for the square and a proof.
pub(crate) fn printed(alloc: Global, proof: &str) -> Result<String, AllocError> {
    printed_for(alloc, SQUARE, proof)
}

/// What it prints for an instance and a proof.
pub(crate) fn printed_for(
    alloc: Global,
    instance: &str,
    proof: &str,
) -> Result<String, AllocError> {
    let ended = verified(alloc, instance, proof)?;
    let mut text = format!(in alloc; "")?;
    for byte in ended.desk.text() {
        text.push(char::from(*byte))?;
    }
    Ok(text)
}

/// A line of the square's proof is changed.
#[test]
fn titles_and_sizes(rt: HostRuntime) -> Result<(), Fail> {
    let alloc = rt.alloc();
    for (number, line, want) in [
        (1, "TSPCERT 2", "1 4"),
        (1, "TSPCERT 3", "1 1"),
        (1, "TSPCERT 0", "1 1"),
        (1, "TSPCERT 01", "1 1"),
        (1, " TSPCERT 1", "1 1"),
        (1, "tspcert 1", "1 1"),
        (1, "", "1 1"),
        (2, "N 04", "1 2"),
        (2, "N 4294967295", "2 2"),
        (2, "N 4294967296", "1 2"),
        (2, "N 3", "2 2"),
        (2, "N -4", "1 2"),
        (3, "LENGTH 4398046511104", "4 4"),
        (3, "LENGTH 4398046511105", "1 3"),
        (3, "LENGTH 39", "4 4"),
        (3, "LENGTH -40", "1 3"),
        (3, "LENGTH  40", "1 3"),
    ] {
        let proof = with_line(alloc, PROOF, number, line)?;
        let want = format!(in alloc; "REFUSED {want}\n")?;
        assert_eq!(rt; printed(alloc, &proof)?.as_str(), want.as_str(), "{line}");
    }
    Ok(())
}

/// A line of the square's proof is changed.
#[test]
fn tours(rt: HostRuntime) -> Result<(), Fail> {
    let alloc = rt.alloc();
    for (number, line, want) in [
        (4, "TOUR 1 2 3", "1 4"),
        (4, "TOUR 1 2 3 4 4", "1 4"),
        (4, "TOUR 1 2 3 3", "3 4"),
        (4, "TOUR 1 2 3 5", "3 4"),
        (4, "TOUR 0 1 2 3", "3 4"),
        (4, "TOUR 2 1 4 3", "3 4"),
        (4, "TOUR 1 3 2 4", "4 4"),
        (4, "TOUR 1 2 3 04", "1 4"),
        (4, "TOUR 1 2 3 9999999999", "3 4"),
        (4, "TOUR 1 2 3 10000000000", "1 4"),
        (4, "TOUR 1 2 3 -4", "1 4"),
        (4, "TOUR 1 2 3 4 ", "1 4"),
        (5, "CUTS 4294967295", "1 6"),
        (5, "CUTS 1", "1 6"),
        (5, "CUTS -1", "1 5"),
        (5, "CUTS 00", "1 5"),
    ] {
        let proof = with_line(alloc, PROOF, number, line)?;
        let want = format!(in alloc; "REFUSED {want}\n")?;
        assert_eq!(rt; printed(alloc, &proof)?.as_str(), want.as_str(), "{line}");
    }
    Ok(())
}

/// A line of the square's proof is changed.
#[test]
fn leaves_and_splits(rt: HostRuntime) -> Result<(), Fail> {
    let alloc = rt.alloc();
    for (number, line, want) in [
        (6, "L 4 0 0 0", "1 6"),
        (6, "L 4 0", "1 6"),
        (6, "L 4 4097 0", "1 6"),
        (6, "L 4 4096 0", "1 11"),
        (6, "L 4 0 4097", "1 6"),
        (6, "L 4 0 4096", "1 11"),
        (6, "L 3 0 0", "7 6"),
        (6, "L 0 0 0", "7 6"),
        (6, "E 1 1", "1 6"),
        (6, "E 2 1", "1 6"),
        (6, "E 0 1", "1 6"),
        (6, "E 1 5", "1 6"),
        (6, "E 1 3", "1 7"),
        (6, "K 4 1 2 3 4", "5 6"),
        (6, "K 0", "1 6"),
        (6, "K 2 2 1", "1 6"),
        (6, "K 2 1 1", "1 6"),
        (6, "K 2 1", "1 6"),
        (6, "K 1 5", "1 6"),
        (6, "K 1 2 3", "1 6"),
    ] {
        let proof = with_line(alloc, PROOF, number, line)?;
        let want = format!(in alloc; "REFUSED {want}\n")?;
        assert_eq!(rt; printed(alloc, &proof)?.as_str(), want.as_str(), "{line}");
    }
    Ok(())
}

/// A line of the square's proof is changed.
#[test]
fn duals_of_cities(rt: HostRuntime) -> Result<(), Fail> {
    let alloc = rt.alloc();
    for (number, line, want) in [
        (7, "P 1 -0", "1 7"),
        (7, "P 0 5242880", "1 7"),
        (7, "P 5 5242880", "1 7"),
        (7, "P 1 4611686018427387904", "7 6"),
        (7, "P 1 -4611686018427387904", "7 6"),
        (7, "P 1 -4611686018427387905", "1 7"),
        (7, "P 1 +5242880", "1 7"),
        (7, "Y 1 1", "1 7"),
        (7, "p 1 5242880", "1 7"),
        (8, "P 3 5242880", "1 9"),
        (10, "P 4 5242880\r", "1 10"),
        (10, "P 4 0", "1 10"),
        (10, "P 4 5242880 ", "1 10"),
        (10, "O", "1 10"),
    ] {
        let proof = with_line(alloc, PROOF, number, line)?;
        let want = format!(in alloc; "REFUSED {want}\n")?;
        assert_eq!(rt; printed(alloc, &proof)?.as_str(), want.as_str(), "{line}");
    }
    Ok(())
}

/// What follows the square's tour is changed.
#[test]
fn cuts(rt: HostRuntime) -> Result<(), Fail> {
    let alloc = rt.alloc();
    for (rest, want) in [
        ("CUTS 1\nS 4 1 2 3 4\n", "5 6"),
        ("CUTS 1\nS 1 1\nL 0 0 0\n", "7 7"),
        ("CUTS 1\nS 2 2 1\n", "1 6"),
        ("CUTS 1\nS 0\n", "1 6"),
        ("CUTS 1\nS 2 1 2\nL 0 1 0\nY 1 0\n", "1 8"),
        ("CUTS 1\nS 2 1 2\nL 0 1 0\nY 1 4611686018427387904\n", "7 7"),
        ("CUTS 1\nS 2 1 2\nL 0 1 0\nY 1 4611686018427387905\n", "1 8"),
        ("CUTS 1\nS 2 1 2\nL 0 1 0\nY 2 1\n", "1 8"),
        ("CUTS 1\nS 2 1 2\nL 0 1 0\nY 0 1\n", "1 8"),
        ("CUTS 1\nS 2 1 2\nL 0 1 0\nY 4294967295 1\n", "1 8"),
        ("CUTS 1\nS 2 1 2\nL 0 1 0\n", "1 8"),
        ("CUTS 2\nS 2 1 2\nS 2 2 3\nL 0 2 0\nY 2 1\nY 1 1\n", "1 10"),
        ("CUTS 2\nS 2 1 2\nS 2 2 3\nL 0 2 0\nY 1 1\nY 1 1\n", "1 10"),
    ] {
        let proof = format!(in alloc; "TSPCERT 1\nN 4\nLENGTH 40\nTOUR 1 2 3 4\n{rest}")?;
        let want = format!(in alloc; "REFUSED {want}\n")?;
        assert_eq!(rt; printed(alloc, &proof)?.as_str(), want.as_str(), "{rest}");
    }
    Ok(())
}

/// What follows the square's tour is changed.
#[test]
fn combs(rt: HostRuntime) -> Result<(), Fail> {
    let alloc = rt.alloc();
    for (rest, want) in [
        ("CUTS 1\nC 2001\n", "1 6"),
        ("CUTS 1\nC 2000\n", "1 7"),
        ("CUTS 1\nC 0\nH 2 1 2\n", "5 6"),
        ("CUTS 1\nC 1\nH 2 1 2\nT 2 1 3\n", "5 6"),
        ("CUTS 1\nC 1\nH 2 1 2\nT 2 3 1\n", "1 8"),
        ("CUTS 1\nC 1\nH 2 1 2\n", "1 8"),
        ("CUTS 1\nC 1\nT 2 1 3\n", "1 7"),
        ("CUTS 1\nC 1\nH 4 1 2 3 4\nT 2 1 3\n", "5 6"),
        ("CUTS 1\nH 2 1 2\n", "1 6"),
        ("CUTS 1\nC 3\nH 1 1\nT 2 1 2\nT 2 1 3\nT 2 1 4\n", "5 6"),
    ] {
        let proof = format!(in alloc; "TSPCERT 1\nN 4\nLENGTH 40\nTOUR 1 2 3 4\n{rest}")?;
        let want = format!(in alloc; "REFUSED {want}\n")?;
        assert_eq!(rt; printed(alloc, &proof)?.as_str(), want.as_str(), "{rest}");
    }
    Ok(())
}

/// What follows the square's tour is changed.
#[test]
fn trees(rt: HostRuntime) -> Result<(), Fail> {
    let alloc = rt.alloc();
    for (rest, want) in [
        ("CUTS 0\nE 1 2\nO\nO\n", "8 7"),
        ("CUTS 0\nE 1 2\nE 1 2\nO\nO\nO\n", "6 7"),
        (
            "CUTS 0\nE 1 2\nL 4 0 0\nP 1 5242880\nP 2 5242880\nP 3 5242880\nP 4 5242880\n",
            "1 12",
        ),
        (
            "CUTS 0\nE 1 2\nL 4 0 0\nP 1 5242880\nP 2 5242880\nP 3 5242880\nP 4 5242880\nE 1 2\n",
            "6 12",
        ),
        (
            "CUTS 0\nE 1 2\nL 4 0 0\nP 1 5242880\nP 2 5242880\nP 3 5242880\nP 4 5242880\nL 4 0 0\nP 1 5242880\nP 2 5242880\nP 3 5242880\nP 4 5242880\nO\n",
            "9 17",
        ),
        ("CUTS 0\nL 0 0 0", "1 6"),
        ("CUTS 0\nL 0 0 0\n", "7 6"),
        ("CUTS 0\nL 1 0 0\nP 1 0\n", "1 7"),
        ("CUTS 0\nL 1 0 0\nP 1 1", "1 7"),
        (
            "CUTS 0\nL 4 0 0\nP 1 5242880\nP 2 5242880\nP 3 5242880\nP 4 5242880\n\n",
            "9 11",
        ),
        (
            "CUTS 0\nL 4 0 0\nP 1 5242880\nP 2 5242880\nP 3 5242880\nP 4 5242880\nO\n",
            "9 11",
        ),
        ("CUTS 0\n\n", "1 6"),
        ("CUTS 0", "1 5"),
    ] {
        let proof = format!(in alloc; "TSPCERT 1\nN 4\nLENGTH 40\nTOUR 1 2 3 4\n{rest}")?;
        let want = format!(in alloc; "REFUSED {want}\n")?;
        assert_eq!(rt; printed(alloc, &proof)?.as_str(), want.as_str(), "{rest}");
    }
    Ok(())
}

/// What follows the square's tour is changed.
#[test]
fn conditions(rt: HostRuntime) -> Result<(), Fail> {
    let alloc = rt.alloc();
    for (rest, want) in [
        ("CUTS 0\nK 2 1 2\nL 0 0 1\nZ 1 0\n", "1 8"),
        ("CUTS 0\nK 2 1 2\nL 0 0 1\nZ 0 1\n", "1 8"),
        ("CUTS 0\nK 2 1 2\nL 0 0 1\nZ 2 1\n", "1 8"),
        ("CUTS 0\nK 2 1 2\nL 0 0 1\nZ 1 1\n", "7 7"),
        ("CUTS 0\nK 2 1 2\nL 0 0 1\nZ 1 4611686018427387905\n", "1 8"),
        ("CUTS 0\nK 2 1 2\nL 0 0 1\nZ 4294967296 1\n", "1 8"),
        ("CUTS 0\nE 1 3\nL 0 0 1\nZ 1 1\n", "1 8"),
        ("CUTS 0\nK 2 1 2\nK 2 1 3\nL 0 0 2\nZ 2 1\nZ 1 1\n", "1 10"),
        ("CUTS 0\nK 2 1 2\nE 1 3\nL 0 0 1\nZ 2 1\n", "1 9"),
    ] {
        let proof = format!(in alloc; "TSPCERT 1\nN 4\nLENGTH 40\nTOUR 1 2 3 4\n{rest}")?;
        let want = format!(in alloc; "REFUSED {want}\n")?;
        assert_eq!(rt; printed(alloc, &proof)?.as_str(), want.as_str(), "{rest}");
    }
    Ok(())
}

/// A split into two leaves that are closed.
#[test]
fn a_split_of_closed_leaves(rt: HostRuntime) -> Result<(), Fail> {
    let alloc = rt.alloc();
    let leaf = "L 4 0 0\nP 1 5242880\nP 2 5242880\nP 3 5242880\nP 4 5242880\n";
    let proof = format!(in alloc; "{HEAD}E 1 2\n{leaf}{leaf}")?;
    let ended = verified(alloc, SQUARE, &proof)?;
    assert_eq!(rt; ended.status, VerifyStatus::Verified);
    assert_eq!(rt; ended.desk.text(), b"VERIFIED 40\n".as_slice());
    Ok(())
}

/// Bytes that are no line, of the greatest length and one more, with and without their LF.
#[test]
fn lines_of_the_greatest_length(rt: HostRuntime) -> Result<(), Fail> {
    let alloc = rt.alloc();
    for length in [16_384, 16_385] {
        let mut long = format!(in alloc; "{HEAD}")?;
        for _ in 0..length {
            long.push_str("1")?;
        }
        assert_eq!(rt; printed(alloc, &long)?.as_str(), "REFUSED 1 6\n");
        long.push_str("\n")?;
        assert_eq!(rt; printed(alloc, &long)?.as_str(), "REFUSED 1 6\n");
    }
    Ok(())
}

/// 1,638 numbers of nine digits fill a line: it is of the form, and no tour. With one digit more it is not of the form.
#[test]
fn a_tour_line_of_the_greatest_length(rt: HostRuntime) -> Result<(), Fail> {
    let alloc = rt.alloc();
    let mut instance = format!(in alloc;
        "TYPE : TSP\nDIMENSION : 1638\nEDGE_WEIGHT_TYPE : EUC_2D\nNODE_COORD_SECTION\n"
    )?;
    let mut proof = format!(in alloc; "TSPCERT 1\nN 1638\nLENGTH 40\nTOUR")?;
    for city in 1..1639 {
        instance.push_str(&format!(in alloc; "{city} {city} 0\n")?)?;
        proof.push_str(" 123456789")?;
    }
    let exact = format!(in alloc; "{proof}\n")?;
    let longer = format!(in alloc; "{proof}0\n")?;
    let fits = verified(alloc, &instance, &exact)?;
    assert_eq!(rt; fits.desk.text(), b"REFUSED 3 4\n".as_slice());
    let past = verified(alloc, &instance, &longer)?;
    assert_eq!(rt; past.desk.text(), b"REFUSED 1 4\n".as_slice());
    Ok(())
}

/// The square in which the edge from city 1 to city 3, a diagonal, is fixed.
const DIAGONAL: &str =
    "NAME : square\nTYPE : TSP\nDIMENSION : 4\nEDGE_WEIGHT_TYPE : EUC_2D\nNODE_COORD_SECTION\n1 0 0\n2 0 10\n3 10 10\n4 10 0\nFIXED_EDGES_SECTION\n1 3\n-1\nEOF\n";

/// The first five lines of proofs for it, of a tour with that edge.
const DIAGONAL_HEAD: &str = "TSPCERT 1\nN 4\nLENGTH 48\nTOUR 1 2 4 3\nCUTS 0\n";

/// The duals count the fixed edge as used, a tour has it, no split is by it, and depths do not count it.
#[test]
fn a_fixed_edge(rt: HostRuntime) -> Result<(), Fail> {
    let alloc = rt.alloc();
    let duals = "L 4 0 0\nP 1 3145728\nP 2 7340032\nP 3 3145728\nP 4 7340032\n";
    assert_eq!(rt;
        printed_for(alloc, DIAGONAL, PROOF)?.as_str(),
        "REFUSED 3 4\n"
    );
    for (tree, want) in [
        (duals, "VERIFIED 48"),
        ("E 1 3\n", "REFUSED 6 6"),
        ("E 1 2\nE 1 3\n", "REFUSED 6 7"),
        ("K 2 1 2\nL 0 0 1\nZ 1 1\n", "REFUSED 7 7"),
        ("K 2 1 2\nL 0 0 1\nZ 2 1\n", "REFUSED 1 8"),
    ] {
        let proof = format!(in alloc; "{DIAGONAL_HEAD}{tree}")?;
        let want = format!(in alloc; "{want}\n")?;
        assert_eq!(rt;
            printed_for(alloc, DIAGONAL, &proof)?.as_str(),
            want.as_str(),
            "{tree}"
        );
    }
    let proof = format!(in alloc; "{DIAGONAL_HEAD}{duals}")?;
    assert_eq!(rt; printed(alloc, &proof)?.as_str(), "REFUSED 7 6\n");
    Ok(())
}
