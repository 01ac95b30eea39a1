//! Whole runs over a desk and slots in memory. The expected bytes are those of the worked values of the formats, and lengths
//! those of all tours.

ghost use Rattle.std.specs.Prelude.{◌<◌};

use crate::runs::{CROSSED, Faults, NONE, SQUARE, is_bound_to, run_with, solved, verified};
use cyc::Tour;
use ports::Inlet;
use std::alloc::{AllocError, Global};
use std::test::Fail;
use tspengine::Status;
use tspgen::make;
use tspplain::search::least_tour;
use tspplain::tours::tour_length;
use tspplain::values::Instance;

#[test]
fn what_becomes_of_reports_costs_time_alone(rt: HostRuntime) -> Result<(), Fail> {
    let alloc = rt.alloc();
    for line in [
        "tspc solve a b c --budget 1 --grunts 2 --lose 1",
        "tspc solve a b c --budget 1 --grunts 2 --lose 300",
        "tspc solve a b c --budget 1 --grunts 2 --twice",
        "tspc solve a b c --budget 1 --grunts 2 --late",
        "tspc solve a b c --grunts 64",
    ] {
        let square = solved(&rt, alloc, line, SQUARE)?;
        assert_eq!(rt; square.status, Status::Optimal);
        assert_eq!(rt; square.text(), b"OPTIMAL 40\nTOUR 1 2 3 4\n".as_slice());
    }
    let many = solved(&rt, alloc, "tspc solve a b c --grunts 65", SQUARE)?;
    assert_eq!(rt; many.status, Status::Usage);
    Ok(())
}

#[test]
fn small_instances_are_solved(rt: HostRuntime) -> Result<(), Fail> {
    let alloc = rt.alloc();
    let square = solved(&rt, alloc, "tspc solve a b c", SQUARE)?;
    assert_eq!(rt; square.status, Status::Optimal);
    assert_eq!(rt; square.text(), b"OPTIMAL 40\nTOUR 1 2 3 4\n".as_slice());
    assert!(rt;
        square
            .desk
            .proof()
            .starts_with(b"TSPCERT 1\nN 4\nLENGTH 40\nTOUR 1 2 3 4\nCUTS 0\n")
    );
    assert!(rt; is_bound_to(square.desk.proof_path(), b"b"));
    assert!(rt; is_bound_to(square.slots.path(), b"c"));
    assert_eq!(rt; square.slots.slot(0), b"".as_slice());
    let budgeted = solved(&rt, alloc, "tspc solve a b c --budget 200", SQUARE)?;
    assert_eq!(rt; budgeted.status, Status::Optimal);
    assert_eq!(rt; budgeted.desk.proof(), square.desk.proof());
    let triangle = solved(
        &rt,
        alloc,
        "tspc solve a b c --budget 200",
        "TYPE : TSP\nDIMENSION : 3\nEDGE_WEIGHT_TYPE : EUC_2D\nNODE_COORD_SECTION\n1 0 0\n2 3 0\n3 0 4\n",
    )?;
    assert_eq!(rt; triangle.status, Status::Optimal);
    assert_eq!(rt; triangle.text(), b"OPTIMAL 12\nTOUR 1 2 3\n".as_slice());
    let point = solved(
        &rt,
        alloc,
        "tspc solve a b c",
        "TYPE : TSP\nDIMENSION : 4\nEDGE_WEIGHT_TYPE : EUC_2D\nNODE_COORD_SECTION\n1 5 5\n2 5 5\n3 5 5\n4 5 5\n",
    )?;
    assert_eq!(rt; point.status, Status::Optimal);
    assert_eq!(rt; point.text(), b"OPTIMAL 0\nTOUR 1 2 3 4\n".as_slice());
    assert_eq!(rt;
        point.desk.proof(),
        b"TSPCERT 1\nN 4\nLENGTH 0\nTOUR 1 2 3 4\nCUTS 0\nL 0 0 0\n".as_slice()
    );
    Ok(())
}

#[test]
fn proofs_are_verified_and_refused(rt: HostRuntime) -> Result<(), Fail> {
    let alloc = rt.alloc();
    let square = solved(&rt, alloc, "tspc solve a b c", SQUARE)?;
    let checked = verified(&rt, alloc, SQUARE, square.desk.proof())?;
    assert_eq!(rt; checked.status, Status::Verified);
    assert_eq!(rt; checked.text(), b"VERIFIED 40\n".as_slice());
    assert_eq!(rt; checked.desk.proof(), b"".as_slice());
    assert_eq!(rt; checked.slots.slot(0), b"old".as_slice());
    assert_eq!(rt; checked.slots.slot(1), b"new".as_slice());
    assert_eq!(rt; checked.slots.entries().len(), 0);
    let within = verified(
        &rt,
        alloc,
        SQUARE,
        b"TSPCERT 2\nN 4\nLENGTH 40\nBOUND 0\nTOUR 1 2 3 4\nCUTS 0\nL 0 0 0\n",
    )?;
    assert_eq!(rt; within.status, Status::VerifiedWithin);
    assert_eq!(rt; within.text(), b"WITHIN 40 0\n".as_slice());
    let refused = verified(&rt, alloc, SQUARE, b"")?;
    assert_eq!(rt; refused.status, Status::Refused);
    assert_eq!(rt; refused.text(), b"REFUSED 1 1\n".as_slice());
    let bad = verified(&rt, alloc, "", square.desk.proof())?;
    assert_eq!(rt; bad.status, Status::BadInstance);
    assert_eq!(rt; bad.text(), b"INSTANCE 13 0 1\n".as_slice());
    Ok(())
}

#[test]
fn a_spent_budget_leaves_a_body(rt: HostRuntime) -> Result<(), Fail> {
    let alloc = rt.alloc();
    let ended = solved(&rt, alloc, "tspc solve a b c --budget 0", SQUARE)?;
    assert_eq!(rt; ended.status, Status::Stopped);
    assert_eq!(rt; ended.text(), b"STOPPED 40 1\n".as_slice());
    assert_eq!(rt; ended.desk.proof(), b"".as_slice());
    assert_eq!(rt;
        ended.slots.slot(0),
        b"\x01\0\0\0\0\0\0\0\0\x2eTSPCERT 1\nN 4\nLENGTH 40\nTOUR 1 2 3 4\nCUTS 0\nO\n".as_slice()
    );
    assert_eq!(rt; ended.slots.slot(1), b"".as_slice());
    let closed = solved(&rt, alloc, "tspc solve a b c --budget 1", SQUARE)?;
    assert_eq!(rt; closed.status, Status::Optimal);
    assert_eq!(rt; closed.text(), b"OPTIMAL 40\nTOUR 1 2 3 4\n".as_slice());
    Ok(())
}

const SQUARE_TOUR: &[u8] =
    b"NAME : tour\nTYPE : TOUR\nDIMENSION : 4\nTOUR_SECTION\n1\n2\n3\n4\n-1\nEOF\n";

#[test]
fn subtour_cuts_close_a_root(rt: HostRuntime) -> Result<(), Fail> {
    let alloc = rt.alloc();
    let groups = solved(
        &rt,
        alloc,
        "tspc solve a b c --budget 1",
        "TYPE : TSP\nDIMENSION : 6\nEDGE_WEIGHT_TYPE : EXPLICIT\nEDGE_WEIGHT_FORMAT : UPPER_ROW\nEDGE_WEIGHT_SECTION\n1 1 10 10 10 1 10 10 10 10 10 10 1 1 1\n",
    )?;
    assert_eq!(rt; groups.status, Status::Optimal);
    assert!(rt; groups.text().starts_with(b"OPTIMAL 24\n"));
    Ok(())
}

/// Two triangles of sides 1 whose corners are joined two by two by sides of no length: with subtour cuts alone the bound is 3.
#[test]
fn combs_close_a_root(rt: HostRuntime) -> Result<(), Fail> {
    let alloc = rt.alloc();
    let prism = solved(
        &rt,
        alloc,
        "tspc solve a b c --budget 1",
        "TYPE : TSP\nDIMENSION : 6\nEDGE_WEIGHT_TYPE : EXPLICIT\nEDGE_WEIGHT_FORMAT : UPPER_ROW\nEDGE_WEIGHT_SECTION\n1 1 0 100 100 1 100 0 100 100 100 0 1 1 1\n",
    )?;
    assert_eq!(rt; prism.status, Status::Optimal);
    assert!(rt; prism.text().starts_with(b"OPTIMAL 4\nTOUR "));
    let has_comb = prism
        .desk
        .proof()
        .windows(5)
        .any(|line| line == b"\nC 3\n".as_slice());
    assert!(rt; has_comb);
    Ok(())
}

#[test]
fn five_drawn_instances_are_solved(rt: HostRuntime) -> Result<(), Fail> {
    let alloc = rt.alloc();
    for seed in 1..6u32 {
        let ended = solved(
            &rt,
            alloc,
            &format!(in alloc; "tspc bench {seed} 40 2000 p")?,
            "",
        )?;
        assert_eq!(rt; ended.status, Status::Benched, "seed {seed}");
    }
    Ok(())
}

#[test]
fn a_drawn_triangle_is_solved(rt: HostRuntime) -> Result<(), Fail> {
    let alloc = rt.alloc();
    let drawn = make(alloc, 1, 3)?;
    let around = drawn.length(&Tour::identity(alloc, 3)?);
    let ended = solved(&rt, alloc, "tspc bench 1 3 16 p", "")?;
    assert_eq!(rt; ended.status, Status::Benched);
    assert_eq!(rt;
        ended.text(),
        format!(in alloc; "OPTIMAL {around}\n")?.as_bytes()
    );
    assert!(rt; is_bound_to(ended.desk.proof_path(), b"p"));
    assert!(rt; ended.desk.proof().starts_with(b"TSPCERT 1\nN 3\n"));
    assert_eq!(rt; ended.slots.entries().len(), 0);
    let again = solved(&rt, alloc, "tspc bench 1 3 16 p", "")?;
    assert_eq!(rt; again.text(), ended.text());
    assert_eq!(rt; again.desk.proof(), ended.desk.proof());
    Ok(())
}

#[test]
fn a_drawn_triangle_is_stopped(rt: HostRuntime) -> Result<(), Fail> {
    let alloc = rt.alloc();
    let drawn = make(alloc, 1, 3)?;
    let around = drawn.length(&Tour::identity(alloc, 3)?);
    let ended = solved(&rt, alloc, "tspc bench 1 3 0 p", "")?;
    assert_eq!(rt; ended.status, Status::BenchStopped);
    assert_eq!(rt;
        ended.text(),
        format!(in alloc; "STOPPED {around} 1\n")?.as_bytes()
    );
    let body = format!(in alloc; "TSPCERT 1\nN 3\nLENGTH {around}\nTOUR 1 2 3\nCUTS 0\nO\n")?;
    assert_eq!(rt; ended.desk.proof(), body.as_bytes());
    let failing = Faults {
        most_write: 1,
        bad_writes: &[5],
        ..NONE
    };
    let torn = run_with(&rt, alloc, "tspc bench 1 3 0 p", "", &failing)?;
    assert_eq!(rt; torn.status, Status::WriteFault);
    assert_eq!(rt; torn.desk.proof(), b"TSPC".as_slice());
    assert_eq!(rt; torn.text(), b"".as_slice());
    Ok(())
}

#[test]
fn the_tour_of_a_square_is_printed(rt: HostRuntime) -> Result<(), Fail> {
    let alloc = rt.alloc();
    for line in [
        "tspc tour a",
        "tspc tour a --seed 0",
        "tspc tour a --seed 18446744073709551615",
    ] {
        let ended = solved(&rt, alloc, line, SQUARE)?;
        assert_eq!(rt; ended.status, Status::Toured);
        assert_eq!(rt; ended.text(), SQUARE_TOUR);
        assert_eq!(rt; ended.desk.proof(), b"".as_slice());
        assert!(rt; ended.desk.proof_path().is_none());
        assert_eq!(rt; ended.slots.entries().len(), 0);
    }
    let bad = solved(&rt, alloc, "tspc tour a", "")?;
    assert_eq!(rt; bad.status, Status::BadInstance);
    assert_eq!(rt; bad.text(), b"INSTANCE 13 0 1\n".as_slice());
    Ok(())
}

#[test]
fn a_failing_call_cuts_a_tour_short(rt: HostRuntime) -> Result<(), Fail> {
    let alloc = rt.alloc();
    for k in 1..SQUARE_TOUR.len() + 1 {
        let bad = [k as u64];
        let faults = Faults {
            most_write: 1,
            bad_writes: &bad,
            ..NONE
        };
        let cut = run_with(&rt, alloc, "tspc tour a", SQUARE, &faults)?;
        assert_eq!(rt; cut.status, Status::WriteFault);
        assert_eq!(rt; cut.text().len(), k - 1);
        assert!(rt; SQUARE_TOUR.starts_with(cut.text()));
    }
    let unread = run_with(
        &rt,
        alloc,
        "tspc tour a",
        SQUARE,
        &Faults {
            bad_reads: &[1],
            ..NONE
        },
    )?;
    assert_eq!(rt; unread.status, Status::ReadFault);
    assert_eq!(rt; unread.text(), b"".as_slice());
    Ok(())
}

/// The text of so many random points.
fn random_points(alloc: Global, count: u32) -> Result<String, AllocError> {
    let mut state = 77;
    let mut text = format!(in alloc;
        "TYPE : TSP\nDIMENSION : {count}\nEDGE_WEIGHT_TYPE : EUC_2D\nNODE_COORD_SECTION\n"
    )?;
    for k in 0..count {
        let number = u64::from(k) + 1;
        let x = next(&mut state, 10_000);
        let y = next(&mut state, 10_000);
        text.push_str(&format!(in alloc; "{number} {x} {y}\n")?)?;
    }
    Ok(text)
}

#[test]
fn a_seed_chooses_the_tour(rt: HostRuntime) -> Result<(), Fail> {
    let alloc = rt.alloc();
    let text = random_points(alloc, 300)?;
    let first = solved(&rt, alloc, "tspc tour a", &text)?;
    assert_eq!(rt; first.status, Status::Toured);
    let named = solved(&rt, alloc, "tspc tour a --seed 1", &text)?;
    assert_eq!(rt; named.text(), first.text());
    let other = solved(&rt, alloc, "tspc tour a --seed 2", &text)?;
    assert_eq!(rt; other.status, Status::Toured);
    assert!(rt; other.text() != first.text());
    Ok(())
}

#[test]
fn a_search_starts_with_a_good_tour(rt: HostRuntime) -> Result<(), Fail> {
    let alloc = rt.alloc();
    let ended = solved(&rt, alloc, "tspc solve a b c --seed 5 --budget 0", CROSSED)?;
    assert_eq!(rt; ended.status, Status::Stopped);
    assert_eq!(rt; ended.text(), b"STOPPED 40 1\n".as_slice());
    assert_eq!(rt;
        ended.slots.slot(0),
        b"\x01\0\0\0\0\0\0\0\0\x2eTSPCERT 1\nN 4\nLENGTH 40\nTOUR 1 3 2 4\nCUTS 0\nO\n".as_slice()
    );
    Ok(())
}

#[test]
fn each_path_is_bound_once_where_it_is_used(rt: HostRuntime) -> Result<(), Fail> {
    let alloc = rt.alloc();
    let rows = [
        ("tspc solve a b c", SQUARE, [1, 0, 1, 1]),
        ("tspc solve a b c --budget 0", SQUARE, [1, 0, 0, 1]),
        ("tspc solve a b c", "", [1, 0, 0, 0]),
        ("tspc verify a b", SQUARE, [1, 1, 0, 0]),
        ("tspc verify a b", "", [1, 0, 0, 0]),
        ("tspc tour a", SQUARE, [1, 0, 0, 0]),
        ("tspc tour a", "", [1, 0, 0, 0]),
        ("tspc bench 1 3 16 b", SQUARE, [0, 0, 1, 0]),
        ("tspc bench 1 3 0 b", SQUARE, [0, 0, 1, 0]),
        ("tspc tour", SQUARE, [0, 0, 0, 0]),
    ];
    for (line, text, binds) in rows {
        let ended = solved(&rt, alloc, line, text)?;
        assert_eq!(rt; ended.binds(), binds, "{line}");
        assert_eq!(rt;
            is_bound_to(ended.desk.inlet_path(Inlet::Instance), b"a"),
            binds[0] == 1,
            "{line}"
        );
        assert_eq!(rt;
            is_bound_to(ended.desk.inlet_path(Inlet::Proof), b"b"),
            binds[1] == 1,
            "{line}"
        );
        assert_eq!(rt;
            is_bound_to(ended.desk.proof_path(), b"b"),
            binds[2] == 1,
            "{line}"
        );
        assert_eq!(rt;
            is_bound_to(ended.slots.path(), b"c"),
            binds[3] == 1,
            "{line}"
        );
    }
    Ok(())
}

#[test]
fn a_refused_instance_is_read_to_its_end(rt: HostRuntime) -> Result<(), Fail> {
    let alloc = rt.alloc();
    let text = with_line(alloc, 3, "DIMENSION : 2")?;
    for line in ["tspc solve a b c", "tspc tour a", "tspc verify a b"] {
        let ended = solved(&rt, alloc, line, &text)?;
        assert_eq!(rt; ended.status, Status::BadInstance);
        assert_eq!(rt; ended.desk.left(Inlet::Instance), b"".as_slice(), "{line}");
    }
    Ok(())
}

/// The square's text with one line, from 1, in place of another.
fn with_line(alloc: Global, number: usize, line: &str) -> Result<String, AllocError> {
    let mut text = format!(in alloc; "")?;
    for (k, old) in SQUARE.lines().enumerate() {
        let new = if k + 1 == number { line } else { old };
        text.push_str(new)?;
        text.push_str("\n")?;
    }
    Ok(text)
}

#[test]
fn refusals_of_an_instance_are_printed(rt: HostRuntime) -> Result<(), Fail> {
    let alloc = rt.alloc();
    let rows: [(usize, &str, &[u8]); 5] = [
        (7, "2 0 565.5", b"INSTANCE 9 7 2\n"),
        (4, "EDGE_WEIGHT_TYPE : GEO", b"INSTANCE 5 4\n"),
        (3, "DIMENSION : 2", b"INSTANCE 7 3\n"),
        (3, "DIMENSION : 2001", b"INSTANCE 7 3\n"),
        (9, "3 10 0", b"INSTANCE 10 9\n"),
    ];
    for (number, line, want) in rows {
        let ended = solved(
            &rt,
            alloc,
            "tspc solve a b c",
            &with_line(alloc, number, line)?,
        )?;
        assert_eq!(rt; ended.status, Status::BadInstance);
        assert_eq!(rt; ended.text(), want);
        assert_eq!(rt; ended.desk.proof(), b"".as_slice());
    }
    let texts: [(&str, &[u8]); 3] = [
        (
            "NAME : square\nTYPE : TSP\nDIMENSION : 4\nEDGE_WEIGHT_TYPE : EUC_2D\nNODE_COORD_SECTION\n1 0 0\n2 0 10\n",
            b"INSTANCE 12 0\n",
        ),
        ("", b"INSTANCE 13 0 1\n"),
        (
            "TYPE : TSP\nDIMENSION : 3\nEDGE_WEIGHT_TYPE : EXPLICIT\nEDGE_WEIGHT_FORMAT : FULL_MATRIX\nEDGE_WEIGHT_SECTION\n0 5 7\n6 0 8\n7 8 0\n",
            b"INSTANCE 11 7 1 2\n",
        ),
    ];
    for (text, want) in texts {
        let ended = solved(&rt, alloc, "tspc solve a b c", text)?;
        assert_eq!(rt; ended.status, Status::BadInstance);
        assert_eq!(rt; ended.text(), want);
    }
    Ok(())
}

#[test]
fn other_words_are_usage(rt: HostRuntime) -> Result<(), Fail> {
    let alloc = rt.alloc();
    for line in [
        "tspc",
        "tspc solve a",
        "tspc solve a b c --budget 65537",
        "tspc bench 1 2 5 p",
        "tspc --help",
        "tspc solve --help",
        "tspc solve a b c d",
        "tspc verify a",
        "tspc verify a b c",
        "tspc tour",
        "tspc tour a b",
        "tspc tour a --seed 18446744073709551616",
        "tspc tour a --budget 1",
        "tspc bench 1 2 5 p",
        "tspc bench 1 3 5",
        "tspc solve a b c --seed -1",
    ] {
        let ended = solved(&rt, alloc, line, SQUARE)?;
        assert_eq!(rt; ended.status, Status::Usage);
        assert_eq!(rt;
            ended.text(),
            b"USAGE tspc solve/verify/tour/bench/replay/bound/checkbound\n".as_slice()
        );
        assert_eq!(rt; ended.desk.proof(), b"".as_slice());
    }
    Ok(())
}

/// The next of a sequence of numbers below `most` (Numerical Recipes' linear congruential generator).
fn next(state: &mut u64, most: u64) -> u64
    requires { 0 < most }
    ensures { result < most }
{
    *state = (state.wrapping_mul(1_664_525).wrapping_add(1_013_904_223)) % (1 << 32);
    (*state >> 8) % most
}

/// A matrix of random distances of five cities, with one fixed pair or none: its text and the same as plain numbers.
fn random_matrix(
    alloc: Global,
    state: &mut u64,
    fixes: bool,
) -> Result<(String, Instance), AllocError> {
    let mut text = format!(in alloc;
        "TYPE : TSP\nDIMENSION : 5\nEDGE_WEIGHT_TYPE : EXPLICIT\nEDGE_WEIGHT_FORMAT : UPPER_ROW\nEDGE_WEIGHT_SECTION\n"
    )?;
    let mut table = vec![in alloc; 0u32; 25]?;
    for u in 0..5 {
        for v in u + 1..5 {
            let weight = next(state, 1000);
            text.push_str(&format!(in alloc; "{weight}\n")?)?;
            if let Some(cell) = table.get_mut(u * 5 + v) {
                *cell = weight as u32;
            }
        }
    }
    let mut fixed = Vec::new(alloc);
    if fixes {
        let city = next(state, 4) as u32;
        fixed.push((city, 4))?;
        let node = city + 1;
        text.push_str(&format!(in alloc; "FIXED_EDGES_SECTION\n5 {node}\n-1\n")?)?;
    }
    Ok((text, Instance { n: 5, table, fixed }))
}

#[test]
fn random_instances_have_the_length_of_the_least_tour(rt: HostRuntime) -> Result<(), Fail> {
    let alloc = rt.alloc();
    let mut state = 2026;
    for round in 0..40 {
        let (text, plain) = random_matrix(alloc, &mut state, round % 2 == 1)?;
        let best = least_tour(alloc, &plain)?.ok_or("no tour")?;
        let length = tour_length(&plain, &best);
        let ended = solved(&rt, alloc, "tspc solve a b c", &text)?;
        assert_eq!(rt; ended.status, Status::Optimal);
        let want = format!(in alloc; "OPTIMAL {length}\nTOUR 1 ")?;
        assert!(rt; ended.text().starts_with(want.as_bytes()));
        let checked = verified(&rt, alloc, &text, ended.desk.proof())?;
        assert_eq!(rt; checked.status, Status::Verified);
        let told = format!(in alloc; "VERIFIED {length}\n")?;
        assert_eq!(rt; checked.text(), told.as_bytes());
    }
    Ok(())
}

#[test]
fn statuses_have_their_codes(rt: HostRuntime) -> Result<(), Fail> {
    let codes = [
        (Status::Optimal, 0),
        (Status::Verified, 0),
        (Status::Toured, 0),
        (Status::Benched, 0),
        (Status::Usage, 2),
        (Status::BadInstance, 3),
        (Status::Refused, 4),
        (Status::Stopped, 5),
        (Status::BenchStopped, 5),
        (Status::ReadFault, 6),
        (Status::WriteFault, 7),
        (Status::StoreFault, 8),
        (Status::NoMemory, 9),
        (Status::VerifiedWithin, 10),
    ];
    for (status, code) in codes {
        assert_eq!(rt; status.code(), code);
    }
    Ok(())
}
