//! Every way in which a certificate is refused, and the texts beside it that are accepted.

use super::{answer_of, prism, square};
use onetree::Answer;
use std::alloc::Global;
use std::test::Fail;
use tspinst::Instance;

/// The lines before the duals of a certificate of the square.
const HEAD: &str = "TSPTREE 1\nN 4\nBOUND 40\n";

/// The first of these texts behind a front that is not answered so.
fn first_other(
    alloc: Global,
    instance: &Instance,
    front: &str,
    rows: &[(&str, Answer)],
) -> Result<Option<usize>, Fail> {
    for place in 0..rows.len() {
        let (lines, told) = &rows[place];
        let text = format!(in alloc; "{front}{lines}")?;
        if answer_of(alloc, instance, text.as_bytes())? != *told {
            return Ok(Some(place));
        }
    }
    Ok(None)
}

#[test]
fn a_title_of_another_form(rt: HostRuntime) -> Result<(), Fail> {
    let alloc = rt.alloc();
    let rows = [
        ("", Answer::No(1, 1)),
        ("TSPTREE 1", Answer::No(1, 1)),
        ("TSPTREE 2\n", Answer::No(1, 1)),
        ("TSPCERT 1\n", Answer::No(1, 1)),
        ("TSPTREE 1\r\n", Answer::No(1, 1)),
        (" TSPTREE 1\nN 4\nBOUND 40\n", Answer::No(1, 1)),
    ];
    assert_eq!(rt; first_other(alloc, &square(alloc)?, "", &rows)?, None);
    Ok(())
}

#[test]
fn a_number_of_cities_of_another_form(rt: HostRuntime) -> Result<(), Fail> {
    let alloc = rt.alloc();
    let rows = [
        ("", Answer::No(1, 2)),
        ("N 4", Answer::No(1, 2)),
        ("N 04\n", Answer::No(1, 2)),
        ("N  4\n", Answer::No(1, 2)),
        ("N 4 \n", Answer::No(1, 2)),
        ("N -4\n", Answer::No(1, 2)),
        ("N 4294967296\n", Answer::No(1, 2)),
        ("BOUND 40\n", Answer::No(1, 2)),
    ];
    assert_eq!(rt;
        first_other(alloc, &square(alloc)?, "TSPTREE 1\n", &rows)?,
        None
    );
    Ok(())
}

#[test]
fn another_number_of_cities(rt: HostRuntime) -> Result<(), Fail> {
    let alloc = rt.alloc();
    let rows = [
        ("N 5\n", Answer::No(2, 2)),
        ("N 3\nBOUND 0\n", Answer::No(2, 2)),
        ("N 0\n", Answer::No(2, 2)),
        ("N 4294967295\n", Answer::No(2, 2)),
        ("N 5\nBOUND x", Answer::No(2, 2)),
    ];
    assert_eq!(rt;
        first_other(alloc, &square(alloc)?, "TSPTREE 1\n", &rows)?,
        None
    );
    Ok(())
}

#[test]
fn a_bound_of_another_form(rt: HostRuntime) -> Result<(), Fail> {
    let alloc = rt.alloc();
    let rows = [
        ("", Answer::No(1, 3)),
        ("BOUND 40", Answer::No(1, 3)),
        ("BOUND 040\n", Answer::No(1, 3)),
        ("BOUND -1\n", Answer::No(1, 3)),
        ("BOUND 4398046511105\n", Answer::No(1, 3)),
        ("LENGTH 40\n", Answer::No(1, 3)),
    ];
    assert_eq!(rt;
        first_other(alloc, &square(alloc)?, "TSPTREE 1\nN 4\n", &rows)?,
        None
    );
    Ok(())
}

#[test]
fn a_bound_that_is_not_proved(rt: HostRuntime) -> Result<(), Fail> {
    let alloc = rt.alloc();
    let rows = [
        ("BOUND 0\n", Answer::Yes(0)),
        ("BOUND 40\n", Answer::Yes(40)),
        ("BOUND 41\n", Answer::No(7, 3)),
        ("BOUND 4398046511104\n", Answer::No(7, 3)),
        ("BOUND 41\nP", Answer::No(1, 4)),
        ("BOUND 0\nP 2 4611686018427387904\n", Answer::No(7, 3)),
    ];
    assert_eq!(rt;
        first_other(alloc, &square(alloc)?, "TSPTREE 1\nN 4\n", &rows)?,
        None
    );
    Ok(())
}

#[test]
fn a_dual_of_another_form(rt: HostRuntime) -> Result<(), Fail> {
    let alloc = rt.alloc();
    let rows = [
        ("\n", Answer::No(1, 4)),
        ("P 1 1", Answer::No(1, 4)),
        ("P 1 0\n", Answer::No(1, 4)),
        ("P 1 +1\n", Answer::No(1, 4)),
        ("P 1 01\n", Answer::No(1, 4)),
        ("P 1 1 1\n", Answer::No(1, 4)),
        ("P 1 4611686018427387905\n", Answer::No(1, 4)),
        ("P 1 -4611686018427387905\n", Answer::No(1, 4)),
        ("O\n", Answer::No(1, 4)),
    ];
    assert_eq!(rt; first_other(alloc, &square(alloc)?, HEAD, &rows)?, None);
    Ok(())
}

#[test]
fn cities_that_do_not_rise_from_one_to_the_last(rt: HostRuntime) -> Result<(), Fail> {
    let alloc = rt.alloc();
    let rows = [
        ("P 0 1\n", Answer::No(1, 4)),
        ("P 5 1\n", Answer::No(1, 4)),
        ("P 1 1\nP 1 1\n", Answer::No(1, 5)),
        ("P 2 1\nP 1 1\n", Answer::No(1, 5)),
        ("P 1 -1\nP 4 1\nO\n", Answer::No(1, 6)),
        ("P 1 -1\nP 4 1\n", Answer::Yes(40)),
    ];
    assert_eq!(rt; first_other(alloc, &square(alloc)?, HEAD, &rows)?, None);
    Ok(())
}

#[test]
fn a_line_that_is_too_long(rt: HostRuntime) -> Result<(), Fail> {
    let alloc = rt.alloc();
    let square = square(alloc)?;
    let mut text = Vec::from_slice(alloc, HEAD.as_bytes())?;
    text.extend_from_slice(&vec![in alloc; b'P'; 20_000]?)?;
    text.push(b'\n')?;
    assert_eq!(rt; answer_of(alloc, &square, &text)?, Answer::No(1, 4));
    Ok(())
}

#[test]
fn the_prism_is_not_bounded_by_four(rt: HostRuntime) -> Result<(), Fail> {
    let alloc = rt.alloc();
    let rows = [
        ("BOUND 3\n", Answer::Yes(3)),
        ("BOUND 4\n", Answer::No(7, 3)),
    ];
    assert_eq!(rt;
        first_other(alloc, &prism(alloc)?, "TSPTREE 1\nN 6\n", &rows)?,
        None
    );
    Ok(())
}
