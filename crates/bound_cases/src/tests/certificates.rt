//! Certificates, written and checked.

use super::{answer_of, certificate_of, desk, prism, square, written};
use onetree::{Answer, CheckError, WriteError, check};
use std::alloc::Global;
use std::test::Fail;
use tspinst::Instance;
use tspplain::search::least_tour;
use tspplain::tours::tour_length;

/// The distances of the prism, at place `6 * u + v` that of `u` and `v`, of which `u` is the lesser.
const DISTANCES: [u32; 36] = [
    0, 1, 1, 0, 100, 100, 0, 0, 1, 100, 0, 100, 0, 0, 0, 100, 100, 0, 0, 0, 0, 0, 1, 1, 0, 0, 0, 0,
    0, 1, 0, 0, 0, 0, 0, 0,
];

/// What a byte is changed to.
const OTHERS: &[u8] = b"0169-\nP ";

#[test]
fn the_square_has_a_certificate_of_its_tour(rt: HostRuntime) -> Result<(), Fail> {
    let alloc = rt.alloc();
    let square = square(alloc)?;
    let (bound, text) = certificate_of(alloc, &square, 0)?;
    assert!(rt; bound == 40);
    assert!(rt; text.as_slice() == b"TSPTREE 1\nN 4\nBOUND 40\n".as_slice());
    assert_eq!(rt; answer_of(alloc, &square, &text)?, Answer::Yes(40));
    Ok(())
}

#[test]
fn the_prism_is_bounded_by_three(rt: HostRuntime) -> Result<(), Fail> {
    let alloc = rt.alloc();
    let prism = prism(alloc)?;
    let (bound, text) = certificate_of(alloc, &prism, 0)?;
    assert!(rt; bound == 3);
    assert!(rt; text.as_slice() == b"TSPTREE 1\nN 6\nBOUND 3\n".as_slice());
    assert_eq!(rt; answer_of(alloc, &prism, &text)?, Answer::Yes(3));
    Ok(())
}

/// The length of a shortest tour of the prism, by going through all.
fn least_of_the_prism(alloc: Global) -> Result<u64, Fail> {
    let plain = tspplain::values::Instance {
        n: 6,
        table: Vec::from_slice(alloc, DISTANCES.as_slice())?,
        fixed: Vec::new(alloc),
    };
    let tour = least_tour(alloc, &plain)?.ok_or("no tour")?;
    Ok(u64::try_from(tour_length(&plain, &tour)).map_err(|_| "too long")?)
}

/// How many of the texts with another byte at a place are accepted with a bound above the least.
fn too_high_at(
    alloc: Global,
    instance: &Instance,
    text: &[u8],
    place: usize,
    least: u64,
) -> Result<u32, Fail> {
    let mut high = 0u32;
    for other in OTHERS {
        let mut bytes = Vec::from_slice(alloc, text)?;
        if let Some(byte) = bytes.get_mut(place) {
            *byte = *other;
        }
        if let Answer::Yes(bound) = answer_of(alloc, instance, &bytes)?
            && least < bound
        {
            high = high.wrapping_add(1);
        }
    }
    Ok(high)
}

/// How many of the texts with one byte changed are accepted with a bound above the least.
fn too_high(alloc: Global, instance: &Instance, text: &[u8], least: u64) -> Result<u32, Fail> {
    let mut high = 0u32;
    for place in 0..text.len() {
        high = high.wrapping_add(too_high_at(alloc, instance, text, place, least)?);
    }
    Ok(high)
}

#[test]
fn changed_bytes_are_answered_and_never_above_the_least_tour(rt: HostRuntime) -> Result<(), Fail> {
    let alloc = rt.alloc();
    let prism = prism(alloc)?;
    let least = least_of_the_prism(alloc)?;
    let (bound, text) = certificate_of(alloc, &prism, 30)?;
    assert_eq!(rt; (least, bound), (4, 3));
    assert_eq!(rt; answer_of(alloc, &prism, &text)?, Answer::Yes(3));
    assert!(rt; too_high(alloc, &prism, &text, least)? == 0);
    Ok(())
}

#[test]
fn a_failed_read_is_told(rt: HostRuntime) -> Result<(), Fail> {
    let alloc = rt.alloc();
    let square = square(alloc)?;
    let mut unread = desk(alloc, b"TSPTREE 1\nN 4\nBOUND 40\n", &[2], &[])?;
    assert_eq!(rt; check(alloc, &square, &mut unread), Err(CheckError::Failed));
    Ok(())
}

#[test]
fn a_failed_write_leaves_a_front(rt: HostRuntime) -> Result<(), Fail> {
    let alloc = rt.alloc();
    let square = square(alloc)?;
    let mut desk = desk(alloc, b"", &[], &[2])?;
    assert_eq!(rt;
        written(alloc, &mut desk, &square, 0)?,
        Err(WriteError::Failed)
    );
    assert!(rt; desk.proof() == b"TSPTREE 1\nN".as_slice());
    Ok(())
}
