//! Frames, as bytes.

use std::alloc::Global;
use std::test::Fail;

/// A number of four bytes, the greatest first.
fn put_word(out: &mut Vec<u8>, word: u32) -> Result<(), Fail> {
    Ok(out.extend_from_slice(&word.to_be_bytes())?)
}

/// Puts a frame: its length, and these bytes.
pub(super) fn put_frame(out: &mut Vec<u8>, body: &[u8]) -> Result<(), Fail> {
    put_word(out, (body.len() & 0xffff_ffff) as u32)?;
    Ok(out.extend_from_slice(body)?)
}

/// Puts a frame of a kind with a number behind it.
pub(super) fn put_call(out: &mut Vec<u8>, kind: u8, number: u32) -> Result<(), Fail> {
    put_word(out, 5)?;
    out.push(kind)?;
    put_word(out, number)
}

/// Puts a report for a lease.
pub(super) fn put_report(
    alloc: Global,
    out: &mut Vec<u8>,
    lease: u32,
    text: &str,
) -> Result<(), Fail> {
    let mut body = Vec::new(alloc);
    body.push(2)?;
    put_word(&mut body, lease)?;
    body.extend_from_slice(text.as_bytes())?;
    put_frame(out, &body)
}

/// Puts an offer.
pub(super) fn put_offer(alloc: Global, out: &mut Vec<u8>, text: &str) -> Result<(), Fail> {
    let mut body = Vec::new(alloc);
    body.push(5)?;
    body.extend_from_slice(text.as_bytes())?;
    put_frame(out, &body)
}
