//! Texts that come in pieces.

ghost use Rattle.std.specs.Prelude.{◌<◌, ◌≤◌, length};

use crate::tests::{DUALS, HEAD, shortest, square};
use certcheck::{Answer, Checker, Sizes, Trouble};
use std::alloc::Global;
use std::test::Fail;
use tspinst::Instance;

/// The answer that a checker gives on a text in pieces of so many bytes.
pub(crate) fn in_pieces(
    alloc: Global,
    instance: &Instance,
    text: &[u8],
    most: usize,
) -> Result<Answer, Fail>
    requires { 0 < most }
{
    let mut checker = Checker::new(alloc, instance);
    for piece in text.chunks(most) {
        match checker.feed(alloc, piece) {
            Ok(next) => checker = next,
            Err(trouble) => return answer_of(trouble),
        }
    }
    Ok(checker.finish())
}

/// The answer that a refusal is.
fn answer_of(trouble: Trouble) -> Result<Answer, Fail> {
    match trouble {
        Trouble::NoMemory => Err("no memory".into()),
        Trouble::Refused(refusal, line) => Ok(Answer::No(refusal, line)),
    }
}

/// The sizes after these bytes, and the answer if nothing follows.
fn sizes_after(alloc: Global, instance: &Instance, text: &[u8]) -> Result<(Sizes, Answer), Fail> {
    match Checker::new(alloc, instance).feed(alloc, text) {
        Ok(checker) => Ok((checker.sizes(), checker.finish())),
        Err(_) => Err("a piece was refused".into()),
    }
}

fn sizes(depth: usize, cuts: usize, leaf: usize, line: usize) -> Sizes {
    Sizes {
        depth,
        cuts,
        leaf,
        line,
    }
}

#[test]
fn a_proof_byte_by_byte_and_in_one_piece(rt: HostRuntime) -> Result<(), Fail> {
    let alloc = rt.alloc();
    let square = square(alloc)?;
    let text = format!(in alloc; "{HEAD}{DUALS}")?;
    assert_eq!(rt;
        in_pieces(alloc, &square, text.as_bytes(), 1)?,
        shortest(40)
    );
    assert_eq!(rt;
        in_pieces(alloc, &square, text.as_bytes(), 65_536)?,
        shortest(40)
    );
    Ok(())
}

#[test]
fn sizes_after_eight_lines_of_the_proof(rt: HostRuntime) -> Result<(), Fail> {
    let alloc = rt.alloc();
    let square = square(alloc)?;
    let text = format!(in alloc; "{HEAD}L 4 0 0\nP 1 5242880\nP 2 5242880\n")?;
    assert_eq!(rt;
        sizes_after(alloc, &square, text.as_bytes())?,
        (sizes(0, 0, 2, 0), Answer::No(1, 9))
    );
    Ok(())
}

#[test]
fn sizes_of_paths_cuts_combs_and_lines(rt: HostRuntime) -> Result<(), Fail> {
    let alloc = rt.alloc();
    let square = square(alloc)?;
    let leaf = "L 4 0 0\nP 1 5242880\nP 2 5242880\nP 3 5242880\nP 4 5242880\n";
    let head = "TSPCERT 1\nN 4\nLENGTH 40\nTOUR 1 2 3 4\n";
    let rows = [
        (
            format!(in alloc; "{head}CUTS 2\nS 1 1\nC 3\n")?,
            sizes(0, 1, 0, 0),
            8,
        ),
        (
            format!(in alloc; "{head}CUTS 2\nS 1 1\nC 3\nH 2 1 2\nT 1 1\nT")?,
            sizes(0, 1, 2, 1),
            10,
        ),
        (
            format!(in alloc; "{head}CUTS 0\nE 1 3\nK 1 1\nE")?,
            sizes(2, 0, 0, 1),
            8,
        ),
        (
            format!(in alloc; "{head}CUTS 0\nE 1 3\n{leaf}L 4 0 0\nP 1 1\n")?,
            sizes(1, 0, 1, 0),
            14,
        ),
    ];
    for (text, wanted, line) in &rows {
        assert_eq!(rt;
            sizes_after(alloc, &square, text.as_bytes())?,
            (*wanted, Answer::No(1, *line))
        );
    }
    let whole = format!(in alloc; "{head}CUTS 0\nE 1 3\n{leaf}{leaf}")?;
    assert_eq!(rt;
        sizes_after(alloc, &square, whole.as_bytes())?,
        (sizes(0, 0, 0, 0), shortest(40))
    );
    Ok(())
}

#[test]
fn a_line_has_at_most_16384_bytes(rt: HostRuntime) -> Result<(), Fail> {
    let alloc = rt.alloc();
    let square = square(alloc)?;
    let bytes = vec![in alloc; b'T'; 16_385]?;
    assert_eq!(rt;
        sizes_after(alloc, &square, &bytes[..16_384])?,
        (sizes(0, 0, 0, 16_384), Answer::No(1, 1))
    );
    let refused = Checker::new(alloc, &square).feed(alloc, &bytes).err();
    assert_eq!(rt; refused, Some(Trouble::Refused(1, 1)));
    Ok(())
}

#[test]
fn a_hundred_thousand_splits_in_pieces(rt: HostRuntime) -> Result<(), Fail> {
    let alloc = rt.alloc();
    let square = square(alloc)?;
    let mut text = format!(in alloc; "{HEAD}")?;
    for _ in 0..100_000u32 {
        text.push_str("K 1 1\n")?;
    }
    assert_eq!(rt;
        sizes_after(alloc, &square, text.as_bytes())?,
        (sizes(100_000, 0, 0, 0), Answer::No(1, 100_006))
    );
    assert_eq!(rt;
        in_pieces(alloc, &square, text.as_bytes(), 7)?,
        Answer::No(1, 100_006)
    );
    Ok(())
}

/// The proof is fed in two pieces, cut after each of its bytes; and so is its front alone.
#[test]
fn a_proof_cut_after_each_byte(rt: HostRuntime) -> Result<(), Fail> {
    let alloc = rt.alloc();
    let square = square(alloc)?;
    let text = format!(in alloc; "{HEAD}E 1 3\n{DUALS}{DUALS}")?;
    let bytes = text.as_bytes();
    for end in 0..bytes.len() {
        let (front, rest) = bytes.split_at(end);
        let lines = front.iter().filter(|byte| **byte == b'\n').count() as u64;
        assert_eq!(rt;
            in_pieces(alloc, &square, front, 5)?,
            Answer::No(1, lines.saturating_add(1))
        );
        let Ok(checker) = Checker::new(alloc, &square).feed(alloc, front) else {
            return Err("the front was refused".into());
        };
        let Ok(checker) = checker.feed(alloc, rest) else {
            return Err("the rest was refused".into());
        };
        assert_eq!(rt; checker.finish(), shortest(40));
    }
    Ok(())
}

/// Draws numbers for tests.
#[derive(Drop)]
struct Draw {
    state: u64,
}

impl Draw {
    /// A number below `most`.
    fn below(&mut self, most: usize) -> usize
        requires { 0 < most }
        ensures { result < most }
    {
        self.state = self
            .state
            .wrapping_mul(6_364_136_223_846_793_005)
            .wrapping_add(1_442_695_040_888_963_407);
        (self.state >> 33) as usize % most
    }
}

/// The answer on a text in pieces of drawn sizes.
fn in_drawn_pieces(
    alloc: Global,
    instance: &Instance,
    text: &[u8],
    draw: &mut Draw,
) -> Result<Answer, Fail> {
    let mut checker = Checker::new(alloc, instance);
    let mut rest = text;
    for _ in 0..text.len() {
        if rest.is_empty() {
            break;
        }
        let end = draw.below(rest.len()).saturating_add(1).min(rest.len());
        let (piece, more) = rest.split_at(end);
        match checker.feed(alloc, piece) {
            Ok(next) => checker = next,
            Err(trouble) => return answer_of(trouble),
        }
        rest = more;
    }
    Ok(checker.finish())
}

/// Texts with one byte changed, in drawn pieces and in one.
#[test]
fn drawn_cuttings_of_drawn_texts(rt: HostRuntime) -> Result<(), Fail> {
    let alloc = rt.alloc();
    let square = square(alloc)?;
    let mut draw = Draw { state: 7 };
    let mut accepted = 0u32;
    for _ in 0..300u32 {
        let mut bytes = format!(in alloc;
            "{HEAD}E 1 3\n{DUALS}K 2 1 2\n{DUALS}{DUALS}"
        )?.into_bytes();
        let place = draw.below(bytes.len().max(1));
        let other = b"0123456789 \nLPEKO"[draw.below(17)];
        if let Some(byte) = bytes.get_mut(place) {
            *byte = other;
        }
        let whole = in_pieces(alloc, &square, &bytes, 65_536)?;
        assert_eq!(rt; in_drawn_pieces(alloc, &square, &bytes, &mut draw)?, whole);
        if whole == shortest(40) {
            accepted = accepted.saturating_add(1);
        }
    }
    assert!(rt; 0 < accepted && accepted < 300);
    Ok(())
}
