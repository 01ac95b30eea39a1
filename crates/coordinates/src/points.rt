//! The section of coordinates in the text of an instance.
ghost use Rattle.std.specs.Prelude.{◌<◌, ◌≤◌, IfSome};

use distx::{Kind, Point};
use std::alloc::{AllocError, Global};
use tsplex::{Lexer, whole};

/// How large a coordinate may be.
const MOST: u32 = 0x100_0000;

/// The points of a text, and how distances follow from them.
#[derive(Drop)]
pub(crate) struct Section {
    pub kind: Kind,
    pub points: Vec<Point>,
}

/// Whether a word is this name.
fn is(word: &[u8], name: &str) -> bool {
    word == name.as_bytes()
}

/// The kind of distances that a weight type names. Explicit weights have none.
fn find_kind(word: &[u8]) -> Option<Kind> {
    if is(word, "EUC_2D") {
        Some(Kind::Euc)
    } else if is(word, "CEIL_2D") {
        Some(Kind::Ceil)
    } else if is(word, "ATT") {
        Some(Kind::Att)
    } else if is(word, "MAN_2D") {
        Some(Kind::Man)
    } else if is(word, "MAX_2D") {
        Some(Kind::Max)
    } else {
        None
    }
}

/// A word up to its first colon, and what is behind that, if there is a colon.
fn split_at_colon(word: &[u8]) -> (&[u8], Option<&[u8]>) {
    for (place, byte) in word.iter().enumerate() {
        if *byte == b':' {
            let (before, behind) = word.split_at(place);
            return match behind.split_first() {
                Some((_, behind)) => (before, Some(behind)),
                None => (before, None),
            };
        }
    }
    (word, None)
}

/// The first word of the value of a line whose first word was read.
fn value<'a>(lexer: &mut Lexer<'a>, behind_colon: Option<&'a [u8]>) -> &'a [u8] {
    let first = match behind_colon {
        Some(behind) => behind,
        None => {
            let word = lexer.word();
            match word.split_first() {
                Some((b':', behind)) => behind,
                _ => return word,
            }
        }
    };
    if first.is_empty() {
        lexer.word()
    } else {
        first
    }
}

/// Passes over so many words.
fn pass(lexer: &mut Lexer<'_>, count: usize) {
    for _ in 0..count {
        if lexer.token().is_none() {
            return;
        }
    }
}

/// Passes over pairs of cities up to `-1`.
fn pass_pairs(lexer: &mut Lexer<'_>, most: usize) {
    for _ in 0..most {
        match lexer.token() {
            Some((_, word)) => {
                if matches!(whole(word, MOST), Ok(-1)) {
                    return;
                }
            }
            None => return,
        }
        let _ = lexer.token();
    }
}

/// Reads a city's number, of n, and its point.
fn point(lexer: &mut Lexer<'_>, n: usize) -> Option<(usize, Point)>
    ensures { IfSome result (λ p. p.0 < n) }
{
    let (_, city) = lexer.token()?;
    let (_, x) = lexer.token()?;
    let (_, y) = lexer.token()?;
    let city = whole(city, 2000).ok()?;
    let x = whole(x, MOST).ok()?;
    let y = whole(y, MOST).ok()?;
    let place = usize::try_from(city).ok()?.checked_sub(1)?;
    if place < n {
        Some((place, Point::new(x as i32, y as i32)))
    } else {
        None
    }
}

/// The points that were read, if there is one of each city.
fn known(alloc: Global, places: &[Option<Point>]) -> Result<Option<Vec<Point>>, AllocError> {
    let mut points = Vec::new(alloc);
    for place in places {
        match place {
            Some(point) => points.push(*point)?,
            None => return Ok(None),
        }
    }
    Ok(Some(points))
}

/// Reads the points of n cities, which may come in any order.
fn points(
    alloc: Global,
    lexer: &mut Lexer<'_>,
    n: usize,
) -> Result<Option<Vec<Point>>, AllocError> {
    let mut places = vec![in alloc; None; n]?;
    for _ in 0..n {
        match point(lexer, places.len()) {
            Some((place, point)) => places[place] = Some(point),
            None => return Ok(None),
        }
    }
    known(alloc, &places)
}

/// The section that points of this kind are read from.
fn section_of(
    alloc: Global,
    lexer: &mut Lexer<'_>,
    kind: Option<Kind>,
    n: usize,
) -> Result<Option<Section>, AllocError> {
    let Some(kind) = kind else {
        return Ok(None);
    };
    match points(alloc, lexer, n)? {
        Some(points) => Ok(Some(Section { kind, points })),
        None => Ok(None),
    }
}

/// Looks for the section of coordinates of n cities, in a text whose weights follow from them.
///
/// Lines and sections are passed over as `tspinst` reads them: a line outside a section is a keyword and a value, and a section ends
/// where its words do.
pub(crate) fn find(alloc: Global, bytes: &[u8], n: usize) -> Result<Option<Section>, AllocError>
    requires { n ≤ 2000 }
{
    let mut lexer = Lexer::new(bytes);
    let mut kind = None;
    for _ in 0..bytes.len() {
        let Some((_, first)) = lexer.token() else {
            return Ok(None);
        };
        let (name, behind) = split_at_colon(first);
        let value = value(&mut lexer, behind);
        let _ = lexer.line();
        if is(name, "EDGE_WEIGHT_TYPE") {
            kind = find_kind(value);
        } else if is(name, "NODE_COORD_SECTION") {
            return section_of(alloc, &mut lexer, kind, n);
        } else if is(name, "DISPLAY_DATA_SECTION") {
            pass(&mut lexer, 3 * n);
        } else if is(name, "FIXED_EDGES_SECTION") {
            pass_pairs(&mut lexer, bytes.len());
        } else if is(name, "EDGE_WEIGHT_SECTION") || is(name, "EOF") {
            return Ok(None);
        }
    }
    Ok(None)
}
