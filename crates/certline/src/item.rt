//! What a line says.

ghost use Rattle.std.specs.Prelude.{◌≡◌, ◌<◌, ◌≤◌, ◌++◌, true, length, IfOk, IfSome};
ghost use Rattle.std.specs.Option.{option_map};
ghost use Rattle.certdef.specs.Items.{longest, fits, item_of};
ghost use Rattle.certline.specs.Spelling.{EndsWord};
ghost use Rattle.certline.specs.Words.{word_of};
ghost use Rattle.certline.specs.Said.{said, ReadsAs};

use crate::keyword::{Keyword, keyword_of, word_end};
use crate::lists::{clique, handle, subtour, tooth, tour};
use crate::shapes::{
    bound, city, comb, condition_dual, cut_dual, cuts, edge, leaf, length, odd, open_leaf, pair,
    size, title,
};
use std::alloc::{AllocError, Global};

/// What a line of a proof text says. Cities, cuts and depths count from 1, as in the text. Of a set its cities are kept, and not
/// how many they are.
#[derive(Debug, PartialEq, Eq, Drop)]
pub enum Item {
    /// The first line: which version of the text follows, 1 or 2.
    Cert(u32),
    /// How many cities there are.
    N(u32),
    /// The length of the tour.
    Length(u64),
    /// The bound, which is told where it is less than the length.
    Bound(u64),
    /// The tour.
    Tour(Vec<u64>),
    /// How many cuts follow.
    Cuts(u32),
    /// The set of a subtour cut.
    Subtour(Vec<u32>),
    /// A comb: how many teeth follow its handle.
    Comb(u32),
    /// The handle of a comb.
    Handle(Vec<u32>),
    /// A tooth of a comb.
    Tooth(Vec<u32>),
    /// An odd cut: how many pairs follow its handle.
    Odd(u32),
    /// A pair of an odd cut, the lower city first.
    Pair(u32, u32),
    /// A split by a pair of cities, the lower one first.
    Edge(u32, u32),
    /// A split by a set.
    Clique(Vec<u32>),
    /// A closed leaf: how many duals follow, of cities, of cuts and of conditions.
    Leaf(u32, u32, u32),
    /// A city and its dual.
    City(u32, i64),
    /// A cut, by its number in the list, and its dual.
    CutDual(u32, u64),
    /// A condition, by its depth on the path, and its dual.
    CondDual(u32, u64),
    /// An open leaf.
    Open,
}

/// The most bytes of a line, its line end left out.
const LONGEST: usize = 16384;

/// What the bytes of a line, without its line end, say in a text for `n` cities; none where they are no line of the form.
pub fn read_line(alloc: Global, n: u32, bytes: &[u8]) -> Result<Option<Item>, AllocError>
    ensures item { IfOk result (λ o. option_map said o ≡ item_of n bytes.now) }
    ensures form { IfOk result (λ o. IfSome o (λ i. fits n (said i) ≡ true)) }
{
    if bytes.len() > LONGEST {
        return Ok(None);
    }
    let end = word_end(bytes);
    match keyword_of(&bytes[..end]) {
        Some(keyword) => behind(alloc, n, keyword, &bytes[end..]),
        None => Ok(None),
    }
}

/// What a line says of which the first word and what stands behind it are given.
fn behind(alloc: Global, n: u32, keyword: Keyword, tail: &[u8]) -> Result<Option<Item>, AllocError>
    requires tail { EndsWord tail.now }
    requires short { length (word_of keyword ++ tail.now) ≤ longest }
    ensures { IfOk result (λ o. ReadsAs n (word_of keyword ++ tail.now) o) }
{
    match keyword {
        Keyword::Cert => Ok(title(n, tail)),
        Keyword::N => Ok(size(n, tail)),
        Keyword::Length => Ok(length(n, tail)),
        Keyword::Bound => Ok(bound(n, tail)),
        Keyword::Tour => tour(alloc, n, tail),
        Keyword::Cuts => Ok(cuts(n, tail)),
        Keyword::Subtour => subtour(alloc, n, tail),
        Keyword::Comb => Ok(comb(n, tail)),
        Keyword::Handle => handle(alloc, n, tail),
        Keyword::Tooth => tooth(alloc, n, tail),
        Keyword::Odd => Ok(odd(n, tail)),
        Keyword::Pair => Ok(pair(n, tail)),
        Keyword::Edge => Ok(edge(n, tail)),
        Keyword::Clique => clique(alloc, n, tail),
        Keyword::Leaf => Ok(leaf(n, tail)),
        Keyword::City => Ok(city(n, tail)),
        Keyword::CutDual => Ok(cut_dual(n, tail)),
        Keyword::CondDual => Ok(condition_dual(n, tail)),
        Keyword::Open => Ok(open_leaf(n, tail)),
    }
}
