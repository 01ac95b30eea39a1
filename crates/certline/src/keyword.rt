//! The first words of lines.

ghost use Rattle.std.specs.Prelude.{◌≡◌, ◌≤◌, ◌==◌, length, position, IfSome, IfNone};
ghost use Rattle.std.specs.List.{position_or_len};
ghost use Rattle.certline.specs.Words.{word_of};

/// The kind of a line, by its first word.
#[derive(Clone, Copy, Debug, PartialEq, Eq)]
pub enum Keyword {
    Cert,
    N,
    Length,
    Bound,
    Tour,
    Cuts,
    Subtour,
    Comb,
    Handle,
    Tooth,
    Odd,
    Pair,
    Edge,
    Clique,
    Leaf,
    City,
    CutDual,
    CondDual,
    Open,
}

/// Where the first blank stands, if there is one.
fn first_blank(bytes: &[u8]) -> Option<usize>
    ensures { result ≡ position (λ b. b == 32) bytes.now }
{
    bytes.iter().position(|b| *b == b' ')
}

/// Where the first word ends: at the first blank, or at the end.
#[tactic(auto, using(crate::proofs::Lines::found_place, crate::proofs::Lines::none_place))]
pub fn word_end(bytes: &[u8]) -> usize
    ensures { result ≡ position_or_len (λ b. b == 32) bytes.now }
{
    match first_blank(bytes) {
        Some(end) => end,
        None => bytes.len(),
    }
}

/// The kind of the lines with this first word. Those of which a text has most are tried first.
pub fn keyword_of(word: &[u8]) -> Option<Keyword>
    ensures some { IfSome result (λ k. word.now ≡ word_of k) }
    ensures none { IfNone result ((k : Keyword) → word.now ≡ word_of k → ⊥) }
{
    Some(match word {
        b"P" => Keyword::City,
        b"Y" => Keyword::CutDual,
        b"Z" => Keyword::CondDual,
        b"L" => Keyword::Leaf,
        b"E" => Keyword::Edge,
        b"K" => Keyword::Clique,
        b"S" => Keyword::Subtour,
        b"T" => Keyword::Tooth,
        b"H" => Keyword::Handle,
        b"C" => Keyword::Comb,
        b"F" => Keyword::Pair,
        b"B" => Keyword::Odd,
        b"O" => Keyword::Open,
        b"TSPCERT" => Keyword::Cert,
        b"N" => Keyword::N,
        b"LENGTH" => Keyword::Length,
        b"BOUND" => Keyword::Bound,
        b"TOUR" => Keyword::Tour,
        b"CUTS" => Keyword::Cuts,
        _ => return None,
    })
}
