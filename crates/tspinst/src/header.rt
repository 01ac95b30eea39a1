//! A line outside a section.

ghost use Rattle.std.specs.Prelude.{◌≡◌, ℕ, ◌<◌, ◌≤◌, length, IfSome};
ghost use Rattle.std.specs.List.{position_or_len};
ghost use Rattle.tsplex.specs.Lexer.{left, line_of, last_line};
ghost use Rattle.tsplex.specs.Text.{behind_line};
ghost use Rattle.tspinst.specs.Headers.{is_colon, name_of, value_of, dimension_of};

use tsplex::{Lexer, natural};

/// How many bytes stand before the first colon.
#[tactic(auto, using(crate::proofs::HeaderLemmas::colon_steps))]
fn colon(bytes: &[u8]) -> usize
    ensures len { result ≡ position_or_len is_colon bytes.now }
    ensures bound { result ≤ length bytes.now }
{
    for (i, byte) in bytes.iter().enumerate() {
        if *byte == b':' {
            return i;
        }
    }
    bytes.len()
}

/// The keyword of a line, from its first word.
pub fn name(first: &[u8]) -> &[u8]
    ensures { result.now ≡ name_of first.now }
{
    let (before, _) = first.split_at(colon(first));
    before
}

/// The first word of a line's value, or no bytes. What is left stands behind the line.
#[tactic(auto, unfolding(crate::specs::Headers::value_of, crate::specs::Headers::after_colon))]
pub fn value<'a>(lexer: &mut Lexer<'a>, first: &'a [u8]) -> &'a [u8]
    ensures value { result.now ≡ value_of (line_of lexer.old) first.now (left lexer.old) }
    ensures rest { left lexer.new ≡ behind_line (line_of lexer.old) (left lexer.old) }
    ensures bound { last_line lexer.new ≤ last_line lexer.old }
{
    let at = colon(first);
    if at < first.len() {
        let (_, behind) = first.split_at(at + 1);
        let next = lexer.word();
        let _ = lexer.line();
        if behind.is_empty() { next } else { behind }
    } else {
        let second = lexer.word();
        let third = lexer.word();
        let _ = lexer.line();
        match second.split_first() {
            Some((b':', behind)) => { if behind.is_empty() { third } else { behind } }
            _ => second,
        }
    }
}

/// The number of cities that a word says: digits of value 3 to 2000.
pub fn dimension(word: &[u8]) -> Option<u32>
    ensures same { result ≡ dimension_of word.now }
    ensures bound { IfSome result (λ n. (3 ≤ n) × (n ≤ 2000)) }
{
    match natural(word, 2000) {
        Some(n) if n >= 3 => Some(n),
        _ => None,
    }
}
