//! Going through a text.

ghost use Rattle.std.specs.Prelude.{◌≡◌, ◌↔◌, ℕ, ◌+◌, ◌^◌, ◌<◌, ◌≤◌, List, [], ◌∷◌, ◌++◌, length, take, drop, map, IsTrue, IsNone, OnSome, IfSome, IfNone};
ghost use Rattle.std.specs.List.{position_or_len, before_first, after_first};
ghost use Rattle.tsplex.specs.Text.{is_blank as is_blank_byte, is_space as is_space_byte, is_line_end, tokens, tokens_from, word_on, behind_line, from_word, told, words};

/// A space, a tab or a carriage return.
#[inline]
fn is_blank(byte: u8) -> bool
    ensures { result ≡ is_blank_byte byte }
{
    byte == b' ' || byte == b'\t' || byte == b'\r'
}

/// A byte that ends a word.
#[inline]
fn is_space(byte: u8) -> bool
    ensures { result ≡ is_space_byte byte }
{
    is_blank(byte) || byte == b'\n'
}

/// How many bytes stand before the first that ends a word.
#[tactic(auto, using(crate::proofs::TextLemmas::word_steps))]
fn word_len(bytes: &[u8]) -> usize
    ensures len { result ≡ position_or_len is_space_byte bytes.now }
    ensures bound { result ≤ length bytes.now }
{
    for (i, byte) in bytes.iter().enumerate() {
        if is_space(*byte) {
            return i;
        }
    }
    bytes.len()
}

/// How many bytes stand before the end of the line.
#[tactic(auto, using(crate::proofs::TextLemmas::line_steps))]
fn line_len(bytes: &[u8]) -> usize
    ensures len { result ≡ position_or_len is_line_end bytes.now }
    ensures bound { result ≤ length bytes.now }
{
    for (i, byte) in bytes.iter().enumerate() {
        if *byte == b'\n' {
            return i;
        }
    }
    bytes.len()
}

/// The first line without its LF, and what stands behind that.
#[tactic(auto, using(crate::proofs::TextLemmas::line_steps))]
fn split_line(bytes: &[u8]) -> (&[u8], &[u8])
    ensures text { result.0.now ≡ before_first is_line_end bytes.now }
    ensures rest { result.1.now ≡ after_first is_line_end bytes.now }
    ensures room { 0 < length bytes.now → length result.1.now < length bytes.now }
{
    let len = line_len(bytes);
    let (text, end) = bytes.split_at(len);
    match end.split_first() {
        Some((_, rest)) => (text, rest),
        None => (text, end),
    }
}

/// The text from its first word on, with the number of that word's line.
#[tactic(auto, using(crate::proofs::TextLemmas::token_steps))]
fn behind_spaces(line: u64, bytes: &[u8]) -> (u64, &[u8])
    requires { line + length bytes.now < 2 ^ 64 }
    ensures same { tokens_from result.0 result.1.now ≡ tokens_from line bytes.now }
    ensures rest { result.1.now ≡ from_word bytes.now }
    ensures room { result.0 + length result.1.now ≤ line + length bytes.now }
    ensures front { 0 < length result.1.now → 0 < position_or_len is_space_byte result.1.now }
{
    let mut here = line;
    let mut rest = bytes;
    while let Some((byte, more)) = rest.split_first() {
        if *byte == b'\n' {
            here += 1;
        } else if !is_blank(*byte) {
            return (here, rest);
        }
        rest = more;
    }
    (here, rest)
}

/// The text from the first byte of the line on that is no blank.
#[tactic(auto, using(crate::proofs::TextLemmas::blank_steps))]
fn behind_blanks(line: u64, bytes: &[u8]) -> &[u8]
    ensures same { tokens_from line result.now ≡ tokens_from line bytes.now }
    ensures room { length result.now ≤ length bytes.now }
    ensures front { position_or_len is_space_byte result.now ≡ 0 → word_on line (tokens_from line result.now) ≡ [] }
{
    let mut rest = bytes;
    while let Some((byte, more)) = rest.split_first() {
        if !is_blank(*byte) {
            return rest;
        }
        rest = more;
    }
    rest
}

/// A line's number as it is told.
#[inline]
fn told_number(line: u64) -> u32
    ensures { result ≡ told line }
{
    line.min(0xffff_ffff) as u32
}

/// Goes through a text by words and by lines.
///
/// Lines count from 1. The number of a line is told as a `u32`, and from the line of number 2^32 - 1 on
/// it stays there. Once a call has answered `None`, so does every later one.
#[derive(Clone, Copy, Drop)]
pub struct Lexer<'a> {
    line: u64,
    rest: &'a [u8],
    ghost room: { line + length rest.now < 2 ^ 64 },
}

impl<'a> Lexer<'a> {
    ghost use Rattle.tsplex.specs.Lexer.{line_of, rest_of, left, last_line};

    /// Before the first line of a text.
    pub fn new(bytes: &'a [u8]) -> Self
        ensures rest { rest_of result ≡ bytes.now }
        ensures line { line_of result ≡ 1 }
        ensures words { left result ≡ tokens bytes.now }
        ensures bound { last_line result ≡ 1 + length bytes.now }
    {
        Lexer {
            line: 1,
            rest: bytes,
        }
    }

    /// The next word and its line's number, or `None` where no word is left.
    ///
    /// It passes over blanks and ends of lines, and stands just behind the word then; at `None` behind the text.
    #[tactic(auto, using(crate::proofs::TextLemmas::token_reads))]
    pub fn token(&mut self) -> Option<(u32, &'a [u8])>
        ensures word { IfSome result (λ t. left self.old ≡ (line_of self.new, t.1.now) ∷ left self.new) }
        ensures number { IfSome result (λ t. t.0 ≡ told (line_of self.new)) }
        ensures rest { IfSome result (λ t. from_word (rest_of self.old) ≡ t.1.now ++ rest_of self.new) }
        ensures none { IfNone result ((left self.old ≡ []) × (left self.new ≡ []) × (rest_of self.new ≡ [])) }
        ensures bound { last_line self.new ≤ last_line self.old }
    {
        let (line, rest) = behind_spaces(self.line, self.rest);
        let len = word_len(rest);
        let (word, more) = rest.split_at(len);
        self.line = line;
        self.rest = more;
        if len == 0 {
            None
        } else {
            Some((told_number(line), word))
        }
    }

    /// What is left of the line, without its LF, and its number, or `None` where no byte is left.
    ///
    /// It stands at the beginning of the next line then.
    #[tactic(auto, using(crate::proofs::TextLemmas::line_reads))]
    pub fn line(&mut self) -> Option<(u32, &'a [u8])>
        ensures text { IfSome result (λ t. t.1.now ≡ before_first is_line_end (rest_of self.old)) }
        ensures number { IfSome result (λ t. t.0 ≡ told (line_of self.old)) }
        ensures rest { OnSome result (rest_of self.new ≡ after_first is_line_end (rest_of self.old)) }
        ensures next { OnSome result (line_of self.new ≡ line_of self.old + 1) }
        ensures words { IfSome result (λ t. left self.old ≡ map (λ w. (line_of self.old, w)) (words t.1.now) ++ left self.new) }
        ensures behind { left self.new ≡ behind_line (line_of self.old) (left self.old) }
        ensures none { IfNone result ((rest_of self.old ≡ []) × (rest_of self.new ≡ []) × (left self.old ≡ [])) }
        ensures bound { last_line self.new ≤ last_line self.old }
    {
        if self.rest.is_empty() {
            return None;
        }
        let line = self.line;
        let (text, rest) = split_line(self.rest);
        self.line = line + 1;
        self.rest = rest;
        Some((told_number(line), text))
    }

    /// The next word, where it stands on this line, else no bytes.
    ///
    /// It stands just behind the word then, and never leaves the line.
    #[tactic(auto, using(crate::proofs::TextLemmas::word_reads))]
    pub fn word(&mut self) -> &'a [u8]
        ensures word { result.now ≡ word_on (line_of self.old) (left self.old) }
        ensures line { line_of self.new ≡ line_of self.old }
        ensures some { 0 < length result.now → left self.old ≡ (line_of self.old, result.now) ∷ left self.new }
        ensures none { length result.now ≡ 0 → left self.new ≡ left self.old }
        ensures behind { behind_line (line_of self.old) (left self.new) ≡ behind_line (line_of self.old) (left self.old) }
        ensures bound { last_line self.new ≤ last_line self.old }
    {
        let rest = behind_blanks(self.line, self.rest);
        let (word, more) = rest.split_at(word_len(rest));
        self.rest = more;
        word
    }
}

#[cfg(test)]
mod tests {
    use super::*;

    #[test]
    fn words_are_read_line_by_line(rt: HostRuntime) {
        let mut lexer = Lexer::new(b" TYPE : TSP\r\n\n\t1 2\xff\n 3\t\n");
        assert_eq!(rt; lexer.token(), Some((1, b"TYPE".as_slice())));
        assert_eq!(rt; lexer.word(), b":".as_slice());
        assert_eq!(rt; lexer.word(), b"TSP".as_slice());
        assert_eq!(rt; lexer.word(), b"".as_slice());
        assert_eq!(rt; lexer.token(), Some((3, b"1".as_slice())));
        assert_eq!(rt; lexer.line(), Some((3, b" 2\xff".as_slice())));
        assert_eq!(rt; lexer.token(), Some((4, b"3".as_slice())));
        assert_eq!(rt; lexer.token(), None);
        assert_eq!(rt; lexer.line(), None);
    }

    #[test]
    fn lines_end_at_a_line_feed(rt: HostRuntime) {
        let mut lexer = Lexer::new(b"a b\r\n\nc");
        assert_eq!(rt; lexer.line(), Some((1, b"a b\r".as_slice())));
        assert_eq!(rt; lexer.line(), Some((2, b"".as_slice())));
        assert_eq!(rt; lexer.line(), Some((3, b"c".as_slice())));
        assert_eq!(rt; lexer.line(), None);
    }
}
