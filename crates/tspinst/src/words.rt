//! The words of a text, each with the number of its line.

ghost use Rattle.std.specs.Prelude.{◌≡◌, ℕ, ◌^◌, ◌≤◌, List, [], ◌∷◌, length, IfSome, IfNone};
ghost use Rattle.tsplex.specs.Text.{tokens, behind_line};
ghost use Rattle.tspinst.specs.Headers.{name_of, value_of};

use crate::header::{name, value};
use std::marker::Model;
use tsplex::Lexer;

/// The words that are left of a text. Contracts see the list of them, each with the number of its line.
///
/// A text that is short enough to be read has fewer lines than a `u32` counts, so each number is the line's own.
#[derive(Drop)]
pub struct Words<'a> {
    lexer: Lexer<'a>,
}

impl<'a> Model for Words<'a> {
    ghost use Rattle.std.specs.Prelude.{ℕ, List, ◌^◌, ◌<◌};
    ghost use Rattle.tsplex.specs.Lexer.{left, last_line};

    ghost Value = { List (ℕ × List ℕ) };

    ghost view = { λ w. left w.lexer };

    ghost invariant = { λ w. last_line w.lexer < 2 ^ 32 };
}

/// The keyword of a line outside a section, and the first word of its value, or no bytes.
#[derive(Clone, Copy, Drop)]
pub struct Header<'a> {
    pub line: u32,
    pub name: &'a [u8],
    pub value: &'a [u8],
}

impl<'a> Words<'a> {
    /// All words of a text.
    pub fn new(bytes: &'a [u8]) -> Self
        requires { length bytes.now ≤ 2 ^ 26 }
        ensures { result ≡ tokens bytes.now }
    {
        Words {
            lexer: Lexer::new(bytes),
        }
    }

    /// The next word, and its line's number.
    pub fn next(&mut self) -> Option<(u32, &'a [u8])>
        ensures some { IfSome result (λ t. self.old ≡ (t.0, t.1.now) ∷ self.new) }
        ensures none { IfNone result ((self.old ≡ []) × (self.new ≡ [])) }
    {
        self.lexer.token()
    }

    /// Takes the line on which the next word stands as one outside a section.
    pub fn header(&mut self) -> Option<Header<'a>>
        ensures some { IfSome result (λ h. (first : List ℕ) × (rest : List (ℕ × List ℕ)) × (self.old ≡ (h.line, first) ∷ rest)
            × (h.name.now ≡ name_of first) × (h.value.now ≡ value_of h.line first rest) × (self.new ≡ behind_line h.line rest)) }
        ensures none { IfNone result ((self.old ≡ []) × (self.new ≡ [])) }
    {
        let (line, first) = self.lexer.token()?;
        let value = value(&mut self.lexer, first);
        Some(Header {
            line,
            name: name(first),
            value,
        })
    }

    /// Leaves no word.
    pub fn clear(&mut self)
        ensures { self.new ≡ [] }
    {
        self.lexer = Lexer::new(&[]);
    }
}
