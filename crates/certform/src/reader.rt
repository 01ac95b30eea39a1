//! A reader of the form.
ghost use Rattle.std.specs.Prelude.{◌≡◌, IfOk, OnErr, IsErrOf};
ghost use Rattle.verdict.specs.Forms.{at_title, line_next, is_ended};
ghost use Rattle.certline.specs.Said.{said};

use crate::error::LineError;
use crate::place::{Place, after};
use certline::{Item, read_line};
use std::alloc::Global;
use std::marker::Model;

/// A reader of the lines of a proof text, in their order, by their form alone: it keeps counts in place of what it read.
/// What another number of cities means, and what depths name, is its caller's to judge. Contracts see the number of cities and
/// which line must come.
#[derive(Drop)]
pub struct Reader {
    n: u32,
    place: Place,
}

impl Model for Reader {
    ghost use Rattle.certform.specs.Reading.{Standing, form_of};

    ghost Value = { Standing };

    ghost view = { λ r. record { n = r.n; form = form_of r.place } };
}

impl Reader {
    /// A reader that stands before the first line of a text for `n` cities.
    pub fn new(n: u32) -> Reader
        ensures { result ≡ record { n = n; form = at_title } }
    {
        Reader {
            n,
            place: Place::Title,
        }
    }

    /// Reads the next line, without its line end: what it says, where it is a line of the form and stands at its place. After an
    /// error the reader is as before.
    pub fn line(&mut self, alloc: Global, bytes: &[u8]) -> Result<Item, LineError>
        ensures item { IfOk result (λ i. line_next self.old.n self.old.form bytes.now ≡ Some (said i, self.new.form)) }
        ensures not_a_line { IsErrOf result LineError.NotALine → line_next self.old.n self.old.form bytes.now ≡ None }
        ensures same { self.new.n ≡ self.old.n }
        ensures kept { OnErr result (self.new ≡ self.old) }
    {
        let Some(item) = read_line(alloc, self.n, bytes)? else {
            return Err(LineError::NotALine);
        };
        self.place = after(self.place, &item)?;
        Ok(item)
    }

    /// Whether the tree has ended: no line may come.
    pub fn ended(&self) -> bool
        ensures { result ≡ is_ended self.now.form }
    {
        matches!(self.place, Place::Trees(0, _))
    }
}
