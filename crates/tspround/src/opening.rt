//! The book with which a round opens, as a name that types carry.
ghost use Rattle.bossx.specs.Books.{Book};
ghost use Rattle.tspround.specs.Rounds.{no_book};

use std::marker::Brand;

/// The book with which a round opens. Each call of [`rounds`](crate::rounds) picks its own; it is there in proofs alone. A type that
/// names it can say what a lock's value has to do with it, whoever comes to the lock.
pub trait Opening {
    ghost book: { Book };
}

impl Opening for Brand {
    ghost book = { no_book };
}
