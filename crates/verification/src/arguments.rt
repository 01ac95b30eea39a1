//! The words of a command line.
ghost use Rattle.std.specs.Prelude.{◌≡◌, ◌↔◌, [], IfOk, IsErr};

use std::alloc::{AllocError, Global};
use std::env;
use std::io::ErrorKind;
use std::rt::Env;

/// The words of the command line, of which the first is the program's name. There are none where one is not UTF-8: no words are of
/// no program's form.
///
/// # Errors
///
/// Memory ran out.
pub fn command_words<R: Env + AllocGlobal>(rt: &R) -> Result<Vec<String>, AllocError> {
    match env::args(rt) {
        Ok(words) => words.collect(rt.alloc()),
        Err(error) => without_words(rt.alloc(), error.kind()),
    }
}

/// What stands in place of words that were not read, by the reason.
fn without_words(alloc: Global, reason: ErrorKind) -> Result<Vec<String>, AllocError>
    ensures memory { IsErr result ↔ (reason ≡ ErrorKind.OutOfMemory) }
    ensures none { IfOk result (λ words. words.items ≡ []) }
{
    match reason {
        ErrorKind::OutOfMemory => Err(AllocError),
        _ => Ok(Vec::new(alloc)),
    }
}
