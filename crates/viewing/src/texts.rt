//! The texts that are printed.
ghost use Rattle.std.specs.Prelude.{◌≡◌, IfOk, string_bytes};
ghost use Rattle.verification.specs.Texts as verify_texts;
ghost use Rattle.viewing.specs.Texts as texts;

use std::alloc::{AllocError, Global};

/// What is printed where the words are not of the viewer's form.
pub(crate) const USAGE: &str = "USAGE tspview INSTANCE TEXT OUT\n";

/// The length of the tour that is drawn.
pub(crate) fn drawn_text(alloc: Global, length: u64) -> Result<String, AllocError>
    ensures { IfOk result (λ t. string_bytes t ≡ texts.drawn_text length) }
{
    format!(in alloc; "DRAWN {length}\n")
}

/// The first refusal of a text, and its line.
pub(crate) fn refused_text(alloc: Global, refusal: u32, line: u64) -> Result<Vec<u8>, AllocError>
    ensures { IfOk result (λ t. t.items ≡ verify_texts.refused_text refusal line) }
{
    Ok(format!(in alloc; "REFUSED {refusal} {line}\n")?.into_bytes())
}
