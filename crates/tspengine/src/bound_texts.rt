//! The texts that `bound` and `checkbound` print.
ghost use Rattle.std.specs.Prelude.{◌≡◌, IfOk};
ghost use Rattle.tspengine.specs.Bounds as bounds;
ghost use Rattle.tspengine.specs.Bounding as bounding;

use onetree::Answer;
use std::alloc::{AllocError, Global};

/// The bound that some duals prove.
pub(crate) fn bound_text(alloc: Global, bound: u64) -> Result<Vec<u8>, AllocError>
    ensures { IfOk result (λ t. t.items ≡ bounds.bound_text bound) }
{
    Ok(format!(in alloc; "BOUND {bound}\n")?.into_bytes())
}

/// The bound of an accepted certificate; or the first refusal and the line of it.
pub(crate) fn answer_text(alloc: Global, answer: Answer) -> Result<Vec<u8>, AllocError>
    ensures { IfOk result (λ t. t.items ≡ bounding.answer_text answer) }
{
    match answer {
        Answer::Yes(bound) => checked_text(alloc, bound),
        Answer::No(refusal, line) => refused_text(alloc, refusal, line),
    }
}

fn checked_text(alloc: Global, bound: u64) -> Result<Vec<u8>, AllocError>
    ensures { IfOk result (λ t. t.items ≡ bounds.checked_text bound) }
{
    Ok(format!(in alloc; "CHECKED {bound}\n")?.into_bytes())
}

fn refused_text(alloc: Global, refusal: u32, line: u64) -> Result<Vec<u8>, AllocError>
    ensures { IfOk result (λ t. t.items ≡ bounds.refused_text refusal line) }
{
    Ok(format!(in alloc; "REFUSED {refusal} {line}\n")?.into_bytes())
}
