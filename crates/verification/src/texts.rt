//! The texts that are printed.
ghost use Rattle.std.specs.Prelude.{◌≡◌, IfOk};
ghost use Rattle.verification.specs.Texts as texts;
ghost use Rattle.verification.specs.Answers as answers;

use certcheck::Answer;
use std::alloc::{AllocError, Global};
use tspinst::Refusal;

/// What is printed where the words are not of the verifier's form.
pub(crate) const USAGE: &str = "USAGE tspverify INSTANCE PROOF\n";

/// The first refusal of an instance's text.
pub(crate) fn instance_text(alloc: Global, refusal: Refusal) -> Result<Vec<u8>, AllocError>
    ensures { IfOk result (λ t. t.items ≡ texts.instance_text refusal) }
{
    Ok(format!(in alloc; "INSTANCE {refusal}\n")?.into_bytes())
}

/// The length with which a proof is accepted, and the bound where that is less; or its first refusal and the line of it.
pub(crate) fn answer_text(alloc: Global, answer: Answer) -> Result<Vec<u8>, AllocError>
    ensures { IfOk result (λ t. t.items ≡ answers.answer_text answer) }
{
    match answer {
        Answer::Yes { length, bound } if bound == length => verified_text(alloc, length),
        Answer::Yes { length, bound } => within_text(alloc, length, bound),
        Answer::No(refusal, line) => refused_text(alloc, refusal, line),
    }
}

fn verified_text(alloc: Global, length: u64) -> Result<Vec<u8>, AllocError>
    ensures { IfOk result (λ t. t.items ≡ texts.verified_text length) }
{
    Ok(format!(in alloc; "VERIFIED {length}\n")?.into_bytes())
}

fn within_text(alloc: Global, length: u64, bound: u64) -> Result<Vec<u8>, AllocError>
    ensures { IfOk result (λ t. t.items ≡ texts.within_text length bound) }
{
    Ok(format!(in alloc; "WITHIN {length} {bound}\n")?.into_bytes())
}

fn refused_text(alloc: Global, refusal: u32, line: u64) -> Result<Vec<u8>, AllocError>
    ensures { IfOk result (λ t. t.items ≡ texts.refused_text refusal line) }
{
    Ok(format!(in alloc; "REFUSED {refusal} {line}\n")?.into_bytes())
}
