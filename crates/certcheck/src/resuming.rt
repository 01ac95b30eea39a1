//! A restart body, read whole.
ghost use Rattle.std.specs.Prelude.{◌≡◌, IfOk, IfErr};
ghost use Rattle.certdef.specs.Verdicts.{yes};
ghost use Rattle.verdict.specs.Bodies.{body_verdict};
ghost use Rattle.verdict.specs.Parts.{body_says};
ghost use Rattle.certcheck.specs.Keeping.{Kept};
ghost use Rattle.certcheck.specs.Restarts.{IsRefusalOfBody};

use crate::answer::{Answer, Trouble};
use crate::part::{Part, Parts};
use crate::purpose::Purpose;
use crate::reading::Reading;
use std::alloc::Global;
use std::collections::VecDeque;
use tspinst::Instance;

/// What a restart body says.
#[derive(Drop)]
pub struct Body {
    /// The length of its tour.
    pub length: u64,
    /// The bound that its closed leaves suffice for.
    pub bound: u64,
    /// Its parts in their order: the tour, and the nodes of the tree in preorder.
    pub parts: VecDeque<Part>,
    /// Whether there are more parts than are kept, which are the tour and 1,048,576 nodes.
    pub full: bool,
}

/// Reads a restart body, or tells the first refusal by the tests of a resumer: those of a verifier, but that a leaf may be open, and
/// that equal cuts of a leaf are one, whose duals may add up to 2^62.
///
/// Its time is that of a check, and k^2 steps for a leaf of k cuts at most.
pub fn read_body(alloc: Global, instance: &Instance, bytes: &[u8]) -> Result<Body, Trouble>
    ensures judged { IfOk result (λ b. body_verdict instance.now bytes.now ≡ yes b.length b.bound) }
    ensures said { IfOk result (λ b. Kept b.parts.items b.full (body_says instance.now bytes.now)) }
    ensures refused { IfErr result (λ e. IsRefusalOfBody instance.now e bytes.now) }
{
    let mut reading = Reading::new(alloc, instance.n(), Purpose::Resume);
    reading.feed(alloc, instance, bytes)?;
    match reading.finish() {
        Answer::Yes { length, bound } => {
            let Parts { kept: parts, full } = reading.parts;
            Ok(Body {
                length,
                bound,
                parts,
                full,
            })
        }
        Answer::No(refusal, line) => Err(Trouble::Refused(refusal, line)),
    }
}
