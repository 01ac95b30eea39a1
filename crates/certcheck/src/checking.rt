//! The verdict on a desk's proof.
ghost use Rattle.std.specs.Prelude.{◌≡◌, ℕ, ◌+◌, ◌-◌, ◌^◌, ◌<◌, ◌≤◌, ◌↔◌, [], take, length, IfOk, IsErrOf};
ghost use Rattle.ports.specs.Outside.{BothTell, WhereTold, Cause};
ghost use Rattle.ports.specs.Desk.{TakesFirst};
ghost use Rattle.certdef.specs.Accepted.{IsAcceptedText};
ghost use Rattle.certdef.specs.Bytes.{verdict};
ghost use Rattle.certcheck.specs.Answers.{verdict_of, IsYes, count_taken, HasNoRefusal};
ghost use Rattle.certcheck.specs.Checkers.{HasRead};

use crate::answer::{Answer, CheckError};
use crate::checker::Checker;
use ports::{Desk, Inlet};
use std::alloc::Global;
use tspinst::Instance;
use verdict::yes_is_accepted_text;

/// How many bytes are asked for at a time.
const BLOCK: usize = 1 << 16;

/// The verdict on the bytes that are left for the desk's proof: yes with a length and a bound exactly where they are a text that is
/// accepted with them, and else the first refusal, by the line that it is told at.
///
/// Whatever the answer, at most 2^60 + 1 bytes are taken: one more than a text may have shows that it is too long. They are taken in
/// pieces of at most 65,536 bytes, each judged before the next is asked for, and none is asked for behind a refusal: that stands in
/// the last 65,536 bytes that were taken, and what is behind them stays on the desk. After a yes nothing is left.
///
/// Fixed pairs stand on each path, from the root on: a tour without one is refused, and so is a split by one.
///
/// A leaf costs one pass over the pairs of cities, the tour O(cities + fixed pairs) and the dual of a condition O(fixed pairs); other
/// lines, splits among them, cost O(1) a byte. Which pairs are decided stands in a table of a byte for each two of the cities, which is
/// made once, for the first pair.
pub fn check<D: Desk>(
    alloc: Global,
    instance: &Instance,
    desk: &mut D,
) -> Result<Answer, CheckError>
    ensures judged { IfOk result (λ a. WhereTold (λ t. verdict_of a ≡ verdict instance.now t.proof_in) (D.told desk.old)) }
    ensures accepted { IfOk result (λ a. WhereTold (λ t. (l b : ℕ) → (a ≡ Answer.Yes l b) ↔ IsAcceptedText instance.now t.proof_in l b) (D.told desk.old)) }
    ensures whole { IfOk result (λ a. IsYes a → BothTell (λ t u. u.proof_in ≡ []) (D.told desk.old) (D.told desk.new)) }
    ensures taken { (k : ℕ) × BothTell (TakesFirst Inlet.Proof k) (D.told desk.old) (D.told desk.new) }
    ensures few { BothTell (λ t u. count_taken t u ≤ 2 ^ 60 + 1) (D.told desk.old) (D.told desk.new) }
    ensures needed { BothTell (λ t u. HasNoRefusal instance.now (take (count_taken t u - 65536) t.proof_in)) (D.told desk.old) (D.told desk.new) }
    ensures cause { Cause (IsErrOf result CheckError.Failed) (D.read_faults desk.old) (D.read_faults desk.new) }
    ensures same { D.write_faults desk.new ≡ D.write_faults desk.old }
{
    yes_is_accepted_text();
    let _few = instance.n();
    judge(alloc, instance, desk)
}

/// The verdict, line by line.
fn judge<D: Desk>(alloc: Global, instance: &Instance, desk: &mut D) -> Result<Answer, CheckError>
    ensures judged { IfOk result (λ a. WhereTold (λ t. verdict_of a ≡ verdict instance.now t.proof_in) (D.told desk.old)) }
    ensures whole { IfOk result (λ a. IsYes a → BothTell (λ t u. u.proof_in ≡ []) (D.told desk.old) (D.told desk.new)) }
    ensures taken { (k : ℕ) × BothTell (TakesFirst Inlet.Proof k) (D.told desk.old) (D.told desk.new) }
    ensures few { BothTell (λ t u. count_taken t u ≤ 2 ^ 60 + 1) (D.told desk.old) (D.told desk.new) }
    ensures needed { BothTell (λ t u. HasNoRefusal instance.now (take (count_taken t u - 65536) t.proof_in)) (D.told desk.old) (D.told desk.new) }
    ensures cause { Cause (IsErrOf result CheckError.Failed) (D.read_faults desk.old) (D.read_faults desk.new) }
    ensures same { D.write_faults desk.new ≡ D.write_faults desk.old }
{
    let mut block = vec![in alloc; 0u8; BLOCK]?;
    read_through(alloc, Checker::new(alloc, instance), desk, &mut block)
}

/// Reads block by block, up to the end or the first refusal.
fn read_through<D: Desk>(
    alloc: Global,
    mut checker: Checker<'_>,
    desk: &mut D,
    block: &mut [u8],
) -> Result<Answer, CheckError>
    requires room { 0 < length block.old }
    requires piece { length block.old ≤ 65536 }
    requires start { HasRead checker [] }
    ensures judged { IfOk result (λ a. WhereTold (λ t. verdict_of a ≡ verdict checker.entry.instance t.proof_in) (D.told desk.old)) }
    ensures whole { IfOk result (λ a. IsYes a → BothTell (λ t u. u.proof_in ≡ []) (D.told desk.old) (D.told desk.new)) }
    ensures taken { (k : ℕ) × BothTell (TakesFirst Inlet.Proof k) (D.told desk.old) (D.told desk.new) }
    ensures few { BothTell (λ t u. count_taken t u ≤ 2 ^ 60 + 1) (D.told desk.old) (D.told desk.new) }
    ensures needed { BothTell (λ t u. HasNoRefusal checker.entry.instance (take (count_taken t u - 65536) t.proof_in)) (D.told desk.old) (D.told desk.new) }
    ensures cause { Cause (IsErrOf result CheckError.Failed) (D.read_faults desk.old) (D.read_faults desk.new) }
    ensures same { D.write_faults desk.new ≡ D.write_faults desk.old }
{
    loop {
        let most = checker.wanted(block.len());
        let piece = &mut block[..most];
        let count = desk.read(Inlet::Proof, piece)?;
        if count == 0 {
            return Ok(checker.finish());
        }
        match checker.feed(alloc, &piece[..count]) {
            Ok(next) => checker = next,
            Err(trouble) => return trouble.answer(),
        }
    }
}
