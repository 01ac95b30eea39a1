//! Certificates of Held-Karp bounds, checked.
//!
//! The text is held whole, and read line by line: at most a title, two lines and a line a city are of a certificate's form.
ghost use Rattle.std.specs.Prelude.{◌≡◌, ◌↔◌, ℕ, ◌≤◌, [], length, pos, ◌<◌, IfOk, IsErrOf};
ghost use Rattle.ports.specs.Outside.{BothTell, WhereTold, Cause};
ghost use Rattle.ports.specs.Desk.{TakesFirst};
ghost use Rattle.onetree.specs.OneTrees.{AreDuals};
ghost use Rattle.onetree.specs.Ascents.{zeros};
ghost use Rattle.onetree.specs.Certificates.{IsAccepted};
ghost use Rattle.onetree.specs.Readings.{ReadsDuals};
ghost use Rattle.onetree.specs.Answers.{Judges, NoTourIsShorterThan, Prices};

use crate::answer::{Answer, CheckError};
use crate::heading::{Stop, head, next_dual};
use crate::value::held_karp;
use ports::{Desk, Inlet, read_to_end};
use std::alloc::{AllocError, Global};
use tspinst::Instance;

/// The most bytes that are read.
const MOST: usize = 1 << 60;

/// How many units one length is.
const SCALE: i128 = 1 << 20;

/// The answer about the bytes that are left for the desk's proof: yes with a bound where they are an accepted certificate of it for the
/// instance, and else the first refusal. After an answer nothing is left. With a yes no tour of the instance is shorter than the bound. It
/// takes O(n^2), and O(1) a byte.
///
/// # Errors
///
/// `Failed` where a read failed. `NoMemory` where memory ran out: the text is held whole.
pub fn check<D: Desk>(
    alloc: Global,
    instance: &Instance,
    desk: &mut D,
) -> Result<Answer, CheckError>
    ensures judged { IfOk result (λ a. WhereTold (λ t. Judges instance.now t.proof_in a) (D.told desk.old)) }
    ensures accepted { IfOk result (λ a. WhereTold (λ t. (b : ℕ) → (a ≡ Answer.Yes b) ↔ IsAccepted instance.now t.proof_in b) (D.told desk.old)) }
    ensures shorter { IfOk result (λ a. NoTourIsShorterThan instance.now a) }
    ensures whole { IfOk result (λ a. BothTell (λ t u. u.proof_in ≡ []) (D.told desk.old) (D.told desk.new)) }
    ensures taken { (k : ℕ) × BothTell (TakesFirst Inlet.Proof k) (D.told desk.old) (D.told desk.new) }
    ensures cause { Cause (IsErrOf result CheckError.Failed) (D.read_faults desk.old) (D.read_faults desk.new) }
    ensures same { D.write_faults desk.new ≡ D.write_faults desk.old }
{
    let _few = instance.n();
    read_and_judge(alloc, instance, desk)
}

/// The answer about the bytes that are left for the desk's proof, which are read to their end.
fn read_and_judge<D: Desk>(
    alloc: Global,
    instance: &Instance,
    desk: &mut D,
) -> Result<Answer, CheckError>
    ensures judged { IfOk result (λ a. WhereTold (λ t. Judges instance.now t.proof_in a) (D.told desk.old)) }
    ensures shorter { IfOk result (λ a. NoTourIsShorterThan instance.now a) }
    ensures whole { IfOk result (λ a. BothTell (λ t u. u.proof_in ≡ []) (D.told desk.old) (D.told desk.new)) }
    ensures taken { (k : ℕ) × BothTell (TakesFirst Inlet.Proof k) (D.told desk.old) (D.told desk.new) }
    ensures cause { Cause (IsErrOf result CheckError.Failed) (D.read_faults desk.old) (D.read_faults desk.new) }
    ensures same { D.write_faults desk.new ≡ D.write_faults desk.old }
{
    match read_to_end(alloc, desk, Inlet::Proof, MOST) {
        Ok(bytes) => Ok(judge(alloc, instance, &bytes)?),
        Err(error) => Err(CheckError::of_read(error)),
    }
}

/// The answer about a text.
fn judge(alloc: Global, instance: &Instance, bytes: &[u8]) -> Result<Answer, AllocError>
    ensures judged { IfOk result (λ a. Judges instance.now bytes.now a) }
    ensures shorter { IfOk result (λ a. NoTourIsShorterThan instance.now a) }
{
    let n = instance.n();
    match head(alloc, n, bytes) {
        Err(Stop::NoMemory) => Err(AllocError),
        Err(Stop::Refused(refusal, line)) => Ok(Answer::No(refusal, line)),
        Ok((bound, rest)) => {
            let mut duals = vec![in alloc; 0i64; n as usize]?;
            match read_duals(alloc, n, rest, &mut duals)? {
                Some(line) => Ok(Answer::No(1, line)),
                None => price(alloc, instance, &duals, bound),
            }
        }
    }
}

/// Yes where the value of the duals proves the bound.
fn price(
    alloc: Global,
    instance: &Instance,
    duals: &[i64],
    bound: u64,
) -> Result<Answer, AllocError>
    requires { AreDuals instance.now.n duals.now }
    ensures { IfOk result (λ a. Prices instance.now duals.now bound a) }
{
    let value = held_karp(alloc, instance, duals)?;
    if value <= i128::from(bound) * SCALE - SCALE {
        Ok(Answer::No(7, 3))
    } else {
        Ok(Answer::Yes(bound))
    }
}

/// Reads the lines of duals to the end of a text, from line 4 on. Gives the first line that may not stand where it does.
fn read_duals(
    alloc: Global,
    n: u32,
    text: &[u8],
    duals: &mut Vec<i64>,
) -> Result<Option<u64>, AllocError>
    requires few { n ≤ 2000 }
    requires zeros { duals.old.items ≡ zeros n }
    ensures { IfOk result (λ o. ReadsDuals n text.now duals.new.items o) }
{
    let mut rest = text;
    let mut line = 4;
    let mut last = 0;
    while !rest.is_empty() {
        let Some((city, dual, behind)) = next_dual(alloc, n, rest)? else {
            return Ok(Some(line));
        };
        if city <= last {
            return Ok(Some(line));
        }
        duals[city as usize - 1] = dual;
        last = city;
        line += 1;
        rest = behind;
    }
    Ok(None)
}
