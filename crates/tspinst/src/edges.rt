//! Sections of fixed edges.

ghost use Rattle.std.specs.Prelude.{◌≡◌, ℕ, ◌<◌, ◌≤◌, length, IfOk};
ghost use Rattle.tsplex.specs.Number.{whole_of};
ghost use Rattle.tspinst.specs.Sections.{ends_edges, city_if, second_read, edge_read, edges_read};
ghost use Rattle.tspinst.specs.Views.{Answers, Tells};

use crate::fixing::Fixing;
use crate::refusals::{ReadError, Refusal};
use crate::words::Words;
use std::alloc::Global;
use tsplex::{NumberFault, whole};

/// Whether a number ends the section.
fn is_end(number: Result<i64, NumberFault>) -> bool
    ensures { result ≡ ends_edges number }
{
    matches!(number, Ok(-1))
}

/// The city that a number from 1 on names.
fn city_of(line: u32, number: Result<i64, NumberFault>, n: u32) -> Result<u32, Refusal>
    requires few { n ≤ 2000 }
    ensures same { result ≡ city_if line n number }
    ensures bound { IfOk result (λ v. v < n) }
{
    match number {
        Ok(v) => {
            if 1 <= v && v <= i64::from(n) {
                Ok(v as u32 - 1)
            } else {
                Err(Refusal::BadNode(line))
            }
        }
        Err(NumberFault::OutOfRange) => Err(Refusal::BadNode(line)),
        Err(fault) => Err(Refusal::BadNumber(line, fault)),
    }
}

/// Reads the second city of a pair, and adds the pair.
#[tactic(auto, unfolding(crate::specs::Sections::second_read))]
fn read_second(words: &mut Words<'_>, fixing: &mut Fixing, u: u32) -> Result<(), ReadError>
    requires { u < fixing.old.n }
    ensures read { Tells result (fixing.new.pairs, words.new) (second_read fixing.old.n fixing.old.pairs u words.old) }
    ensures same { fixing.new.n ≡ fixing.old.n }
{
    match words.next() {
        Some((line, word)) => {
            let v = city_of(line, whole(word, fixing.n()), fixing.n())?;
            match fixing.add(u, v)? {
                None => Ok(()),
                Some(fault) => Err(ReadError::Refused(Refusal::FixedEdges(line, fault))),
            }
        }
        None => Err(ReadError::Refused(Refusal::Truncated)),
    }
}

/// Reads a pair, or the end of the section; whether it was a pair.
#[tactic(auto, unfolding(crate::specs::Sections::edge_read))]
fn read_edge(words: &mut Words<'_>, fixing: &mut Fixing) -> Result<bool, ReadError>
    ensures read { Answers (λ more. (more, fixing.new.pairs)) result words.new (edge_read fixing.old.n fixing.old.pairs words.old) }
    ensures same { fixing.new.n ≡ fixing.old.n }
{
    match words.next() {
        Some((line, word)) => {
            let number = whole(word, fixing.n());
            if is_end(number) {
                return Ok(false);
            }
            let u = city_of(line, number, fixing.n())?;
            read_second(words, fixing, u)?;
            Ok(true)
        }
        None => Err(ReadError::Refused(Refusal::Truncated)),
    }
}

/// Reads a section of fixed edges.
pub fn read_edges(alloc: Global, words: &mut Words<'_>, n: u32) -> Result<Fixing, ReadError>
    requires few { n ≤ 2000 }
    ensures read { Answers (λ f. f.pairs) result words.new (edges_read n words.old) }
    ensures same { IfOk result (λ f. f.n ≡ n) }
{
    let mut fixing = Fixing::new(alloc, n)?;
    let mut more = true;
    while more {
        match read_edge(words, &mut fixing) {
            Ok(again) => more = again,
            Err(error) => return Err(error),
        }
    }
    Ok(fixing)
}
