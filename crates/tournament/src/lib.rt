//! The least of many numbers that come and go.
//!
//! [`Tournament`] is a binary tree in an array (as a heap's, Williams 1964, but with fixed places): the numbers stand at its end, and
//! each entry before them is the first of the two below it. So the least number is at the top, and a change of one number costs
//! the way up from its place.
#![tactic(auto)]

ghost use Rattle.std.specs.Prelude.{◌≡◌, ◌≢◌, ◌+◌, ◌*◌, ◌/◌, ◌<◌, ◌≤◌, ◌^◌, ℕ, Option, None, Some, length, slice_set, slice_index_or, IfOk, MatchOption, vec_len};
ghost use Rattle.tournament.specs.Places.{Places, entry_at, key_in, key_of, IsLeast, NoneTakesPart};
ghost use Rattle.tournament.specs.Entries.{AreMadeBut, IsFirstOf, IsNumbered};

use std::alloc::{AllocError, Global};
use std::marker::Model;

/// A number that takes part, with its key.
#[derive(Clone, Copy, Debug)]
pub(crate) struct Candidate {
    pub key: i64,
    pub number: u32,
}

/// Numbers below its size, of which some take part, each with a key. No call but `new` takes memory. Contracts see the key of
/// each number that takes part.
#[derive(Drop)]
pub struct Tournament {
    size: u32,
    entries: Vec<Option<Candidate>>,
}

impl Model for Tournament {
    ghost use Rattle.tournament.specs.Places.{Places};

    ghost Value = { Places };

    ghost use Rattle.tournament.specs.Entries.{places_of, IsWellKept};

    ghost view = { places_of };

    ghost invariant = { IsWellKept };
}

impl Tournament {
    /// A tournament of so many numbers, of which none takes part yet. O(size).
    pub fn new(alloc: Global, size: u32) -> Result<Tournament, AllocError>
        requires { size < 2 ^ 31 }
        ensures size { IfOk result (λ t. t.size ≡ size) }
        ensures nobody { IfOk result NoneTakesPart }
    {
        Ok(Tournament {
            size,
            entries: nobody(alloc, 2 * size as usize)?,
        })
    }

    /// Lets a number take part with a key, or no longer. O(log size).
    pub fn set(&mut self, number: u32, key: Option<i64>)
        requires { number < self.old.size }
        ensures size { self.new.size ≡ self.old.size }
        ensures here { key_of self.new number ≡ key }
        ensures others { (k : ℕ) → k ≢ number → key_of self.new k ≡ key_of self.old k }
    {
        let size = self.size as usize;
        let place = size + number as usize;
        put(&mut self.entries, place, taking_part(number, key));
        raise(&mut self.entries, size, place);
    }

    /// The number that takes part and is least by key, and among equal keys by number. O(1).
    pub fn least(&self) -> Option<u32>
        ensures { MatchOption result (NoneTakesPart self.now) (IsLeast self.now) }
    {
        match top(&self.entries) {
            Some(first) => Some(first.number),
            None => None,
        }
    }
}

fn nobody(alloc: Global, count: usize) -> Result<Vec<Option<Candidate>>, AllocError>
    ensures long { IfOk result (λ v. length v.items ≡ count) }
    ensures none { IfOk result (λ v. (i : ℕ) → entry_at v.items i ≡ None) }
{
    Ok(vec![in alloc; None; count]?)
}

fn taking_part(number: u32, key: Option<i64>) -> Option<Candidate>
    ensures key { key_in result ≡ key }
    ensures number { IsNumbered result number }
{
    match key {
        Some(key) => Some(Candidate { key, number }),
        None => None,
    }
}

fn put(entries: &mut Vec<Option<Candidate>>, place: usize, entry: Option<Candidate>)
    requires { place < vec_len entries.old }
    ensures { entries.new.items ≡ slice_set entries.old.items place entry }
{
    entries[place] = entry;
}

fn top(entries: &[Option<Candidate>]) -> Option<Candidate>
    ensures { result ≡ entry_at entries.now 1 }
{
    match entries.get(1) {
        Some(first) => *first,
        None => None,
    }
}

/// The first of two.
fn first_of(a: Option<Candidate>, b: Option<Candidate>) -> Option<Candidate>
    ensures { IsFirstOf a b result }
{
    let (Some(x), Some(y)) = (a, b) else {
        return a.or(b);
    };
    if x.key < y.key || (x.key == y.key && x.number <= y.number) {
        a
    } else {
        b
    }
}

/// The first of the two entries below one.
fn first_below(entries: &[Option<Candidate>], here: usize) -> Option<Candidate>
    requires { 2 * here + 1 < length entries.now }
    ensures { IsFirstOf (entry_at entries.now (2 * here)) (entry_at entries.now (2 * here + 1)) result }
{
    first_of(entries[2 * here], entries[2 * here + 1])
}

/// Makes the entries on the way up from a place anew.
fn raise(entries: &mut Vec<Option<Candidate>>, size: usize, place: usize)
    requires long { length entries.old.items ≡ 2 * size }
    requires inside { place < 2 * size }
    requires from { 1 ≤ place }
    requires made { AreMadeBut entries.old.items size (place / 2) }
    ensures long { length entries.new.items ≡ 2 * size }
    ensures made { AreMadeBut entries.new.items size 0 }
    ensures places { (i : ℕ) → size ≤ i → entry_at entries.new.items i ≡ entry_at entries.old.items i }
{
    let mut here = place;
    while here > 1 {
        here /= 2;
        let first = first_below(entries, here);
        put(entries, here, first);
    }
}
