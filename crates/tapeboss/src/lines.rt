//! The lines of a text, one by one, and what they say.
ghost use Rattle.std.specs.Prelude.{◌≡◌, ◌≤◌, ◌==◌, true, position, IfOk, IfSome, OnOk};
ghost use Rattle.std.specs.Option.{option_map};
ghost use Rattle.certdef.specs.Items.{fits, is_set};
ghost use Rattle.certline.specs.Said.{said};
ghost use Rattle.tapeboss.specs.Lines as defs;
ghost use Rattle.tapeboss.specs.Lines.{first_line, other_lines, count_of, cities_of, set_of_handle, set_of_tooth, pair_of, city_of, cut_dual_of, condition_dual_of};

use certline::{Item, read_line};
use std::alloc::{AllocError, Global};

/// The lines of a text that are still to come. Contracts see what each of them says: nothing where it is not of the form, or has no end.
#[derive(Drop)]
pub(crate) struct Lines<'a> {
    pub(crate) n: u32,
    pub(crate) rest: &'a [u8],
}

impl<'a> Lines<'a> {
    /// The lines of a text for `n` cities.
    pub(crate) fn new(n: u32, text: &'a [u8]) -> Lines<'a>
        ensures cities { result.n ≡ n }
        ensures rest { result.rest.now ≡ text.now }
    {
        Lines { n, rest: text }
    }

    /// Whether no line is left.
    pub(crate) fn are_over(&self) -> bool
        ensures { result ≡ defs.are_over self.now.rest.now }
    {
        self.rest.is_empty()
    }

    /// What the next line says. Nothing where there is none, it is not of the form or has no end.
    pub(crate) fn next(&mut self, alloc: Global) -> Result<Option<Item>, AllocError>
        ensures item { IfOk result (λ o. option_map said o ≡ first_line self.old.n self.old.rest.now) }
        ensures form { IfOk result (λ o. IfSome o (λ i. fits self.old.n (said i) ≡ true)) }
        ensures rest { OnOk result (self.new.rest.now ≡ other_lines self.old.rest.now) }
        ensures same { self.new.n ≡ self.old.n }
    {
        let Some(end) = line_end(self.rest) else {
            self.rest = &self.rest[..0];
            return Ok(None);
        };
        let (line, tail) = self.rest.split_at(end);
        self.rest = &tail[1..];
        read_line(alloc, self.n, line)
    }

    /// The number of cuts that comes next.
    pub(crate) fn count(&mut self, alloc: Global) -> Result<Option<u32>, AllocError>
        ensures value { IfOk result (λ o. o ≡ count_of (first_line self.old.n self.old.rest.now)) }
        ensures rest { OnOk result (self.new.rest.now ≡ other_lines self.old.rest.now) }
        ensures same { self.new.n ≡ self.old.n }
    {
        match self.next(alloc)? {
            Some(Item::Cuts(count)) => Ok(Some(count)),
            _ => Ok(None),
        }
    }

    /// The cities of the tour that comes next.
    pub(crate) fn tour(&mut self, alloc: Global) -> Result<Option<Vec<u64>>, AllocError>
        ensures value { IfOk result (λ o. option_map (λ v. v.items) o ≡ cities_of (first_line self.old.n self.old.rest.now)) }
        ensures rest { OnOk result (self.new.rest.now ≡ other_lines self.old.rest.now) }
        ensures same { self.new.n ≡ self.old.n }
    {
        match self.next(alloc)? {
            Some(Item::Tour(cities)) => Ok(Some(cities)),
            _ => Ok(None),
        }
    }

    /// The set of the handle that comes next.
    pub(crate) fn handle(&mut self, alloc: Global) -> Result<Option<Vec<u32>>, AllocError>
        ensures value { IfOk result (λ o. option_map (λ v. v.items) o ≡ set_of_handle (first_line self.old.n self.old.rest.now)) }
        ensures set { IfOk result (λ o. IfSome o (λ v. is_set self.old.n v.items ≡ true)) }
        ensures rest { OnOk result (self.new.rest.now ≡ other_lines self.old.rest.now) }
        ensures same { self.new.n ≡ self.old.n }
    {
        match self.next(alloc)? {
            Some(Item::Handle(set)) => Ok(Some(set)),
            _ => Ok(None),
        }
    }

    /// The set of the tooth that comes next.
    pub(crate) fn tooth(&mut self, alloc: Global) -> Result<Option<Vec<u32>>, AllocError>
        ensures value { IfOk result (λ o. option_map (λ v. v.items) o ≡ set_of_tooth (first_line self.old.n self.old.rest.now)) }
        ensures set { IfOk result (λ o. IfSome o (λ v. is_set self.old.n v.items ≡ true)) }
        ensures rest { OnOk result (self.new.rest.now ≡ other_lines self.old.rest.now) }
        ensures same { self.new.n ≡ self.old.n }
    {
        match self.next(alloc)? {
            Some(Item::Tooth(set)) => Ok(Some(set)),
            _ => Ok(None),
        }
    }

    /// The pair of an odd cut that comes next, of cities from 1.
    pub(crate) fn pair(&mut self, alloc: Global) -> Result<Option<(u32, u32)>, AllocError>
        ensures value { IfOk result (λ o. o ≡ pair_of (first_line self.old.n self.old.rest.now)) }
        ensures from_one { IfOk result (λ o. IfSome o (λ p. (1 ≤ p.0) × (1 ≤ p.1))) }
        ensures rest { OnOk result (self.new.rest.now ≡ other_lines self.old.rest.now) }
        ensures same { self.new.n ≡ self.old.n }
    {
        match self.next(alloc)? {
            Some(Item::Pair(u, v)) => Ok(Some((u, v))),
            _ => Ok(None),
        }
    }

    /// The city, from 1, and its dual that come next.
    pub(crate) fn city(&mut self, alloc: Global) -> Result<Option<(u32, i64)>, AllocError>
        ensures value { IfOk result (λ o. o ≡ city_of (first_line self.old.n self.old.rest.now)) }
        ensures rest { OnOk result (self.new.rest.now ≡ other_lines self.old.rest.now) }
        ensures same { self.new.n ≡ self.old.n }
    {
        match self.next(alloc)? {
            Some(Item::City(city, dual)) => Ok(Some((city, dual))),
            _ => Ok(None),
        }
    }

    /// The cut, by its number, and its dual that come next.
    pub(crate) fn cut_dual(&mut self, alloc: Global) -> Result<Option<(u32, u64)>, AllocError>
        ensures value { IfOk result (λ o. o ≡ cut_dual_of (first_line self.old.n self.old.rest.now)) }
        ensures rest { OnOk result (self.new.rest.now ≡ other_lines self.old.rest.now) }
        ensures same { self.new.n ≡ self.old.n }
    {
        match self.next(alloc)? {
            Some(Item::CutDual(cut, dual)) => Ok(Some((cut, dual))),
            _ => Ok(None),
        }
    }

    /// The condition, by its depth, and its dual that come next.
    pub(crate) fn condition_dual(&mut self, alloc: Global) -> Result<Option<(u32, u64)>, AllocError>
        ensures value { IfOk result (λ o. o ≡ condition_dual_of (first_line self.old.n self.old.rest.now)) }
        ensures rest { OnOk result (self.new.rest.now ≡ other_lines self.old.rest.now) }
        ensures same { self.new.n ≡ self.old.n }
    {
        match self.next(alloc)? {
            Some(Item::CondDual(depth, dual)) => Ok(Some((depth, dual))),
            _ => Ok(None),
        }
    }
}

/// Where the first line ends, if it has an end.
fn line_end(bytes: &[u8]) -> Option<usize>
    ensures { result ≡ position (λ b. b == 10) bytes.now }
{
    bytes.iter().position(|b| *b == b'\n')
}
