//! Lines of sets and tours, by what stands behind their first word.

ghost use Rattle.std.specs.Prelude.{◌≡◌, ℕ, ◌^◌, ◌<◌, ◌≤◌, ◌++◌, [], ◌∷◌, List, true, length, codes, IfOk, IfSome, IfNone};
ghost use Rattle.certdef.specs.Items.{longest, is_set, rises, each_below};
ghost use Rattle.certline.specs.Spelling.{EndsWord, spaced};
ghost use Rattle.certline.specs.Said.{ReadsAs};

use crate::digits::next;
use crate::item::Item;
use std::alloc::{AllocError, Global};

/// Every number of a tour is below this.
const TOUR_NUMBERS: u64 = 10_000_000_000;

/// The numbers that stand in a line, each below 10^10.
fn numbers(alloc: Global, tail: &[u8]) -> Result<Option<Vec<u64>>, AllocError>
    ensures some { IfOk result (λ o. IfSome o (λ v. tail.now ≡ spaced v.items)) }
    ensures small { IfOk result (λ o. IfSome o (λ v. each_below (10 ^ 10) v.items ≡ true)) }
    ensures none { IfOk result (λ o. IfNone o ((ns : List ℕ) → each_below (10 ^ 10) ns ≡ true → tail.now ≡ spaced ns → ⊥)) }
    ensures only { IfOk result (λ o. IfSome o (λ v. (ns : List ℕ) → each_below (10 ^ 10) ns ≡ true → tail.now ≡ spaced ns → ns ≡ v.items)) }
{
    let mut numbers = Vec::new(alloc);
    let mut rest = tail;
    while !rest.is_empty() {
        let Some((number, more)) = next(rest) else {
            return Ok(None);
        };
        if number >= TOUR_NUMBERS {
            return Ok(None);
        }
        numbers.push(number)?;
        rest = more;
    }
    Ok(Some(numbers))
}

/// Room for so many numbers, but for no more than such a text may spell: each takes two bytes or more.
fn room(alloc: Global, many: u64, tail: &[u8]) -> Result<Vec<u32>, AllocError>
    ensures { IfOk result (λ v. v.items ≡ []) }
{
    let most = tail.len() / 2;
    if many < most as u64 {
        Vec::with_capacity(alloc, many as usize)
    } else {
        Vec::with_capacity(alloc, most)
    }
}

/// Cities of the `n` that rise strictly, of which there should be so many.
fn cities(alloc: Global, n: u32, many: u64, tail: &[u8]) -> Result<Option<Vec<u32>>, AllocError>
    ensures some { IfOk result (λ o. IfSome o (λ v. tail.now ≡ spaced v.items)) }
    ensures rise { IfOk result (λ o. IfSome o (λ v. rises 1 n v.items ≡ true)) }
    ensures none { IfOk result (λ o. IfNone o ((s : List ℕ) → rises 1 n s ≡ true → tail.now ≡ spaced s → ⊥)) }
    ensures only { IfOk result (λ o. IfSome o (λ v. (s : List ℕ) → rises 1 n s ≡ true → tail.now ≡ spaced s → s ≡ v.items)) }
{
    let mut cities = room(alloc, many, tail)?;
    let mut least = 1u64;
    let mut rest = tail;
    while !rest.is_empty() {
        let Some((city, more)) = next(rest) else {
            return Ok(None);
        };
        if city < least || city > u64::from(n) {
            return Ok(None);
        }
        cities.push(city as u32)?;
        least = city + 1;
        rest = more;
    }
    Ok(Some(cities))
}

/// A set of some of the `n` cities: how many they are, and the cities.
fn set(alloc: Global, n: u32, tail: &[u8]) -> Result<Option<Vec<u32>>, AllocError>
    ensures some { IfOk result (λ o. IfSome o (λ v. tail.now ≡ spaced (length v.items ∷ v.items))) }
    ensures set { IfOk result (λ o. IfSome o (λ v. is_set n v.items ≡ true)) }
    ensures none { IfOk result (λ o. IfNone o ((s : List ℕ) → is_set n s ≡ true → tail.now ≡ spaced (length s ∷ s) → ⊥)) }
{
    let Some((many, rest)) = next(tail) else {
        return Ok(None);
    };
    let Some(cities) = cities(alloc, n, many, rest)? else {
        return Ok(None);
    };
    if many == 0 {
        return Ok(None);
    }
    if cities.len() as u64 == many {
        Ok(Some(cities))
    } else {
        Ok(None)
    }
}

/// The line of the tour.
pub fn tour(alloc: Global, n: u32, tail: &[u8]) -> Result<Option<Item>, AllocError>
    requires tail { EndsWord tail.now }
    requires short { length (codes "TOUR" ++ tail.now) ≤ longest }
    ensures { IfOk result (λ o. ReadsAs n (codes "TOUR" ++ tail.now) o) }
{
    match numbers(alloc, tail)? {
        Some(cities) => {
            if cities.len() == n as usize {
                Ok(Some(Item::Tour(cities)))
            } else {
                Ok(None)
            }
        }
        None => Ok(None),
    }
}

/// The line of a subtour cut.
pub fn subtour(alloc: Global, n: u32, tail: &[u8]) -> Result<Option<Item>, AllocError>
    requires tail { EndsWord tail.now }
    requires short { length (codes "S" ++ tail.now) ≤ longest }
    ensures { IfOk result (λ o. ReadsAs n (codes "S" ++ tail.now) o) }
{
    match set(alloc, n, tail)? {
        Some(set) => Ok(Some(Item::Subtour(set))),
        None => Ok(None),
    }
}

/// The line of the handle of a comb.
pub fn handle(alloc: Global, n: u32, tail: &[u8]) -> Result<Option<Item>, AllocError>
    requires tail { EndsWord tail.now }
    requires short { length (codes "H" ++ tail.now) ≤ longest }
    ensures { IfOk result (λ o. ReadsAs n (codes "H" ++ tail.now) o) }
{
    match set(alloc, n, tail)? {
        Some(set) => Ok(Some(Item::Handle(set))),
        None => Ok(None),
    }
}

/// The line of a tooth of a comb.
pub fn tooth(alloc: Global, n: u32, tail: &[u8]) -> Result<Option<Item>, AllocError>
    requires tail { EndsWord tail.now }
    requires short { length (codes "T" ++ tail.now) ≤ longest }
    ensures { IfOk result (λ o. ReadsAs n (codes "T" ++ tail.now) o) }
{
    match set(alloc, n, tail)? {
        Some(set) => Ok(Some(Item::Tooth(set))),
        None => Ok(None),
    }
}

/// The line of a split by a set.
pub fn clique(alloc: Global, n: u32, tail: &[u8]) -> Result<Option<Item>, AllocError>
    requires tail { EndsWord tail.now }
    requires short { length (codes "K" ++ tail.now) ≤ longest }
    ensures { IfOk result (λ o. ReadsAs n (codes "K" ++ tail.now) o) }
{
    match set(alloc, n, tail)? {
        Some(set) => Ok(Some(Item::Clique(set))),
        None => Ok(None),
    }
}
