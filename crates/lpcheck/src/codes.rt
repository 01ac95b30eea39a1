//! Which of a row's sets hold a city, as a code of one number.
//!
//! Of the pairs of a large program few cross a set of a comb. Two cities that the same sets hold have the same code, and a pair of such
//! cities crosses none of them: that is seen without a look at the sets.
ghost use Rattle.std.specs.Prelude.{◌≡◌, ◌≤◌, ◌<◌, length, slice_index, true, IfOk};
ghost use Rattle.lpcheck.specs.Rows.{cities_of_each};
ghost use Rattle.lpcheck.specs.Codes.{code, AreCodes};

use crate::Row;
use std::alloc::{AllocError, Global};

/// How many sets a code tells of at most.
const MOST: usize = 62;

/// The codes of the cities by the sets of a row, where many pairs are to be looked at; else none. O(cities * sets).
pub fn codes_of(alloc: Global, row: &Row, pairs: usize) -> Result<Vec<u64>, AllocError>
    ensures { IfOk result (λ codes. AreCodes row.now codes.items) }
{
    let cities = cities_of(row);
    if row.sets.len() > MOST || pairs < cities as usize {
        return Ok(Vec::new(alloc));
    }
    let mut codes = Vec::with_capacity(alloc, cities as usize)?;
    for city in 0..cities {
        codes.push(code_of(row, city))?;
    }
    Ok(codes)
}

/// How many cities the sets of a row are of.
fn cities_of(row: &Row) -> u32 {
    match row.sets.first() {
        Some(set) => set.n(),
        None => 0,
    }
}

/// A binary digit for each set of a row: 1 where it holds the city.
fn code_of(row: &Row, city: u32) -> u64
    requires few { length row.now.sets.items ≤ 62 }
    ensures { result ≡ code 0 (cities_of_each row.now.sets.items) city }
{
    let mut code: u64 = 0;
    for at in 0..row.sets.len() {
        code = 2 * code + u64::from(row.sets[at].contains(city));
    }
    code
}

/// Whether two cities have one code.
#[inline]
pub fn are_alike(codes: &[u64], u: u32, v: u32) -> bool
    ensures u { result ≡ true → u < length codes.now }
    ensures v { result ≡ true → v < length codes.now }
    ensures same { result ≡ true → slice_index codes.now u ≡ slice_index codes.now v }
{
    match (codes.get(u as usize), codes.get(v as usize)) {
        (Some(one), Some(other)) => *one == *other,
        _ => false,
    }
}
