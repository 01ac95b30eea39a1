//! Marks on cities.
ghost use Rattle.std.specs.Prelude.{◌≡◌, ℕ, ◌<◌, false, ◌||◌, length, slice_index_or};
ghost use Rattle.tspdef.specs.Sets.{has};

/// Whether a city has a mark; one past the marks has none.
#[inline]
pub fn is_marked(marks: &[bool], city: u32) -> bool
    ensures { result ≡ slice_index_or marks.now city false }
{
    marks.get(city as usize).copied().unwrap_or(false)
}

/// Marks cities, but those past the marks.
pub fn mark(marks: &mut [bool], cities: &[u32])
    ensures long { length marks.new ≡ length marks.old }
    ensures marked { (c : ℕ) → c < length marks.old → slice_index_or marks.new c false ≡ (slice_index_or marks.old c false || has cities.now c) }
{
    for city in cities {
        if (*city as usize) < marks.len() {
            marks[*city as usize] = true;
        }
    }
}
