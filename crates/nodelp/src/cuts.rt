//! Cuts in their rising order, each with the place of its row.
ghost use Rattle.std.specs.Prelude.{◌≡◌, ℕ, ◌≤◌, ◌∷◌, ◌++◌, length, take, drop};
ghost use Rattle.nodelp.specs.Cuts.{is_listed, put};

use cutform::Cut;

/// Whether a cut is one of some cuts.
pub fn has_cut(cuts: &[(Cut, u32)], cut: &Cut) -> bool
    ensures { result ≡ is_listed cuts.now cut.now }
{
    let mut rest = cuts;
    while let Some((q, more)) = rest.split_first() {
        if cut.cmp(&q.0).is_eq() {
            return true;
        }
        rest = more;
    }
    false
}

/// Where a cut goes among some cuts: before the first that is greater.
pub fn place_of(cuts: &[(Cut, u32)], cut: &Cut) -> usize
    ensures within { result ≤ length cuts.now }
    ensures put { (row : ℕ) → take result cuts.now ++ (cut.now, row) ∷ drop result cuts.now ≡ put (cut.now, row) cuts.now }
{
    for place in 0..cuts.len() {
        if cut.cmp(&cuts[place].0).is_lt() {
            return place;
        }
    }
    cuts.len()
}
