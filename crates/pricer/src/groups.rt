//! The cuts of a closing in groups, with the cities that each group's sets hold: a city's row opens the cuts of few groups.

ghost use Rattle.std.specs.Prelude.{◌≡◌, ℕ, ◌*◌, ◌^◌, ◌≤◌, length, false, pos, take, drop, Some, ◌+ℤ◌};
ghost use Rattle.std.specs.List.{AllByRecursion};
ghost use Rattle.tspdef.specs.Cuts.{IsCut};
ghost use Rattle.tspdef.specs.Bounds.{cut_rows};
ghost use Rattle.pricer.specs.Sizes.{IsWithin};
ghost use Rattle.pricer.specs.Groups.{AreGrouped};
ghost use Rattle.pricer.specs.Marks.{is_marked};
ghost use Rattle.pricer.specs.Prices.{at, held};
ghost use Rattle.pricer.specs.Weights.{weight};

use crate::bounds::is_at;
use crate::holding::mark_cuts;
use crate::light::lay_cuts;
use cutform::Cut;

/// How many marks all groups have together.
const ROOM: usize = 32768;

/// No mark in any group.
pub fn no_marks() -> [bool; ROOM]
    ensures { length result ≡ 32768 }
{
    [false; ROOM]
}

/// Into how many groups the cuts go: as many as there is room for, and no more than a row passes over quickly.
pub fn group_count(n: u32) -> u32
    requires few { n ≤ 2000 }
    ensures some { 1 ≤ result }
    ensures room { n * result ≤ 32768 }
{
    if n <= 1000 { 32 } else { 16 }
}

/// The first cuts, as many as a group has, and the others.
fn part(cuts: &[(Cut, u64)], size: usize) -> (&[(Cut, u64)], &[(Cut, u64)])
    ensures first { result.0.now ≡ take size cuts.now }
    ensures others { result.1.now ≡ drop size cuts.now }
{
    cuts.split_at(size.min(cuts.len()))
}

/// Marks, for each group in turn, the cities that the sets of its cuts hold.
pub fn mark_groups(n: u32, size: usize, count: u32, marks: &mut [bool], cuts: &[(Cut, u64)])
    requires room { n * count ≤ length marks.old }
    requires cuts { AllByRecursion (λ q. IsCut n q.0) cuts.now }
    ensures { AreGrouped n size count marks.new cuts.now }
{
    if count > 0 {
        let (own, others) = marks.split_at_mut(n as usize);
        let (group, more) = part(cuts, size);
        mark_cuts(n, own, group);
        mark_groups(n, size, count - 1, others, more);
    }
}

/// Adds the dual of each cut of a group at each city of each of its sets that hold a city.
fn lay_group(n: u32, numbers: &mut [i64], v: u32, own: &[bool], group: &[(Cut, u64)])
    requires long { n ≤ length numbers.old }
    requires cuts { AllByRecursion (λ q. IsCut n q.0) group.now }
    requires light { weight group.now ≤ 2 ^ 46 }
    requires marks { (u : ℕ) → is_marked own.now u ≡ false → (c : ℕ) → held (Some u) (cut_rows group.now) c ≡ pos 0 }
    requires numbers { (c : ℕ) → IsWithin (2 ^ 47) (at numbers.old c) }
    ensures { (c : ℕ) → at numbers.new c ≡ at numbers.old c +ℤ held (Some v) (cut_rows group.now) c }
{
    if is_at(own, v) {
        lay_cuts(n, numbers, Some(v), group);
    }
}

/// Adds the dual of each cut at each city of each of its sets that hold a city, group by group, and then the cuts past the last.
pub fn lay_groups(
    n: u32,
    size: usize,
    count: u32,
    marks: &[bool],
    numbers: &mut [i64],
    v: u32,
    cuts: &[(Cut, u64)],
)
    requires room { n * count ≤ length marks.now }
    requires groups { AreGrouped n size count marks.now cuts.now }
    requires long { n ≤ length numbers.old }
    requires cuts { AllByRecursion (λ q. IsCut n q.0) cuts.now }
    requires light { weight cuts.now ≤ 2 ^ 46 }
    requires numbers { (c : ℕ) → IsWithin (2 ^ 46) (at numbers.old c) }
    ensures { (c : ℕ) → at numbers.new c ≡ at numbers.old c +ℤ held (Some v) (cut_rows cuts.now) c }
{
    let mut left = count;
    let mut behind = marks;
    let mut rest = cuts;
    while left > 0 {
        let (own, others) = behind.split_at(n as usize);
        let (group, more) = part(rest, size);
        lay_group(n, numbers, v, own, group);
        behind = others;
        rest = more;
        left -= 1;
    }
    lay_cuts(n, numbers, Some(v), rest);
}
