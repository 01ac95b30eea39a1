//! The two cities that the used pairs of a path join to each city.
ghost use Rattle.std.specs.Prelude.{◌≡◌, ℕ, ◌<◌, length, map, IfOk, MatchOption};
ghost use Rattle.tspdef.specs.Paths.{IsPath};
ghost use Rattle.branchx.specs.Cond.{condition_of, conditions_of};
ghost use Rattle.pathtour.specs.declared.neighbours.Joined.TheVariants.{Nothing};
ghost use Rattle.pathtour.specs.Neighbours.{AreNeighbours, LacksTwo, AreJoined, more, added, joined_at, two_of, HasOther, IsPairBelow};

use branchx::Cond;
use std::alloc::{AllocError, Global};

/// The cities that are joined to one city.
#[derive(Clone, Copy)]
enum Joined {
    Nothing,
    One(u32),
    Two(u32, u32),
    /// Three or more.
    Many,
}

impl Joined {
    /// One more city.
    fn with(self, city: u32) -> Joined
        ensures { result ≡ more self city }
    {
        match self {
            Joined::Nothing => Joined::One(city),
            Joined::One(first) => Joined::Two(first, city),
            Joined::Two(_, _) | Joined::Many => Joined::Many,
        }
    }
}

/// The two cities that used pairs join to each city, if there are exactly two each time.
pub fn neighbours_of(
    alloc: Global,
    n: u32,
    conditions: &[Cond],
) -> Result<Option<Vec<(u32, u32)>>, AllocError>
    requires { IsPath n (conditions_of conditions.now) }
    ensures { IfOk result (λ r. MatchOption r (LacksTwo n (conditions_of conditions.now)) (λ pairs. AreNeighbours n (conditions_of conditions.now) pairs.items)) }
{
    let joined = joined_of(alloc, n, conditions)?;
    twos_of(alloc, &joined)
}

/// The cities that used pairs join to each city.
fn joined_of(alloc: Global, n: u32, conditions: &[Cond]) -> Result<Vec<Joined>, AllocError>
    requires { IsPath n (conditions_of conditions.now) }
    ensures { IfOk result (λ joined. AreJoined n (conditions_of conditions.now) joined.items) }
{
    let mut joined = vec![in alloc; Joined::Nothing; n as usize]?;
    join_all(n, &mut joined, conditions);
    Ok(joined)
}

/// Joins the two cities of each used pair.
fn join_all(n: u32, joined: &mut [Joined], conditions: &[Cond])
    requires long { length joined.old ≡ n }
    requires empty { (v : ℕ) → v < n → joined_at joined.old v ≡ Nothing }
    requires is_path { IsPath n (conditions_of conditions.now) }
    ensures { AreJoined n (conditions_of conditions.now) joined.new }
{
    for condition in conditions {
        join(joined, condition);
    }
}

fn join(joined: &mut [Joined], condition: &Cond)
    requires { IsPairBelow (length joined.old) (condition_of condition.now) }
    ensures { (v : ℕ) → v < length joined.old → joined_at joined.new v ≡ added (condition_of condition.now) v (joined_at joined.old v) }
{
    if let Cond::Fixed(u, v) | Cond::Present(u, v) = condition {
        joined[*u as usize] = joined[*u as usize].with(*v);
        joined[*v as usize] = joined[*v as usize].with(*u);
    }
}

/// The two cities that are joined to each city, if there are exactly two each time.
fn twos_of(alloc: Global, joined: &[Joined]) -> Result<Option<Vec<(u32, u32)>>, AllocError>
    ensures { IfOk result (λ r. MatchOption r (HasOther joined.now) (λ pairs. joined.now ≡ map two_of pairs.items)) }
{
    let mut pairs = Vec::with_capacity(alloc, joined.len())?;
    for at in joined {
        let Joined::Two(first, second) = at else {
            return Ok(None);
        };
        pairs.push((*first, *second))?;
    }
    Ok(Some(pairs))
}
