//! Pairs of cities as steps of a tour.
ghost use Rattle.std.specs.Prelude.{◌≡◌, ◌<◌, length, IfOk};
ghost use Rattle.std.specs.List.{AllByRecursion};
ghost use Rattle.tspdef.specs.Tours.{steps};
ghost use Rattle.cyc.specs.Tour.{IsWhole};
ghost use Rattle.certdef.specs.Tests as tests;
ghost use Rattle.certtests.specs.Followers.{AreFollowers, all_joined};

use std::alloc::{AllocError, Global};

/// Whether each of the pairs is a step of the tour through the cities. O(cities + pairs), and O(1) where there are no pairs.
pub(crate) fn are_steps(
    alloc: Global,
    cities: &[u32],
    pairs: &[(u32, u32)],
) -> Result<bool, AllocError>
    requires tour { IsWhole cities.now }
    requires pairs { AllByRecursion (λ p. (p.0 < p.1) × (p.1 < length cities.now)) pairs.now }
    ensures { IfOk result (λ b. b ≡ tests.are_steps (steps cities.now) pairs.now) }
{
    if pairs.is_empty() {
        return Ok(true);
    }
    let followers = followers(alloc, cities)?;
    Ok(are_joined(&followers, pairs))
}

/// For each city the one behind it in the tour.
fn followers(alloc: Global, cities: &[u32]) -> Result<Vec<u32>, AllocError>
    requires { IsWhole cities.now }
    ensures { IfOk result (λ v. AreFollowers cities.now v.items) }
{
    let mut followers = vec![in alloc; 0u32; cities.len()]?;
    let mut behind = cities[0];
    let mut rest = cities;
    while let Some((city, before)) = rest.split_last() {
        followers[*city as usize] = behind;
        behind = *city;
        rest = before;
    }
    Ok(followers)
}

/// Whether one city of each of the pairs is behind the other.
fn are_joined(followers: &[u32], pairs: &[(u32, u32)]) -> bool
    requires { AllByRecursion (λ p. (p.0 < p.1) × (p.1 < length followers.now)) pairs.now }
    ensures { result ≡ all_joined followers.now pairs.now }
{
    for (u, v) in pairs {
        if followers[*u as usize] != *v && followers[*v as usize] != *u {
            return false;
        }
    }
    true
}
