//! The components of the pairs of positive value.
ghost use Rattle.std.specs.Prelude.{◌≡◌, ◌<◌, ◌≤◌, true, false, IfOk, IfSome, length};
ghost use Rattle.std.specs.List.{All};
ghost use Rattle.tspdef.specs.Sets.{has, IsSet, IsProper};
ghost use Rattle.maxflow.specs.Crossings.{crossing};
ghost use Rattle.maxflow.specs.Flows.{is_stop};
ghost use Rattle.sepsub.specs.Growth.{IsLight};

use crate::{LIGHT, sides};
use cyc::CitySet;
use maxflow::Network;
use std::alloc::{AllocError, Global};

/// The cities that pairs of positive value join to city 0: where a flow from it with nowhere to go ends.
pub fn home(alloc: Global, network: &Network) -> Result<CitySet, AllocError>
    ensures cities { IfOk result (λ s. s.n ≡ network.now.n) }
    ensures set { IfOk result (λ s. IsSet network.now.n s.cities) }
    ensures holds { IfOk result (λ s. has s.cities 0 ≡ true) }
    ensures apart { IfOk result (λ s. crossing network.now.entries (has s.cities) ≡ 0) }
{
    let stops = sides::no_marks(alloc, network.n())?;
    let component = network.flow(alloc, 0, &stops)?;
    Ok(component.side)
}

/// All components but one, where that of city 0 is not all cities: what leaves the one is what leaves the others.
pub fn all_but_one(
    alloc: Global,
    network: &Network,
    home: &CitySet,
) -> Result<Vec<CitySet>, AllocError>
    requires cities { home.now.n ≡ network.now.n }
    requires proper { IsProper home.now.n home.now.cities }
    requires holds { has home.now.cities 0 ≡ true }
    requires apart { crossing network.now.entries (has home.now.cities) ≡ 0 }
    ensures light { IfOk result (λ v. All (IsLight network.now) v.items) }
    ensures some { IfOk result (λ v. 0 < length v.items) }
{
    let mut sets = others(alloc, network, home)?;
    let _left_out = sets.pop();
    sets.push(home.copy(alloc)?)?;
    Ok(sets)
}

/// The components but that of city 0.
fn others(alloc: Global, network: &Network, home: &CitySet) -> Result<Vec<CitySet>, AllocError>
    requires cities { home.now.n ≡ network.now.n }
    requires holds { has home.now.cities 0 ≡ true }
    ensures { IfOk result (λ v. All (IsLight network.now) v.items) }
{
    let stops = sides::marks_of(alloc, home)?;
    let mut sets = Vec::new(alloc);
    for city in 1..network.n() {
        if !stops[city as usize] && !is_in_any(&sets, city) {
            if let Some(set) = component(alloc, network, city, &stops)? {
                sets.push(set)?;
            }
        }
    }
    Ok(sets)
}

/// Whether a city is in one of the sets.
fn is_in_any(sets: &[CitySet], city: u32) -> bool {
    for set in sets {
        if set.contains(city) {
            return true;
        }
    }
    false
}

/// What a light flow from a city to the stops ends at: the city's component, where no stop is in it.
fn component(
    alloc: Global,
    network: &Network,
    city: u32,
    stops: &[bool],
) -> Result<Option<CitySet>, AllocError>
    requires inside { city < network.now.n }
    requires all { length stops.now ≡ network.now.n }
    requires free { is_stop stops.now city ≡ false }
    requires home { is_stop stops.now 0 ≡ true }
    ensures { IfOk result (λ o. IfSome o (λ s. IsLight network.now s)) }
{
    let _n = network.n();
    match network.flow_below(alloc, city, stops, LIGHT)? {
        Some(light) => Ok(Some(light.side)),
        None => Ok(None),
    }
}
