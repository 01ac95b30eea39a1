//! Handles, and combs of them with intervals as teeth.
ghost use Rattle.std.specs.Prelude.{◌≡◌, ◌≤◌, All, IfOk, IfSome};
ghost use Rattle.sepblos.specs.Violated.{IsWorth};

use crate::intervals::{Intervals, ONE};
use crate::programming::{Tooth, go_along, teeth_back};
use crate::room::Room;
use crate::support::Support;
use cutform::Cut;
use cyc::{CitySet, Frac};
use sepblos::{is_marked, mark, set_of, violated_comb};
use std::alloc::{AllocError, Global};

/// By how much teeth have to make up for their handle, in units.
const WORTH: i64 = 0x800;

/// From which value of its pairs into a handle on a city is at its border, in units: two fifths of one length.
const PULL: u32 = 0x6_6666;

/// With how many cities of its border a handle is tried, each alone.
const BORDER: usize = 3;

/// What handles are tried on: the pairs of positive value, and the intervals of an order that may be teeth.
#[derive(Drop)]
pub(crate) struct Ground {
    pub(crate) support: Support,
    pub(crate) intervals: Intervals,
}

/// The combs of a handle, and of the handle with a city of its border more: for each the intervals as teeth that the values miss by
/// most, where they miss it. O(pairs of its cities, and places and intervals near its turns) for each, and O(n * sets + entries * sets)
/// for one that is missed.
pub(crate) fn combs_of(
    alloc: Global,
    x: &Frac,
    ground: &Ground,
    handle: &CitySet,
    room: &mut Room,
) -> Result<Vec<Cut>, AllocError>
    ensures { IfOk result (λ cuts. All (IsWorth x.now) cuts.items) }
{
    let mut cuts = Vec::new(alloc);
    room.take(handle.cities())?;
    if let Some(cut) = comb_of(alloc, x, ground, room)? {
        cuts.push(cut)?;
    }
    let border = border(alloc, ground, room)?;
    for city in &border {
        room.join(*city)?;
        if let Some(cut) = comb_of(alloc, x, ground, room)? {
            cuts.push(cut)?;
        }
        room.leave();
    }
    Ok(cuts)
}

/// The comb of the handle, and of intervals as teeth, that the values miss by most, where they do.
fn comb_of(
    alloc: Global,
    x: &Frac,
    ground: &Ground,
    room: &mut Room,
) -> Result<Option<Cut>, AllocError>
    ensures { IfOk result (λ c. IfSome c (IsWorth x.now)) }
{
    room.find_turns(&ground.intervals)?;
    let end = go_along(&ground.intervals, &room.turns, &mut room.steps);
    if !is_enough(end.worth(), room.crossing(&ground.support)) {
        return Ok(None);
    }
    let n = x.n();
    let back = teeth_back(alloc, &room.steps, end)?;
    let teeth = tooth_sets(alloc, n, &ground.intervals, &back)?;
    let handle = marked_set(alloc, n, &room.inside)?;
    let cut = violated_comb(alloc, x, &handle, teeth)?;
    Ok(cut)
}

/// Whether teeth are worth more than their handle costs.
fn is_enough(worth: i64, crossing: i64) -> bool {
    worth >= crossing.wrapping_sub(ONE).wrapping_add(WORTH)
}

/// The sets of teeth, the first in the order first.
fn tooth_sets(
    alloc: Global,
    n: u32,
    intervals: &Intervals,
    back: &[Tooth],
) -> Result<Vec<CitySet>, AllocError>
    requires many { 3 ≤ n }
    requires few { n ≤ 2000 }
{
    let mut sets = Vec::with_capacity(alloc, back.len())?;
    for tooth in back.iter().rev() {
        sets.push(tooth_set(alloc, n, intervals, *tooth)?)?;
    }
    Ok(sets)
}

/// The set of a tooth.
fn tooth_set(
    alloc: Global,
    n: u32,
    intervals: &Intervals,
    tooth: Tooth,
) -> Result<CitySet, AllocError>
    requires many { 3 ≤ n }
    requires few { n ≤ 2000 }
{
    let mut marks = vec![in alloc; false; n as usize]?;
    if let Some(cities) = intervals
        .order()
        .get(tooth.from as usize..tooth.end as usize)
    {
        mark(&mut marks, cities);
    }
    let set = marked_set(alloc, n, &marks)?;
    Ok(set)
}

/// The cities with marks as a set.
fn marked_set(alloc: Global, n: u32, marks: &[bool]) -> Result<CitySet, AllocError>
    requires many { 3 ≤ n }
    requires few { n ≤ 2000 }
    ensures { IfOk result (λ s. s.n ≡ n) }
{
    let mut cities = Vec::new(alloc);
    for city in 0..n {
        if is_marked(marks, city) {
            cities.push(city)?;
        }
    }
    let set = set_of(alloc, n, cities)?;
    Ok(set)
}

/// The first few cities along the order that are outside of the handle, and that their pairs draw into it by two fifths of one length.
fn border(alloc: Global, ground: &Ground, room: &Room) -> Result<Vec<u32>, AllocError> {
    let places = room.joined(alloc, &ground.support, &ground.intervals)?;
    let mut cities = Vec::new(alloc);
    for place in &places {
        let city = ground.intervals.city(*place);
        if cities.len() < BORDER
            && cities.last() != Some(&city)
            && is_drawn(&ground.support, city, &room.inside)
        {
            cities.push(city)?;
        }
    }
    Ok(cities)
}

/// Whether a city is outside of a handle, and its pairs into it add up to two fifths of one length or more.
#[inline]
fn is_drawn(support: &Support, city: u32, inside: &[bool]) -> bool {
    if is_marked(inside, city) {
        return false;
    }
    let mut pull: u32 = 0;
    for arm in support.arms(city) {
        if is_marked(inside, arm.city) {
            pull = pull.wrapping_add(arm.value);
        }
    }
    pull >= PULL
}
