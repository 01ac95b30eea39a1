//! Calls of a boss as values.
ghost use Rattle.std.specs.Prelude.{IsTrue};
ghost use Rattle.bossx.specs.Steps.{IsCall};

use bossx::{Boss, Event, Reply};
use cyc::Tour;
use std::alloc::Global;
use std::test::Fail;

/// The tour of these cities.
pub(super) fn tour(alloc: Global, cities: &[u32]) -> Result<Tour, Fail> {
    if cities.len() < 3 || cities.len() > 2000 {
        return Err("no tour".into());
    }
    Ok(Tour::new(alloc, cities.len() as u32, Vec::from_slice(alloc, cities)?)?)
}

/// Whether a grunt that asks is one of the boss's.
fn is_call(boss: &Boss, event: &Event) -> bool
    ensures { IsTrue result → IsCall boss.now.grunts event.now }
{
    match event {
        Event::Ask(grunt) => 1 <= *grunt && *grunt <= boss.grunts(),
        Event::Report(_, _)
        | Event::Own(_, _)
        | Event::Gone(_)
        | Event::Expire(_)
        | Event::Offer(_) => true,
    }
}

/// What a boss replies to an event. A grunt that asks has to be one of the boss's.
pub(super) fn reply(boss: &mut Boss, event: Event) -> Result<Reply, Fail> {
    if !is_call(boss, &event) {
        return Err("no such grunt".into());
    }
    Ok(boss.act(event))
}
