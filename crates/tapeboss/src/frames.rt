//! Events out of the bytes behind a frame's length.
ghost use Rattle.std.specs.Prelude.{◌≡◌, ℕ, ◌≤◌, drop, length, IfOk, IfSome};
ghost use Rattle.std.specs.Option.{option_map};
ghost use Rattle.bossx.specs.Steps.{IsCall};
ghost use Rattle.tapeboss.specs.Frames as defs;
ghost use Rattle.tapeboss.specs.Frames.{Hears, GruntIs};
ghost use Rattle.tapeboss.specs.Messages.{tour_in};

use crate::error::{Fault, FrameError};
use crate::reports::read_report;
use crate::tours::read_tour;
use crate::words::first_word;
use bossx::{Brought, Event};
use std::alloc::Global;

/// The event that a frame is, or its first fault: for n cities, and grunts from 1 to a most.
pub(crate) fn hear(alloc: Global, n: u32, grunts: u32, bytes: &[u8]) -> Result<Event, FrameError>
    requires many { 3 ≤ n }
    requires few { n ≤ 2000 }
    ensures hears { Hears result (defs.heard n grunts bytes.now) }
    ensures calls { IfOk result (IsCall grunts) }
{
    let Some((kind, args)) = bytes.split_first() else {
        return Err(FrameError::Bad(Fault::BadKind));
    };
    match *kind {
        1 => ask_of(grunts, args),
        2 => report_of(alloc, n, args),
        3 => gone_of(grunts, args),
        4 => lease_of(args),
        5 => offer_of(alloc, n, args),
        _ => Err(FrameError::Bad(Fault::BadKind)),
    }
}

/// A grunt that asks.
fn ask_of(grunts: u32, args: &[u8]) -> Result<Event, FrameError>
    ensures hears { Hears result (defs.with_grunt grunts Event.Ask args.now) }
    ensures calls { IfOk result (IsCall grunts) }
{
    match grunt_of(grunts, args) {
        Ok(grunt) => Ok(Event::Ask(grunt)),
        Err(fault) => Err(FrameError::Bad(fault)),
    }
}

/// A grunt that is gone.
fn gone_of(grunts: u32, args: &[u8]) -> Result<Event, FrameError>
    ensures hears { Hears result (defs.with_grunt grunts Event.Gone args.now) }
    ensures calls { IfOk result (IsCall grunts) }
{
    match grunt_of(grunts, args) {
        Ok(grunt) => Ok(Event::Gone(grunt)),
        Err(fault) => Err(FrameError::Bad(fault)),
    }
}

/// The grunt that is named.
fn grunt_of(grunts: u32, args: &[u8]) -> Result<u32, Fault>
    ensures { GruntIs grunts args.now result }
{
    if args.len() != 4 {
        return Err(Fault::BadKind);
    }
    let grunt = first_word(args);
    if grunt < 1 || grunt > grunts {
        return Err(Fault::BadGrunt);
    }
    Ok(grunt)
}

/// The end of a lease's time.
fn lease_of(args: &[u8]) -> Result<Event, FrameError>
    ensures hears { Hears result (defs.with_lease args.now) }
    ensures calls { (grunts : ℕ) → IfOk result (IsCall grunts) }
{
    if args.len() != 4 {
        return Err(FrameError::Bad(Fault::BadKind));
    }
    Ok(Event::Expire(first_word(args)))
}

/// A report: a lease, and a text.
fn report_of(alloc: Global, n: u32, args: &[u8]) -> Result<Event, FrameError>
    requires many { 3 ≤ n }
    requires few { n ≤ 2000 }
    ensures hears { Hears result (defs.with_report n args.now) }
    ensures calls { (grunts : ℕ) → IfOk result (IsCall grunts) }
{
    if args.len() < 4 {
        return Err(FrameError::Bad(Fault::BadKind));
    }
    let (_, text) = args.split_at(4);
    match read_report(alloc, n, text)? {
        Some(report) => Ok(Event::Report(first_word(args), Brought::Plain(report))),
        None => Err(FrameError::Bad(Fault::BadText)),
    }
}

/// A tour that is offered.
fn offer_of(alloc: Global, n: u32, args: &[u8]) -> Result<Event, FrameError>
    requires many { 3 ≤ n }
    requires few { n ≤ 2000 }
    ensures hears { Hears result (defs.told_tour (tour_in n args.now)) }
    ensures calls { (grunts : ℕ) → IfOk result (IsCall grunts) }
{
    match read_tour(alloc, n, args)? {
        Some(tour) => Ok(Event::Offer(tour)),
        None => Err(FrameError::Bad(Fault::BadText)),
    }
}
