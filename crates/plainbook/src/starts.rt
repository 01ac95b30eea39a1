//! The boss that a plain book stands for.
ghost use Rattle.std.specs.Prelude.{◌≡◌, IsTrue};
ghost use Rattle.tspdef.specs.Instances.{IsTourOf};

use crate::duals::POINTS;
use crate::tours::has_all;
use bossx::Boss;
use cyc::{Tour, TourError};
use distx::{Kind, Point};
use std::alloc::{AllocError, Global};
use std::error::Error;
use std::fmt;
use treebook::Tree;
use tspinst::{FixError, Instance, from_points};

/// The tour that a book begins with. It has the pair 0 and 2, which some of the instances fix.
pub const OPENING: [u32; 5] = [0, 2, 1, 3, 4];

/// What a boss and a plain book begin with, beside their grunts.
#[derive(Clone, Copy, Debug, PartialEq, Eq)]
pub struct Start {
    /// The pair that each tour has, if there is one.
    pub fixed: Option<(u32, u32)>,
    /// How many nodes may be settled.
    pub budget: u32,
    /// How much longer than the shortest the best tour may be in the end.
    pub gap: u64,
}

/// Why there is no boss of the kind.
#[derive(Clone, Copy, Debug, PartialEq, Eq)]
pub enum StartError {
    /// There is no memory.
    NoMemory,
    /// The budget, the grunts, the fixed pair or the tour are such as no boss begins with.
    NoStart,
}

impl fmt::Display for StartError {
    fn fmt<W: fmt::Write>(&self, f: &mut fmt::Formatter<W>) -> fmt::Result {
        match self {
            StartError::NoMemory => write!(f, "out of memory"),
            StartError::NoStart => write!(f, "no boss begins so"),
        }
    }
}

impl Error for StartError {}

impl From<AllocError> for StartError {
    fn from(_: AllocError) -> Self {
        StartError::NoMemory
    }
}

impl From<TourError> for StartError {
    fn from(error: TourError) -> Self {
        match error {
            TourError::NoMemory => StartError::NoMemory,
            TourError::NotATour => StartError::NoStart,
        }
    }
}

impl From<FixError> for StartError {
    fn from(error: FixError) -> Self {
        match error {
            FixError::NoMemory => StartError::NoMemory,
            FixError::BadFixed { .. } => StartError::NoStart,
        }
    }
}

fn points(alloc: Global) -> Result<Vec<Point>, AllocError> {
    let mut points = Vec::new(alloc);
    for (x, y) in POINTS {
        points.push(Point::new(x, y))?;
    }
    Ok(points)
}

/// The instance of the five points with distances of this kind, and a fixed pair if there is one.
pub fn five_points(
    alloc: Global,
    kind: Kind,
    fixed: Option<(u32, u32)>,
) -> Result<Instance, StartError> {
    let points = points(alloc)?;
    if points.len() < 3 || points.len() > 2000 {
        return Err(StartError::NoStart);
    }
    let free = from_points(alloc, kind, &points)?;
    match fixed {
        Some(pair) => Ok(free.fix(alloc, &[pair])?),
        None => Ok(free),
    }
}

/// Whether a tour has the cities and the fixed pairs of an instance.
fn is_tour_of(instance: &Instance, tour: &Tour) -> bool
    ensures { IsTrue result → IsTourOf instance.now tour.now }
{
    tour.n() == instance.n() && has_all(tour.cities(), instance.fixed())
}

/// The boss over one open node of an instance of five cities, with the tour that the plain book begins with.
pub fn boss(
    alloc: Global,
    instance: &Instance,
    start: &Start,
    grunts: u32,
) -> Result<Boss, StartError> {
    if start.budget > 500_000 || grunts < 1 || grunts > 64 {
        return Err(StartError::NoStart);
    }
    let best = Tour::new(alloc, 5, Vec::from_slice(alloc, &OPENING)?)?;
    if !is_tour_of(instance, &best) {
        return Err(StartError::NoStart);
    }
    let tree = Tree::with_fixed(alloc, instance.n(), instance.fixed())?;
    Ok(Boss::start(alloc, instance, tree, best, start.budget, grunts, start.gap)?)
}
