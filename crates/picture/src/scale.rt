//! Points on the canvas.
ghost use Rattle.std.specs.Prelude.{◌≡◌, ◌≤◌, length, IfOk};
ghost use Rattle.std.specs.List.{AllByRecursion};
ghost use Rattle.picture.specs.Canvas.{IsInside};

use crate::canvas::{MARGIN, SIDE, Spot};
use distx::Point;
use std::alloc::{AllocError, Global};

/// The part of the plane that is drawn: its left and its lower edge, and how wide and how high it is.
#[derive(Clone, Copy, Debug, PartialEq, Eq, Drop)]
struct Frame {
    left: i32,
    low: i32,
    wide: u32,
    high: u32,
}

/// The least part of the plane with all points in it.
fn frame_of(points: &[Point]) -> Frame {
    let mut left = i32::MAX;
    let mut low = i32::MAX;
    let mut right = i32::MIN;
    let mut top = i32::MIN;
    for point in points {
        left = left.min(point.x());
        low = low.min(point.y());
        right = right.max(point.x());
        top = top.max(point.y());
    }
    Frame {
        left,
        low,
        wide: right.abs_diff(left),
        high: top.abs_diff(low),
    }
}

/// How far a gap is on the canvas, where the longer side of the frame takes up the whole side.
fn shrunk(gap: u32, frame: Frame) -> u32
    ensures { result ≤ 960 }
{
    let longest = u64::from(frame.wide.max(frame.high).max(1));
    (u64::from(gap) * u64::from(SIDE) / longest).min(u64::from(SIDE)) as u32
}

/// Where a point is on the canvas. What is further right is further right there, and what is higher is higher; the shorter side of the
/// frame stands in the middle.
fn spot(frame: Frame, point: Point) -> Spot
    ensures { IsInside result }
{
    let right = (SIDE - shrunk(frame.wide, frame)) / 2;
    let up = (SIDE - shrunk(frame.high, frame)) / 2;
    let x = (right + shrunk(point.x().abs_diff(frame.left), frame)).min(SIDE);
    let y = (up + shrunk(point.y().abs_diff(frame.low), frame)).min(SIDE);
    Spot {
        x: MARGIN + x,
        y: MARGIN + SIDE - y,
    }
}

/// The places of points on the canvas, as large as they fit and not distorted.
pub fn on_plane(alloc: Global, points: &[Point]) -> Result<Vec<Spot>, AllocError>
    ensures all { IfOk result (λ spots. length spots.items ≡ length points.now) }
    ensures inside { IfOk result (λ spots. AllByRecursion IsInside spots.items) }
{
    let frame = frame_of(points);
    let mut spots = Vec::new(alloc);
    for place in 0..points.len() {
        spots.push(spot(frame, points[place]))?;
    }
    Ok(spots)
}
