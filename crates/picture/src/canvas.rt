//! Where things stand on the canvas, which is 1,000 wide and 1,240 high. Its upper 1,000 are for the cities, and what is below them
//! for the notes and the strip. Places count from its upper left corner.

use crate::tree::Node;

/// The margin around the cities.
pub(crate) const MARGIN: u32 = 20;

/// The side of the square that the cities stand in.
pub(crate) const SIDE: u32 = 960;

/// How low the strip ends.
pub(crate) const FLOOR: u32 = 1220;

/// How high the strip is.
pub(crate) const HEIGHT: u32 = 120;

/// A place on the canvas.
#[derive(Clone, Copy, Debug, PartialEq, Eq, Drop)]
pub struct Spot {
    pub x: u32,
    pub y: u32,
}

/// A bar of the strip: where its upper left corner is, how wide and how high it is, and which nodes it stands for.
#[derive(Clone, Copy, Debug, PartialEq, Eq, Drop)]
pub struct Bar {
    pub x: u32,
    pub y: u32,
    pub width: u32,
    pub height: u32,
    pub node: Node,
}

/// Where the places of the cities come from.
#[derive(Clone, Copy, Debug, PartialEq, Eq, Drop)]
pub enum Layout {
    /// From their coordinates.
    Plane,
    /// There are no coordinates, and the cities stand on a circle.
    Circle,
}
