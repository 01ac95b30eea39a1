//! A picture of a tour, as the text of an SVG file: its cities, its way, the fixed pairs in another colour, and the nodes of a tree as
//! a strip below. All numbers are whole, so equal values give equal bytes on every machine.
//!
//! - [`on_plane`] puts points on the canvas, and [`on_circle`] puts cities there where they have no points.
//! - [`depths`] says how deep the nodes of a tree lie, [`take_census`] how many there are of each kind, and [`bars`] makes the strip.
//! - [`draw`] gives the text of a [`Drawing`].
#![tactic(auto)]

mod canvas;
mod circle;
mod marks;
mod scale;
mod strip;
mod text;
mod tree;

pub use canvas::{Bar, Layout, Spot};
pub use circle::on_circle;
pub use scale::on_plane;
pub use strip::bars;
pub use text::{Drawing, draw};
pub use tree::{Census, Node, depths, take_census};
