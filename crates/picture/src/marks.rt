//! The marks of a drawing, each as one line of SVG or a part of one.
ghost use Rattle.std.specs.Prelude.{◌≡◌, ◌+◌, ◌<◌, ◌^◌, ◌++◌, OnOk, string_bytes};
ghost use Rattle.picture.specs.Texts as texts;

use crate::canvas::{Bar, Layout, Spot};
use crate::tree::{Census, Node};
use std::alloc::AllocError;
use std::fmt::Write;

/// Adds a corner of the tour.
#[tactic(auto, unfolding(crate::specs::Texts::corner_text))]
pub(crate) fn add_corner(text: &mut String, spot: Spot) -> Result<(), AllocError>
    ensures { OnOk result (string_bytes text.new ≡ string_bytes text.old ++ texts.corner_text spot) }
{
    let Spot { x, y } = spot;
    write!(text, "{x},{y} ")
}

/// Adds a line between two places.
#[tactic(auto, unfolding(crate::specs::Texts::line_text))]
pub(crate) fn add_line(text: &mut String, a: Spot, b: Spot) -> Result<(), AllocError>
    ensures { OnOk result (string_bytes text.new ≡ string_bytes text.old ++ texts.line_text a b) }
{
    let (x1, y1, x2, y2) = (a.x, a.y, b.x, b.y);
    writeln!(text, "<line x1='{x1}' y1='{y1}' x2='{x2}' y2='{y2}'/>")
}

/// Adds the dot of a city.
#[tactic(auto, unfolding(crate::specs::Texts::dot_text))]
pub(crate) fn add_dot(
    text: &mut String,
    radius: u32,
    city: u32,
    spot: Spot,
) -> Result<(), AllocError>
    requires { city + 1 < 2 ^ 32 }
    ensures { OnOk result (string_bytes text.new ≡ string_bytes text.old ++ texts.dot_text radius city spot) }
{
    let Spot { x, y } = spot;
    let number = city + 1;
    writeln!(
        text,
        "<circle cx='{x}' cy='{y}' r='{radius}'><title>{number}</title></circle>"
    )
}

/// The colour of a kind of nodes.
#[tactic(auto, unfolding(crate::specs::Texts::colour))]
fn colour(node: Node) -> &'static str
    ensures { result.now ≡ texts.colour node }
{
    match node {
        Node::Open => "#ee7733",
        Node::Closed => "#228833",
        Node::Split => "#bbbbbb",
    }
}

/// Adds a bar of the strip.
#[tactic(auto, unfolding(crate::specs::Texts::bar_text))]
pub(crate) fn add_bar(text: &mut String, bar: Bar) -> Result<(), AllocError>
    ensures { OnOk result (string_bytes text.new ≡ string_bytes text.old ++ texts.bar_text bar) }
{
    let Bar {
        x,
        y,
        width,
        height,
        node,
    } = bar;
    let fill = colour(node);
    writeln!(
        text,
        "<rect x='{x}' y='{y}' width='{width}' height='{height}' fill='{fill}'/>"
    )
}

/// Adds the note on the cities and the tour.
#[tactic(auto, unfolding(crate::specs::Texts::size_text))]
pub(crate) fn add_size(text: &mut String, n: u64, length: u64) -> Result<(), AllocError>
    ensures { OnOk result (string_bytes text.new ≡ string_bytes text.old ++ texts.size_text n length) }
{
    writeln!(
        text,
        "<text x='20' y='1020'>{n} cities, a tour of length {length}</text>"
    )
}

/// Adds the note on where the cities stand.
#[tactic(auto, unfolding(crate::specs::Texts::layout_text))]
pub(crate) fn add_layout(text: &mut String, layout: Layout) -> Result<(), AllocError>
    ensures { OnOk result (string_bytes text.new ≡ string_bytes text.old ++ texts.layout_text layout) }
{
    match layout {
        Layout::Plane => text.push_str(
            "<text x='20' y='1045'>drawn by their coordinates; fixed pairs are red</text>\n",
        ),
        Layout::Circle => text.push_str(
            "<text x='20' y='1045'>no coordinates: drawn on a circle, by their numbers; fixed pairs are red</text>\n",
        ),
    }
}

/// Adds the note on the tree.
#[tactic(auto, unfolding(crate::specs::Texts::census_text))]
pub(crate) fn add_census(text: &mut String, census: Census) -> Result<(), AllocError>
    ensures { OnOk result (string_bytes text.new ≡ string_bytes text.old ++ texts.census_text census) }
{
    let Census {
        open,
        closed,
        split,
    } = census;
    writeln!(
        text,
        "<text x='20' y='1080'>the tree by depth: {split} split (grey), {closed} closed (green), {open} open (orange)</text>"
    )
}
