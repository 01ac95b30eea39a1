//! The text of a drawing.
ghost use Rattle.std.specs.Prelude.{◌≡◌, ◌<◌, ◌^◌, ◌++◌, length, All, IfOk, OnOk, string_bytes};
ghost use Rattle.picture.specs.Texts as texts;
ghost use Rattle.picture.specs.Scenes.{scene_of, IsDrawable};

use crate::canvas::{Bar, Layout, Spot};
use crate::marks::{add_bar, add_census, add_corner, add_dot, add_layout, add_line, add_size};
use crate::tree::Census;
use std::alloc::{AllocError, Global};

/// What is drawn. Cities count from 0.
#[derive(Clone, Copy, Drop)]
pub struct Drawing<'a> {
    /// Where the places come from.
    pub layout: Layout,
    /// The place of each city.
    pub spots: &'a [Spot],
    /// The cities in the order of the tour.
    pub tour: &'a [u32],
    pub fixed: &'a [(u32, u32)],
    /// The length of the tour.
    pub length: u64,
    /// How many nodes the tree has.
    pub census: Census,
    /// The strip of the tree.
    pub bars: &'a [Bar],
}

/// Adds the tour.
#[tactic(auto, unfolding(crate::specs::Texts::tour_text))]
fn add_tour(text: &mut String, spots: &[Spot], tour: &[u32]) -> Result<(), AllocError>
    requires { All (λ city. city < length spots.now) tour.now }
    ensures { OnOk result (string_bytes text.new ≡ string_bytes text.old ++ texts.tour_text spots.now tour.now) }
{
    text.push_str("<polygon fill='none' stroke='#4477aa' stroke-width='2' points='")?;
    for place in 0..tour.len() {
        add_corner(text, spots[tour[place] as usize])?;
    }
    text.push_str("'/>\n")
}

/// Adds the fixed pairs.
#[tactic(auto, unfolding(crate::specs::Texts::fixed_text))]
fn add_fixed(text: &mut String, spots: &[Spot], fixed: &[(u32, u32)]) -> Result<(), AllocError>
    requires { All (λ p. (p.0 < length spots.now) × (p.1 < length spots.now)) fixed.now }
    ensures { OnOk result (string_bytes text.new ≡ string_bytes text.old ++ texts.fixed_text spots.now fixed.now) }
{
    text.push_str("<g stroke='#cc3311' stroke-width='5'>\n")?;
    for place in 0..fixed.len() {
        let (u, v) = fixed[place];
        add_line(text, spots[u as usize], spots[v as usize])?;
    }
    text.push_str("</g>\n")
}

/// How large the dots of so many cities are.
fn radius(n: usize) -> u32
    ensures { result ≡ texts.radius_of n }
{
    if n < 300 {
        5
    } else if n < 1000 {
        3
    } else {
        2
    }
}

/// Adds the cities.
#[tactic(auto, unfolding(crate::specs::Texts::cities_text))]
fn add_cities(text: &mut String, spots: &[Spot], tour: &[u32]) -> Result<(), AllocError>
    requires placed { All (λ city. city < length spots.now) tour.now }
    requires few { length spots.now < 2 ^ 32 }
    ensures { OnOk result (string_bytes text.new ≡ string_bytes text.old ++ texts.cities_text spots.now tour.now) }
{
    text.push_str("<g fill='#222222'>\n")?;
    let radius = radius(tour.len());
    for place in 0..tour.len() {
        let city = tour[place];
        add_dot(text, radius, city, spots[city as usize])?;
    }
    text.push_str("</g>\n")
}

/// Adds the notes.
#[tactic(auto, unfolding(crate::specs::Texts::notes_text))]
fn add_notes(text: &mut String, drawing: &Drawing<'_>) -> Result<(), AllocError>
    ensures { OnOk result (string_bytes text.new ≡ string_bytes text.old ++ texts.notes_text (scene_of drawing.now)) }
{
    text.push_str("<g font-family='sans-serif' font-size='20'>\n")?;
    add_size(text, drawing.tour.len() as u64, drawing.length)?;
    add_layout(text, drawing.layout)?;
    add_census(text, drawing.census)?;
    text.push_str("</g>\n")
}

/// Adds the strip.
#[tactic(auto, unfolding(crate::specs::Texts::strip_text))]
fn add_strip(text: &mut String, bars: &[Bar]) -> Result<(), AllocError>
    ensures { OnOk result (string_bytes text.new ≡ string_bytes text.old ++ texts.strip_text bars.now) }
{
    for place in 0..bars.len() {
        add_bar(text, bars[place])?;
    }
    Ok(())
}

/// The picture of a drawing, as the text of an SVG file.
#[tactic(auto, unfolding(crate::specs::Texts::picture_text))]
pub fn draw(alloc: Global, drawing: &Drawing<'_>) -> Result<String, AllocError>
    requires { IsDrawable (scene_of drawing.now) }
    ensures { IfOk result (λ text. string_bytes text ≡ texts.picture_text (scene_of drawing.now)) }
{
    let mut text = String::new(alloc);
    text.push_str(
        "<svg xmlns='http://www.w3.org/2000/svg' viewBox='0 0 1000 1240'>\n<rect width='1000' height='1240' fill='#ffffff'/>\n",
    )?;
    add_tour(&mut text, drawing.spots, drawing.tour)?;
    add_fixed(&mut text, drawing.spots, drawing.fixed)?;
    add_cities(&mut text, drawing.spots, drawing.tour)?;
    add_notes(&mut text, drawing)?;
    add_strip(&mut text, drawing.bars)?;
    text.push_str("</svg>\n")?;
    Ok(text)
}
