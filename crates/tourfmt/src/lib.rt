//! The text of a tour: [`print`] gives it, in the manner of a TSPLIB TOUR file.
#![tactic(auto)]

ghost use Rattle.std.specs.Prelude.{◌≡◌, ◌+◌, ◌<◌, ◌^◌, ◌++◌, length, flat_map, string_bytes, IfOk};
ghost use Rattle.cyc.specs.Tour.{IsWhole};
ghost use Rattle.tourfmt.specs.Texts.{city_line, head, line, text_of, IsTourText};

use cyc::Tour;
use std::alloc::{AllocError, Global};
use std::fmt::Write;

/// The lines before the cities.
fn head_of(alloc: Global, n: u32) -> Result<String, AllocError>
    ensures { IfOk result (λ text. string_bytes text ≡ head n) }
{
    format!(in alloc; "NAME : tour\nTYPE : TOUR\nDIMENSION : {n}\nTOUR_SECTION\n")
}

/// Adds a city's line.
fn add_city(text: &mut String, city: u32) -> Result<(), AllocError>
    requires { city + 1 < 2 ^ 32 }
    ensures { IfOk result (λ _. string_bytes text.new ≡ string_bytes text.old ++ city_line city) }
{
    let number = city + 1;
    writeln!(text, "{number}")
}

/// The lines of a tour's cities behind those before them.
fn with_cities(alloc: Global, cities: &[u32]) -> Result<String, AllocError>
    requires { IsWhole cities.now }
    ensures { IfOk result (λ text. string_bytes text ≡ head (length cities.now) ++ flat_map city_line cities.now) }
{
    let mut text = head_of(alloc, cities.len() as u32)?;
    for place in 0..cities.len() {
        add_city(&mut text, cities[place])?;
    }
    Ok(text)
}

/// The text of a tour: a head with the number of cities, the cities of its canonical form by their numbers from 1 on, one a
/// line, then `-1` and `EOF`. Each line ends with one LF.
pub fn print(alloc: Global, tour: &Tour) -> Result<String, AllocError>
    ensures { IfOk result (λ text. IsTourText tour.now (string_bytes text)) }
{
    let form = tour.canonical(alloc)?;
    let mut text = with_cities(alloc, form.cities())?;
    text.push_str("-1\nEOF\n")?;
    Ok(text)
}
