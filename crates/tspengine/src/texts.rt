//! The texts that are printed.
ghost use Rattle.std.specs.Prelude.{◌≡◌, ◌++◌, IfOk, OnOk, string_bytes};
ghost use Rattle.tspengine.specs.Texts as texts;
ghost use Rattle.tspengine.specs.Texts.{cities_text};

use std::alloc::{AllocError, Global};

/// What is printed where the words are not of a command's form.
pub(crate) const USAGE: &str = "USAGE tspc solve/verify/tour/bench/replay/bound/checkbound\n";

/// A shortest tour and its length.
fn optimal_text(alloc: Global, length: u64, tour: &[u32]) -> Result<Vec<u8>, AllocError>
    ensures { IfOk result (λ t. t.items ≡ texts.optimal_text length tour.now) }
{
    let mut text = format!(in alloc; "OPTIMAL {length}\nTOUR")?;
    push_cities(alloc, &mut text, tour)?;
    text.push_str("\n")?;
    Ok(text.into_bytes())
}

/// A tour, its length and a bound: where they are equal, a shortest one.
pub(crate) fn closed_text(
    alloc: Global,
    length: u64,
    bound: u64,
    tour: &[u32],
) -> Result<Vec<u8>, AllocError>
    ensures { IfOk result (λ t. t.items ≡ texts.closed_text length bound tour.now) }
{
    if bound == length {
        optimal_text(alloc, length, tour)
    } else {
        within_text(alloc, length, bound, tour)
    }
}

/// A tour, its length, and a bound below it.
fn within_text(alloc: Global, length: u64, bound: u64, tour: &[u32]) -> Result<Vec<u8>, AllocError>
    ensures { IfOk result (λ t. t.items ≡ texts.within_text length bound tour.now) }
{
    let mut text = format!(in alloc; "WITHIN {length} {bound}\nTOUR")?;
    push_cities(alloc, &mut text, tour)?;
    text.push_str("\n")?;
    Ok(text.into_bytes())
}

/// The first refusal of a body, and its line.
pub(crate) fn restart_text(alloc: Global, refusal: u32, line: u64) -> Result<Vec<u8>, AllocError>
    ensures { IfOk result (λ t. t.items ≡ texts.restart_text refusal line) }
{
    Ok(format!(in alloc; "RESTART {refusal} {line}\n")?.into_bytes())
}

/// Each city, from 1, behind a space.
fn push_cities(alloc: Global, text: &mut String, tour: &[u32]) -> Result<(), AllocError>
    ensures { OnOk result (string_bytes text.new ≡ string_bytes text.old ++ cities_text tour.now) }
{
    for city in tour {
        let number = u64::from(*city) + 1;
        text.push_str(&format!(in alloc; " {number}")?)?;
    }
    Ok(())
}

/// The length of a shortest tour alone.
pub(crate) fn length_text(alloc: Global, length: u64) -> Result<Vec<u8>, AllocError>
    ensures { IfOk result (λ t. t.items ≡ texts.length_text length) }
{
    Ok(format!(in alloc; "OPTIMAL {length}\n")?.into_bytes())
}

/// The best length so far, and how many nodes are open.
pub(crate) fn stopped_text(alloc: Global, best: u64, open_nodes: u32) -> Result<Vec<u8>, AllocError>
    ensures { IfOk result (λ t. t.items ≡ texts.stopped_text best open_nodes) }
{
    Ok(format!(in alloc; "STOPPED {best} {open_nodes}\n")?.into_bytes())
}
