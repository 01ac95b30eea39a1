//! What is said of a node, as the text of a report.

use crate::{CITIES, Duals, Said, holds};
use std::alloc::Global;
use std::test::Fail;

const MOST_DUAL: u64 = 1 << 62;

/// Whether a text can say it: the rest is no form of a report.
pub(super) fn can_be_said(said: &Said) -> bool {
    match said {
        Said::Edge(u, v) => u < v && *v < CITIES,
        Said::Clique(n, set) => *n == CITIES && *set != 0,
        Said::Closed(duals) => {
            duals.cities == 5 && have_sizes(duals) && is_cut_formed(duals) && do_depths_rise(duals)
        }
    }
}

fn have_sizes(duals: &Duals) -> bool {
    duals
        .city
        .iter()
        .take(5)
        .all(|dual| dual.unsigned_abs() <= MOST_DUAL)
}

fn is_cut_formed(duals: &Duals) -> bool {
    duals.cuts == 0 || (duals.cut_n == CITIES && duals.cut_dual >= 1 && duals.cut_dual <= MOST_DUAL)
}

fn do_depths_rise(duals: &Duals) -> bool {
    let mut last = 0;
    for entry in conds(duals) {
        if entry.0 <= last || entry.1 == 0 || entry.1 > MOST_DUAL {
            return false;
        }
        last = entry.0;
    }
    true
}

fn conds(duals: &Duals) -> &[(u32, u64)] {
    duals.conds.get(..duals.cond_count).unwrap_or(&[])
}

/// The set with these bits: how many cities, and the cities from 1.
fn set_words(alloc: Global, bits: u32) -> Result<String, Fail> {
    let mut cities = String::new(alloc);
    let mut count = 0u32;
    for city in 0..CITIES {
        if holds(bits, city) {
            count = count.saturating_add(1);
            cities.push_str(&format!(in alloc; " {}", city + 1)?)?;
        }
    }
    Ok(format!(in alloc; "{count}{cities}")?)
}

/// The cuts that a closing lists: one that no dual names, if there is to be one, and the same set so often.
fn cut_lines(alloc: Global, duals: &Duals, spare: bool) -> Result<String, Fail> {
    let listed = duals.cuts.saturating_add(usize::from(spare));
    let mut lines = format!(in alloc; "CUTS {listed}\n")?;
    if spare {
        lines.push_str("S 2 1 2\n")?;
    }
    let set = set_words(alloc, duals.cut_set)?;
    for _ in 0..duals.cuts {
        lines.push_str(&format!(in alloc; "S {set}\n")?)?;
    }
    Ok(lines)
}

/// The cities whose duals are not 0, with how many there are.
fn city_lines(alloc: Global, duals: &Duals) -> Result<(u32, String), Fail> {
    let mut lines = String::new(alloc);
    let mut count = 0u32;
    for city in 0..CITIES {
        let dual = duals.city.get(city as usize).copied().unwrap_or(0);
        if dual != 0 {
            count = count.saturating_add(1);
            lines.push_str(&format!(in alloc; "P {} {dual}\n", city + 1)?)?;
        }
    }
    Ok((count, lines))
}

fn cut_dual_lines(alloc: Global, duals: &Duals, spare: bool) -> Result<String, Fail> {
    let mut lines = String::new(alloc);
    let mut number = u32::from(spare);
    for _ in 0..duals.cuts {
        number = number.saturating_add(1);
        lines.push_str(&format!(in alloc; "Y {number} {}\n", duals.cut_dual)?)?;
    }
    Ok(lines)
}

fn depth_lines(alloc: Global, duals: &Duals) -> Result<String, Fail> {
    let mut lines = String::new(alloc);
    for entry in conds(duals) {
        lines.push_str(&format!(in alloc; "Z {} {}\n", entry.0, entry.1)?)?;
    }
    Ok(lines)
}

fn leaf_text(alloc: Global, duals: &Duals, spare: bool) -> Result<String, Fail> {
    let (count, cities) = city_lines(alloc, duals)?;
    let mut text = cut_lines(alloc, duals, spare)?;
    let conds = conds(duals).len();
    text.push_str(&format!(in alloc; "L {count} {} {conds}\n", duals.cuts)?)?;
    text.push_str(&cities)?;
    text.push_str(&cut_dual_lines(alloc, duals, spare)?)?;
    text.push_str(&depth_lines(alloc, duals)?)?;
    Ok(text)
}

/// The text that says it. A closing may list a cut that it does not use.
pub(super) fn report_text(alloc: Global, said: &Said, spare: bool) -> Result<String, Fail> {
    match said {
        Said::Edge(u, v) => {
            let (first, second) = (u.saturating_add(1), v.saturating_add(1));
            Ok(format!(in alloc; "CUTS 0\nE {first} {second}\n")?)
        }
        Said::Clique(_, bits) => {
            let set = set_words(alloc, *bits)?;
            Ok(format!(in alloc; "CUTS 0\nK {set}\n")?)
        }
        Said::Closed(duals) => leaf_text(alloc, duals, spare),
    }
}

/// The text of a tour.
pub(super) fn tour_text(alloc: Global, cities: &[u32]) -> Result<String, Fail> {
    let mut text = String::new(alloc);
    text.push_str("TOUR")?;
    for city in cities {
        text.push_str(&format!(in alloc; " {}", city.saturating_add(1))?)?;
    }
    text.push_str("\n")?;
    Ok(text)
}
