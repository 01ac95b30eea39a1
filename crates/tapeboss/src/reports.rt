//! Reports out of their texts.
ghost use Rattle.std.specs.Prelude.{◌≡◌, ℕ, ◌≤◌, List, map, length, IfOk, IfSome};
ghost use Rattle.std.specs.Option.{option_map};
ghost use Rattle.std.specs.List.{AllByRecursion};
ghost use Rattle.tspdef.specs.Closings as closings;
ghost use Rattle.tspdef.specs.Cuts.{IsCut};
ghost use Rattle.pricer.specs.declared.closing.Report.{Report};
ghost use Rattle.certdef.specs.Accepted as accepted;
ghost use Rattle.certtests.specs.Listed.{listed};
ghost use Rattle.tapeboss.specs.Messages as defs;

use crate::closings::closing_of;
use crate::content::{read_cities, read_condition_duals, read_cut_duals};
use crate::cuts::read_cuts;
use crate::lines::Lines;
use branchx::Branch;
use certline::Item;
use certtests::city_set;
use cutform::Cut;
use pricer::{Closing, Report};
use std::alloc::{AllocError, Global};

/// The report that a text for n cities says; none where it is not of the form, or lists what is no cut. O(1) for each byte, beside what the
/// cuts cost, and O(n) for a closed leaf.
pub(crate) fn read_report(alloc: Global, n: u32, text: &[u8]) -> Result<Option<Report>, AllocError>
    requires many { 3 ≤ n }
    requires few { n ≤ 2000 }
    ensures { IfOk result (λ o. o ≡ defs.report_in n text.now) }
{
    let mut lines = Lines::new(n, text);
    let Some(count) = lines.count(alloc)? else {
        return Ok(None);
    };
    let Some(cuts) = read_cuts(alloc, &mut lines, count)? else {
        return Ok(None);
    };
    let Some(report) = read_content(alloc, &mut lines, &cuts)? else {
        return Ok(None);
    };
    if !lines.are_over() {
        return Ok(None);
    }
    Ok(Some(report))
}

/// The closed leaf or the split that comes next.
fn read_content(
    alloc: Global,
    lines: &mut Lines<'_>,
    cuts: &[Cut],
) -> Result<Option<Report>, AllocError>
    requires many { 3 ≤ lines.old.n }
    requires few { lines.old.n ≤ 2000 }
    requires cuts { AllByRecursion (IsCut lines.old.n) cuts.now }
    ensures value { IfOk result (λ o. option_map (λ r. (r, lines.new.rest.now)) o
        ≡ option_map {U = Report × List ℕ} (λ q. (defs.report_by lines.old.n (map listed cuts.now) q.0, q.1)) (defs.content_in lines.old.n (length cuts.now) lines.old.rest.now)) }
{
    match lines.next(alloc)? {
        Some(Item::Leaf(cities, named, conditions)) => {
            match read_closing(alloc, lines, cuts, cities, named, conditions)? {
                Some(closing) => Ok(Some(Report::Closed(closing))),
                None => Ok(None),
            }
        }
        Some(Item::Edge(u, v)) if cuts.is_empty() => {
            Ok(Some(Report::Split(Branch::Edge(u - 1, v - 1))))
        }
        Some(Item::Clique(set)) if cuts.is_empty() => {
            let set = city_set(alloc, lines.n, set)?;
            Ok(Some(Report::Split(Branch::Clique(set))))
        }
        _ => Ok(None),
    }
}

/// The closing of so many duals that come next.
fn read_closing(
    alloc: Global,
    lines: &mut Lines<'_>,
    cuts: &[Cut],
    cities: u32,
    named: u32,
    conditions: u32,
) -> Result<Option<Closing>, AllocError>
    ensures value { IfOk result (λ o. option_map (λ c. (c, lines.new.rest.now)) o
        ≡ option_map {U = closings.Closing × List ℕ} (λ q. (accepted.closing_of lines.old.n cuts.now q.0, q.1)) (defs.duals_in lines.old.n (length cuts.now) cities named conditions lines.old.rest.now)) }
    ensures same { lines.new.n ≡ lines.old.n }
{
    let Some(city) = read_cities(alloc, lines, cities)? else {
        return Ok(None);
    };
    let Some(cut) = read_cut_duals(alloc, lines, cuts.len(), named)? else {
        return Ok(None);
    };
    let Some(cond) = read_condition_duals(alloc, lines, conditions)? else {
        return Ok(None);
    };
    Ok(Some(closing_of(alloc, lines.n, cuts, &city, &cut, &cond)?))
}
