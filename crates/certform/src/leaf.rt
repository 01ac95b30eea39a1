//! A closed leaf.
ghost use Rattle.std.specs.Prelude.{◌≡◌, ◌++◌, length, map, IfOk, OnOk};
ghost use Rattle.tspdef.specs.Closings.{AreRisingCuts};
ghost use Rattle.certdef.specs.Proofs.{tree_items, closed_leaf, city_item, cut_item, condition_item};
ghost use Rattle.certform.specs.Written.{written_cities, written_cuts, written_leaf};
ghost use Rattle.certform.specs.Lines.{said};
ghost use Rattle.certform.specs.Listing.{AreListed};

use crate::cuts::number_in;
use crate::lines::{put_city, put_condition, put_cut, put_leaf};
use cutform::Cut;
use indexmap::IndexSet;
use pricer::Closing;
use std::alloc::{AllocError, Global};

/// Puts the lines of a closed leaf.
pub fn put_closing(
    alloc: Global,
    out: &mut Vec<u8>,
    cuts: &IndexSet<&Cut>,
    closing: &Closing,
) -> Result<(), AllocError>
    requires listed { AreListed (map (λ c. c.now) cuts.now.keys) closing.now.cuts }
    requires rising { AreRisingCuts closing.now.cuts }
    ensures { OnOk result (out.new.items ≡ out.old.items
        ++ said (tree_items (closed_leaf (written_leaf (map (λ c. c.now) cuts.now.keys) closing.now)))) }
{
    let numbers = numbers_of(alloc, cuts, closing.cuts())?;
    put_leaf(
        out,
        count(closing.city()),
        numbers.len(),
        closing.conds().len(),
    )?;
    put_city_duals(out, closing.city())?;
    put_cut_duals(out, &numbers)?;
    put_condition_duals(out, closing.conds())
}

/// How many of the duals are not 0.
fn count(duals: &[i64]) -> usize
    ensures { result ≡ length (written_cities 1 duals.now) }
{
    let mut count = 0;
    for dual in duals {
        if *dual != 0 {
            count += 1;
        }
    }
    count
}

/// Puts a line for each city whose dual is not 0.
fn put_city_duals(out: &mut Vec<u8>, duals: &[i64]) -> Result<(), AllocError>
    ensures { OnOk result (out.new.items ≡ out.old.items ++ said (map city_item (written_cities 1 duals.now))) }
{
    for (place, dual) in duals.iter().enumerate() {
        if *dual != 0 {
            put_city(out, place as u64 + 1, *dual)?;
        }
    }
    Ok(())
}

/// The numbers of cuts with their duals, by rising numbers.
fn numbers_of(
    alloc: Global,
    cuts: &IndexSet<&Cut>,
    duals: &[(Cut, u64)],
) -> Result<Vec<(u64, u64)>, AllocError>
    requires listed { AreListed (map (λ c. c.now) cuts.now.keys) duals.now }
    requires rising { AreRisingCuts duals.now }
    ensures { IfOk result (λ v. v.items ≡ written_cuts (map (λ c. c.now) cuts.now.keys) duals.now) }
{
    let mut numbers = Vec::with_capacity(alloc, duals.len())?;
    for (cut, dual) in duals {
        numbers.push((number_in(cuts, cut), *dual))?;
    }
    numbers.sort_unstable_by_key(|q| q.0);
    Ok(numbers)
}

/// Puts a line for each numbered cut.
fn put_cut_duals(out: &mut Vec<u8>, duals: &[(u64, u64)]) -> Result<(), AllocError>
    ensures { OnOk result (out.new.items ≡ out.old.items ++ said (map cut_item duals.now)) }
{
    for (number, dual) in duals {
        put_cut(out, *number, *dual)?;
    }
    Ok(())
}

/// Puts a line for each depth.
fn put_condition_duals(out: &mut Vec<u8>, duals: &[(u32, u64)]) -> Result<(), AllocError>
    ensures { OnOk result (out.new.items ≡ out.old.items ++ said (map condition_item duals.now)) }
{
    for (depth, dual) in duals {
        put_condition(out, *depth, *dual)?;
    }
    Ok(())
}
