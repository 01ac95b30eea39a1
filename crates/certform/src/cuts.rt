//! Each distinct cut of a tree, numbered in order of first use.
ghost use Rattle.std.specs.Prelude.{◌≡◌, ◌++◌, ◌<◌, length, map, IfOk, OnOk};
ghost use Rattle.std.specs.List.{flat_map, AllByRecursion};
ghost use Rattle.certdef.specs.Items.{tooth_line};
ghost use Rattle.certdef.specs.Proofs.{pair_item};
ghost use Rattle.cutform.specs.Cut.{cities_of_each};
ghost use Rattle.certform.specs.Written.{from_one, pair_from_one, with_cuts, number_of};
ghost use Rattle.certform.specs.Lines.{said, cut_items};
ghost use Rattle.certform.specs.Walks.{node_cuts};

use crate::lines::{put_comb, put_handle, put_odd, put_pair, put_subtour, put_tooth};
use cutform::{Cut, Kind};
use cyc::CitySet;
use indexmap::IndexSet;
use std::alloc::{AllocError, Global};
use treebook::{State, Tree};

/// The distinct cuts of nodes, in order of first use.
pub fn cuts_of<'a>(
    alloc: Global,
    tree: &'a Tree,
    order: &[u32],
) -> Result<IndexSet<&'a Cut>, AllocError>
    requires { AllByRecursion (λ k. k < length tree.now.nodes) order.now }
    ensures { IfOk result (λ cuts. map (λ c. c.now) cuts.keys ≡ node_cuts tree.now.nodes order.now) }
{
    let mut cuts = IndexSet::new(alloc);
    for k in order {
        if let State::Closed(closing) = tree.state(*k) {
            add_cuts(&mut cuts, closing.cuts())?;
        }
    }
    Ok(cuts)
}

/// Adds cuts, each where it is not there yet.
fn add_cuts<'a>(cuts: &mut IndexSet<&'a Cut>, more: &'a [(Cut, u64)]) -> Result<(), AllocError>
    ensures { OnOk result (map (λ c. c.now) cuts.new.keys ≡ with_cuts (map (λ c. c.now) cuts.old.keys) more.now) }
{
    for (cut, _) in more {
        cuts.insert(cut)?;
    }
    Ok(())
}

/// The number of a cut, from 1.
pub fn number_in(cuts: &IndexSet<&Cut>, cut: &Cut) -> u64
    ensures { result ≡ number_of (map (λ c. c.now) cuts.now.keys) cut.now }
{
    let len = cuts.len() as u64;
    match cuts.get_index_of(&cut) {
        Some(index) => index as u64 + 1,
        None => len + 1,
    }
}

/// Lists cuts.
pub fn put_cuts(out: &mut Vec<u8>, cuts: &IndexSet<&Cut>) -> Result<(), AllocError>
    ensures { OnOk result (out.new.items ≡ out.old.items ++ said (flat_map cut_items (map (λ c. c.now) cuts.now.keys))) }
{
    for cut in cuts.as_slice() {
        put_listed(out, cut)?;
    }
    Ok(())
}

/// Lists a cut.
fn put_listed(out: &mut Vec<u8>, cut: &Cut) -> Result<(), AllocError>
    ensures { OnOk result (out.new.items ≡ out.old.items ++ said (cut_items cut.now)) }
{
    let sets = cut.sets();
    match cut.kind() {
        Kind::Subtour => put_subtour(out, sets[0].cities()),
        Kind::Comb => {
            put_comb(out, sets.len() - 1)?;
            put_handle(out, sets[0].cities())?;
            put_teeth(out, &sets[1..])
        }
        Kind::Odd => {
            let pairs = cut.pairs();
            put_odd(out, pairs.len())?;
            put_handle(out, sets[0].cities())?;
            put_pairs(out, pairs)
        }
    }
}

fn put_pairs(out: &mut Vec<u8>, pairs: &[(u32, u32)]) -> Result<(), AllocError>
    ensures { OnOk result (out.new.items ≡ out.old.items ++ said (map pair_item (map pair_from_one pairs.now))) }
{
    for (u, v) in pairs {
        put_pair(out, *u, *v)?;
    }
    Ok(())
}

fn put_teeth(out: &mut Vec<u8>, teeth: &[CitySet]) -> Result<(), AllocError>
    ensures { OnOk result (out.new.items ≡ out.old.items ++ said (map tooth_line (map from_one (cities_of_each teeth.now)))) }
{
    for tooth in teeth {
        put_tooth(out, tooth.cities())?;
    }
    Ok(())
}
