//! The bytes of a proof.
ghost use Rattle.std.specs.Prelude.{◌≡◌, ◌≤◌, ◌++◌, [], ◌∷◌, length, map, IfOk, OnOk};
ghost use Rattle.tspdef.specs.Instances.{length_in};
ghost use Rattle.treebook.specs.Tables.{state_at, tree_of};
ghost use Rattle.certdef.specs.Items.{title_line, size_line, length_line, bound_line, tour_line};
ghost use Rattle.certdef.specs.Proofs.{head_items};
ghost use Rattle.certform.specs.Written.{from_one, told, IsBody};
ghost use Rattle.certform.specs.Lines.{said};
ghost use Rattle.certform.specs.Listing.{IsReady, AreReady};
ghost use Rattle.certform.specs.Walks.{state_items, node_items};

use crate::cuts::{cuts_of, put_cuts};
use crate::leaf::put_closing;
use crate::lines::{
    put_bound, put_clique, put_count, put_edge, put_length, put_open, put_size, put_title, put_tour,
};
use crate::preorder::preorder;
use branchx::Branch;
use cutform::Cut;
use cyc::Tour;
use indexmap::IndexSet;
use std::alloc::{AllocError, Global};
use treebook::{State, Tree};
use tspinst::Instance;

/// The bytes of the proof of a tour, a tree and a bound: the tour in its canonical form with its length, the bound where it is below
/// the length (a text of the second version), each distinct cut that a closed leaf names, in order of first use, and the tree in
/// preorder. A tree with an open leaf has a body too: it is what a search goes on from.
///
/// Two passes go over the nodes in preorder: the first numbers the cuts, the second writes the lines. O(size of the text) and
/// O(nodes), and a sort in each leaf.
pub fn body(
    alloc: Global,
    instance: &Instance,
    tour: &Tour,
    tree: &Tree,
    bound: u64,
) -> Result<Vec<u8>, AllocError>
    requires cities { length tour.now ≡ instance.now.n }
    requires nodes { tree.now.n ≡ instance.now.n }
    requires few { length tree.now.nodes ≤ 1048576 }
    ensures { IfOk result (λ b. IsBody instance.now tour.now bound (tree_of tree.now.nodes) b.items) }
{
    let order = preorder(alloc, tree)?;
    let cuts = cuts_of(alloc, tree, &order)?;
    let form = tour.canonical(alloc)?;
    let mut out = Vec::new(alloc);
    put_head(&mut out, instance, &form, bound)?;
    put_count(&mut out, cuts.len())?;
    put_cuts(&mut out, &cuts)?;
    put_nodes(alloc, &mut out, &cuts, tree, &order)?;
    Ok(out)
}

/// Puts the lines in front of the cuts.
fn put_head(
    out: &mut Vec<u8>,
    instance: &Instance,
    form: &Tour,
    bound: u64,
) -> Result<(), AllocError>
    requires { length form.now ≡ instance.now.n }
    ensures { OnOk result (out.new.items ≡ out.old.items
        ++ said (head_items instance.now.n (length_in instance.now form.now) (told (length_in instance.now form.now) bound) ++ tour_line (from_one form.now) ∷ [])) }
{
    put_numbers(out, instance.n(), instance.length(form), bound)?;
    put_tour(out, form.cities())
}

/// Puts the lines in front of the tour: those of the second version where the bound is below the length.
fn put_numbers(out: &mut Vec<u8>, n: u32, length: u64, bound: u64) -> Result<(), AllocError>
    ensures { OnOk result (out.new.items ≡ out.old.items ++ said (head_items n length (told length bound))) }
{
    if bound < length {
        put_told(out, n, length, bound)
    } else {
        put_untold(out, n, length)
    }
}

fn put_told(out: &mut Vec<u8>, n: u32, length: u64, bound: u64) -> Result<(), AllocError>
    ensures { OnOk result (out.new.items ≡ out.old.items ++ said (title_line 2 ∷ size_line n ∷ length_line length ∷ bound_line bound ∷ [])) }
{
    put_title(out, 2)?;
    put_size(out, n)?;
    put_length(out, length)?;
    put_bound(out, bound)
}

fn put_untold(out: &mut Vec<u8>, n: u32, length: u64) -> Result<(), AllocError>
    ensures { OnOk result (out.new.items ≡ out.old.items ++ said (title_line 1 ∷ size_line n ∷ length_line length ∷ [])) }
{
    put_title(out, 1)?;
    put_size(out, n)?;
    put_length(out, length)
}

/// Puts the lines of nodes.
fn put_nodes(
    alloc: Global,
    out: &mut Vec<u8>,
    cuts: &IndexSet<&Cut>,
    tree: &Tree,
    order: &[u32],
) -> Result<(), AllocError>
    requires { AreReady (map (λ c. c.now) cuts.now.keys) tree.now.nodes order.now }
    ensures { OnOk result (out.new.items ≡ out.old.items
        ++ said (node_items (map (λ c. c.now) cuts.now.keys) tree.now.nodes order.now)) }
{
    for k in order {
        put_node(alloc, out, cuts, tree, *k)?;
    }
    Ok(())
}

/// Puts the lines of a node, without those of the nodes below it.
fn put_node(
    alloc: Global,
    out: &mut Vec<u8>,
    cuts: &IndexSet<&Cut>,
    tree: &Tree,
    node: u32,
) -> Result<(), AllocError>
    requires { IsReady (map (λ c. c.now) cuts.now.keys) tree.now.nodes node }
    ensures { OnOk result (out.new.items ≡ out.old.items
        ++ said (state_items (map (λ c. c.now) cuts.now.keys) (state_at tree.now.nodes node))) }
{
    let _n = tree.n();
    match tree.state(node) {
        State::Open => put_open(out),
        State::Closed(closing) => put_closing(alloc, out, cuts, closing),
        State::Split(Branch::Edge(u, v), _) => put_edge(out, *u, *v),
        State::Split(Branch::Clique(set), _) => put_clique(out, set.cities()),
    }
}
