//! What a proof or a restart body says, as it is drawn.
ghost use Rattle.std.specs.Prelude.{◌≡◌, ◌≤◌, ◌&&◌, ◌∷◌, not, nat_le, length, map, IfOk, IfErr};
ghost use Rattle.verdict.specs.Parts.{the_tour};
ghost use Rattle.certcheck.specs.Parts as kept;
ghost use Rattle.viewing.specs.Saying.{IsSaid, IsRefusal, BeginsWithTour, node_of};

use certcheck::{Part, Trouble, read_body};
use cyc::Tour;
use picture::Node;
use std::alloc::{AllocError, Global};
use std::collections::VecDeque;
use tspinst::Instance;
use verdict::yes_is_body_text;

/// The most parts of a text that is drawn: the tour, and 1,048,576 nodes.
const MOST: usize = 1_048_577;

/// The refusal of a text that is a proof or a body, and has more nodes than are drawn.
const TOO_MANY: u32 = 12;

/// The tour of a text, its length, and the nodes of the tree in preorder.
#[derive(Drop)]
pub(crate) struct Said {
    pub length: u64,
    pub tour: Tour,
    pub nodes: Vec<Node>,
}

/// Which node a part is.
fn node(part: &Part) -> Node
    ensures { result ≡ node_of (kept.part_of part.now) }
{
    match part {
        Part::Tour(_) => Node::Open,
        Part::Open => Node::Open,
        Part::Closed(_) => Node::Closed,
        Part::Edge(_, _) => Node::Split,
        Part::Clique(_) => Node::Split,
    }
}

/// The nodes that the parts behind the tour are.
fn nodes(alloc: Global, mut parts: VecDeque<Part>) -> Result<Vec<Node>, AllocError>
    ensures { IfOk result (λ nodes. nodes.items ≡ map node_of (kept.parts_of parts.items)) }
{
    let mut nodes = Vec::new(alloc);
    while let Some(part) = parts.pop_front() {
        nodes.push(node(&part))?;
    }
    Ok(nodes)
}

/// Whether all parts are there, and they are not too many.
fn are_few(parts: &VecDeque<Part>, full: bool) -> bool
    ensures { result ≡ (not full && nat_le (length parts.now.items) 1048577) }
{
    !full && parts.len() <= MOST
}

/// Takes the tour, which is the first part.
fn take_tour(parts: &mut VecDeque<Part>) -> Tour
    requires { BeginsWithTour (kept.parts_of parts.old.items) }
    ensures { kept.parts_of parts.old.items ≡ the_tour result ∷ kept.parts_of parts.new.items }
{
    match parts.pop_front() {
        Some(Part::Tour(tour)) => tour,
        _ => unreachable!(),
    }
}

/// Reads a proof or a restart body by the tests of a resumer, which prices each closed leaf, or tells its first refusal: that of the
/// verdict on it, or 12 at line 0 where it has too many nodes.
pub(crate) fn read_said(alloc: Global, instance: &Instance, bytes: &[u8]) -> Result<Said, Trouble>
    ensures said { IfOk result (λ s. IsSaid instance.now bytes.now s.length s.tour s.nodes.items) }
    ensures refused { IfErr result (λ e. IsRefusal instance.now e bytes.now) }
{
    yes_is_body_text();
    let _few = instance.n();
    let said = match read_body(alloc, instance, bytes) {
        Ok(said) => said,
        Err(trouble) => return Err(trouble),
    };
    if !are_few(&said.parts, said.full) {
        return Err(Trouble::Refused(TOO_MANY, 0));
    }
    let mut parts = said.parts;
    let tour = take_tour(&mut parts);
    let nodes = nodes(alloc, parts)?;
    Ok(Said {
        length: said.length,
        tour,
        nodes,
    })
}
