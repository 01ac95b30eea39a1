//! The greatest bound that a tree bears.
ghost use Rattle.std.specs.Prelude.{◌≡◌, ℕ, ◌+◌, ◌-◌, ◌*◌, ◌^◌, ◌<◌, ◌≤◌, ◌<ℤ◌, ◌≤ℤ◌, pos, neg_ℤ, length};
ghost use Rattle.tspdef.specs.Trees.{IsSoundFor};
ghost use Rattle.tspdef.specs.Bounds as defs;
ghost use Rattle.pricer.specs.Sizes.{IsWithin};
ghost use Rattle.treebook.specs.Tables.{IsTable, tree_of};
ghost use Rattle.treebook.specs.Laws.{ClosesFor, IsGreatestBound};
ghost use Rattle.treebook.specs.Borne.{IsBorneAt};

use crate::laws::tables_are_sound;
use crate::node::State;
use crate::tree::Tree;
use pricer::needed;
use tspdef::bound_is_below;
use tspinst::Instance;

/// How many units one length is.
const SCALE: i128 = 1 << 20;

impl Tree {
    /// The greatest number, at most the length, such that the bound of each closed node exceeds what it needs: no tour that obeys no
    /// open node's path is shorter. It is the length itself where no node is closed. O(n^2) a closed node and O(depth) a node.
    pub fn greatest_bound(&self, instance: &Instance, length: u64) -> u64
        requires cities { self.now.n ≡ instance.now.n }
        requires fixed { self.now.fixed ≡ instance.now.fixed }
        requires sound { IsSoundFor instance.now 0 (tree_of self.now.nodes) }
        ensures { IsGreatestBound instance.now length (tree_of self.now.nodes) result }
    {
        tables_are_sound();
        let _n = self.n();
        let mut most = length;
        for k in 0..self.nodes() {
            most = self.borne_at(instance, k, most);
        }
        most
    }

    /// The greatest number, at most this, whose need the bound of a node exceeds, if the node is closed.
    fn borne_at(&self, instance: &Instance, node: u32, most: u64) -> u64
        requires node { node < length self.now.nodes }
        requires cities { self.now.n ≡ instance.now.n }
        requires fixed { self.now.fixed ≡ instance.now.fixed }
        requires table { IsTable instance.now.n instance.now.fixed self.now.nodes }
        requires closes { ClosesFor instance.now 0 self.now.nodes }
        ensures { IsBorneAt instance.now self.now.nodes most node result }
    {
        bound_is_below();
        match self.state(node) {
            State::Closed(closing) => borne(self.bound_at(instance, node, closing), most),
            _ => most,
        }
    }
}

/// The greatest number, at most this, whose need a bound exceeds.
fn borne(bound: i128, most: u64) -> u64
    requires size { IsWithin (2 ^ 110) bound }
    requires some { defs.needed 0 <ℤ bound }
    ensures below { result ≤ most }
    ensures exceeds { defs.needed result <ℤ bound }
    ensures greatest { (c : ℕ) → c ≤ most → defs.needed c <ℤ bound → c ≤ result }
{
    if bound > needed(most) {
        return most;
    }
    lengths(bound)
}

/// A bound in whole lengths, rounded up.
fn lengths(bound: i128) -> u64
    requires low { defs.needed 0 <ℤ bound }
    requires high { bound ≤ℤ defs.needed (2 ^ 64 - 1) }
    ensures exceeds { defs.needed result <ℤ bound }
    ensures least { bound ≤ℤ defs.needed (result + 1) }
{
    ((bound + (SCALE - 1)) / SCALE) as u64
}
