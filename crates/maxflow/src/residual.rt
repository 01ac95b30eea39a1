//! The room that a flow leaves on edges: the residual network.
ghost use Rattle.std.specs.Prelude.{◌≡◌, ◌≢◌, ◌+◌, ◌<◌, ◌≤◌, ◌^◌, ℕ, Bool, true, false, length, cond, slice_index, IfOk};
ghost use Rattle.std.specs.List.{All};

use crate::search::Search;
use cyc::Entry;
use std::alloc::{AllocError, Global};

/// An edge: how much more it may carry from `u` to `v`, and from `v` to `u`.
#[derive(Clone, Copy)]
pub struct Edge {
    pub u: u32,
    pub v: u32,
    pub ahead: u32,
    pub back: u32,
    ghost whole: { ahead + back < 4294967296 },
}

impl Edge {
    /// Sends `amount` from `u` to `v`.
    #[inline]
    fn send_ahead(self, amount: u32) -> Edge
        requires { amount ≤ self.ahead }
        ensures ends { (result.u ≡ self.u) × (result.v ≡ self.v) }
        ensures ahead { result.ahead + amount ≡ self.ahead }
        ensures back { result.back ≡ self.back + amount }
    {
        Edge {
            u: self.u,
            v: self.v,
            ahead: self.ahead - amount,
            back: self.back + amount,
        }
    }

    /// Sends `amount` from `v` to `u`.
    #[inline]
    fn send_back(self, amount: u32) -> Edge
        requires { amount ≤ self.back }
        ensures ends { (result.u ≡ self.u) × (result.v ≡ self.v) }
        ensures ahead { result.ahead ≡ self.ahead + amount }
        ensures back { result.back + amount ≡ self.back }
    {
        Edge {
            u: self.u,
            v: self.v,
            ahead: self.ahead + amount,
            back: self.back - amount,
        }
    }
}

/// Edges among the cities below `n`.
#[derive(Drop)]
pub struct Residual {
    pub n: u32,
    pub edges: Vec<Edge>,
    ghost few: { n ≤ 2000 },
    ghost within: { All (λ e. (e.u < n) × (e.v < n)) edges.items },
}

impl Residual {
    ghost use Rattle.maxflow.specs.Crossings.{crossing, IsPair};
    ghost use Rattle.maxflow.specs.Edges.{edge_at, room, Leads, LeadsTo};
    ghost use Rattle.maxflow.specs.Searches.{IsTree};

    /// The edges of some pairs, over which nothing goes yet.
    pub fn of(alloc: Global, n: u32, pairs: &[Entry]) -> Result<Residual, AllocError>
        requires few { n ≤ 2000 }
        requires within { All (IsPair n) pairs.now }
        ensures size { IfOk result (λ r. r.n ≡ n) }
        ensures whole { IfOk result (λ r. (p : ℕ → Bool) → room r.edges.items p ≡ crossing pairs.now p) }
    {
        let mut edges = Vec::new(alloc);
        for pair in pairs {
            edges.push(Edge {
                u: pair.u,
                v: pair.v,
                ahead: pair.x,
                back: pair.x,
            })?;
        }
        Ok(Residual { n, edges })
    }

    /// The edge at a place.
    #[inline]
    pub fn at(&self, place: usize) -> Edge
        requires { place < length self.now.edges.items }
        ensures value { result ≡ edge_at self.now.edges.items place }
        ensures first { result.u < self.now.n }
        ensures second { result.v < self.now.n }
    {
        self.edges[place]
    }

    /// Sends `amount` over the edge at `place` to its end `to`; where from.
    fn send_over(&mut self, place: usize, to: u32, amount: u32) -> u32
        requires inside { place < length self.old.edges.items }
        requires leads { LeadsTo (edge_at self.old.edges.items place) to amount }
        ensures size { (self.new.n ≡ self.old.n) × (length self.new.edges.items ≡ length self.old.edges.items) }
        ensures others { (i : ℕ) → i ≢ place → edge_at self.new.edges.items i ≡ edge_at self.old.edges.items i }
        ensures from { (a : ℕ) → a ≢ to → Leads (edge_at self.old.edges.items place) a to amount → result ≡ a }
        ensures moved { (p : ℕ → Bool)
            → room self.new.edges.items p + cond (p result) amount 0 ≡ room self.old.edges.items p + cond (p to) amount 0 }
    {
        let edge = self.at(place);
        if edge.v == to {
            self.edges[place] = edge.send_ahead(amount);
            edge.u
        } else {
            self.edges[place] = edge.send_back(amount);
            edge.v
        }
    }

    /// Sends as much as a search found room for to `target`, over the edges by which it was met; how much.
    pub fn send(&mut self, search: &Search, target: u32) -> u32
        requires tree { IsTree self.old.edges.items search.now }
        requires size { search.now.n ≡ self.old.n }
        requires inside { target < search.now.n }
        requires met { 0 < slice_index search.now.rank.items target }
        ensures size { (self.new.n ≡ self.old.n) × (length self.new.edges.items ≡ length self.old.edges.items) }
        ensures some { 0 < result }
        ensures sent { (p : ℕ → Bool)
            → p search.now.start ≡ true → p target ≡ false → room self.new.edges.items p + result ≡ room self.old.edges.items p }
    {
        let amount = search.amount[target as usize];
        let mut here = target;
        while here != search.start {
            here = self.send_over(search.parent[here as usize], here, amount);
        }
        amount
    }
}
