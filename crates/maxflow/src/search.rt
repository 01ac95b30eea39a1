//! A search, breadth first, through the room that is left.
ghost use Rattle.std.specs.Prelude.{◌≡◌, ◌+◌, ◌<◌, ◌≤◌, ℕ, List, true, vec_len, length, slice_index, IfOk, IfSome, MatchOption};
ghost use Rattle.tspdef.specs.Sets.{has, IsSet};

use crate::residual::Residual;
use crate::rows::Rows;
use cyc::{CitySet, CitySetError};
use std::alloc::{AllocError, Global};

/// The cities that a search met: when, counted from 1, and 0 where not, over which edge, and how much can be sent to each.
#[derive(Drop)]
pub struct Search {
    pub n: u32,
    pub start: u32,
    met: u32,
    pub rank: Vec<u32>,
    pub parent: Vec<usize>,
    pub amount: Vec<u32>,
    queue: Vec<u32>,
    ghost few: { n ≤ 2000 },
    ghost rank_size: { vec_len rank ≡ n },
    ghost parent_size: { vec_len parent ≡ n },
    ghost amount_size: { vec_len amount ≡ n },
}

impl Search {
    ghost use Rattle.maxflow.specs.declared.residual.Edge.{Edge};
    ghost use Rattle.maxflow.specs.Edges.{edge_at, room_at, room, Leads};
    ghost use Rattle.maxflow.specs.Flows.{is_stop};
    ghost use Rattle.maxflow.specs.Searches.{IsTree, is_met, unmet};

    /// A search that has met its start alone.
    pub fn new(alloc: Global, n: u32, start: u32) -> Result<Search, AllocError>
        requires inside { start < n }
        requires few { n ≤ 2000 }
        ensures same { IfOk result (λ t. (t.n ≡ n) × (t.start ≡ start)) }
        ensures tree { IfOk result (λ t. (es : List Edge) → IsTree es t) }
    {
        let rank = vec![in alloc; 0; n as usize]?;
        let parent = vec![in alloc; 0usize; n as usize]?;
        let amount = vec![in alloc; 0; n as usize]?;
        let queue = vec![in alloc; 0; n as usize]?;
        let mut search = Search {
            n,
            start,
            met: 1,
            rank,
            parent,
            amount,
            queue,
        };
        search.restart();
        Ok(search)
    }

    /// Forgets all cities but the start.
    pub fn restart(&mut self)
        requires { self.old.start < self.old.n }
        ensures same { (self.new.n ≡ self.old.n) × (self.new.start ≡ self.old.start) }
        ensures tree { (es : List Edge) → IsTree es self.new }
    {
        self.rank.fill(0);
        self.rank[self.start as usize] = 1;
        self.amount[self.start as usize] = u32::MAX;
        self.met = 1;
    }

    /// Searches for a stop: either one is met, or no edge with room leads out of what was met.
    pub fn reach(&mut self, residual: &Residual, rows: &Rows, stops: &[bool]) -> Option<u32>
        requires tree { IsTree residual.now.edges.items self.old }
        requires size { residual.now.n ≡ self.old.n }
        requires all { length stops.now ≡ self.old.n }
        ensures same { (self.new.n ≡ self.old.n) × (self.new.start ≡ self.old.start) }
        ensures tree { IsTree residual.now.edges.items self.new }
        ensures found { MatchOption result
            (((k : ℕ) → k < self.old.n → is_stop stops.now k ≡ true → slice_index self.new.rank.items k ≡ 0)
            × (room residual.now.edges.items (is_met self.new.rank.items) ≡ 0))
            (λ k. (k < self.old.n) × ((is_stop stops.now k ≡ true) × (0 < slice_index self.new.rank.items k))) }
    {
        let mut next = self.start;
        loop {
            if let Some(x) = self.spread(residual, rows, next, stops) {
                if stops[x as usize] {
                    return Some(x);
                }
            }
            if let Some(k) = self.met_stop(stops) {
                return Some(k);
            }
            match self.step_over(residual) {
                Some(x) => next = x,
                None => return None,
            }
        }
    }

    /// The set of the cities that were met.
    pub fn side(&self, alloc: Global) -> Result<CitySet, AllocError>
        requires { 3 ≤ self.now.n }
        ensures cities { IfOk result (λ s. s.n ≡ self.now.n) }
        ensures set { IfOk result (λ s. IsSet self.now.n s.cities) }
        ensures met { IfOk result (λ s. (k : ℕ) → has s.cities k ≡ is_met self.now.rank.items k) }
    {
        let cities = self.met_cities(alloc)?;
        match CitySet::new(alloc, self.n, cities) {
            Ok(set) => Ok(set),
            Err(CitySetError::NotRising) => unreachable!(),
            Err(CitySetError::NoMemory) => Err(AllocError),
        }
    }

    /// The cities that were met, in rising order.
    fn met_cities(&self, alloc: Global) -> Result<Vec<u32>, AllocError>
        ensures set { IfOk result (λ v. IsSet self.now.n v.items) }
        ensures met { IfOk result (λ v. (k : ℕ) → has v.items k ≡ is_met self.now.rank.items k) }
    {
        let mut cities = Vec::new(alloc);
        for k in 0..self.n {
            if self.rank[k as usize] > 0 {
                cities.push(k)?;
            }
        }
        Ok(cities)
    }

    /// Meets the city `to` over the edge at `place`.
    #[inline]
    fn meet(&mut self, residual: &Residual, place: usize, from: u32, to: u32, room: u32)
        requires tree { IsTree residual.now.edges.items self.old }
        requires inside { place < length residual.now.edges.items }
        requires from_in { from < self.old.n }
        requires to_in { to < self.old.n }
        requires known { 0 < slice_index self.old.rank.items from }
        requires fresh { slice_index self.old.rank.items to ≡ 0 }
        requires some { 0 < room }
        requires leads { Leads (edge_at residual.now.edges.items place) from to room }
        ensures same { (self.new.n ≡ self.old.n) × (self.new.start ≡ self.old.start) }
        ensures tree { IsTree residual.now.edges.items self.new }
        ensures met { 0 < slice_index self.new.rank.items to }
        ensures fewer { unmet self.new.rank.items + 1 ≡ unmet self.old.rank.items }
    {
        let reach = self.amount[from as usize];
        self.met += 1;
        self.rank[to as usize] = self.met;
        self.parent[to as usize] = place;
        self.amount[to as usize] = room.min(reach);
    }

    /// When a city was met, or 0.
    #[inline]
    fn rank_of(&self, city: u32) -> u32
        requires { city < self.now.n }
        ensures { result ≡ slice_index self.now.rank.items city }
    {
        self.rank[city as usize]
    }

    /// Goes over the edge at `place` to a new city, if it leads from a met one to one.
    #[inline]
    fn cross(&mut self, residual: &Residual, place: usize) -> Option<u32>
        requires tree { IsTree residual.now.edges.items self.old }
        requires inside { place < length residual.now.edges.items }
        requires size { residual.now.n ≡ self.old.n }
        ensures same { (self.new.n ≡ self.old.n) × (self.new.start ≡ self.old.start) }
        ensures tree { IsTree residual.now.edges.items self.new }
        ensures step { MatchOption result
            ((self.new.rank.items ≡ self.old.rank.items) × (room_at (is_met self.old.rank.items) (edge_at residual.now.edges.items place) ≡ 0))
            (λ x. (x < self.old.n) × ((0 < slice_index self.new.rank.items x) × (unmet self.new.rank.items + 1 ≡ unmet self.old.rank.items))) }
    {
        let edge = residual.at(place);
        let near = self.rank_of(edge.u);
        let far = self.rank_of(edge.v);
        if near > 0 && far == 0 && edge.ahead > 0 {
            self.meet(residual, place, edge.u, edge.v, edge.ahead);
            return Some(edge.v);
        }
        if far > 0 && near == 0 && edge.back > 0 {
            self.meet(residual, place, edge.v, edge.u, edge.back);
            return Some(edge.u);
        }
        None
    }

    /// The same, at a place that may be none.
    #[inline]
    fn try_cross(&mut self, residual: &Residual, place: usize) -> Option<u32>
        requires tree { IsTree residual.now.edges.items self.old }
        requires size { residual.now.n ≡ self.old.n }
        ensures same { (self.new.n ≡ self.old.n) × (self.new.start ≡ self.old.start) }
        ensures tree { IsTree residual.now.edges.items self.new }
        ensures fewer { unmet self.new.rank.items ≤ unmet self.old.rank.items }
        ensures found { IfSome result (λ x. (x < self.old.n) × (0 < slice_index self.new.rank.items x)) }
    {
        if place < residual.edges.len() {
            self.cross(residual, place)
        } else {
            None
        }
    }

    /// Goes on from the city `from` along the rows, breadth first, up to a stop.
    fn spread(&mut self, residual: &Residual, rows: &Rows, from: u32, stops: &[bool]) -> Option<u32>
        requires tree { IsTree residual.now.edges.items self.old }
        requires size { residual.now.n ≡ self.old.n }
        ensures same { (self.new.n ≡ self.old.n) × (self.new.start ≡ self.old.start) }
        ensures tree { IsTree residual.now.edges.items self.new }
        ensures fewer { unmet self.new.rank.items ≤ unmet self.old.rank.items }
        ensures found { IfSome result (λ x. (x < self.old.n) × (0 < slice_index self.new.rank.items x)) }
    {
        let mut end: usize = 0;
        if let Some(slot) = self.queue.get_mut(0) {
            *slot = from;
            end = 1;
        }
        for head in 0..self.queue.len() {
            if head >= end {
                return None;
            }
            let row = rows.row(self.queue.get(head).copied().unwrap_or(0));
            for place in row {
                if let Some(x) = self.try_cross(residual, *place) {
                    if let Some(true) = stops.get(x as usize) {
                        return Some(x);
                    }
                    if let Some(slot) = self.queue.get_mut(end) {
                        *slot = x;
                        end += 1;
                    }
                }
            }
        }
        None
    }

    /// Goes over the first edge that leads from a met city to a new one.
    fn step_over(&mut self, residual: &Residual) -> Option<u32>
        requires tree { IsTree residual.now.edges.items self.old }
        requires size { residual.now.n ≡ self.old.n }
        ensures same { (self.new.n ≡ self.old.n) × (self.new.start ≡ self.old.start) }
        ensures tree { IsTree residual.now.edges.items self.new }
        ensures step { MatchOption result
            ((self.new.rank.items ≡ self.old.rank.items) × (room residual.now.edges.items (is_met self.new.rank.items) ≡ 0))
            (λ x. unmet self.new.rank.items + 1 ≡ unmet self.old.rank.items) }
    {
        for place in 0..residual.edges.len() {
            if let Some(x) = self.cross(residual, place) {
                return Some(x);
            }
        }
        None
    }

    /// A stop that was met.
    fn met_stop(&self, stops: &[bool]) -> Option<u32>
        requires { length stops.now ≡ self.now.n }
        ensures { MatchOption result
            ((k : ℕ) → k < self.now.n → is_stop stops.now k ≡ true → slice_index self.now.rank.items k ≡ 0)
            (λ k. (k < self.now.n) × ((is_stop stops.now k ≡ true) × (0 < slice_index self.now.rank.items k))) }
    {
        for k in 0..self.n {
            if stops[k as usize] && self.rank_of(k) > 0 {
                return Some(k);
            }
        }
        None
    }
}
