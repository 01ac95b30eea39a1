//! The degree program of few cities solved otherwise: its optimum is half the least cost at which each city sends two and
//! receives two over arcs that carry one, found by cheapest augmenting paths.
use std::alloc::{AllocError, Global};

const FAR: i64 = 1 << 40;

const NOWHERE: usize = 1_000_000;

/// A flow from senders to receivers, both as many as the cities.
#[derive(Drop)]
pub struct Flow {
    n: usize,
    costs: Vec<i64>,
    used: Vec<bool>,
    sent: Vec<u32>,
    got: Vec<u32>,
    // the cheapest way to each sender and receiver, and the step before it
    to_sender: Vec<i64>,
    to_receiver: Vec<i64>,
    before_sender: Vec<usize>,
    before_receiver: Vec<usize>,
}

fn number(list: &[i64], place: usize) -> i64 {
    list.get(place).copied().unwrap_or(FAR)
}

fn count(list: &[u32], place: usize) -> u32 {
    list.get(place).copied().unwrap_or(2)
}

fn step(list: &[usize], place: usize) -> usize {
    list.get(place).copied().unwrap_or(NOWHERE)
}

impl Flow {
    /// No flow yet, where the costs are by rows.
    pub fn new(alloc: Global, n: usize, costs: Vec<i64>) -> Result<Flow, AllocError> {
        let cells = costs.len();
        Ok(Flow {
            n,
            costs,
            used: vec![in alloc; false; cells]?,
            sent: vec![in alloc; 0; n]?,
            got: vec![in alloc; 0; n]?,
            to_sender: vec![in alloc; FAR; n]?,
            to_receiver: vec![in alloc; FAR; n]?,
            before_sender: vec![in alloc; NOWHERE; n]?,
            before_receiver: vec![in alloc; NOWHERE; n]?,
        })
    }

    fn cell(&self, from: usize, to: usize) -> usize {
        from.wrapping_mul(self.n).wrapping_add(to)
    }

    /// The least cost of all, in whole lengths.
    pub fn least(&mut self) -> i64 {
        for _ in 0..self.n.saturating_mul(2) {
            self.augment();
        }
        let mut total: i64 = 0;
        for (cost, used) in self.costs.iter().zip(&self.used) {
            if *used {
                total = total.wrapping_add(*cost);
            }
        }
        total
    }

    /// Whether every city sends and receives two.
    pub fn is_whole(&self) -> bool {
        self.sent.iter().all(|x| *x == 2) && self.got.iter().all(|x| *x == 2)
    }

    /// One more unit, on a cheapest way.
    fn augment(&mut self) {
        self.start();
        for _ in 0..self.n.saturating_mul(2) {
            for from in 0..self.n {
                for to in 0..self.n {
                    self.relax(from, to);
                }
            }
        }
        let mut end = NOWHERE;
        let mut least = FAR;
        for to in 0..self.n {
            let length = number(&self.to_receiver, to);
            if count(&self.got, to) < 2 && length < least {
                least = length;
                end = to;
            }
        }
        if end != NOWHERE {
            self.send(end);
        }
    }

    /// Ways begin at the senders that have sent less than two.
    fn start(&mut self) {
        for place in 0..self.n {
            let free = count(&self.sent, place) < 2;
            if let Some(x) = self.to_sender.get_mut(place) {
                *x = if free { 0 } else { FAR };
            }
            if let Some(x) = self.to_receiver.get_mut(place) {
                *x = FAR;
            }
            if let Some(x) = self.before_sender.get_mut(place) {
                *x = NOWHERE;
            }
        }
    }

    /// Goes over an arc: forth where it is free, back where it carries.
    fn relax(&mut self, from: usize, to: usize) {
        let cell = self.cell(from, to);
        if from == to {
            return;
        }
        let cost = number(&self.costs, cell);
        let there = number(&self.to_sender, from);
        let here = number(&self.to_receiver, to);
        if self.used.get(cell) == Some(&true) {
            let back = here.wrapping_sub(cost);
            if here < FAR && back < there {
                if let Some(x) = self.to_sender.get_mut(from) {
                    *x = back;
                }
                if let Some(x) = self.before_sender.get_mut(from) {
                    *x = to;
                }
            }
        } else if there < FAR && there.wrapping_add(cost) < here {
            if let Some(x) = self.to_receiver.get_mut(to) {
                *x = there.wrapping_add(cost);
            }
            if let Some(x) = self.before_receiver.get_mut(to) {
                *x = from;
            }
        }
    }

    fn set(&mut self, from: usize, to: usize, used: bool) {
        let cell = self.cell(from, to);
        if let Some(x) = self.used.get_mut(cell) {
            *x = used;
        }
    }

    /// Sends a unit to a receiver along the steps before it.
    fn send(&mut self, end: usize) {
        if let Some(x) = self.got.get_mut(end) {
            *x = x.wrapping_add(1);
        }
        let mut to = end;
        for _ in 0..self.n {
            let from = step(&self.before_receiver, to);
            self.set(from, to, true);
            let back = step(&self.before_sender, from);
            if back == NOWHERE {
                if let Some(x) = self.sent.get_mut(from) {
                    *x = x.wrapping_add(1);
                }
                return;
            }
            self.set(from, back, false);
            to = back;
        }
    }
}
