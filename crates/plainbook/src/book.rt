//! The plain book: what each event is answered, over lists that are searched from the front.

use crate::duals::{ALL, CITIES, Duals, SCALE, Told, decides, number, tour_length};
use crate::starts::{OPENING, Start};
use crate::tours::has_step;
use bossx::{Asked, Expiry, Front, Offered, Reported};
use std::alloc::{AllocError, Global};

/// What is said of a node.
#[derive(Drop)]
pub enum Said {
    /// A split by a pair.
    Edge(u32, u32),
    /// A split by a set, of so many cities.
    Clique(u32, u32),
    /// A closing.
    Closed(Duals),
}

/// What became of a lease.
#[derive(Clone, Copy, PartialEq, Eq)]
pub enum Fate {
    /// Its node is lent.
    Held,
    /// Its report was taken.
    Settled,
    /// It came to nothing.
    Lost,
}

/// A lease: whose it is, of which node.
#[derive(Drop)]
pub struct PlainLease {
    /// Who holds it.
    pub grunt: u32,
    /// What is lent.
    pub node: u32,
    /// What became of it.
    pub fate: Fate,
}

/// A node.
#[derive(Drop)]
pub struct PlainNode {
    /// Its conditions, the fixed pair first.
    pub path: Vec<Told>,
    /// Whether it is neither closed nor split.
    pub open: bool,
    /// What it is lent by.
    pub key: i64,
}

/// The book.
#[derive(Drop)]
pub struct PlainBook {
    /// The pair that each tour has, if there is one.
    pub fixed: Option<(u32, u32)>,
    /// All nodes, by their numbers.
    pub nodes: Vec<PlainNode>,
    /// All leases, by their numbers.
    pub leases: Vec<PlainLease>,
    /// The best tour's length.
    pub best: u64,
    /// How many nodes are closed or split.
    pub settled: u32,
    /// How many may be.
    pub budget: u32,
    /// How much longer than the shortest the best tour may be in the end.
    pub gap: u64,
}

impl PlainBook {
    /// A book with one open node, and the tour that books begin with.
    pub fn new(alloc: Global, start: &Start) -> Result<PlainBook, AllocError> {
        let mut path = Vec::new(alloc);
        if let Some((u, v)) = start.fixed {
            path.push(Told::Fixed(u, v))?;
        }
        let mut nodes = Vec::new(alloc);
        nodes.push(PlainNode {
            path,
            open: true,
            key: 0,
        })?;
        Ok(PlainBook {
            fixed: start.fixed,
            nodes,
            leases: Vec::new(alloc),
            best: tour_length(&OPENING),
            settled: 0,
            budget: start.budget,
            gap: start.gap,
        })
    }

    // ---- what it says

    /// How many nodes are open.
    pub fn open_count(&self) -> u32 {
        number(self.nodes.iter().filter(|node| node.open).count())
    }

    /// How many leases have this fate.
    pub fn count(&self, fate: Fate) -> u32 {
        number(
            self.leases
                .iter()
                .filter(|lease| lease.fate == fate)
                .count(),
        )
    }

    fn is_open(&self, node: u32) -> bool {
        match self.nodes.get(node as usize) {
            Some(node) => node.open,
            None => false,
        }
    }

    /// The conditions of a node.
    pub fn path(&self, node: u32) -> &[Told] {
        match self.nodes.get(node as usize) {
            Some(node) => &node.path,
            None => &[],
        }
    }

    fn is_held(&self, node: u32) -> bool {
        self.leases
            .iter()
            .any(|lease| lease.node == node && lease.fate == Fate::Held)
    }

    /// The free node with the least key, and of these with the least number.
    fn first_free(&self) -> Option<u32> {
        let mut first: Option<(u32, i64)> = None;
        let mut k = 0u32;
        for node in &self.nodes {
            if node.open && comes_before(node.key, &first) && !self.is_held(k) {
                first = Some((k, node.key));
            }
            k = k.saturating_add(1);
        }
        first.map(|f| f.0)
    }

    fn needed(&self) -> i128 {
        i128::from(self.best.saturating_sub(self.gap))
            .saturating_sub(1)
            .saturating_mul(SCALE)
    }

    // ---- events

    /// A grunt asks for a node.
    pub fn ask(&mut self, grunt: u32) -> Result<Asked, AllocError> {
        let _ = self.gone(grunt);
        if self.open_count() == 0 {
            return Ok(Asked::Done);
        }
        if self.settled == self.budget {
            return Ok(Asked::Spent);
        }
        if self.count(Fate::Lost) >= 256 {
            return Ok(Asked::Home);
        }
        if self.settled.saturating_add(self.count(Fate::Held)) >= self.budget {
            return Ok(Asked::NotYet);
        }
        let Some(node) = self.first_free() else {
            return Ok(Asked::NotYet);
        };
        let lease = number(self.leases.len());
        self.leases.push(PlainLease {
            grunt,
            node,
            fate: Fate::Held,
        })?;
        Ok(Asked::Leased {
            lease,
            node,
            best: self.best,
        })
    }

    /// What is said for the node of a lease. A priced closing is at home or not, and a hint is the key of both children.
    pub fn report(
        &mut self,
        alloc: Global,
        lease: u32,
        said: &Said,
        home: bool,
        hint: Option<i64>,
    ) -> Result<Reported, AllocError> {
        let Some(found) = self.leases.get(lease as usize) else {
            return Ok(Reported::Unknown);
        };
        let node = found.node;
        let reply = self.judge(node, said, home);
        match reply {
            Reported::Taken => self.take(alloc, Some(lease), node, said, hint)?,
            Reported::Spent | Reported::Misfit(_) | Reported::Weak { .. } => self.lose(lease),
            Reported::Unknown | Reported::Stale => (),
        }
        Ok(reply)
    }

    /// The boss itself reports on a node.
    pub fn own(&mut self, alloc: Global, node: u32, said: &Said) -> Result<Reported, AllocError> {
        let reply = self.judge(node, said, true);
        if reply == Reported::Taken {
            self.take(alloc, None, node, said, None)?;
        }
        Ok(reply)
    }

    /// A grunt is gone.
    pub fn gone(&mut self, grunt: u32) -> Option<u32> {
        let mut k = 0u32;
        for lease in self.leases.iter_mut() {
            if lease.grunt == grunt && lease.fate == Fate::Held {
                lease.fate = Fate::Lost;
                return Some(k);
            }
            k = k.saturating_add(1);
        }
        None
    }

    /// The time of a lease is over.
    pub fn expire(&mut self, lease: u32) -> Expiry {
        match self.leases.get_mut(lease as usize) {
            None => Expiry::Unknown,
            Some(lease) if lease.fate == Fate::Held => {
                lease.fate = Fate::Lost;
                Expiry::Expired
            }
            Some(_) => Expiry::NotHeld,
        }
    }

    /// A tour is offered.
    pub fn offer(&mut self, tour: &[u32]) -> Offered {
        if tour.len() != CITIES as usize {
            return Offered::OtherSize;
        }
        if let Some((u, v)) = self.fixed {
            if !has_step(tour, u, v) {
                return Offered::OffFixed(u, v);
            }
        }
        let length = tour_length(tour);
        if length >= self.best {
            return Offered::NotShorter(self.best);
        }
        self.best = length;
        Offered::Better
    }

    /// The node that a boss without grunts works on.
    pub fn front(&self) -> Front {
        if self.open_count() == 0 {
            return Front::Done;
        }
        if self.settled == self.budget {
            return Front::Spent;
        }
        match self.nodes.iter().position(|node| node.open) {
            Some(k) => Front::Node(number(k)),
            None => Front::Done,
        }
    }

    // ---- parts of events

    fn judge(&self, node: u32, said: &Said, home: bool) -> Reported {
        if !self.is_open(node) {
            return Reported::Stale;
        }
        if self.settled == self.budget {
            return Reported::Spent;
        }
        if !home {
            return Reported::Misfit(7);
        }
        match misfit(self.path(node), said) {
            Some(k) => Reported::Misfit(k),
            None => self.weigh(node, said),
        }
    }

    fn weigh(&self, node: u32, said: &Said) -> Reported {
        if let Said::Closed(duals) = said {
            let bound = duals.bound(self.path(node));
            let needed = self.needed();
            if bound <= needed {
                return Reported::Weak { bound, needed };
            }
        }
        Reported::Taken
    }

    fn lose(&mut self, lease: u32) {
        if let Some(lease) = self.leases.get_mut(lease as usize) {
            if lease.fate == Fate::Held {
                lease.fate = Fate::Lost;
            }
        }
    }

    /// Ends the lease that holds a node: settled by the lease that brought the report, or lost.
    fn close_out(&mut self, by: Option<u32>, node: u32) {
        let mut k = 0u32;
        for lease in self.leases.iter_mut() {
            if lease.node == node && lease.fate == Fate::Held {
                lease.fate = if by == Some(k) {
                    Fate::Settled
                } else {
                    Fate::Lost
                };
            }
            k = k.saturating_add(1);
        }
    }

    /// Settles a node, and gives its state back as it was.
    fn settle(&mut self, node: u32) -> i64 {
        self.settled = self.settled.saturating_add(1);
        match self.nodes.get_mut(node as usize) {
            Some(node) => {
                node.open = false;
                node.key
            }
            None => 0,
        }
    }

    fn take(
        &mut self,
        alloc: Global,
        by: Option<u32>,
        node: u32,
        said: &Said,
        hint: Option<i64>,
    ) -> Result<(), AllocError> {
        self.close_out(by, node);
        let key = self.settle(node);
        let key = hint.unwrap_or(key);
        match said {
            Said::Edge(u, v) => self.split(
                alloc,
                node,
                Told::Absent(*u, *v),
                Told::Present(*u, *v),
                key,
            ),
            Said::Clique(_, set) => self.split(alloc, node, Told::Two(*set), Told::Four(*set), key),
            Said::Closed(_) => Ok(()),
        }
    }

    fn split(
        &mut self,
        alloc: Global,
        node: u32,
        one: Told,
        other: Told,
        key: i64,
    ) -> Result<(), AllocError> {
        let first = longer(alloc, self.path(node), one)?;
        let second = longer(alloc, self.path(node), other)?;
        self.nodes.push(PlainNode {
            path: first,
            open: true,
            key,
        })?;
        self.nodes.push(PlainNode {
            path: second,
            open: true,
            key,
        })?;
        Ok(())
    }
}

/// Whether a key is less than that of the first node so far.
fn comes_before(key: i64, first: &Option<(u32, i64)>) -> bool {
    match first {
        Some((_, least)) => key < *least,
        None => true,
    }
}

fn longer(alloc: Global, path: &[Told], told: Told) -> Result<Vec<Told>, AllocError> {
    let mut longer = Vec::from_slice(alloc, path)?;
    longer.push(told)?;
    Ok(longer)
}

/// The least that is wrong with what is said of a node with this path.
fn misfit(path: &[Told], said: &Said) -> Option<u32> {
    match said {
        Said::Closed(duals) => duals.misfit(path),
        Said::Edge(u, v) => {
            if u < v && *v < CITIES && !decides(path, *u, *v) {
                None
            } else {
                Some(5)
            }
        }
        Said::Clique(n, set) => {
            if *n == CITIES && is_new(path, *set) {
                None
            } else {
                Some(6)
            }
        }
    }
}

/// Whether a set is proper, and the path has no condition on it or its complement.
fn is_new(path: &[Told], set: u32) -> bool {
    let other = ALL ^ set;
    set != 0
        && other != 0
        && path.iter().all(|told| match told {
            Told::Two(s) | Told::Four(s) => *s != set && *s != other,
            _ => true,
        })
}
