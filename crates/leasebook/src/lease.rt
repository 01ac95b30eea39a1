//! Leases, and the entries of their log.
ghost use Rattle.std.specs.Prelude.{◌≡◌};
ghost use Rattle.leasebook.specs.Leases.{is_held};

/// What became of a lease.
#[derive(Clone, Copy, PartialEq, Eq, Debug)]
pub enum LeaseFate {
    Held,
    /// It brought the closing of its node.
    Closed,
    /// It brought the branch by which its node was split.
    Split,
    /// It brought nothing that served.
    Lost,
}

/// A node that was lent to a grunt.
#[derive(Clone, Copy, PartialEq, Eq, Debug)]
pub struct Lease {
    pub grunt: u32,
    pub node: u32,
    pub fate: LeaseFate,
}

impl Lease {
    /// Whether the lease is held.
    pub fn is_held(&self) -> bool
        ensures { result ≡ is_held self.now }
    {
        matches!(self.fate, LeaseFate::Held)
    }
}

/// An entry of the log.
#[derive(Clone, Copy, PartialEq, Eq, Debug)]
pub enum Entry {
    /// The grunt got the node. The lease's number is the number of grants before it.
    Grant(u32, u32),
    /// The lease ended.
    End(u32, LeaseFate),
    /// The node was settled: split where the second is true, else closed.
    Take(u32, bool),
}
