//! Leases: which node is lent to which grunt, and the log from which all of it can be read off again.
//!
//! - [`LeaseTable`] is the table with its log. Its room is taken once, by `new`; no later call takes memory.
//! - [`Lease`] and [`LeaseFate`] are a lease and what became of it; [`Entry`] is an entry of the log.
//! - [`logs_replay`]: the law by which a log gives the leases, the nodes and how many of them are settled.
#![tactic(auto)]

ghost use Rattle.leasebook.specs.Log.{EntriesAct, LeasesStandAlone};

mod lease;
mod table;

pub use lease::{Entry, Lease, LeaseFate};
pub use table::LeaseTable;

/// A log gives its state entry by entry, and the leases alone whatever the nodes are.
pub fn logs_replay()
    ensures entries { EntriesAct }
    ensures leases { LeasesStandAlone }
{}
