//! A proof, written to a desk.
ghost use Rattle.std.specs.Prelude.{◌≡◌, ◌≤◌, length, OnOk, IsErrOf};
ghost use Rattle.treebook.specs.Tables.{tree_of};
ghost use Rattle.ports.specs.Outside.{Cause};
ghost use Rattle.certform.specs.Told.{AddsBody, AddsFront};

use crate::error::WriteError;
use crate::text::body;
use cyc::Tour;
use ports::{Desk, Outlet, write_all};
use std::alloc::Global;
use treebook::Tree;
use tspinst::Instance;

/// Writes the body of a tour, a tree and a bound ([`body`]) to the outlet of proofs. All memory is taken before the first byte is
/// written. After a failure a front of the body was written, and not all of it.
pub fn write<D: Desk>(
    alloc: Global,
    desk: &mut D,
    instance: &Instance,
    tour: &Tour,
    tree: &Tree,
    bound: u64,
) -> Result<(), WriteError>
    requires cities { length tour.now ≡ instance.now.n }
    requires nodes { tree.now.n ≡ instance.now.n }
    requires few { length tree.now.nodes ≤ 1048576 }
    ensures written { OnOk result (AddsBody instance.now tour.now bound (tree_of tree.now.nodes) (D.told desk.old) (D.told desk.new)) }
    ensures no_memory { IsErrOf result WriteError.NoMemory → D.told desk.new ≡ D.told desk.old }
    ensures front { IsErrOf result WriteError.Failed
        → AddsFront instance.now tour.now bound (tree_of tree.now.nodes) (D.told desk.old) (D.told desk.new) }
    ensures cause { Cause (IsErrOf result WriteError.Failed) (D.write_faults desk.old) (D.write_faults desk.new) }
    ensures same { D.read_faults desk.new ≡ D.read_faults desk.old }
{
    let bytes = body(alloc, instance, tour, tree, bound)?;
    write_all(desk, Outlet::Proof, &bytes)?;
    Ok(())
}
