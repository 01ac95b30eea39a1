//! Words that are of no command's form.
ghost use Rattle.std.specs.Prelude.{◌≡◌};
ghost use Rattle.ports.specs.Outside.{Cause};
ghost use Rattle.tspengine.specs.Calls.{Call, SlotsKept, on_desk};
ghost use Rattle.tspengine.specs.Usages.{Uses};

use crate::statuses::Status;
use crate::texts::USAGE;
use ports::{Desk, Outlet, write_all};

/// Prints the usage.
pub(crate) fn usage<D: Desk>(desk: &mut D) -> Status
    ensures ends { (c : Call) → SlotsKept c → Uses result (on_desk (D.told desk.old) (D.told desk.new) c) }
    ensures writes { Cause (result ≡ Status.WriteFault) (D.write_faults desk.old) (D.write_faults desk.new) }
    ensures same { D.read_faults desk.new ≡ D.read_faults desk.old }
{
    match write_all(desk, Outlet::Text, USAGE.as_bytes()) {
        Ok(()) => Status::Usage,
        Err(_) => Status::WriteFault,
    }
}
