//! The path of the root.
ghost use Rattle.std.specs.Prelude.{◌≡◌, IfOk};
ghost use Rattle.tspdef.specs.Paths.{root};
ghost use Rattle.worker.specs.Works.{BeginsAt, cliques};

use branchx::Path;
use std::alloc::{AllocError, Global};
use tspinst::Instance;

/// The path of an instance's root: its fixed pairs.
pub fn root_path(alloc: Global, instance: &Instance) -> Result<Path, AllocError>
    ensures root { IfOk result (λ p. p ≡ record { n = instance.now.n; conditions = root instance.now }) }
    ensures no_cliques { IfOk result (λ p. cliques p.conditions ≡ 0) }
    ensures begins { IfOk result (λ p. BeginsAt instance.now p.conditions) }
{
    let n = instance.n();
    Path::root(alloc, n, instance.fixed())
}
