//! Sets of a branch, over the cities of an instance.
ghost use Rattle.std.specs.Prelude.{◌≡◌, ℕ, ◌≤◌, List, IfOk};
ghost use Rattle.tspdef.specs.Sets.{IsProper};
ghost use Rattle.tspround.specs.Alone as defs;
ghost use Rattle.tspround.specs.Alone.{HasProperSet};

use branchx::Branch;
use cyc::{CitySet, CitySetError};
use pricer::Report;
use std::alloc::{AllocError, Global};
use tspinst::Instance;

/// A report whose set, if it splits by one, is one of the instance's cities: a boss takes no other, while a worker promises only that
/// the cities are some of these.
pub fn report_over(alloc: Global, instance: &Instance, report: Report) -> Result<Report, AllocError>
    requires { HasProperSet instance.now.n report }
    ensures { IfOk result (λ r. r ≡ defs.report_over instance.now.n report) }
{
    match report {
        Report::Split(Branch::Clique(set)) => {
            let set = set_over(alloc, instance.n(), set)?;
            Ok(Report::Split(Branch::Clique(set)))
        }
        Report::Split(Branch::Edge(u, v)) => Ok(Report::Split(Branch::Edge(u, v))),
        Report::Closed(closing) => Ok(Report::Closed(closing)),
    }
}

/// The same cities as a set of n cities.
fn set_over(alloc: Global, n: u32, set: CitySet) -> Result<CitySet, AllocError>
    requires many { 3 ≤ n }
    requires few { n ≤ 2000 }
    requires proper { IsProper n set.cities }
    ensures { IfOk result (λ s. s ≡ defs.set_over n set) }
{
    if set.n() == n {
        return Ok(set);
    }
    match CitySet::new(alloc, n, Vec::from_slice(alloc, set.cities())?) {
        Ok(over) => Ok(over),
        Err(CitySetError::NoMemory) => Err(AllocError),
        Err(CitySetError::NotRising) => unreachable!(),
    }
}
