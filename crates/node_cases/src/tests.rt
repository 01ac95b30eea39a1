//! The square's relaxation, over all pairs and over its sides alone.
ghost use Rattle.std.specs.Prelude.{IfOk};
ghost use Rattle.nodelp.specs.Node.{IsNodeLp};

use branchx::{Cond, Path, decided};
use distx::{Kind, Point};
use neigh::nearest;
use nodelp::NodeLp;
use pricer::{Fit, bound, fits};
use simplex::LpAnswer;
use std::alloc::Global;
use std::process::Abort;
use std::test::Fail;
use tspinst::{Instance, from_points};

/// A square of side 10, its corners in turn.
fn square(alloc: Global) -> Result<Instance, Fail> {
    let points = [
        Point::new(0, 0),
        Point::new(10, 0),
        Point::new(10, 10),
        Point::new(0, 10),
    ];
    Ok(from_points(alloc, Kind::Euc, &points)?)
}

/// The relaxation of a square's node that decides some pairs, over lists of so many near cities.
fn relaxed(
    rt: &impl Abort,
    alloc: Global,
    instance: &Instance,
    path: &Path,
    k: u32,
) -> Result<NodeLp, Fail>
    ensures { IfOk result (IsNodeLp instance.now path.now.conditions) }
{
    assert_eq!(rt; instance.n(), 4);
    assert_eq!(rt; path.n(), 4);
    assert!(rt; path.conditions().is_empty());
    assert!(rt; k == 2 || k == 3);
    let near = nearest(alloc, instance, k)?;
    Ok(NodeLp::new(alloc, instance, &near, path)?)
}

/// Over all pairs the duals of the square are worth its whole length.
#[test]
fn the_square_is_solved_and_closed(rt: HostRuntime) -> Result<(), Fail> {
    let alloc = rt.alloc();
    let instance = square(alloc)?;
    let path = Path::new(alloc, 4);
    let mut node = relaxed(&rt, alloc, &instance, &path, 3)?;
    assert_eq!(rt; node.lp().cols().len(), 6);
    assert_eq!(rt; node.lp().rows().len(), 4);
    node.solve(alloc)?;
    assert!(rt; matches!(node.lp().last(), Some(LpAnswer::Solved { .. })));
    assert_eq!(rt; node.lp().rounds(), 1);
    assert_eq!(rt; node.n(), path.n());
    let closing = node.closing(alloc, &path)?;
    assert_eq!(rt; path.n(), instance.n());
    assert_eq!(rt; fits(&instance, &path, &closing), Fit::Fits);
    assert!(rt; bound(&instance, &path, &closing) > 40_894_464);
    Ok(())
}

/// Over the sides alone the duals may be those of a shorter diagonal, which then comes in.
#[test]
fn a_pair_outside_the_core_comes_in(rt: HostRuntime) -> Result<(), Fail> {
    let alloc = rt.alloc();
    let instance = square(alloc)?;
    let path = Path::new(alloc, 4);
    let mut node = relaxed(&rt, alloc, &instance, &path, 2)?;
    assert_eq!(rt; node.lp().cols().len(), 4);
    node.solve(alloc)?;
    assert_eq!(rt; node.n(), path.n());
    let closing = node.closing(alloc, &path)?;
    assert_eq!(rt; path.n(), instance.n());
    assert_eq!(rt; fits(&instance, &path, &closing), Fit::Fits);
    let closes = bound(&instance, &path, &closing) > 40_894_464;
    let more = node.add_negative(alloc, &instance, &path)?;
    assert!(rt; closes || more);
    assert_eq!(rt; node.lp().cols().len() > 4, more);
    Ok(())
}
