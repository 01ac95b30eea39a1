//! Closings without duals.
ghost use Rattle.std.specs.Prelude.{◌≡◌, true, false, ◌≤ℤ◌, IfOk, IfSome, IfNone};
ghost use Rattle.tspdef.specs.Closings.{Fits};
ghost use Rattle.tspdef.specs.Bounds as bounds;
ghost use Rattle.tspdef.specs.Rays as rays;
ghost use Rattle.worker.specs.Works.{Closes};

use branchx::Path;
use pricer::{Closing, bound, needed};
use std::alloc::{AllocError, Global};
use tspdef::bound_is_below;
use tspinst::Instance;

/// What all duals 0 are worth to a node, in units. O(n^2).
pub fn zero_bound(alloc: Global, instance: &Instance, path: &Path) -> Result<i128, AllocError>
    requires { path.now.n ≡ instance.now.n }
    ensures { IfOk result (λ b. b ≡ bounds.bound instance.now path.now.conditions (rays.zero_closing instance.now.n)) }
{
    let zeros = zero_closing(alloc, instance.n())?;
    Ok(bound(instance, path, &zeros))
}

/// The closing whose duals are all 0, if it closes a node for tours of a length. O(n^2), for the bound.
pub fn zeros_that_close(
    alloc: Global,
    instance: &Instance,
    path: &Path,
    length: u64,
) -> Result<Option<Closing>, AllocError>
    requires { path.now.n ≡ instance.now.n }
    ensures some { IfOk result (λ z. IfSome z (Closes instance.now path.now.conditions length)) }
    ensures zeros { IfOk result (λ z. IfSome z (λ c. c ≡ rays.zero_closing instance.now.n)) }
    ensures none { IfOk result (λ z. IfNone z (bounds.bound instance.now path.now.conditions (rays.zero_closing instance.now.n) ≤ℤ bounds.needed length)) }
{
    let zeros = zero_closing(alloc, instance.n())?;
    if closes(instance, path, &zeros, length) {
        return Ok(Some(zeros));
    }
    Ok(None)
}

/// Whether a closing closes a node for tours of a length.
fn closes(instance: &Instance, path: &Path, closing: &Closing, length: u64) -> bool
    requires cities { path.now.n ≡ instance.now.n }
    requires fits { Fits instance.now.n path.now.conditions closing.now }
    ensures more { result ≡ true → Closes instance.now path.now.conditions length closing.now }
    ensures not { result ≡ false → bounds.bound instance.now path.now.conditions closing.now ≤ℤ bounds.needed length }
{
    bound_is_below();
    bound(instance, path, closing) > needed(length)
}

/// The closing whose duals are all 0.
fn zero_closing(alloc: Global, n: u32) -> Result<Closing, AllocError>
    ensures { IfOk result (λ c. c ≡ rays.zero_closing n) }
{
    let city = vec![in alloc; 0i64; n as usize]?;
    Ok(Closing::new(city, Vec::new(alloc), Vec::new(alloc)))
}
