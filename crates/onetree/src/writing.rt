//! A certificate, written to a desk.
ghost use Rattle.std.specs.Prelude.{◌≡◌, ℤ, neg_ℤ, pos, ◌<ℤ◌, IfOk, IsErrOf};
ghost use Rattle.ports.specs.Outside.{Cause};
ghost use Rattle.tspdef.specs.Bounds.{scale};
ghost use Rattle.onetree.specs.OneTrees.{AreDuals, IsHeldKarp};
ghost use Rattle.onetree.specs.Certificates.{text, certificate_of, IsBoundOf};
ghost use Rattle.onetree.specs.Told.{AddsCertificate, AddsFront};

use crate::error::WriteError;
use crate::lines::{put_bound, put_duals, put_size, put_title};
use crate::value::{held_karp, proved_length};
use ports::{Desk, Outlet, write_all};
use std::alloc::{AllocError, Global};
use tspinst::Instance;

/// Writes the certificate of some duals with the greatest bound that they prove to the outlet of proofs, and gives the bound. All memory is
/// taken before the first byte is written. It takes O(n^2).
///
/// # Errors
///
/// `NoMemory` where memory ran out: nothing was written then. `Failed` where a write failed: a front of the certificate was written, and
/// not all of it.
pub fn write<D: Desk>(
    alloc: Global,
    desk: &mut D,
    instance: &Instance,
    duals: &[i64],
) -> Result<u64, WriteError>
    requires duals { AreDuals instance.now.n duals.now }
    requires some { (h : ℤ) → IsHeldKarp instance.now duals.now h → neg_ℤ (pos scale) <ℤ h }
    ensures written { IfOk result (λ b. AddsCertificate instance.now duals.now b (D.told desk.old) (D.told desk.new)) }
    ensures no_memory { IsErrOf result WriteError.NoMemory → D.told desk.new ≡ D.told desk.old }
    ensures front { IsErrOf result WriteError.Failed → AddsFront instance.now duals.now (D.told desk.old) (D.told desk.new) }
    ensures cause { Cause (IsErrOf result WriteError.Failed) (D.write_faults desk.old) (D.write_faults desk.new) }
    ensures same { D.read_faults desk.new ≡ D.read_faults desk.old }
{
    let bound = bound_of(alloc, instance, duals)?;
    let bytes = certificate(alloc, duals, bound)?;
    write_all(desk, Outlet::Proof, &bytes)?;
    Ok(bound)
}

/// The greatest bound that some duals prove. It takes O(n^2).
///
/// # Errors
///
/// Where memory ran out.
pub fn bound_of(alloc: Global, instance: &Instance, duals: &[i64]) -> Result<u64, AllocError>
    requires duals { AreDuals instance.now.n duals.now }
    requires some { (h : ℤ) → IsHeldKarp instance.now duals.now h → neg_ℤ (pos scale) <ℤ h }
    ensures { IfOk result (λ b. IsBoundOf instance.now duals.now b) }
{
    let value = held_karp(alloc, instance, duals)?;
    Ok(proved_length(value))
}

/// The bytes of the certificate of some duals with a bound.
fn certificate(alloc: Global, duals: &[i64], bound: u64) -> Result<Vec<u8>, AllocError>
    ensures { IfOk result (λ b. b.items ≡ text (certificate_of duals.now bound)) }
{
    let mut out = Vec::new(alloc);
    put_title(&mut out)?;
    put_size(&mut out, duals.len() as u64)?;
    put_bound(&mut out, bound)?;
    put_duals(&mut out, duals)?;
    Ok(out)
}
