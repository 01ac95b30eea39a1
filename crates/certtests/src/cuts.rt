//! Cuts of sets.
ghost use Rattle.std.specs.Prelude.{◌≡◌, ◌≢◌, map, IfOk, IfSome};
ghost use Rattle.std.specs.Option.{is_some};
ghost use Rattle.tspdef.specs.Cuts.{IsCut};
ghost use Rattle.certdef.specs.Proofs.{subtour_cut, comb_cut, odd_cut};
ghost use Rattle.certdef.specs.Accepted.{cut_of};
ghost use Rattle.certdef.specs.Tests.{is_cut};
ghost use Rattle.certtests.specs.Listed.{to_one, pair_to_one, listed};

use cutform::{Cut, CutError};
use cyc::CitySet;
use std::alloc::{AllocError, Global};

/// The subtour cut of a set, if it is a cut.
pub fn subtour(alloc: Global, set: CitySet) -> Result<Option<Cut>, AllocError>
    ensures found { IfOk result (λ o. is_some o ≡ is_cut set.n (cut_of set.n (subtour_cut (to_one set.cities)))) }
    ensures value { IfOk result (λ o. IfSome o (λ c. listed c ≡ subtour_cut (to_one set.cities))) }
    ensures is_cut { IfOk result (λ o. IfSome o (λ c. IsCut set.n c)) }
{
    match Cut::subtour(alloc, set) {
        Ok(cut) => Ok(Some(cut)),
        Err(error) => none_for(error),
    }
}

/// The comb of a handle and its teeth, if it is a cut.
pub fn comb(alloc: Global, handle: CitySet, teeth: Vec<CitySet>) -> Result<Option<Cut>, AllocError>
    ensures found { IfOk result (λ o. is_some o
        ≡ is_cut handle.n (cut_of handle.n (comb_cut (to_one handle.cities) (map (λ t. to_one t.cities) teeth.items)))) }
    ensures value { IfOk result (λ o. IfSome o (λ c. listed c
        ≡ comb_cut (to_one handle.cities) (map (λ t. to_one t.cities) teeth.items))) }
    ensures is_cut { IfOk result (λ o. IfSome o (λ c. IsCut handle.n c)) }
{
    match Cut::comb(alloc, handle, teeth) {
        Ok(cut) => Ok(Some(cut)),
        Err(error) => none_for(error),
    }
}

/// The odd cut of a handle and pairs of cities from 0, if it is a cut.
pub fn odd(
    alloc: Global,
    handle: CitySet,
    pairs: Vec<(u32, u32)>,
) -> Result<Option<Cut>, AllocError>
    ensures found { IfOk result (λ o. is_some o
        ≡ is_cut handle.n (cut_of handle.n (odd_cut (to_one handle.cities) (map pair_to_one pairs.items)))) }
    ensures value { IfOk result (λ o. IfSome o (λ c. listed c
        ≡ odd_cut (to_one handle.cities) (map pair_to_one pairs.items))) }
    ensures is_cut { IfOk result (λ o. IfSome o (λ c. IsCut handle.n c)) }
{
    match Cut::odd(alloc, handle, pairs) {
        Ok(cut) => Ok(Some(cut)),
        Err(error) => none_for(error),
    }
}

/// No cut, unless it is for want of memory.
fn none_for(error: CutError) -> Result<Option<Cut>, AllocError>
    ensures { IfOk result (λ o. (o ≡ None) × (error ≢ CutError.NoMemory)) }
{
    match error {
        CutError::NoMemory => Err(AllocError),
        _ => Ok(None),
    }
}
