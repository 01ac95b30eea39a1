//! Closings that come with their bounds, so that who takes one compares and does not sum.

ghost use Rattle.std.specs.Prelude.{◌≡◌};
ghost use Rattle.std.specs.Arc.{arc_value};
ghost use Rattle.tspdef.specs.Closings as defs;
ghost use Rattle.tspdef.specs.Bounds as bounds;
ghost use Rattle.pricer.specs.Priced.{IsPriced};
ghost use Rattle.pricer.specs.Pricings.{IsPricing};

use crate::bounds::bound;
use crate::closing::Closing;
use crate::fitting::{Fit, fits};
use branchx::Path;
use std::alloc::Global;
use std::marker::Model;
use std::sync::Arc;
use tspinst::Instance;

/// A closing that fits at the end of a path, with its bound there. It was summed when the value was made, and its type keeps that
/// it is the bound for its own instance, path and closing. Contracts see these three.
#[derive(Drop)]
pub struct Priced {
    instance: Arc<Instance, Global>,
    path: Path,
    closing: Closing,
    bound: i128,
}

impl Model for Priced {
    ghost use Rattle.pricer.specs.Priced.{PricedClosing};

    ghost Value = { PricedClosing };

    ghost use Rattle.pricer.specs.PricedInside.{priced_of, IsWellPriced};

    ghost view = { priced_of };

    ghost invariant = { IsWellPriced };
}

/// A closing with its bound, or what is wrong with it.
#[derive(Drop)]
pub enum Pricing {
    Priced(Priced),
    /// The least that is wrong, from 1 to 4, as `Fit` tells it.
    Misfit(u32),
}

impl Priced {
    /// Prices a closing at the end of a path, without memory: O(n^2).
    pub fn new(instance: Arc<Instance, Global>, path: Path, closing: Closing) -> Pricing
        requires { path.n ≡ (arc_value instance).n }
        ensures { IsPricing (arc_value instance) path closing result }
    {
        match fits(&instance, &path, &closing) {
            Fit::Misfit(k) => Pricing::Misfit(k),
            Fit::Fits => {
                let bound = bound(&instance, &path, &closing);
                Pricing::Priced(Priced {
                    instance,
                    path,
                    closing,
                    bound,
                })
            }
        }
    }

    /// The bound, in units: no tour that obeys the path is shorter.
    pub fn bound(&self) -> i128
        ensures { result ≡ bounds.bound self.now.instance self.now.path.conditions self.now.closing }
    {
        self.bound
    }

    /// The instance for which it was priced.
    pub fn instance(&self) -> &Instance
        ensures { result.now ≡ self.now.instance }
    {
        &self.instance
    }

    /// The path at whose end it was priced. The closing fits there.
    pub fn path(&self) -> &Path
        ensures value { result.now ≡ self.now.path }
        ensures fits { IsPriced self.now }
    {
        &self.path
    }

    /// The closing, given back.
    pub fn into_closing(self) -> Closing
        ensures { result ≡ self.closing }
    {
        let Priced { closing, .. } = self;
        closing
    }
}
