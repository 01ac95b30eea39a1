//! What a desk is: two inlets to read from, two outlets to write to.
ghost use Rattle.std.specs.Prelude.{◌≡◌, ℕ, ◌<◌, ◌≤◌, take, length, Some, Option, IfOk, OnOk, OnErr, IsErr};
ghost use Rattle.ports.specs.Outside.{BothTell, WhereTold, Cause};
ghost use Rattle.ports.specs.Desk.{Told, Takes, Adds, IsAtEnd, with_inlet_path, with_outlet_path};

use std::error::Error;
use std::fmt;

/// What a desk is read from.
#[derive(Clone, Copy, Debug, PartialEq, Eq)]
pub enum Inlet {
    Instance,
    Proof,
}

/// What a desk is written to. `Text` is standard output.
#[derive(Clone, Copy, Debug, PartialEq, Eq)]
pub enum Outlet {
    Text,
    Proof,
}

/// The outside failed.
#[derive(Clone, Copy, Debug, PartialEq, Eq)]
pub struct Failed;

impl fmt::Display for Failed {
    fn fmt<W: fmt::Write>(&self, f: &mut fmt::Formatter<W>) -> fmt::Result {
        write!(f, "the outside failed")
    }
}

impl Error for Failed {}

/// A place with two inlets and two outlets.
///
/// A desk may tell what it holds (`told`); one that does not is bound by its counts of faults alone.
/// No call changes whether it tells. A call that fails changes nothing that is told, and one that succeeds
/// changes only what it names. The counts never fall, and a call fails only where its count rose.
pub trait Desk {
    /// The bytes left for each inlet, the bytes taken by each outlet, the paths last bound and how often each was
    /// bound, if they are told.
    ghost told: { Self → Option Told };

    /// How often `bind_in` and `read` have failed; a count at 2^64 - 1 stays there.
    ghost read_faults: { Self → ℕ };

    /// How often `bind_out` and `write` have failed; a count at 2^64 - 1 stays there.
    ghost write_faults: { Self → ℕ };

    /// Ties an inlet to a path, and counts that; a bind that fails changes nothing that is told.
    fn bind_in(&mut self, from: Inlet, path: &str) -> Result<(), Failed>
        ensures bound { OnOk result (BothTell (λ t u. u ≡ with_inlet_path from path.now t) (told self.old) (told self.new)) }
        ensures err { OnErr result (told self.new ≡ told self.old) }
        ensures cause { Cause (IsErr result) (read_faults self.old) (read_faults self.new) }
        ensures same { write_faults self.new ≡ write_faults self.old };

    /// Ties an outlet to a path, and counts that; a bind that fails changes nothing that is told. `Outlet::Text` is
    /// never bound.
    fn bind_out(&mut self, to: Outlet, path: &str) -> Result<(), Failed>
        requires { to ≡ Outlet.Proof }
        ensures bound { OnOk result (BothTell (λ t u. u ≡ with_outlet_path path.now t) (told self.old) (told self.new)) }
        ensures err { OnErr result (told self.new ≡ told self.old) }
        ensures cause { Cause (IsErr result) (write_faults self.old) (write_faults self.new) }
        ensures same { read_faults self.new ≡ read_faults self.old };

    /// Reads the next bytes of an inlet to the front of `buf`, and says how many. Into a buffer that is not
    /// empty, 0 comes only at the inlet's end.
    fn read(&mut self, from: Inlet, buf: &mut [u8]) -> Result<usize, Failed>
        ensures within { IfOk result (λ k. k ≤ length buf.old) }
        ensures bytes { IfOk result (λ k. BothTell (Takes from (take k buf.new)) (told self.old) (told self.new)) }
        ensures end { IfOk result (λ k. k ≡ 0 → 0 < length buf.old → WhereTold (IsAtEnd from) (told self.old)) }
        ensures err { OnErr result (told self.new ≡ told self.old) }
        ensures cause { Cause (IsErr result) (read_faults self.old) (read_faults self.new) }
        ensures same { write_faults self.new ≡ write_faults self.old };

    /// Writes a front of `piece` to an outlet, and says how long it was: at least one byte where there is one.
    fn write(&mut self, to: Outlet, piece: &[u8]) -> Result<usize, Failed>
        ensures within { IfOk result (λ k. k ≤ length piece.now) }
        ensures some { IfOk result (λ k. 0 < length piece.now → 0 < k) }
        ensures bytes { IfOk result (λ k. BothTell (Adds to (take k piece.now)) (told self.old) (told self.new)) }
        ensures err { OnErr result (told self.new ≡ told self.old) }
        ensures cause { Cause (IsErr result) (write_faults self.old) (write_faults self.new) }
        ensures same { read_faults self.new ≡ read_faults self.old };
}
