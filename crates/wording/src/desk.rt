//! A desk around another, that keeps what was printed last.
ghost use Rattle.std.specs.Prelude.{◌≡◌, ◌<◌, ◌≤◌, take, length, IfOk, OnOk, OnErr, IsErr};

use crate::last_line::LastLine;
use ports::{Desk, Failed, Inlet, Outlet};
use std::alloc::{AllocError, Global};

/// A desk that passes each call on to another one, and keeps a front of the last line that [`Outlet::Text`] took: 256 bytes of it at most.
///
/// It tells what the other tells, and fails where the other does. It takes memory when it is made, and none later.
#[derive(Drop)]
pub struct KeepingDesk<D: Desk + Drop> {
    desk: D,
    last_line: LastLine,
}

impl<D: Desk + Drop> KeepingDesk<D> {
    ghost use Rattle.wording.specs.LastLine.{nothing};
    ghost use Rattle.wording.specs.Desks.{inner_of, printed_by};

    /// A desk around this one. Nothing is kept yet.
    pub fn new(alloc: Global, desk: D) -> Result<KeepingDesk<D>, AllocError>
        ensures inner { IfOk result (λ keeping. inner_of keeping ≡ desk) }
        ensures printed { IfOk result (λ keeping. printed_by keeping ≡ nothing) }
    {
        Ok(KeepingDesk {
            desk,
            last_line: LastLine::new(alloc)?,
        })
    }

    /// The desk that the calls are passed on to.
    pub fn inner(&self) -> &D
        ensures { result.now ≡ inner_of self.now }
    {
        &self.desk
    }

    /// What is kept of the last line that was printed, with the line's end if it reaches to it.
    pub fn last_line(&self) -> &[u8]
        ensures { result.now ≡ (printed_by self.now).bytes }
    {
        self.last_line.bytes()
    }
}

impl<D: Desk + Drop> Desk for KeepingDesk<D> {
    ghost use Rattle.ports.specs.Outside.{BothTell, WhereTold, Cause};
    ghost use Rattle.ports.specs.Desk.{Takes, Adds, IsAtEnd, with_inlet_path, with_outlet_path};
    ghost use Rattle.wording.specs.Desks.{inner_of, printed_by, with_printed};

    ghost told = { λ keeping. D.told (inner_of keeping) };

    ghost read_faults = { λ keeping. D.read_faults (inner_of keeping) };

    ghost write_faults = { λ keeping. D.write_faults (inner_of keeping) };

    fn bind_in(&mut self, from: Inlet, path: &str) -> Result<(), Failed>
        ensures bound { OnOk result (BothTell (λ t u. u ≡ with_inlet_path from path.now t) (D.told (inner_of self.old)) (D.told (inner_of self.new))) }
        ensures err { OnErr result (D.told (inner_of self.new) ≡ D.told (inner_of self.old)) }
        ensures cause { Cause (IsErr result) (D.read_faults (inner_of self.old)) (D.read_faults (inner_of self.new)) }
        ensures same { D.write_faults (inner_of self.new) ≡ D.write_faults (inner_of self.old) }
        ensures printed { printed_by self.new ≡ printed_by self.old }
    {
        self.desk.bind_in(from, path)
    }

    fn bind_out(&mut self, to: Outlet, path: &str) -> Result<(), Failed>
        requires { to ≡ Outlet.Proof }
        ensures bound { OnOk result (BothTell (λ t u. u ≡ with_outlet_path path.now t) (D.told (inner_of self.old)) (D.told (inner_of self.new))) }
        ensures err { OnErr result (D.told (inner_of self.new) ≡ D.told (inner_of self.old)) }
        ensures cause { Cause (IsErr result) (D.write_faults (inner_of self.old)) (D.write_faults (inner_of self.new)) }
        ensures same { D.read_faults (inner_of self.new) ≡ D.read_faults (inner_of self.old) }
        ensures printed { printed_by self.new ≡ printed_by self.old }
    {
        self.desk.bind_out(to, path)
    }

    fn read(&mut self, from: Inlet, buf: &mut [u8]) -> Result<usize, Failed>
        ensures within { IfOk result (λ k. k ≤ length buf.old) }
        ensures bytes { IfOk result (λ k. BothTell (Takes from (take k buf.new)) (D.told (inner_of self.old)) (D.told (inner_of self.new))) }
        ensures end { IfOk result (λ k. k ≡ 0 → 0 < length buf.old → WhereTold (IsAtEnd from) (D.told (inner_of self.old))) }
        ensures err { OnErr result (D.told (inner_of self.new) ≡ D.told (inner_of self.old)) }
        ensures cause { Cause (IsErr result) (D.read_faults (inner_of self.old)) (D.read_faults (inner_of self.new)) }
        ensures same { D.write_faults (inner_of self.new) ≡ D.write_faults (inner_of self.old) }
        ensures printed { printed_by self.new ≡ printed_by self.old }
    {
        self.desk.read(from, buf)
    }

    fn write(&mut self, to: Outlet, piece: &[u8]) -> Result<usize, Failed>
        ensures within { IfOk result (λ k. k ≤ length piece.now) }
        ensures some { IfOk result (λ k. 0 < length piece.now → 0 < k) }
        ensures bytes { IfOk result (λ k. BothTell (Adds to (take k piece.now)) (D.told (inner_of self.old)) (D.told (inner_of self.new))) }
        ensures err { OnErr result (D.told (inner_of self.new) ≡ D.told (inner_of self.old)) }
        ensures cause { Cause (IsErr result) (D.write_faults (inner_of self.old)) (D.write_faults (inner_of self.new)) }
        ensures same { D.read_faults (inner_of self.new) ≡ D.read_faults (inner_of self.old) }

        // What was printed is kept, and nothing else.
        ensures printed { IfOk result (λ k. printed_by self.new ≡ with_printed to (take k piece.now) (printed_by self.old)) }
        ensures unprinted { OnErr result (printed_by self.new ≡ printed_by self.old) }
    {
        let count = self.desk.write(to, piece)?;
        if to == Outlet::Text {
            self.last_line.add(&piece[..count]);
        }
        Ok(count)
    }
}
