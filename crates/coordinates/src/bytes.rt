//! Bytes as a desk, from which they are read.
ghost use Rattle.std.specs.Prelude.{◌≡◌, ◌++◌, [], min, take, length, None};
ghost use Rattle.coordinates.specs.Bytes.{told_of};

use ports::{Desk, Failed, Inlet, Outlet};

/// The bytes of an instance's text that are left to read. Nothing can be bound or written, which is counted.
#[derive(Drop)]
pub(crate) struct Bytes<'a> {
    rest: &'a [u8],
    binds_refused: u64,
    writes_refused: u64,
}

impl<'a> Bytes<'a> {
    /// All of the bytes.
    pub(crate) fn new(bytes: &'a [u8]) -> Self
        ensures { told_of result ≡ record {
          instance = bytes.now;
          proof_in = [];
          text = [];
          proof_out = [];
          instance_path = None;
          proof_in_path = None;
          proof_out_path = None;
          instance_binds = 0;
          proof_in_binds = 0;
          proof_out_binds = 0;
        } }
    {
        Bytes {
            rest: bytes,
            binds_refused: 0,
            writes_refused: 0,
        }
    }

    /// Moves as many bytes as fit to the front of a buffer, and says how many.
    fn take(&mut self, buf: &mut [u8]) -> usize
        ensures count { result ≡ min (length buf.old) (length self.old.rest.now) }
        ensures moved { self.old.rest.now ≡ take result buf.new ++ self.new.rest.now }
        ensures binds { self.new.binds_refused ≡ self.old.binds_refused }
        ensures writes { self.new.writes_refused ≡ self.old.writes_refused }
    {
        let count = buf.len().min(self.rest.len());
        let (front, rest) = self.rest.split_at(count);
        buf[..count].copy_from_slice(front);
        self.rest = rest;
        count
    }
}

impl<'a> Desk for Bytes<'a> {
    ghost use Rattle.std.specs.Prelude.{Some};
    ghost use Rattle.coordinates.specs.Bytes.{told_of};

    ghost told = { λ bytes. Some (told_of bytes) };

    ghost read_faults = { λ bytes. bytes.binds_refused };

    ghost write_faults = { λ bytes. bytes.writes_refused };

    fn bind_in(&mut self, _from: Inlet, _path: &str) -> Result<(), Failed> {
        self.binds_refused = self.binds_refused.saturating_add(1);
        Err(Failed)
    }

    fn bind_out(&mut self, _to: Outlet, _path: &str) -> Result<(), Failed> {
        self.writes_refused = self.writes_refused.saturating_add(1);
        Err(Failed)
    }

    fn read(&mut self, from: Inlet, buf: &mut [u8]) -> Result<usize, Failed> {
        match from {
            Inlet::Instance => Ok(self.take(buf)),
            Inlet::Proof => Ok(0),
        }
    }

    fn write(&mut self, _to: Outlet, _piece: &[u8]) -> Result<usize, Failed> {
        self.writes_refused = self.writes_refused.saturating_add(1);
        Err(Failed)
    }
}
