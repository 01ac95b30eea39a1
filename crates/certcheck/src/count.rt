//! How far a text was read, in lines and bytes.
ghost use Rattle.std.specs.Prelude.{◌≡◌, ◌+◌, ◌<◌, ◌≤◌, ◌^◌};

/// The number of the line that is begun, and the bytes read.
#[derive(Clone, Copy, Debug)]
pub(crate) struct Count {
    at: u64,
    read: u64,
    ghost lines: { at ≤ read + 1 },
    ghost few: { read ≤ 2 ^ 60 },
}

impl Count {
    pub(crate) fn new() -> Self
        ensures at { result.at ≡ 1 }
        ensures read { result.read ≡ 0 }
    {
        Count { at: 1, read: 0 }
    }

    pub(crate) fn at(self) -> u64
        ensures { result ≡ self.at }
    {
        self.at
    }

    pub(crate) fn read(self) -> u64
        ensures { result ≡ self.read }
    {
        self.read
    }

    /// After bytes of the line that is begun.
    pub(crate) fn with_bytes(self, bytes: usize) -> Self
        requires { self.read + bytes ≤ 2 ^ 60 }
        ensures at { result.at ≡ self.at }
        ensures read { result.read ≡ self.read + bytes }
    {
        Count {
            at: self.at,
            read: self.read + bytes as u64,
        }
    }

    /// After the byte that ends a line.
    pub(crate) fn with_line_end(self) -> Self
        requires { self.read < 2 ^ 60 }
        ensures at { result.at ≡ self.at + 1 }
        ensures read { result.read ≡ self.read + 1 }
    {
        Count {
            at: self.at + 1,
            read: self.read + 1,
        }
    }
}
