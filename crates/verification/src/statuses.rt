//! How a run of the verifier ends.
ghost use Rattle.std.specs.Prelude.{◌≡◌};
ghost use Rattle.verification.specs.Codes.{code_of};

/// How a run of the verifier ends, with the program's exit status.
#[derive(Clone, Copy, Debug, PartialEq, Eq)]
pub enum VerifyStatus {
    /// The proof is accepted, and no tour is shorter than the printed length.
    Verified = 0,
    /// The words are not of the verifier's form.
    Usage = 2,
    /// The bytes of the instance are not an instance's text.
    BadInstance = 3,
    /// The bytes of the proof are no proof for the instance; the first refusal and its line were printed.
    Refused = 4,
    /// The instance or the proof could not be opened or read.
    ReadFault = 6,
    /// The text could not be written.
    WriteFault = 7,
    /// Memory ran out.
    NoMemory = 9,
    /// The proof is accepted, and no tour is shorter than the printed bound, which is below the printed length.
    Within = 10,
}

impl VerifyStatus {
    /// The exit status.
    pub fn code(self) -> u8
        ensures { result ≡ code_of self }
    {
        self as u8
    }
}
