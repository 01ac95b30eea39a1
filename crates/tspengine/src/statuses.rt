//! How a run ends.
ghost use Rattle.std.specs.Prelude.{◌≡◌};
ghost use Rattle.tspengine.specs.Codes.{code_of};
ghost use Rattle.tspengine.specs.Statuses.{status_of};

use std::alloc::AllocError;
use verification::VerifyStatus;

/// How a run ends.
#[derive(Clone, Copy, Debug, PartialEq, Eq)]
pub enum Status {
    /// A shortest tour was printed, and its proof written.
    Optimal,
    /// A tour was printed with a bound that is below its length by no more than the gap: no tour is shorter than the bound, and the proof
    /// of that is written.
    Within,
    /// The proof is accepted, and no tour is shorter than the printed length.
    Verified,
    /// The proof is accepted, and no tour is shorter than the printed bound, which is below the printed length.
    VerifiedWithin,
    /// A tour of the instance was printed.
    Toured,
    /// The proof for a drawn instance was written, and its length printed.
    Benched,
    /// A lower bound was printed, and its certificate written.
    Bounded,
    /// The certificate is accepted, and no tour is shorter than the printed bound.
    Checked,
    /// A tape was played to its end, and a line printed to each of its events.
    Replayed,
    /// The words are not of a command's form.
    Usage,
    /// The bytes of the instance are not an instance's text.
    BadInstance,
    /// A search was to go on, and the slots hold no body to go on from; the first refusal and its line were printed.
    BadRestart,
    /// The bytes of the proof are no proof for the instance; the first refusal and its line were printed.
    Refused,
    /// The bytes of the certificate prove no bound for the instance; the first refusal and its line were printed.
    BoundRefused,
    /// The bytes of the tape are not a tape's; lines were printed to the events before its first fault, and the fault with its frame.
    BadTape,
    /// The budget is spent and a node is open; the slots hold a body to go on from.
    Stopped,
    /// The budget is spent and a node is open; the body for a drawn instance was written.
    BenchStopped,
    /// The instance, or the proof to be verified, could not be opened or read.
    ReadFault,
    /// The proof could not be opened, or it or the text not written.
    WriteFault,
    /// The slots could not be bound, read, written or synced.
    StoreFault,
    /// Memory ran out.
    NoMemory,
}

impl Status {
    /// The exit status.
    pub fn code(self) -> u8
        ensures { result ≡ code_of self }
    {
        match self {
            Status::Optimal
            | Status::Verified
            | Status::Toured
            | Status::Benched
            | Status::Bounded
            | Status::Checked
            | Status::Replayed => 0,
            Status::Usage => 2,
            Status::BadInstance => 3,
            Status::BadRestart | Status::Refused | Status::BoundRefused | Status::BadTape => 4,
            Status::Stopped | Status::BenchStopped => 5,
            Status::ReadFault => 6,
            Status::WriteFault => 7,
            Status::StoreFault => 8,
            Status::NoMemory => 9,
            Status::Within | Status::VerifiedWithin => 10,
        }
    }
}

/// The status of a run that ends as the verifier does.
pub(crate) fn status_of(status: VerifyStatus) -> Status
    ensures { result ≡ status_of status }
{
    match status {
        VerifyStatus::Verified => Status::Verified,
        VerifyStatus::Within => Status::VerifiedWithin,
        VerifyStatus::Usage => Status::Usage,
        VerifyStatus::BadInstance => Status::BadInstance,
        VerifyStatus::Refused => Status::Refused,
        VerifyStatus::ReadFault => Status::ReadFault,
        VerifyStatus::WriteFault => Status::WriteFault,
        VerifyStatus::NoMemory => Status::NoMemory,
    }
}

impl From<AllocError> for Status {
    ghost use Rattle.tspengine.specs.declared.statuses.Status.TheVariants.{NoMemory};

    ghost from_gives = { λ _ s. s ≡ NoMemory };

    fn from(_: AllocError) -> Self {
        Status::NoMemory
    }
}
