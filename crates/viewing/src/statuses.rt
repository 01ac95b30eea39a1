//! How a run of the viewer ends.
ghost use Rattle.std.specs.Prelude.{◌≡◌};
ghost use Rattle.viewing.specs.Codes.{code_of, view_status};

use verification::VerifyStatus;

/// How a run of the viewer ends, with the program's exit status.
#[derive(Clone, Copy, Debug, PartialEq, Eq)]
pub enum ViewStatus {
    /// The picture is written.
    Drawn = 0,
    /// The words are not of the viewer's form.
    Usage = 2,
    /// The bytes of the instance are not an instance's text.
    BadInstance = 3,
    /// The bytes of the text are no proof and no restart body for the instance; the first refusal and its line were printed.
    Refused = 4,
    /// The instance or the text could not be opened or read.
    ReadFault = 6,
    /// The picture or what is printed could not be written.
    WriteFault = 7,
    /// Memory ran out.
    NoMemory = 9,
}

impl ViewStatus {
    /// The exit status.
    pub fn code(self) -> u8
        ensures { result ≡ code_of self }
    {
        self as u8
    }
}

/// The status of an instance whose refusal was to be printed.
pub(crate) fn status_of(status: VerifyStatus) -> ViewStatus
    ensures { result ≡ view_status status }
{
    match status {
        VerifyStatus::BadInstance => ViewStatus::BadInstance,
        VerifyStatus::WriteFault => ViewStatus::WriteFault,
        _ => ViewStatus::NoMemory,
    }
}
