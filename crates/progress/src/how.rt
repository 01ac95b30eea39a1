//! Where and when progress is told.
ghost use Rattle.std.specs.Prelude.{◌≡◌, Some, None};
ghost use Rattle.progress.specs.Lines.{how_of};

use std::env;
use std::rt::Env;

/// How a program tells how far it is.
#[derive(Clone, Copy, Debug, PartialEq, Eq)]
pub enum How {
    /// Not at all.
    Silent,
    /// By one line that stays in its place, as on a terminal.
    InPlace,
    /// By line after line.
    Lines,
}

impl How {
    /// How many seconds pass between two lines, at least; `None` where there are none.
    pub fn seconds(self) -> Option<u64>
        ensures silent { self ≡ How.Silent → result ≡ None }
        ensures in_place { self ≡ How.InPlace → result ≡ Some 1 }
        ensures lines { self ≡ How.Lines → result ≡ Some 30 }
    {
        match self {
            How::Silent => None,
            How::InPlace => Some(1),
            How::Lines => Some(30),
        }
    }
}

/// How a program tells how far it is: in place where standard error is a terminal; else in lines where that was asked for.
pub fn choose(is_terminal: bool, is_asked: bool) -> How
    ensures { result ≡ how_of is_terminal is_asked }
{
    if is_terminal {
        How::InPlace
    } else if is_asked {
        How::Lines
    } else {
        How::Silent
    }
}

/// Whether the environment asks for lines where standard error is no terminal: by a variable `TSPC_PROGRESS` that is not empty.
pub fn is_asked<R: Env + Alloc>(rt: &R) -> bool {
    match env::var(rt, "TSPC_PROGRESS") {
        Ok(value) => !value.is_empty(),
        Err(_) => false,
    }
}
