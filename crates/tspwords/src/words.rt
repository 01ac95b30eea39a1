//! Commands.
ghost use Rattle.std.specs.Prelude.{◌≡◌};

use std::alloc::AllocError;
use std::error::Error;
use std::fmt;

/// A call of `solve`: the paths of the instance, of the proof and of the restart slots; the greatest number of nodes to
/// settle, from 0 to 65,536; the seed of the random choices; whether to go on from what the restart slots hold; the gap, from
/// 0 to 2^42, by which the tour may be longer than a shortest one; the number of grunts, from 1 to 64, that work at the same
/// time; and how their reports go astray: the number of leases, from 0 to 65,536, whose reports are lost, and whether each
/// other report comes twice, or late.
#[derive(Debug, Drop)]
pub struct Solve {
    pub instance: String,
    pub proof: String,
    pub restart: String,
    pub budget: u32,
    pub seed: u64,
    pub resume: bool,
    pub gap: u64,
    pub grunts: u32,
    pub lose: u32,
    pub twice: bool,
    pub late: bool,
}

/// A call of `verify`, or of the verifier: the paths of the instance and of the proof.
#[derive(Debug, Drop)]
pub struct VerifyWords {
    pub instance: String,
    pub proof: String,
}

/// A call of `tour`: the path of the instance and the seed of the random choices.
#[derive(Debug, Drop)]
pub struct TourWords {
    pub instance: String,
    pub seed: u64,
}

/// A call of `bench`: the seed of the instance that is made, from 0 to 2^64 - 1; the number of its cities, from 3 to 2,000;
/// the greatest number of nodes to settle, from 0 to 65,536; and the path of what is written.
#[derive(Debug, Drop)]
pub struct BenchWords {
    pub seed: u64,
    pub cities: u32,
    pub budget: u32,
    pub out: String,
}

/// A call of `replay`: the paths of the instance and of the tape; the greatest number of nodes to settle, from 0 to 65,536;
/// and the number of grunts, from 1 to 64.
#[derive(Debug, Drop)]
pub struct ReplayWords {
    pub instance: String,
    pub tape: String,
    pub budget: u32,
    pub grunts: u32,
}

/// A call of `bound`: the paths of the instance and of the certificate that is written, and the number of steps of the ascent,
/// from 0 to 10,000.
#[derive(Debug, Drop)]
pub struct BoundWords {
    pub instance: String,
    pub cert: String,
    pub steps: u32,
}

/// A call of `checkbound`: the paths of the instance and of the certificate.
#[derive(Debug, Drop)]
pub struct CheckboundWords {
    pub instance: String,
    pub cert: String,
}

/// A command of the solver.
#[derive(Debug, Drop)]
pub enum Command {
    /// `solve INSTANCE PROOF RESTART [--budget N] [--seed S] [--resume] [--gap G] [--grunts K] [--lose N] [--twice] [--late]`
    Solve(Solve),
    /// `verify INSTANCE PROOF`
    Verify(VerifyWords),
    /// `tour INSTANCE [--seed S]`
    Tour(TourWords),
    /// `bench SEED N BUDGET OUT`
    Bench(BenchWords),
    /// `replay INSTANCE TAPE [--budget N] [--grunts K]`
    Replay(ReplayWords),
    /// `bound INSTANCE CERT [--steps K]`
    Bound(BoundWords),
    /// `checkbound INSTANCE CERT`
    Checkbound(CheckboundWords),
}

/// Why words were not read.
#[derive(Clone, Copy, Debug, PartialEq, Eq)]
pub enum WordsError {
    /// They are not of a command's form, or ask for help.
    Usage,
    /// Memory ran out.
    NoMemory,
}

impl fmt::Display for WordsError {
    fn fmt<W: fmt::Write>(&self, f: &mut fmt::Formatter<W>) -> fmt::Result {
        match self {
            WordsError::Usage => write!(f, "not a command"),
            WordsError::NoMemory => write!(f, "out of memory"),
        }
    }
}

impl Error for WordsError {}

impl From<AllocError> for WordsError {
    ghost use Rattle.tspwords.specs.declared.words.WordsError.TheVariants.{NoMemory};

    ghost from_gives = { λ _ e. e ≡ NoMemory };

    fn from(_: AllocError) -> Self {
        WordsError::NoMemory
    }
}
