//! An instance with its points.
ghost use Rattle.std.specs.Prelude.{◌≡◌, IfOk, IfSome, IsTrue};
ghost use Rattle.tspinst.specs.Texts.{InstanceText, BadInstanceText};
ghost use Rattle.tspinst.specs.Refusals.{number_of, line_of, extras_of};
ghost use Rattle.coordinates.specs.Maps.{IsMapOf, IfRefused};

use crate::bytes::Bytes;
use crate::points::{Section, find};
use distx::Point;
use std::alloc::{AllocError, Global};
use std::error::Error;
use std::fmt;
use tspinst::{FixError, Instance, Refusal, from_points};

/// An instance, and the point of each of its cities, if it has points.
#[derive(Drop)]
pub struct Mapped {
    pub instance: Instance,
    pub points: Option<Vec<Point>>,
}

/// Why there is no instance.
#[derive(Clone, Copy, Debug, PartialEq, Eq)]
pub enum ReadError {
    /// The bytes are no instance's text: their first refusal.
    Refused(Refusal),
    NoMemory,
}

impl fmt::Display for ReadError {
    fn fmt<W: fmt::Write>(&self, f: &mut fmt::Formatter<W>) -> fmt::Result {
        match self {
            ReadError::Refused(refusal) => write!(f, "refused: {refusal}"),
            ReadError::NoMemory => write!(f, "out of memory"),
        }
    }
}

impl Error for ReadError {}

impl From<AllocError> for ReadError {
    ghost use Rattle.coordinates.specs.declared.reading.ReadError.TheVariants.{NoMemory};

    ghost from_gives = { λ _ e. e ≡ NoMemory };

    fn from(_: AllocError) -> Self {
        ReadError::NoMemory
    }
}

/// Whether the distances of an instance are those of a section's points, of which there is one a city.
fn agrees(alloc: Global, instance: &Instance, section: &Section) -> Result<bool, AllocError>
    ensures { IfOk result (λ yes. IsTrue yes → IsMapOf instance.now section.now.points.items) }
{
    let n = instance.n();
    if section.points.len() != n as usize {
        return Ok(false);
    }
    let bare = from_points(alloc, section.kind, &section.points)?;
    match bare.fix(alloc, instance.fixed()) {
        Ok(other) => Ok(other == *instance),
        Err(FixError::NoMemory) => Err(AllocError),
        Err(FixError::BadFixed { .. }) => Ok(false),
    }
}

/// The points of an instance, in its text.
fn points_of(
    alloc: Global,
    instance: &Instance,
    bytes: &[u8],
) -> Result<Option<Vec<Point>>, AllocError>
    ensures { IfOk result (λ points. IfSome points (λ ps. IsMapOf instance.now ps.items)) }
{
    let n = instance.n();
    let Some(section) = find(alloc, bytes, n as usize)? else {
        return Ok(None);
    };
    if agrees(alloc, instance, &section)? {
        Ok(Some(section.points))
    } else {
        Ok(None)
    }
}

/// Reads the instance whose text the bytes are, and its points in the same text.
///
/// It takes twice the time and the memory of reading the instance alone.
///
/// # Errors
///
/// `Refused` with the first refusal of the text, `NoMemory` where memory ran out.
pub fn read(alloc: Global, bytes: &[u8]) -> Result<Mapped, ReadError>
    // The bytes are the text of this instance.
    ensures instance { IfOk result (λ m. InstanceText bytes.now m.instance) }
    // Its distances are those of its points, by one of the rules.
    ensures points { IfOk result (λ m. IfSome m.points (λ ps. IsMapOf m.instance ps.items)) }
    // The bytes are the text of no instance, and this is their first refusal.
    ensures refused { IfRefused result (λ r. BadInstanceText bytes.now (number_of r) (line_of r) (extras_of r)) }
{
    match tspinst::read(alloc, &mut Bytes::new(bytes)) {
        Ok(instance) => {
            let points = points_of(alloc, &instance, bytes)?;
            Ok(Mapped { instance, points })
        }
        Err(tspinst::ReadError::Refused(refusal)) => Err(ReadError::Refused(refusal)),
        // reading bytes does not fail, and nothing is bound
        Err(tspinst::ReadError::Failed) => Err(ReadError::NoMemory),
        Err(tspinst::ReadError::NoMemory) => Err(ReadError::NoMemory),
    }
}
