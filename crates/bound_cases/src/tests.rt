//! The worked values, and one call of each public function.

mod ascents;
mod certificates;
mod refusals;
mod values;

ghost use Rattle.std.specs.Prelude.{◌≡◌, IfOk};

use distx::{Kind, Point};
use onetree::{Answer, WriteError, ascend, check, write};
use ports::{MemDesk, Room};
use std::alloc::Global;
use std::test::Fail;
use tspinst::{Instance, from_points, read};

/// A square of side 10.
fn square(alloc: Global) -> Result<Instance, Fail>
    ensures { IfOk result (λ i. i.n ≡ 4) }
{
    let points = [
        Point::new(0, 0),
        Point::new(0, 10),
        Point::new(10, 10),
        Point::new(10, 0),
    ];
    Ok(from_points(alloc, Kind::Euc, &points)?)
}

/// The prism: two triangles of sides 1, and three edges of length 0 between them.
fn prism(alloc: Global) -> Result<Instance, Fail> {
    let text =
        b"NAME : prism\nTYPE : TSP\nDIMENSION : 6\nEDGE_WEIGHT_TYPE : EXPLICIT\nEDGE_WEIGHT_FORMAT : UPPER_ROW\nEDGE_WEIGHT_SECTION\n1 1 0 100 100\n1 100 0 100\n100 100 0\n1 1\n1\nEOF\n";
    let room = Room {
        bytes: 0,
        paths: 0,
        calls: 1 << 12,
    };
    let mut desk = MemDesk::new(alloc, text, b"", 65_536, 1, &[], &[], &[], room)?;
    match read(alloc, &mut desk) {
        Ok(instance) => Ok(instance),
        Err(_) => Err("no instance".into()),
    }
}

/// The instance of some points.
fn of_points(alloc: Global, points: &[Point]) -> Result<Instance, Fail> {
    if points.len() < 3 || 2000 < points.len() {
        return Err("too few cities, or too many".into());
    }
    Ok(from_points(alloc, Kind::Euc, points)?)
}

/// A desk with these bytes for its proof.
fn desk(
    alloc: Global,
    proof: &[u8],
    bad_reads: &[u64],
    bad_writes: &[u64],
) -> Result<MemDesk, Fail> {
    let room = Room {
        bytes: 1 << 16,
        paths: 0,
        calls: 1 << 12,
    };
    Ok(MemDesk::new(alloc, b"", proof, 7, 11, &[], bad_reads, bad_writes, room)?)
}

/// The answer about some bytes.
fn answer_of(alloc: Global, instance: &Instance, bytes: &[u8]) -> Result<Answer, Fail> {
    let mut desk = desk(alloc, bytes, &[], &[])?;
    match check(alloc, instance, &mut desk) {
        Ok(answer) => Ok(answer),
        Err(_) => Err("no answer".into()),
    }
}

/// The bound that is written to a desk for the duals that so many steps lead to.
fn written(
    alloc: Global,
    desk: &mut MemDesk,
    instance: &Instance,
    steps: u32,
) -> Result<Result<u64, WriteError>, Fail> {
    let duals = ascend(alloc, instance, steps)?;
    Ok(write(alloc, desk, instance, &duals))
}

/// The certificate that so many steps lead to, and its bound.
fn certificate_of(alloc: Global, instance: &Instance, steps: u32) -> Result<(u64, Vec<u8>), Fail> {
    let mut desk = desk(alloc, b"", &[], &[])?;
    match written(alloc, &mut desk, instance, steps)? {
        Ok(bound) => Ok((bound, Vec::from_slice(alloc, desk.proof())?)),
        Err(_) => Err("not written".into()),
    }
}
