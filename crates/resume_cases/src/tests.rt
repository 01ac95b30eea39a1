//! Bodies that are read, and bodies that are refused.

mod refused;
mod resumed;

use cyc::Tour;
use distx::{Kind, Point};
use resume_form::{ReadError, read};
use std::alloc::Global;
use std::test::Fail;
use treebook::Tree;
use tspinst::{Instance, from_points};

/// The lines before the tree, for the square.
pub(crate) const HEAD: &str = "TSPCERT 1\nN 4\nLENGTH 40\nTOUR 1 2 3 4\nCUTS 0\n";

/// A leaf that suffices for 40, and for no more.
pub(crate) const DUALS: &str = "L 4 0 0\nP 1 5242880\nP 2 5242880\nP 3 5242880\nP 4 5242880\n";

/// The same head, with a bound of 30.
pub(crate) const HEAD_OF_30: &str = "TSPCERT 2\nN 4\nLENGTH 40\nBOUND 30\nTOUR 1 2 3 4\nCUTS 0\n";

/// A leaf that suffices for 30, and for no more.
pub(crate) const DUALS_OF_30: &str =
    "L 4 0 0\nP 1 3932160\nP 2 3932160\nP 3 3932160\nP 4 3932160\n";

/// The corners of a square of side 10.
pub(crate) fn square(alloc: Global) -> Result<Instance, Fail> {
    let points = [
        Point::new(0, 0),
        Point::new(0, 10),
        Point::new(10, 10),
        Point::new(10, 0),
    ];
    Ok(from_points(alloc, Kind::Euc, &points)?)
}

/// The tree and the tour of a body for the square.
pub(crate) fn taken(
    alloc: Global,
    text: &str,
    budget: u32,
    gap: u64,
) -> Result<(Tree, Tour), Fail> {
    match read(alloc, &square(alloc)?, text.as_bytes(), budget, gap) {
        Ok(taken) => Ok(taken),
        Err(_) => Err("the body was not read".into()),
    }
}

/// How many nodes the tree of a body for the square has, and how many of them are open.
pub(crate) fn nodes(alloc: Global, text: &str, budget: u32, gap: u64) -> Result<(u32, u32), Fail> {
    let (tree, _) = taken(alloc, text, budget, gap)?;
    Ok((tree.nodes(), tree.open_nodes()))
}

/// The refusal of a body; 0 and 0 where it is read.
pub(crate) fn refusal(
    alloc: Global,
    instance: &Instance,
    text: &str,
    budget: u32,
) -> Result<(u32, u64), Fail> {
    match read(alloc, instance, text.as_bytes(), budget, 0) {
        Ok(_) => Ok((0, 0)),
        Err(ReadError::Refused(refusal, line)) => Ok((refusal, line)),
        Err(ReadError::NoMemory) => Err("no memory".into()),
    }
}

/// So many splits by a set, one below the second child of the other, and open leaves.
pub(crate) fn open_chain(alloc: Global, splits: u32) -> Result<String, Fail> {
    let mut text = format!(in alloc; "{HEAD}")?;
    for _ in 0..splits {
        text.push_str("K 1 1\nO\n")?;
    }
    text.push_str("O\n")?;
    Ok(text)
}
