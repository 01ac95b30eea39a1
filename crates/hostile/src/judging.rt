//! Whether what came out of rounds is right.
use bossx::Boss;
use certcheck::{Answer, Checker};
use certform::body;
use resume_form::read;
use std::alloc::{AllocError, Global};
use std::test::Fail;
use tspinst::Instance;
use tspplain::search::least_tour;
use tspplain::tours::tour_length;

/// Whether what came out is right: the best tour is no shorter than the least of all, and as short where no node is open; and the text
/// of the tree is an accepted proof there, and else a body that is read.
pub(crate) fn is_right(alloc: Global, boss: &Boss, least: u64) -> Result<bool, AllocError> {
    let instance = boss.instance();
    let (tour, tree) = boss.snapshot();
    if tour.n() != instance.n() || tree.n() != instance.n() || tree.nodes() > 1_048_576 {
        return Ok(false);
    }
    let best = boss.best_length();
    let bytes = body(alloc, instance, tour, tree, best)?;
    if tree.open_nodes() > 0 {
        return Ok(best >= least && read(alloc, instance, &bytes, 60, 0).is_ok());
    }
    Ok(best == least && is_accepted(alloc, instance, &bytes, least))
}

/// Whether bytes are an accepted proof of this length.
fn is_accepted(alloc: Global, instance: &Instance, bytes: &[u8], least: u64) -> bool {
    let Ok(checker) = Checker::new(alloc, instance).feed(alloc, bytes) else {
        return false;
    };
    matches!(checker.finish(), Answer::Yes { length, bound } if length == least && bound == least)
}

/// A least tour, by all tours, with its length.
pub(crate) fn least_of_all(alloc: Global, instance: &Instance) -> Result<(Vec<u32>, u64), Fail> {
    let n = instance.n();
    let mut table = Vec::new(alloc);
    for u in 0..n {
        for v in 0..n {
            table.push(instance.d(u, v))?;
        }
    }
    let plain = tspplain::values::Instance {
        n,
        table,
        fixed: Vec::new(alloc),
    };
    match least_tour(alloc, &plain)? {
        Some(tour) => {
            let length = u64::try_from(tour_length(&plain, &tour)).unwrap_or(u64::MAX);
            Ok((tour, length))
        }
        None => Err("no tour".into()),
    }
}
