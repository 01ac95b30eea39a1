//! Laws of paths.
ghost use Rattle.worker.specs.Works.{PathsAreShort};

/// A path decides no pair twice, so it has at most n (n - 1) / 2 conditions on pairs: with 2^21 conditions on sets, and at
/// most 2,000 cities, 2^22 in all.
pub fn paths_are_short()
    ensures { PathsAreShort }
{}
