//! Instances from seeds, against distances that another program computed.

use crate::make;
use std::alloc::Global;
use std::test::Fail;

/// The distances of the pairs of an instance, by their lesser city.
fn distances(alloc: Global, seed: u64, n: u32) -> Result<Vec<u32>, Fail> {
    let mut all = Vec::new(alloc);
    if n < 3 || n > 2000 {
        return Ok(all);
    }
    let instance = make(alloc, seed, n)?;
    let n = instance.n();
    for u in 0..n {
        for v in u + 1..n {
            all.push(instance.d(u, v))?;
        }
    }
    Ok(all)
}

#[test]
fn three_cities_of_seed_one(rt: HostRuntime) -> Result<(), Fail> {
    let all = distances(rt.alloc(), 1, 3)?;
    assert_eq!(rt; all.as_slice(), [761298, 879504, 211948].as_slice());
    Ok(())
}

#[test]
fn four_cities_of_seed_seven(rt: HostRuntime) -> Result<(), Fail> {
    let all = distances(rt.alloc(), 7, 4)?;
    assert_eq!(rt;
        all.as_slice(),
        [763030, 233607, 933686, 534278, 510345, 725132].as_slice()
    );
    Ok(())
}

#[test]
fn more_cities_begin_with_the_same(rt: HostRuntime) -> Result<(), Fail> {
    let few = make(rt.alloc(), 1, 20)?;
    let many = make(rt.alloc(), 1, 60)?;
    assert_eq!(rt; few.n(), 20);
    assert_eq!(rt; many.n(), 60);
    for u in 0..20 {
        assert_eq!(rt; few.d(u, 19), many.d(u, 19));
    }
    Ok(())
}
