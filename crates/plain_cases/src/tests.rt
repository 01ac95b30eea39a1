//! The worked values, each found by hand or by an independent program.

use std::alloc::{AllocError, Global};
use std::process::Abort;
use std::test::Fail;
use tspplain::bounds::{SCALE, bound};
use tspplain::closings::is_closing;
use tspplain::distances::{distance, root};
use tspplain::search::least_tour;
use tspplain::tours::{crossings, tour_length};
use tspplain::trees::is_accepted;
use tspplain::values::{CliqueDual, Closing, Condition, Cut, CutDual, Instance, Rule, Tree};

/// An instance of the distances of each city to those behind it.
fn from_upper(alloc: Global, n: u32, weights: &[u32]) -> Result<Instance, AllocError> {
    let mut table = Vec::new(alloc);
    let mut next = weights.iter();
    for u in 0..n {
        for v in 0..n {
            let weight = if u < v {
                next.next().copied().unwrap_or(0)
            } else {
                0
            };
            table.push(weight)?;
        }
    }
    Ok(Instance {
        n,
        table,
        fixed: Vec::new(alloc),
    })
}

/// The corners of a square of side 10, in turn.
fn square(alloc: Global) -> Result<Instance, AllocError> {
    from_upper(alloc, 4, &[10, 14, 10, 10, 14, 10])
}

/// Two groups of three cities, far apart.
fn groups(alloc: Global) -> Result<Instance, AllocError> {
    from_upper(
        alloc,
        6,
        &[1, 1, 10, 10, 10, 1, 10, 10, 10, 10, 10, 10, 1, 1, 1],
    )
}

/// Two triangles, joined by three short edges.
fn prism(alloc: Global) -> Result<Instance, AllocError> {
    from_upper(
        alloc,
        6,
        &[1, 1, 0, 100, 100, 1, 100, 0, 100, 100, 100, 0, 1, 1, 1],
    )
}

fn set(alloc: Global, cities: &[u32]) -> Result<Vec<u32>, AllocError> {
    Vec::from_slice(alloc, cities)
}

/// A closing of one dual for all cities.
fn even(alloc: Global, n: u32, dual: i64) -> Result<Closing, AllocError> {
    let mut city = Vec::new(alloc);
    for _ in 0..n {
        city.push(dual)?;
    }
    Ok(Closing {
        city,
        cuts: Vec::new(alloc),
        conds: Vec::new(alloc),
    })
}

/// The comb of the prism: the first triangle, and some of the three short edges as teeth.
fn comb(alloc: Global, teeth: u32) -> Result<Cut, AllocError> {
    let mut all = Vec::new(alloc);
    for k in 0..teeth.min(3) {
        all.push(set(alloc, &[k, k + 3])?)?;
    }
    Ok(Cut::Comb(set(alloc, &[0, 1, 2])?, all))
}

/// The odd cut of the prism: the first triangle, and some of the three short edges as pairs.
fn odd_cut(alloc: Global, pairs: u32) -> Result<Cut, AllocError> {
    let mut all = Vec::new(alloc);
    for k in 0..pairs.min(3) {
        all.push((k, k + 3))?;
    }
    Ok(Cut::Odd(set(alloc, &[0, 1, 2])?, all))
}

fn prism_closing(alloc: Global, cut: Cut) -> Result<Closing, AllocError> {
    let mut closing = even(alloc, 6, -524_288)?;
    closing.cuts.push(CutDual {
        cut,
        dual: 1_048_576,
    })?;
    Ok(closing)
}

/// The closings of the two children of the split of the groups by the first of them.
fn twice(alloc: Global) -> Result<Closing, AllocError> {
    let mut closing = even(alloc, 6, 524_288)?;
    let cut = Cut::Subtour(set(alloc, &[0, 1, 2])?);
    closing.cuts.push(CutDual {
        cut,
        dual: 9_437_184,
    })?;
    Ok(closing)
}

fn more(alloc: Global) -> Result<Closing, AllocError> {
    let mut closing = even(alloc, 6, 524_288)?;
    closing.conds.push(CliqueDual {
        depth: 1,
        dual: 9_437_184,
    })?;
    Ok(closing)
}

#[test]
fn distances_are_those_of_the_table(rt: HostRuntime) -> Result<(), Fail> {
    let rows = [
        (Rule::Euclidean, 2u64, 1u64),
        (Rule::Euclidean, 6, 2),
        (Rule::Euclidean, 7, 3),
        (Rule::Euclidean, 12, 3),
        (Rule::Euclidean, 13, 4),
        (Rule::RoundedUp, 4, 2),
        (Rule::RoundedUp, 5, 3),
        (Rule::PseudoEuclidean, 0, 0),
        (Rule::PseudoEuclidean, 9, 1),
        (Rule::PseudoEuclidean, 10, 1),
        (Rule::PseudoEuclidean, 11, 2),
    ];
    for (rule, s, want) in rows {
        assert!(rt; s <= 100);
        assert_eq!(rt; root(rule, s), want, "at {s}");
    }
    assert_eq!(rt; distance(Rule::Euclidean, (0, 0), (10, 10)), 14);
    assert_eq!(rt; distance(Rule::Manhattan, (-3, 4), (1, 1)), 7);
    assert_eq!(rt; distance(Rule::Maximum, (-3, 4), (1, 1)), 4);
    Ok(())
}

#[test]
fn least_tours_have_the_known_lengths(rt: HostRuntime) -> Result<(), Fail> {
    let alloc = rt.alloc();
    let cases = [
        (square(alloc)?, 40u128),
        (groups(alloc)?, 24),
        (prism(alloc)?, 4),
    ];
    for (instance, want) in &cases {
        let best = least_tour(alloc, instance)?.ok_or("no tour")?;
        assert_eq!(rt; tour_length(instance, best.as_slice()), *want);
    }
    assert_eq!(rt; crossings(&[0, 2], &[0, 1, 2, 3]), 4);
    assert_eq!(rt; crossings(&[0, 1], &[0, 1, 2, 3]), 2);
    Ok(())
}

#[test]
fn fixed_pairs_are_in_the_least_tour(rt: HostRuntime) -> Result<(), Fail> {
    let alloc = rt.alloc();
    let mut bridge = square(alloc)?;
    bridge.fixed.push((0, 2))?;
    let best = least_tour(alloc, &bridge)?.ok_or("no tour")?;
    assert_eq!(rt; tour_length(&bridge, best.as_slice()), 48);
    bridge.fixed.push((0, 1))?;
    bridge.fixed.push((1, 2))?;
    assert!(rt; least_tour(alloc, &bridge)?.is_none());
    Ok(())
}

fn bound_of(rt: &impl Abort, instance: &Instance, path: &[Condition], closing: &Closing) -> i128 {
    assert!(rt; instance.n <= 2000);
    assert!(rt; is_closing(instance.n, path, closing));
    bound(instance, path, closing)
}

#[test]
fn bounds_are_those_of_the_worked_proofs(rt: HostRuntime) -> Result<(), Fail> {
    let alloc = rt.alloc();
    let corners = square(alloc)?;
    assert_eq!(rt;
        bound_of(&rt, &corners, &[], &even(alloc, 4, 5_242_880)?),
        41_943_040
    );
    assert_eq!(rt;
        bound_of(&rt, &corners, &[], &even(alloc, 4, 5_111_808)?),
        39 * SCALE
    );
    assert_eq!(rt;
        bound_of(
            &rt,
            &prism(alloc)?,
            &[],
            &prism_closing(alloc, comb(alloc, 3)?)?
        ),
        4 * SCALE
    );
    let far = groups(alloc)?;
    let two = vec![in alloc; Condition::Two(set(alloc, &[0, 1, 2])?)]?;
    assert_eq!(rt;
        bound_of(&rt, &far, two.as_slice(), &twice(alloc)?),
        24 * SCALE
    );
    let four = vec![in alloc; Condition::Four(set(alloc, &[0, 1, 2])?)]?;
    assert_eq!(rt;
        bound_of(&rt, &far, four.as_slice(), &more(alloc)?),
        42 * SCALE
    );
    Ok(())
}

#[test]
fn proofs_are_accepted_and_refused(rt: HostRuntime) -> Result<(), Fail> {
    let alloc = rt.alloc();
    let corners = square(alloc)?;
    assert!(rt; corners.n <= 2000);
    let around = [0, 1, 2, 3];
    let whole = Tree::Closed(even(alloc, 4, 5_242_880)?);
    assert!(rt; is_accepted(alloc, &corners, &around, 40, 40, &whole)?);
    assert!(rt; !is_accepted(alloc, &corners, &around, 41, 41, &whole)?);
    assert!(rt; !is_accepted(alloc, &corners, &[0, 3, 2, 1], 40, 40, &whole)?);
    assert!(rt; !is_accepted(alloc, &corners, &around, 40, 40, &Tree::Open)?);
    let level = Tree::Closed(even(alloc, 4, 5_111_808)?);
    assert!(rt; !is_accepted(alloc, &corners, &around, 40, 40, &level)?);

    let triangles = prism(alloc)?;
    assert!(rt; triangles.n <= 2000);
    let ring = [0, 1, 2, 5, 4, 3];
    let three = Tree::Closed(prism_closing(alloc, comb(alloc, 3)?)?);
    assert!(rt; is_accepted(alloc, &triangles, &ring, 4, 4, &three)?);
    let two = Tree::Closed(prism_closing(alloc, comb(alloc, 2)?)?);
    assert!(rt; !is_accepted(alloc, &triangles, &ring, 4, 4, &two)?);
    Ok(())
}

#[test]
fn proofs_with_an_odd_cut_are_accepted(rt: HostRuntime) -> Result<(), Fail> {
    let alloc = rt.alloc();
    let triangles = prism(alloc)?;
    assert!(rt; triangles.n <= 2000);
    let ring = [0, 1, 2, 5, 4, 3];
    let three = Tree::Closed(prism_closing(alloc, odd_cut(alloc, 3)?)?);
    assert!(rt; is_accepted(alloc, &triangles, &ring, 4, 4, &three)?);
    let two = Tree::Closed(prism_closing(alloc, odd_cut(alloc, 2)?)?);
    assert!(rt; !is_accepted(alloc, &triangles, &ring, 4, 4, &two)?);
    let twice = Cut::Odd(set(alloc, &[0, 1, 2])?, vec![in alloc; (0, 3); 3]?);
    let twice = Tree::Closed(prism_closing(alloc, twice)?);
    assert!(rt; !is_accepted(alloc, &triangles, &ring, 4, 4, &twice)?);
    Ok(())
}

#[test]
fn bounds_below_the_length_are_accepted(rt: HostRuntime) -> Result<(), Fail> {
    let alloc = rt.alloc();
    let corners = square(alloc)?;
    assert!(rt; corners.n <= 2000);
    let around = [0, 1, 2, 3];
    let nothing = Tree::Closed(even(alloc, 4, 0)?);
    assert!(rt; is_accepted(alloc, &corners, &around, 40, 0, &nothing)?);
    assert!(rt; !is_accepted(alloc, &corners, &around, 40, 1, &nothing)?);
    let whole = Tree::Closed(even(alloc, 4, 5_242_880)?);
    assert!(rt; !is_accepted(alloc, &corners, &around, 40, 41, &whole)?);
    Ok(())
}

#[test]
fn a_clique_split_is_accepted_with_both_children(rt: HostRuntime) -> Result<(), Fail> {
    let alloc = rt.alloc();
    let far = groups(alloc)?;
    assert!(rt; far.n <= 2000);
    let first = Box::new(alloc, Tree::Closed(twice(alloc)?))?;
    let second = Box::new(alloc, Tree::Closed(more(alloc)?))?;
    let split = Tree::Clique(set(alloc, &[0, 1, 2])?, first, second);
    assert!(rt; is_accepted(alloc, &far, &[0, 1, 2, 3, 4, 5], 24, 24, &split)?);

    let first = Box::new(alloc, Tree::Open)?;
    let second = Box::new(alloc, Tree::Closed(more(alloc)?))?;
    let half = Tree::Edge(0, 1, first, second);
    assert!(rt; !is_accepted(alloc, &far, &[0, 1, 2, 3, 4, 5], 24, 24, &half)?);
    Ok(())
}
