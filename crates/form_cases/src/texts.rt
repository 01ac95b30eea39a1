//! Worked texts.
ghost use Rattle.std.specs.Prelude.{◌≡◌, ◌≤◌, length, IfOk};

use branchx::Branch;
use certform::{Item, LineError, Reader, WriteError, body, write};
use cutform::Cut;
use cyc::{CitySet, Tour};
use distx::{Kind, Point};
use ports::{MemDesk, Room};
use pricer::{Closing, Fit};
use std::alloc::Global;
use std::test::Fail;
use treebook::{State, Tree};
use tspinst::{Instance, from_points};

/// The corners of a square of side 10, in turn.
fn square(alloc: Global) -> Result<Instance, Fail> {
    let points = [
        Point::new(0, 0),
        Point::new(0, 10),
        Point::new(10, 10),
        Point::new(10, 0),
    ];
    Ok(from_points(alloc, Kind::Euc, &points)?)
}

/// So many points on a line, a step apart.
fn line(alloc: Global, n: u16) -> Result<Instance, Fail> {
    let mut points = Vec::new(alloc);
    for x in 0..n {
        points.push(Point::new(i32::from(x), 0))?;
    }
    if points.len() < 3 || points.len() > 2000 {
        return Err("a bad number of points".into());
    }
    Ok(from_points(alloc, Kind::Man, &points)?)
}

fn tour(alloc: Global, cities: &[u32]) -> Result<Tour, Fail> {
    let n = cities.len();
    if n < 3 || n > 2000 {
        return Err("a bad number of cities".into());
    }
    Ok(Tour::new(alloc, n as u32, Vec::from_slice(alloc, cities)?)?)
}

fn set(alloc: Global, n: u32, cities: &[u32]) -> Result<CitySet, Fail> {
    if n < 3 || n > 2000 {
        return Err("a bad number of cities".into());
    }
    Ok(CitySet::new(alloc, n, Vec::from_slice(alloc, cities)?)?)
}

fn subtour(alloc: Global, n: u32, cities: &[u32]) -> Result<Cut, Fail> {
    Ok(Cut::subtour(alloc, set(alloc, n, cities)?)?)
}

/// The comb of a prism: a triangle, and the edges from it to the other one.
fn comb(alloc: Global) -> Result<Cut, Fail> {
    let handle = set(alloc, 6, &[0, 1, 2])?;
    let mut teeth = Vec::new(alloc);
    teeth.push(set(alloc, 6, &[0, 3])?)?;
    teeth.push(set(alloc, 6, &[1, 4])?)?;
    teeth.push(set(alloc, 6, &[2, 5])?)?;
    Ok(Cut::comb(alloc, handle, teeth)?)
}

fn split_edge(alloc: Global, tree: &mut Tree, node: u32, u: u32, v: u32) -> Result<(), Fail> {
    let nodes = tree.nodes();
    if node >= nodes || nodes > 1_000_000 || u >= v || v >= tree.n() {
        return Err("no such node or pair".into());
    }
    let State::Open = tree.state(node) else {
        return Err("not an open node".into());
    };
    if tree.decided_at(node, u, v) {
        return Err("not an open pair".into());
    }
    tree.reserve(alloc, 2)?;
    tree.split(node, Branch::Edge(u, v));
    Ok(())
}

fn split_clique(alloc: Global, tree: &mut Tree, node: u32, set: CitySet) -> Result<(), Fail> {
    let nodes = tree.nodes();
    if node >= nodes || nodes > 1_000_000 || set.n() != tree.n() || !set.is_proper() {
        return Err("no such node, or no proper set".into());
    }
    let State::Open = tree.state(node) else {
        return Err("not an open node".into());
    };
    tree.reserve(alloc, 2)?;
    tree.split(node, Branch::Clique(set));
    Ok(())
}

fn close(instance: &Instance, tree: &mut Tree, node: u32, closing: Closing) -> Result<(), Fail> {
    if node >= tree.nodes() || instance.n() != tree.n() {
        return Err("no such node".into());
    }
    let State::Open = tree.state(node) else {
        return Err("not an open node".into());
    };
    let Fit::Fits = tree.fits_at(instance, node, &closing) else {
        return Err("a misfit".into());
    };
    tree.close(node, closing);
    Ok(())
}

/// The text with a bound, or with none below the length.
fn text_within(
    alloc: Global,
    instance: &Instance,
    tour: &Tour,
    tree: &Tree,
    bound: u64,
) -> Result<Vec<u8>, Fail> {
    if tour.n() != instance.n() || tree.n() != instance.n() || tree.nodes() > 1_048_576 {
        return Err("of other cities".into());
    }
    Ok(body(alloc, instance, tour, tree, bound)?)
}

fn text(alloc: Global, instance: &Instance, tour: &Tour, tree: &Tree) -> Result<Vec<u8>, Fail> {
    text_within(alloc, instance, tour, tree, 1 << 42)
}

const SQUARE: &[u8] = b"TSPCERT 1\nN 4\nLENGTH 40\nTOUR 1 2 3 4\nCUTS 0\nO\n";

#[test]
fn the_body_of_a_fresh_tree(rt: HostRuntime) -> Result<(), Fail> {
    let alloc = rt.alloc();
    let instance = square(alloc)?;
    let tree = Tree::new(alloc, 4)?;
    let bytes = text(alloc, &instance, &tour(alloc, &[2, 1, 0, 3])?, &tree)?;
    assert_eq!(rt; bytes.len(), 46);
    assert!(rt; bytes.as_slice() == SQUARE);
    Ok(())
}

#[test]
fn a_bound_below_the_length_is_told(rt: HostRuntime) -> Result<(), Fail> {
    let alloc = rt.alloc();
    let instance = square(alloc)?;
    let mut tree = Tree::new(alloc, 4)?;
    let city = Vec::from_slice(alloc, &[0, 0, 0, 0])?;
    let nothing = Closing::new(city, Vec::new(alloc), Vec::new(alloc));
    close(&instance, &mut tree, 0, nothing)?;
    let around = tour(alloc, &[0, 1, 2, 3])?;
    let bytes = text_within(alloc, &instance, &around, &tree, 0)?;
    assert!(rt;
        bytes.as_slice()
            == b"TSPCERT 2\nN 4\nLENGTH 40\nBOUND 0\nTOUR 1 2 3 4\nCUTS 0\nL 0 0 0\n".as_slice()
    );
    let bytes = text_within(alloc, &instance, &around, &tree, 39)?;
    assert!(rt;
        bytes.as_slice()
            == b"TSPCERT 2\nN 4\nLENGTH 40\nBOUND 39\nTOUR 1 2 3 4\nCUTS 0\nL 0 0 0\n".as_slice()
    );
    let bytes = text_within(alloc, &instance, &around, &tree, 40)?;
    assert!(rt;
        bytes.as_slice() == b"TSPCERT 1\nN 4\nLENGTH 40\nTOUR 1 2 3 4\nCUTS 0\nL 0 0 0\n".as_slice()
    );
    Ok(())
}

#[test]
fn an_odd_cut_is_listed_by_its_handle_and_pairs(rt: HostRuntime) -> Result<(), Fail> {
    let alloc = rt.alloc();
    let instance = line(alloc, 6)?;
    let mut tree = Tree::new(alloc, 6)?;
    let handle = set(alloc, 6, &[0, 1, 2])?;
    let pairs = Vec::from_slice(alloc, &[(0, 3), (1, 4), (2, 5)])?;
    let mut cuts = Vec::new(alloc);
    cuts.push((Cut::odd(alloc, handle, pairs)?, 7))?;
    let city = Vec::from_slice(alloc, &[0, 0, 0, 0, 0, 0])?;
    close(
        &instance,
        &mut tree,
        0,
        Closing::new(city, cuts, Vec::new(alloc)),
    )?;
    let bytes = text(alloc, &instance, &tour(alloc, &[0, 1, 2, 3, 4, 5])?, &tree)?;
    assert!(rt;
        bytes.as_slice()
            == b"TSPCERT 1\nN 6\nLENGTH 10\nTOUR 1 2 3 4 5 6\nCUTS 1\nB 3\nH 3 1 2 3\nF 1 4\nF 2 5\nF 3 6\nL 0 1 0\nY 1 7\n".as_slice()
    );
    Ok(())
}

/// Six points on a line, and a tree with each kind of node. Two leaves name the comb.
fn grown(alloc: Global, instance: &Instance) -> Result<Tree, Fail> {
    let mut tree = Tree::new(alloc, 6)?;
    split_clique(alloc, &mut tree, 0, set(alloc, 6, &[0, 1])?)?;
    split_edge(alloc, &mut tree, 1, 0, 3)?;
    let mut cuts = Vec::new(alloc);
    cuts.push((subtour(alloc, 6, &[0, 1])?, 3))?;
    cuts.push((comb(alloc)?, 4_611_686_018_427_387_904))?;
    let city = Vec::from_slice(alloc, &[5, 0, -4_611_686_018_427_387_904, 0, 0, 1])?;
    let conds = Vec::from_slice(alloc, &[(1, 4)])?;
    close(instance, &mut tree, 3, Closing::new(city, cuts, conds))?;
    let mut cuts = Vec::new(alloc);
    cuts.push((subtour(alloc, 6, &[0, 2])?, 2))?;
    cuts.push((comb(alloc)?, 1))?;
    let city = Vec::from_slice(alloc, &[0, 0, 0, 0, 0, 0])?;
    close(
        instance,
        &mut tree,
        2,
        Closing::new(city, cuts, Vec::new(alloc)),
    )?;
    Ok(tree)
}

const GROWN: &[u8] =
    b"TSPCERT 1\nN 6\nLENGTH 10\nTOUR 1 2 3 4 5 6\nCUTS 3\nS 2 1 2\nC 3\nH 3 1 2 3\nT 2 1 4\nT 2 2 5\nT 2 3 6\nS 2 1 3\nK 2 1 2\nE 1 4\nL 3 2 1\nP 1 5\nP 3 -4611686018427387904\nP 6 1\nY 1 3\nY 2 4611686018427387904\nZ 1 4\nO\nL 0 2 0\nY 2 1\nY 3 2\n";

#[test]
fn each_kind_of_line_is_spelled_and_each_cut_listed_once(rt: HostRuntime) -> Result<(), Fail> {
    let alloc = rt.alloc();
    let instance = line(alloc, 6)?;
    let tree = grown(alloc, &instance)?;
    let bytes = text(alloc, &instance, &tour(alloc, &[3, 2, 1, 0, 5, 4])?, &tree)?;
    assert!(rt; bytes.as_slice() == GROWN);
    Ok(())
}

#[test]
fn a_deep_chain_is_written(rt: HostRuntime) -> Result<(), Fail> {
    let alloc = rt.alloc();
    let n = 110;
    let instance = line(alloc, 110)?;
    let mut cities = Vec::new(alloc);
    for c in 0..n {
        cities.push(c)?;
    }
    let mut tree = Tree::new(alloc, n)?;
    let mut node = 0;
    let mut depth = 0;
    for v in 1..n {
        for u in 0..v {
            if depth < 5000 {
                let child = tree.nodes();
                split_edge(alloc, &mut tree, node, u, v)?;
                node = child;
                depth += 1;
            }
        }
    }
    assert_eq!(rt; tree.nodes(), 10_001);
    let bytes = text(alloc, &instance, &tour(alloc, &cities)?, &tree)?;
    let mut lines = 0;
    for b in &bytes {
        if *b == b'\n' && lines < 1_000_000 {
            lines += 1;
        }
    }
    assert_eq!(rt; lines, 10_006);
    Ok(())
}

fn desk(alloc: Global, bad: &[u64]) -> Result<MemDesk, Fail> {
    let room = Room {
        bytes: 1000,
        paths: 0,
        calls: 100,
    };
    Ok(MemDesk::new(alloc, b"", b"", 16, 16, &[], &[], bad, room)?)
}

#[test]
fn a_failing_write_leaves_a_front(rt: HostRuntime) -> Result<(), Fail> {
    let alloc = rt.alloc();
    let instance = square(alloc)?;
    let tour = tour(alloc, &[0, 1, 2, 3])?;
    let tree = Tree::new(alloc, 4)?;
    if tour.n() != instance.n() || tree.n() != instance.n() || tree.nodes() > 1_048_576 {
        return Err("of other cities".into());
    }
    let mut good = desk(alloc, &[])?;
    assert_eq!(rt;
        write(alloc, &mut good, &instance, &tour, &tree, 40).err(),
        None
    );
    assert!(rt; good.proof() == SQUARE);
    let mut bad = desk(alloc, &[3])?;
    assert_eq!(rt;
        write(alloc, &mut bad, &instance, &tour, &tree, 40).err(),
        Some(WriteError::Failed)
    );
    assert!(rt; bad.proof() == &SQUARE[..32]);
    assert_eq!(rt; bad.write_faults(), 1);
    Ok(())
}

#[test]
fn lines_stand_at_their_places(rt: HostRuntime) -> Result<(), Fail> {
    let alloc = rt.alloc();
    let lines = [
        b"TSPCERT 1".as_slice(),
        b"N 6",
        b"LENGTH 10",
        b"TOUR 1 2 3 4 5 6",
        b"CUTS 2",
        b"C 3",
        b"H 3 1 2 3",
        b"T 2 1 4",
        b"T 2 2 5",
        b"T 2 3 6",
        b"S 2 1 3",
        b"K 2 1 2",
        b"E 1 4",
        b"L 2 2 1",
        b"P 1 5",
        b"P 3 -7",
        b"Y 1 3",
        b"Y 2 9",
        b"Z 1 4",
        b"O",
        b"L 0 0 0",
    ];
    let mut reader = Reader::new(6);
    for line in lines {
        assert!(rt; !reader.ended());
        // a title stands at its place once, and no line is longer than it may be
        let item = reader.line(alloc, line)?;
        assert_eq!(rt;
            reader.line(alloc, b"TSPCERT 1").err(),
            Some(LineError::NotALine)
        );
        if line == b"P 3 -7".as_slice() {
            assert!(rt; item == Item::City(3, -7));
            assert_eq!(rt;
                reader.line(alloc, b"P 6 1").err(),
                Some(LineError::NotALine)
            );
        }
        if line == b"Y 1 3".as_slice() {
            assert!(rt; item == Item::CutDual(1, 3));
            assert_eq!(rt;
                reader.line(alloc, b"Y 1 9").err(),
                Some(LineError::NotALine)
            );
            assert_eq!(rt;
                reader.line(alloc, b"Y 3 9").err(),
                Some(LineError::NotALine)
            );
        }
    }
    assert!(rt; reader.ended());
    assert_eq!(rt; reader.line(alloc, b"O").err(), Some(LineError::NotALine));
    Ok(())
}
