//! Each byte of a proof is changed to five others. A changed text is accepted exactly where the plain definitions accept what its
//! lines say, with the length and the bound that they say.

ghost use Rattle.std.specs.Prelude.{◌≤◌};

use certcheck::{Answer, Checker, Trouble};
use certform::{Item, Reader};
use ports::{MemDesk, Room};
use std::alloc::{AllocError, Global};
use std::process::Abort;
use std::test::Fail;
use tspplain::cuts::is_cut;
use tspplain::trees::is_accepted;
use tspplain::values::{CliqueDual, Closing, Cut, CutDual, Instance, Tree};

const CITIES: u32 = 6;

const PRISM: &str =
    "NAME : prism\nTYPE : TSP\nDIMENSION : 6\nEDGE_WEIGHT_TYPE : EXPLICIT\nEDGE_WEIGHT_FORMAT : UPPER_ROW\nEDGE_WEIGHT_SECTION\n1 1 0 100 100\n1 100 0 100\n100 100 0\n1 1\n1\nEOF\n";

/// The distances of the prism, at place `6 * u + v` that of `u` and `v`, of which `u` is the lesser.
const DISTANCES: [u32; 36] = [
    0, 1, 1, 0, 100, 100, 0, 0, 1, 100, 0, 100, 0, 0, 0, 100, 100, 0, 0, 0, 0, 0, 1, 1, 0, 0, 0, 0,
    0, 1, 0, 0, 0, 0, 0, 0,
];

const TITLE: &str = "TSPCERT 1\nN 6\nLENGTH 4\n";

const TITLE_WITHIN: &str = "TSPCERT 2\nN 6\nLENGTH 4\nBOUND 3\n";

/// A comb and an odd cut, and three leaves behind a split by an edge and one by a set.
const BEHIND: &str =
    "TOUR 1 2 3 6 5 4\nCUTS 2\nC 3\nH 3 1 2 3\nT 2 1 4\nT 2 2 5\nT 2 3 6\nB 3\nH 3 1 2 3\nF 1 4\nF 2 5\nF 3 6\nE 1 2\nL 6 1 0\nP 1 -524288\nP 2 -524288\nP 3 -524288\nP 4 -524288\nP 5 -524288\nP 6 -524288\nY 1 1048576\nK 2 1 4\nL 6 1 0\nP 1 -524288\nP 2 -524288\nP 3 -524288\nP 4 -524288\nP 5 -524288\nP 6 -524288\nY 2 1048576\nL 6 1 1\nP 1 -524288\nP 2 -524288\nP 3 -524288\nP 4 -524288\nP 5 -524288\nP 6 -524288\nY 2 1048576\nZ 2 1\n";

/// What the lines of a text say, whose cities count from 0.
#[derive(Drop)]
struct Said {
    length: u64,
    bound: Option<u64>,
    has_cities: bool,
    tour: Vec<u32>,
    cuts: Vec<Cut>,
    tree: Option<Tree>,
}

/// The items of the lines, where each is of the form and none is wanting.
fn items_of(alloc: Global, text: &[u8]) -> Result<Option<Vec<Item>>, AllocError> {
    let mut reader = Reader::new(CITIES);
    let mut items = Vec::new(alloc);
    let mut line = Vec::new(alloc);
    for byte in text {
        if *byte != b'\n' {
            line.push(*byte)?;
            continue;
        }
        let Ok(item) = reader.line(alloc, line.as_slice()) else {
            return Ok(None);
        };
        items.push(item)?;
        line.clear();
    }
    Ok(if line.is_empty() && reader.ended() {
        Some(items)
    } else {
        None
    })
}

/// The cities, counted from 0.
fn from_zero(alloc: Global, set: &[u32]) -> Result<Vec<u32>, AllocError> {
    let mut cities = Vec::new(alloc);
    for city in set {
        cities.push(city.wrapping_sub(1))?;
    }
    Ok(cities)
}

/// The cities of a tour, counted from 0. One that is no city of an instance stays none.
fn tour_from_zero(alloc: Global, tour: &[u64]) -> Result<Vec<u32>, AllocError> {
    let mut cities = Vec::new(alloc);
    for city in tour {
        cities.push(match u32::try_from(*city) {
            Ok(city) => city.wrapping_sub(1),
            Err(_) => u32::MAX,
        })?;
    }
    Ok(cities)
}

/// Adds what a line says of a cut to the cuts.
fn add_to_cuts(alloc: Global, cuts: &mut Vec<Cut>, item: &Item) -> Result<(), AllocError> {
    match item {
        Item::Subtour(set) => {
            let set = from_zero(alloc, set.as_slice())?;
            cuts.push(Cut::Subtour(set))?;
        }
        Item::Comb(_) => cuts.push(Cut::Comb(Vec::new(alloc), Vec::new(alloc)))?,
        Item::Odd(_) => cuts.push(Cut::Odd(Vec::new(alloc), Vec::new(alloc)))?,
        Item::Handle(set) => match cuts.last_mut() {
            Some(Cut::Comb(handle, _)) => *handle = from_zero(alloc, set.as_slice())?,
            Some(Cut::Odd(handle, _)) => *handle = from_zero(alloc, set.as_slice())?,
            _ => (),
        },
        Item::Tooth(set) => {
            if let Some(Cut::Comb(_, teeth)) = cuts.last_mut() {
                teeth.push(from_zero(alloc, set.as_slice())?)?;
            }
        }
        Item::Pair(u, v) => {
            if let Some(Cut::Odd(_, pairs)) = cuts.last_mut() {
                pairs.push((u.wrapping_sub(1), v.wrapping_sub(1)))?;
            }
        }
        _ => (),
    }
    Ok(())
}

/// The cuts that a text lists.
fn cuts_of(alloc: Global, items: &[Item]) -> Result<Vec<Cut>, AllocError> {
    let mut cuts = Vec::new(alloc);
    for item in items {
        add_to_cuts(alloc, &mut cuts, item)?;
    }
    Ok(cuts)
}

/// A closing whose duals are all 0.
fn no_duals(alloc: Global) -> Result<Closing, AllocError> {
    Ok(Closing {
        city: vec![in alloc; 0i64; CITIES as usize]?,
        cuts: Vec::new(alloc),
        conds: Vec::new(alloc),
    })
}

fn copies(alloc: Global, sets: &[Vec<u32>]) -> Result<Vec<Vec<u32>>, AllocError> {
    let mut all = Vec::new(alloc);
    for set in sets {
        all.push(Vec::from_slice(alloc, set.as_slice())?)?;
    }
    Ok(all)
}

fn copy_of(alloc: Global, cut: &Cut) -> Result<Cut, AllocError> {
    Ok(match cut {
        Cut::Subtour(set) => Cut::Subtour(Vec::from_slice(alloc, set.as_slice())?),
        Cut::Comb(handle, teeth) => Cut::Comb(
            Vec::from_slice(alloc, handle.as_slice())?,
            copies(alloc, teeth.as_slice())?,
        ),
        Cut::Odd(handle, pairs) => Cut::Odd(
            Vec::from_slice(alloc, handle.as_slice())?,
            Vec::from_slice(alloc, pairs.as_slice())?,
        ),
    })
}

/// Puts a line's dual in front of those that stand behind it.
fn add_dual(
    alloc: Global,
    closing: &mut Closing,
    cuts: &[Cut],
    item: &Item,
) -> Result<(), AllocError> {
    match item {
        Item::City(city, dual) => {
            if let Some(value) = closing.city.get_mut(city.wrapping_sub(1) as usize) {
                *value = *dual;
            }
        }
        Item::CutDual(number, dual) => {
            if let Some(cut) = cuts.get(number.wrapping_sub(1) as usize) {
                let cut = copy_of(alloc, cut)?;
                closing.cuts.insert(0, CutDual { cut, dual: *dual })?;
            }
        }
        Item::CondDual(depth, dual) => {
            closing.conds.insert(
                0,
                CliqueDual {
                    depth: *depth,
                    dual: *dual,
                },
            )?;
        }
        _ => (),
    }
    Ok(())
}

/// The tree of a text's lines, which are read from the last to the first: behind a split's line stand its children.
fn tree_of(alloc: Global, items: &[Item], cuts: &[Cut]) -> Result<Option<Tree>, AllocError> {
    let mut trees: Vec<Tree> = Vec::new(alloc);
    let mut closing = no_duals(alloc)?;
    for item in items.iter().rev() {
        match item {
            Item::Open => trees.push(Tree::Open)?,
            Item::Leaf(_, _, _) => {
                trees.push(Tree::Closed(closing))?;
                closing = no_duals(alloc)?;
            }
            Item::Edge(u, v) => {
                let (Some(without), Some(with)) = (trees.pop(), trees.pop()) else {
                    return Ok(None);
                };
                let without = Box::new(alloc, without)?;
                let with = Box::new(alloc, with)?;
                trees.push(Tree::Edge(u.wrapping_sub(1), v.wrapping_sub(1), without, with))?;
            }
            Item::Clique(set) => {
                let (Some(twice), Some(more)) = (trees.pop(), trees.pop()) else {
                    return Ok(None);
                };
                let set = from_zero(alloc, set.as_slice())?;
                let twice = Box::new(alloc, twice)?;
                let more = Box::new(alloc, more)?;
                trees.push(Tree::Clique(set, twice, more))?;
            }
            _ => add_dual(alloc, &mut closing, cuts, item)?,
        }
    }
    Ok(trees.pop())
}

/// What the items of a whole text say.
fn said_by(alloc: Global, items: &[Item]) -> Result<Said, AllocError> {
    let cuts = cuts_of(alloc, items)?;
    let tree = tree_of(alloc, items, cuts.as_slice())?;
    let mut said = Said {
        length: 0,
        bound: None,
        has_cities: false,
        tour: Vec::new(alloc),
        cuts,
        tree,
    };
    for item in items {
        match item {
            Item::N(cities) => said.has_cities = *cities == CITIES,
            Item::Length(length) => said.length = *length,
            Item::Bound(bound) => said.bound = Some(*bound),
            Item::Tour(tour) => said.tour = tour_from_zero(alloc, tour.as_slice())?,
            _ => (),
        }
    }
    Ok(said)
}

/// The length and the bound of a text that the plain definitions accept; none where they do not.
fn accepted(alloc: Global, prism: &Instance, text: &[u8]) -> Result<Option<(u64, u64)>, AllocError>
    requires { prism.now.n ≤ 2000 }
{
    let Some(items) = items_of(alloc, text)? else {
        return Ok(None);
    };
    let said = said_by(alloc, items.as_slice())?;
    let Some(tree) = &said.tree else {
        return Ok(None);
    };
    let length = said.length;
    let bound = said.bound.unwrap_or(length);
    let is_fit = said.has_cities
        && said.cuts.iter().all(|cut| is_cut(CITIES, cut))
        && (said.bound.is_none() || bound < length);
    if is_fit && is_accepted(alloc, prism, said.tour.as_slice(), length, bound, tree)? {
        Ok(Some((length, bound)))
    } else {
        Ok(None)
    }
}

/// The length and the bound of a text that the checker accepts.
fn told(alloc: Global, prism: &tspinst::Instance, text: &[u8]) -> Result<Option<(u64, u64)>, Fail> {
    match Checker::new(alloc, prism).feed(alloc, text) {
        Ok(checker) => match checker.finish() {
            Answer::Yes { length, bound } => Ok(Some((length, bound))),
            Answer::No(_, _) => Ok(None),
        },
        Err(Trouble::Refused(_, _)) => Ok(None),
        Err(Trouble::NoMemory) => Err(Fail::from("no memory")),
    }
}

/// How many of the changed texts are accepted, where both agree on each.
fn accepted_changes(
    rt: &impl Abort,
    alloc: Global,
    prism: &tspinst::Instance,
    plain: &Instance,
    text: &[u8],
) -> Result<u64, Fail>
    requires { plain.now.n ≤ 2000 }
{
    let mut bytes = Vec::from_slice(alloc, text)?;
    let mut count: u64 = 0;
    for (place, byte) in text.iter().enumerate() {
        for step in [1, 2, 7, 128, 255] {
            if let Some(changed) = bytes.get_mut(place) {
                *changed = byte.wrapping_add(step);
            }
            let answer = told(alloc, prism, bytes.as_slice())?;
            let want = accepted(alloc, plain, bytes.as_slice())?;
            assert_eq!(rt; answer, want, "{place} {step}");
            if answer.is_some() {
                count = count.saturating_add(1);
            }
        }
        if let Some(changed) = bytes.get_mut(place) {
            *changed = *byte;
        }
    }
    Ok(count)
}

#[test]
fn changed_bytes_mean_what_they_say(rt: HostRuntime) -> Result<(), Fail> {
    let alloc = rt.alloc();
    let room = Room {
        bytes: 0,
        paths: 0,
        calls: 1000,
    };
    let text = PRISM.as_bytes();
    let mut desk = MemDesk::new(alloc, text, b"", 65_536, 1, &[], &[], &[], room)?;
    let prism = tspinst::read(alloc, &mut desk)?;
    let plain = Instance {
        n: CITIES,
        table: Vec::from_slice(alloc, DISTANCES.as_slice())?,
        fixed: Vec::new(alloc),
    };
    for (title, bound) in [(TITLE, 4), (TITLE_WITHIN, 3)] {
        let text = format!(in alloc; "{title}{BEHIND}")?;
        let text = text.as_bytes();
        assert_eq!(rt; told(alloc, &prism, text)?, Some((4, bound)));
        assert_eq!(rt; accepted(alloc, &plain, text)?, Some((4, bound)));
        let count = accepted_changes(&rt, alloc, &prism, &plain, text)?;
        assert!(rt; count > 50);
    }
    Ok(())
}
