//! What the children of split nodes begin with.
//!
//! A child differs from its parent by one condition. So its relaxation begins with the cuts that were tight there, with the pairs
//! that may matter, and at the basis where the parent's ended: a few pivots, in place of the rounds that its parent took (Applegate, Bixby,
//! Chvátal and Cook, "The Traveling Salesman Problem", 2006, chapters 7 and 13).
//!
//! What a start says is never believed. Cuts are cuts by their type, pairs are looked at before they have a column, and a basis is
//! a hint: the start of another node costs time only.
ghost use Rattle.std.specs.Prelude.{◌≡◌, ◌^◌, ◌≤◌, length, IfOk};
ghost use Rattle.worker.specs.Works.{cliques};
ghost use Rattle.grunt.specs.Rounds.{IsBegun};

use branchx::{Cond, Path};
use cutform::Cut;
use neigh::Neigh;
use nodelp::NodeLp;
use simplex::{Basis, Column, Lp};
use std::alloc::{AllocError, Global};
use std::sync::Arc;
use tspinst::Instance;

/// How many cuts a node begins with at most.
const MANY: usize = 65_536;

/// How many starts are kept at most.
const MOST: usize = 4_096;

/// How many cities the sets of all kept starts have at most, and pairs beside them.
const ROOM: usize = 1 << 24;

/// What the children of a node begin with: pairs, and of those whose column was basic the keys, rising; of each row before the
/// cuts, whether its slack was basic; and the cuts whose slack was not, rising.
#[derive(Drop)]
pub(crate) struct Start {
    pairs: Vec<(u32, u32)>,
    basic: Vec<u64>,
    slacks: Vec<bool>,
    cuts: Vec<Cut>,
}

/// A start that is kept, for the children of the node with this key: how many of them have not begun.
#[derive(Drop)]
struct Kept {
    key: u64,
    left: u32,
    size: usize,
    start: Arc<Start, Global>,
}

/// The starts of children that have not begun.
#[derive(Drop)]
pub(crate) struct Starts {
    kept: Vec<Kept>,
    size: usize,
}

/// A key with a word more.
fn mixed(key: u64, word: u64) -> u64 {
    (key ^ word)
        .wrapping_mul(0x9e37_79b9_7f4a_7c15)
        .rotate_left(23)
}

/// A key with the cities of a set more.
fn with_cities(key: u64, cities: &[u32]) -> u64 {
    let mut mix = mixed(key, cities.len() as u64);
    for city in cities {
        mix = mixed(mix, u64::from(*city));
    }
    mix
}

/// A key with a condition more.
fn with_condition(key: u64, cond: &Cond) -> u64 {
    match cond {
        Cond::Fixed(u, v) => mixed(mixed(mixed(key, 1), u64::from(*u)), u64::from(*v)),
        Cond::Absent(u, v) => mixed(mixed(mixed(key, 2), u64::from(*u)), u64::from(*v)),
        Cond::Present(u, v) => mixed(mixed(mixed(key, 3), u64::from(*u)), u64::from(*v)),
        Cond::Two(set) => with_cities(mixed(key, 4), set.cities()),
        Cond::Four(set) => with_cities(mixed(key, 5), set.cities()),
    }
}

/// A key of some conditions: others rarely have it.
fn key_of(conditions: &[Cond]) -> u64 {
    let mut key: u64 = 7;
    for cond in conditions {
        key = with_condition(key, cond);
    }
    key
}

impl Starts {
    /// None.
    pub(crate) fn new(alloc: Global) -> Starts {
        Starts {
            kept: Vec::new(alloc),
            size: 0,
        }
    }

    /// The start that is kept for a path, found by its conditions but the last. It is let go once two children have begun.
    pub(crate) fn take(&mut self, path: &Path) -> Option<Arc<Start, Global>> {
        let (_, front) = path.conditions().split_last()?;
        let place = self.place_of(key_of(front))?;
        let kept = self.kept.get_mut(place)?;
        kept.left = kept.left.saturating_sub(1);
        let start = Arc::try_clone(&kept.start).ok();
        if kept.left == 0 {
            self.size = self.size.saturating_sub(kept.size);
            self.let_go(place);
        }
        start
    }

    /// Where the start with a key stands.
    fn place_of(&self, key: u64) -> Option<usize> {
        for place in 0..self.kept.len() {
            if self.kept[place].key == key {
                return Some(place);
            }
        }
        None
    }

    /// Lets go of the start at a place.
    fn let_go(&mut self, place: usize) {
        if place < self.kept.len() {
            self.kept.swap_remove(place);
        }
    }

    /// Keeps a start for the children of a path's node, where there is room.
    pub(crate) fn keep(&mut self, path: &Path, start: Arc<Start, Global>) {
        let size = start.size();
        if self.kept.len() >= MOST || self.size.saturating_add(size) > ROOM {
            return;
        }
        let kept = Kept {
            key: key_of(path.conditions()),
            left: 2,
            size,
            start,
        };
        if self.kept.push(kept).is_ok() {
            self.size = self.size.saturating_add(size);
        }
    }
}

impl Start {
    /// What the children of a node begin with, where a pair whose reduced cost exceeds `slack` units is of no more use.
    pub(crate) fn of(alloc: Global, node: &NodeLp, slack: i128) -> Result<Start, AllocError> {
        Ok(Start {
            pairs: useful_pairs(alloc, node.lp(), slack)?,
            basic: basic_keys(alloc, node.lp())?,
            slacks: first_slacks(alloc, node)?,
            cuts: tight_cuts(alloc, node)?,
        })
    }

    /// A start that says what it is told to, true or not.
    #[cfg(test)]
    pub(crate) fn saying(
        pairs: Vec<(u32, u32)>,
        basic: Vec<u64>,
        slacks: Vec<bool>,
        cuts: Vec<Cut>,
    ) -> Start {
        Start {
            pairs,
            basic,
            slacks,
            cuts,
        }
    }

    /// How many cities its sets have, and pairs beside them.
    fn size(&self) -> usize {
        let mut size = self.pairs.len();
        for cut in &self.cuts {
            for set in cut.sets() {
                size = size.saturating_add(set.cities().len());
            }
        }
        size
    }

    /// Whether the column of a pair was basic.
    fn is_basic(&self, u: u32, v: u32) -> bool {
        self.basic.binary_search(&pair_key(u, v)).is_ok()
    }
}

/// A pair as a number.
fn pair_key(u: u32, v: u32) -> u64 {
    (u64::from(u) << 32) | u64::from(v)
}

/// The pairs of the columns that are basic, or whose reduced cost is at most so many units.
fn useful_pairs(alloc: Global, lp: &Lp, slack: i128) -> Result<Vec<(u32, u32)>, AllocError> {
    let mut pairs = Vec::new(alloc);
    for (place, column) in lp.cols().iter().enumerate() {
        if lp.is_basic(place) || i128::from(lp.reduced_cost(place)) <= slack {
            pairs.push((column.u, column.v))?;
        }
    }
    Ok(pairs)
}

/// The keys of the pairs whose columns are basic, rising.
fn basic_keys(alloc: Global, lp: &Lp) -> Result<Vec<u64>, AllocError> {
    let mut keys = Vec::new(alloc);
    for (place, column) in lp.cols().iter().enumerate() {
        if lp.is_basic(place) {
            keys.push(pair_key(column.u, column.v))?;
        }
    }
    keys.sort_unstable();
    Ok(keys)
}

/// Of each row before the cuts, whether its slack is basic.
fn first_slacks(alloc: Global, node: &NodeLp) -> Result<Vec<bool>, AllocError> {
    let mut slacks = Vec::new(alloc);
    for row in 0..node.lp().rows().len().saturating_sub(node.cuts().len()) {
        slacks.push(node.lp().is_slack_basic(row))?;
    }
    Ok(slacks)
}

/// The cuts whose slack is not basic.
fn tight_cuts(alloc: Global, node: &NodeLp) -> Result<Vec<Cut>, AllocError> {
    let mut cuts = Vec::new(alloc);
    for (cut, row) in node.cuts() {
        if !node.lp().is_slack_basic(*row as usize) {
            cuts.push(cut.copy(alloc)?)?;
        }
    }
    cuts.truncate(MANY);
    Ok(cuts)
}

/// A node's relaxation before any solve: over its near pairs and without cuts, or with what its parent left.
pub(crate) fn begin(
    alloc: Global,
    instance: &Instance,
    near: &Neigh,
    path: &Path,
    start: Option<&Start>,
) -> Result<NodeLp, AllocError>
    requires cities { path.now.n ≡ instance.now.n }
    requires lists { near.now.n ≡ instance.now.n }
    requires few_cliques { cliques path.now.conditions ≤ 2 ^ 21 }
    ensures { IfOk result (IsBegun instance.now path.now.conditions) }
{
    match start {
        Some(start) => begin_from(alloc, instance, path, start),
        None => begin_near(alloc, instance, near, path),
    }
}

/// A node's relaxation over its near pairs, without cuts.
fn begin_near(
    alloc: Global,
    instance: &Instance,
    near: &Neigh,
    path: &Path,
) -> Result<NodeLp, AllocError>
    requires cities { path.now.n ≡ instance.now.n }
    requires lists { near.now.n ≡ instance.now.n }
    requires few_cliques { cliques path.now.conditions ≤ 2 ^ 21 }
    ensures { IfOk result (IsBegun instance.now path.now.conditions) }
{
    let _n = instance.n();
    let node = NodeLp::new(alloc, instance, near, path)?;
    Ok(node)
}

/// A node's relaxation with what a parent left.
pub(crate) fn begin_from(
    alloc: Global,
    instance: &Instance,
    path: &Path,
    start: &Start,
) -> Result<NodeLp, AllocError>
    requires cities { path.now.n ≡ instance.now.n }
    requires few_cliques { cliques path.now.conditions ≤ 2 ^ 21 }
    ensures { IfOk result (IsBegun instance.now path.now.conditions) }
{
    let mut node = NodeLp::over(alloc, instance, path, &start.pairs)?;
    node.begin_with(alloc, first_of(&start.cuts))?;
    node.want(basis_of(alloc, instance, path, start, &node)?);
    Ok(node)
}

/// The first of some cuts.
fn first_of(cuts: &[Cut]) -> &[Cut]
    ensures { length result.now ≤ 65536 }
{
    let (front, _) = cuts.split_at(cuts.len().min(MANY));
    front
}

/// The basis of a start, as a node's relaxation has its columns and rows.
fn basis_of(
    alloc: Global,
    instance: &Instance,
    path: &Path,
    start: &Start,
    node: &NodeLp,
) -> Result<Basis, AllocError> {
    let mut columns = Vec::with_capacity(alloc, node.lp().cols().len())?;
    for column in node.lp().cols() {
        columns.push(start.is_basic(column.u, column.v))?;
    }
    Ok(Basis {
        columns,
        slacks: slacks_of(alloc, start, node)?,
        gone: gone_column(instance, path, start),
    })
}

/// Which slacks are basic at the basis of a start: those of rows that it knows as they were, those of its cuts not.
fn slacks_of(alloc: Global, start: &Start, node: &NodeLp) -> Result<Vec<bool>, AllocError> {
    let rows = node.lp().rows().len();
    let first = rows.saturating_sub(node.cuts().len());
    let mut slacks = Vec::with_capacity(alloc, rows)?;
    for row in 0..rows {
        slacks.push(row < first && start.slacks.get(row).copied().unwrap_or(true))?;
    }
    Ok(slacks)
}

/// The column of the pair that the last condition of a path forbids, if it was basic.
fn gone_column(instance: &Instance, path: &Path, start: &Start) -> Option<Column> {
    let n = instance.n();
    match path.conditions().last() {
        Some(Cond::Absent(u, v)) if *u < n && *v < n && start.is_basic(*u, *v) => Some(Column {
            u: *u,
            v: *v,
            cost: instance.d(*u, *v),
            must: false,
        }),
        _ => None,
    }
}
