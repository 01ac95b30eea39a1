//! The nodes of a tree as a strip: a bar for each depth, of its splits, its closed and its open leaves, one above the other.
ghost use Rattle.std.specs.Prelude.{◌≤◌, ◌+◌, IfOk, OnOk};
ghost use Rattle.std.specs.List.{AllByRecursion};
ghost use Rattle.picture.specs.Canvas.{IsInStrip};

use crate::canvas::{Bar, FLOOR, HEIGHT, MARGIN, SIDE};
use crate::tree::Node;
use std::alloc::{AllocError, Global};

/// How many depths are drawn at most.
const MOST_DEPTHS: usize = 960;

/// How wide a bar is at most.
const WIDEST: u32 = 40;

/// How many nodes of each kind there are at a depth.
#[derive(Clone, Copy, Debug, PartialEq, Eq, Drop)]
struct Level {
    open: u64,
    closed: u64,
    split: u64,
}

/// A depth without nodes.
const NOTHING: Level = Level {
    open: 0,
    closed: 0,
    split: 0,
};

impl Level {
    /// With one node more.
    fn with(self, node: Node) -> Level {
        let Level {
            open,
            closed,
            split,
        } = self;
        match node {
            Node::Open => Level {
                open: open.saturating_add(1),
                closed,
                split,
            },
            Node::Closed => Level {
                open,
                closed: closed.saturating_add(1),
                split,
            },
            Node::Split => Level {
                open,
                closed,
                split: split.saturating_add(1),
            },
        }
    }

    /// How many nodes there are of a kind.
    fn of(self, node: Node) -> u64 {
        match node {
            Node::Open => self.open,
            Node::Closed => self.closed,
            Node::Split => self.split,
        }
    }

    /// All nodes of the depth.
    fn all(self) -> u64 {
        self.open
            .saturating_add(self.closed)
            .saturating_add(self.split)
    }
}

/// The nodes of each depth that is drawn.
fn levels(alloc: Global, nodes: &[Node], depths: &[u32]) -> Result<Vec<Level>, AllocError> {
    let mut levels = Vec::new(alloc);
    for (node, depth) in nodes.iter().zip(depths.iter()) {
        let depth = *depth as usize;
        if depth < MOST_DEPTHS {
            if levels.len() <= depth {
                levels.resize(depth + 1, NOTHING)?;
            }
            levels[depth] = levels[depth].with(*node);
        }
    }
    Ok(levels)
}

/// How many nodes the fullest depth has.
fn fullest(levels: &[Level]) -> u64 {
    let mut most = 0;
    for level in levels {
        most = level.all().max(most);
    }
    most
}

/// How high a bar of so many nodes is, where the fullest depth has `most`: 1 at least, but where there is no node.
fn height(count: u64, most: u64) -> u32
    ensures { result ≤ 120 }
{
    let whole = u128::from(HEIGHT);
    let most = u128::from(most.max(1));
    ((u128::from(count) * whole + most - 1) / most).min(whole) as u32
}

/// Puts a bar above others of its depth, that are so high together, and says how high they are then.
fn put_bar(bars: &mut Vec<Bar>, bar: Bar, below: u32) -> Result<u32, AllocError>
    requires right { 20 ≤ bar.x }
    requires left { bar.x + bar.width ≤ 980 }
    requires below { below ≤ 120 }
    ensures high { IfOk result (λ high. high ≤ 120) }
    ensures inside { OnOk result (AllByRecursion IsInStrip bars.old.items → AllByRecursion IsInStrip bars.new.items) }
{
    let height = bar.height.min(HEIGHT - below);
    if height > 0 {
        bars.push(Bar {
            x: bar.x,
            y: FLOOR - below - height,
            width: bar.width,
            height,
            node: bar.node,
        })?;
    }
    Ok(below + height)
}

/// Puts the bars of a depth, one above the other.
fn put_level(
    bars: &mut Vec<Bar>,
    level: Level,
    most: u64,
    x: u32,
    width: u32,
) -> Result<(), AllocError>
    requires right { 20 ≤ x }
    requires left { x + width ≤ 980 }
    ensures inside { OnOk result (AllByRecursion IsInStrip bars.old.items → AllByRecursion IsInStrip bars.new.items) }
{
    let mut high = 0;
    for node in [Node::Split, Node::Closed, Node::Open] {
        let bar = Bar {
            x,
            y: FLOOR,
            width,
            height: height(level.of(node), most),
            node,
        };
        high = put_bar(bars, bar, high)?;
    }
    Ok(())
}

/// The strip of a tree, whose nodes come in preorder and lie so deep: for each depth, from the left, a bar of its splits, above it one
/// of its closed leaves, and above that one of its open leaves. A bar is as high as it has nodes.
pub fn bars(alloc: Global, nodes: &[Node], depths: &[u32]) -> Result<Vec<Bar>, AllocError>
    ensures { IfOk result (λ bars. AllByRecursion IsInStrip bars.items) }
{
    let levels = levels(alloc, nodes, depths)?;
    let most = fullest(&levels);
    let width = (SIDE / levels.len().clamp(1, MOST_DEPTHS) as u32).min(WIDEST);
    let mut bars = Vec::new(alloc);
    for depth in 0..levels.len() {
        let left = (depth.min(MOST_DEPTHS) as u32 * width).min(SIDE - width);
        put_level(&mut bars, levels[depth], most, MARGIN + left, width)?;
    }
    Ok(bars)
}
