//! The plain values. Cities are numbers from 0; a set is a strictly rising list of them.

/// How a distance follows from coordinates (TSPLIB 95: EUC_2D, CEIL_2D, ATT, MAN_2D, MAX_2D).
#[derive(Clone, Copy, Debug, PartialEq, Eq)]
pub enum Rule {
    Euclidean,
    RoundedUp,
    PseudoEuclidean,
    Manhattan,
    Maximum,
}

/// `n` cities, and the distance of `u` and `v`, of which `u` is the lesser, at place `u * n + v` of the table. Each tour joins each
/// of the fixed pairs.
#[derive(Drop)]
pub struct Instance {
    pub n: u32,
    pub table: Vec<u32>,
    pub fixed: Vec<(u32, u32)>,
}

/// A subtour cut, a comb with its handle and its teeth, or an odd cut with its handle and its pairs.
#[derive(Drop)]
pub enum Cut {
    Subtour(Vec<u32>),
    Comb(Vec<u32>, Vec<Vec<u32>>),
    Odd(Vec<u32>, Vec<(u32, u32)>),
}

/// A fixed pair, which has no depth; a pair that a tour does not use, or uses; a set that it crosses exactly twice, or four times at
/// least.
#[derive(Drop)]
pub enum Condition {
    Fixed(u32, u32),
    Absent(u32, u32),
    Present(u32, u32),
    Two(Vec<u32>),
    Four(Vec<u32>),
}

/// The dual of a cut, in units (2^20 a length).
#[derive(Drop)]
pub struct CutDual {
    pub cut: Cut,
    pub dual: u64,
}

/// The dual of the condition at a depth of the path; depths count from 1, behind the fixed pairs.
#[derive(Clone, Copy, Debug, PartialEq, Eq)]
pub struct CliqueDual {
    pub depth: u32,
    pub dual: u64,
}

/// The duals that close a leaf.
#[derive(Drop)]
pub struct Closing {
    pub city: Vec<i64>,
    pub cuts: Vec<CutDual>,
    pub conds: Vec<CliqueDual>,
}

/// A proof tree. The first child of a split has the pair unused or the set crossed twice.
#[derive(Drop)]
pub enum Tree {
    Open,
    Closed(Closing),
    Edge(u32, u32, Box<Tree>, Box<Tree>),
    Clique(Vec<u32>, Box<Tree>, Box<Tree>),
}
