//! Every limit and tolerance of the engine, in one place. None of them can make an answer wrong, since the check decides what
//! an answer is worth; they decide how soon a good one is found. Numbers are in 2^-32 unless a line says otherwise.

/// Infeasibilities up to 2^-16 are taken for rounding: a sixty-fourth of the fault that the check allows.
pub const INFEASIBILITY: i64 = 65_536;

/// In the ratio test no entry of the pivot row below 2^-9 is a pivot: it would multiply the rounding of 2^-32 by 512 at most.
pub const LEAST_ROW_ENTRY: i64 = 8_388_608;

/// The same entry, found anew by `ftran`, may be half of that, since the two differ by rounding. Below it the basis is
/// factored anew in place of a pivot.
pub const LEAST_COLUMN_ENTRY: i64 = 4_194_304;

/// Where the entries left of a column are below an eighth of 2^-14 while the basis is factored, the column depends on the ones
/// before it: they are what rounding leaves of zeros.
pub const LEAST_PIVOT: i64 = 262_144;

/// A pivot of the factors is at least 2^-3 of the largest entry left in its column (threshold pivoting, Suhl and Suhl 1990).
pub const PIVOT_THRESHOLD: u32 = 3;

/// The basis is factored anew after 64 pivots: then solving by the etas costs about as much as by the triangles.
pub const MOST_PIVOTS: usize = 64;

/// Numbers of an update up to 2^-29 are taken for what rounding leaves of zeros.
pub const NOISE: i64 = 8;

/// It is factored anew where more rows than so many came since.
pub const MOST_NEW_ROWS: usize = 48;

/// Devex reference weights and infeasibilities count up to 2^8 in the choice of the leaving variable, so that a product of
/// three of them has less than 128 bits.
pub const MOST_WEIGHT: i64 = 1_099_511_627_776;

/// The bound of a slack that has none, 2^20: more than the pairs that cross the sets of a row.
pub const FAR: i64 = 4_503_599_627_370_496;

/// How far duals go along a ray at their greatest, in units: 2^58, a sixteenth of what the check allows.
pub const RAY_LENGTH: i64 = 288_230_376_151_711_744;

/// Costs are shifted right until the greatest has about 20 bits, so that duals in 2^-32 have room in 64 bits.
pub const COST_BITS: u32 = 20;

/// A word of 64 pseudo-random bits is shifted right by this for a perturbation, which is then below 2^-14: so small that those of
/// a thousand columns together hardly move the optimum.
pub const PERTURBATION_SHIFT: u32 = 46;

/// Rounds of iterative refinement: of the duals by the perturbed costs and of the values after a factoring, and of the duals
/// by the true costs at the end. One more gained nothing measurable.
pub const REFINEMENTS: u32 = 2;

pub const LAST_REFINEMENTS: u32 = 3;
