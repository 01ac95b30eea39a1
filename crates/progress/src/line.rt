//! The line that tells how a search stands.
ghost use Rattle.std.specs.Prelude.{◌≡◌, ℕ, ◌++◌, IfOk, string_bytes, decimal};
ghost use Rattle.progress.specs.Lines.{line_text, standing_text, seconds_text, nodes_text, best_text, estimate_text, percent, length_of_key, hundredths_missed};

use std::alloc::{AllocError, Global};
use std::fmt::Write;

/// How a search stands after some seconds: how many nodes are settled and how many are open, the length of the best tour, and an
/// estimate of a length that no tour is shorter than, if there is one.
#[derive(Clone, Copy, Debug, PartialEq, Eq)]
pub struct Standing {
    pub seconds: u64,
    pub settled: u64,
    pub open: u64,
    pub best: u64,
    pub bound: Option<u64>,
}

/// The length that a key stands for: no less than 0, and no more than the best tour's.
pub fn bound_of(best: u64, key: i64) -> u64
    ensures { result ≡ length_of_key best key }
{
    if key < 0 { 0 } else { best.min(key as u64) }
}

/// By how many hundredths of a percent of the best length a bound misses it. Of a length 0 nothing is missed.
fn hundredths(best: u64, bound: u64) -> u128
    ensures { result ≡ hundredths_missed best bound }
{
    if best == 0 {
        return 0;
    }
    best.saturating_sub(bound) as u128 * 10_000 / best as u128
}

/// Adds a word and a number.
fn add(line: &mut String, word: &str, number: u128) -> Result<(), AllocError>
    ensures { IfOk result (λ _. string_bytes line.new ≡ string_bytes line.old ++ (word.now ++ decimal number)) }
{
    write!(line, "{word}{number}")
}

/// Adds hundredths of a percent, with two places behind the point.
fn add_percent(line: &mut String, hundredths: u128) -> Result<(), AllocError>
    ensures { IfOk result (λ _. string_bytes line.new ≡ string_bytes line.old ++ percent hundredths) }
{
    add(line, ", gap ", hundredths / 100)?;
    add(line, ".", hundredths / 10 % 10)?;
    add(line, "", hundredths % 10)?;
    line.push_str(" %")
}

/// Adds the bound.
fn add_estimate(line: &mut String, bound: u64) -> Result<(), AllocError>
    ensures { IfOk result (λ _. string_bytes line.new ≡ string_bytes line.old ++ estimate_text bound) }
{
    write!(line, ", estimated bound {bound}")
}

/// Adds the bound and the gap.
fn add_bound(line: &mut String, best: u64, bound: u64) -> Result<(), AllocError>
    ensures { IfOk result (λ _. string_bytes line.new ≡ string_bytes line.old ++ (estimate_text bound ++ percent (hundredths_missed best bound))) }
{
    let missed = hundredths(best, bound);
    add_estimate(line, bound)?;
    add_percent(line, missed)
}

/// Adds a word and a number of a field.
fn add_field(line: &mut String, word: &str, number: u64) -> Result<(), AllocError>
    ensures { IfOk result (λ _. string_bytes line.new ≡ string_bytes line.old ++ (word.now ++ decimal number)) }
{
    write!(line, "{word}{number}")
}

/// The seconds.
fn seconds_line(alloc: Global, seconds: u64) -> Result<String, AllocError>
    ensures { IfOk result (λ line. string_bytes line ≡ seconds_text seconds) }
{
    format!(in alloc; "{seconds} s: ")
}

/// Adds the nodes.
fn add_nodes(line: &mut String, settled: u64, free: u64) -> Result<(), AllocError>
    ensures { IfOk result (λ _. string_bytes line.new ≡ string_bytes line.old ++ nodes_text settled free) }
{
    add_field(line, "settled ", settled)?;
    add_field(line, ", open ", free)
}

/// Adds the best length.
fn add_best(line: &mut String, best: u64) -> Result<(), AllocError>
    ensures { IfOk result (λ _. string_bytes line.new ≡ string_bytes line.old ++ best_text best) }
{
    write!(line, ", best {best}")
}

/// The line without a bound.
fn standing_line(alloc: Global, standing: &Standing) -> Result<String, AllocError>
    ensures { IfOk result (λ line. string_bytes line
        ≡ standing_text standing.now.seconds standing.now.settled standing.now.open standing.now.best) }
{
    let mut line = seconds_line(alloc, standing.seconds)?;
    add_nodes(&mut line, standing.settled, standing.open)?;
    add_best(&mut line, standing.best)?;
    Ok(line)
}

/// The line: ASCII, with no end.
pub fn text(alloc: Global, standing: &Standing) -> Result<String, AllocError>
    ensures { IfOk result (λ line. string_bytes line
        ≡ line_text standing.now.seconds standing.now.settled standing.now.open standing.now.best standing.now.bound) }
{
    let mut line = standing_line(alloc, standing)?;
    let Some(bound) = standing.bound else {
        return Ok(line);
    };
    add_bound(&mut line, standing.best, bound)?;
    Ok(line)
}
