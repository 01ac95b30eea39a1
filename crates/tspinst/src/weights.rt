//! Sections of weights.

ghost use Rattle.std.specs.Prelude.{◌≡◌, ◌≢◌, ℕ, ◌+◌, ◌-◌, ◌*◌, ◌^◌, ◌<◌, ◌≤◌, IfOk};
ghost use Rattle.std.specs.List.{range_with_len};
ghost use Rattle.tspinst.specs.Tables.{IsTable};
ghost use Rattle.tspinst.specs.Sections.{Gives, weight, is_full, with_weight, entry_read, entries_read, columns, row, entries, weights_read};
ghost use Rattle.tspinst.specs.Views.{Answers};

use crate::keywords::Format;
use crate::refusals::{ReadError, Refusal};
use crate::square::{set_distance, zeros};
use crate::words::Words;
use std::alloc::Global;
use tsplex::{NumberFault, whole};

/// The weight that a word spells.
fn weight_of(line: u32, word: &[u8]) -> Result<u32, Refusal>
    ensures same { result ≡ weight (line, word.now) }
    ensures bound { IfOk result (λ w. w < 2 ^ 30) }
{
    match whole(word, 0x3fff_ffff) {
        Ok(w) => {
            if w < 0 {
                Err(Refusal::BadNumber(line, NumberFault::OutOfRange))
            } else {
                Ok(w as u32)
            }
        }
        Err(fault) => Err(Refusal::BadNumber(line, fault)),
    }
}

/// Whether a format lists each pair twice.
fn lists_twice(format: Format) -> bool
    ensures { result ≡ is_full format }
{
    matches!(format, Format::Full)
}

/// Keeps a weight, or compares it with the one that is there.
fn keep(
    table: &mut [u32],
    format: Format,
    n: usize,
    i: usize,
    j: usize,
    line: u32,
    w: u32,
) -> Result<(), Refusal>
    requires table { IsTable n table.old }
    requires row { i < n }
    requires column { j < n }
    requires apart { i ≢ j }
    requires small { w < 2 ^ 30 }
    ensures table { IsTable n table.new }
    ensures kept { Gives result table.new (with_weight format n table.old i j line w) }
{
    if lists_twice(format) && j < i {
        if table[j * n + i] == w {
            Ok(())
        } else {
            Err(Refusal::Asymmetric(line, j as u32 + 1, i as u32 + 1))
        }
    } else {
        set_distance(table, n, i, j, w);
        Ok(())
    }
}

/// Reads the entry of row `i` and column `j`.
#[tactic(auto, unfolding(crate::specs::Sections::entry_read))]
fn read_entry(
    words: &mut Words<'_>,
    table: &mut [u32],
    format: Format,
    n: usize,
    i: usize,
    j: usize,
) -> Result<(), Refusal>
    requires table { IsTable n table.old }
    requires row { i < n }
    requires column { j < n }
    ensures table { IsTable n table.new }
    ensures read { Gives result (table.new, words.new) (entry_read format n (i, j) table.old words.old) }
{
    match words.next() {
        Some((line, word)) => {
            if i == j {
                return Ok(());
            }
            let w = weight_of(line, word)?;
            keep(table, format, n, i, j, line, w)
        }
        None => Err(Refusal::Truncated),
    }
}

/// The first column that row `i` lists, and the one behind the last.
fn column_range(format: Format, n: usize, i: usize) -> (usize, usize)
    requires few { n ≤ 2000 }
    requires row { i < n }
    ensures same { columns format n i ≡ range_with_len result.0 (result.1 - result.0) }
    ensures bound { result.1 ≤ n }
{
    match format {
        Format::Function => (0, 0),
        Format::Full => (0, n),
        Format::Upper => (i + 1, n),
        Format::Lower => (0, i),
        Format::UpperDiagonal => (i, n),
        Format::LowerDiagonal => (0, i + 1),
    }
}

/// Reads a row.
#[tactic(auto, using(crate::proofs::WeightLemmas::entry_steps))]
fn read_row(
    words: &mut Words<'_>,
    table: &mut [u32],
    format: Format,
    n: usize,
    i: usize,
) -> Result<(), Refusal>
    requires table { IsTable n table.old }
    requires row { i < n }
    ensures table { IsTable n table.new }
    ensures read { Gives result (table.new, words.new) (entries_read format n (row format n i) table.old words.old) }
{
    let (first, end) = column_range(format, n, i);
    for j in first..end {
        read_entry(words, table, format, n, i, j)?;
    }
    Ok(())
}

/// Reads all rows.
#[tactic(auto, using(crate::proofs::WeightLemmas::row_steps))]
fn read_rows(
    words: &mut Words<'_>,
    table: &mut [u32],
    format: Format,
    n: usize,
) -> Result<(), Refusal>
    requires table { IsTable n table.old }
    ensures table { IsTable n table.new }
    ensures read { Gives result (table.new, words.new) (entries_read format n (entries format n) table.old words.old) }
{
    for i in 0..n {
        read_row(words, table, format, n, i)?;
    }
    Ok(())
}

/// Reads a section of weights into a table.
#[tactic(auto, unfolding(crate::specs::Sections::weights_read))]
pub fn read_weights(
    alloc: Global,
    words: &mut Words<'_>,
    format: Format,
    n: u32,
) -> Result<Vec<u32>, ReadError>
    requires many { 3 ≤ n }
    requires few { n ≤ 2000 }
    ensures table { IfOk result (λ v. IsTable n v.items) }
    ensures read { Answers (λ v. v.items) result words.new (weights_read format n words.old) }
{
    let n = n as usize;
    let mut table = zeros(alloc, n)?;
    read_rows(words, &mut table, format, n)?;
    Ok(table)
}
