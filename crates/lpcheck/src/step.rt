//! The best step of one dual.
//!
//! Where the signed dual of a row rises by d, the lower side gains d times the row's right side, and of each column that
//! the row meets the change of its term: a sum over the row's pieces. The steps are by powers of two from 2^10 to 2^61,
//! up and down, within the dual's sign and size: 104 sums at most, O(pieces) each.
ghost use Rattle.std.specs.Prelude.{◌≡◌, ◌⊎◌, ◌≤◌, ◌<◌, ◌+◌, ◌^◌, length, ℕ, ℤ, pos, ◌≤ℤ◌, ◌+ℤ◌, ◌-ℤ◌, ◌*ℤ◌, All, IfOk, OnOk, IsTrue, ◌↔◌};
ghost use Rattle.lpcheck.specs.Sizes.{IsWithin};
ghost use Rattle.lpcheck.specs.Rows.{signed};
ghost use Rattle.lpcheck.specs.Rests.{IsDual, IsStep};
ghost use Rattle.lpcheck.specs.Cells.{AreWithin};
ghost use Rattle.lpcheck.specs.Steps.{IsMove, column_gain, cell_gain, cells_gain, pieces_gain, step_gain, IsFound};

use crate::numbers::{plus, term_gain, times_coef, times_right};
use crate::piece::Piece;
use crate::place::Place;
use crate::{Cell, Column, Sense};
use std::alloc::{AllocError, Global};

/// A dual that was found, and what it gains; a gain of 1023 is none.
#[derive(Clone, Copy)]
pub struct Best {
    pub next: i64,
    pub gain: i128,
}

fn gain_at(piece: &Piece, d: i64) -> i128
    ensures value { result ≡ column_gain piece.now.must piece.now.r piece.now.coef d }
    ensures size { IsWithin (2 ^ 80) result }
{
    term_gain(piece.must, piece.r, times_coef(d, piece.coef))
}

/// What the pieces gain.
fn gain_of(pieces: &[Piece], d: i64) -> i128
    requires few { length pieces.now ≤ 4194304 }
    ensures value { result ≡ pieces_gain pieces.now d }
    ensures size { IsWithin (2 ^ 104) result }
{
    let mut total: i128 = 0;
    for piece in pieces {
        total = plus(total, gain_at(piece, d));
    }
    total
}

fn add_piece(
    pieces: &mut Vec<Piece>,
    cell: &Cell,
    cols: &[Column],
    rs: &[i128],
) -> Result<(), AllocError>
    requires in_cols { cell.now.column < length cols.now }
    requires in_rs { cell.now.column < length rs.now }
    requires sizes { All (IsWithin (2 ^ 100)) rs.now }
    ensures gains { OnOk result ((d : ℤ) → pieces_gain pieces.new.items d ≡ pieces_gain pieces.old.items d +ℤ cell_gain cols.now rs.now cell.now d) }
    ensures one { OnOk result (length pieces.new.items ≡ length pieces.old.items + 1) }
{
    let place = cell.column as usize;
    let must = cols[place].must;
    let r = rs[place];
    pieces.push(Piece {
        must,
        r,
        coef: cell.coef,
    })?;
    Ok(())
}

/// The pieces of a row's cells.
pub fn pieces_of(
    alloc: Global,
    cells: &[Cell],
    cols: &[Column],
    rs: &[i128],
) -> Result<Vec<Piece>, AllocError>
    requires within { AreWithin (length cols.now) cells.now }
    requires size { length rs.now ≡ length cols.now }
    requires sizes { All (IsWithin (2 ^ 100)) rs.now }
    ensures gains { IfOk result (λ ps. (d : ℤ) → pieces_gain ps.items d ≡ cells_gain cols.now rs.now cells.now d) }
    ensures few { IfOk result (λ ps. length ps.items ≡ length cells.now) }
{
    let mut pieces = Vec::with_capacity(alloc, cells.len())?;
    for cell in cells {
        add_piece(&mut pieces, cell, cols, rs)?;
    }
    Ok(pieces)
}

fn is_dual(sense: Sense, z: i64) -> bool
    ensures { IsTrue result ↔ IsDual sense z }
{
    match sense {
        Sense::Eq => z >= -(1 << 62) && z <= 1 << 62,
        _ => z >= 0 && z <= 1 << 62,
    }
}

/// By how much the signed dual rises.
pub fn change(sense: Sense, y: i64, z: i64) -> i64
    requires above { (y -ℤ pos (2 ^ 61)) ≤ℤ z }
    requires below { z ≤ℤ (y +ℤ pos (2 ^ 61)) }
    ensures { result ≡ signed sense z -ℤ signed sense y }
{
    match sense {
        Sense::AtMost => y - z,
        _ => z - y,
    }
}

/// What a step of the dual gains.
fn trial(sense: Sense, rhs: u32, pieces: &[Piece], y: i64, z: i64) -> i128
    requires few { length pieces.now ≤ 4194304 }
    requires above { (y -ℤ pos (2 ^ 61)) ≤ℤ z }
    requires below { z ≤ℤ (y +ℤ pos (2 ^ 61)) }
    ensures { result ≡ step_gain sense rhs pieces.now y z }
{
    let d = change(sense, y, z);
    plus(times_right(d, rhs), gain_of(pieces, d))
}

fn word_of(power: u32) -> u64
    requires { power ≤ 61 }
    ensures value { result ≡ 2 ^ power }
    ensures most { result ≤ 2 ^ 61 }
{
    1u64 << power
}

fn power_of(power: u32) -> i64
    requires { power ≤ 61 }
    ensures value { result ≡ pos (2 ^ power) }
    ensures most { result ≤ℤ pos (2 ^ 61) }
{
    word_of(power) as i64
}

fn up_by(y: i64, power: u32) -> i64
    requires most { power ≤ 61 }
    requires size { IsWithin (2 ^ 62) y }
    ensures is { result ≡ y +ℤ pos (2 ^ power) }
    ensures below { result ≤ℤ (y +ℤ pos (2 ^ 61)) }
{
    y + power_of(power)
}

fn down_by(y: i64, power: u32) -> i64
    requires most { power ≤ 61 }
    requires size { IsWithin (2 ^ 62) y }
    ensures is { result ≡ y -ℤ pos (2 ^ power) }
    ensures above { (y -ℤ pos (2 ^ 61)) ≤ℤ result }
{
    y - power_of(power)
}

fn moved(place: &Place, power: u32, up: bool) -> i64
    requires most { power ≤ 61 }
    ensures is { IsMove up place.now.y power result }
    ensures above { (place.now.y -ℤ pos (2 ^ 61)) ≤ℤ result }
    ensures below { result ≤ℤ (place.now.y +ℤ pos (2 ^ 61)) }
{
    if up {
        up_by(place.y, power)
    } else {
        down_by(place.y, power)
    }
}

/// The better of a step and the best so far.
fn better(place: &Place, pieces: &[Piece], power: u32, up: bool, best: &Best) -> Best
    requires few { length pieces.now ≤ 4194304 }
    requires least { 10 ≤ power }
    requires most { power ≤ 61 }
    ensures kept { (result ≡ best.now) ⊎ IsFound place.now.sense place.now.rhs pieces.now place.now.y result.next result.gain }
    ensures most { best.now.gain ≤ℤ result.gain }
    ensures seen { (z : ℤ) → IsMove up place.now.y power z → IsDual place.now.sense z → step_gain place.now.sense place.now.rhs pieces.now place.now.y z ≤ℤ result.gain }
{
    let next = moved(place, power, up);
    if !is_dual(place.sense, next) {
        return *best;
    }
    let gain = trial(place.sense, place.rhs, pieces, place.y, next);
    if gain > best.gain {
        return Best { next, gain };
    }
    *best
}

/// The best step of the dual, and its gain.
pub fn best_step(place: &Place, pieces: &[Piece]) -> Best
    requires few { length pieces.now ≤ 4194304 }
    ensures found { pos 1024 ≤ℤ result.gain → IsFound place.now.sense place.now.rhs pieces.now place.now.y result.next result.gain }
    ensures none { (k : ℕ) (z : ℤ) → 10 ≤ k → k ≤ 61 → IsStep place.now.y k z → IsDual place.now.sense z → step_gain place.now.sense place.now.rhs pieces.now place.now.y z ≤ℤ result.gain }
{
    let mut best = Best {
        next: 0,
        gain: 1023,
    };
    let mut power: u32 = 10;
    while power < 62 {
        best = better(place, pieces, power, true, &best);
        best = better(place, pieces, power, false, &best);
        power += 1;
    }
    best
}
