//! Sections of coordinates, and words that are passed over.

ghost use Rattle.std.specs.Prelude.{◌≡◌, ◌≢◌, ℕ, ◌+◌, ◌-◌, ◌*◌, ◌^◌, ◌<◌, ◌≤◌, length, nat_abs, replicate, IfOk};
ghost use Rattle.distx.specs.Kind.{rule_of};
ghost use Rattle.tsplex.specs.Number.{whole_of};
ghost use Rattle.tspinst.specs.Tables.{IsTable};
ghost use Rattle.tspinst.specs.Sections.{Gives, Returns, passed, coordinate_read, node_if, node_read, point_read, points_from, all_points, points_read};
ghost use Rattle.tspinst.specs.Views.{Answers};

use crate::refusals::{ReadError, Refusal};
use crate::square::table_of_points;
use crate::words::Words;
use distx::{Kind, Point};
use std::alloc::{AllocError, Global};
use tsplex::{NumberFault, whole};

/// Passes over words unread.
#[tactic(auto, using(crate::proofs::PointLemmas::passing))]
pub fn pass(words: &mut Words<'_>, count: u32) -> Result<(), Refusal>
    ensures { Gives result words.new (passed count words.old) }
{
    for _i in 0..count {
        match words.next() {
            Some(_) => {}
            None => return Err(Refusal::Truncated),
        }
    }
    Ok(())
}

/// Reads a coordinate.
#[tactic(auto, unfolding(crate::specs::Sections::coordinate_read))]
fn read_coordinate(words: &mut Words<'_>) -> Result<i32, Refusal>
    ensures read { Returns result words.new (coordinate_read words.old) }
    ensures size { IfOk result (λ x. nat_abs x ≤ 2 ^ 24) }
{
    match words.next() {
        Some((line, word)) => match whole(word, 0x100_0000) {
            Ok(x) => Ok(x as i32),
            Err(fault) => Err(Refusal::BadNumber(line, fault)),
        },
        None => Err(Refusal::Truncated),
    }
}

/// The place of the node whose number a word spells.
fn node_of(line: u32, word: &[u8], n: usize, points: &[Option<Point>]) -> Result<usize, Refusal>
    requires few { n ≤ 2000 }
    requires places { length points.now ≡ n }
    ensures same { result ≡ node_if line n points.now (whole_of word.now n) }
    ensures bound { IfOk result (λ v. v < n) }
{
    match whole(word, n as u32) {
        Ok(v) => {
            if v < 1 {
                return Err(Refusal::BadNode(line));
            }
            let place = v as usize - 1;
            if points[place].is_none() {
                Ok(place)
            } else {
                Err(Refusal::BadNode(line))
            }
        }
        Err(NumberFault::OutOfRange) => Err(Refusal::BadNode(line)),
        Err(fault) => Err(Refusal::BadNumber(line, fault)),
    }
}

/// Reads a node's number.
#[tactic(auto, unfolding(crate::specs::Sections::node_read))]
fn read_node(words: &mut Words<'_>, points: &[Option<Point>], n: usize) -> Result<usize, Refusal>
    requires few { n ≤ 2000 }
    requires places { length points.now ≡ n }
    ensures read { Returns result words.new (node_read n points.now words.old) }
    ensures bound { IfOk result (λ v. v < n) }
{
    match words.next() {
        Some((line, word)) => node_of(line, word, n, points),
        None => Err(Refusal::Truncated),
    }
}

/// Reads a node's number and its point.
#[tactic(auto, unfolding(crate::specs::Sections::point_read))]
fn read_point(words: &mut Words<'_>, points: &mut [Option<Point>], n: usize) -> Result<(), Refusal>
    requires few { n ≤ 2000 }
    requires places { length points.old ≡ n }
    ensures { Gives result (points.new, words.new) (point_read n points.old words.old) }
{
    let place = read_node(words, points, n)?;
    let x = read_coordinate(words)?;
    let y = read_coordinate(words)?;
    points[place] = Some(Point::new(x, y));
    Ok(())
}

/// Reads as many nodes as there are places.
#[tactic(auto, using(crate::proofs::PointLemmas::point_steps))]
fn read_all(words: &mut Words<'_>, points: &mut [Option<Point>], n: usize) -> Result<(), Refusal>
    requires few { n ≤ 2000 }
    requires places { length points.old ≡ n }
    ensures { Gives result (points.new, words.new) (points_from n n points.old words.old) }
{
    for _i in 0..n {
        read_point(words, points, n)?;
    }
    Ok(())
}

/// The points of all nodes.
fn known(alloc: Global, points: &[Option<Point>]) -> Result<Vec<Point>, AllocError>
    ensures { IfOk result (λ v. v.items ≡ all_points points.now) }
{
    points
        .iter()
        .map(|p| p.unwrap_or(Point::new(0, 0)))
        .collect(alloc)
}

/// Reads a section of coordinates into a table of distances.
#[tactic(auto, unfolding(crate::specs::Sections::points_read))]
pub fn read_points(
    alloc: Global,
    words: &mut Words<'_>,
    kind: Kind,
    n: u32,
) -> Result<Vec<u32>, ReadError>
    requires many { 3 ≤ n }
    requires few { n ≤ 2000 }
    ensures table { IfOk result (λ v. IsTable n v.items) }
    ensures read { Answers (λ v. v.items) result words.new (points_read (rule_of kind) n words.old) }
{
    let mut places = vec![in alloc; None; n as usize]?;
    read_all(words, &mut places, n as usize)?;
    let points = known(alloc, &places)?;
    Ok(table_of_points(alloc, kind, &points)?)
}
