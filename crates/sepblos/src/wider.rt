//! Blossoms of further handles, each with those pairs as teeth by which the values violate it most.
ghost use Rattle.std.specs.Prelude.{◌≡◌, ◌<◌, ◌≤◌, length, All, IfOk, IfSome};
ghost use Rattle.tspdef.specs.Cuts.{Cut as AnyCut};
ghost use Rattle.cyc.specs.Frac.{IsEntry};
ghost use Rattle.sepblos.specs.Violated.{IsWorth};

use crate::marks::{is_marked, mark};
use crate::teeth::{pair_set, set_of};
use crate::violated::violated_comb;
use cutform::Cut;
use cyc::{CitySet, Entry, Frac};
use fracgraph::components;
use std::alloc::{AllocError, Global};

/// One length, in units.
const ONE: u32 = 0x10_0000;

/// From which value on a pair is a tooth rather than not, in units.
const HALF: u32 = 0x8_0000;

/// Blossoms that the values violate by 2^10 units or more, by greater margins, and then by the least city of their handles.
///
/// For margins of 1/16, 1/8, 1/5 and 3/10 of one length, the handles are the components of the pairs whose value is farther than
/// the margin from 0 and from one length. A handle's teeth are the pairs with exactly one city in it of a value of a half or
/// more; where they are an even number, the pair nearest to a half is turned, so that they are the odd set of pairs that the
/// values violate most (Padberg and Hong 1980). Where two teeth meet in a city, both are left out and the city goes over to the
/// other side of the handle, by which nothing is lost where the values of its pairs add up to two. Nothing is said of what is found but that each
/// blossom is violated: any search for cuts may miss some.
///
/// A handle that the margin before has too is not looked at again. Each other one takes a pass over the entries, and two more where two
/// pairs of a half or more leave it: O(entries * handles).
pub fn wider_blossoms(alloc: Global, x: &Frac) -> Result<Vec<Cut>, AllocError>
    ensures { IfOk result (λ cuts. All (IsWorth x.now) cuts.items) }
{
    let first = handles_within(alloc, x, 0x1_0000)?;
    let second = handles_within(alloc, x, 0x2_0000)?;
    let third = handles_within(alloc, x, 0x3_3333)?;
    let fourth = handles_within(alloc, x, 0x4_cccd)?;
    let none = Vec::new(alloc);
    let cuts = with_blossoms(alloc, x, &first, &[], none)?;
    let cuts = with_blossoms(alloc, x, &second, &first, cuts)?;
    let cuts = with_blossoms(alloc, x, &third, &second, cuts)?;
    let cuts = with_blossoms(alloc, x, &fourth, &third, cuts)?;
    Ok(cuts)
}

/// The components of the pairs whose value is farther than the margin from 0 and from one length.
fn handles_within(alloc: Global, x: &Frac, margin: u32) -> Result<Vec<CitySet>, AllocError>
    requires { margin ≤ 0x10_0000 }
{
    components(alloc, x, margin, ONE - margin)
}

/// The best blossoms of handles that were not seen before, after other cuts.
fn with_blossoms(
    alloc: Global,
    x: &Frac,
    handles: &[CitySet],
    seen: &[CitySet],
    others: Vec<Cut>,
) -> Result<Vec<Cut>, AllocError>
    requires { All (IsWorth x.now) others.items }
    ensures { IfOk result (λ cuts. All (IsWorth x.now) cuts.items) }
{
    let mut cuts = others;
    for handle in handles {
        if let Some(cut) = new_blossom(alloc, x, handle, seen)? {
            cuts.push(cut)?;
        }
    }
    Ok(cuts)
}

/// The best blossom of a handle that was not seen before.
fn new_blossom(
    alloc: Global,
    x: &Frac,
    handle: &CitySet,
    seen: &[CitySet],
) -> Result<Option<Cut>, AllocError>
    ensures { IfOk result (λ c. IfSome c (IsWorth x.now)) }
{
    if seen.iter().any(|other| other.cities() == handle.cities()) {
        return Ok(None);
    }
    best_blossom(alloc, x, handle)
}

/// The blossom of a handle that the values violate most, where they do.
fn best_blossom(alloc: Global, x: &Frac, handle: &CitySet) -> Result<Option<Cut>, AllocError>
    ensures { IfOk result (λ c. IfSome c (IsWorth x.now)) }
{
    let n = x.n();
    let mut inside = vec![in alloc; false; n as usize]?;
    mark(&mut inside, handle.cities());
    let across = look_across(x, &inside);
    if across.heavy < 2 {
        return Ok(None);
    }
    let pairs = teeth_but(alloc, x, &inside, across.turned())?;
    let kept = part(alloc, &pairs, &mut inside)?;
    let teeth = pair_sets(alloc, x, &pairs, &kept)?;
    if teeth.len() < 3 {
        return Ok(None);
    }
    let turned = marked_set(alloc, n, &inside)?;
    let cut = violated_comb(alloc, x, &turned, teeth)?;
    Ok(cut)
}

/// Whether exactly one of a pair's cities has a mark.
#[inline]
fn crosses(inside: &[bool], entry: Entry) -> bool {
    is_marked(inside, entry.u) != is_marked(inside, entry.v)
}

/// The pairs that cross a handle, with what their best odd set needs.
#[derive(Clone, Copy)]
struct Across {
    /// How many have a value of a half or more.
    heavy: usize,
    /// The one whose value is nearest to a half.
    nearest: Option<Entry>,
}

impl Across {
    /// The pair to be turned, so that the teeth are an odd number: for those the sum of the teeth's distances from one length, and of
    /// the others' from 0, is least.
    fn turned(self) -> Option<Entry> {
        if self.heavy % 2 == 0 {
            self.nearest
        } else {
            None
        }
    }
}

/// Looks at the pairs that cross a handle.
fn look_across(x: &Frac, inside: &[bool]) -> Across {
    let mut across = Across {
        heavy: 0,
        nearest: None,
    };
    let mut least = u32::MAX;
    for entry in x.entries() {
        if crosses(inside, *entry) {
            let far = entry.x.abs_diff(HALF);
            if entry.x >= HALF {
                across.heavy = across.heavy.saturating_add(1);
            }
            if far < least {
                least = far;
                across.nearest = Some(*entry);
            }
        }
    }
    across
}

/// Whether the entry is the one that is turned.
fn is_turned(turned: Option<Entry>, entry: Entry) -> bool {
    match turned {
        Some(other) => other == entry,
        None => false,
    }
}

/// The crossing pairs of a value of a half or more, one of them turned.
fn teeth_but(
    alloc: Global,
    x: &Frac,
    inside: &[bool],
    turned: Option<Entry>,
) -> Result<Vec<Entry>, AllocError>
    ensures { IfOk result (λ teeth. All (IsEntry x.now.n) teeth.items) }
{
    let mut teeth = Vec::new(alloc);
    for entry in x.entries() {
        if crosses(inside, *entry) && (entry.x >= HALF) != is_turned(turned, *entry) {
            teeth.push(*entry)?;
        }
    }
    Ok(teeth)
}

/// Which teeth are kept: where one meets another that is kept so far, neither is, and their city goes over to the other side of the handle.
fn part(alloc: Global, teeth: &[Entry], inside: &mut [bool]) -> Result<Vec<bool>, AllocError>
    ensures { IfOk result (λ kept. length kept.items ≡ length teeth.now) }
{
    let mut kept = vec![in alloc; true; teeth.len()]?;
    for later in 0..teeth.len() {
        if let Some((earlier, city)) = met(teeth, &kept, later) {
            kept[earlier] = false;
            kept[later] = false;
            turn(inside, city);
        }
    }
    Ok(kept)
}

/// Which tooth before this one is kept and meets it, if one does, and in which city.
fn met(teeth: &[Entry], kept: &[bool], later: usize) -> Option<(usize, u32)>
    requires long { length kept.now ≡ length teeth.now }
    requires within { later < length teeth.now }
    ensures { IfSome result (λ m. m.0 < later) }
{
    for earlier in 0..later {
        if kept[earlier] {
            if let Some(city) = shared(teeth[earlier], teeth[later]) {
                return Some((earlier, city));
            }
        }
    }
    None
}

/// A city that two pairs share.
fn shared(a: Entry, b: Entry) -> Option<u32> {
    if a.u == b.u || a.u == b.v {
        return Some(a.u);
    }
    if a.v == b.u || a.v == b.v {
        return Some(a.v);
    }
    None
}

/// Turns the mark of a city.
fn turn(inside: &mut [bool], city: u32)
    ensures { length inside.new ≡ length inside.old }
{
    if (city as usize) < inside.len() {
        inside[city as usize] = !inside[city as usize];
    }
}

/// The sets of the pairs that are kept.
fn pair_sets(
    alloc: Global,
    x: &Frac,
    pairs: &[Entry],
    kept: &[bool],
) -> Result<Vec<CitySet>, AllocError>
    requires long { length kept.now ≡ length pairs.now }
    requires pairs { All (IsEntry x.now.n) pairs.now }
{
    let n = x.n();
    let mut sets = Vec::new(alloc);
    for place in 0..pairs.len() {
        if kept[place] {
            let pair = pairs[place];
            sets.push(pair_set(alloc, n, pair.u, pair.v)?)?;
        }
    }
    Ok(sets)
}

/// The cities with marks as a set.
fn marked_set(alloc: Global, n: u32, marks: &[bool]) -> Result<CitySet, AllocError>
    requires many { 3 ≤ n }
    requires few { n ≤ 2000 }
    ensures { IfOk result (λ s. s.n ≡ n) }
{
    let mut cities = Vec::new(alloc);
    for city in 0..n {
        if is_marked(marks, city) {
            cities.push(city)?;
        }
    }
    let set = set_of(alloc, n, cities)?;
    Ok(set)
}
