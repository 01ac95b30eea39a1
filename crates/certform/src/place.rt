//! Which line must come, and what comes after it.
ghost use Rattle.std.specs.Prelude.{◌≡◌, ◌+◌, ◌==◌, if◌then◌else◌, suc, ℕ, ℤ, IfOk, IsErrOf, Some, None};
ghost use Rattle.certdef.specs.Items.{city_line, cut_line, condition_line};
ghost use Rattle.verdict.specs.Forms.{at_tour, at_bound, at_pair, at_trees, cuts_then, teeth_then, pairs_then, comes_behind, duals_then, form_dual, form_tree, form_cut, form_step};
ghost use Rattle.certline.specs.Said.{said};
ghost use Rattle.certform.specs.Reading.{left_of, form_of};

use crate::error::LineError;
use certline::Item;

/// The lines of a leaf that are still to come, of each kind, and the least city, cut and depth that may come next.
#[derive(Clone, Copy)]
pub struct Left {
    pub cities: u32,
    pub cuts: u32,
    pub conds: u32,
    pub city: u64,
    pub cut: u64,
    pub depth: u64,
}

/// Which line must come: one of the head, a cut's, or one of so many trees.
#[derive(Clone, Copy)]
pub enum Place {
    Title,
    /// The version of the text.
    Size(u32),
    Length(u32),
    /// The bound, in a text of the second version.
    Bound,
    Tour,
    Count,
    /// A cut, so many after it, and so many before it.
    Cut(u32, u64),
    /// The same of a comb's handle, and how many teeth it has.
    Handle(u32, u64, u32),
    /// The same of a tooth, and how many teeth are after it.
    Tooth(u32, u64, u32),
    /// The same of an odd cut's handle, and how many pairs it has.
    OddHandle(u32, u64, u32),
    /// The same of a pair, how many pairs are after it, and the last one before it.
    Pair(u32, u64, u32, Option<(u32, u32)>),
    /// So many trees, and so many cuts are listed.
    Trees(u64, u64),
    /// Lines of a leaf, and then so many trees.
    Duals(u64, u64, Left),
}

/// What comes after an item, where it stands at its place. There is no memory for a count past 2^64 - 1.
pub fn after(place: Place, item: &Item) -> Result<Place, LineError>
    ensures next { IfOk result (λ p. form_step (form_of place) (said item.now) ≡ Some (form_of p)) }
    ensures refused { IsErrOf result LineError.NotALine → form_step (form_of place) (said item.now) ≡ None }
{
    match place {
        Place::Title => match item {
            Item::Cert(version) => Ok(Place::Size(*version)),
            _ => Err(LineError::NotALine),
        },
        Place::Size(version) => match item {
            Item::N(_) => Ok(Place::Length(version)),
            _ => Err(LineError::NotALine),
        },
        Place::Length(version) => match item {
            Item::Length(_) => Ok(length_read(version)),
            _ => Err(LineError::NotALine),
        },
        Place::Bound => match item {
            Item::Bound(_) => Ok(Place::Tour),
            _ => Err(LineError::NotALine),
        },
        Place::Tour => match item {
            Item::Tour(_) => Ok(Place::Count),
            _ => Err(LineError::NotALine),
        },
        Place::Count => match item {
            Item::Cuts(many) => Ok(cuts_on(*many, 0)),
            _ => Err(LineError::NotALine),
        },
        Place::Cut(more, listed) => after_cut(more, listed, item),
        Place::Handle(more, listed, teeth) => match item {
            Item::Handle(_) => teeth_on(more, listed, teeth),
            _ => Err(LineError::NotALine),
        },
        Place::Tooth(more, listed, teeth) => match item {
            Item::Tooth(_) => teeth_on(more, listed, teeth),
            _ => Err(LineError::NotALine),
        },
        Place::OddHandle(more, listed, pairs) => match item {
            Item::Handle(_) => pairs_on(more, listed, pairs, None),
            _ => Err(LineError::NotALine),
        },
        Place::Pair(more, listed, pairs, last) => after_pair(more, listed, pairs, last, item),
        Place::Trees(0, _) => Err(LineError::NotALine),
        Place::Trees(trees, listed) => after_tree(trees - 1, listed, item),
        Place::Duals(trees, listed, left) => after_dual(trees, listed, left, item),
    }
}

/// The second version tells a bound behind the length.
fn length_read(version: u32) -> Place
    ensures { form_of result ≡ (if version == 1 then at_tour else at_bound) }
{
    if version == 1 {
        Place::Tour
    } else {
        Place::Bound
    }
}

/// So many cuts are to come, and then the tree.
fn cuts_on(more: u32, listed: u64) -> Place
    ensures { form_of result ≡ cuts_then more listed }
{
    if more == 0 {
        Place::Trees(1, listed)
    } else {
        Place::Cut(more - 1, listed)
    }
}

/// One more cut is listed.
fn cut_listed(more: u32, listed: u64) -> Result<Place, LineError>
    ensures next { IfOk result (λ p. form_of p ≡ cuts_then more (listed + 1)) }
    ensures refused { ¬ IsErrOf result LineError.NotALine }
{
    match listed.checked_add(1) {
        Some(listed) => Ok(cuts_on(more, listed)),
        None => Err(LineError::NoMemory),
    }
}

/// So many teeth are to come, and then other cuts.
fn teeth_on(more: u32, listed: u64, teeth: u32) -> Result<Place, LineError>
    ensures next { IfOk result (λ p. form_of p ≡ teeth_then more listed teeth) }
    ensures refused { ¬ IsErrOf result LineError.NotALine }
{
    if teeth == 0 {
        cut_listed(more, listed)
    } else {
        Ok(Place::Tooth(more, listed, teeth - 1))
    }
}

/// So many pairs are to come, and then other cuts.
fn pairs_on(
    more: u32,
    listed: u64,
    pairs: u32,
    last: Option<(u32, u32)>,
) -> Result<Place, LineError>
    ensures next { IfOk result (λ p. form_of p ≡ pairs_then more listed pairs last) }
    ensures refused { ¬ IsErrOf result LineError.NotALine }
{
    if pairs == 0 {
        cut_listed(more, listed)
    } else {
        Ok(Place::Pair(more, listed, pairs - 1, last))
    }
}

/// Whether a pair may come behind the last one, if any.
fn comes_behind(last: Option<(u32, u32)>, u: u32, v: u32) -> bool
    ensures { result ≡ comes_behind last (u, v) }
{
    match last {
        None => true,
        Some((x, y)) => x < u || x == u && y < v,
    }
}

fn after_pair(
    more: u32,
    listed: u64,
    pairs: u32,
    last: Option<(u32, u32)>,
    item: &Item,
) -> Result<Place, LineError>
    ensures next { IfOk result (λ p. form_step (at_pair more listed pairs last) (said item.now) ≡ Some (form_of p)) }
    ensures refused { IsErrOf result LineError.NotALine → form_step (at_pair more listed pairs last) (said item.now) ≡ None }
{
    match item {
        Item::Pair(u, v) => {
            if comes_behind(last, *u, *v) {
                pairs_on(more, listed, pairs, Some((*u, *v)))
            } else {
                Err(LineError::NotALine)
            }
        }
        _ => Err(LineError::NotALine),
    }
}

/// So many lines of a leaf are to come, and then trees.
#[tactic(auto, using(crate::proofs::PlaceLemmas::nothing_left, crate::proofs::PlaceLemmas::some_left))]
fn duals_on(trees: u64, listed: u64, left: Left) -> Place
    ensures { form_of result ≡ duals_then trees listed (left_of left) }
{
    if left.cities != 0 || left.cuts != 0 || left.conds != 0 {
        Place::Duals(trees, listed, left)
    } else {
        Place::Trees(trees, listed)
    }
}

fn after_cut(more: u32, listed: u64, item: &Item) -> Result<Place, LineError>
    ensures next { IfOk result (λ p. form_cut more listed (said item.now) ≡ Some (form_of p)) }
    ensures refused { IsErrOf result LineError.NotALine → form_cut more listed (said item.now) ≡ None }
{
    match item {
        Item::Subtour(_) => cut_listed(more, listed),
        Item::Comb(teeth) => Ok(Place::Handle(more, listed, *teeth)),
        Item::Odd(pairs) => Ok(Place::OddHandle(more, listed, *pairs)),
        _ => Err(LineError::NotALine),
    }
}

/// Two trees in place of one, before so many others.
fn split_on(trees: u64, listed: u64) -> Result<Place, LineError>
    ensures next { IfOk result (λ p. form_of p ≡ at_trees (suc (suc trees)) listed) }
    ensures refused { ¬ IsErrOf result LineError.NotALine }
{
    match trees.checked_add(2) {
        Some(trees) => Ok(Place::Trees(trees, listed)),
        None => Err(LineError::NoMemory),
    }
}

fn after_tree(trees: u64, listed: u64, item: &Item) -> Result<Place, LineError>
    ensures next { IfOk result (λ p. form_tree trees listed (said item.now) ≡ Some (form_of p)) }
    ensures refused { IsErrOf result LineError.NotALine → form_tree trees listed (said item.now) ≡ None }
{
    match item {
        Item::Edge(_, _) | Item::Clique(_) => split_on(trees, listed),
        Item::Leaf(cities, cuts, conds) => {
            let left = Left {
                cities: *cities,
                cuts: *cuts,
                conds: *conds,
                city: 1,
                cut: 1,
                depth: 1,
            };
            Ok(duals_on(trees, listed, left))
        }
        Item::Open => Ok(Place::Trees(trees, listed)),
        _ => Err(LineError::NotALine),
    }
}

fn after_dual(trees: u64, listed: u64, left: Left, item: &Item) -> Result<Place, LineError>
    ensures next { IfOk result (λ p. form_dual trees listed (left_of left) (said item.now) ≡ Some (form_of p)) }
    ensures refused { IsErrOf result LineError.NotALine → form_dual trees listed (left_of left) (said item.now) ≡ None }
{
    match item {
        Item::City(city, _) => after_city(trees, listed, left, *city),
        Item::CutDual(cut, _) => after_cut_dual(trees, listed, left, *cut),
        Item::CondDual(depth, _) => after_condition(trees, listed, left, *depth),
        _ => Err(LineError::NotALine),
    }
}

/// Whatever the dual is.
fn after_city(trees: u64, listed: u64, left: Left, city: u32) -> Result<Place, LineError>
    ensures next { IfOk result (λ p. (dual : ℤ) → form_dual trees listed (left_of left) (city_line city dual) ≡ Some (form_of p)) }
    ensures refused { IsErrOf result LineError.NotALine
        → (dual : ℤ) → form_dual trees listed (left_of left) (city_line city dual) ≡ None }
{
    let city = u64::from(city);
    if left.cities == 0 {
        return Err(LineError::NotALine);
    }
    if city < left.city {
        return Err(LineError::NotALine);
    }
    let left = Left {
        cities: left.cities - 1,
        city: city + 1,
        ..left
    };
    Ok(duals_on(trees, listed, left))
}

/// Whatever the dual is.
fn after_cut_dual(trees: u64, listed: u64, left: Left, cut: u32) -> Result<Place, LineError>
    ensures next { IfOk result (λ p. (dual : ℕ) → form_dual trees listed (left_of left) (cut_line cut dual) ≡ Some (form_of p)) }
    ensures refused { IsErrOf result LineError.NotALine
        → (dual : ℕ) → form_dual trees listed (left_of left) (cut_line cut dual) ≡ None }
{
    let cut = u64::from(cut);
    if left.cities != 0 || left.cuts == 0 {
        return Err(LineError::NotALine);
    }
    if cut < left.cut || cut > listed {
        return Err(LineError::NotALine);
    }
    let left = Left {
        cuts: left.cuts - 1,
        cut: cut + 1,
        ..left
    };
    Ok(duals_on(trees, listed, left))
}

/// Whatever the dual is.
fn after_condition(trees: u64, listed: u64, left: Left, depth: u32) -> Result<Place, LineError>
    ensures next { IfOk result (λ p. (dual : ℕ) → form_dual trees listed (left_of left) (condition_line depth dual) ≡ Some (form_of p)) }
    ensures refused { IsErrOf result LineError.NotALine
        → (dual : ℕ) → form_dual trees listed (left_of left) (condition_line depth dual) ≡ None }
{
    let depth = u64::from(depth);
    if left.cities != 0 || left.cuts != 0 || left.conds == 0 {
        return Err(LineError::NotALine);
    }
    if depth < left.depth {
        return Err(LineError::NotALine);
    }
    let left = Left {
        conds: left.conds - 1,
        depth: depth + 1,
        ..left
    };
    Ok(duals_on(trees, listed, left))
}
