//! The lines of a certificate, read one by one.
ghost use Rattle.std.specs.Prelude.{◌≡◌, ℕ, ℤ, ◌+◌, ◌<◌, ◌≤◌, ◌^◌, ◌++◌, ◌∷◌, [], List, length, true, codes, slice_index, IfOk, IfErr, IfSome, IfNone};
ghost use Rattle.certdef.specs.Items.{Item as TheItem, line, size_line, bound_line, city_line, fits};
ghost use Rattle.certdef.specs.Proofs.{ended};
ghost use Rattle.certline.specs.Said.{said};
ghost use Rattle.onetree.specs.Certificates.{title, HasNoTitle};
ghost use Rattle.onetree.specs.Readings.{BeginsWith, HasHead, IsStop};

use certline::{Item, read_line};
use memchr::memchr;
use std::alloc::{AllocError, Global};
use std::error::Error;
use std::fmt;

/// Why a certificate is not read on.
#[derive(Clone, Copy, Debug, PartialEq, Eq)]
pub enum Stop {
    /// There is no memory.
    NoMemory,
    /// The number of the refusal and its line.
    Refused(u32, u64),
}

impl fmt::Display for Stop {
    fn fmt<W: fmt::Write>(&self, f: &mut fmt::Formatter<W>) -> fmt::Result {
        match self {
            Stop::NoMemory => write!(f, "out of memory"),
            Stop::Refused(refusal, line) => write!(f, "refusal {refusal} at line {line}"),
        }
    }
}

impl Error for Stop {}

impl From<AllocError> for Stop {
    ghost use Rattle.onetree.specs.declared.heading.Stop.TheVariants.{NoMemory};

    ghost from_gives = { λ _ e. e ≡ NoMemory };

    fn from(_: AllocError) -> Self {
        Stop::NoMemory
    }
}

/// The bound that a certificate for n cities tells, and what stands behind its line.
pub fn head(alloc: Global, n: u32, bytes: &[u8]) -> Result<(u64, &[u8]), Stop>
    requires { n ≤ 2000 }
    ensures read { IfOk result (λ p. HasHead n bytes.now p.0 p.1.now) }
    ensures refused { IfErr result (λ e. IsStop n bytes.now e) }
{
    let Some(behind) = behind_title(bytes) else {
        return Err(Stop::Refused(1, 1));
    };
    let Some((cities, behind_size)) = next_size(alloc, n, behind)? else {
        return Err(Stop::Refused(1, 2));
    };
    if cities != n {
        return Err(Stop::Refused(2, 2));
    }
    let Some((bound, rest)) = next_bound(alloc, n, behind_size)? else {
        return Err(Stop::Refused(1, 3));
    };
    Ok((bound, rest))
}

/// What stands behind the first line, if that is the title.
fn behind_title(bytes: &[u8]) -> Option<&[u8]>
    ensures some { IfSome result (λ r. bytes.now ≡ ended title ++ r.now) }
    ensures none { IfNone result (HasNoTitle bytes.now) }
{
    bytes.strip_prefix(b"TSPTREE 1\n")
}

/// The number of cities that the next line tells, and what stands behind it.
fn next_size(alloc: Global, n: u32, text: &[u8]) -> Result<Option<(u32, &[u8])>, AllocError>
    requires { n ≤ 2000 }
    ensures some { IfOk result (λ o. IfSome o (λ p. BeginsWith n text.now (size_line p.0) p.1.now)) }
    ensures none { IfOk result (λ o. IfNone o ((m : ℕ) (more : List ℕ) → BeginsWith n text.now (size_line m) more → ⊥)) }
{
    let Some((item, rest)) = next_item(alloc, n, text)? else {
        return Ok(None);
    };
    match size_in(&item) {
        Some(cities) => Ok(Some((cities, rest))),
        None => Ok(None),
    }
}

/// The bound that the next line tells, and what stands behind it.
fn next_bound(alloc: Global, n: u32, text: &[u8]) -> Result<Option<(u64, &[u8])>, AllocError>
    requires { n ≤ 2000 }
    ensures some { IfOk result (λ o. IfSome o (λ p. BeginsWith n text.now (bound_line p.0) p.1.now)) }
    ensures none { IfOk result (λ o. IfNone o ((b : ℕ) (more : List ℕ) → BeginsWith n text.now (bound_line b) more → ⊥)) }
{
    let Some((item, rest)) = next_item(alloc, n, text)? else {
        return Ok(None);
    };
    match bound_in(&item) {
        Some(bound) => Ok(Some((bound, rest))),
        None => Ok(None),
    }
}

/// The city and the dual that the next line tells, and what stands behind it.
pub fn next_dual(
    alloc: Global,
    n: u32,
    text: &[u8],
) -> Result<Option<(u32, i64, &[u8])>, AllocError>
    requires { n ≤ 2000 }
    ensures some { IfOk result (λ o. IfSome o (λ p. BeginsWith n text.now (city_line p.0 p.1) p.2.now)) }
    ensures none { IfOk result (λ o. IfNone o ((v : ℕ) (y : ℤ) (more : List ℕ) → BeginsWith n text.now (city_line v y) more → ⊥)) }
{
    let Some((item, rest)) = next_item(alloc, n, text)? else {
        return Ok(None);
    };
    match dual_in(&item) {
        Some((city, dual)) => Ok(Some((city, dual, rest))),
        None => Ok(None),
    }
}

/// The number of cities that an item tells.
fn size_in(item: &Item) -> Option<u32>
    ensures some { IfSome result (λ m. said item.now ≡ size_line m) }
    ensures none { IfNone result ((m : ℕ) → said item.now ≡ size_line m → ⊥) }
{
    match item {
        Item::N(cities) => Some(*cities),
        _ => None,
    }
}

/// The bound that an item tells.
fn bound_in(item: &Item) -> Option<u64>
    ensures some { IfSome result (λ b. said item.now ≡ bound_line b) }
    ensures none { IfNone result ((b : ℕ) → said item.now ≡ bound_line b → ⊥) }
{
    match item {
        Item::Bound(bound) => Some(*bound),
        _ => None,
    }
}

/// The city and the dual that an item tells.
fn dual_in(item: &Item) -> Option<(u32, i64)>
    ensures some { IfSome result (λ p. said item.now ≡ city_line p.0 p.1) }
    ensures none { IfNone result ((v : ℕ) (y : ℤ) → said item.now ≡ city_line v y → ⊥) }
{
    match item {
        Item::City(city, dual) => Some((*city, *dual)),
        _ => None,
    }
}

/// What the next line says, and what stands behind it; none where no line ends or the line is not of the form.
fn next_item(alloc: Global, n: u32, text: &[u8]) -> Result<Option<(Item, &[u8])>, AllocError>
    requires { n ≤ 2000 }
    ensures some { IfOk result (λ o. IfSome o (λ p. BeginsWith n text.now (said p.0) p.1.now)) }
    ensures none { IfOk result (λ o. IfNone o ((x : TheItem) (more : List ℕ) → BeginsWith n text.now x more → ⊥)) }
{
    let Some(end) = memchr(b'\n', text) else {
        return Ok(None);
    };
    let (first, behind) = text.split_at(end);
    match read_line(alloc, n, first)? {
        Some(item) => Ok(Some((item, &behind[1..]))),
        None => Ok(None),
    }
}
