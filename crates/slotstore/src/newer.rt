//! Which slot a save writes.
ghost use Rattle.std.specs.Prelude.{◌≡◌, ℕ, ◌-◌, ◌<◌, ◌≤◌, IfOk, IfSome, IsErr};
ghost use Rattle.std.specs.Option.{option_map_or};
ghost use Rattle.ports.specs.Outside.{WhereTold, Cause};
ghost use Rattle.slotstore.specs.Standing.{IsNext};
ghost use Rattle.slotstore.specs.Store.{newer_by, target, target_number};
ghost use Rattle.slotstore.specs.Writing.{number_by};

use crate::header::valid_number;
use crate::target::{Target, next_number};
use ports::{Failed, Slots};

/// The slot that a save writes, and its number.
pub(crate) fn choose<L: Slots>(slots: &mut L) -> Result<Target, Failed>
    ensures slot { IfOk result (λ r. WhereTold (λ t. r.slot ≡ target t) (L.told slots.old)) }
    ensures number { IfOk result (λ r. WhereTold (λ t. r.number ≡ target_number t) (L.told slots.old)) }
    ensures told { L.told slots.new ≡ L.told slots.old }
    ensures past { L.past slots.new ≡ L.past slots.old }
    ensures cause { Cause (IsErr result) (L.faults slots.old) (L.faults slots.new) }
{
    let first = valid_number(slots, 0)?;
    let second = valid_number(slots, 1)?;
    Ok(target_by(first, second))
}

/// The same; where that is kept already, nothing is read.
pub(crate) fn choose_unless<L: Slots>(slots: &mut L, kept: Option<Target>) -> Result<Target, Failed>
    requires { WhereTold (λ t. IfSome kept (λ next. IsNext next t)) (L.told slots.old) }
    ensures slot { IfOk result (λ r. WhereTold (λ t. r.slot ≡ target t) (L.told slots.old)) }
    ensures told { L.told slots.new ≡ L.told slots.old }
    ensures past { L.past slots.new ≡ L.past slots.old }
    ensures cause { Cause (IsErr result) (L.faults slots.old) (L.faults slots.new) }
{
    match kept {
        Some(next) => Ok(next),
        None => choose(slots),
    }
}

// The same, by the numbers of the slots that are whole.
fn target_by(first: Option<u8>, second: Option<u8>) -> Target
    requires first { IfSome first (λ number. number ≤ 2) }
    requires second { IfSome second (λ number. number ≤ 2) }
    ensures slot { result.slot ≡ option_map_or (λ slot. 1 - slot) (newer_by first second) 0 }
    ensures number { result.number ≡ number_by first second }
{
    match (first, second) {
        (None, None) => Target { slot: 0, number: 0 },
        (None, Some(b)) => Target {
            slot: 0,
            number: next_number(b),
        },
        (Some(a), Some(b)) if b == next_number(a) => Target {
            slot: 0,
            number: next_number(b),
        },
        (Some(a), _) => Target {
            slot: 1,
            number: next_number(a),
        },
    }
}
