//! Where a save goes.
ghost use Rattle.std.specs.Prelude.{◌≡◌, ◌-◌, ◌<◌, ◌≤◌};
ghost use Rattle.slotstore.specs.Store.{next_number};

/// The slot that a save writes, and the number that it gets.
#[derive(Clone, Copy, Debug)]
pub(crate) struct Target {
    pub(crate) slot: u8,
    pub(crate) number: u8,
    ghost is_slot: { slot < 2 },
    ghost is_number: { number ≤ 2 },
}

impl Target {
    /// Where the save after one goes: to the other slot, with the next number.
    pub(crate) fn after(self) -> Target
        ensures slot { result.slot ≡ 1 - self.slot }
        ensures number { result.number ≡ next_number self.number }
    {
        Target {
            slot: 1 - self.slot,
            number: next_number(self.number),
        }
    }
}

/// The number after another; the three go round.
pub(crate) fn next_number(number: u8) -> u8
    requires { number ≤ 2 }
    ensures { result ≡ next_number number }
{
    (number + 1) % 3
}
