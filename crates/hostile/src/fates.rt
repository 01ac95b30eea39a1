//! Posts that draw the fate of each report by its lease, and count what they told.
ghost use Rattle.std.specs.Prelude.{◌≡◌, ℕ};

use crate::draws::{Count, mixed};
use ports::{Fate, Posts};

/// Posts that lose, repeat and delay: of eight reports about one never comes, one comes late, and one twice.
#[derive(Drop)]
pub(crate) struct Drawn {
    seed: u64,
    once: Count,
    twice: Count,
    late: Count,
    never: Count,
}

impl Drawn {
    pub(crate) fn new(seed: u64) -> Drawn {
        Drawn {
            seed,
            once: Count::new(),
            twice: Count::new(),
            late: Count::new(),
            never: Count::new(),
        }
    }

    /// The fate of the report on a lease.
    pub(crate) fn fate_of(&self, lease: u32) -> Fate {
        match mixed(self.seed.wrapping_add(u64::from(lease))) % 8 {
            0 => Fate::Never,
            1 => Fate::Late,
            2 => Fate::Twice,
            _ => Fate::Once,
        }
    }

    /// How many fates were told.
    pub(crate) fn told(&self) -> u64 {
        self.once
            .get()
            .saturating_add(self.twice.get())
            .saturating_add(self.late.get())
            .saturating_add(self.never.get())
    }

    /// How many reports are to come by the fates that were told.
    pub(crate) fn to_come(&self) -> u64 {
        self.once
            .get()
            .saturating_add(self.twice.get().saturating_mul(2))
            .saturating_add(self.late.get())
    }
}

impl Posts for Drawn {
    ghost may_tell = { λ _ lease fate. Unit {0} };

    fn fate(&self, lease: u32) -> Fate {
        let fate = self.fate_of(lease);
        match fate {
            Fate::Never => self.never.raise(),
            Fate::Late => self.late.raise(),
            Fate::Twice => self.twice.raise(),
            Fate::Once => self.once.raise(),
        }
        fate
    }
}
