//! Marks on cities, one bit each.
ghost use Rattle.std.specs.Prelude.{◌≡◌, ◌==◌, ℕ, ◌*◌, ◌<◌, ◌≤◌, false, ◌||◌, List, length, IfOk};
ghost use Rattle.cyc.specs.Marks.{is_marked};

use std::alloc::{AllocError, Global};
use std::marker::Model;

/// Marks on cities. Contracts see the list of numbers that hold them, 64 to a number.
#[derive(Debug, Drop)]
pub struct Marks {
    bits: Vec<u64>,
}

impl Model for Marks {
    ghost Value = { List ℕ };

    ghost view = { λ m. m.bits.items };
}

impl Marks {
    /// Room for marks on the cities below `n`, none of them marked.
    pub fn none(alloc: Global, n: u32) -> Result<Marks, AllocError>
        ensures room { IfOk result (λ marks. n ≤ 64 * length marks) }
        ensures none { IfOk result (λ marks. (city : ℕ) → is_marked marks city ≡ false) }
    {
        Ok(Marks {
            bits: vec![in alloc; 0; n as usize / 64 + 1]?,
        })
    }

    /// No marks and no room for any, without an allocation.
    pub fn no_room(alloc: Global) -> Marks
        ensures none { (city : ℕ) → is_marked result city ≡ false }
    {
        Marks {
            bits: Vec::new(alloc),
        }
    }

    /// Whether a city is marked.
    #[inline]
    pub fn is_marked(&self, city: u32) -> bool
        ensures { result ≡ is_marked self.now city }
    {
        match self.bits.get(city as usize / 64) {
            Some(bits) => (*bits >> (city % 64)) & 1 == 1,
            None => false,
        }
    }

    /// Marks a city.
    #[inline]
    pub fn mark(&mut self, city: u32)
        requires { city < 64 * length self.old }
        ensures marked { (other : ℕ) → is_marked self.new other ≡ ((city == other) || is_marked self.old other) }
        ensures room { length self.new ≡ length self.old }
    {
        self.bits[city as usize / 64] |= 1 << (city % 64);
    }

    /// Equal marks.
    pub fn copy(&self, alloc: Global) -> Result<Marks, AllocError>
        ensures { IfOk result (λ marks. marks ≡ self.now) }
    {
        Ok(Marks {
            bits: Vec::from_slice(alloc, &self.bits)?,
        })
    }
}
