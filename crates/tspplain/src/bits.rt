//! Sets of fewer than 32 cities as bits: city c is in the set where bit c is 1.

ghost use Rattle.std.specs.Prelude.{◌≡◌, ℕ, ◌<◌, ◌↔◌, IsTrue};
ghost use Rattle.tspdef.specs.Sets.{has};
ghost use Rattle.tspplain.specs.Bits.{bit_of, in_bits, has_part, HasPart};

use cyc::CitySet;

/// The set of one city.
pub fn bit(city: u32) -> u32
    ensures { result ≡ bit_of city }
{
    1u32.checked_shl(city).unwrap_or(0)
}

/// Whether a city is in the set.
pub fn holds(set: u32, city: u32) -> bool
    ensures { result ≡ in_bits set city }
{
    set & bit(city) != 0
}

/// Whether a set has some cities of another, and not all.
pub fn parts(set: u32, other: u32) -> bool
    ensures value { result ≡ has_part set other }
    ensures cities { IsTrue result ↔ HasPart set other }
{
    set & other != 0 && set & other != other
}

/// A set of cities as bits.
pub fn bits_of(set: &CitySet) -> u32
    ensures { (city : ℕ) → city < 32 → in_bits result city ≡ has set.now.cities city }
{
    let mut all = 0;
    for city in set.cities() {
        all |= bit(*city);
    }
    all
}
