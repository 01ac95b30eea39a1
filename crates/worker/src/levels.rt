//! Lengths that closings are to show, and that they show.
ghost use Rattle.std.specs.Prelude.{◌≡◌, ◌≤◌};
ghost use Rattle.worker.specs.Splits as splits;
ghost use Rattle.worker.specs.Hints as hints;

/// One length, in units.
const SCALE: i128 = 0x10_0000;

/// The length that closings are to show where tours of this length are known and a gap is allowed: no tour shorter than this
/// is left. It is 0 where the gap is greater.
pub fn level(length: u64, gap: u64) -> u64
    ensures value { result ≡ splits.level length gap }
    ensures least { result ≤ length }
{
    length.saturating_sub(gap)
}

/// Units rounded down to a whole length, as near to it as 64 bits allow.
pub fn whole_length(units: i128) -> i64
    ensures { result ≡ hints.whole_length units }
{
    units
        .div_euclid(SCALE)
        .clamp(i128::from(i64::MIN), i128::from(i64::MAX)) as i64
}
