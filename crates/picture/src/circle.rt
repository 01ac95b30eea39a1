//! Cities on a circle.
ghost use Rattle.std.specs.Prelude.{◌≡◌, ◌<◌, ◌≤◌, length, IfOk};
ghost use Rattle.std.specs.List.{AllByRecursion};
ghost use Rattle.picture.specs.Canvas.{IsInside};

use crate::canvas::Spot;
use std::alloc::{AllocError, Global};

/// The sine of each 64th part of a right angle, in 65,535th parts.
const SINES: [u16; 65] = [
    0, 1608, 3216, 4821, 6424, 8022, 9616, 11204, 12785, 14359, 15924, 17479, 19024, 20557, 22078,
    23586, 25079, 26557, 28020, 29465, 30893, 32302, 33692, 35061, 36409, 37736, 39039, 40319,
    41575, 42806, 44011, 45189, 46340, 47464, 48558, 49624, 50659, 51664, 52638, 53580, 54490,
    55367, 56211, 57021, 57797, 58537, 59243, 59913, 60546, 61144, 61704, 62227, 62713, 63161,
    63571, 63943, 64276, 64570, 64826, 65042, 65219, 65357, 65456, 65515, 65535,
];

/// The middle of the circle, along both axes.
const MIDDLE: u32 = 500;

/// The radius.
const RADIUS: u32 = 460;

/// How many steps a right angle has, and a sixty-fourth of it.
const RIGHT_ANGLE: u32 = 4096;

const PART: u32 = 64;

/// The radius times the sine of an angle, between two entries of the table in proportion.
fn arm(steps: u32) -> u32
    requires { steps ≤ 4096 }
    ensures { result ≤ 460 }
{
    let place = (steps / PART).min(63) as usize;
    let below = u32::from(SINES[place]);
    let above = u32::from(SINES[place + 1]);
    let sine = below + above.saturating_sub(below) * (steps - place as u32 * PART).min(PART) / PART;
    ((RADIUS * sine.min(65_535) + 32_767) / 65_535).min(RADIUS)
}

/// Where a city of n stands: the first at the top, and the others behind it as a clock goes.
fn spot(city: u32, n: u32) -> Spot
    requires within { city < n }
    requires few { n < 65536 }
    ensures { IsInside result }
{
    let turn = city * (4 * RIGHT_ANGLE) / n;
    let steps = turn % RIGHT_ANGLE;
    let (sine, cosine) = (arm(steps), arm(RIGHT_ANGLE - steps));
    let (x, y) = match turn / RIGHT_ANGLE {
        0 => (MIDDLE + sine, MIDDLE - cosine),
        1 => (MIDDLE + cosine, MIDDLE + sine),
        2 => (MIDDLE - sine, MIDDLE + cosine),
        _ => (MIDDLE - cosine, MIDDLE - sine),
    };
    Spot { x, y }
}

/// The places of n cities on a circle, in the order of their numbers.
pub fn on_circle(alloc: Global, n: u32) -> Result<Vec<Spot>, AllocError>
    requires { n < 65536 }
    ensures all { IfOk result (λ spots. length spots.items ≡ n) }
    ensures inside { IfOk result (λ spots. AllByRecursion IsInside spots.items) }
{
    let mut spots = Vec::new(alloc);
    for city in 0..n {
        spots.push(spot(city, n))?;
    }
    Ok(spots)
}
