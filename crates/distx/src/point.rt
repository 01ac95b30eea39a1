//! Points with whole coordinates of a size whose squared distances fit 51 bits.
ghost use Rattle.std.specs.Prelude.{◌≡◌, ◌^◌, ◌≤◌, ℤ, ◌-ℤ◌, nat_abs};
ghost use Rattle.tspdef.specs.Distances.{squared};

use std::marker::Model;

/// A point of the plane. Its coordinates are at most 2^24 in size. Contracts see the pair of x and y.
#[derive(Clone, Copy, Debug, PartialEq, Eq)]
pub struct Point {
    x: i32,
    y: i32,
}

impl Model for Point {
    ghost Value = { ℤ × ℤ };

    ghost view = { λ p. (p.x, p.y) };

    ghost invariant = { (λ p. (nat_abs p.x ≤ 2 ^ 24) × (nat_abs p.y ≤ 2 ^ 24)) };

    ghost inverse = { λ p. record { x = p.0; y = p.1 } };
}

impl Point {
    /// The point with these coordinates.
    pub fn new(x: i32, y: i32) -> Self
        requires across { nat_abs x ≤ 2 ^ 24 }
        requires along { nat_abs y ≤ 2 ^ 24 }
        ensures { result ≡ (x, y) }
    {
        Point { x, y }
    }

    /// How far right of the origin.
    pub fn x(self) -> i32
        ensures same { result ≡ self.0 }
        ensures bound { nat_abs result ≤ 2 ^ 24 }
    {
        self.x
    }

    /// How far above the origin.
    pub fn y(self) -> i32
        ensures same { result ≡ self.1 }
        ensures bound { nat_abs result ≤ 2 ^ 24 }
    {
        self.y
    }
}

/// How far two coordinates are apart.
pub fn gap(a: i32, b: i32) -> u32
    requires from { nat_abs a ≤ 2 ^ 24 }
    requires to { nat_abs b ≤ 2 ^ 24 }
    ensures same { result ≡ nat_abs (a -ℤ b) }
    ensures bound { result ≤ 2 ^ 25 }
{
    a.abs_diff(b)
}

/// The squared Euclidean distance of points that are so far apart along each axis.
pub fn squared(across: u32, along: u32) -> u64
    requires across_in { across ≤ 2 ^ 25 }
    requires along_in { along ≤ 2 ^ 25 }
    ensures same { result ≡ squared across along }
    ensures bound { result ≤ 2 ^ 51 }
{
    let (x, y) = (u64::from(across), u64::from(along));
    x * x + y * y
}
