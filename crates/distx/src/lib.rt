//! Distances of points with whole coordinates, by the rules of TSPLIB 95 (Reinelt 1991), exact and without floating
//! point: a distance is the least whole number that its rule takes for the squared distance.
#![tactic(auto)]

ghost use Rattle.std.specs.Prelude.{◌≡◌, ◌≢◌, ◌^◌, ◌≤◌, nat_abs};
ghost use Rattle.tspdef.specs.Distances.{is_enough, root, distance, IsLeast};
ghost use Rattle.distx.specs.Kind.{rule_of};
ghost use Rattle.distx.specs.Laws.{IsTheSameBack, IsNothingAtHome};

mod point;
mod root;

pub use point::Point;

/// How distances follow from coordinates.
#[derive(Clone, Copy, Debug, PartialEq, Eq)]
pub enum Kind {
    /// EUC_2D: the root, rounded to the nearest whole number.
    Euc,
    /// CEIL_2D: the root, rounded up.
    Ceil,
    /// ATT: the root of a tenth of the square, rounded up.
    Att,
    /// MAN_2D: how far apart along both axes together.
    Man,
    /// MAX_2D: how far apart along the axis where that is more.
    Max,
}

/// The distance of two points.
pub fn dist(kind: Kind, a: Point, b: Point) -> u32
    ensures same { result ≡ distance (rule_of kind) a b }
    ensures bound { result ≤ 2 ^ 26 }
{
    let across = point::gap(a.x(), b.x());
    let along = point::gap(a.y(), b.y());
    match kind {
        Kind::Man => across + along,
        Kind::Max => across.max(along),
        Kind::Euc => of_square(Kind::Euc, point::squared(across, along)),
        Kind::Ceil => of_square(Kind::Ceil, point::squared(across, along)),
        Kind::Att => of_square(Kind::Att, point::squared(across, along)),
    }
}

/// The distance of two points whose squared Euclidean distance is `s`. The other two kinds do not follow from it.
pub fn of_square(kind: Kind, s: u64) -> u32
    requires small { s ≤ 2 ^ 51 }
    requires no_sum { kind ≢ Kind.Man }
    requires no_maximum { kind ≢ Kind.Max }
    ensures same { result ≡ root (rule_of kind) s }
    ensures least { IsLeast (is_enough (rule_of kind) s) result }
    ensures bound { result ≤ 2 ^ 26 }
{
    match kind {
        Kind::Euc => root::nearest(s),
        Kind::Ceil => root::above(s),
        Kind::Att => root::above_of_tenth(s),
        Kind::Man => unreachable!(),
        Kind::Max => unreachable!(),
    }
}

/// A distance is the same in both directions, and 0 from a point to itself.
#[tactic(auto, using(crate::proofs::DistanceLaws::distance_turned, crate::proofs::DistanceLaws::no_distance))]
pub fn distances_are_symmetric()
    ensures back { IsTheSameBack }
    ensures home { IsNothingAtHome }
{}

#[cfg(test)]
mod tests {
    use super::*;

    #[test]
    fn nearest_roots(rt: HostRuntime) {
        assert_eq!(rt; of_square(Kind::Euc, 2), 1);
        assert_eq!(rt; of_square(Kind::Euc, 6), 2);
        assert_eq!(rt; of_square(Kind::Euc, 7), 3);
        assert_eq!(rt; of_square(Kind::Euc, 12), 3);
        assert_eq!(rt; of_square(Kind::Euc, 13), 4);
        assert_eq!(rt; of_square(Kind::Euc, 0x8_0000_0000_0000), 47453133);
    }

    #[test]
    fn roots_rounded_up(rt: HostRuntime) {
        assert_eq!(rt; of_square(Kind::Ceil, 4), 2);
        assert_eq!(rt; of_square(Kind::Ceil, 5), 3);
    }

    #[test]
    fn roots_of_tenths(rt: HostRuntime) {
        assert_eq!(rt; of_square(Kind::Att, 0), 0);
        assert_eq!(rt; of_square(Kind::Att, 9), 1);
        assert_eq!(rt; of_square(Kind::Att, 10), 1);
        assert_eq!(rt; of_square(Kind::Att, 11), 2);
        assert_eq!(rt; of_square(Kind::Att, 0x8_0000_0000_0000), 15005999);
    }

    #[test]
    fn distances_of_two_points(rt: HostRuntime) {
        let a = Point::new(-3, 5);
        let b = Point::new(4, -1);
        assert_eq!(rt; a.x(), -3);
        assert_eq!(rt; b.y(), -1);
        assert_eq!(rt; dist(Kind::Euc, a, b), 9);
        assert_eq!(rt; dist(Kind::Ceil, b, a), 10);
        assert_eq!(rt; dist(Kind::Att, a, b), 3);
        assert_eq!(rt; dist(Kind::Man, a, b), 13);
        assert_eq!(rt; dist(Kind::Max, a, b), 7);
        assert_eq!(rt; dist(Kind::Max, a, a), 0);
    }
}
