//! Which numbers may come next, where they rise.
ghost use Rattle.std.specs.Prelude.{◌≡◌, ◌+◌, nat_le};
ghost use Rattle.certdef.specs.Verdicts.{after, may_follow};
ghost use Rattle.certdef.specs.Items.{is_before};
ghost use Rattle.certtests.specs.Listed.{pair_to_one};
ghost use Rattle.certcheck.specs.Stages.{pairs_from};

/// Whether a city may come after those of a list.
pub(crate) fn may_follow_city(list: &[(u32, i64)], next: u32) -> bool
    ensures { result ≡ nat_le (after list.now) next }
{
    match list.last() {
        Some(last) => last.0 < next,
        None => 1 <= next,
    }
}

/// Whether a number may come after those of a list.
pub(crate) fn may_follow(list: &[(u32, u64)], next: u32) -> bool
    ensures { result ≡ nat_le (after list.now) next }
{
    match list.last() {
        Some(last) => last.0 < next,
        None => 1 <= next,
    }
}

/// Whether a pair of cities from 0 may come after those of a list.
pub(crate) fn may_follow_pair(list: &[(u32, u32)], u: u32, v: u32) -> bool
    ensures { result ≡ may_follow (pairs_from list.now) (u + 1, v + 1) }
{
    match list.last() {
        Some(last) => is_behind(*last, u, v),
        None => true,
    }
}

/// Whether a pair stands behind another one: by its first city, then by its second.
fn is_behind(last: (u32, u32), u: u32, v: u32) -> bool
    ensures { result ≡ is_before (pair_to_one last) (u + 1, v + 1) }
{
    last.0 < u || last.0 == u && last.1 < v
}
