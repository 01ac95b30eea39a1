//! Which calls in memory fail.
ghost use Rattle.std.specs.Prelude.{◌≡◌, ◌+◌, ◌-◌, ◌^◌, ◌<◌, min, not};
ghost use Rattle.ports.specs.Calls.{is_bad, one_more};

/// Counts a call, if there is room for one, and says whether it may go on.
pub fn admits(room: &mut usize, made: &mut u64, bad: &[u64]) -> bool
    requires { made.old + room.old < 2 ^ 64 }
    ensures admits { result ≡ not (is_bad room.old made.old bad.now) }
    ensures room { room.new ≡ room.old - 1 }
    ensures made { made.new ≡ one_more room.old made.old }
{
    if *room == 0 {
        return false;
    }
    *room -= 1;
    *made += 1;
    !bad.contains(made)
}
