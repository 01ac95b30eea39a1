//! The first byte of some bytes.

ghost use Rattle.std.specs.Prelude.{◌≡◌, ◌+◌, ◌<◌, ◌≤◌, length, drop, IsTrue};
ghost use Rattle.tsplex.specs.Number.{first_is, behind_sign};

/// Whether bytes begin with this one.
#[inline]
pub fn begins(bytes: &[u8], byte: u8) -> bool
    ensures same { result ≡ first_is byte bytes.now }
    ensures some { IsTrue result → 0 < length bytes.now }
{
    match bytes.split_first() {
        Some((first, _)) => *first == byte,
        None => false,
    }
}

/// All but the first byte.
#[inline]
pub fn tail(bytes: &[u8]) -> &[u8]
    requires { 0 < length bytes.now }
    ensures same { result.now ≡ drop 1 bytes.now }
    ensures length { length result.now + 1 ≡ length bytes.now }
{
    &bytes[1..]
}

/// What stands behind a sign, if there is one.
#[tactic(auto, unfolding(crate::specs::Number::behind_sign))]
pub fn unsigned(bytes: &[u8]) -> &[u8]
    ensures rest { result.now ≡ behind_sign bytes.now }
    ensures length { length result.now ≤ length bytes.now }
{
    if begins(bytes, b'-') || begins(bytes, b'+') {
        tail(bytes)
    } else {
        bytes
    }
}
