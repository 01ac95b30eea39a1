//! The room that a desk or slots in memory are made with.

/// What is left before calls fail for want of room.
#[derive(Clone, Copy, Debug, PartialEq, Eq)]
pub struct Room {
    /// Bytes taken by writes, with those between a slot's end and the place written.
    pub bytes: usize,
    /// Bytes of bound paths, all together.
    pub paths: usize,
    /// Calls of every kind.
    pub calls: usize,
}
