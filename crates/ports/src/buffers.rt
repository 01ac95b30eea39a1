//! Byte lists that are read from the front, or grow within their capacity.
ghost use Rattle.std.specs.Prelude.{◌≡◌, ◌+◌, ◌-◌, ◌^◌, ◌<◌, ◌≤◌, ◌++◌, min, max, replicate, take, drop, length, vec_len, vec_capacity, IfOk, Some, None};
ghost use Rattle.std.specs.Option.{option_map};
ghost use Rattle.ports.specs.Buffers.{rest_from, path_if};
ghost use Rattle.ports.specs.Slots.{put_at};
ghost use Rattle.ports.specs.Records.{write_room};

use std::alloc::{AllocError, Global};

/// Bytes of which a front has been read.
#[derive(Drop)]
pub struct Source {
    pub bytes: Vec<u8>,
    pub at: usize,
    ghost within: { at ≤ vec_len bytes },
}

impl Source {
    /// Nothing is read yet.
    pub fn new(alloc: Global, bytes: &[u8]) -> Result<Source, AllocError>
        ensures { IfOk result (λ source. rest_from source.at source.bytes.items ≡ bytes.now) }
    {
        Ok(Source {
            bytes: Vec::from_slice(alloc, bytes)?,
            at: 0,
        })
    }

    /// What is not read yet.
    pub fn rest(&self) -> &[u8]
        ensures { result.now ≡ rest_from self.now.at self.now.bytes.items }
    {
        &self.bytes[self.at..]
    }

    /// Moves as many bytes as fit, but no more than `most`, to the front of `buf`.
    pub fn take(&mut self, buf: &mut [u8], most: usize) -> usize
        ensures count { result ≡ min (length buf.old) (min most (length (rest_from self.old.at self.old.bytes.items))) }
        ensures moved { rest_from self.old.at self.old.bytes.items ≡ take result buf.new ++ rest_from self.new.at self.new.bytes.items }
    {
        let count = copy_part(&self.bytes, self.at, buf, most);
        self.at += count;
        count
    }
}

/// Copies what stands from a place on, as far as it fits and no more than `most` bytes, to the front of `buf`.
pub fn copy_part(from: &[u8], at: usize, buf: &mut [u8], most: usize) -> usize
    requires { at ≤ length from.now }
    ensures count { result ≡ min (length buf.old) (min most (length from.now - at)) }
    ensures bytes { take result buf.new ≡ take result (drop at from.now) }
{
    let count = buf.len().min(most.min(from.len() - at));
    buf[..count].copy_from_slice(&from[at..at + count]);
    count
}

/// Appends within the capacity, so without memory.
pub fn append(list: &mut Vec<u8>, bytes: &[u8])
    requires { vec_len list.old + length bytes.now ≤ vec_capacity list.old }
    ensures items { list.new.items ≡ list.old.items ++ bytes.now }
    ensures len { vec_len list.new ≡ vec_len list.old + length bytes.now }
    ensures capacity { vec_capacity list.old ≤ vec_capacity list.new }
{
    let _ = list.extend_from_slice(bytes);
}

/// Writes a piece over what is there.
fn overwrite(list: &mut Vec<u8>, at: usize, piece: &[u8])
    requires { at + length piece.now ≤ vec_len list.old }
    ensures items { list.new.items ≡ take at list.old.items ++ (piece.now ++ drop (at + length piece.now) list.old.items) }
    ensures len { vec_len list.new ≡ vec_len list.old }
    ensures capacity { vec_capacity list.new ≡ vec_capacity list.old }
{
    for (i, byte) in piece.iter().enumerate() {
        list[at + i] = *byte;
    }
}

/// Puts zeros behind the list up to a length.
fn lengthen(list: &mut Vec<u8>, end: usize)
    requires { end ≤ vec_capacity list.old }
    ensures items { list.new.items ≡ list.old.items ++ replicate (end - vec_len list.old) 0 }
    ensures len { vec_len list.new ≡ max end (vec_len list.old) }
    ensures capacity { vec_capacity list.old ≤ vec_capacity list.new }
{
    if list.len() < end {
        let _ = list.resize(end, 0);
    }
}

/// Writes a piece at a place within the capacity, behind zeros where it lies past the end.
pub fn put(list: &mut Vec<u8>, pos: usize, piece: &[u8])
    requires { vec_len list.old + write_room pos (length piece.now) (vec_len list.old) ≤ vec_capacity list.old }
    ensures items { list.new.items ≡ put_at pos piece.now list.old.items }
    ensures len { vec_len list.new ≤ vec_len list.old + write_room pos (length piece.now) (vec_len list.old) }
    ensures capacity { vec_capacity list.old ≤ vec_capacity list.new }
{
    if piece.is_empty() {
        return;
    }
    lengthen(list, pos + piece.len());
    overwrite(list, pos, piece);
}

/// The path that was last bound, kept in room that was made before, and how often one was bound.
#[derive(Drop)]
pub struct BoundPath {
    pub bytes: Vec<u8>,
    pub is_bound: bool,
    pub binds: u64,
}

impl BoundPath {
    /// Nothing is bound, and there is room for paths up to this length.
    pub fn new(alloc: Global, room: usize) -> Result<BoundPath, AllocError>
        ensures unbound { IfOk result (λ bound. path_if bound.is_bound bound.bytes.items ≡ None) }
        ensures binds { IfOk result (λ bound. bound.binds ≡ 0) }
        ensures capacity { IfOk result (λ bound. room ≤ vec_capacity bound.bytes) }
    {
        Ok(BoundPath {
            bytes: Vec::with_capacity(alloc, room)?,
            is_bound: false,
            binds: 0,
        })
    }

    /// Binds another path.
    pub fn set(&mut self, path: &str)
        requires fits { length path.now ≤ vec_capacity self.old.bytes }
        requires countable { self.old.binds + 1 < 2 ^ 64 }
        ensures binds { self.new.binds ≡ self.old.binds + 1 }
        ensures bound { path_if self.new.is_bound self.new.bytes.items ≡ Some path.now }
        ensures capacity { vec_capacity self.old.bytes ≤ vec_capacity self.new.bytes }
    {
        self.bytes.clear();
        append(&mut self.bytes, path.as_bytes());
        self.is_bound = true;
        self.binds += 1;
    }

    /// The path, if one is bound.
    pub fn path(&self) -> Option<&[u8]>
        ensures { option_map (λ path. path.now) result ≡ path_if self.now.is_bound self.now.bytes.items }
    {
        if self.is_bound {
            Some(&self.bytes)
        } else {
            None
        }
    }
}
