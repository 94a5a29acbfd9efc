//! Bytes in a block that is used again.
ghost use Rattle.std.specs.Prelude.{◌≡◌, ◌≤◌, ◌<◌, ◌+◌, ◌++◌, ◌∷◌, [], length, take, IfOk, OnErr, OnOk};

use std::alloc::{AllocError, Global};
use std::marker::Model;
use std::simd::prelude::*;

/// How many bytes of a piece are moved at once, those of a short text and what stands after them: by a constant it
/// takes no call.
pub(crate) const MOVED: usize = 16;

/// Bytes, which are the first of a block. The others are of no account: they stay where bytes are taken away, so that
/// new ones are moved over them.
#[derive(Debug, Drop)]
pub(crate) struct Buffer {
    block: Vec<u8>,
    len: usize,
}

impl Model for Buffer {
    ghost use Rattle.std.specs.Prelude.{◌≤◌, take, vec_len, vec_capacity};
    ghost use Rattle.sf_base.specs.stores.Buffers.{Held};

    ghost Value = { Held };

    ghost view = { λ b. record { bytes = take b.len b.block.items; capacity = vec_capacity b.block } };

    ghost invariant = { λ b. b.len ≤ vec_len b.block };
}

/// Moves the piece over the bytes at the place.
#[inline(always)]
fn move_over(bytes: &mut [u8], at: usize, piece: &[u8])
    requires { at + length piece.now ≤ length bytes.old }
    ensures len { length bytes.new ≡ length bytes.old }
    ensures moved { take (at + length piece.now) bytes.new ≡ take at bytes.old ++ piece.now }
{
    bytes[at..at + piece.len()].copy_from_slice(piece);
}

/// Moves the first sixteen bytes of the piece over those at the place, as one vector: a loop would first ask whether
/// the two overlap.
#[inline(always)]
fn move_sixteen(bytes: &mut [u8], at: usize, piece: &[u8])
    requires room { at + 16 ≤ length bytes.old }
    requires whole { 16 ≤ length piece.now }
    ensures len { length bytes.new ≡ length bytes.old }
    ensures moved { take (at + 16) bytes.new ≡ take at bytes.old ++ take 16 piece.now }
{
    u8x16::from_slice(piece).copy_to_slice(&mut bytes[at..]);
}

impl Buffer {
    /// No bytes, and no room.
    #[inline(always)]
    pub(crate) fn empty(alloc: Global) -> Buffer
        ensures { result.bytes ≡ [] }
    {
        let block = Vec::new(alloc);
        Buffer { block, len: 0 }
    }

    /// No bytes, and room for so many.
    pub(crate) fn with_capacity(alloc: Global, capacity: usize) -> Result<Buffer, AllocError>
        ensures bytes { IfOk result (λ b. b.bytes ≡ []) }
        ensures capacity { IfOk result (λ b. capacity ≤ b.capacity) }
    {
        let block = Vec::with_capacity(alloc, capacity)?;
        Ok(Buffer { block, len: 0 })
    }

    /// How many bytes it holds.
    #[inline(always)]
    pub(crate) fn len(&self) -> usize
        ensures count { result ≡ length self.now.bytes }
        ensures within { length self.now.bytes ≤ self.now.capacity }
    {
        self.len
    }

    /// How many it can hold without more memory.
    #[inline(always)]
    pub(crate) fn capacity(&self) -> usize
        ensures { result ≡ self.now.capacity }
    {
        self.block.capacity()
    }

    /// The first bytes, so many.
    #[inline(always)]
    pub(crate) fn front(&self, count: usize) -> &[u8]
        requires { count ≤ length self.now.bytes }
        ensures { result.now ≡ take count self.now.bytes }
    {
        &self.block[..count]
    }

    /// Takes away all but so many bytes.
    #[inline(always)]
    pub(crate) fn truncate(&mut self, count: usize)
        requires { count ≤ length self.old.bytes }
        ensures bytes { self.new.bytes ≡ take count self.old.bytes }
        ensures capacity { self.new.capacity ≡ self.old.capacity }
    {
        self.len = count;
    }

    /// Appends a byte. Where memory is refused nothing has changed.
    pub(crate) fn push(&mut self, b: u8) -> Result<(), AllocError>
        ensures ok { OnOk result (self.new.bytes ≡ self.old.bytes ++ b ∷ []) }
        ensures err { OnErr result (self.new.bytes ≡ self.old.bytes) }
        ensures capacity { self.old.capacity ≤ self.new.capacity }
        ensures full { OnErr result (self.old.capacity ≤ length self.old.bytes) }
    {
        self.block.truncate(self.len);
        self.block.push(b)?;
        self.len += 1;
        Ok(())
    }

    /// Makes room for so many more bytes. A block that has to grow gets room for as many as are moved at once, so that
    /// a short text is moved over others from then on. Where memory is refused nothing has changed.
    fn make_room(&mut self, count: usize) -> Result<(), AllocError>
        ensures bytes { self.new.bytes ≡ self.old.bytes }
        ensures room { OnOk result (length self.old.bytes + count ≤ self.new.capacity) }
        ensures capacity { self.old.capacity ≤ self.new.capacity }
        ensures full { OnErr result (self.old.capacity < length self.old.bytes + count) }
    {
        if self.block.capacity() - self.len < count {
            self.block.truncate(self.len);
            self.block.reserve(count.max(MOVED))?;
        }
        Ok(())
    }

    /// As `append`, of more bytes, or where there are no others to move them over.
    #[inline(never)]
    fn append_apart(&mut self, piece: &[u8], count: usize) -> Result<(), AllocError>
        requires { count ≤ length piece.now }
        ensures ok { OnOk result (self.new.bytes ≡ self.old.bytes ++ take count piece.now) }
        ensures err { OnErr result (self.new.bytes ≡ self.old.bytes) }
        ensures capacity { self.old.capacity ≤ self.new.capacity }
        ensures full { OnErr result (self.old.capacity < length self.old.bytes + count) }
    {
        self.make_room(count)?;
        let end = self.len + count;
        let room = self.block.capacity() - self.len;
        let moved = room.min(piece.len()).min(MOVED).max(count);
        if moved <= self.block.len() - self.len {
            move_over(&mut self.block, self.len, &piece[..moved]);
        } else {
            self.block.truncate(self.len);
            self.block.extend_from_slice(&piece[..moved])?;
        }
        self.len = end;
        Ok(())
    }

    /// Appends the first bytes of the piece, so many. Where memory is refused nothing has changed.
    #[inline(always)]
    pub(crate) fn append(&mut self, piece: &[u8], count: usize) -> Result<(), AllocError>
        requires { count ≤ length piece.now }
        ensures ok { OnOk result (self.new.bytes ≡ self.old.bytes ++ take count piece.now) }
        ensures err { OnErr result (self.new.bytes ≡ self.old.bytes) }
        ensures capacity { self.old.capacity ≤ self.new.capacity }
        ensures full { OnErr result (self.old.capacity < length self.old.bytes + count) }
    {
        if count <= MOVED && MOVED <= piece.len() && MOVED <= self.block.len() - self.len {
            let len = self.len;
            move_sixteen(&mut self.block, len, piece);
            self.len = len + count;
            return Ok(());
        }
        self.append_apart(piece, count)
    }
}
