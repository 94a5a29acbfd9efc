//! Bytes of a slice.
ghost use Rattle.std.specs.Prelude.{◌≡◌, Some, IfOk, is_err, false, length, min};
ghost use Rattle.std.specs.Io.{ReadsAtMost};
ghost use Rattle.std.specs.Io.KnownBytes.{ReadConsumes};
ghost use Rattle.sf_read.specs.source.Counts.{counted_on};

use crate::source::{Source, SourceFault};
use std::marker::Model;

/// Gives the bytes of a slice. It never fails.
#[derive(Drop)]
pub struct SliceSource<'a> {
    rest: &'a [u8],
    reads: u64,
}

impl<'a> Model for SliceSource<'a> {
    ghost use Rattle.sf_read.specs.source.Counts.{SliceState};

    ghost Value = { SliceState };

    ghost view = { λ s. record { to_come = s.rest.now; reads = s.reads } };
}

impl<'a> SliceSource<'a> {
    /// A source of these bytes, from the first on, as sscanf reads a string (C11 7.21.6.7). It takes no memory.
    pub fn new(text: &'a [u8]) -> SliceSource<'a>
        ensures { result ≡ record { to_come = text.entry.now; reads = 0 } }
    {
        SliceSource {
            rest: text,
            reads: 0,
        }
    }
}

impl Source for SliceSource<'_> {
    ghost use Rattle.std.specs.Prelude.{Some};

    ghost to_come = { λ s. Some s.to_come };

    ghost reads = { λ s. s.reads };

    ghost failures = { λ s. 0 };

    /// Gives as many bytes as the buffer holds, or all that are left.
    fn read(&mut self, buf: &mut [u8]) -> Result<usize, SourceFault>
        ensures bound { ReadsAtMost result buf.new }
        ensures bytes { ReadConsumes (Some self.old.to_come) (Some self.new.to_come) result buf.new }
        ensures reads { self.new.reads ≡ counted_on self.old.reads }
        ensures never { is_err result ≡ false }
        ensures count { IfOk result (λ count. count ≡ min (length buf.new) (length self.old.to_come)) }
    {
        let count = buf.len().min(self.rest.len());
        let (front, rest) = self.rest.split_at(count);
        buf[..count].copy_from_slice(front);
        self.rest = rest;
        self.reads = self.reads.saturating_add(1);
        Ok(count)
    }
}
