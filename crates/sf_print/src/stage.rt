//! Bytes held back, so that a sink is handed many at once.
ghost use Rattle.std.specs.Prelude.{◌≡◌, ◌≤◌, ◌<◌, ◌+◌, ◌++◌, ◌∷◌, [], replicate, length, take};
ghost use Rattle.std.specs.Fmt.{decimal};

use crate::digits::write_decimal;

/// How many bytes are held at most.
pub(crate) const STAGE_BYTES: usize = 128;

/// Bytes that the sink hasn't been handed yet, and how many it took.
#[derive(Drop)]
pub(crate) struct Stage {
    pub(crate) buf: [u8; STAGE_BYTES],
    pub(crate) len: usize,
    pub(crate) written: u32,
    ghost within: { len ≤ 128 },
}

impl Stage {
    /// Nothing is held, nothing was taken.
    pub(crate) fn new() -> Stage
        ensures len { result.len ≡ 0 }
        ensures written { result.written ≡ 0 }
    {
        Stage {
            buf: [0; STAGE_BYTES],
            len: 0,
            written: 0,
        }
    }

    /// Holds the piece.
    #[inline]
    pub(crate) fn hold(&mut self, piece: &[u8])
        requires { self.old.len + length piece.now ≤ 128 }
        ensures held { take self.new.len self.new.buf ≡ take self.old.len self.old.buf ++ piece.now }
        ensures len { self.new.len ≡ self.old.len + length piece.now }
        ensures written { self.new.written ≡ self.old.written }
    {
        let end = self.len + piece.len();
        self.buf[self.len..end].copy_from_slice(piece);
        self.len = end;
    }

    /// Holds a byte this many times.
    #[inline]
    pub(crate) fn hold_run(&mut self, byte: u8, count: usize)
        requires { self.old.len + count ≤ 128 }
        ensures held { take self.new.len self.new.buf ≡ take self.old.len self.old.buf ++ replicate count byte }
        ensures len { self.new.len ≡ self.old.len + count }
        ensures written { self.new.written ≡ self.old.written }
    {
        let end = self.len + count;
        self.buf[self.len..end].fill(byte);
        self.len = end;
    }

    /// Holds a byte.
    #[inline]
    pub(crate) fn hold_byte(&mut self, byte: u8)
        requires { self.old.len < 128 }
        ensures held { take self.new.len self.new.buf ≡ take self.old.len self.old.buf ++ byte ∷ [] }
        ensures len { self.new.len ≡ self.old.len + 1 }
        ensures written { self.new.written ≡ self.old.written }
    {
        self.buf[self.len] = byte;
        self.len += 1;
    }

    /// Holds the decimal digits of a number.
    #[inline]
    pub(crate) fn hold_decimal(&mut self, number: u64)
        requires { self.old.len + 20 ≤ 128 }
        ensures held { take self.new.len self.new.buf ≡ take self.old.len self.old.buf ++ decimal number }
        ensures len { self.new.len ≡ self.old.len + length (decimal number) }
        ensures written { self.new.written ≡ self.old.written }
    {
        self.len = write_decimal(number, &mut self.buf, self.len);
    }
}
