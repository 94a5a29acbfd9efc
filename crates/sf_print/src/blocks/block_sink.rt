//! A writer with a block of bytes in front of it.
ghost use Rattle.std.specs.Prelude.{◌≡◌, ◌≤◌, ◌<◌, ◌+◌, ◌-◌, ◌++◌, ◌||◌, false, true, [], length, take, Option, List};
ghost use Rattle.std.specs.Prelude.{ℕ};
ghost use Rattle.std.specs.Prelude.{None, Some, Ok, OnErr, OnOk, IfOk, IfErr, IfSome, IsNone, IsSome, is_err};
ghost use Rattle.std.specs.Bool.{OnTrue, OnFalse};
ghost use Rattle.std.specs.Io.{WritesAtMost};
ghost use Rattle.std.specs.Io.KnownBytes.{Appends, Keeps, WriteAppends};

use crate::blocks::writing::write_some;
use crate::{Sink, SinkFault, TextInPlace, WritesInPlace, copy_over};
use std::alloc::{AllocError, Global};
use std::io::{self, Write};

/// How many bytes the block has.
const BLOCK_BYTES: usize = 32_768;

/// A writer, and in front of it a block that short texts are copied into without a call. What it took is known as far
/// as the writer's contract knows its bytes.
#[derive(Drop)]
pub struct BlockSink<W: Write + Drop> {
    writer: W,
    /// Empty where nothing is held back.
    block: Vec<u8>,
    /// The bytes of the block from here on wait for the writer.
    start: usize,
    /// After the last byte that waits.
    end: usize,
    failures: u64,
    /// Whether a flush failed.
    unflushed: bool,
    /// Why the last of the writes and flushes failed that did.
    last_error: Option<io::Error>,
    ghost ordered: { start ≤ end },
    ghost within: { end ≤ length block.items },
    ghost write_error: { 0 < failures → IsSome last_error },
    ghost flush_error: { unflushed ≡ true → IsSome last_error },
}

impl<W: Write + Drop> BlockSink<W> {
    ghost use Rattle.sf_print.specs.blocks.Blocks.{HoldsNothing, has_failed_flush, last_error_of, room_of, taken_by};
    ghost use Rattle.sf_print.specs.blocks.Blocks.{waiting_in, writer_of};

    /// Nothing waits in the block.
    fn over(writer: W, block: Vec<u8>) -> BlockSink<W>
        ensures contents { taken_by result ≡ W.contents writer }
        ensures writer { writer_of result ≡ writer }
        ensures block { result.block ≡ block }
        ensures room { room_of result ≡ length block.items }
        ensures failures { result.failures ≡ 0 }
        ensures flushed { has_failed_flush result ≡ false }
        ensures error { last_error_of result ≡ None }
    {
        BlockSink {
            writer,
            block,
            start: 0,
            end: 0,
            failures: 0,
            unflushed: false,
            last_error: None,
        }
    }

    /// A sink that never holds anything back, since somebody waits for each text: what it took, the writer has.
    pub fn at_once(alloc: Global, writer: W) -> BlockSink<W>
        ensures contents { taken_by result ≡ W.contents writer }
        ensures nothing { HoldsNothing result }
        ensures failures { ⟦<BlockSink<W> as Sink>⟧.failures result ≡ 0 }
        ensures flushed { has_failed_flush result ≡ false }
    {
        BlockSink::over(writer, Vec::new(alloc))
    }

    /// A sink that hands on blocks; its last bytes wait for a `flush`. Else there is no memory for it.
    pub fn in_blocks(alloc: Global, writer: W) -> Result<BlockSink<W>, AllocError>
        ensures contents { IfOk result (λ sink. taken_by sink ≡ W.contents writer) }
        ensures room { IfOk result (λ sink. room_of sink ≡ 32768) }
        ensures failures { IfOk result (λ sink. ⟦<BlockSink<W> as Sink>⟧.failures sink ≡ 0) }
        ensures flushed { IfOk result (λ sink. has_failed_flush sink ≡ false) }
    {
        let block = vec![in alloc; 0; BLOCK_BYTES]?;
        Ok(BlockSink::over(writer, block))
    }

    /// A sink of the one kind or of the other. Err gives the writer back where there is no memory for the block.
    pub fn open(alloc: Global, at_once: bool, writer: W) -> Result<BlockSink<W>, W>
        ensures contents { IfOk result (λ sink. taken_by sink ≡ W.contents writer) }
        ensures nothing { at_once ≡ true → IfOk result HoldsNothing }
        ensures room { at_once ≡ false → IfOk result (λ sink. room_of sink ≡ 32768) }
        ensures failures { IfOk result (λ sink. ⟦<BlockSink<W> as Sink>⟧.failures sink ≡ 0) }
        ensures flushed { IfOk result (λ sink. has_failed_flush sink ≡ false) }
        ensures back { IfErr result (λ given. given ≡ writer) }
    {
        if at_once {
            return Ok(BlockSink::at_once(alloc, writer));
        }
        match vec![in alloc; 0; BLOCK_BYTES] {
            Ok(block) => Ok(BlockSink::over(writer, block)),
            Err(_) => Err(writer),
        }
    }

    /// The writer, which has all that was taken but what is held back.
    pub fn writer(&self) -> &W
        ensures { result.now ≡ writer_of self.now }
    {
        &self.writer
    }

    /// The same, given back. What is held back is let go.
    pub fn into_writer(self) -> W
        ensures { result ≡ writer_of self }
    {
        self.writer
    }

    /// How many writes failed, up to the greatest `u64`.
    pub fn failures(&self) -> u64
        ensures { result ≡ ⟦<BlockSink<W> as Sink>⟧.failures self.now }
    {
        self.failures
    }

    /// Whether a flush failed.
    pub fn has_failed_flush(&self) -> bool
        ensures { result ≡ has_failed_flush self.now }
    {
        self.unflushed
    }

    /// Why a write or a flush failed: the last of those that did. Its kind says whether nobody reads any more
    /// (`BrokenPipe`), and it is written as the system puts it.
    pub fn last_error(&self) -> Option<io::Error>
        ensures value { result ≡ last_error_of self.now }
        ensures written { 0 < ⟦<BlockSink<W> as Sink>⟧.failures self.now → IsSome result }
        ensures flushed { has_failed_flush self.now ≡ true → IsSome result }
    {
        self.last_error
    }

    /// Keeps why a write or a flush failed, in place of what was known of an older one.
    fn remember(&mut self, error: io::Error)
        ensures error { last_error_of self.new ≡ Some error }
        ensures contents { taken_by self.new ≡ taken_by self.old }
        ensures waiting { waiting_in self.new ≡ waiting_in self.old }
        ensures writer { writer_of self.new ≡ writer_of self.old }
        ensures block { self.new.block ≡ self.old.block }
        ensures failures { self.new.failures ≡ self.old.failures }
        ensures flushed { has_failed_flush self.new ≡ has_failed_flush self.old }
    {
        self.last_error = Some(error);
    }

    /// Hands the writer what waits in the block. Where it fails, what it didn't take waits still.
    fn hand_on(&mut self) -> io::Result<()>
        ensures contents { Keeps (taken_by self.old) (taken_by self.new) }
        ensures empty { OnOk result (waiting_in self.new ≡ []) }
        ensures block { self.new.block ≡ self.old.block }
        ensures failures { self.new.failures ≡ self.old.failures }
        ensures flushed { has_failed_flush self.new ≡ has_failed_flush self.old }
        ensures error { last_error_of self.new ≡ last_error_of self.old }
    {
        while self.start < self.end {
            match write_some(&mut self.writer, &self.block[self.start..self.end]) {
                Ok(count) => self.start += count,
                Err(error) => return Err(error),
            }
        }
        self.start = 0;
        self.end = 0;
        Ok(())
    }

    /// Hands the writer what waits in the block, and flushes it.
    fn hand_through(&mut self) -> io::Result<()>
        ensures contents { Keeps (taken_by self.old) (taken_by self.new) }
        ensures empty { OnOk result (waiting_in self.new ≡ []) }
        ensures block { self.new.block ≡ self.old.block }
        ensures failures { self.new.failures ≡ self.old.failures }
        ensures flushed { has_failed_flush self.new ≡ has_failed_flush self.old }
        ensures error { last_error_of self.new ≡ last_error_of self.old }
    {
        self.hand_on()?;
        self.writer.flush()
    }

    /// Hands on all bytes that are held back: then none waits, and the writer has all that was taken. Where it fails,
    /// no byte is lost, and the sink remembers it and why.
    pub fn flush(&mut self) -> Result<(), SinkFault>
        ensures contents { Keeps (taken_by self.old) (taken_by self.new) }
        ensures all { OnOk result (taken_by self.new ≡ W.contents (writer_of self.new)) }
        ensures empty { OnOk result (waiting_in self.new ≡ []) }
        ensures flushed { has_failed_flush self.new ≡ (is_err result || has_failed_flush self.old) }
        ensures nothing { HoldsNothing self.old → HoldsNothing self.new }
        ensures failures { ⟦<BlockSink<W> as Sink>⟧.failures self.new ≡ ⟦<BlockSink<W> as Sink>⟧.failures self.old }
        ensures error { OnOk result (last_error_of self.new ≡ last_error_of self.old) }
        ensures known { OnErr result (IsSome (last_error_of self.new)) }
    {
        match self.hand_through() {
            Ok(()) => Ok(()),
            Err(error) => {
                self.remember(error);
                self.unflushed = true;
                Err(SinkFault)
            }
        }
    }

    /// Copies the bytes into the block, where they have room there. Nothing is called for short ones.
    #[inline(always)]
    fn holds(&mut self, bytes: &[u8]) -> bool
        ensures held { OnTrue result (Appends (taken_by self.old) (taken_by self.new) bytes.now) }
        ensures same { OnFalse result (self.new ≡ self.old) }
        ensures short { length bytes.now < room_of self.old → result ≡ true }
        ensures writer { writer_of self.new ≡ writer_of self.old }
        ensures room { OnTrue result (room_of self.new + length bytes.now ≡ room_of self.old) }
        ensures size { length self.new.block.items ≡ length self.old.block.items }
        ensures failures { self.new.failures ≡ self.old.failures }
        ensures flushed { has_failed_flush self.new ≡ has_failed_flush self.old }
        ensures error { last_error_of self.new ≡ last_error_of self.old }
    {
        if bytes.len() >= self.block.len() - self.end {
            return false;
        }
        copy_over(bytes, &mut self.block, self.end);
        self.end += bytes.len();
        true
    }

    /// Hands on the block, and then takes the bytes, or some: into the block where they have room there, and else to
    /// the writer. No bytes are taken at once.
    #[inline(never)]
    fn take_behind(&mut self, bytes: &[u8]) -> io::Result<usize>
        ensures most { WritesAtMost result bytes.now }
        ensures some { 0 < length bytes.now → IfOk result (λ n. 0 < n) }
        ensures took { WriteAppends (taken_by self.old) (taken_by self.new) result bytes.now }
        ensures size { length self.new.block.items ≡ length self.old.block.items }
        ensures failures { self.new.failures ≡ self.old.failures }
        ensures flushed { has_failed_flush self.new ≡ has_failed_flush self.old }
        ensures error { last_error_of self.new ≡ last_error_of self.old }
    {
        self.hand_on()?;
        if bytes.is_empty() || self.holds(bytes) {
            return Ok(bytes.len());
        }
        write_some(&mut self.writer, bytes)
    }
}

/// Writes the text after the first `end` bytes of the block, which stay, and answers its length. None where the text
/// isn't written there.
#[inline(always)]
fn write_after<T: TextInPlace>(text: &T, block: &mut [u8], end: usize) -> Option<usize>
    requires { end ≤ length block.old }
    ensures within { IfSome result (λ len. end + len ≤ length block.new) }
    ensures written { IfSome result (λ len. take (end + len) block.new ≡ take end block.old ++ T.text text.now) }
    ensures fits { IfSome result (λ _. T.Fits text.now) }
    ensures answers { T.Fits text.now → end + length (T.text text.now) + 21 ≤ length block.old → IsSome result }
    ensures before { take end block.new ≡ take end block.old }
{
    text.write_in(&mut block[end..])
}

/// Lends the writer the room after the first `end` bytes of the block, which stay, and answers how many bytes it wrote
/// there. None where it wrote none.
#[inline(always)]
fn lend_after<T: WritesInPlace>(writer: &mut T, block: &mut [u8], end: usize) -> Option<usize>
    requires { end ≤ length block.old }
    ensures within { IfSome result (λ len. end + len ≤ length block.new) }
    ensures written { IfSome result (λ len. (text : List ℕ) × T.Writes writer.old writer.new text
        × (take (end + len) block.new ≡ take end block.old ++ text)) }
    ensures answers { T.Surely writer.old (length block.old - end) → IsSome result }
    ensures before { take end block.new ≡ take end block.old }
{
    writer.write_in(&mut block[end..])
}

impl<W: Write + Drop> Sink for BlockSink<W> {
    ghost use Rattle.sf_print.specs.sink.Sinks.{counted_on};
    ghost use Rattle.std.specs.Prelude.{if◌then◌else◌};
    ghost use Rattle.sf_print.specs.blocks.Blocks.{HoldsNothing, TakesShort, has_failed_flush, last_error_of, room_of};
    ghost use Rattle.sf_print.specs.blocks.Blocks.{taken_by, writer_of};

    ghost contents = { taken_by };

    ghost failures = { λ s. s.failures };

    /// Takes the bytes, or some. Bytes that are fewer than the room of the block are taken with no call of the writer.
    #[inline(always)]
    fn write(&mut self, bytes: &[u8]) -> Result<usize, SinkFault>
        ensures most { WritesAtMost result bytes.now }
        ensures some { 0 < length bytes.now → IfOk result (λ n. 0 < n) }
        ensures took { WriteAppends (taken_by self.old) (taken_by self.new) result bytes.now }
        ensures failures { ⟦<BlockSink<W> as Sink>⟧.failures self.new
            ≡ (if is_err result then counted_on (⟦<BlockSink<W> as Sink>⟧.failures self.old)
            else ⟦<BlockSink<W> as Sink>⟧.failures self.old) }
        ensures short { length bytes.now < room_of self.old → TakesShort self.old self.new bytes.now result }
        ensures nothing { HoldsNothing self.old → HoldsNothing self.new }
        ensures flushed { has_failed_flush self.new ≡ has_failed_flush self.old }
        ensures error { OnOk result (last_error_of self.new ≡ last_error_of self.old) }
        ensures known { OnErr result (IsSome (last_error_of self.new)) }
    {
        if self.holds(bytes) {
            return Ok(bytes.len());
        }
        match self.take_behind(bytes) {
            Ok(count) => Ok(count),
            Err(error) => {
                self.remember(error);
                self.failures = self.failures.saturating_add(1);
                Err(SinkFault)
            }
        }
    }

    /// Has the text written after the bytes that wait. It is, wherever the block has room for 21 bytes more.
    #[inline(always)]
    fn take_in_place<T: TextInPlace>(&mut self, text: &T) -> Option<usize>
        ensures took { IfSome result (λ len. Appends (taken_by self.old) (taken_by self.new) (T.text text.now)) }
        ensures len { IfSome result (λ len. len ≡ length (T.text text.now)) }
        ensures fits { IfSome result (λ len. T.Fits text.now) }
        ensures refused { IsNone result → taken_by self.new ≡ taken_by self.old }
        ensures failures { ⟦<BlockSink<W> as Sink>⟧.failures self.new ≡ ⟦<BlockSink<W> as Sink>⟧.failures self.old }
        ensures answers { T.Fits text.now → length (T.text text.now) + 21 ≤ room_of self.old → IsSome result }
        ensures writer { writer_of self.new ≡ writer_of self.old }
        ensures room { IfSome result (λ len. room_of self.new + len ≡ room_of self.old) }
        ensures kept { IsNone result → room_of self.new ≡ room_of self.old }
        ensures nothing { HoldsNothing self.old → HoldsNothing self.new }
        ensures flushed { has_failed_flush self.new ≡ has_failed_flush self.old }
        ensures error { last_error_of self.new ≡ last_error_of self.old }
    {
        let len = write_after(text, &mut self.block, self.end)?;
        self.end += len;
        Some(len)
    }

    /// Lends the writer the room after the bytes that wait.
    #[inline(always)]
    fn lend<T: WritesInPlace>(&mut self, writer: &mut T) -> bool
        ensures took { OnTrue result ((text : List ℕ) × T.Writes writer.old writer.new text
            × Appends (taken_by self.old) (taken_by self.new) text) }
        ensures answers { T.Surely writer.old (room_of self.old) → result ≡ true }
        ensures refused { OnFalse result (taken_by self.new ≡ taken_by self.old) }
        ensures failures { ⟦<BlockSink<W> as Sink>⟧.failures self.new ≡ ⟦<BlockSink<W> as Sink>⟧.failures self.old }
        ensures writer { writer_of self.new ≡ writer_of self.old }
        ensures nothing { HoldsNothing self.old → HoldsNothing self.new }
        ensures flushed { has_failed_flush self.new ≡ has_failed_flush self.old }
        ensures error { last_error_of self.new ≡ last_error_of self.old }
    {
        match lend_after(writer, &mut self.block, self.end) {
            Some(len) => {
                self.end += len;
                true
            }
            None => false,
        }
    }
}
