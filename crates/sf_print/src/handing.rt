//! Pieces of text on their way to a sink.
ghost use Rattle.std.specs.Prelude.{◌≡◌, ◌≤◌, ◌<◌, ◌+◌, ◌^◌, ◌++◌, ◌∷◌, [], replicate, length, OnOk, is_err};
ghost use Rattle.std.specs.Prelude.{if◌then◌else◌};
ghost use Rattle.std.specs.Fmt.{decimal};
ghost use Rattle.sf_print.specs.sink.Sinks.{counted_on};
ghost use Rattle.sf_print.specs.Handed.{Hands};
ghost use Rattle.sf_print.specs.Staged.{Puts};
ghost use Rattle.sf_print.specs.digits.Decimals.{minus};
ghost use Rattle.sf_print.specs.Printed.{WritesText, is_sink_fault};

use crate::fault::PrintFault;
use crate::sink::{Sink, SinkFault};
use crate::stage::{STAGE_BYTES, Stage};

/// Hands the sink all of the piece, and answers how many bytes it took in all, by now or when it failed.
fn hand<K: Sink>(to: &mut K, written: u32, piece: &[u8]) -> Result<u32, u32>
    requires { written + length piece.now < 2 ^ 32 }
    ensures took { Hands (K.contents to.old) (K.contents to.new) piece.now written result }
    ensures failures { K.failures to.new
        ≡ (if is_err result then counted_on (K.failures to.old) else K.failures to.old) }
{
    let mut done = 0;
    while done < piece.len() {
        match to.write(&piece[done..]) {
            Ok(n) => done += n,
            Err(_) => return Err(written + done as u32),
        }
    }
    Ok(written + piece.len() as u32)
}

/// Hands the sink a text, and answers its length.
///
/// Where the sink fails, `PrintFault::Sink` has how many bytes of the text it had taken: less than all.
#[inline]
pub fn write_text<K: Sink>(to: &mut K, text: &[u8]) -> Result<u32, PrintFault>
    requires { length text.now ≤ 2147483647 }
    ensures written { WritesText (K.contents to.old) (K.contents to.new) text.now result }
    ensures failures { K.failures to.new
        ≡ (if is_sink_fault result then counted_on (K.failures to.old) else K.failures to.old) }
{
    match hand(to, 0, text) {
        Ok(len) => Ok(len),
        Err(written) => Err(PrintFault::Sink { written }),
    }
}

/// Hands the sink all that is held.
pub(crate) fn flush<K: Sink>(to: &mut K, stage: &mut Stage) -> Result<(), SinkFault>
    requires { stage.old.written + stage.old.len < 2 ^ 32 }
    ensures text { Puts (K.contents to.old) stage.old (K.contents to.new) stage.new [] result }
    ensures len { OnOk result (stage.new.len ≡ 0) }
    ensures count { OnOk result (stage.new.written ≡ stage.old.written + stage.old.len) }
    ensures failures { K.failures to.new
        ≡ (if is_err result then counted_on (K.failures to.old) else K.failures to.old) }
{
    match hand(to, stage.written, &stage.buf[..stage.len]) {
        Ok(now) => {
            stage.written = now;
            stage.len = 0;
            Ok(())
        }
        Err(now) => {
            stage.written = now;
            Err(SinkFault)
        }
    }
}

/// Hands the sink a piece that is too long to be held; nothing is held before.
fn hand_over<K: Sink>(to: &mut K, stage: &mut Stage, piece: &[u8]) -> Result<(), SinkFault>
    requires empty { stage.old.len ≡ 0 }
    requires room { stage.old.written + length piece.now < 2 ^ 32 }
    ensures text { Puts (K.contents to.old) stage.old (K.contents to.new) stage.new piece.now result }
    ensures count { OnOk result (stage.new.written + stage.new.len
        ≡ stage.old.written + stage.old.len + length piece.now) }
    ensures failures { K.failures to.new
        ≡ (if is_err result then counted_on (K.failures to.old) else K.failures to.old) }
{
    match hand(to, stage.written, piece) {
        Ok(now) => {
            stage.written = now;
            Ok(())
        }
        Err(now) => {
            stage.written = now;
            Err(SinkFault)
        }
    }
}

/// Puts the piece after what is held.
pub(crate) fn put<K: Sink>(to: &mut K, stage: &mut Stage, piece: &[u8]) -> Result<(), SinkFault>
    requires { stage.old.written + stage.old.len + length piece.now < 2 ^ 32 }
    ensures text { Puts (K.contents to.old) stage.old (K.contents to.new) stage.new piece.now result }
    ensures count { OnOk result (stage.new.written + stage.new.len
        ≡ stage.old.written + stage.old.len + length piece.now) }
    ensures failures { K.failures to.new
        ≡ (if is_err result then counted_on (K.failures to.old) else K.failures to.old) }
{
    if piece.len() <= STAGE_BYTES - stage.len {
        stage.hold(piece);
        return Ok(());
    }
    flush(to, stage)?;
    if piece.len() > STAGE_BYTES {
        return hand_over(to, stage, piece);
    }
    stage.hold(piece);
    Ok(())
}

/// Puts a byte this many times after what is held.
pub(crate) fn put_run<K: Sink>(
    to: &mut K,
    stage: &mut Stage,
    byte: u8,
    count: u32,
) -> Result<(), SinkFault>
    requires { stage.old.written + stage.old.len + count < 2 ^ 32 }
    ensures text { Puts (K.contents to.old) stage.old (K.contents to.new) stage.new (replicate count byte) result }
    ensures count { OnOk result (stage.new.written + stage.new.len
        ≡ stage.old.written + stage.old.len + count) }
    ensures failures { K.failures to.new
        ≡ (if is_err result then counted_on (K.failures to.old) else K.failures to.old) }
{
    let mut left = count as usize;
    while left > STAGE_BYTES - stage.len {
        let room = STAGE_BYTES - stage.len;
        stage.hold_run(byte, room);
        left -= room;
        flush(to, stage)?;
    }
    stage.hold_run(byte, left);
    Ok(())
}

/// Puts a byte after what is held.
#[inline]
pub(crate) fn put_byte<K: Sink>(to: &mut K, stage: &mut Stage, byte: u8) -> Result<(), SinkFault>
    requires { stage.old.written + stage.old.len + 1 < 2 ^ 32 }
    ensures text { Puts (K.contents to.old) stage.old (K.contents to.new) stage.new (byte ∷ []) result }
    ensures count { OnOk result (stage.new.written + stage.new.len
        ≡ stage.old.written + stage.old.len + 1) }
    ensures failures { K.failures to.new
        ≡ (if is_err result then counted_on (K.failures to.old) else K.failures to.old) }
{
    if stage.len < STAGE_BYTES {
        stage.hold_byte(byte);
        return Ok(());
    }
    flush(to, stage)?;
    stage.hold_byte(byte);
    Ok(())
}

/// Makes room for a sign and the digits of a number.
#[inline]
fn make_room<K: Sink>(to: &mut K, stage: &mut Stage) -> Result<(), SinkFault>
    requires { stage.old.written + stage.old.len < 2 ^ 32 }
    ensures text { Puts (K.contents to.old) stage.old (K.contents to.new) stage.new [] result }
    ensures room { OnOk result (stage.new.len + 21 ≤ 128) }
    ensures count { OnOk result (stage.new.written + stage.new.len
        ≡ stage.old.written + stage.old.len) }
    ensures failures { K.failures to.new
        ≡ (if is_err result then counted_on (K.failures to.old) else K.failures to.old) }
{
    if stage.len <= STAGE_BYTES - 21 {
        return Ok(());
    }
    flush(to, stage)
}

/// Puts a minus, if there is one, and the decimal digits of a number.
#[inline]
pub(crate) fn put_number<K: Sink>(
    to: &mut K,
    stage: &mut Stage,
    negative: bool,
    magnitude: u64,
) -> Result<(), SinkFault>
    requires { stage.old.written + stage.old.len < 2 ^ 32 }
    ensures text { Puts (K.contents to.old) stage.old (K.contents to.new) stage.new
        (minus negative ++ decimal magnitude) result }
    ensures count { OnOk result (stage.new.written + stage.new.len
        ≡ stage.old.written + stage.old.len + length (minus negative ++ decimal magnitude)) }
    ensures failures { K.failures to.new
        ≡ (if is_err result then counted_on (K.failures to.old) else K.failures to.old) }
{
    make_room(to, stage)?;
    if negative {
        stage.hold_byte(b'-');
        stage.hold_decimal(magnitude);
        return Ok(());
    }
    stage.hold_decimal(magnitude);
    Ok(())
}
