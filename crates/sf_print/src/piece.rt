//! The pieces of a value's text, put one after the other.
ghost use Rattle.std.specs.Prelude.{◌≡◌, ◌<◌, ◌+◌, ◌^◌, length, OnOk, is_err, if◌then◌else◌};
ghost use Rattle.std.specs.List.{flat_map};
ghost use Rattle.sf_print.specs.sink.Sinks.{counted_on};
ghost use Rattle.sf_print.specs.Staged.{Puts};
ghost use Rattle.sf_print.specs.texts.Runs.{piece_bytes};

use crate::handing::{put, put_run};
use crate::sink::{Sink, SinkFault};
use crate::stage::Stage;
use crate::texts::Piece;

/// Puts a piece.
#[inline]
fn put_piece<K: Sink>(to: &mut K, stage: &mut Stage, piece: &Piece<'_>) -> Result<(), SinkFault>
    requires { stage.old.written + stage.old.len + length (piece_bytes piece.now) < 2 ^ 32 }
    ensures text { Puts (K.contents to.old) stage.old (K.contents to.new) stage.new (piece_bytes piece.now) result }
    ensures count { OnOk result (stage.new.written + stage.new.len
        ≡ stage.old.written + stage.old.len + length (piece_bytes piece.now)) }
    ensures failures { K.failures to.new
        ≡ (if is_err result then counted_on (K.failures to.old) else K.failures to.old) }
{
    match *piece {
        Piece::Run(byte, count) => put_run(to, stage, byte, count),
        Piece::Bytes(bytes) => put(to, stage, bytes),
    }
}

/// Puts the pieces one after the other.
pub(crate) fn put_pieces<K: Sink>(
    to: &mut K,
    stage: &mut Stage,
    pieces: &[Piece<'_>],
) -> Result<(), SinkFault>
    requires { stage.old.written + stage.old.len + length (flat_map piece_bytes pieces.now) < 2 ^ 32 }
    ensures text { Puts (K.contents to.old) stage.old (K.contents to.new) stage.new
        (flat_map piece_bytes pieces.now) result }
    ensures count { OnOk result (stage.new.written + stage.new.len
        ≡ stage.old.written + stage.old.len + length (flat_map piece_bytes pieces.now)) }
    ensures failures { K.failures to.new
        ≡ (if is_err result then counted_on (K.failures to.old) else K.failures to.old) }
{
    for piece in pieces {
        put_piece(to, stage, piece)?;
    }
    Ok(())
}
