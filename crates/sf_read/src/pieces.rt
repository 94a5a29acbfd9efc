//! Scans of texts that come in pieces.
ghost use Rattle.std.specs.Prelude.{◌≡◌, ◌<◌, ◌⊎◌, ◌↔◌, IfErr, IfOk, IsErrOf, IsSome};
ghost use Rattle.sf_format.specs.Widths.{width_sum};
ghost use Rattle.sf_run.specs.Limits.{RunTold, RunWithin};
ghost use Rattle.sf_read.specs.Pieces.{pieces_joined};

use sf_base::HeapStore;
use sf_format::ScanFormat;
use sf_run::{Ending, Scanned, Scanner, StartFault};
use std::alloc::Global;

/// Scans a text that comes in pieces, as `sscan` scans the pieces joined (C11 7.21.6.7): wherever they are cut, the
/// report is that of the text. The run consumes at most `limit` bytes.
///
/// Refuses a limit above 2147483647 with BadLimit; then it answers NoMemory where memory was refused. Where memory for
/// a text is refused later, the report has it; a format with a width sum needs none then.
pub fn scan_pieces(
    alloc: Global,
    pieces: &[&[u8]],
    format: &ScanFormat,
    limit: u32,
) -> Result<Scanned<HeapStore>, StartFault>
    ensures report { IfOk result (λ s. RunTold format.now limit (pieces_joined pieces.now) Ending.End s.report) }
    ensures bounded { IsSome (width_sum format.now) → IfOk result
        (λ s. RunWithin format.now limit (pieces_joined pieces.now) Ending.End s.report) }
    ensures limit { IsErrOf result StartFault.BadLimit ↔ (2147483647 < limit) }
    ensures memory { IfErr result (λ fault. (fault ≡ StartFault.BadLimit) ⊎ (fault ≡ StartFault.NoMemory)) }
{
    let mut scanner = Scanner::new(alloc, format, limit)?;
    for piece in pieces {
        scanner.feed(piece);
    }
    scanner.end(Ending::End);
    match scanner.into_scanned() {
        Ok(scanned) => Ok(scanned),
        Err(_) => unreachable!(),
    }
}
