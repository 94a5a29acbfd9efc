//! Writing rows by a pair.
ghost use Rattle.std.specs.Prelude.{◌≡◌, map, OnOk, IfErr};
ghost use Rattle.std.specs.List.{AllByRecursion};
ghost use Rattle.std.specs.Io.KnownBytes.{Appends};
ghost use Rattle.sf_pair.specs.Fits.{Fit};
ghost use Rattle.sf_pair.specs.Joined.{joined};
ghost use Rattle.sf_pair_read.specs.rows.Writing.{StopsAtRow};

use crate::rows::below::pair_laws;
use crate::rows::fault::WriteRowsFault;
use sf_pair::Pair;
use sf_print::Sink;
use sf_read::Row;

/// Writes the rows by the pair's print format, one after the other, as fprintf would (C11 7.21.6.1), and as
/// `Pair::write` writes each. `read_rows` reads them back, whatever follows. It takes no memory but what the sink
/// takes.
///
/// Stops at the first row that `Pair::write` refuses: the rows before it are written then, and nothing after it.
pub fn write_rows<T: Row, K: Sink>(
    to: &mut K,
    pair: &Pair<'_>,
    rows: &[T],
) -> Result<(), WriteRowsFault>
    ensures written { OnOk result (Appends (K.contents to.old) (K.contents to.new)
        (joined pair.now.print (map T.listed rows.now))) }
    ensures fit { OnOk result (AllByRecursion (Fit pair.now.print pair.now.scan) (map T.listed rows.now)) }
    ensures sound { OnOk result (K.failures to.new ≡ K.failures to.old) }
    ensures fault { IfErr result (λ fault. StopsAtRow pair.now.print pair.now.scan K.contents K.failures T.listed
        rows.now to.old to.new fault) }
{
    pair_laws();
    for (before, row) in rows.iter().enumerate() {
        if let Err(why) = pair.write(to, &row.with_values()) {
            return Err(WriteRowsFault {
                row: before as u64 + 1,
                why,
            });
        }
    }
    Ok(())
}
