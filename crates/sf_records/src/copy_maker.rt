//! Copies of reports by a pair of formats.
ghost use Rattle.std.specs.Prelude.{◌≡◌, ◌≤◌, ◌+◌, length, map, refl, take, true, IfSome, IsSome, if◌then◌else◌};
ghost use Rattle.sf_base.specs.Data.{datum_of};
ghost use Rattle.sf_print.specs.Printed.{printed};
ghost use Rattle.sf_print.specs.sink.Sinks.{counted_on};
ghost use Rattle.sf_pair.specs.Fits.{Fit};
ghost use Rattle.sf_records.specs.Copies.{copying, is_copied, row_in, row_of};
ghost use Rattle.sf_forms.specs.makers.Works.{Writes, sink_failed};

use sf_base::{Shown, Store, Value};
use sf_format::ScanFormat;
use sf_forms::{FEW_VALUES, MOST_VALUES, Maker, Unwritten, row, shown_row};
use sf_pair::laws::fits_is_fit;
use sf_pair::{Pair, WriteFault};
use sf_print::{PrintFault, Sink, TextInPlace, write_text};
use sf_run::Report;
use std::marker::Model;

/// The room for the copy of a record that is written in place: 1,023 bytes, and as many as the longest number has.
const LINE_BYTES: usize = 1044;

/// The greatest length of a printed text.
const MOST_BYTES: usize = 2147483647;

/// Prints the values of each report by a pair, if they fit it.
#[derive(Drop)]
pub struct CopyMaker<'p, 'f> {
    pair: &'p Pair<'f>,
    /// The last copy, where it was written in place.
    line: [u8; LINE_BYTES],
}

impl<'p, 'f> Model for CopyMaker<'p, 'f> {
    ghost use Rattle.sf_pair.specs.Formats.{Formats};

    ghost Value = { Formats };

    ghost view = { λ maker. maker.pair.now };
}

impl<'p, 'f> CopyMaker<'p, 'f> {
    /// Of copies by this pair.
    pub fn new(pair: &'p Pair<'f>) -> CopyMaker<'p, 'f>
        ensures { result ≡ pair.entry.now }
    {
        CopyMaker {
            pair,
            line: [0; LINE_BYTES],
        }
    }
}

/// Prints the values, if they fit the pair.
fn copy_row<K: Sink>(to: &mut K, pair: &Pair<'_>, values: &[Value<'_>]) -> Result<(), Unwritten>
    ensures made { Writes (is_copied pair.now.print pair.now.scan (map datum_of values.now))
        (printed pair.now.print (map datum_of values.now)) (K.contents to.old) (K.contents to.new) result }
    ensures failures { K.failures to.new
        ≡ (if sink_failed result then counted_on (K.failures to.old) else K.failures to.old) }
{
    fits_is_fit();
    match pair.write(to, values) {
        Ok(_) => Ok(()),
        Err(WriteFault::Print(PrintFault::Sink { .. })) => Err(Unwritten::Write),
        Err(_) => Err(Unwritten::Unfit),
    }
}

/// Writes the copy of a record to a line, by places for its values, and answers where it ends. None where the values
/// don't fit the pair, or the line has too little room.
#[inline(always)]
fn write_line<'r, T: Store>(
    pair: &Pair<'_>,
    report: &Report<'r, T>,
    destinations: u8,
    places: &mut [Shown<'r>],
    line: &mut [u8],
) -> Option<usize>
    requires { destinations ≤ length places.old }
    ensures within { IfSome result (λ end. end ≤ length line.new) }
    ensures written { IfSome result (λ end. take end line.new
        ≡ printed pair.now.print (row_of destinations report.now.values)) }
    ensures fits { IfSome result (λ _. Fit pair.now.print pair.now.scan (row_of destinations report.now.values)) }
    ensures answers { Fit pair.now.print pair.now.scan (row_of destinations report.now.values)
        → length (printed pair.now.print (row_of destinations report.now.values)) + 21 ≤ length line.old
        → IsSome result }
{
    let count = shown_row(report, destinations, places);
    pair.write_in_place(&places[..count], line)
}

/// As `write_line`, of a record of many values. It is a call of its own, so that others don't pay for their places.
#[inline(never)]
fn write_long_line<T: Store>(
    pair: &Pair<'_>,
    report: &Report<'_, T>,
    destinations: u8,
    line: &mut [u8],
) -> Option<usize>
    requires { destinations ≤ 32 }
    ensures within { IfSome result (λ end. end ≤ length line.new) }
    ensures written { IfSome result (λ end. take end line.new
        ≡ printed pair.now.print (row_of destinations report.now.values)) }
    ensures fits { IfSome result (λ _. Fit pair.now.print pair.now.scan (row_of destinations report.now.values)) }
    ensures answers { Fit pair.now.print pair.now.scan (row_of destinations report.now.values)
        → length (printed pair.now.print (row_of destinations report.now.values)) + 21 ≤ length line.old
        → IsSome result }
{
    let mut places = [Shown::Text(&[]); MOST_VALUES];
    write_line(pair, report, destinations, &mut places, line)
}

/// Writes the copy of a record to a line, as `write_line` does, whatever the number of its values.
#[inline(always)]
fn write_copy<T: Store>(pair: &Pair<'_>, report: &Report<'_, T>, line: &mut [u8]) -> Option<usize>
    ensures within { IfSome result (λ end. end ≤ length line.new) }
    ensures written { IfSome result (λ end. take end line.new
        ≡ printed pair.now.print (row_in pair.now.scan report.now)) }
    ensures fits { IfSome result (λ _. Fit pair.now.print pair.now.scan (row_in pair.now.scan report.now)) }
    ensures answers { Fit pair.now.print pair.now.scan (row_in pair.now.scan report.now)
        → length (printed pair.now.print (row_in pair.now.scan report.now)) + 21 ≤ length line.old → IsSome result }
{
    let destinations = pair.scan().destinations();
    if destinations as usize <= FEW_VALUES {
        let mut places = [Shown::Text(&[]); FEW_VALUES];
        return write_line(pair, report, destinations, &mut places, line);
    }
    write_long_line(pair, report, destinations, line)
}

/// Hands the sink the copy of a record.
#[inline(always)]
fn send<K: Sink>(to: &mut K, text: &[u8]) -> Result<(), Unwritten>
    requires { length text.now ≤ 2147483647 }
    ensures made { Writes true text.now (K.contents to.old) (K.contents to.new) result }
    ensures failures { K.failures to.new
        ≡ (if sink_failed result then counted_on (K.failures to.old) else K.failures to.old) }
{
    match write_text(to, text) {
        Ok(_) => Ok(()),
        Err(_) => Err(Unwritten::Write),
    }
}

/// As `copy_record`, not in place. It is a call of its own, so that copies in place don't pay for it.
#[inline(never)]
fn copy_apart<K: Sink, T: Store>(
    to: &mut K,
    pair: &Pair<'_>,
    report: &Report<'_, T>,
) -> Result<(), Unwritten>
    ensures made { Writes (is_copied pair.now.print pair.now.scan (row_in pair.now.scan report.now))
        (printed pair.now.print (row_in pair.now.scan report.now)) (K.contents to.old) (K.contents to.new) result }
    ensures failures { K.failures to.new
        ≡ (if sink_failed result then counted_on (K.failures to.old) else K.failures to.old) }
{
    let destinations = pair.scan().destinations();
    copy_row(to, pair, &row::<T, MOST_VALUES>(report, destinations))
}

/// The copy of a record by a pair.
#[derive(Drop)]
struct RecordCopy<'a, 'f, 'r, T: Store> {
    pair: &'a Pair<'f>,
    report: &'a Report<'r, T>,
}

impl<T: Store> TextInPlace for RecordCopy<'_, '_, '_, T> {
    ghost text = { λ copy. printed copy.pair.now.print (row_in copy.pair.now.scan copy.report.now) };

    ghost Fits = { λ copy. is_copied copy.pair.now.print copy.pair.now.scan (row_in copy.pair.now.scan copy.report.now)
        ≡ true };

    #[inline(always)]
    fn write_in(&self, room: &mut [u8]) -> Option<usize> {
        fits_is_fit();
        let len = write_copy(self.pair, self.report, room)?;
        if len > MOST_BYTES {
            return None;
        }
        Some(len)
    }
}

/// As `copy_record`, by a line. It is a call of its own, so that copies in the sink's block don't pay for it.
#[inline(never)]
fn copy_by_line<K: Sink, T: Store>(
    to: &mut K,
    pair: &Pair<'_>,
    report: &Report<'_, T>,
    line: &mut [u8; LINE_BYTES],
) -> Result<(), Unwritten>
    ensures made { Writes (is_copied pair.now.print pair.now.scan (row_in pair.now.scan report.now))
        (printed pair.now.print (row_in pair.now.scan report.now)) (K.contents to.old) (K.contents to.new) result }
    ensures failures { K.failures to.new
        ≡ (if sink_failed result then counted_on (K.failures to.old) else K.failures to.old) }
{
    fits_is_fit();
    if let Some(end) = write_copy(pair, report, line) {
        return send(to, &line[..end]);
    }
    copy_apart(to, pair, report)
}

/// Prints the values of the record, if they fit the pair.
#[inline(always)]
fn copy_record<K: Sink, T: Store>(
    to: &mut K,
    pair: &Pair<'_>,
    report: &Report<'_, T>,
    line: &mut [u8; LINE_BYTES],
) -> Result<(), Unwritten>
    ensures made { Writes (is_copied pair.now.print pair.now.scan (row_in pair.now.scan report.now))
        (printed pair.now.print (row_in pair.now.scan report.now)) (K.contents to.old) (K.contents to.new) result }
    ensures failures { K.failures to.new
        ≡ (if sink_failed result then counted_on (K.failures to.old) else K.failures to.old) }
{
    let copy = RecordCopy { pair, report };
    if to.take_in_place(&copy).is_some() {
        return Ok(());
    }
    copy_by_line(to, pair, report, line)
}

impl Maker for CopyMaker<'_, '_> {
    ghost work = { λ formats number ds. copying formats.print formats.scan };

    fn write<K: Sink, T: Store>(
        &mut self,
        to: &mut K,
        _format: &ScanFormat,
        _number: usize,
        report: &Report<'_, T>,
    ) -> Result<(), Unwritten> {
        copy_record(to, self.pair, report, &mut self.line)
    }

    ghost unmet = { λ formats number ds report met. record { fits = refl; text = refl } };
}
