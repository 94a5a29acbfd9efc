//! Laws of pairs.
ghost use Rattle.std.specs.Prelude.{◌≡◌, ◌<◌, ◌≤◌, ◌++◌, ◌∷◌, ℕ, List, [], length, map, true, Some, None, IfOk, IfErr};
ghost use Rattle.std.specs.Prelude.{IfSome};
ghost use Rattle.sf_base.specs.Data.{Datum, datum_of};
ghost use Rattle.sf_base.specs.stores.Kept.{texts_in};
ghost use Rattle.sf_format.specs.declared.directive.Directive.{Directive};
ghost use Rattle.sf_format.specs.declared.unit.Unit.{Unit as PrintUnit};
ghost use Rattle.sf_format.specs.Widths.{width_sum};
ghost use Rattle.sf_format.specs.Proper.{destinations_of};
ghost use Rattle.sf_print.specs.Printed.{printed};
ghost use Rattle.sf_run.specs.outcome.Status.TheVariants as status;
ghost use Rattle.sf_run.specs.outcome.Ending.{Ending};
ghost use Rattle.sf_run.specs.outcome.Ending.TheVariants as ending;
ghost use Rattle.sf_report.specs.Rows.{AreRowOf};
ghost use Rattle.sf_pair.specs.Fits.{Fit, fits};
ghost use Rattle.sf_pair.specs.Joined.{RunsInTurn};
ghost use Rattle.sf_pair.specs.Laws.{IsOpenAt, IsRunInto, StopsAt, read_back};

use sf_base::{HeapStore, Value};
use sf_format::{PrintFormat, ScanFormat};
use sf_pair::laws::{
    aligned_is_accepted, aligned_is_bounded, ends_on_nothing, fits_is_fit, held_is_bounded,
    joined_round_trip, literals_are_run_into, open_ends_are_open, prints_some, read_within,
    round_trip, slots_agree, stops_are_one,
};
use sf_pair::{Pair, PairFault, PairWhy};
use sf_print::ListSink;
use sf_read::sscan;
use sf_report::laws::one_report;
use sf_run::Scanned;
use std::alloc::Global;

/// The limit of these runs.
const LIMIT: u32 = 1000;

/// A text that begins with what the pair prints of values that fit is read back as these, and not one byte more is
/// used.
pub fn read_back(alloc: Global, pair: &Pair<'_>, text: &[u8]) -> Option<Scanned<HeapStore>>
    ensures back { (values : List Datum) (z : List ℕ) → Fit pair.now.print pair.now.scan values
        → length (printed pair.now.print values) ≤ 1000
        → text.now ≡ printed pair.now.print values ++ z → IfSome result
        (λ s. (s.report ≡ read_back pair.now.print pair.now.scan values)
        × AreRowOf (length values) values s.report.values) }
    ensures some { (values : List Datum) (z : List ℕ) → Fit pair.now.print pair.now.scan values
        → text.now ≡ printed pair.now.print values ++ z → 0 < length text.now }
    ensures held { IfSome result (λ s. (n : ℕ) → width_sum pair.now.scan ≡ Some n
        → length (texts_in s.report.values) ≤ n) }
    ensures end { text.now ≡ [] → IfSome result (λ s. (s.report.status ≡ status.InputFailure)
        × (s.report.met ≡ Some ending.End)) }
{
    aligned_is_accepted();
    aligned_is_bounded();
    read_within();
    slots_agree();
    prints_some();
    held_is_bounded();
    ends_on_nothing();
    one_report();
    let format = pair.scan();
    let Ok(scanned) = sscan(alloc, text, format, LIMIT) else {
        return None;
    };
    Some(scanned)
}

/// Formats that no pair is made of, for an open end or a literal that is read on into: some byte is taken too, at one
/// place.
pub fn refused_pair(print: &PrintFormat, scan: &ScanFormat) -> Option<PairFault>
    ensures open { IfSome result (λ fault. fault.why ≡ PairWhy.OpenEnd → IsOpenAt print.now scan.now fault.at) }
    ensures into { IfSome result (λ fault. fault.why ≡ PairWhy.RunsOn → IsRunInto print.now scan.now fault.at) }
    ensures one { IfSome result (λ fault. (d e : Directive) (left other : List PrintUnit)
        → StopsAt print.now scan.now fault.at d left → StopsAt print.now scan.now fault.at e other → d ≡ e) }
{
    open_ends_are_open();
    literals_are_run_into();
    stops_are_one();
    let _directives = scan.directives();
    let _units = print.directives();
    let Err(fault) = Pair::check(print, scan) else {
        return None;
    };
    Some(fault)
}

/// Values that fit are read back by a run of their text alone: what the test of the pair says of them is the premise of
/// the law.
pub fn read_again(
    alloc: Global,
    pair: &Pair<'_>,
    values: &[Value<'_>],
    text: &[u8],
) -> Option<Scanned<HeapStore>>
    ensures { text.now ≡ printed pair.now.print (map datum_of values.now) → length text.now ≤ 1000
        → IfSome result (λ s. s.report ≡ read_back pair.now.print pair.now.scan (map datum_of values.now)) }
{
    aligned_is_accepted();
    aligned_is_bounded();
    fits_is_fit();
    round_trip();
    one_report();
    let format = pair.scan();
    if !pair.fits(values) {
        return None;
    }
    let Ok(scanned) = sscan(alloc, text, format, LIMIT) else {
        return None;
    };
    Some(scanned)
}

/// Writes a row of values by a pair. Answers whether it fits, and was written.
fn write_row(pair: &Pair<'_>, to: &mut ListSink, values: &[Value<'_>]) -> bool
    ensures { result ≡ true → Fit pair.now.print pair.now.scan (map datum_of values.now)
        × (to.new.bytes ≡ to.old.bytes ++ printed pair.now.print (map datum_of values.now)) }
{
    fits_is_fit();
    if !pair.fits(values) {
        return false;
    }
    pair.write(to, values).is_ok()
}

/// Writes two rows of values by a pair, one after the other. Whatever follows their texts, runs of the scan format give
/// both rows back, one after the other, and leave what follows. None where a row doesn't fit, or memory was refused.
pub fn written_rows(
    alloc: Global,
    pair: &Pair<'_>,
    one: &[Value<'_>],
    other: &[Value<'_>],
) -> Option<ListSink>
    ensures { IfSome result (λ text. (z : List ℕ) (ending : Ending)
        → RunsInTurn pair.now.scan (text.bytes ++ z) ending
        (read_back pair.now.print pair.now.scan (map datum_of one.now)
        ∷ read_back pair.now.print pair.now.scan (map datum_of other.now) ∷ []) z) }
{
    aligned_is_accepted();
    joined_round_trip();
    let _print = pair.print();
    let mut text = ListSink::new(alloc);
    if !write_row(pair, &mut text, one) {
        return None;
    }
    if !write_row(pair, &mut text, other) {
        return None;
    }
    Some(text)
}
