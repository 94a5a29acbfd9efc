//! Pairs of formats.
ghost use Rattle.std.specs.Prelude.{◌≡◌, ◌≤◌, ◌<◌, ◌+◌, ◌↔◌, length, map, take, Some, Err, IfSome, IfOk, IfErr, IsOk};
ghost use Rattle.std.specs.Prelude.{IsSome, IsTrue, IsErrOf, if◌then◌else◌};
ghost use Rattle.sf_base.specs.Data.{datum_of};
ghost use Rattle.sf_print.specs.declared.fault.PrintFault.TheVariants.{TooLong};
ghost use Rattle.sf_print.specs.Printed.{printed};
ghost use Rattle.sf_print.specs.sink.Sinks as sinks;
ghost use Rattle.sf_pair.specs.Groups.{IsAligned};
ghost use Rattle.sf_pair.specs.Formats.{IsChecked};
ghost use Rattle.sf_pair.specs.Walk.{pair_fault};
ghost use Rattle.sf_pair.specs.Fits.{Fit, fits};
ghost use Rattle.sf_pair.specs.Writing.{WritesWhole, is_sink_failure};

use crate::as_shown::AsShown;
use crate::conversions::laws_below;
use crate::fault::{PairFault, WriteFault};
use crate::fitting::all_fit;
use crate::in_place::write_units;
use crate::walk::pair_fault;
use sf_base::Value;
use sf_format::{PrintFormat, ScanFormat};
use sf_print::{Sink, fprint, write_text};
use std::marker::Model;

/// A text of at most so many bytes is written in place, and then handed to the sink at once.
const LINE_BYTES: usize = 256;

/// A print format (C11 7.21.6.1), and a scan format (C11 7.21.6.2) that reads back what it prints of values that fit,
/// whatever follows.
#[derive(Drop)]
pub struct Pair<'f> {
    print: &'f PrintFormat,
    scan: &'f ScanFormat,
}

impl<'f> Model for Pair<'f> {
    ghost use Rattle.sf_pair.specs.Formats.{Formats, IsChecked};

    ghost Value = { Formats };

    ghost view = { λ p. record { print = p.print.now; scan = p.scan.now } };

    ghost invariant = { λ p. IsChecked p.print.now p.scan.now };
}

/// Hands the sink a text.
#[inline(always)]
fn send<K: Sink>(to: &mut K, text: &[u8]) -> Result<u32, WriteFault>
    requires { length text.now ≤ 2147483647 }
    ensures written { WritesWhole (K.contents to.old) (K.contents to.new) text.now result }
    ensures failures { K.failures to.new ≡ (if is_sink_failure result then sinks.counted_on
        (K.failures to.old) else K.failures to.old) }
{
    match write_text(to, text) {
        Ok(len) => Ok(len),
        Err(fault) => Err(WriteFault::Print(fault)),
    }
}

impl<'f> Pair<'f> {
    /// The pair of these formats, where the scan format reads back what the print format prints of values that fit,
    /// whatever follows; else the first fault that a walk over both meets. It takes no memory.
    pub fn check(print: &'f PrintFormat, scan: &'f ScanFormat) -> Result<Pair<'f>, PairFault>
        ensures aligned { IsOk result ↔ IsAligned print.entry.now scan.entry.now }
        ensures fault { IfErr result (λ fault. pair_fault print.entry.now scan.entry.now ≡ Some fault) }
        ensures formats { IfOk result (λ pair. pair ≡ record { print = print.entry.now; scan = scan.entry.now }) }
    {
        match pair_fault(print.directives(), scan.directives()) {
            Some(fault) => Err(fault),
            None => Ok(Pair { print, scan }),
        }
    }

    /// The print format.
    pub fn print(&self) -> &'f PrintFormat
        ensures value { result.now ≡ self.entry.now.print }
        ensures checked { IsChecked self.entry.now.print self.entry.now.scan }
    {
        let Pair { print, .. } = *self;
        print
    }

    /// The scan format.
    pub fn scan(&self) -> &'f ScanFormat
        ensures value { result.now ≡ self.entry.now.scan }
        ensures checked { IsChecked self.entry.now.print self.entry.now.scan }
    {
        let Pair { scan, .. } = *self;
        scan
    }

    /// Whether the scan format reads these values back, once they were printed. It takes no memory.
    pub fn fits(&self, values: &[Value<'_>]) -> bool
        ensures fits { IsTrue result ↔ Fit self.now.print self.now.scan (map datum_of values.now) }
        ensures test { result ≡ fits self.now.print self.now.scan (map datum_of values.now) }
    {
        laws_below();
        let count = self.print.values();
        values.len() == count as usize
            && all_fit(self.print.directives(), self.scan.directives(), values)
    }

    /// Writes what is printed of values that fit to a buffer, and answers its length; it takes no memory. It answers
    /// wherever 21 bytes more than the text have room. None says that the values don't fit, or that there is too little
    /// room.
    #[inline(always)]
    pub fn write_in_place<V: AsShown>(&self, values: &[V], buf: &mut [u8]) -> Option<usize>
        ensures within { IfSome result (λ end. end ≤ length buf.new) }
        ensures written { IfSome result (λ end. take end buf.new
            ≡ printed self.now.print (map V.datum values.now)) }
        ensures fits { IfSome result (λ _. Fit self.now.print self.now.scan (map V.datum values.now)) }
        ensures answers { Fit self.now.print self.now.scan (map V.datum values.now)
            → length (printed self.now.print (map V.datum values.now)) + 21 ≤ length buf.old → IsSome result }
    {
        laws_below();
        if values.len() != self.print.values() as usize {
            return None;
        }
        let (units, directives) = (self.print.directives(), self.scan.directives());
        write_units(units, directives, values, buf)
    }

    /// Prints the values by the pair's print format, as `fprint` does, where the scan format will read them back. It
    /// takes no memory but what the sink takes.
    ///
    /// Values that don't fit are refused with NotFitting; then a text that is too long, and a failing sink, as `fprint`
    /// refuses them. Where it refuses for anything but the sink, nothing was written.
    pub fn write<K: Sink>(&self, to: &mut K, values: &[Value<'_>]) -> Result<u32, WriteFault>
        ensures unfit { IsErrOf result WriteFault.NotFitting ↔
            (Fit self.now.print self.now.scan (map datum_of values.now) → ⊥) }
        ensures nothing { IsErrOf result WriteFault.NotFitting → to.new ≡ to.old }
        ensures long { Fit self.now.print self.now.scan (map datum_of values.now)
            → 2147483647 < length (printed self.now.print (map datum_of values.now))
            → (result ≡ Err (WriteFault.Print TooLong)) × (to.new ≡ to.old) }
        ensures written { Fit self.now.print self.now.scan (map datum_of values.now)
            → length (printed self.now.print (map datum_of values.now)) ≤ 2147483647
            → WritesWhole (K.contents to.old) (K.contents to.new)
            (printed self.now.print (map datum_of values.now)) result }
        ensures failures { K.failures to.new ≡ (if is_sink_failure result then sinks.counted_on
            (K.failures to.old) else K.failures to.old) }
    {
        laws_below();
        let mut line = [0; LINE_BYTES];
        if let Some(end) = self.write_in_place(values, &mut line) {
            return send(to, &line[..end]);
        }
        if !self.fits(values) {
            return Err(WriteFault::NotFitting);
        }
        match fprint(to, self.print, values) {
            Ok(len) => Ok(len),
            Err(fault) => Err(WriteFault::Print(fault)),
        }
    }
}
