//! The records of reports, in a form.
ghost use Rattle.std.specs.Prelude.{◌≡◌, ℕ, List, Option, IfSome, refl, true, if◌then◌else◌};
ghost use Rattle.sf_format.specs.declared.directive.Directive.{Directive};
ghost use Rattle.sf_report.specs.Runs.{RunReport};
ghost use Rattle.sf_forms.specs.Written.{WritesText, is_sink_fault};
ghost use Rattle.sf_print.specs.sink.Sinks.{counted_on};
ghost use Rattle.sf_forms.specs.makers.Forms.{IsBare, bare, bare_form_of, header_text, headed_text, writing_under};
ghost use Rattle.sf_forms.specs.Heads.{tag_of};
ghost use Rattle.sf_forms.specs.makers.Works.{Writes, sink_failed};

use crate::makers::maker::{Maker, Unwritten};
use crate::makers::names::Names;
use crate::{FormWriter, OutputForm, RecordFault};
use sf_base::Store;
use sf_format::ScanFormat;
use sf_print::Sink;
use sf_report::Report;
use std::alloc::Global;
use std::marker::Model;

/// Writes the record of each report, in a form.
#[derive(Drop)]
pub struct FormMaker<'n> {
    writer: FormWriter,
    names: Option<Names<'n>>,
    tagged: bool,
}

impl<'n> Model for FormMaker<'n> {
    ghost use Rattle.sf_forms.specs.Heads.{Heading};

    ghost Value = { Heading };

    ghost view = { λ maker. record { form = maker.writer; names = maker.names; tagged = maker.tagged } };
}

/// What came of writing a text, as a maker says it.
#[inline(always)]
fn as_made(wrote: Result<(), RecordFault>) -> Result<(), Unwritten>
    ensures writes { (text : List ℕ) (old new : Option (List ℕ)) → WritesText text old new wrote
        → Writes true text old new result }
    ensures sink { sink_failed result ≡ is_sink_fault wrote }
{
    match wrote {
        Ok(()) => Ok(()),
        Err(RecordFault::Write) => Err(Unwritten::Write),
        Err(RecordFault::Memory) => Err(Unwritten::Memory),
    }
}

impl<'n> FormMaker<'n> {
    /// Of records in this form. It takes no memory until a record is written.
    pub fn new(alloc: Global, form: OutputForm) -> FormMaker<'n>
        ensures { result ≡ bare form }
    {
        FormMaker::headed(alloc, form, None, false)
    }

    /// Of records in this form under heads: with names, records are objects in JSON, and in tables and
    /// comma-separated values a line of the names is due first (`write_header`); `tagged`, a first column has the
    /// number of the format that counted. It takes no memory until a record is written.
    pub fn headed(
        alloc: Global,
        form: OutputForm,
        names: Option<Names<'n>>,
        tagged: bool,
    ) -> FormMaker<'n>
        ensures { result ≡ record {
          form = form;
          names = names.entry;
          tagged = tagged;
        } }
    {
        FormMaker {
            writer: FormWriter::new(alloc, form),
            names,
            tagged,
        }
    }

    /// Writes the line over the records: that of the names, in a form that has one, if there are names; else nothing.
    pub fn write_header<K: Sink>(&mut self, to: &mut K) -> Result<(), Unwritten>
        ensures same { self.new ≡ self.old }
        ensures written { Writes true (header_text self.old) (K.contents to.old) (K.contents to.new) result }
        ensures failures { K.failures to.new
            ≡ (if sink_failed result then counted_on (K.failures to.old) else K.failures to.old) }
    {
        match &self.names {
            Some(names) => as_made(self.writer.write_names(to, names.as_slice(), self.tagged)),
            None => Ok(()),
        }
    }

    /// The number of the format that counted, where a first column has it.
    #[inline(always)]
    fn tag_of(&self, number: u64) -> Option<u64>
        ensures { result ≡ tag_of self.now.tagged number }
    {
        if self.tagged { Some(number) } else { None }
    }

    /// Writes a record under names, or with the number of its format. It is a call of its own, with a report of its
    /// own, so that other records don't pay for it.
    #[inline(never)]
    fn write_headed<K: Sink, T: Store>(
        &mut self,
        to: &mut K,
        number: u64,
        report: Report<'_, T>,
        destinations: u8,
    ) -> Result<(), RecordFault>
        ensures same { self.new ≡ self.old }
        ensures written { WritesText (headed_text self.old number destinations report.entry) (K.contents to.old)
            (K.contents to.new) result }
        ensures failures { K.failures to.new
            ≡ (if is_sink_fault result then counted_on (K.failures to.old) else K.failures to.old) }
    {
        let tag = self.tag_of(number);
        match &self.names {
            Some(names) => {
                self.writer
                    .write_named(to, names, tag, &report, destinations)
            }
            None => self.writer.write_columns(to, tag, &report, destinations),
        }
    }
}

impl Maker for FormMaker<'_> {
    ghost work = { λ heading number ds. writing_under heading number ds };

    #[inline(always)]
    fn write<K: Sink, T: Store>(
        &mut self,
        to: &mut K,
        format: &ScanFormat,
        number: usize,
        report: &Report<'_, T>,
    ) -> Result<(), Unwritten> {
        let destinations = format.destinations();
        if self.tagged || self.names.is_some() {
            return as_made(self.write_headed(to, number as u64, report.copied(), destinations));
        }
        as_made(self.writer.write(to, report, destinations))
    }

    fn bare_form(&self) -> Option<OutputForm>
        ensures form { result ≡ bare_form_of self.now }
        ensures bare { IfSome result (λ form. (number : ℕ) (format : List Directive) (report : RunReport)
            → IsBare form (writing_under self.now number format) format report) }
    {
        if self.tagged || self.names.is_some() {
            return None;
        }
        Some(self.writer.form())
    }

    ghost unmet = { λ heading number ds report met. record { fits = refl; text = refl } };
}
