//! Writes records in a form.
ghost use Rattle.std.specs.Prelude.{◌≡◌, ◌<◌, length, is_some, IsErrOf, Some, if◌then◌else◌};
ghost use Rattle.sf_print.specs.sink.Sinks.{counted_on};
ghost use Rattle.sf_forms.specs.Columns.{texts};
ghost use Rattle.sf_forms.specs.Forms.{framed, record_text};
ghost use Rattle.sf_forms.specs.Heads.{column_names, columns, headed, names_line};
ghost use Rattle.sf_forms.specs.Written.{WritesText, is_sink_fault};

use crate::form::OutputForm;
use crate::headed_line::NamedRecord;
use crate::heads::{push_names, push_object, push_tagged};
use crate::makers::Names;
use crate::output::write_whole;
use crate::short_line::{LINE_BYTES, PlainRecord, Record, write_line};
use sf_base::Store;
use sf_print::Sink;
use sf_report::Report;
use std::alloc::Global;
use std::marker::Model;
use thiserror::Error;

/// Why a record was not written in full.
#[derive(Clone, Copy, Debug, PartialEq, Eq, Error)]
pub enum RecordFault {
    /// The sink failed, and has taken a front of the record.
    #[error("a record was not written in full")]
    Write,
    /// Memory was refused, and nothing was written.
    #[error("no memory for the text of a record")]
    Memory,
}

/// Writes records in a form, over memory that is used again.
#[derive(Drop)]
pub struct FormWriter {
    form: OutputForm,
    /// The last record, where it is a short line.
    line: [u8; LINE_BYTES],
    /// The last record that is none.
    text: Vec<u8>,
}

impl Model for FormWriter {
    ghost use Rattle.sf_forms.specs.declared.form.OutputForm.{OutputForm};

    ghost Value = { OutputForm };

    ghost view = { λ w. w.form };
}

/// Hands the sink a record.
#[inline(always)]
fn send<K: Sink>(to: &mut K, text: &[u8]) -> Result<(), RecordFault>
    ensures written { WritesText text.now (K.contents to.old) (K.contents to.new) result }
    ensures failures { K.failures to.new
        ≡ (if is_sink_fault result then counted_on (K.failures to.old) else K.failures to.old) }
    ensures sink { IsErrOf result RecordFault.Memory → ⊥ }
{
    match write_whole(to, text) {
        Ok(()) => Ok(()),
        Err(_) => Err(RecordFault::Write),
    }
}

impl FormWriter {
    /// Of records in this form. It takes no memory until a record is written.
    pub fn new(alloc: Global, form: OutputForm) -> FormWriter
        ensures { result ≡ form }
    {
        FormWriter {
            form,
            line: [0; LINE_BYTES],
            text: Vec::new(alloc),
        }
    }

    /// The form.
    pub fn form(&self) -> OutputForm
        ensures { result ≡ self.now }
    {
        self.form
    }

    /// As `write_columns`, where the sink doesn't have the record written in place. It is a call of its own, with a
    /// report of its own, so that records in place don't pay for it.
    #[inline(never)]
    fn write_apart<K: Sink, T: Store>(
        &mut self,
        to: &mut K,
        tag: Option<u64>,
        report: Report<'_, T>,
        destinations: u8,
    ) -> Result<(), RecordFault>
        ensures same { self.new ≡ self.old }
        ensures written { WritesText (framed self.old (columns self.old tag destinations report.entry))
            (K.contents to.old) (K.contents to.new) result }
        ensures failures { K.failures to.new
            ≡ (if is_sink_fault result then counted_on (K.failures to.old) else K.failures to.old) }
        ensures short { length (framed self.old (columns self.old tag destinations report.entry)) < 1024
            → IsErrOf result RecordFault.Memory → ⊥ }
    {
        if let Some(end) = write_line(self.form, tag, &report, destinations, &mut self.line) {
            return send(to, &self.line[..end]);
        }
        self.text.clear();
        if push_tagged(&mut self.text, self.form, tag, &report, destinations).is_err() {
            return Err(RecordFault::Memory);
        }
        send(to, &self.text)
    }

    /// Writes the record of a format that has so many destinations, by the report of a run. A record of at most 1,023
    /// bytes takes no memory.
    #[inline(always)]
    pub fn write<K: Sink, T: Store>(
        &mut self,
        to: &mut K,
        report: &Report<'_, T>,
        destinations: u8,
    ) -> Result<(), RecordFault>
        ensures same { self.new ≡ self.old }
        ensures written { WritesText (record_text self.old destinations report.now) (K.contents to.old)
            (K.contents to.new) result }
        ensures failures { K.failures to.new
            ≡ (if is_sink_fault result then counted_on (K.failures to.old) else K.failures to.old) }
        ensures short { length (record_text self.old destinations report.now) < 1024
            → IsErrOf result RecordFault.Memory → ⊥ }
    {
        self.write_columns(to, None, report, destinations)
    }

    /// Writes the record of a format, by the report of a run: first the number of the format, if it is given, and then
    /// the values. A record of at most 1,023 bytes takes no memory.
    #[inline(always)]
    pub fn write_columns<K: Sink, T: Store>(
        &mut self,
        to: &mut K,
        tag: Option<u64>,
        report: &Report<'_, T>,
        destinations: u8,
    ) -> Result<(), RecordFault>
        ensures same { self.new ≡ self.old }
        ensures written { WritesText (framed self.old (columns self.old tag destinations report.now))
            (K.contents to.old) (K.contents to.new) result }
        ensures failures { K.failures to.new
            ≡ (if is_sink_fault result then counted_on (K.failures to.old) else K.failures to.old) }
        ensures short { length (framed self.old (columns self.old tag destinations report.now)) < 1024
            → IsErrOf result RecordFault.Memory → ⊥ }
    {
        if self.form == OutputForm::Plain {
            let record = PlainRecord {
                tag,
                report,
                destinations,
            };
            if to.take_in_place(&record).is_some() {
                return Ok(());
            }
        } else {
            let record = Record {
                form: self.form,
                tag,
                report,
                destinations,
            };
            if to.take_in_place(&record).is_some() {
                return Ok(());
            }
        }
        self.write_apart(to, tag, report.copied(), destinations)
    }

    /// Writes the record of a format under names of its values, by the report of a run: in JSON an object (RFC 8259,
    /// 4), first the number of the format, if it is given, by the name `format`, and then the values, each by its name.
    /// In the other forms it is as without names. An object takes memory where the sink doesn't have it written in
    /// place, for the first one, or a longer one.
    pub fn write_named<K: Sink, T: Store>(
        &mut self,
        to: &mut K,
        names: &Names<'_>,
        tag: Option<u64>,
        report: &Report<'_, T>,
        destinations: u8,
    ) -> Result<(), RecordFault>
        ensures same { self.new ≡ self.old }
        ensures written { WritesText (headed (Some (column_names (is_some tag) names.now)) self.old
            (columns self.old tag destinations report.now)) (K.contents to.old) (K.contents to.new) result }
        ensures failures { K.failures to.new
            ≡ (if is_sink_fault result then counted_on (K.failures to.old) else K.failures to.old) }
    {
        match self.form {
            OutputForm::Json => {}
            OutputForm::Plain | OutputForm::Tsv | OutputForm::Csv => {
                return self.write_columns(to, tag, report, destinations);
            }
        }
        let record = NamedRecord {
            names,
            tag,
            report,
            destinations,
        };
        if to.take_in_place(&record).is_some() {
            return Ok(());
        }
        self.text.clear();
        if push_object(&mut self.text, names, tag, report, destinations).is_err() {
            return Err(RecordFault::Memory);
        }
        send(to, &self.text)
    }

    /// Writes the line of the names of the columns, where the form has one: a table's or of comma-separated values.
    /// Where a first column has the number of the format, its name comes first: `format`.
    pub fn write_names<K: Sink>(
        &mut self,
        to: &mut K,
        names: &[&str],
        tagged: bool,
    ) -> Result<(), RecordFault>
        ensures same { self.new ≡ self.old }
        ensures written { WritesText (names_line self.old (column_names tagged (texts names.now))) (K.contents to.old)
            (K.contents to.new) result }
        ensures failures { K.failures to.new
            ≡ (if is_sink_fault result then counted_on (K.failures to.old) else K.failures to.old) }
    {
        self.text.clear();
        if push_names(&mut self.text, self.form, names, tagged).is_err() {
            return Err(RecordFault::Memory);
        }
        send(to, &self.text)
    }
}
