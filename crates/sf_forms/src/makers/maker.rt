//! What is written of a report, or why not.
ghost use Rattle.std.specs.Prelude.{◌≡◌, ℕ, List, Option, IfSome, if◌then◌else◌};
ghost use Rattle.sf_format.specs.declared.directive.Directive.{Directive};
ghost use Rattle.sf_print.specs.sink.Sinks.{counted_on};
ghost use Rattle.sf_report.specs.Runs.{RunReport};
ghost use Rattle.sf_report.specs.declared.outcome.Ending.{Ending};
ghost use Rattle.sf_forms.specs.makers.Forms.{IsBare};
ghost use Rattle.sf_forms.specs.makers.Works.{Makes, SameWithMet, Work, sink_failed};

use crate::OutputForm;
use sf_base::Store;
use sf_format::ScanFormat;
use sf_print::Sink;
use sf_report::Report;
use thiserror::Error;

/// Why what is made of a report was not written, or not in full.
#[derive(Clone, Copy, Debug, PartialEq, Eq, Error)]
pub enum Unwritten {
    /// The values don't fit, and nothing was written.
    #[error("values do not fit")]
    Unfit,
    /// The sink failed, and has taken a front of the text.
    #[error("a record was not written in full")]
    Write,
    /// Memory was refused, and nothing was written.
    #[error("no memory for the text of a record")]
    Memory,
}

/// Writes what it makes of reports.
pub trait Maker {
    // What it makes of the reports of a format, which has this number, counted from 1, among those that are tried.
    ghost work: { Self → ℕ → List Directive → Work };

    /// Writes what it makes of the report of a run of the format, if the values fit. `number` is that of the format,
    /// counted from 1, among those that are tried.
    fn write<K: Sink, T: Store>(
        &mut self,
        to: &mut K,
        format: &ScanFormat,
        number: usize,
        report: &Report<'_, T>,
    ) -> Result<(), Unwritten>
        ensures same { work self.new ≡ work self.old }
        ensures made { Makes (work self.old number format.now) report.now (K.contents to.old) (K.contents to.new)
            result }
        ensures failures { K.failures to.new
            ≡ (if sink_failed result then counted_on (K.failures to.old) else K.failures to.old) };

    /// The form, where all that it makes of any report is its record in a form, without a heading. Such a record may be
    /// written without the maker.
    fn bare_form(&self) -> Option<OutputForm>
        ensures { IfSome result (λ form. (number : ℕ) (format : List Directive) (report : RunReport)
            → IsBare form (work self.now number format) format report) }
    {
        None
    }

    // It makes the same whatever the run met.
    ghost unmet: { (maker : Self) (number : ℕ) (format : List Directive) (report : RunReport)
        (met : Option Ending) → SameWithMet (work maker number format) report met };
}
