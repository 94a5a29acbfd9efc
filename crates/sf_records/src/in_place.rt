//! Records whose values are written as they are read.
ghost use Rattle.std.specs.Prelude.{◌≡◌, ◌+◌, ◌-◌, ◌<◌, ◌≤◌, ℕ, List, Option, Some, length, drop, take, true};
ghost use Rattle.std.specs.Io.KnownBytes.{IsAtEnd};
ghost use Rattle.sf_format.specs.Proper.{AreInOrder};
ghost use Rattle.sf_forms.specs.declared.form.OutputForm.{OutputForm};
ghost use Rattle.sf_forms.specs.declared.form.OutputForm.TheVariants.{Plain, Tsv, Json, Csv};
ghost use Rattle.sf_forms.specs.Forms.{value_text};
ghost use Rattle.sf_forms.specs.InPlace.{parted};
ghost use Rattle.sf_forms.specs.makers.Forms.{IsBare};
ghost use Rattle.sf_run.specs.Runs.{RunReport};
ghost use Rattle.sf_run.specs.Written.{AreRecords, CanFollow};
ghost use Rattle.sf_records.specs.InPlace.{WritesRecords, line_in, value_in};

use sf_base::{Number, Real};
use sf_format::ScanFormat;
use sf_forms::{
    Maker, OutputForm, end_values, write_number_value, write_real_value, write_text_value,
};
use sf_print::{Sink, WritesInPlace};
use sf_read::{Lookahead, Source};
use sf_run::{ValueWriter, WrittenRuns, is_in_order, write_runs};
use std::marker::PhantomData;

/// A form of records, as a type.
trait TypedForm {
    /// The form.
    ghost form: { OutputForm };

    /// The form.
    fn form() -> OutputForm
        ensures { result ≡ form };
}

struct PlainForm;

impl TypedForm for PlainForm {
    ghost form = { Plain };

    #[inline(always)]
    fn form() -> OutputForm {
        OutputForm::Plain
    }
}

struct TsvForm;

impl TypedForm for TsvForm {
    ghost form = { Tsv };

    #[inline(always)]
    fn form() -> OutputForm {
        OutputForm::Tsv
    }
}

struct JsonForm;

impl TypedForm for JsonForm {
    ghost form = { Json };

    #[inline(always)]
    fn form() -> OutputForm {
        OutputForm::Json
    }
}

struct CsvForm;

impl TypedForm for CsvForm {
    ghost form = { Csv };

    #[inline(always)]
    fn form() -> OutputForm {
        OutputForm::Csv
    }
}

/// Writes a value as the form has it, with its separator.
struct FormValues<F: TypedForm> {
    of: PhantomData<F>,
}

impl<F: TypedForm> ValueWriter for FormValues<F> {
    ghost text = { value_in F.form };

    ghost whole = { line_in F.form };

    ghost spare = { 22 };

    #[inline(always)]
    fn write_number(number: Number, room: &mut [u8], at: usize) -> Option<usize> {
        write_number_value(F::form(), number, room, at)
    }

    #[inline(never)]
    fn write_real(real: Real, room: &mut [u8], at: usize) -> Option<usize> {
        write_real_value(F::form(), real, room, at)
    }

    #[inline(never)]
    fn write_text(piece: &[u8], count: usize, room: &mut [u8], at: usize) -> Option<usize> {
        write_text_value(F::form(), piece, count, room, at)
    }

    #[inline(always)]
    fn end_record(room: &mut [u8], end: usize) -> Option<usize> {
        end_values(F::form(), room, end)
    }
}

/// As `write_runs`, in this form.
#[inline(always)]
pub(crate) fn write_runs_in(
    form: OutputForm,
    format: &ScanFormat,
    limit: u32,
    piece: &[u8],
    room: &mut [u8],
    most: u32,
) -> WrittenRuns
    ensures runs { AreRecords (line_in form) format.now limit piece.now result.records result.used
        (take result.end room.new) }
    ensures most { result.records ≤ most }
    ensures used { result.used ≤ length piece.now }
    ensures place { result.end ≤ length room.new }
    ensures answers { result.records < most → CanFollow (value_in form) 22 format.now limit
        (drop result.used piece.now) (length room.new - result.end) → ⊥ }
{
    match form {
        OutputForm::Plain => write_runs::<FormValues<PlainForm>>(format, limit, piece, room, most),
        OutputForm::Tsv => write_runs::<FormValues<TsvForm>>(format, limit, piece, room, most),
        OutputForm::Json => write_runs::<FormValues<JsonForm>>(format, limit, piece, room, most),
        OutputForm::Csv => write_runs::<FormValues<CsvForm>>(format, limit, piece, room, most),
    }
}

/// In which form the records of the format may be written as they are read. None where they have heads, or are printed,
/// or where the values don't come in the order of their slots.
pub(crate) fn form_in_place<M: Maker>(maker: &M, format: &ScanFormat) -> Option<OutputForm>
    ensures form { (form : OutputForm) → result ≡ Some form → (number : ℕ) (report : RunReport)
        → IsBare form (M.work maker.now number format.now) format.now report }
    ensures order { (form : OutputForm) → result ≡ Some form → AreInOrder format.now }
{
    let form = maker.bare_form()?;
    if !is_in_order(format) {
        return None;
    }
    Some(form)
}

/// Runs over a piece of the input whose records are written as they are read.
#[derive(Drop)]
struct FormRuns<'a> {
    form: OutputForm,
    format: &'a ScanFormat,
    limit: u32,
    piece: &'a [u8],
    /// The most that are written.
    most: u32,
    /// How many are, and how many bytes they used.
    records: u32,
    used: usize,
}

impl WritesInPlace for FormRuns<'_> {
    ghost Writes = { λ old new text. (new.records ≤ old.most) × (new.used ≤ length old.piece.now)
        × AreRecords (line_in old.form) old.format.now old.limit old.piece.now new.records new.used text };

    ghost Surely = { λ runs room. (0 < runs.most) × CanFollow (value_in runs.form) 22 runs.format.now runs.limit
        runs.piece.now room };

    #[inline(always)]
    fn write_in(&mut self, room: &mut [u8]) -> Option<usize> {
        let runs = write_runs_in(
            self.form,
            self.format,
            self.limit,
            self.piece,
            room,
            self.most,
        );
        if runs.records == 0 {
            return None;
        }
        self.records = runs.records;
        self.used = runs.used;
        Some(runs.end)
    }
}

/// Scans the records that are held whole, at most so many, and writes them in this form as they are read. Answers how
/// many: they are consumed. It stops before one that isn't seen to be Done, that uses no byte, or for which the sink
/// has no room.
#[inline(never)]
fn write_held_in<S: Source, K: Sink, const N: usize>(
    form: OutputForm,
    from: &mut Lookahead<S, N>,
    to: &mut K,
    format: &ScanFormat,
    limit: u32,
    most: u32,
) -> u32
    ensures most { result ≤ most }
    ensures written { WritesRecords form format.now limit from.old from.new (K.contents to.old) (K.contents to.new)
        result }
    ensures told { 0 < result → from.new.at_end ≡ true → IsAtEnd (S.to_come from.new.source) }
    ensures failures { K.failures to.new ≡ K.failures to.old }
{
    let mut runs = FormRuns {
        form,
        format,
        limit,
        piece: from.held(),
        most,
        records: 0,
        used: 0,
    };
    if !to.lend(&mut runs) {
        return 0;
    }
    let (records, used) = (runs.records, runs.used);
    from.consume(used);
    records
}

/// As `write_held_in`, where a form is asked for. Nothing is called where none is.
#[inline(always)]
pub(crate) fn write_records<S: Source, K: Sink, const N: usize>(
    asked: Option<OutputForm>,
    from: &mut Lookahead<S, N>,
    to: &mut K,
    format: &ScanFormat,
    limit: u32,
    most: u32,
) -> u32
    ensures most { result ≤ most }
    ensures written { (form : OutputForm) × (0 < result → asked ≡ Some form) × WritesRecords form format.now limit
        from.old from.new (K.contents to.old) (K.contents to.new) result }
    ensures told { 0 < result → from.new.at_end ≡ true → IsAtEnd (S.to_come from.new.source) }
    ensures failures { K.failures to.new ≡ K.failures to.old }
{
    match asked {
        Some(form) => write_held_in(form, from, to, format, limit, most),
        None => 0,
    }
}
