//! What an order asks for: by its formats, on an input and an output.
ghost use Rattle.std.specs.Prelude.{◌≡◌, ◌≤◌, ◌∷◌, ℕ, Bool, List, option_map, map, string_bytes, IfErr, Some};
ghost use Rattle.sf_format.specs.Grammar.{Spells, SpellsPrint};
ghost use Rattle.sf_format.specs.declared.directive.Profile.{Profile};
ghost use Rattle.sf_read.specs.source.Ahead.{input_of};
ghost use Rattle.sf_records.specs.Forms.{writing};
ghost use Rattle.sf_records.specs.form.OutputForm.{OutputForm};
ghost use Rattle.sf_words.specs.Orders.{HasTexts};
ghost use Rattle.sf_command.specs.jobs.Checks.{SpellsRead};
ghost use Rattle.sf_command.specs.jobs.Commands.{CarriesOut, CarriesOutBy, Counts, IsUnwrittenBy, PrintsBy, ScansAs};
ghost use Rattle.sf_command.specs.jobs.Commands.{ScansBy};
ghost use Rattle.sf_command.specs.jobs.Commands.{ShowsBy, Unread};
ghost use Rattle.sf_command.specs.jobs.Commands.{form_of, grammar_of, reading_of};
ghost use Rattle.sf_command.specs.jobs.Heads.{is_headed, names_text};
ghost use Rattle.sf_command.specs.jobs.Jobs.{IsJob, IsJobBy, IsOwnFault, IsScan};
ghost use Rattle.sf_command.specs.jobs.Writings.{IsWriting, Suits};

use crate::jobs::check::{answer_format, tell_verdict};
use crate::jobs::copy::copy_by;
use crate::jobs::formats::ScanText;
use crate::jobs::heads::is_headed;
use crate::jobs::job::{Job, after_first, prepare};
use crate::jobs::scan_names::scan_named;
use crate::jobs::scan_print::scan_print_by;
use crate::jobs::writing::Writing;
use sf_arguments::{WordReading, print_words};
use sf_format::{PrintFormat, Profile, ScanFormat};
use sf_messages::{CommandFault, show};
use sf_print::Sink;
use sf_read::{Lookahead, Source};
use sf_records::{OutputForm, run_scan_as, write_whole};
use sf_words::{Order, Output, Profile as GivenProfile};
use std::alloc::Global;

/// Scans the records of an input by a format, and writes them in a form.
fn scan_by<S: Source, K: Sink, const N: usize>(
    alloc: Global,
    form: OutputForm,
    format: &ScanFormat,
    limit: u32,
    from: &mut Lookahead<S, N>,
    out: &mut K,
) -> Result<u8, CommandFault>
    requires { limit ≤ 2147483647 }
    ensures scans { (strict : Bool) (profile : Profile) (text t : List ℕ) → SpellsRead strict profile text format.now
        → input_of S.to_come from.old ≡ Some t
        → ScansBy S.to_come strict profile (writing form) limit text t from.new (S.failures from.old.source)
        (S.failures from.new.source) (K.contents out.old) (K.contents out.new) result }
    ensures unread { IfErr result (λ fault. Unread fault from.old from.new out.old out.new) }
    ensures failures { Counts (K.failures out.old) (K.failures out.new) result }
{
    match run_scan_as(alloc, from, out, format, form, limit).fault {
        None => Ok(0),
        Some(fault) => Err(CommandFault::Record(fault)),
    }
}

/// Writes the lines that show a format.
fn show_by<K: Sink>(alloc: Global, format: &ScanFormat, out: &mut K) -> Result<u8, CommandFault>
    ensures shows { (profile : Profile) (text : List ℕ) → Spells profile text format.now
        → ShowsBy profile text (K.contents out.old) (K.contents out.new) result }
    ensures unwritten { IfErr result (λ fault. IsUnwrittenBy fault out.old out.new) }
    ensures failures { Counts (K.failures out.old) (K.failures out.new) result }
{
    let lines = show(alloc, format, format.width_sum())?;
    match write_whole(out, &lines) {
        Ok(()) => Ok(0),
        Err(_) => Err(CommandFault::Write),
    }
}

/// Prints values by a format; the words of texts are read in this way.
fn print_by<K: Sink>(
    alloc: Global,
    how: WordReading,
    format: &PrintFormat,
    values: &[String],
    out: &mut K,
) -> Result<u8, CommandFault>
    ensures prints { (profile : Profile) (text : List ℕ) → SpellsPrint profile text format.now
        → PrintsBy how profile text (map string_bytes values.now) (K.contents out.old) (K.contents out.new) result }
    ensures unwritten { IfErr result (λ fault. IsUnwrittenBy fault out.old out.new) }
    ensures failures { Counts (K.failures out.old) (K.failures out.new) result }
{
    match print_words(alloc, how, format, values, out) {
        Ok(()) => Ok(0),
        Err(fault) => Err(CommandFault::Values(fault)),
    }
}

/// Scans the records of an input, and writes them so, under the order's names, where it has any.
fn scan_written<S: Source, K: Sink, const N: usize>(
    alloc: Global,
    writing: &Writing,
    order: &Order,
    scan: &ScanText,
    from: &mut Lookahead<S, N>,
    out: &mut K,
) -> Result<u8, CommandFault>
    requires limit { order.now.limit ≤ 2147483647 }
    requires suits { Suits writing.now scan.now.format }
    ensures { (profile : Profile) (form : OutputForm) (word : List ℕ)
        → IsWriting profile form (option_map string_bytes order.now.print) writing.now
        → IsScan order.now.strict profile word scan.now
        → ScansAs S.to_come S.failures K.contents K.failures order.now.strict profile form (is_headed order.now.file)
        (names_text order.now) (option_map string_bytes order.now.print) order.now.limit word from.old from.new
        out.old out.new result }
{
    match writing {
        Writing::Print(print) => {
            scan_print_by(alloc, print, &scan.format, order.limit, from, out)
        }
        Writing::Form(form) => match &order.names {
            None => scan_by(alloc, *form, &scan.format, order.limit, from, out),
            Some(names) => scan_named(
                alloc,
                *form,
                is_headed(order),
                names.as_str(),
                &scan.format,
                order.limit,
                from,
                out,
            ),
        },
    }
}

/// The grammar that the profile of an order is.
pub fn grammar_of(profile: GivenProfile) -> Profile
    ensures { result ≡ grammar_of profile }
{
    match profile {
        GivenProfile::One => Profile::One,
        GivenProfile::Two => Profile::Two,
        GivenProfile::Three => Profile::Three,
    }
}

/// The form that the words name.
pub fn form_of(output: Output) -> OutputForm
    ensures { result ≡ form_of output }
{
    match output {
        Output::Plain => OutputForm::Plain,
        Output::Tsv => OutputForm::Tsv,
        Output::Json => OutputForm::Json,
        Output::Csv => OutputForm::Csv,
    }
}

/// How the words of texts are read for a print.
fn reading_of(raw: bool) -> WordReading
    ensures { result ≡ reading_of raw }
{
    if raw {
        WordReading::Raw
    } else {
        WordReading::Escaped
    }
}

/// Does a job of an order, whose formats are of this grammar, with records in this form, and with the words of texts
/// read so.
fn run_by<S: Source, K: Sink, const N: usize>(
    alloc: Global,
    profile: Profile,
    form: OutputForm,
    how: WordReading,
    job: &Job,
    order: &Order,
    from: &mut Lookahead<S, N>,
    out: &mut K,
) -> Result<u8, CommandFault>
    requires limit { order.now.limit ≤ 2147483647 }
    requires job { IsJobBy order.now.strict profile form (option_map string_bytes order.now.print) job.now
        order.now.verb (map string_bytes order.now.texts.items) }
    ensures does { CarriesOutBy S.to_come S.failures K.contents K.failures profile form how order.now order.now.verb
        (map string_bytes order.now.texts.items) from.old from.new out.old out.new result }
    ensures own { IfErr result (IsOwnFault job.now) }
{
    match job {
        Job::Show { scan } => show_by(alloc, &scan.format, out),
        Job::Scan { scan, writing } => scan_written(alloc, writing, order, scan, from, out),
        Job::Print { print } => print_by(alloc, how, print, after_first(&order.texts), out),
        Job::Answer { print } => answer_format(alloc, profile, order.width, print, out),
        Job::Check { verdict, .. } => tell_verdict(*verdict, out),
        Job::Copy { print, scan } => copy_by(alloc, print, &scan.format, order.limit, from, out),
    }
}

/// Does the job of an order on what the lookahead holds and its source gives, and answers the exit status. Err says why
/// it was not done, or not to its end.
pub fn run<S: Source, K: Sink, const N: usize>(
    alloc: Global,
    job: &Job,
    order: &Order,
    from: &mut Lookahead<S, N>,
    out: &mut K,
) -> Result<u8, CommandFault>
    requires limit { order.now.limit ≤ 2147483647 }
    requires job { IsJob order.now job.now }
    ensures does { CarriesOut S.to_come S.failures K.contents K.failures order.now from.old from.new out.old out.new
        result }
    ensures own { IfErr result (IsOwnFault job.now) }
{
    let profile = grammar_of(order.profile);
    let form = form_of(order.output);
    let how = reading_of(order.raw);
    run_by(alloc, profile, form, how, job, order, from, out)
}

/// Does what an order asks for, of records and not of lines, on what the lookahead holds and its source gives, and
/// answers the exit status. Err says why it was not done, or not to its end.
pub fn carry_out<S: Source, K: Sink, const N: usize>(
    alloc: Global,
    order: &Order,
    from: &mut Lookahead<S, N>,
    out: &mut K,
) -> Result<u8, CommandFault>
    requires limit { order.now.limit ≤ 2147483647 }
    requires texts { HasTexts order.now.verb (map string_bytes order.now.texts.items) }
    ensures { CarriesOut S.to_come S.failures K.contents K.failures order.now from.old from.new out.old out.new result }
{
    match prepare(alloc, order) {
        Ok(job) => run(alloc, &job, order, from, out),
        Err(refused) => Err(refused.fault),
    }
}
