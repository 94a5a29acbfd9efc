//! What an order of records asks for, with its formats read.
ghost use Rattle.std.specs.Prelude.{◌≡◌, ◌≤◌, ◌∷◌, drop, [], false, ℕ, Bool, List, Option, Some, None, IfOk, IfErr};
ghost use Rattle.std.specs.Prelude.{length, map, option_map, string_bytes};
ghost use Rattle.sf_words.specs.Orders.{HasTexts};
ghost use Rattle.sf_words.specs.declared.order.Verb.TheVariants as verb;
ghost use Rattle.sf_records.specs.form.OutputForm.{OutputForm};
ghost use Rattle.sf_command.specs.jobs.Checks.{IsPrintWord};
ghost use Rattle.sf_command.specs.jobs.Jobs.{AreNoTwo, IsJob, IsJobBy, IsNoJob, IsNoJobBy, IsScan, scan_of};

use crate::jobs::check::verdict_of;
use crate::jobs::command::{form_of, grammar_of};
use crate::jobs::formats::{RefusedWord, ScanText, read_print, read_print_text, read_scan_text};
use crate::jobs::heads::text_of;
use crate::jobs::writing::Writing;
use sf_format::{PrintFormat, Profile};
use sf_forms::check_print;
use sf_messages::CommandFault;
use sf_pair::PairFault;
use sf_records::OutputForm;
use sf_words::{Order, Verb};
use std::alloc::Global;

/// What an order of records asks for, with its formats read.
#[derive(Drop)]
pub enum Job {
    /// The directives of the format are shown.
    Show {
        scan: ScanText,
    },
    /// Records are scanned by the format, and written so.
    Scan {
        scan: ScanText,
        writing: Writing,
    },
    /// Values are printed by the format.
    Print {
        print: PrintFormat,
    },
    /// A scan format is answered that reads back what the format prints.
    Answer {
        print: PrintFormat,
    },
    /// It is said whether the scan format reads back what the print format prints.
    Check {
        print: PrintFormat,
        scan: ScanText,
        verdict: Option<PairFault>,
    },
    /// Records are scanned by the one format and printed by the other.
    Copy {
        print: PrintFormat,
        scan: ScanText,
    },
}

impl Job {
    /// The scan format by which records are read, or which is shown or checked.
    pub fn scan(&self) -> Option<&ScanText>
        ensures { option_map (λ scan. scan.now) result ≡ scan_of self.entry.now }
    {
        match self {
            Job::Show { scan }
            | Job::Scan { scan, .. }
            | Job::Check { scan, .. }
            | Job::Copy { scan, .. } => Some(scan),
            Job::Print { .. } | Job::Answer { .. } => None,
        }
    }
}

/// The job of `sf show`.
fn show_job<'o>(alloc: Global, profile: Profile, word: &'o str) -> Result<Job, RefusedWord<'o>>
    ensures ok { (strict : Bool) (form : OutputForm) (print : Option (List ℕ))
        → IfOk result (λ job. IsJobBy strict profile form print job verb.Show (word.entry.now ∷ [])) }
    ensures err { (strict : Bool) (print : Option (List ℕ)) → IfErr result (λ refused.
        IsNoJobBy strict profile verb.Show (word.entry.now ∷ []) print refused.word.now refused.fault) }
{
    match read_scan_text(alloc, false, profile, word) {
        Ok(scan) => Ok(Job::Show { scan }),
        Err(fault) => Err(RefusedWord { word, fault }),
    }
}

/// The job of a scan whose records are written in a form.
fn scan_job<'o>(
    alloc: Global,
    strict: bool,
    profile: Profile,
    form: OutputForm,
    word: &'o str,
) -> Result<Job, RefusedWord<'o>>
    ensures ok { IfOk result (λ job. IsJobBy strict profile form None job verb.Scan (word.entry.now ∷ [])) }
    ensures err { IfErr result (λ refused.
        IsNoJobBy strict profile verb.Scan (word.entry.now ∷ []) None refused.word.now refused.fault) }
{
    match read_scan_text(alloc, strict, profile, word) {
        Ok(scan) => Ok(Job::Scan {
            scan,
            writing: Writing::Form(form),
        }),
        Err(fault) => Err(RefusedWord { word, fault }),
    }
}

/// The job of a scan whose records are printed by a format, where that can print them.
fn printed_job<'o>(
    alloc: Global,
    print: PrintFormat,
    strict: bool,
    profile: Profile,
    word: &'o str,
) -> Result<Job, RefusedWord<'o>>
    ensures ok { (form : OutputForm) (given : List ℕ) → IsPrintWord profile given print
        → IfOk result (λ job. IsJobBy strict profile form (Some given) job verb.Scan (word.entry.now ∷ [])) }
    ensures err { (given : List ℕ) → IsPrintWord profile given print → IfErr result (λ refused.
        IsNoJobBy strict profile verb.Scan (word.entry.now ∷ []) (Some given) refused.word.now refused.fault) }
{
    let scan = match read_scan_text(alloc, strict, profile, word) {
        Ok(scan) => scan,
        Err(fault) => return Err(RefusedWord { word, fault }),
    };
    match check_print(&print, &scan.format) {
        Ok(()) => Ok(Job::Scan {
            scan,
            writing: Writing::Print(print),
        }),
        Err(why) => Err(RefusedWord {
            word: "",
            fault: CommandFault::Unprintable(why),
        }),
    }
}

/// The job of `sf scan`. The print format is judged first, where there is one.
fn scan_job_of<'o>(
    alloc: Global,
    strict: bool,
    profile: Profile,
    form: OutputForm,
    print: Option<&'o str>,
    word: &'o str,
) -> Result<Job, RefusedWord<'o>>
    ensures ok { IfOk result (λ job. IsJobBy strict profile form (option_map (λ given. given.now) print.entry) job
        verb.Scan (word.entry.now ∷ [])) }
    ensures err { IfErr result (λ refused. IsNoJobBy strict profile verb.Scan (word.entry.now ∷ [])
        (option_map (λ given. given.now) print.entry) refused.word.now refused.fault) }
{
    let Some(given) = print else {
        return scan_job(alloc, strict, profile, form, word);
    };
    match read_print(alloc, profile, given) {
        Ok(print) => printed_job(alloc, print, strict, profile, word),
        Err(fault) => Err(RefusedWord { word: given, fault }),
    }
}

/// The job of `sf print`.
fn print_job<'o>(alloc: Global, profile: Profile, word: &'o str) -> Result<Job, RefusedWord<'o>>
    ensures ok { (strict : Bool) (form : OutputForm) (print : Option (List ℕ)) (values : List (List ℕ))
        → IfOk result (λ job. IsJobBy strict profile form print job verb.Print (word.entry.now ∷ values)) }
    ensures err { (strict : Bool) (print : Option (List ℕ)) (values : List (List ℕ)) → IfErr result (λ refused.
        IsNoJobBy strict profile verb.Print (word.entry.now ∷ values) print refused.word.now refused.fault) }
{
    match read_print_text(alloc, profile, word) {
        Ok(print) => Ok(Job::Print { print }),
        Err(fault) => Err(RefusedWord { word, fault }),
    }
}

/// The job of `sf check` without a scan format.
fn answer_job<'o>(alloc: Global, profile: Profile, word: &'o str) -> Result<Job, RefusedWord<'o>>
    ensures ok { (strict : Bool) (form : OutputForm) (print : Option (List ℕ))
        → IfOk result (λ job. IsJobBy strict profile form print job verb.Check (word.entry.now ∷ [])) }
    ensures err { (strict : Bool) (print : Option (List ℕ)) → IfErr result (λ refused.
        IsNoJobBy strict profile verb.Check (word.entry.now ∷ []) print refused.word.now refused.fault) }
{
    match read_print(alloc, profile, word) {
        Ok(print) => Ok(Job::Answer { print }),
        Err(fault) => Err(RefusedWord { word, fault }),
    }
}

/// Two formats.
#[derive(Drop)]
pub(crate) struct Two {
    pub(crate) print: PrintFormat,
    pub(crate) scan: ScanText,
}

/// The formats of two words. The print format is judged first.
pub(crate) fn two_of<'o>(
    alloc: Global,
    profile: Profile,
    one: &'o str,
    other: &'o str,
) -> Result<Two, RefusedWord<'o>>
    ensures ok { IfOk result (λ two. IsPrintWord profile one.entry.now two.print
        × IsScan false profile other.entry.now two.scan) }
    ensures err { IfErr result (λ refused. AreNoTwo profile one.entry.now other.entry.now refused.word.now
        refused.fault) }
{
    let print = match read_print(alloc, profile, one) {
        Ok(print) => print,
        Err(fault) => return Err(RefusedWord { word: one, fault }),
    };
    match read_scan_text(alloc, false, profile, other) {
        Ok(scan) => Ok(Two { print, scan }),
        Err(fault) => Err(RefusedWord { word: other, fault }),
    }
}

/// The job of `sf check` with both formats.
fn check_job<'o>(
    alloc: Global,
    profile: Profile,
    one: &'o str,
    other: &'o str,
) -> Result<Job, RefusedWord<'o>>
    ensures ok { (strict : Bool) (form : OutputForm) (given : Option (List ℕ))
        → IfOk result (λ job. IsJobBy strict profile form given job verb.Check (one.entry.now ∷ other.entry.now ∷ [])) }
    ensures err { IfErr result (λ refused. AreNoTwo profile one.entry.now other.entry.now refused.word.now
        refused.fault) }
{
    match two_of(alloc, profile, one, other) {
        Ok(Two { print, scan }) => {
            let verdict = verdict_of(&print, &scan.format);
            Ok(Job::Check {
                print,
                scan,
                verdict,
            })
        }
        Err(refused) => Err(refused),
    }
}

/// The job of `sf check`: of a print format alone, or of both.
fn check_job_of<'o>(
    alloc: Global,
    profile: Profile,
    one: &'o str,
    rest: &'o [String],
) -> Result<Job, RefusedWord<'o>>
    requires { length rest.now ≤ 1 }
    ensures ok { (strict : Bool) (form : OutputForm) (given : Option (List ℕ)) → IfOk result (λ job.
        IsJobBy strict profile form given job verb.Check (one.entry.now ∷ map string_bytes rest.entry.now)) }
    ensures err { (strict : Bool) (given : Option (List ℕ)) → IfErr result (λ refused. IsNoJobBy strict profile
        verb.Check (one.entry.now ∷ map string_bytes rest.entry.now) given refused.word.now refused.fault) }
{
    match rest {
        [] => answer_job(alloc, profile, one),
        [other, ..] => check_job(alloc, profile, one, other.as_str()),
    }
}

/// The job of `sf copy`.
fn copy_job<'o>(
    alloc: Global,
    profile: Profile,
    one: &'o str,
    other: &'o str,
) -> Result<Job, RefusedWord<'o>>
    ensures ok { (strict : Bool) (form : OutputForm) (given : Option (List ℕ))
        → IfOk result (λ job. IsJobBy strict profile form given job verb.Copy (one.entry.now ∷ other.entry.now ∷ [])) }
    ensures err { IfErr result (λ refused. AreNoTwo profile one.entry.now other.entry.now refused.word.now
        refused.fault) }
{
    match two_of(alloc, profile, one, other) {
        Ok(Two { print, scan }) => Ok(Job::Copy { print, scan }),
        Err(refused) => Err(refused),
    }
}

/// The job of `sf copy`, by the words of both formats.
fn copy_job_of<'o>(
    alloc: Global,
    profile: Profile,
    one: &'o str,
    rest: &'o [String],
) -> Result<Job, RefusedWord<'o>>
    requires { length rest.now ≡ 1 }
    ensures ok { (strict : Bool) (form : OutputForm) (given : Option (List ℕ)) → IfOk result (λ job.
        IsJobBy strict profile form given job verb.Copy (one.entry.now ∷ map string_bytes rest.entry.now)) }
    ensures err { (strict : Bool) (given : Option (List ℕ)) → IfErr result (λ refused. IsNoJobBy strict profile
        verb.Copy (one.entry.now ∷ map string_bytes rest.entry.now) given refused.word.now refused.fault) }
{
    copy_job(alloc, profile, one, rest[0].as_str())
}

/// The words after the first.
pub(crate) fn after_first(texts: &[String]) -> &[String]
    ensures { result.now ≡ drop 1 texts.entry.now }
{
    texts.get(1..).unwrap_or(&[])
}

/// The job of an order of records, by formats of this grammar, with records in this form.
fn job_by(
    alloc: Global,
    profile: Profile,
    form: OutputForm,
    order: &Order,
) -> Result<Job, RefusedWord<'_>>
    requires { HasTexts order.now.verb (map string_bytes order.now.texts.items) }
    ensures ok { IfOk result (λ job. IsJobBy order.entry.now.strict profile form
        (option_map string_bytes order.entry.now.print) job order.entry.now.verb
        (map string_bytes order.entry.now.texts.items)) }
    ensures err { IfErr result (λ refused. IsNoJobBy order.entry.now.strict profile order.entry.now.verb
        (map string_bytes order.entry.now.texts.items) (option_map string_bytes order.entry.now.print)
        refused.word.now refused.fault) }
{
    let [word, ..] = order.texts.as_slice() else {
        unreachable!()
    };
    let word = word.as_str();
    let rest = after_first(&order.texts);
    match order.verb {
        Verb::Show => show_job(alloc, profile, word),
        Verb::Scan => scan_job_of(
            alloc,
            order.strict,
            profile,
            form,
            text_of(order.print.as_ref()),
            word,
        ),
        Verb::Print => print_job(alloc, profile, word),
        Verb::Check => check_job_of(alloc, profile, word, rest),
        Verb::Copy => copy_job_of(alloc, profile, word, rest),
    }
}

/// What an order of records asks for; or the word that is refused, and why.
pub fn prepare(alloc: Global, order: &Order) -> Result<Job, RefusedWord<'_>>
    requires { HasTexts order.now.verb (map string_bytes order.now.texts.items) }
    ensures ok { IfOk result (IsJob order.entry.now) }
    ensures err { IfErr result (λ refused. IsNoJob order.entry.now refused.word.now refused.fault) }
{
    job_by(
        alloc,
        grammar_of(order.profile),
        form_of(order.output),
        order,
    )
}
