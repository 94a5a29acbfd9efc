//! Names of columns, and the header.
ghost use Rattle.std.specs.Prelude.{◌≡◌, ◌∷◌, [], true, if◌then◌else◌, IfOk, IfErr, Some, option_map, string_bytes};
ghost use Rattle.sf_forms.specs.makers.Names.{AreNames};
ghost use Rattle.sf_forms.specs.makers.Works.{Writes, sink_failed};
ghost use Rattle.sf_print.specs.sink.Sinks.{counted_on};
ghost use Rattle.sf_command.specs.jobs.Heads.{IsUnnamed, due_header, header_fault, heading_by, is_headed, names_fault};
ghost use Rattle.sf_command.specs.jobs.Heads.{names_text, split};

use sf_format::ScanFormat;
use sf_forms::{FormMaker, Names, NamesFault, Unwritten};
use sf_messages::CommandFault;
use sf_print::Sink;
use sf_records::OutputForm;
use sf_words::Order;
use std::alloc::Global;

/// The text, if there is one.
pub fn text_of(given: Option<&String>) -> Option<&str>
    ensures { option_map (λ text. text.now) result ≡ option_map (λ text. string_bytes text.now) given.entry }
{
    match given {
        Some(text) => Some(text.as_str()),
        None => None,
    }
}

/// The text of an order's names, if it has one.
pub fn names_text(order: &Order) -> Option<&str>
    ensures { option_map (λ given. given.now) result ≡ names_text order.entry.now }
{
    text_of(order.names.as_ref())
}

/// What is wrong with names, as the command's fault.
fn names_fault(fault: NamesFault) -> CommandFault
    ensures { result ≡ names_fault fault }
{
    match fault {
        NamesFault::Count { expected, got } => CommandFault::NameCount { expected, got },
        NamesFault::Empty { number } => CommandFault::NameEmpty { number },
        NamesFault::Twice { number } => CommandFault::NameTwice { number },
    }
}

/// What writes records in this form under the names of the text, where these are names of the values that each of the
/// formats gives.
pub fn named_maker<'t>(
    alloc: Global,
    form: OutputForm,
    text: &'t str,
    tagged: bool,
    formats: &[ScanFormat],
) -> Result<FormMaker<'t>, CommandFault>
    ensures heading { IfOk result (λ maker. maker ≡ heading_by form (Some text.entry.now) tagged) }
    ensures named { IfOk result (λ maker. AreNames tagged (split text.entry.now) formats.now) }
    ensures err { IfErr result (IsUnnamed tagged text.entry.now formats.now) }
{
    let Ok(names) = Names::split(alloc, text) else {
        return Err(CommandFault::Memory);
    };
    if let Err(fault) = names.check(formats, tagged) {
        return Err(names_fault(fault));
    }
    Ok(FormMaker::headed(alloc, form, Some(names), tagged))
}

/// Why the header was not written in full.
pub fn header_fault(why: Unwritten) -> CommandFault
    ensures { result ≡ header_fault why }
{
    match why {
        Unwritten::Write => CommandFault::Write,
        Unwritten::Unfit | Unwritten::Memory => CommandFault::Memory,
    }
}

/// Whether a header is due: it stands before what is written of the first of an order's inputs.
pub fn is_headed(order: &Order) -> bool
    ensures { result ≡ is_headed order.now.file }
{
    match order.file {
        Some(place) => place == 0,
        None => true,
    }
}

/// Writes the header, where it is due.
pub fn write_header<K: Sink>(
    maker: &mut FormMaker<'_>,
    due: bool,
    to: &mut K,
) -> Result<(), Unwritten>
    ensures same { maker.new ≡ maker.old }
    ensures written { Writes true (due_header due maker.old) (K.contents to.old) (K.contents to.new) result }
    ensures failures { K.failures to.new
        ≡ (if sink_failed result then counted_on (K.failures to.old) else K.failures to.old) }
{
    if due { maker.write_header(to) } else { Ok(()) }
}
