//! Printing into C's memory.
ghost use Rattle.std.specs.Prelude.{◌≡◌, ◌⊎◌, ◌↔◌, pos, length, map, take, drop, None, Err, false};
ghost use Rattle.sf_base.specs.Data.{datum_of};
ghost use Rattle.sf_print.specs.Printed.{is_sink_fault};
ghost use Rattle.sf_c.specs.Formats.{IsNoPrintFormat};
ghost use Rattle.sf_c.specs.Numbers.{profile_of};
ghost use Rattle.sf_c.specs.Prints.{HasNoValue, IsNotPrinted, IsNotPrintedBy, IsPrinted, IsPrintedBy, slot_at};
ghost use Rattle.sf_c.specs.Prints.{why_number};

use crate::codes::{BAD_VALUE, NO_MEMORY, NOT_PRINTED, OK};
use crate::formats::{Refusal, print_format_of};
use crate::values::{SfValue, values_of};
use sf_base::Value;
use sf_format::PrintFormat;
use sf_print::{ListSink, PrintFault, fprint};
use std::alloc::Global;

/// How a text was printed.
#[repr(C)]
#[derive(Clone, Copy, Debug, PartialEq, Eq)]
pub struct SfPrinted {
    /// How many bytes the whole text has.
    pub len: u32,
    /// The byte of the format at which its fault was found.
    pub fault_at: u16,
    /// The number of the format's fault; 0 for none.
    pub fault: u8,
    /// 0 for none; 1: not as many values as conversions; 2: a value isn't of its conversion's kind; 3: not one byte
    /// for a `c`; 4: the text is too long.
    pub why: u8,
    /// The value at which that was found, from 1; 0 for none.
    pub slot: u8,
}

/// What stands there before a call.
pub(crate) const fn not_printed() -> SfPrinted
    ensures { result ≡ record { len = 0; fault_at = 0; fault = 0; why = 0; slot = 0 } }
{
    SfPrinted {
        len: 0,
        fault_at: 0,
        fault: 0,
        why: 0,
        slot: 0,
    }
}

/// Says why there is no format.
fn refuse_format(refusal: Refusal, printed: &mut SfPrinted) -> i32
    ensures code { result ≡ refusal.code }
    ensures fault { printed.new.fault ≡ refusal.fault }
    ensures place { printed.new.fault_at ≡ refusal.at }
{
    printed.fault = refusal.fault;
    printed.fault_at = refusal.at;
    refusal.code
}

/// Says why nothing was printed.
fn refuse(fault: PrintFault, printed: &mut SfPrinted) -> i32
    ensures codes { (result ≡ pos 3) ⊎ (result ≡ pos 6) }
    ensures why { result ≡ pos 6 → printed.new.why ≡ why_number fault }
    ensures slot { result ≡ pos 6 → printed.new.slot ≡ slot_at fault }
    ensures sink { result ≡ pos 6 → is_sink_fault (Err fault) ≡ false }
{
    let (why, slot) = match fault {
        PrintFault::WrongCount => (1, 0),
        PrintFault::WrongKind { at } => (2, at),
        PrintFault::NotOneByte { at } => (3, at),
        PrintFault::TooLong => (4, 0),
        PrintFault::Sink { .. } => return NO_MEMORY,
    };
    printed.why = why;
    printed.slot = slot;
    NOT_PRINTED
}

/// Writes the first bytes of a text, as many as there is room for.
pub(crate) fn put_front(text: &[u8], output: &mut [u8])
    ensures front { take (length text.now) output.new ≡ take (length output.old) text.now }
    ensures rest { drop (length text.now) output.new ≡ drop (length text.now) output.old }
{
    let count = text.len().min(output.len());
    output[..count].copy_from_slice(&text[..count]);
}

/// As `sf_c_print`, of values and by a format that are there.
fn print_by(
    alloc: Global,
    format: &PrintFormat,
    values: &[Value<'_>],
    output: &mut [u8],
    printed: &mut SfPrinted,
) -> i32
    ensures printed { result ≡ pos 0 → IsPrintedBy format.now (map datum_of values.now) output.new printed.new.len }
    ensures refused { result ≡ pos 6
        → IsNotPrintedBy format.now (map datum_of values.now) printed.new.why printed.new.slot }
    ensures untouched { (result ≡ pos 0 → ⊥) → output.new ≡ output.old }
    ensures rest { drop printed.new.len output.new ≡ drop printed.new.len output.old }
    ensures codes { (result ≡ pos 0) ⊎ ((result ≡ pos 3) ⊎ (result ≡ pos 6)) }
{
    let mut to = ListSink::new(alloc);
    match fprint(&mut to, format, values) {
        Ok(len) => {
            put_front(to.bytes(), output);
            printed.len = len;
            OK
        }
        Err(fault) => refuse(fault, printed),
    }
}

/// As `sf_c_print`.
pub(crate) fn print_values(
    alloc: Global,
    profile: u8,
    format: &[u8],
    values: &[SfValue],
    texts: &[u8],
    output: &mut [u8],
    printed: &mut SfPrinted,
) -> i32
    ensures printed { result ≡ pos 0
        → IsPrinted profile format.now values.now texts.now output.new printed.new.len }
    ensures not_printed { result ≡ pos 6
        → IsNotPrinted profile format.now values.now texts.now printed.new.why printed.new.slot }
    ensures refused { result ≡ pos 1 → IsNoPrintFormat profile format.now printed.new.fault printed.new.fault_at }
    ensures no_value { result ≡ pos 5 → HasNoValue profile format.now values.now texts.now }
    ensures untouched { (result ≡ pos 0 → ⊥) → output.new ≡ output.old }
    ensures rest { drop printed.new.len output.new ≡ drop printed.new.len output.old }
    ensures profile { result ≡ pos 9 ↔ (profile_of profile ≡ None) }
{
    *printed = not_printed();
    let parsed = match print_format_of(alloc, profile, format) {
        Ok(parsed) => parsed,
        Err(refusal) => return refuse_format(refusal, printed),
    };
    match values_of(values, texts) {
        Some(list) => print_by(alloc, &parsed, list.as_slice(), output, printed),
        None => BAD_VALUE,
    }
}
