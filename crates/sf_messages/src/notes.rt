//! What is said after the line of a fault, where more is asked for.
ghost use Rattle.std.specs.Prelude.{◌≡◌, ◌+◌, ◌-◌, ◌++◌, OnOk, IfOk, drop, option_map, slice_get};
ghost use Rattle.sf_messages.specs.Notes.{blanks, byte_notes, count_notes, cure_notes, cure_of, end_note};
ghost use Rattle.sf_messages.specs.Notes.{escape_notes, failed_notes, format_notes, input_notes};
ghost use Rattle.sf_messages.specs.Notes.{line_notes, line_rest, note, pair_notes, part_note};
ghost use Rattle.sf_messages.specs.Notes.{place_notes, print_side, rest_notes, scan_side, stood_notes, value_note};
ghost use Rattle.sf_messages.specs.Notes.{exception_text, float_cure, is_excepted, left_cure, left_notes};
ghost use Rattle.sf_messages.specs.Notes.{mismatch_notes, numbered_note, range_note, raw_notes, stop_note};
ghost use Rattle.sf_messages.specs.Notes.{strict_note, value_notes, wanted_notes, wants_note};
ghost use Rattle.sf_messages.specs.Notes.{alone_cure, alone_notes, counted_names, counted_values, name_count_notes};
ghost use Rattle.sf_messages.specs.Notes.{named_cure, names_cure, names_sample, shell_notes, stalled_notes};
ghost use Rattle.sf_messages.specs.Notes.{column_notes, run_notes, space_notes, wanted_note, white_notes};

use crate::columns::{failed_column, is_after_space, space_sentence, whole_text};
use crate::facing::{faced, push_unit};
use crate::fault::FormatName;
use crate::mistakes::{
    begins_marked, begins_wide, byte_after_text, byte_at, is_carriage, is_class, is_cut,
};
use crate::names::name_text;
use crate::newlines::{
    is_left_white, is_lone_newline, is_newline_taken, is_over_newline, is_white_first,
};
use crate::places::Place;
use crate::sentences::{
    byte_mark_sentence, carriage_sentence, class_sentence, escape_sentence, left_white_sentence,
    lone_newline_sentence, names_text, newline_taken_sentence, no_value_text, one_word_sentence,
    over_newline_sentence, pair_sentence, printed_by_text, push_typed, push_typed_escape,
    range_text, raw_sentence, read_by_text, shell_sentence, stalled_sentence, text_front,
    values_text, wanted_text, white_first_sentence, why_sentence, wide_text_sentence,
    width_option_text,
};
use crate::shown::{push_text, push_width_cure};
use crate::strict::{
    barred_sentence, is_barred_there, is_prefix_left, is_prefix_there, strict_prefix_sentence,
    strict_text,
};
use sf_arguments::{ArgumentFault, kind_text};
use sf_base::Kind;
use sf_format::{Directive, FormatFault, PrintConv, PrintLetter, Unit};
use sf_forms::PrintMismatch;
use sf_pair::{PairFault, PairWhy};
use sf_records::{LineFault, push_quoted};
use sf_run::{Ending, Outcome, Status};
use std::alloc::{AllocError, Global};
use std::io::Write;

/// How many of the bytes that a run left are shown.
const SHOWN_BYTES: usize = 24;

/// Appends a line of its own.
fn push_note(output: &mut Vec<u8>, text: &[u8]) -> Result<(), AllocError>
    ensures { OnOk result (output.new.items ≡ output.old.items ++ note text.now) }
{
    output.extend_from_slice(b"  ")?;
    output.extend_from_slice(text)?;
    output.extend_from_slice(b"\n")
}

/// Appends a blank for each byte.
fn push_blanks(output: &mut Vec<u8>, bytes: &[u8]) -> Result<(), AllocError>
    ensures { OnOk result (output.new.items ≡ output.old.items ++ blanks bytes.now) }
{
    for byte in bytes {
        output.push(b' ')?;
    }
    Ok(())
}

/// Appends a text between quotes, and a line with a caret under the byte at this place, or after the last one.
fn push_place(alloc: Global, output: &mut Vec<u8>, text: &[u8], at: usize) -> Result<(), AllocError>
    ensures { OnOk result (output.new.items ≡ output.old.items ++ place_notes text.now at) }
{
    let mut front = Vec::new(alloc);
    push_quoted(&mut front, &text[..at.min(text.len())])?;
    output.extend_from_slice(b"  ")?;
    push_quoted(output, text)?;
    output.extend_from_slice(b"\n ")?;
    push_blanks(output, &front)?;
    output.extend_from_slice(b"^\n")
}

/// The bytes of a word after this one.
fn word_rest(word: &[u8], at: usize) -> &[u8]
    ensures { result.now ≡ drop (at + 1) word.entry.now }
{
    if at < word.len() {
        &word[at + 1..]
    } else {
        &[]
    }
}

/// What is said of a word's bad escape, by the offset of its backslash.
pub fn escape_notes(alloc: Global, word: &[u8], at: usize) -> Result<Vec<u8>, AllocError>
    ensures { IfOk result (λ notes. notes.items ≡ escape_notes word.now at) }
{
    let mut text = Vec::new(alloc);
    push_typed_escape(&mut text, word_rest(word, at))?;
    text.extend_from_slice(escape_sentence().as_bytes())?;
    let mut notes = Vec::new(alloc);
    push_note(&mut notes, &text)?;
    push_place(alloc, &mut notes, word, at)?;
    Ok(notes)
}

/// Appends what helps where a shell took a part of a format.
fn push_shell(output: &mut Vec<u8>, text: &[u8], fault: FormatFault) -> Result<(), AllocError>
    ensures { OnOk result (output.new.items ≡ output.old.items ++ shell_notes text.now fault) }
{
    if is_cut(text, fault) {
        push_note(output, shell_sentence().as_bytes())
    } else {
        Ok(())
    }
}

/// What is said of the fault of a format, by its bytes.
pub fn format_notes(alloc: Global, text: &[u8], fault: FormatFault) -> Result<Vec<u8>, AllocError>
    ensures { IfOk result (λ notes. notes.items ≡ format_notes text.now fault) }
{
    let at = usize::from(fault.at);
    let byte = byte_at(text, at);
    let mut said = Vec::new(alloc);
    push_typed(&mut said, fault.why, byte)?;
    let sentence = why_sentence(fault.why, byte, word_rest(text, at));
    said.extend_from_slice(sentence.as_bytes())?;
    let mut notes = Vec::new(alloc);
    push_note(&mut notes, &said)?;
    push_place(alloc, &mut notes, text, at)?;
    push_shell(&mut notes, text, fault)?;
    Ok(notes)
}

/// The line of a value that isn't what is expected of it.
fn value_note(
    alloc: Global,
    at: u8,
    word: &[u8],
    why: &str,
    range: &str,
) -> Result<Vec<u8>, AllocError>
    ensures { IfOk result (λ notes. notes.items ≡ value_note at word.now (why.now ++ range.now)) }
{
    let mut text = Vec::new(alloc);
    write!(text, "value {at}: ").map_err(|_| AllocError)?;
    push_quoted(&mut text, word)?;
    text.extend_from_slice(why.as_bytes())?;
    text.extend_from_slice(range.as_bytes())?;
    let mut notes = Vec::new(alloc);
    push_note(&mut notes, &text)?;
    Ok(notes)
}

/// What is said where there are not as many words as a format has values, by the format's word.
fn count_notes(
    alloc: Global,
    format: &[u8],
    expected: u8,
    got: usize,
) -> Result<Vec<u8>, AllocError>
    ensures { IfOk result (λ notes. notes.items ≡ count_notes format.now expected got) }
{
    let mut text = Vec::new(alloc);
    push_quoted(&mut text, format)?;
    write!(text, " takes {expected}").map_err(|_| AllocError)?;
    text.extend_from_slice(values_text(expected).as_bytes())?;
    write!(text, ", not {got}").map_err(|_| AllocError)?;
    let mut notes = Vec::new(alloc);
    push_note(&mut notes, &text)?;
    Ok(notes)
}

/// What is said of a bad escape of a value.
fn raw_notes(alloc: Global, word: &[u8], at: usize) -> Result<Vec<u8>, AllocError>
    ensures { IfOk result (λ notes. notes.items ≡ raw_notes word.now at) }
{
    let mut notes = escape_notes(alloc, word, at)?;
    push_note(&mut notes, raw_sentence().as_bytes())?;
    Ok(notes)
}

/// What is said where a print format can't print what a scan format gives.
pub fn mismatch_notes(alloc: Global, mismatch: PrintMismatch) -> Result<Vec<u8>, AllocError>
    ensures { IfOk result (λ notes. notes.items ≡ mismatch_notes mismatch) }
{
    let mut notes = Vec::new(alloc);
    if let PrintMismatch::Kinds { print, scan, .. } = mismatch {
        let mut text = Vec::new(alloc);
        push_text(&mut text, kind_text(print))?;
        push_text(&mut text, " is read by ")?;
        push_text(&mut text, read_by_text(print))?;
        push_text(&mut text, ", and ")?;
        push_text(&mut text, kind_text(scan))?;
        push_text(&mut text, " is printed by ")?;
        push_text(&mut text, printed_by_text(scan))?;
        push_note(&mut notes, &text)?;
    }
    Ok(notes)
}

/// What is said of a word that is no value of a print format, or, where the number of words is wrong, of the format's.
pub fn value_notes(alloc: Global, word: &[u8], fault: ArgumentFault) -> Result<Vec<u8>, AllocError>
    ensures { IfOk result (λ notes. notes.items ≡ value_notes word.now fault) }
{
    match fault {
        ArgumentFault::NotInKind { at, kind } => {
            let front = no_value_text(kind);
            let range = range_text(kind);
            value_note(alloc, at, word, front, range)
        }
        ArgumentFault::NotOneByte { at } => value_note(alloc, at, word, " is not one byte", ""),
        ArgumentFault::BadEscape { offset, .. } => raw_notes(alloc, word, offset),
        ArgumentFault::WrongCount { expected, got } => count_notes(alloc, word, expected, got),
        ArgumentFault::TooLong | ArgumentFault::Write | ArgumentFault::Memory => {
            Ok(Vec::new(alloc))
        }
    }
}

/// Appends the line of a part of a format, by its number.
fn push_part(
    alloc: Global,
    output: &mut Vec<u8>,
    name: FormatName,
    number: usize,
    shown: &[u8],
) -> Result<(), AllocError>
    ensures { OnOk result (output.new.items ≡ output.old.items ++ part_note name number shown.now) }
{
    let mut text = Vec::new(alloc);
    text.extend_from_slice(name_text(name).as_bytes())?;
    write!(text, ", directive {number}: ").map_err(|_| AllocError)?;
    text.extend_from_slice(shown)?;
    push_note(output, &text)
}

/// Appends that a format has no part there.
fn push_end(alloc: Global, output: &mut Vec<u8>, name: FormatName) -> Result<(), AllocError>
    ensures { OnOk result (output.new.items ≡ output.old.items ++ end_note name) }
{
    let mut text = Vec::new(alloc);
    text.extend_from_slice(b"the ")?;
    text.extend_from_slice(name_text(name).as_bytes())?;
    text.extend_from_slice(b" ends there")?;
    push_note(output, &text)
}

/// Appends the line of the directive at a pair's fault.
fn push_scan_side(
    alloc: Global,
    output: &mut Vec<u8>,
    directives: &[Directive],
    number: u16,
    told: &[u8],
) -> Result<(), AllocError>
    ensures { OnOk result (output.new.items ≡ output.old.items ++ scan_side directives.now number told.now) }
{
    if directives.len() < usize::from(number) {
        return push_end(alloc, output, FormatName::Scan);
    }
    push_part(alloc, output, FormatName::Scan, usize::from(number), told)
}

/// Appends the line of the unit that faces that directive.
fn push_print_side(
    alloc: Global,
    output: &mut Vec<u8>,
    units: &[Unit],
    left: &[Unit],
) -> Result<(), AllocError>
    ensures { OnOk result (output.new.items ≡ output.old.items ++ print_side units.now left.now) }
{
    let Some((unit, rest)) = left.split_first() else {
        return push_end(alloc, output, FormatName::Print);
    };
    let mut shown = Vec::new(alloc);
    push_unit(alloc, &mut shown, unit)?;
    let number = units.len().saturating_sub(rest.len());
    push_part(alloc, output, FormatName::Print, number, &shown)
}

/// Appends what to write where the kinds of two floats differ.
fn push_float_cure(output: &mut Vec<u8>, print: Kind, scan: Kind) -> Result<(), AllocError>
    ensures { OnOk result (output.new.items ≡ output.old.items ++ float_cure print scan) }
{
    match (print, scan) {
        (Kind::F64, Kind::F32) => push_text(output, ": the scan format has f32, write %lf"),
        _ => Ok(()),
    }
}

/// Whether a float is printed so that a `.` or an `x` after it is read back, and refused all the same.
fn is_excepted(conv: &PrintConv) -> bool
    ensures { result ≡ is_excepted conv.now }
{
    matches!(conv.letter, PrintLetter::Float(..)) && (conv.alt || conv.zero)
}

/// Appends what is refused though it reads back.
fn push_exception(output: &mut Vec<u8>, conv: &PrintConv) -> Result<(), AllocError>
    ensures { OnOk result (output.new.items ≡ output.old.items ++ exception_text conv.now) }
{
    if is_excepted(conv) {
        push_text(
            output,
            "; before . x X a float with # or with zeros in front is refused, though it reads back",
        )
    } else {
        Ok(())
    }
}

/// Appends what to write, by the units that are left there and the directive that faces them.
fn push_cure_of(
    output: &mut Vec<u8>,
    why: PairWhy,
    left: &[Unit],
    directive: Option<&Directive>,
) -> Result<(), AllocError>
    ensures { OnOk result (output.new.items
        ≡ output.old.items ++ cure_of why left.now (option_map (λ given. given.now) directive.entry)) }
{
    match (why, left, directive) {
        (PairWhy::NoWidth, [Unit::Conv(conv), ..], _) => push_width_cure(output, conv),
        (PairWhy::RunsOn, [Unit::Conv(conv), ..], _) => push_exception(output, conv),
        (PairWhy::KindDiffers, [Unit::Conv(conv), ..], Some(Directive::Conv(scan))) => {
            push_float_cure(output, conv.kind, scan.kind)
        }
        _ => Ok(()),
    }
}

/// Appends what to write, by the units that are left at a pair's fault.
fn push_cure_at(
    output: &mut Vec<u8>,
    fault: PairFault,
    left: &[Unit],
    directives: &[Directive],
) -> Result<(), AllocError>
    ensures { OnOk result (output.new.items
        ≡ output.old.items ++ cure_of fault.why left.now (slice_get directives.now (fault.at - 1))) }
{
    let place = usize::from(fault.at).saturating_sub(1);
    push_cure_of(output, fault.why, left, directives.get(place))
}

/// What is said of why a pair is refused, by the units of the print format and the directives of the scan format;
/// `told` is how the directive at the fault is shown.
pub fn pair_notes(
    alloc: Global,
    units: &[Unit],
    directives: &[Directive],
    told: &[u8],
    fault: PairFault,
) -> Result<Vec<u8>, AllocError>
    ensures { IfOk result (λ notes. notes.items ≡ pair_notes units.now directives.now told.now fault) }
{
    let left = faced(directives, units, fault.at);
    let mut said = Vec::new(alloc);
    said.extend_from_slice(pair_sentence(fault.why).as_bytes())?;
    push_cure_at(&mut said, fault, left, directives)?;
    let mut notes = Vec::new(alloc);
    push_note(&mut notes, &said)?;
    if fault.at == 0 {
        return Ok(notes);
    }
    push_scan_side(alloc, &mut notes, directives, fault.at, told)?;
    push_print_side(alloc, &mut notes, units, left)?;
    Ok(notes)
}

/// Appends what to write where no scan format reads a print format back, by the units that are left at the fault.
fn push_alone_cure(output: &mut Vec<u8>, why: PairWhy, left: &[Unit]) -> Result<(), AllocError>
    ensures { OnOk result (output.new.items ≡ output.old.items ++ alone_cure why left.now) }
{
    match (why, left) {
        (PairWhy::NoWidth, _) => push_text(output, width_option_text()),
        (PairWhy::RunsOn, [Unit::Conv(conv), ..]) => push_exception(output, conv),
        _ => Ok(()),
    }
}

/// The units after so many.
fn units_after(units: &[Unit], count: usize) -> &[Unit]
    ensures { result.now ≡ drop count units.entry.now }
{
    units.get(count..).unwrap_or(&[])
}

/// What is said where no scan format reads a print format back, by its units: the fault of the format that was due,
/// which has a directive for each of them.
pub fn alone_notes(alloc: Global, units: &[Unit], fault: PairFault) -> Result<Vec<u8>, AllocError>
    ensures { IfOk result (λ notes. notes.items ≡ alone_notes units.now fault) }
{
    let left = units_after(units, usize::from(fault.at).saturating_sub(1));
    let mut said = Vec::new(alloc);
    said.extend_from_slice(pair_sentence(fault.why).as_bytes())?;
    push_alone_cure(&mut said, fault.why, left)?;
    let mut notes = Vec::new(alloc);
    push_note(&mut notes, &said)?;
    if fault.at != 0 {
        push_print_side(alloc, &mut notes, units, left)?;
    }
    push_note(&mut notes, one_word_sentence().as_bytes())?;
    Ok(notes)
}

/// Letters with commas between them.
const SAMPLE_NAMES: &[u8] = b"a,b,c,d,e,f,g,h,i,j,k,l,m,n,o,p,q,r,s,t,u,v,w,x,y,z,A,B,C,D,E,F";

/// So many of them.
fn names_sample(count: u8) -> &'static [u8]
    ensures { result.now ≡ names_sample count }
{
    let count = usize::from(count);
    &SAMPLE_NAMES[..(count + count).saturating_sub(1).min(63)]
}

/// Appends how many names there are.
fn push_names(output: &mut Vec<u8>, count: usize) -> Result<(), AllocError>
    ensures { OnOk result (output.new.items ≡ output.old.items ++ counted_names count) }
{
    write!(output, "{count}").map_err(|_| AllocError)?;
    push_text(output, names_text(count))
}

/// Appends that so many names are to be written, such as these.
fn push_named_cure(output: &mut Vec<u8>, count: usize, sample: &[u8]) -> Result<(), AllocError>
    ensures { OnOk result (output.new.items ≡ output.old.items ++ named_cure count sample.now) }
{
    push_text(output, ": write ")?;
    push_names(output, count)?;
    push_text(output, ", as --names ")?;
    output.extend_from_slice(sample)
}

/// Appends how many values there are.
fn push_values(output: &mut Vec<u8>, count: u8) -> Result<(), AllocError>
    ensures { OnOk result (output.new.items ≡ output.old.items ++ counted_values count) }
{
    write!(output, "{count}").map_err(|_| AllocError)?;
    push_text(output, values_text(count))
}

/// Appends which names to write for so many values.
fn push_names_cure(output: &mut Vec<u8>, expected: u8) -> Result<(), AllocError>
    ensures { OnOk result (output.new.items ≡ output.old.items ++ names_cure expected) }
{
    if expected == 0 {
        return push_text(output, ": leave --names out");
    }
    push_named_cure(output, usize::from(expected), names_sample(expected))
}

/// What is said where there are not as many names as a format gives values.
pub fn name_count_notes(alloc: Global, expected: u8, got: usize) -> Result<Vec<u8>, AllocError>
    ensures { IfOk result (λ notes. notes.items ≡ name_count_notes expected got) }
{
    let mut text = Vec::new(alloc);
    push_text(&mut text, "--names has ")?;
    push_names(&mut text, got)?;
    push_text(&mut text, ", and a format gives ")?;
    push_values(&mut text, expected)?;
    push_names_cure(&mut text, expected)?;
    let mut notes = Vec::new(alloc);
    push_note(&mut notes, &text)?;
    Ok(notes)
}

/// Appends the line of the place where a run stopped, where it is known.
fn push_input(alloc: Global, output: &mut Vec<u8>, place: Option<Place>) -> Result<(), AllocError>
    ensures { OnOk result (output.new.items ≡ output.old.items ++ input_notes place) }
{
    let Some(place) = place else {
        return Ok(());
    };
    let Place { line, column } = place;
    let mut text = Vec::new(alloc);
    write!(text, "at line {line}, column {column} of the input").map_err(|_| AllocError)?;
    push_note(output, &text)
}

/// What is said of a run that stopped at a place of the input.
pub fn input_notes(alloc: Global, place: Option<Place>) -> Result<Vec<u8>, AllocError>
    ensures { IfOk result (λ notes. notes.items ≡ input_notes place) }
{
    let mut said = Vec::new(alloc);
    push_input(alloc, &mut said, place)?;
    Ok(said)
}

/// What is said of a record that took nothing, at a place of the input.
pub fn stalled_notes(alloc: Global, place: Option<Place>) -> Result<Vec<u8>, AllocError>
    ensures { IfOk result (λ notes. notes.items ≡ stalled_notes place) }
{
    let mut said = Vec::new(alloc);
    push_input(alloc, &mut said, place)?;
    push_note(&mut said, stalled_sentence().as_bytes())?;
    Ok(said)
}

/// Appends the line of the first of some bytes, after these words.
fn push_bytes(
    alloc: Global,
    output: &mut Vec<u8>,
    words: &[u8],
    bytes: &[u8],
) -> Result<(), AllocError>
    ensures { OnOk result (output.new.items ≡ output.old.items ++ byte_notes words.now bytes.now) }
{
    if bytes.is_empty() {
        return Ok(());
    }
    let mut text = Vec::new(alloc);
    text.extend_from_slice(words)?;
    push_quoted(&mut text, &bytes[..bytes.len().min(SHOWN_BYTES)])?;
    push_note(output, &text)
}

/// Appends the line of the bytes that a run left.
fn push_rest(alloc: Global, output: &mut Vec<u8>, rest: &[u8]) -> Result<(), AllocError>
    ensures { OnOk result (output.new.items ≡ output.old.items ++ rest_notes rest.now) }
{
    push_bytes(alloc, output, b"there stood ", rest)
}

/// Appends where a run stopped, by what it met and the bytes that it left.
fn push_stood(
    alloc: Global,
    output: &mut Vec<u8>,
    met: Option<Ending>,
    rest: &[u8],
) -> Result<(), AllocError>
    ensures { OnOk result (output.new.items ≡ output.old.items ++ stood_notes met rest.now) }
{
    match met {
        Some(Ending::End) => push_note(output, b"the input ended there"),
        _ => push_rest(alloc, output, rest),
    }
}

/// Appends the line of a directive: these words after its number, and then the others.
fn push_numbered(
    alloc: Global,
    output: &mut Vec<u8>,
    number: u16,
    words: &[u8],
    shown: &[u8],
) -> Result<(), AllocError>
    ensures { OnOk result (output.new.items ≡ output.old.items ++ numbered_note number words.now shown.now) }
{
    let mut text = Vec::new(alloc);
    write!(text, "directive {number}").map_err(|_| AllocError)?;
    text.extend_from_slice(words)?;
    text.extend_from_slice(shown)?;
    push_note(output, &text)
}

/// Appends which numbers a directive takes.
fn push_wanted(
    alloc: Global,
    output: &mut Vec<u8>,
    number: u16,
    range: &str,
) -> Result<(), AllocError>
    ensures { OnOk result (output.new.items ≡ output.old.items ++ wanted_note number range.now) }
{
    push_numbered(
        alloc,
        output,
        number,
        b" wants a number from ",
        range.as_bytes(),
    )
}

/// Appends the same, where the directive is a conversion.
fn push_range(
    alloc: Global,
    output: &mut Vec<u8>,
    number: u16,
    directive: Option<&Directive>,
) -> Result<(), AllocError>
    ensures { OnOk result (output.new.items
        ≡ output.old.items ++ range_note number (option_map (λ given. given.now) directive.entry)) }
{
    match directive {
        Some(Directive::Conv(conversion)) => {
            push_wanted(alloc, output, number, wanted_text(conversion.kind))
        }
        _ => Ok(()),
    }
}

/// Appends what a directive wants.
fn push_wants(
    alloc: Global,
    output: &mut Vec<u8>,
    number: u16,
    what: &[u8],
) -> Result<(), AllocError>
    ensures { OnOk result (output.new.items ≡ output.old.items ++ wants_note number what.now) }
{
    push_numbered(alloc, output, number, b" wants ", what)
}

/// Appends the same, where the directive is a conversion with `!`.
fn push_strict(
    alloc: Global,
    output: &mut Vec<u8>,
    number: u16,
    directive: Option<&Directive>,
) -> Result<(), AllocError>
    ensures { OnOk result (output.new.items
        ≡ output.old.items ++ strict_note number (option_map (λ given. given.now) directive.entry)) }
{
    match directive {
        Some(Directive::Conv(conversion)) if conversion.shape.is_strict() => {
            let mut what = Vec::new(alloc);
            push_text(&mut what, strict_text(&conversion.shape))?;
            push_text(&mut what, whole_text(conversion.column))?;
            push_wants(alloc, output, number, &what)
        }
        _ => Ok(()),
    }
}

/// Appends what the directive wants at which a run failed: which numbers, where it met one out of its range.
fn push_missed(
    alloc: Global,
    output: &mut Vec<u8>,
    directives: &[Directive],
    outcome: Outcome,
) -> Result<(), AllocError>
    ensures { OnOk result (output.new.items ≡ output.old.items ++ wanted_notes directives.now outcome) }
{
    let place = usize::from(outcome.at).saturating_sub(1);
    match outcome.status {
        Status::OutOfRange => push_range(alloc, output, outcome.at, directives.get(place)),
        Status::MatchingFailure => push_strict(alloc, output, outcome.at, directives.get(place)),
        _ => Ok(()),
    }
}

/// Appends what helps where white space stands in front of a record, or a newline in it, or what a conversion with `!`
/// doesn't take.
fn push_white_cure(
    output: &mut Vec<u8>,
    directives: &[Directive],
    number: u32,
    outcome: Outcome,
    place: Option<Place>,
    rest: &[u8],
) -> Result<(), AllocError>
    ensures { OnOk result (output.new.items
        ≡ output.old.items ++ white_notes directives.now number outcome place rest.now) }
{
    if is_left_white(number, outcome, rest) {
        push_note(output, left_white_sentence().as_bytes())
    } else if is_barred_there(directives, outcome, rest) {
        push_note(output, barred_sentence(rest).as_bytes())
    } else if is_prefix_there(directives, outcome, rest) {
        push_note(output, strict_prefix_sentence().as_bytes())
    } else if is_white_first(outcome, rest) {
        push_note(output, white_first_sentence().as_bytes())
    } else if is_lone_newline(number, outcome, place) {
        push_note(output, lone_newline_sentence().as_bytes())
    } else if is_newline_taken(directives, number, outcome, place) {
        push_note(output, newline_taken_sentence().as_bytes())
    } else if is_over_newline(outcome, place) {
        push_note(output, over_newline_sentence().as_bytes())
    } else {
        Ok(())
    }
}

/// Appends the set that stops at this byte.
fn push_stop(alloc: Global, output: &mut Vec<u8>, b: u8) -> Result<(), AllocError>
    ensures { OnOk result (output.new.items ≡ output.old.items ++ stop_note b) }
{
    let mut text = Vec::new(alloc);
    push_text(&mut text, text_front())?;
    push_quoted(&mut text, &[b'%', b'[', b'^', b, b']'])?;
    push_note(output, &text)
}

/// Appends what helps where a format stands for something else than it seems to, or an input does.
fn push_cure(
    alloc: Global,
    output: &mut Vec<u8>,
    directives: &[Directive],
    number: u32,
    outcome: Outcome,
    place: Option<Place>,
    rest: &[u8],
) -> Result<(), AllocError>
    ensures { OnOk result (output.new.items
        ≡ output.old.items ++ cure_notes directives.now number outcome place rest.now) }
{
    if let Some(b) = byte_after_text(directives, outcome.at) {
        push_stop(alloc, output, b)
    } else if is_class(directives, outcome.at) {
        push_note(output, class_sentence().as_bytes())
    } else if begins_marked(rest) {
        push_note(output, byte_mark_sentence().as_bytes())
    } else if begins_wide(rest) {
        push_note(output, wide_text_sentence().as_bytes())
    } else {
        push_white_cure(output, directives, number, outcome, place, rest)
    }
}

/// Appends the line of the bytes of a column, where they are known.
fn push_column(alloc: Global, output: &mut Vec<u8>, column: &[u8]) -> Result<(), AllocError>
    ensures { OnOk result (output.new.items ≡ output.old.items ++ column_notes column.now) }
{
    if column.is_empty() {
        return Ok(());
    }
    let mut text = Vec::new(alloc);
    text.extend_from_slice(b"the column has ")?;
    push_quoted(&mut text, column)?;
    push_note(output, &text)
}

/// Appends what helps where white space of the format stands before the column at which a run failed.
fn push_space(
    output: &mut Vec<u8>,
    directives: &[Directive],
    outcome: Outcome,
) -> Result<(), AllocError>
    ensures { OnOk result (output.new.items ≡ output.old.items ++ space_notes directives.now outcome) }
{
    if is_after_space(directives, outcome) {
        push_note(output, space_sentence().as_bytes())
    } else {
        Ok(())
    }
}

/// What is said of a run that is no match, as of a record; and the bytes of the column at which it failed, where they
/// are known.
fn run_notes(
    alloc: Global,
    directives: &[Directive],
    shown: &[u8],
    number: u32,
    outcome: Outcome,
    column: &[u8],
    place: Option<Place>,
    rest: &[u8],
) -> Result<Vec<u8>, AllocError>
    ensures { IfOk result (λ notes. notes.items
        ≡ run_notes directives.now shown.now number outcome column.now place rest.now) }
{
    let mut notes = Vec::new(alloc);
    push_numbered(alloc, &mut notes, outcome.at, b": ", shown)?;
    push_missed(alloc, &mut notes, directives, outcome)?;
    push_column(alloc, &mut notes, column)?;
    push_input(alloc, &mut notes, place)?;
    push_stood(alloc, &mut notes, outcome.met, rest)?;
    push_cure(alloc, &mut notes, directives, number, outcome, place, rest)?;
    push_space(&mut notes, directives, outcome)?;
    Ok(notes)
}

/// What is said of a record that is no match, by the directives of its format: its number, the directive at which it
/// failed, as it is shown, the place in the input where the run stopped, where it is known, and the bytes that the run
/// left. Of a number that is out of range, which numbers the directive takes; of a conversion with `!`, what it wants.
pub fn failed_notes(
    alloc: Global,
    directives: &[Directive],
    shown: &[u8],
    number: u32,
    outcome: Outcome,
    place: Option<Place>,
    rest: &[u8],
) -> Result<Vec<u8>, AllocError>
    ensures { IfOk result (λ notes. notes.items
        ≡ failed_notes directives.now shown.now number outcome place rest.now) }
{
    run_notes(alloc, directives, shown, number, outcome, &[], place, rest)
}

/// The bytes of a line after so many.
fn line_rest(line: &[u8], used: u32) -> &[u8]
    ensures { result.now ≡ line_rest line.entry.now used }
{
    &line[(used as usize).min(line.len())..]
}

/// Appends what helps where a format left these bytes of a line.
fn push_left_cure(
    output: &mut Vec<u8>,
    directives: &[Directive],
    rest: &[u8],
) -> Result<(), AllocError>
    ensures { OnOk result (output.new.items ≡ output.old.items ++ left_cure directives.now rest.now) }
{
    if is_carriage(rest) {
        push_note(output, carriage_sentence().as_bytes())
    } else if is_prefix_left(directives, rest) {
        push_note(output, strict_prefix_sentence().as_bytes())
    } else {
        Ok(())
    }
}

/// Appends the line of the bytes that a format left of a line, and what helps.
fn push_left(
    alloc: Global,
    output: &mut Vec<u8>,
    directives: &[Directive],
    rest: &[u8],
) -> Result<(), AllocError>
    ensures { OnOk result (output.new.items ≡ output.old.items ++ left_notes directives.now rest.now) }
{
    push_rest(alloc, output, rest)?;
    push_left_cure(output, directives, rest)
}

/// What is said of a line of an input that is no match, by what was read of it, and why it is none: what is said of a
/// run that had the line alone for its input, but for the place, and the bytes of the column at which it failed.
/// `shown` is how the directive is shown at which the run failed, of those of the format that counts.
pub fn line_notes(
    alloc: Global,
    directives: &[Directive],
    shown: &[u8],
    line: &[u8],
    fault: LineFault,
) -> Result<Vec<u8>, AllocError>
    ensures { IfOk result (λ notes. notes.items ≡ line_notes directives.now shown.now line.now fault) }
{
    let mut said = Vec::new(alloc);
    match fault {
        LineFault::Failed { outcome } => {
            let rest = line_rest(line, outcome.used);
            let column = failed_column(directives, outcome, line);
            return run_notes(alloc, directives, shown, 1, outcome, column, None, rest);
        }
        LineFault::LeftOver { at } => {
            push_left(alloc, &mut said, directives, line_rest(line, at))?;
        }
        LineFault::TooLong => push_bytes(alloc, &mut said, b"it begins with ", line)?,
        LineFault::Unfit => {}
    }
    Ok(said)
}
