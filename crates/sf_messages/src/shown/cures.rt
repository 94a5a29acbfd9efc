//! What to write in place of a directive without a width.
ghost use Rattle.std.specs.Prelude.{◌≡◌, ◌++◌, OnOk};
ghost use Rattle.sf_format.specs.Units.{is_double};
ghost use Rattle.sf_messages.specs.shown.Cures.{cure_text, double_cure, is_bare, reading_text, width_cure};

use crate::shown::shown::push_text;
use sf_base::Kind;
use sf_format::{PrintConv, PrintLetter};
use sf_pair::longest_len;
use std::alloc::AllocError;
use std::io::Write;

/// Whether a conversion prints the digits of a number that it needs, and a sign or none.
fn is_bare(conv: &PrintConv) -> bool
    ensures { result ≡ is_bare conv.now }
{
    !conv.minus && !conv.alt && !conv.zero && conv.precision.is_none()
}

/// The directive that reads a number of a kind, printed by this letter; of texts there is none.
fn reading_text(letter: PrintLetter, kind: Kind) -> &'static str
    ensures { result.now ≡ reading_text letter kind }
{
    match (letter, kind) {
        (PrintLetter::Signed, Kind::I8) => "%4hhd",
        (PrintLetter::Signed, Kind::I16) => "%6hd",
        (PrintLetter::Signed, Kind::I32) => "%11d",
        (PrintLetter::Signed, Kind::I64) => "%20ld",
        (PrintLetter::Unsigned, Kind::U8) => "%3hhu",
        (PrintLetter::Unsigned, Kind::U16) => "%5hu",
        (PrintLetter::Unsigned, Kind::U32) => "%10u",
        (PrintLetter::Unsigned, Kind::U64) => "%20lu",
        (PrintLetter::Octal, Kind::U8) => "%3hho",
        (PrintLetter::Octal, Kind::U16) => "%6ho",
        (PrintLetter::Octal, Kind::U32) => "%11o",
        (PrintLetter::Octal, Kind::U64) => "%22lo",
        (PrintLetter::HexLower | PrintLetter::HexUpper, Kind::U8) => "%2hhx",
        (PrintLetter::HexLower | PrintLetter::HexUpper, Kind::U16) => "%4hx",
        (PrintLetter::HexLower | PrintLetter::HexUpper, Kind::U32) => "%8x",
        (PrintLetter::HexLower | PrintLetter::HexUpper, Kind::U64) => "%16lx",
        (PrintLetter::Binary, Kind::U8) => "%8hhb",
        (PrintLetter::Binary, Kind::U16) => "%16hb",
        (PrintLetter::Binary, Kind::U32) => "%32b",
        (PrintLetter::Binary, Kind::U64) => "%64lb",
        _ => "",
    }
}

/// Appends what to write, by the letter and the directive that reads its numbers.
fn push_cure(output: &mut Vec<u8>, letter: PrintLetter, directive: &str) -> Result<(), AllocError>
    ensures { OnOk result (output.new.items ≡ output.old.items ++ cure_text letter directive.now) }
{
    match letter {
        PrintLetter::Text => push_text(output, ": write the most bytes of the text after the %"),
        PrintLetter::One | PrintLetter::Float(..) => Ok(()),
        PrintLetter::Signed
        | PrintLetter::Unsigned
        | PrintLetter::Octal
        | PrintLetter::HexLower
        | PrintLetter::HexUpper
        | PrintLetter::Binary => {
            push_text(output, ": write ")?;
            push_text(output, directive)
        }
    }
}

/// Whether a kind is that of doubles.
fn is_double(kind: Kind) -> bool
    ensures { result ≡ is_double kind }
{
    matches!(kind, Kind::F64)
}

/// Appends the directive of this width that reads a double.
fn push_double_cure(output: &mut Vec<u8>, width: u32) -> Result<(), AllocError>
    ensures { OnOk result (output.new.items ≡ output.old.items ++ double_cure width) }
{
    write!(output, ": write %{width}lf").map_err(|_| AllocError)
}

/// Appends what to write in place of a directive without a width that faces this conversion.
pub fn push_width_cure(output: &mut Vec<u8>, conv: &PrintConv) -> Result<(), AllocError>
    ensures { OnOk result (output.new.items ≡ output.old.items ++ width_cure conv.now) }
{
    if is_double(conv.kind) {
        push_double_cure(output, longest_len(conv).unwrap_or(0))
    } else if is_bare(conv) {
        push_cure(output, conv.letter, reading_text(conv.letter, conv.kind))
    } else {
        Ok(())
    }
}
