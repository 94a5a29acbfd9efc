//! The parts of a scan format, each of which reads one unit of a print format.
ghost use Rattle.std.specs.Prelude.{◌≡◌, ◌++◌, List, ℕ, Option, OnOk};
ghost use Rattle.std.specs.Fmt.{decimal};
ghost use Rattle.sf_arguments.specs.answer.Parts.{literal_part, number_part, width_part, length_part, letter_part};
ghost use Rattle.sf_arguments.specs.answer.Parts.{opening_part};
ghost use Rattle.sf_arguments.specs.answer.Parts.{stop_of, text_part, in_order, IsWidthOf, IsNumberPart, IsPart};
ghost use Rattle.sf_arguments.specs.answer.Parts.{IsPartBy};

use sf_base::{Kind, is_space};
use sf_format::{PrintConv, PrintLetter, Unit};
use sf_pair::longest_len;
use std::alloc::AllocError;
use std::io::Write;

fn push_text(to: &mut Vec<u8>, text: &str) -> Result<(), AllocError>
    ensures { OnOk result (to.new.items ≡ to.old.items ++ text.now) }
{
    to.extend_from_slice(text.as_bytes())
}

fn push_number(to: &mut Vec<u8>, number: u32) -> Result<(), AllocError>
    ensures { OnOk result (to.new.items ≡ to.old.items ++ decimal number) }
{
    write!(to, "{number}").map_err(|_| AllocError)
}

/// Appends what takes the byte alone: white space by a set, since in a format it stands for any run of white space.
fn push_literal(to: &mut Vec<u8>, b: u8) -> Result<(), AllocError>
    ensures { OnOk result (to.new.items ≡ to.old.items ++ literal_part b) }
{
    if is_space(b) {
        push_text(to, "%*1[")?;
        to.push(b)?;
        push_text(to, "]")
    } else if b == b'%' {
        push_text(to, "%%")
    } else {
        to.push(b)?;
        Ok(())
    }
}

fn push_slot(to: &mut Vec<u8>, numbered: bool, slot: u8) -> Result<(), AllocError>
    ensures { OnOk result (to.new.items ≡ to.old.items ++ number_part numbered slot) }
{
    if numbered {
        push_number(to, u32::from(slot))?;
        push_text(to, "$")?;
    }
    Ok(())
}

fn push_width(to: &mut Vec<u8>, width: Option<u32>) -> Result<(), AllocError>
    ensures { OnOk result (to.new.items ≡ to.old.items ++ width_part width) }
{
    match width {
        None => Ok(()),
        Some(width) => push_number(to, width),
    }
}

/// Appends a conversion specification up to its width.
fn push_opening(
    to: &mut Vec<u8>,
    numbered: bool,
    slot: u8,
    width: Option<u32>,
) -> Result<(), AllocError>
    ensures { OnOk result (to.new.items ≡ to.old.items ++ opening_part numbered slot width) }
{
    push_text(to, "%")?;
    push_slot(to, numbered, slot)?;
    push_width(to, width)
}

fn length_text(kind: Kind) -> &'static str
    ensures { result.now ≡ length_part kind }
{
    match kind {
        Kind::I8 | Kind::U8 => "hh",
        Kind::I16 | Kind::U16 => "h",
        Kind::I64 | Kind::U64 | Kind::F64 => "l",
        Kind::I32 | Kind::U32 | Kind::Text | Kind::F32 => "",
    }
}

fn letter_text(letter: PrintLetter) -> &'static str
    ensures { result.now ≡ letter_part letter }
{
    match letter {
        PrintLetter::Signed => "d",
        PrintLetter::Unsigned => "u",
        PrintLetter::Octal => "o",
        PrintLetter::HexLower => "x",
        PrintLetter::HexUpper => "X",
        PrintLetter::Binary => "b",
        PrintLetter::Text => "s",
        PrintLetter::One => "c",
        PrintLetter::Float(..) => "f",
    }
}

/// The width of the scan's conversion that reads each number.
fn number_width(conv: &PrintConv) -> u32
    ensures { IsWidthOf conv.now result }
{
    longest_len(conv).unwrap_or(1)
}

fn push_number_part(to: &mut Vec<u8>, numbered: bool, conv: &PrintConv) -> Result<(), AllocError>
    ensures { OnOk result ((part : List ℕ) × IsNumberPart numbered conv.now part
        × (to.new.items ≡ to.old.items ++ part)) }
{
    let width = number_width(conv);
    push_opening(to, numbered, conv.slot, Some(width))?;
    push_text(to, length_text(conv.kind))?;
    push_text(to, letter_text(conv.letter))
}

/// The literal that stands first, where it is no white space.
fn stop_of(units: &[Unit]) -> Option<u8>
    ensures { result ≡ stop_of units.now }
{
    match units.split_first() {
        Some((Unit::Byte(b), _)) if !is_space(*b) => Some(*b),
        _ => None,
    }
}

fn push_stop(to: &mut Vec<u8>, stop: Option<u8>) -> Result<(), AllocError>
    ensures { OnOk result (to.new.items ≡ to.old.items ++ text_part stop) }
{
    match stop {
        None => push_text(to, "s"),
        Some(b) => {
            push_text(to, "[^")?;
            to.push(b)?;
            push_text(to, "]")
        }
    }
}

fn push_conversion(
    to: &mut Vec<u8>,
    numbered: bool,
    width: Option<u16>,
    conv: &PrintConv,
    rest: &[Unit],
) -> Result<(), AllocError>
    ensures { OnOk result ((part : List ℕ) × IsPartBy conv.now.letter numbered width conv.now rest.now part
        × (to.new.items ≡ to.old.items ++ part)) }
{
    match conv.letter {
        PrintLetter::Text => {
            push_opening(to, numbered, conv.slot, width.map(u32::from))?;
            push_stop(to, stop_of(rest))
        }
        PrintLetter::One => {
            push_opening(to, numbered, conv.slot, Some(1))?;
            push_text(to, "c")
        }
        _ => push_number_part(to, numbered, conv),
    }
}

/// Appends the part that reads the unit, before these others.
pub(crate) fn push_part(
    to: &mut Vec<u8>,
    numbered: bool,
    width: Option<u16>,
    unit: &Unit,
    rest: &[Unit],
) -> Result<(), AllocError>
    ensures { OnOk result ((part : List ℕ) × IsPart numbered width unit.now rest.now part
        × (to.new.items ≡ to.old.items ++ part)) }
{
    match unit {
        Unit::Byte(b) => push_literal(to, *b),
        Unit::Conv(conv) => push_conversion(to, numbered, width, conv, rest),
    }
}

/// Whether the values are printed in the order of their numbers, so that no conversion needs its number.
pub(crate) fn are_in_order(units: &[Unit]) -> bool
    ensures { result ≡ in_order 1 units.now }
{
    let mut next = 1;
    for unit in units {
        if let Unit::Conv(conv) = unit {
            if conv.slot as usize != next {
                return false;
            }
            next += 1;
        }
    }
    true
}
