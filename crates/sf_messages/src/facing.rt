//! The parts of two formats that face each other where a pair is refused.
ghost use Rattle.std.specs.Prelude.{◌≡◌, ◌++◌, OnOk, Some};
ghost use Rattle.sf_format.specs.PrintLetters.{float_bytes};
ghost use Rattle.sf_pair.specs.Groups.{starts_with_space};
ghost use Rattle.sf_pair.specs.Walk.{after_space};
ghost use Rattle.sf_messages.specs.Facing.{behind, faced, flag_text, flags_text, left_behind, print_conv_text};
ghost use Rattle.sf_messages.specs.Facing.{print_head_text, print_letter_text, unit_text, width_given};

use crate::shown::{push_field, push_text};
use sf_arguments::kind_text;
use sf_base::is_space;
use sf_format::{Directive, FloatStyle, PrintConv, PrintLetter, Unit};
use sf_records::push_quoted;
use std::alloc::{AllocError, Global};

/// Whether the first of the units is a literal of white space.
fn is_space_first(units: &[Unit]) -> bool
    ensures { result ≡ starts_with_space units.now }
{
    match units.split_first() {
        Some((Unit::Byte(b), _)) => is_space(*b),
        _ => false,
    }
}

/// The units after the literals of white space that stand first.
fn after_space(units: &[Unit]) -> &[Unit]
    ensures { result.now ≡ after_space units.entry.now }
{
    for i in 0..units.len() {
        if !is_space_first(&units[i..]) {
            return &units[i..];
        }
    }
    &units[units.len()..]
}

/// The units after those that a directive takes.
fn behind<'a>(directive: &Directive, units: &'a [Unit]) -> &'a [Unit]
    ensures { result.now ≡ behind directive.now units.entry.now }
{
    match (directive, units) {
        (Directive::Space, _) => after_space(units),
        (_, [_, rest @ ..]) => rest,
        (_, []) => units,
    }
}

/// The units that are left after the directives.
fn left_behind<'a>(directives: &[Directive], units: &'a [Unit]) -> &'a [Unit]
    ensures { result.now ≡ left_behind directives.now units.entry.now }
{
    let mut left = units;
    for directive in directives {
        left = behind(directive, left);
    }
    left
}

/// The units that are left where the directive with this number, counted from 1, stands.
pub(crate) fn faced<'a>(directives: &[Directive], units: &'a [Unit], number: u16) -> &'a [Unit]
    ensures { result.now ≡ faced directives.now units.entry.now number }
{
    let before = usize::from(number).saturating_sub(1).min(directives.len());
    left_behind(&directives[..before], units)
}

/// The letter of a float.
fn float_letter_text(style: FloatStyle, upper: bool) -> &'static str
    ensures { result.now ≡ float_bytes style upper }
{
    match (style, upper) {
        (FloatStyle::Fixed, false) => "f",
        (FloatStyle::Fixed, true) => "F",
        (FloatStyle::Exponent, false) => "e",
        (FloatStyle::Exponent, true) => "E",
        (FloatStyle::General, false) => "g",
        (FloatStyle::General, true) => "G",
        (FloatStyle::Hexadecimal, false) => "a",
        (FloatStyle::Hexadecimal, true) => "A",
    }
}

/// The letter of a conversion of a print format.
fn print_letter_text(letter: PrintLetter) -> &'static str
    ensures { result.now ≡ print_letter_text letter }
{
    match letter {
        PrintLetter::Signed => "d",
        PrintLetter::Unsigned => "u",
        PrintLetter::Octal => "o",
        PrintLetter::HexLower => "x",
        PrintLetter::HexUpper => "X",
        PrintLetter::Binary => "b",
        PrintLetter::Text => "s",
        PrintLetter::One => "c",
        PrintLetter::Float(style, upper) => float_letter_text(style, upper),
    }
}

/// Appends a flag, if it is set.
fn push_flag(output: &mut Vec<u8>, set: bool, flag: &str) -> Result<(), AllocError>
    ensures { OnOk result (output.new.items ≡ output.old.items ++ flag_text set flag.now) }
{
    if set {
        push_text(output, flag)?;
    }
    Ok(())
}

/// Appends the flags that are set.
fn push_flags(output: &mut Vec<u8>, conv: &PrintConv) -> Result<(), AllocError>
    ensures { OnOk result (output.new.items ≡ output.old.items ++ flags_text conv.now) }
{
    push_flag(output, conv.minus, "-")?;
    push_flag(output, conv.plus, "+")?;
    push_flag(output, conv.blank, " ")?;
    push_flag(output, conv.alt, "#")?;
    push_flag(output, conv.zero, "0")
}

/// The width of a conversion, where it has one.
fn width_given(width: u16) -> Option<u32>
    ensures { result ≡ width_given width }
{
    if width == 0 {
        None
    } else {
        Some(u32::from(width))
    }
}

/// The precision of a conversion, where it has one.
fn precision_given(precision: Option<u8>) -> Option<u32>
    ensures { result ≡ precision }
{
    match precision {
        None => None,
        Some(precision) => Some(u32::from(precision)),
    }
}

/// Appends the letter, the kind and the flags of a conversion.
fn push_print_head(alloc: Global, output: &mut Vec<u8>, conv: &PrintConv) -> Result<(), AllocError>
    ensures { OnOk result (output.new.items ≡ output.old.items ++ print_head_text conv.now) }
{
    let mut flags = Vec::new(alloc);
    push_flags(&mut flags, conv)?;
    push_text(output, print_letter_text(conv.letter))?;
    push_text(output, " ")?;
    push_text(output, kind_text(conv.kind))?;
    push_text(output, " flags ")?;
    push_quoted(output, &flags)
}

/// Appends how a conversion of a print format is shown.
fn push_print_conv(alloc: Global, output: &mut Vec<u8>, conv: &PrintConv) -> Result<(), AllocError>
    ensures { OnOk result (output.new.items ≡ output.old.items ++ print_conv_text conv.now) }
{
    push_print_head(alloc, output, conv)?;
    push_field(output, " width ", width_given(conv.width))?;
    push_field(output, " precision ", precision_given(conv.precision))?;
    push_field(output, " slot ", Some(u32::from(conv.slot)))?;
    Ok(())
}

/// Appends how a unit of a print format is shown.
pub(crate) fn push_unit(alloc: Global, output: &mut Vec<u8>, unit: &Unit) -> Result<(), AllocError>
    ensures { OnOk result (output.new.items ≡ output.old.items ++ unit_text unit.now) }
{
    match unit {
        Unit::Byte(b) => {
            push_text(output, "byte ")?;
            push_quoted(output, &[*b])
        }
        Unit::Conv(conv) => push_print_conv(alloc, output, conv),
    }
}
