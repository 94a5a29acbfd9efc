//! How directives are shown, and the lines that show a scan format.
ghost use Rattle.std.specs.Prelude.{◌≡◌, ◌++◌, ◌≤◌, OnErr, OnOk, IfOk, length};
ghost use Rattle.std.specs.Fmt.{decimal};
ghost use Rattle.sf_messages.specs.shown.Shown.{base_letter, letter_text, optional_text, members_text, missing_mark};
ghost use Rattle.sf_messages.specs.shown.Shown.{column_mark, head_text, marks_text, strict_mark};
ghost use Rattle.sf_messages.specs.shown.Shown.{field_text, group_mark, literal_text};
ghost use Rattle.sf_messages.specs.shown.Shown.{conversion_text, directive_text, line_text, directive_lines};
ghost use Rattle.sf_messages.specs.shown.Shown.{show_text, shown_at, summary_text};

use crate::shown::groups::{NO_GROUPS, group_at};
use sf_arguments::kind_text;
use sf_base::Kind;
use sf_format::{Base, Conversion, Directive, Literal, Numeral, ScanFormat, Shape};
use sf_forms::push_quoted;
use std::alloc::{AllocError, Global};
use std::io::Write;

/// The letter of integers of a base.
fn base_letter(base: Base, kind: Kind) -> &'static str
    ensures { result.now ≡ base_letter base kind }
{
    match base {
        Base::Dec => match kind {
            Kind::I8 | Kind::I16 | Kind::I32 | Kind::I64 => "d",
            Kind::U8 | Kind::U16 | Kind::U32 | Kind::U64 | Kind::Text | Kind::F32 | Kind::F64 => {
                "u"
            }
        },
        Base::Oct => "o",
        Base::Hex => "x",
        Base::Bin => "b",
        Base::Auto | Base::AutoBin => "i",
    }
}

fn letter_text(shape: &Shape, kind: Kind) -> &'static str
    ensures { result.now ≡ letter_text shape.now kind }
{
    match shape {
        Shape::Int(Numeral { base, .. }) => base_letter(*base, kind),
        Shape::Text(_) => "s",
        Shape::Set(_) => "[",
        Shape::Chars => "c",
        Shape::Float(_) => "f",
        Shape::Count => "n",
    }
}

/// Appends a text.
pub fn push_text(output: &mut Vec<u8>, text: &str) -> Result<(), AllocError>
    ensures { OnOk result (output.new.items ≡ output.old.items ++ text.now) }
{
    output.extend_from_slice(text.as_bytes())
}

fn push_number(output: &mut Vec<u8>, number: u32) -> Result<(), AllocError>
    ensures { OnOk result (output.new.items ≡ output.old.items ++ decimal number) }
{
    write!(output, "{number}").map_err(|_| AllocError)
}

fn push_optional(output: &mut Vec<u8>, number: Option<u32>) -> Result<(), AllocError>
    ensures { OnOk result (output.new.items ≡ output.old.items ++ optional_text number) }
{
    match number {
        None => push_text(output, "-"),
        Some(number) => push_number(output, number),
    }
}

fn push_members(output: &mut Vec<u8>, shape: &Shape) -> Result<(), AllocError>
    ensures { OnOk result (output.new.items ≡ output.old.items ++ members_text shape.now) }
{
    if let Shape::Set(members) = shape {
        push_text(output, " members ")?;
        push_number(output, u32::from(members.count()))?;
    }
    Ok(())
}

/// Appends the mark of a conversion with a `?`.
fn push_mark(output: &mut Vec<u8>, optional: bool) -> Result<(), AllocError>
    ensures { OnOk result (output.new.items ≡ output.old.items ++ missing_mark optional) }
{
    if optional {
        push_text(output, " optional")?;
    }
    Ok(())
}

/// Appends the mark of a conversion that takes a column.
fn push_column(output: &mut Vec<u8>, column: bool) -> Result<(), AllocError>
    ensures { OnOk result (output.new.items ≡ output.old.items ++ column_mark column) }
{
    if column {
        push_text(output, " column")?;
    }
    Ok(())
}

/// Appends the mark of a strict conversion.
fn push_strict(output: &mut Vec<u8>, strict: bool) -> Result<(), AllocError>
    ensures { OnOk result (output.new.items ≡ output.old.items ++ strict_mark strict) }
{
    if strict {
        push_text(output, " strict")?;
    }
    Ok(())
}

/// Appends the marks of a conversion.
fn push_marks(output: &mut Vec<u8>, conversion: &Conversion) -> Result<(), AllocError>
    ensures { OnOk result (output.new.items ≡ output.old.items ++ marks_text conversion.now) }
{
    push_mark(output, conversion.optional && conversion.opens.is_none())?;
    push_column(output, conversion.column)?;
    push_strict(output, conversion.shape.is_strict())
}

fn push_head(output: &mut Vec<u8>, conversion: &Conversion) -> Result<(), AllocError>
    ensures { OnOk result (output.new.items ≡ output.old.items ++ head_text conversion.now) }
{
    push_text(output, letter_text(&conversion.shape, conversion.kind))?;
    push_text(output, " ")?;
    push_text(output, kind_text(conversion.kind))
}

/// Appends a number after its label, or `-` where there is none.
pub fn push_field(output: &mut Vec<u8>, label: &str, number: Option<u32>) -> Result<(), AllocError>
    ensures { OnOk result (output.new.items ≡ output.old.items ++ field_text label.now number) }
{
    push_text(output, label)?;
    push_optional(output, number)
}

fn push_conversion(output: &mut Vec<u8>, conversion: &Conversion) -> Result<(), AllocError>
    ensures { OnOk result (output.new.items ≡ output.old.items ++ conversion_text conversion.now) }
{
    push_head(output, conversion)?;
    push_field(output, " width ", conversion.width.map(u32::from))?;
    push_field(output, " slot ", conversion.slot.map(u32::from))?;
    push_members(output, &conversion.shape)?;
    push_marks(output, conversion)
}

fn push_literal(output: &mut Vec<u8>, literal: Literal) -> Result<(), AllocError>
    ensures { OnOk result (output.new.items ≡ output.old.items ++ literal_text literal) }
{
    match literal {
        Literal::Byte(b) => {
            push_text(output, "byte ")?;
            push_quoted(output, &[b])
        }
        Literal::Percent => push_text(output, "percent"),
    }
}

/// Appends how a directive is shown; where memory is refused, a part of that.
fn push_shown(output: &mut Vec<u8>, directive: &Directive) -> Result<(), AllocError>
    ensures { OnOk result (output.new.items ≡ output.old.items ++ directive_text directive.now) }
{
    match directive {
        Directive::Space => push_text(output, "space"),
        Directive::Byte(b) => push_literal(output, Literal::Byte(*b)),
        Directive::Percent => push_literal(output, Literal::Percent),
        Directive::Conv(conversion) => push_conversion(output, conversion),
        Directive::Opens(opener) => push_literal(output, opener.literal),
    }
}

/// Appends the mark of a directive in the group with the number.
fn push_group(output: &mut Vec<u8>, group: Option<u16>) -> Result<(), AllocError>
    ensures { OnOk result (output.new.items ≡ output.old.items ++ group_mark group) }
{
    if let Some(number) = group {
        push_text(output, " group ")?;
        push_number(output, u32::from(number))?;
    }
    Ok(())
}

/// Appends how the directive with the number is shown, if there is one, and its group. Where memory is refused, the
/// list is as it was.
pub fn push_directive(
    alloc: Global,
    output: &mut Vec<u8>,
    directives: &[Directive],
    number: u16,
) -> Result<(), AllocError>
    requires { length directives.now ≤ 4096 }
    ensures pushed { OnOk result (output.new.items ≡ output.old.items ++ shown_at directives.now number) }
    ensures refused { OnErr result (output.new.items ≡ output.old.items) }
{
    let place = usize::from(number).saturating_sub(1);
    let mut text = Vec::new(alloc);
    if let Some(directive) = directives.get(place) {
        push_shown(&mut text, directive)?;
    }
    push_group(&mut text, group_at(directives, place))?;
    output.extend_from_slice(&text)
}

fn push_line(
    output: &mut Vec<u8>,
    number: u32,
    directive: &Directive,
    group: Option<u16>,
) -> Result<(), AllocError>
    ensures { OnOk result (output.new.items ≡ output.old.items ++ line_text number directive.now group) }
{
    push_number(output, number)?;
    push_text(output, " ")?;
    push_shown(output, directive)?;
    push_group(output, group)?;
    push_text(output, "\n")
}

fn push_summary(output: &mut Vec<u8>, destinations: u8, sum: Option<u32>) -> Result<(), AllocError>
    ensures { OnOk result (output.new.items ≡ output.old.items ++ summary_text destinations sum) }
{
    push_field(output, "destinations ", Some(u32::from(destinations)))?;
    push_field(output, ", width sum ", sum)?;
    push_text(output, "\n")?;
    Ok(())
}

fn push_directives(output: &mut Vec<u8>, directives: &[Directive]) -> Result<(), AllocError>
    requires { length directives.now ≤ 4096 }
    ensures { OnOk result (output.new.items ≡ output.old.items ++ directive_lines 1 0 0 directives.now) }
{
    let mut number: u32 = 1;
    let mut groups = NO_GROUPS;
    for directive in directives {
        let group = groups.pass(directive);
        push_line(output, number, directive, group)?;
        number += 1;
    }
    Ok(())
}

/// The lines that show a scan format: each directive with its number, then its destinations and its width sum.
pub fn show(alloc: Global, format: &ScanFormat, sum: Option<u32>) -> Result<Vec<u8>, AllocError>
    ensures { IfOk result (λ lines. lines.items ≡ show_text format.now sum) }
{
    let mut output = Vec::new(alloc);
    push_directives(&mut output, format.directives())?;
    push_summary(&mut output, format.destinations(), sum)?;
    Ok(output)
}
