//! A scan format laid out: a flat row beside each directive, and what its runs count.
ghost use Rattle.std.specs.Prelude.{◌≡◌, ◌≤◌, length, map, IfOk};
ghost use Rattle.sf_format.specs.Layout.{assigns_item, items_assigned, items_taken, plain_row, row_of, row_of_literal};
ghost use Rattle.sf_format.specs.Layout.{takes_item};
ghost use Rattle.sf_format.specs.Layout.{stop_of, way_of, way_of_integer, way_placed};
ghost use Rattle.sf_format.specs.Proper.{destinations_of};

use crate::directive::{Base, Conversion, Directive, Lead, Literal, Numeral, Shape};
use sf_base::Kind;
use std::alloc::{AllocError, Global};

/// Which way a directive is passed at once. One that is passed another way is read byte by byte.
#[derive(Clone, Copy, Debug, PartialEq, Eq)]
pub enum Way {
    Space,
    Byte,
    Decimal,
    Hexadecimal,
    Octal,
    /// An integer whose radix its first digits show.
    Automatic,
    /// The same, where `0b` is a prefix too.
    AutomaticBinary,
    Text,
    /// Decimal digits after a minus or none, with `!`.
    StrictSigned,
    /// Decimal digits alone, with `!`.
    StrictDecimal,
    /// Hexadecimal digits alone, with `!`.
    StrictHexadecimal,
    /// A text of `!s`.
    StrictText,
    /// An item of any bytes but one.
    Until,
    Members,
    Characters,
    Another,
}

/// What a run asks of a directive, laid out flat.
#[derive(Clone, Copy, Debug)]
pub struct Row {
    pub way: Way,
    /// The byte that is due; of a set that lacks just one, that byte, before which its item ends.
    pub due: u8,
    /// Whether numbers of the kind have a sign.
    pub signed: bool,
    pub kind: Kind,
    /// The slot that is given a value.
    pub slot: Option<u8>,
    /// The most bytes of an item; without a width the most that there are.
    pub width: usize,
    /// The greatest number of the kind.
    pub greatest: u64,
}

/// Which way an integer so written is passed that its kind holds.
fn way_of_integer(numeral: Numeral) -> Way
    ensures { result ≡ way_of_integer numeral }
{
    match (numeral.lead, numeral.base) {
        (Lead::Any, Base::Dec) => Way::Decimal,
        (Lead::Any, Base::Hex) => Way::Hexadecimal,
        (Lead::Any, Base::Oct) => Way::Octal,
        (Lead::Any, Base::Auto) => Way::Automatic,
        (Lead::Any, Base::AutoBin) => Way::AutomaticBinary,
        (Lead::Minus, Base::Dec) => Way::StrictSigned,
        (Lead::Nothing, Base::Dec) => Way::StrictDecimal,
        (Lead::Nothing, Base::Hex) => Way::StrictHexadecimal,
        _ => Way::Another,
    }
}

/// Which way a conversion is passed; `is_numeric` says whether its kind holds numbers.
fn way_of(shape: &Shape, is_numeric: bool) -> Way
    ensures { result ≡ way_of shape.now is_numeric }
{
    match shape {
        Shape::Int(numeral) if is_numeric => way_of_integer(*numeral),
        Shape::Text(lead) if lead.is_strict() => Way::StrictText,
        Shape::Text(_) => Way::Text,
        Shape::Set(members) if members.lone_lack().is_some() => Way::Until,
        Shape::Set(_) => Way::Members,
        Shape::Chars => Way::Characters,
        Shape::Int(_) | Shape::Float(_) | Shape::Count => Way::Another,
    }
}

/// The same, where it may take a column: no row reads one.
fn way_placed(conversion: &Conversion, is_numeric: bool) -> Way
    ensures { result ≡ way_placed conversion.now.column conversion.now.shape is_numeric }
{
    if conversion.column {
        return Way::Another;
    }
    way_of(&conversion.shape, is_numeric)
}

/// The byte before which an item of the shape ends, where it goes on to that alone.
fn stop_of(shape: &Shape) -> u8
    ensures { result ≡ stop_of shape.now }
{
    match shape {
        Shape::Set(members) => members.lone_lack().unwrap_or(0),
        _ => 0,
    }
}

/// The row of a directive that is no conversion.
fn plain_row(way: Way, due: u8) -> Row
    ensures { result ≡ plain_row way due }
{
    Row {
        way,
        due,
        signed: false,
        kind: Kind::Text,
        slot: None,
        width: 0,
        greatest: 0,
    }
}

/// The row of a literal that opens a group.
fn row_of_literal(literal: Literal) -> Row
    ensures { result ≡ row_of_literal literal }
{
    match literal {
        Literal::Byte(due) => plain_row(Way::Byte, due),
        Literal::Percent => plain_row(Way::Another, 0),
    }
}

/// The row of a directive.
fn row_of(directive: &Directive) -> Row
    ensures { result ≡ row_of directive.now }
{
    let conversion = match directive {
        Directive::Space => return plain_row(Way::Space, 0),
        Directive::Byte(due) => return plain_row(Way::Byte, *due),
        Directive::Percent => return plain_row(Way::Another, 0),
        Directive::Opens(opener) => return row_of_literal(opener.literal),
        Directive::Conv(conversion) => conversion,
    };
    let bounds = conversion.kind.bounds();
    let (signed, greatest) = bounds.unwrap_or((false, 0));
    Row {
        way: way_placed(conversion, bounds.is_some()),
        due: stop_of(&conversion.shape),
        signed,
        kind: conversion.kind,
        slot: conversion.slot,
        width: conversion.width.map_or(usize::MAX, |width| width as usize),
        greatest,
    }
}

/// The row of each directive, laid out again.
pub(crate) fn lay_out(directives: &[Directive], rows: &mut [Row])
    requires { length directives.now ≡ length rows.old }
    ensures { rows.new ≡ map row_of directives.now }
{
    for i in 0..rows.len() {
        rows[i] = row_of(&directives[i]);
    }
}

/// The rows of the directives.
pub(crate) fn rows_of(alloc: Global, directives: &[Directive]) -> Result<Vec<Row>, AllocError>
    ensures { IfOk result (λ rows. rows.items ≡ map row_of directives.now) }
{
    let mut rows = Vec::with_capacity(alloc, directives.len())?;
    for directive in directives {
        rows.push_reserved(row_of(directive));
    }
    Ok(rows)
}

/// Whether the directive takes an input item: conversions do, but for `n` and `%%`.
fn takes_item(directive: &Directive) -> bool
    ensures { result ≡ takes_item directive.now }
{
    match directive {
        Directive::Conv(conversion) => !matches!(conversion.shape, Shape::Count),
        _ => false,
    }
}

/// Whether the directive gives an input item to a destination.
fn assigns_item(directive: &Directive) -> bool
    ensures { result ≡ assigns_item directive.now }
{
    match directive {
        Directive::Conv(conversion) => takes_item(directive) && conversion.slot.is_some(),
        _ => false,
    }
}

/// The input items of a run that is Done and misses none.
#[derive(Clone, Copy)]
pub(crate) struct Items {
    /// How many it takes, suppressed ones among them.
    pub(crate) taken: u16,
    /// How many it gives to destinations.
    pub(crate) assigned: u8,
}

/// The input items of the directives.
pub(crate) fn items_of(directives: &[Directive]) -> Items
    requires short { length directives.now ≤ 4096 }
    requires few { length (destinations_of directives.now) ≤ 32 }
    ensures taken { result.taken ≡ items_taken directives.now }
    ensures assigned { result.assigned ≡ items_assigned directives.now }
{
    let mut taken = 0;
    let mut assigned = 0;
    for directive in directives {
        if takes_item(directive) {
            taken += 1;
        }
        if assigns_item(directive) {
            assigned += 1;
        }
    }
    Items { taken, assigned }
}
