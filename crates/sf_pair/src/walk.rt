//! The walk over both formats, directive by directive.
ghost use Rattle.std.specs.Prelude.{◌≡◌, ◌≤◌, length, Option, Some, None, Ok, Err, MatchResult};
ghost use Rattle.std.specs.List.{list_any};
ghost use Rattle.sf_base.specs.Bytes.{is_white};
ghost use Rattle.sf_format.specs.declared.directive.Directive.{Directive};
ghost use Rattle.sf_pair.specs.conversions.Neighbours.{meet, first_by, no_conversion, reads};
ghost use Rattle.sf_pair.specs.Groups.{shape_keeps_space, keeps_space, starts_with_space, space_fault, literals_of};
ghost use Rattle.sf_pair.specs.Groups.{assigns, next_of};
ghost use Rattle.sf_pair.specs.Walk.{after_space, take_literal, take_space, take_paired, take_group, pair_fault};
ghost use Rattle.sf_pair.specs.Walk.{fault_from};

use crate::conversions::may_begin;
use crate::fault::{PairFault, PairWhy};
use crate::pairing::{closing_fault, pairing_fault};
use sf_base::{Kind, is_space};
use sf_format::{Conversion, Directive, Shape, Unit};
use sf_report::laws::bytes_are_tried;

/// One that reads nothing.
fn no_conversion() -> Conversion
    ensures { result ≡ no_conversion }
{
    Conversion {
        shape: Shape::Count,
        kind: Kind::Text,
        width: None,
        slot: None,
        optional: false,
        opens: None,
        column: false,
    }
}

/// The next directive, where it is an assigned conversion; `none`, which reads nothing, where it isn't.
fn reads<'a>(after: &'a [Directive], none: &'a Conversion) -> &'a Conversion
    requires { none.now ≡ no_conversion }
    ensures { result.now ≡ reads (next_of after.entry.now) }
{
    match after.split_first() {
        Some((Directive::Conv(scan), _)) if scan.slot.is_some() => scan,
        _ => none,
    }
}

/// Whether the directive takes the literal.
fn takes_literal(directive: &Directive, b: u8) -> bool
    ensures { result ≡ literals_of directive.now b }
{
    match directive {
        Directive::Space | Directive::Opens(_) => false,
        Directive::Byte(byte) => b == *byte,
        Directive::Percent => b == b'%',
        Directive::Conv(scan) => {
            !scan.column
                && scan.width == Some(1)
                && match &scan.shape {
                    Shape::Chars => true,
                    Shape::Set(members) => members.contains(b),
                    _ => false,
                }
        }
    }
}

/// The units after the literal that the directive takes.
fn take_literal<'a>(directive: &Directive, units: &'a [Unit]) -> Result<&'a [Unit], PairWhy>
    ensures { MatchResult result (λ rest. take_literal (literals_of directive.now) units.entry.now ≡ Ok rest.now)
        (λ why. take_literal (literals_of directive.now) units.entry.now ≡ Err why) }
{
    match units.split_first() {
        Some((Unit::Byte(b), rest)) if takes_literal(directive, *b) => Ok(rest),
        _ => Err(PairWhy::NotAligned),
    }
}

fn starts_with_space(units: &[Unit]) -> bool
    ensures { result ≡ starts_with_space units.now }
{
    match units.split_first() {
        Some((Unit::Byte(b), _)) => is_space(*b),
        _ => false,
    }
}

/// The units after the white-space literals that stand first.
fn after_space(units: &[Unit]) -> &[Unit]
    ensures { result.now ≡ after_space units.entry.now }
{
    for i in 0..units.len() {
        if !starts_with_space(&units[i..]) {
            return &units[i..];
        }
    }
    &units[units.len()..]
}

fn shape_keeps_space(read: &Shape) -> bool
    ensures { result ≡ shape_keeps_space read.now }
{
    read.is_strict() || matches!(read, Shape::Set(_) | Shape::Chars)
}

fn keeps_space(read: &Conversion) -> bool
    ensures { result ≡ keeps_space read.now }
{
    read.column || shape_keeps_space(&read.shape)
}

/// Whether white space may stand first in the unit's text.
fn may_begin_with_space(unit: &Unit, read: &Conversion) -> bool
    ensures { result ≡ meet (first_by unit.now read.now) is_white }
{
    for k in 0..256u16 {
        let b = k as u8;
        if may_begin(unit, read, b) && is_space(b) {
            bytes_are_tried();
            return true;
        }
    }
    false
}

fn space_fault(rest: &[Unit], next: &Conversion) -> Option<PairWhy>
    ensures { result ≡ space_fault rest.now next.now }
{
    match rest.split_first() {
        None => Some(PairWhy::OpenEnd),
        Some((unit, _)) => {
            if keeps_space(next) && may_begin_with_space(unit, next) {
                Some(PairWhy::RunsOn)
            } else {
                None
            }
        }
    }
}

fn take_space<'a>(units: &'a [Unit], next: &Conversion) -> Result<&'a [Unit], PairWhy>
    ensures { (d : Option Directive) → reads d ≡ next.now
        → MatchResult result (λ rest. take_space units.entry.now d ≡ Ok rest.now)
        (λ why. take_space units.entry.now d ≡ Err why) }
{
    if !starts_with_space(units) {
        return Err(PairWhy::NotAligned);
    }
    let rest = after_space(units);
    match space_fault(rest, next) {
        Some(why) => Err(why),
        None => Ok(rest),
    }
}

fn take_paired<'a>(
    scan: &Conversion,
    units: &'a [Unit],
    next: &Conversion,
) -> Result<&'a [Unit], PairWhy>
    ensures { (d : Option Directive) → reads d ≡ next.now
        → MatchResult result (λ rest. take_paired scan.now units.entry.now d ≡ Ok rest.now)
        (λ why. take_paired scan.now units.entry.now d ≡ Err why) }
{
    let Some((Unit::Conv(conv), rest)) = units.split_first() else {
        return Err(PairWhy::NotAligned);
    };
    if let Some(why) = pairing_fault(conv, scan) {
        return Err(why);
    }
    match closing_fault(conv, scan, rest, next) {
        Some(why) => Err(why),
        None => Ok(rest),
    }
}

/// The units after the directive's group, where these directives come next.
fn take_group<'a>(
    directive: &Directive,
    after: &[Directive],
    units: &'a [Unit],
) -> Result<&'a [Unit], PairWhy>
    ensures { MatchResult result (λ rest. take_group directive.now units.entry.now (next_of after.now) ≡ Ok rest.now)
        (λ why. take_group directive.now units.entry.now (next_of after.now) ≡ Err why) }
{
    let none = no_conversion();
    let next = reads(after, &none);
    match directive {
        Directive::Space => take_space(units, next),
        Directive::Byte(_) | Directive::Percent => take_literal(directive, units),
        Directive::Conv(scan) => {
            if matches!(scan.shape, Shape::Count) {
                Err(PairWhy::NotWritten)
            } else if scan.optional {
                Err(PairWhy::MayBeMissing)
            } else if scan.slot.is_some() {
                take_paired(scan, units, next)
            } else {
                take_literal(directive, units)
            }
        }
        Directive::Opens(_) => Err(PairWhy::MayBeMissing),
    }
}

fn assigns(directive: &Directive) -> bool
    ensures { result ≡ assigns directive.now }
{
    match directive {
        Directive::Conv(scan) => scan.slot.is_some() && !matches!(scan.shape, Shape::Count),
        _ => false,
    }
}

/// The first fault of a pair of formats.
pub(crate) fn pair_fault(units: &[Unit], directives: &[Directive]) -> Option<PairFault>
    requires { length directives.now ≤ 4096 }
    ensures { result ≡ pair_fault units.now directives.now }
{
    let mut left = units;
    let mut assigned = false;
    for i in 0..directives.len() {
        let directive = &directives[i];
        match take_group(directive, &directives[i + 1..], left) {
            Ok(rest) => left = rest,
            Err(why) => {
                let at = i as u16 + 1;
                return Some(PairFault { at, why });
            }
        }
        assigned = assigned || assigns(directive);
    }
    if !left.is_empty() {
        let at = directives.len() as u16 + 1;
        return Some(PairFault {
            at,
            why: PairWhy::NotAligned,
        });
    }
    if !assigned {
        return Some(PairFault {
            at: 0,
            why: PairWhy::NoValues,
        });
    }
    None
}
