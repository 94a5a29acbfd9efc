//! Scan formats.
ghost use Rattle.std.specs.Prelude.{◌≡◌, ◌≤◌, ◌↔◌, IsSome, length, map, IfOk, IfErr, IfSome, IsTrue, unwrap_or};
ghost use Rattle.sf_format.specs.Layout.{items_assigned, items_taken, row_of, signed_in};
ghost use Rattle.sf_format.specs.Strictness.{lead_by_sign, strictly};
ghost use Rattle.sf_format.specs.Slots.{AreSlots};
ghost use Rattle.sf_format.specs.Proper.{AreKinded, AreProper, AreSized, IsAccepted, destinations_of, has_optional};
ghost use Rattle.sf_format.specs.Proper.{assigns, has_group, is_opener, is_optional, kind_at, may_miss};
ghost use Rattle.sf_format.specs.Unbounded.{EndsUnbounded};
ghost use Rattle.sf_format.specs.Widths.{width_sum, stored_width};
ghost use Rattle.sf_format.specs.Grammar.{Spells};
ghost use Rattle.sf_format.specs.Faults.{Fault, IsRefused, TellsFault, TakesSpelled};

mod conversion;
pub mod grammar;
mod scanlist;

use crate::directive::{Directive, Lead, Profile, Shape};
use crate::fault::FormatFault;
use crate::judgement::parse;
use crate::layout::{Row, items_of, lay_out, rows_of};
use crate::letter::has_doubles;
use crate::scan::grammar::ScanGrammar;
use sf_base::Kind;
use std::alloc::Global;
use std::marker::Model;

/// A scan format: its directives, each with its row, the count of its destinations, the sum of their widths, and what a
/// run of it counts that is Done. `reserve` is the sum of their widths, or 0 where there is none.
#[derive(Debug, Drop)]
pub struct ScanFormat {
    directives: Vec<Directive>,
    rows: Vec<Row>,
    destinations: u8,
    widths: Option<u32>,
    assigned: u8,
    converted: u16,
    optional: bool,
    reserve: u32,
    unbounded: bool,
}

impl Model for ScanFormat {
    ghost use Rattle.std.specs.Prelude.{◌≡◌, ◌↔◌, IsTrue, List, length, map, unwrap_or};
    ghost use Rattle.sf_format.specs.declared.directive.Directive.{Directive};
    ghost use Rattle.sf_format.specs.Unbounded.{EndsUnbounded};
    ghost use Rattle.sf_format.specs.Layout.{items_assigned, items_taken, row_of};
    ghost use Rattle.sf_format.specs.Proper.{IsAccepted, destinations_of, has_optional};
    ghost use Rattle.sf_format.specs.Widths.{width_sum};

    ghost Value = { List Directive };

    ghost view = { λ f. f.directives.items };

    ghost invariant = { λ f. record {
      accepted : IsAccepted f.directives.items;
      summed : f.widths ≡ width_sum f.directives.items;
      counted : f.destinations ≡ length (destinations_of f.directives.items);
      laid : f.rows.items ≡ map row_of f.directives.items;
      assigned : f.assigned ≡ items_assigned f.directives.items;
      converted : f.converted ≡ items_taken f.directives.items;
      optional : f.optional ≡ has_optional f.directives.items;
      reserve : f.reserve ≡ unwrap_or (width_sum f.directives.items) 0;
      unbounded : IsTrue f.unbounded ↔ EndsUnbounded f.directives.items;
    } };
}

/// The kind of the first destination with the slot.
fn find_kind(directives: &[Directive], slot: u8) -> Option<Kind>
    ensures { result ≡ kind_at slot directives.now }
{
    for directive in directives {
        match directive {
            Directive::Conv(conversion) if conversion.slot == Some(slot) => {
                return Some(conversion.kind);
            }
            _ => {}
        }
    }
    None
}

/// Whether the directive may be missing: it is a conversion with a `?`, or opens a group.
fn is_optional(directive: &Directive) -> bool
    ensures { result ≡ is_optional directive.now }
{
    match directive {
        Directive::Conv(conversion) => conversion.optional,
        Directive::Opens(_) => true,
        _ => false,
    }
}

/// Whether some directive may be missing.
fn has_optional(directives: &[Directive]) -> bool
    ensures { result ≡ has_optional directives.now }
{
    for directive in directives {
        if is_optional(directive) {
            return true;
        }
    }
    false
}

/// Whether the directive opens a group.
fn is_opener(directive: &Directive) -> bool
    ensures { result ≡ is_opener directive.now }
{
    match directive {
        Directive::Conv(conversion) => conversion.opens.is_some(),
        Directive::Opens(_) => true,
        _ => false,
    }
}

/// Whether some directive opens a group.
fn has_group(directives: &[Directive]) -> bool
    ensures { result ≡ has_group directives.now }
{
    for directive in directives {
        if is_opener(directive) {
            return true;
        }
    }
    false
}

/// Whether the directive assigns the slot.
fn assigns(directive: &Directive, slot: u8) -> bool
    ensures { result ≡ assigns slot directive.now }
{
    match directive {
        Directive::Conv(conversion) => conversion.slot == Some(slot),
        _ => false,
    }
}

/// Whether the slot may be left without a value.
fn may_miss(directives: &[Directive], slot: u8) -> bool
    ensures { result ≡ may_miss slot directives.now }
{
    let mut left: u16 = 0;
    for directive in directives {
        if assigns(directive, slot) && (is_optional(directive) || left > 0) {
            return true;
        }
        left = left.saturating_sub(1).max(directive.more());
    }
    false
}

/// The bytes that the directive stores at most; a suppressed conversion stores none.
fn stored_width(directive: &Directive) -> Option<u32>
    ensures value { result ≡ stored_width directive.now }
    ensures bound { IfSome result (λ w. w ≤ 65535) }
{
    let Directive::Conv(conversion) = directive else {
        return Some(0);
    };
    if conversion.slot.is_none() {
        return Some(0);
    }
    match &conversion.shape {
        Shape::Int(_) | Shape::Count => Some(0),
        Shape::Text(_) | Shape::Set(_) | Shape::Chars | Shape::Float(_) => {
            conversion.width.map(|w| w as u32)
        }
    }
}

/// The sum of the bytes that each directive stores at most.
fn sum_of_widths(directives: &[Directive]) -> Option<u32>
    requires { length directives.now ≤ 4096 }
    ensures { result ≡ width_sum directives.now }
{
    let mut sum: u32 = 0;
    for directive in directives {
        sum += stored_width(directive)?;
    }
    Some(sum)
}

/// Whether the last directive is a conversion without a `?` whose item ends only where a byte doesn't match, in a
/// format without a group. `grouped` says whether there is one.
fn ends_unbounded(directives: &[Directive], grouped: bool) -> bool
    requires { grouped ≡ has_group directives.now }
    ensures { IsTrue result ↔ EndsUnbounded directives.now }
{
    match directives.last() {
        Some(Directive::Conv(conversion)) => {
            conversion.width.is_none()
                && !conversion.optional
                && !conversion.column
                && matches!(
                    conversion.shape,
                    Shape::Int(_) | Shape::Text(_) | Shape::Set(_)
                )
                && !grouped
        }
        _ => false,
    }
}

/// What may stand before the digits of an integer of the kind with `!`.
fn lead_by_sign(kind: Kind) -> Lead
    ensures { result ≡ lead_by_sign (signed_in kind) }
{
    match kind.bounds() {
        Some((true, _)) => Lead::Minus,
        _ => Lead::Nothing,
    }
}

/// Makes the conversion as it would be with `!`, if it can have that.
fn make_strict(directive: &mut Directive)
    ensures { directive.new ≡ strictly directive.old }
{
    let Directive::Conv(conversion) = directive else {
        return;
    };
    match &mut conversion.shape {
        Shape::Int(numeral) => numeral.lead = lead_by_sign(conversion.kind),
        Shape::Text(lead) => *lead = Lead::Nothing,
        Shape::Float(lead) => *lead = Lead::Minus,
        Shape::Set(_) | Shape::Chars | Shape::Count => {}
    }
}

/// Makes each conversion as it would be with `!`, if it can have that.
fn make_all_strict(directives: &mut [Directive])
    ensures { directives.new ≡ map strictly directives.old }
{
    for directive in directives.iter_mut() {
        make_strict(directive);
    }
}

impl ScanFormat {
    /// The format that the text spells. A text with a fault is refused for that, also where memory is refused.
    pub fn parse(alloc: Global, profile: Profile, text: &[u8]) -> Result<ScanFormat, FormatFault>
        ensures spelled { IfOk result (λ format. Spells profile text.now format) }
        ensures refused { IfErr result (λ fault. IsRefused profile text.now fault) }
        ensures fault { TellsFault (Fault profile text.now) result }
        ensures accepted { TakesSpelled (Spells profile text.now) result }
    {
        let (directives, destinations) = parse(alloc, ScanGrammar { profile }, text)?;
        let rows = rows_of(alloc, &directives)?;
        let widths = sum_of_widths(&directives);
        let items = items_of(&directives);
        let optional = has_doubles(profile) && has_optional(&directives);
        let reserve = widths.unwrap_or(0);
        let grouped = optional && has_group(&directives);
        let unbounded = ends_unbounded(&directives, grouped);
        Ok(ScanFormat {
            directives,
            rows,
            destinations,
            widths,
            assigned: items.assigned,
            converted: items.taken,
            optional,
            reserve,
            unbounded,
        })
    }

    /// The same format, where each conversion that can have `!` is read as if it had it.
    pub fn strict(self) -> ScanFormat
        ensures { result ≡ map strictly self }
    {
        let mut format = self;
        make_all_strict(&mut format.directives);
        lay_out(&format.directives, &mut format.rows);
        let grouped = has_group(&format.directives);
        format.unbounded = ends_unbounded(&format.directives, grouped);
        format
    }

    /// The directives, in order.
    pub fn directives(&self) -> &[Directive]
        ensures value { result.now ≡ self.now }
        ensures accepted { IsAccepted self.now }
        ensures proper { AreProper result.now }
        ensures sized { AreSized result.now }
        ensures kinded { AreKinded result.now }
        ensures short { length result.now ≤ 4096 }
        ensures few { length (destinations_of result.now) ≤ 32 }
        ensures slots { AreSlots (destinations_of result.now) }
    {
        &self.directives
    }

    /// The rows of the directives, in order.
    pub fn rows(&self) -> &[Row]
        ensures { result.now ≡ map row_of self.now }
    {
        &self.rows
    }

    /// How many input items a run assigns that is Done and misses none (C11 7.21.6.2p16).
    pub fn assigned(&self) -> u8
        ensures { result ≡ items_assigned self.now }
    {
        self.assigned
    }

    /// How many input items a run takes that is Done and misses none, suppressed ones among them.
    pub fn converted(&self) -> u16
        ensures { result ≡ items_taken self.now }
    {
        self.converted
    }

    /// How many destinations the format has. Their slots are the numbers from 1 to that, each once.
    pub fn destinations(&self) -> u8
        ensures count { result ≡ length (destinations_of self.now) }
        ensures accepted { IsAccepted self.now }
        ensures few { result ≤ 32 }
        ensures slots { AreSlots (destinations_of self.now) }
        ensures kinded { AreKinded self.now }
        ensures proper { AreProper self.now }
    {
        self.destinations
    }

    /// The kind of the destination with the slot; None if there is none. Slots are counted from 1.
    pub fn kind(&self, slot: u8) -> Option<Kind>
        ensures kind { result ≡ kind_at slot self.now }
        ensures some { let count = length (destinations_of self.now) in
            IsSome result ↔ ((1 ≤ slot) × (slot ≤ count)) }
    {
        find_kind(self.directives(), slot)
    }

    /// Whether some directive may be missing: a conversion with a `?`, or a group.
    pub fn has_optional(&self) -> bool
        ensures { result ≡ has_optional self.now }
    {
        self.optional
    }

    /// Whether a run may leave the destination with the slot without a value: it has a `?`, or is in a group.
    #[inline(always)]
    pub fn may_miss(&self, slot: u8) -> bool
        ensures { result ≡ may_miss slot self.now }
    {
        if !self.optional {
            return false;
        }
        may_miss(self.directives(), slot)
    }

    /// The sum of the widths of the assigned `c`, `s`, `[` and floats. None if one of them has no width.
    pub fn width_sum(&self) -> Option<u32>
        ensures { result ≡ width_sum self.now }
    {
        self.widths
    }

    /// As `width_sum`, and 0 where there is none: how many bytes of texts a run is given room for before it begins.
    #[inline(always)]
    pub fn reserve(&self) -> u32
        ensures { result ≡ unwrap_or (width_sum self.now) 0 }
    {
        self.reserve
    }

    /// Whether the last directive is a conversion without a `?` whose item ends only where a byte doesn't match, in a
    /// format without a group.
    #[inline(always)]
    pub fn ends_unbounded(&self) -> bool
        ensures { IsTrue result ↔ EndsUnbounded self.now }
    {
        self.unbounded
    }
}
