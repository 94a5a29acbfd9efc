//! What one directive makes of a piece of the input, and how it ends (C11 7.21.6.2p4 to p10).
ghost use Rattle.std.specs.Prelude.{◌≡◌, ◌≢◌, ◌+◌, ◌<◌, ◌≤◌, ◌&&◌, ◌^◌, true, false, ℕ, ℤ, List, [], ◌∷◌, ◌++◌, length};
ghost use Rattle.std.specs.Prelude.{◌-◌, slice_get, take, drop, get_or, if◌then◌else◌, not};
ghost use Rattle.std.specs.Prelude.{Option, Some, None, IfSome, IsNone};
ghost use Rattle.sf_base.specs.Blanks.{trimmed_front};
ghost use Rattle.sf_base.specs.Bytes.{is_white};
ghost use Rattle.std.specs.Option.{option_map};
ghost use Rattle.sf_base.specs.Data.{Number as NumberOf, Real as RealOf, datum_of_number, value_of};
ghost use Rattle.sf_base.specs.stores.Kept.{Opened, text_of};
ghost use Rattle.sf_base.specs.Kinds.{bounds_of};
ghost use Rattle.sf_float_read.specs.item.Tests.{is_float};
ghost use Rattle.sf_format.specs.declared.directive.Conversion.{Conversion};
ghost use Rattle.sf_format.specs.declared.directive.Directive.{Directive};
ghost use Rattle.sf_format.specs.declared.directive.Directive.TheVariants as directive;
ghost use Rattle.sf_format.specs.declared.directive.Lead.{Lead};
ghost use Rattle.sf_format.specs.declared.directive.Lead.TheVariants.{Any};
ghost use Rattle.sf_format.specs.Leads.{as_in_c, is_strict_lead};
ghost use Rattle.sf_format.specs.declared.directive.Shape.TheVariants.{Chars, Float, Int, Text};
ghost use Rattle.sf_format.specs.declared.layout.Way.TheVariants as ways;
ghost use Rattle.sf_format.specs.Layout.{most_of, row_of};
ghost use Rattle.sf_format.specs.Proper.{IsProper, IsProperShape};
ghost use Rattle.sf_item.specs.ColumnScans as columns;
ghost use Rattle.sf_item.specs.ColumnScans.{HasTakenColumn};
ghost use Rattle.sf_item.specs.Scan.{HasLeft};
ghost use Rattle.sf_item.specs.Taking.{CanTake, HasTaken, conversion_of, left_of};
ghost use Rattle.sf_item.specs.Tests.{can_take};
ghost use Rattle.sf_item.specs.Wholes.{EndsWithin, ItemWithin, led_by};
ghost use Rattle.sf_report.specs.Steps.{StepEnd};
ghost use Rattle.sf_run.specs.declared.directive.Phase.TheVariants as phase;
ghost use Rattle.sf_run.specs.declared.directive.Finished.TheVariants as finish;
ghost use Rattle.sf_report.specs.Machine.{Stage, Skipping, Item, shape_skips, is_full, item_end, passed_end};
ghost use Rattle.sf_report.specs.Machine.{column_end, count_end, finished, finished_by};
ghost use Rattle.sf_run.specs.Texts.{IsSound, closing_text, is_column, is_count, is_cut, opened_for, opened_slot};
ghost use Rattle.sf_run.specs.Texts.{slot_of};
ghost use Rattle.sf_run.specs.Texts.{IsNextSlot, text_begun, text_slot};
ghost use Rattle.sf_run.specs.Holding.{FallsBy, left_before};
ghost use Rattle.sf_run.specs.Phases.{ShowsItem, Shows, CanAll, IsNumberGiven, end_of, is_failing, is_memory_failure};
ghost use Rattle.sf_run.specs.Phases.{is_in_column, stage_of};
ghost use Rattle.sf_run.specs.Phases.{is_missing, or_missing, passed_number, slot_closed, slot_given, slot_in};
ghost use Rattle.sf_run.specs.Pieces.{Answers, EndsAt, EndsAtOnce, EndsWithAll, IsEnd, IsEndIn, IsEndOf, IsNumberRow};
ghost use Rattle.sf_run.specs.Pieces.{IsSetItem, IsTextRow, StaysAt, Suits, run_of};
ghost use Rattle.sf_run.specs.Quick.{IsSure};
ghost use Rattle.sf_run.specs.Stopping.{is_memory_status};

use crate::number::{decimal_real, number_of};
use sf_base::{Kind, Number, Real, digit_value, is_space, space_run, trimmed_end};
use sf_float_read::numeral_within;
use sf_format::{
    Base, Conversion, Directive, Lead, Literal, Numeral, Opener, Row, ScanFormat, Shape,
};
use sf_item::{
    ColumnScan, ItemEnd, ItemScan, WholeInteger, characters_item, decimal_within, hex_within,
    members_item, radices_of, text_item, unprefixed_within, until_item, whole_decimal, whole_hex,
    whole_unprefixed,
};
use sf_report::Status;

/// How far a directive has come that waits for more.
#[derive(Clone, Copy)]
pub(crate) enum Phase<'f> {
    /// It took nothing, or white space alone.
    Skipping,
    /// It took bytes of an item that is not stored as it stands.
    Item(ItemScan<'f>),
    /// It took bytes of an item that is the text of this slot, or of its float.
    Text {
        slot: u8,
        scan: ItemScan<'f>,
    },
    /// It took bytes of a column. Once its text has begun, that is the text of this slot, or of its float.
    Column {
        slot: Option<u8>,
        scan: ColumnScan<'f>,
    },
}

impl<'f> Phase<'f> {
    ghost use Rattle.sf_run.specs.Phases.{slot_in};

    /// The slot of the text under way.
    #[inline(always)]
    pub(crate) fn slot(&self) -> Option<u8>
        ensures { result ≡ slot_in self.now }
    {
        match *self {
            Phase::Skipping | Phase::Item(_) => None,
            Phase::Text { slot, .. } => Some(slot),
            Phase::Column { slot, .. } => slot,
        }
    }
}

/// How a directive ended.
#[derive(Clone, Copy)]
pub(crate) enum Finished {
    Passes,
    /// The slot is given a number.
    Stores {
        slot: u8,
        kind: Kind,
        negative: bool,
        magnitude: u64,
    },
    /// The slot is given the opened text.
    Closes {
        slot: u8,
    },
    /// The slot is given the float of the kind that the opened text gives, where that is in range.
    Reads {
        slot: u8,
        kind: Kind,
    },
    /// The item is missing, and may be.
    Misses,
    Fails(Status),
}

/// What a directive takes of a piece, and whether it then waits for more or ends.
#[derive(Clone, Copy)]
pub(crate) struct Run<'f> {
    /// The bytes before those of an item.
    pub(crate) before: usize,
    /// The bytes of an item.
    pub(crate) item: usize,
    /// How far it has come with them.
    pub(crate) phase: Phase<'f>,
    /// How it ends there, whatever follows. None: it has used the piece up, and waits for more.
    pub(crate) ends: Option<Finished>,
}

/// How a directive that took nothing yet ends within a piece, whatever follows that.
#[derive(Clone, Copy)]
pub(crate) struct Ended {
    /// The bytes before those of an item.
    pub(crate) before: usize,
    /// The bytes of an item.
    pub(crate) item: usize,
    pub(crate) finished: Finished,
}

/// A directive that took nothing yet, and ends so within a piece, after it took bytes that are no part of its item too.
#[derive(Clone, Copy)]
pub(crate) struct EndedColumn {
    pub(crate) ended: Ended,
    /// The bytes after those of the item.
    pub(crate) after: usize,
}

/// The slot whose text the bytes of the item are, as they stand or while a float is read, if there is one.
#[inline(always)]
pub(crate) fn text_slot(conversion: &Conversion) -> Option<u8>
    ensures { result ≡ text_slot (directive.Conv conversion.now) }
{
    match conversion.shape {
        Shape::Int(_) | Shape::Count => None,
        Shape::Text(_) | Shape::Set(_) | Shape::Chars | Shape::Float(_) => conversion.slot,
    }
}

/// Whether it is the shape of `n`.
#[inline(always)]
pub(crate) fn is_count(shape: &Shape) -> bool
    ensures { result ≡ is_count shape.now }
{
    matches!(shape, Shape::Count)
}

/// Whether white space is skipped before the item.
#[inline(always)]
fn skips_space(shape: &Shape) -> bool
    ensures { result ≡ shape_skips shape.now }
{
    match shape {
        Shape::Int(numeral) => !numeral.lead.is_strict(),
        Shape::Text(lead) | Shape::Float(lead) => !lead.is_strict(),
        Shape::Set(_) | Shape::Chars | Shape::Count => false,
    }
}

/// How far a directive has come with which the text of this slot begins.
pub(crate) fn opened_phase<'f>(conversion: &'f Conversion, phase: Phase<'f>, slot: u8) -> Phase<'f>
    requires none { slot_in phase ≡ None }
    requires own { text_slot (directive.Conv conversion.now) ≡ Some slot }
    ensures slot { slot_in result ≡ Some slot }
    ensures left { left_before (directive.Conv conversion.now) result
        ≡ left_before (directive.Conv conversion.now) phase.entry }
{
    match phase {
        Phase::Column { scan, .. } => Phase::Column {
            slot: Some(slot),
            scan,
        },
        _ => Phase::Text {
            slot,
            scan: ItemScan::start(conversion),
        },
    }
}

/// How far a directive has come that took bytes of its item; `slot` is that of its text.
fn item_phase<'f>(slot: Option<u8>, scan: ItemScan<'f>) -> Phase<'f>
    ensures shows { (d : Directive) (q : Stage) → ShowsItem d slot scan.entry q → Shows d result q }
    ensures slot { slot_in result ≡ slot }
    ensures shown { (d : Directive) (q : Stage) → Shows d result q → ShowsItem d slot scan.entry q }
    ensures run { (n : Option ℕ) (k : ℕ) → HasLeft n (left_of scan.entry) k → FallsBy n result k }
    ensures item { is_in_column result ≡ false }
{
    match slot {
        None => Phase::Item(scan),
        Some(slot) => Phase::Text { slot, scan },
    }
}

/// Whether the byte is no white space. Nearly all such bytes stand after the space, so that one test is enough.
#[inline(always)]
fn is_ink(b: u8) -> bool
    ensures { result ≡ not (is_white b) }
{
    b > b' ' || !is_space(b)
}

/// How many bytes of white space the piece begins with, the first of which is some.
#[inline(always)]
fn spaces(piece: &[u8]) -> usize
    requires some { 0 < length piece.now }
    requires first { is_white (get_or piece.now 0 0) ≡ true }
    ensures within { result ≤ length piece.now }
    ensures white { (k : ℕ) → k < result → is_white (get_or piece.now k 0) ≡ true }
    ensures next { result < length piece.now → is_white (get_or piece.now result 0) ≡ false }
{
    match piece.get(1) {
        Some(b) if is_ink(*b) => 1,
        _ => space_run(piece),
    }
}

/// How many bytes of white space the piece begins with.
#[inline(always)]
pub(crate) fn space_before(piece: &[u8]) -> usize
    ensures within { result ≤ length piece.now }
    ensures white { (k : ℕ) → k < result → is_white (get_or piece.now k 0) ≡ true }
    ensures next { result < length piece.now → is_white (get_or piece.now result 0) ≡ false }
{
    match piece.first() {
        Some(b) if !is_ink(*b) => spaces(piece),
        _ => 0,
    }
}

/// How many bytes a conversion of the shape skips at the front of the piece.
#[inline(always)]
pub(crate) fn skipped(shape: &Shape, piece: &[u8]) -> usize
    ensures within { result ≤ length piece.now }
    ensures white { (k : ℕ) → k < result → (shape_skips shape.now && is_white (get_or piece.now k 0)) ≡ true }
    ensures next { result < length piece.now → (shape_skips shape.now && is_white (get_or piece.now result 0)) ≡ false }
{
    if skips_space(shape) {
        space_before(piece)
    } else {
        0
    }
}

/// A conversion that matched a number; None where its kind doesn't hold it.
#[inline(always)]
pub(crate) fn finish_number(conversion: &Conversion, number: Option<Number>) -> Finished
    ensures end { (text : List ℕ) (n : Option ℤ) → option_map datum_of_number number
        ≡ option_map (NumberOf conversion.now.kind) n
        → end_of text result ≡ passed_number conversion.now conversion.now.slot n }
    ensures closes { slot_closed result ≡ None }
    ensures given { is_failing result ≡ false → slot_given result ≡ conversion.now.slot }
    ensures number { IsNumberGiven result }
    ensures memory { is_memory_failure result ≡ false }
{
    match (conversion.slot, number) {
        (None, _) => Finished::Passes,
        (Some(_), None) => Finished::Fails(Status::OutOfRange),
        (Some(slot), Some(number)) => Finished::Stores {
            slot,
            kind: number.kind,
            negative: number.negative,
            magnitude: number.magnitude,
        },
    }
}

/// A matching item that is no integer's and is not stored; only a suppressed conversion has such a one.
fn finish_matched(slot: Option<u8>) -> Finished
    ensures end { (text : List ℕ) → slot ≡ None → end_of text result ≡ StepEnd.Passes }
    ensures closes { slot_closed result ≡ None }
    ensures given { is_failing result ≡ false → slot_given result ≡ slot }
    ensures number { IsNumberGiven result }
    ensures memory { is_memory_failure result ≡ false }
{
    match slot {
        None => Finished::Passes,
        Some(_) => Finished::Fails(Status::MatchingFailure),
    }
}

/// An item that is not stored as it stands.
pub(crate) fn finish_item(conversion: &Conversion, scan: ItemScan<'_>) -> Finished
    ensures end { (text f : List ℕ) → f ≢ [] → conversion.now ≡ conversion_of scan.entry → HasTaken scan.entry f
        → text_slot (directive.Conv conversion.now) ≡ None
        → end_of text result ≡ item_end conversion.now f }
    ensures closes { slot_closed result ≡ None }
    ensures given { is_failing result ≡ false → slot_given result ≡ conversion.now.slot }
    ensures number { IsNumberGiven result }
    ensures memory { is_memory_failure result ≡ false }
{
    match scan.finish() {
        ItemEnd::Matched => finish_matched(conversion.slot),
        ItemEnd::Integer {
            negative,
            magnitude,
            overflowed,
        } => finish_number(
            conversion,
            number_of(conversion.kind, negative, magnitude, overflowed),
        ),
        _ => Finished::Fails(Status::MatchingFailure),
    }
}

/// A matching item that is the text of the slot, or its float.
fn finish_kept(conversion: &Conversion, slot: u8) -> Finished
    ensures end { (f : List ℕ) → text_slot (directive.Conv conversion.now) ≡ Some slot
        → end_of f result ≡ passed_end conversion.now (Some slot) f }
    ensures text { Some slot ≡ slot_closed result }
    ensures given { slot_given result ≡ Some slot }
    ensures number { IsNumberGiven result }
    ensures memory { is_memory_failure result ≡ false }
{
    match conversion.shape {
        Shape::Float(_) => Finished::Reads {
            slot,
            kind: conversion.kind,
        },
        _ => Finished::Closes { slot },
    }
}

/// An item that is the text of the slot, or its float.
pub(crate) fn finish_text(conversion: &Conversion, slot: u8, scan: ItemScan<'_>) -> Finished
    ensures end { (f : List ℕ) → f ≢ [] → HasTaken scan.entry f
        → conversion.now ≡ conversion_of scan.entry
        → text_slot (directive.Conv conversion.now) ≡ Some slot
        → end_of f result ≡ item_end conversion.now f }
    ensures text { is_failing result ≡ false → Some slot ≡ slot_closed result }
    ensures given { is_failing result ≡ false → slot_given result ≡ Some slot }
    ensures number { IsNumberGiven result }
    ensures memory { is_memory_failure result ≡ false }
{
    match scan.finish() {
        ItemEnd::Matched => finish_kept(conversion, slot),
        _ => Finished::Fails(Status::MatchingFailure),
    }
}

/// `n` after so many bytes of the run.
#[inline(always)]
fn finish_count(conversion: &Conversion, used: u32) -> Finished
    ensures end { (text : List ℕ) → end_of text result ≡ count_end conversion.now conversion.now.slot used }
    ensures closes { slot_closed result ≡ None }
    ensures given { is_failing result ≡ false → slot_given result ≡ conversion.now.slot }
    ensures number { IsNumberGiven result }
    ensures memory { is_memory_failure result ≡ false }
{
    finish_number(
        conversion,
        number_of(conversion.kind, false, u64::from(used), false),
    )
}

/// An item that was taken, one byte at least; `slot` is that of its text.
fn finish_taken(conversion: &Conversion, slot: Option<u8>, scan: ItemScan<'_>) -> Finished
    requires { IfSome slot (λ n. text_slot (directive.Conv conversion.now) ≡ Some n) }
    ensures end { (f : List ℕ) → f ≢ [] → conversion.now ≡ conversion_of scan.entry → HasTaken scan.entry f
        → text_slot (directive.Conv conversion.now) ≡ slot
        → end_of f result ≡ item_end conversion.now f }
    ensures text { is_failing result ≡ false → slot ≡ slot_closed result }
    ensures given { is_failing result ≡ false → slot_given result ≡ conversion.now.slot }
    ensures number { IsNumberGiven result }
    ensures memory { is_memory_failure result ≡ false }
{
    match slot {
        Some(slot) => finish_text(conversion, slot, scan),
        None => finish_item(conversion, scan),
    }
}

/// A conversion of which nothing was taken; `status` is how it fails where its item may not be missing.
#[inline(always)]
fn finish_nothing(conversion: &Conversion, status: Status) -> Finished
    ensures end { (text : List ℕ) → end_of text result
        ≡ (if conversion.now.optional then StepEnd.Misses else StepEnd.Fails status) }
    ensures closes { slot_closed result ≡ None }
    ensures given { is_failing result ≡ false → is_missing result ≡ false → slot_given result ≡ conversion.now.slot }
    ensures number { IsNumberGiven result }
    ensures memory { is_memory_status status ≡ false → is_memory_failure result ≡ false }
{
    if conversion.optional {
        Finished::Misses
    } else {
        Finished::Fails(status)
    }
}

/// A column whose text has begun, which is that of the slot, or of its float.
fn finish_column_text(conversion: &Conversion, slot: u8, scan: &ColumnScan<'_>) -> Finished
    requires { text_slot (directive.Conv conversion.now) ≡ Some slot }
    ensures end { (f : List ℕ) → conversion.now ≡ columns.conversion_of scan.now → conversion.now.column ≡ true
        → HasTakenColumn scan.now f
        → opened_slot (text_begun (text_slot (directive.Conv conversion.now)) (trimmed_front f)) ≡ Some slot
        → end_of (closing_text (directive.Conv conversion.now) (trimmed_front f)) result ≡ column_end conversion.now f }
    ensures text { is_failing result ≡ false → Some slot ≡ slot_closed result }
    ensures given { is_failing result ≡ false → slot_given result ≡ conversion.now.slot }
    ensures number { IsNumberGiven result }
    ensures memory { is_memory_failure result ≡ false }
{
    match scan.finish() {
        ItemEnd::Matched => finish_kept(conversion, slot),
        _ => Finished::Fails(Status::MatchingFailure),
    }
}

/// A column that is white space alone, or whose text is not stored. White space alone ends as if a byte stood there
/// that begins no item.
fn finish_column_item(conversion: &Conversion, scan: &ColumnScan<'_>) -> Finished
    ensures end { (text f : List ℕ) → conversion.now ≡ columns.conversion_of scan.now → HasTakenColumn scan.now f
        → opened_slot (text_begun (text_slot (directive.Conv conversion.now)) (trimmed_front f)) ≡ None
        → end_of text result ≡ column_end conversion.now f }
    ensures closes { slot_closed result ≡ None }
    ensures given { is_failing result ≡ false → is_missing result ≡ false → slot_given result ≡ conversion.now.slot }
    ensures number { IsNumberGiven result }
    ensures memory { is_memory_failure result ≡ false }
{
    match scan.finish() {
        ItemEnd::Empty => finish_nothing(conversion, Status::MatchingFailure),
        ItemEnd::Unmatched => Finished::Fails(Status::MatchingFailure),
        ItemEnd::Matched => finish_matched(conversion.slot),
        ItemEnd::Integer {
            negative,
            magnitude,
            overflowed,
        } => finish_number(
            conversion,
            number_of(conversion.kind, negative, magnitude, overflowed),
        ),
    }
}

/// A column that has ended, of which one byte at least was taken; `slot` is that of its text, where that has begun.
fn finish_column(conversion: &Conversion, slot: Option<u8>, scan: &ColumnScan<'_>) -> Finished
    requires { IfSome slot (λ n. text_slot (directive.Conv conversion.now) ≡ Some n) }
    ensures end { (f : List ℕ) → conversion.now ≡ columns.conversion_of scan.now → conversion.now.column ≡ true
        → HasTakenColumn scan.now f
        → opened_slot (text_begun (text_slot (directive.Conv conversion.now)) (trimmed_front f)) ≡ slot
        → end_of (closing_text (directive.Conv conversion.now) (trimmed_front f)) result ≡ column_end conversion.now f }
    ensures text { is_failing result ≡ false → slot ≡ slot_closed result }
    ensures given { is_failing result ≡ false → is_missing result ≡ false → slot_given result ≡ conversion.now.slot }
    ensures number { IsNumberGiven result }
    ensures memory { is_memory_failure result ≡ false }
{
    match slot {
        Some(slot) => finish_column_text(conversion, slot, scan),
        None => finish_column_item(conversion, scan),
    }
}

/// How a conversion ends where the input ends, so many bytes into the run.
fn finish_conversion(conversion: &Conversion, phase: Phase<'_>, used: u32) -> Finished
    requires { IfSome (slot_in phase) (λ slot. text_slot (directive.Conv conversion.now) ≡ Some slot) }
    ensures end { (q : Stage) (opened : Option Opened) → Shows (directive.Conv conversion.now) phase.entry q
        → opened ≡ opened_for (directive.Conv conversion.now) q
        → end_of (closing_text (directive.Conv conversion.now) (text_of opened)) result
        ≡ finished_by conversion.now.column conversion.now q used false }
    ensures is { IsEnd (directive.Conv conversion.now) phase.entry result }
{
    match phase {
        Phase::Skipping if is_count(&conversion.shape) && !conversion.column => {
            finish_count(conversion, used)
        }
        Phase::Skipping => finish_nothing(conversion, Status::InputFailure),
        Phase::Item(scan) => finish_item(conversion, scan),
        Phase::Text { slot, scan } => finish_text(conversion, slot, scan),
        Phase::Column { slot, scan } => finish_column(conversion, slot, &scan),
    }
}

/// How the directive ends, which waits, where the input ends.
pub(crate) fn finish(directive: &Directive, phase: Phase<'_>, used: u32) -> Finished
    requires { IfSome (slot_in phase) (λ slot. text_slot directive.now ≡ Some slot) }
    ensures end { (q : Stage) (opened : Option Opened) → Shows directive.now phase.entry q
        → opened ≡ opened_for directive.now q
        → end_of (closing_text directive.now (text_of opened)) result ≡ finished directive.now q used false }
    ensures is { IsEnd directive.now phase.entry result }
{
    match directive {
        Directive::Space => Finished::Passes,
        Directive::Byte(_) | Directive::Percent => Finished::Fails(Status::InputFailure),
        Directive::Conv(conversion) => finish_conversion(conversion, phase, used),
        Directive::Opens(_) => Finished::Misses,
    }
}

/// Whether the directive takes a column without `!`, which gives its text without the white space at its end.
#[inline(always)]
pub(crate) fn is_cut(directive: &Directive) -> bool
    ensures { result ≡ is_cut directive.now }
{
    match directive {
        Directive::Conv(conversion) => conversion.column && !conversion.shape.is_strict(),
        _ => false,
    }
}

/// The text that the directive gives of the one under way.
#[inline(always)]
pub(crate) fn closing_text<'t>(directive: &Directive, text: &'t [u8]) -> &'t [u8]
    ensures { result.now ≡ closing_text directive.now text.now }
{
    if is_cut(directive) {
        trimmed_end(text)
    } else {
        text
    }
}

/// The piece is used up, and no item has begun.
#[inline(always)]
fn waits<'f>(before: usize) -> Run<'f>
    ensures { result ≡ record { before = before; item = 0; phase = phase.Skipping; ends = None } }
{
    Run {
        before,
        item: 0,
        phase: Phase::Skipping,
        ends: None,
    }
}

/// The directive ends so after so many bytes, none of them of a text.
#[inline(always)]
fn ends<'f>(before: usize, item: usize, finished: Finished) -> Run<'f>
    ensures { result ≡ record { before = before; item = item; phase = phase.Skipping; ends = Some finished } }
{
    Run {
        before,
        item,
        phase: Phase::Skipping,
        ends: Some(finished),
    }
}

/// White space.
#[inline(always)]
fn run_space<'f>(piece: &[u8]) -> Run<'f>
    ensures answers { (n : ℕ) → Answers directive.Space Skipping n piece.now result }
    ensures suits { Suits directive.Space phase.Skipping piece.now result }
    ensures phase { result.phase ≡ phase.Skipping }
{
    let space = space_before(piece);
    if space < piece.len() {
        ends(space, 0, Finished::Passes)
    } else {
        waits(space)
    }
}

/// The byte that is due.
#[inline(always)]
fn run_byte<'f>(due: u8, piece: &[u8]) -> Run<'f>
    ensures answers { (n : ℕ) → Answers (directive.Byte due) Skipping n piece.now result }
    ensures percent { due ≡ 37 → (0 < length piece.now → is_white (get_or piece.now 0 0) ≡ false) → (n : ℕ)
        → Answers directive.Percent Skipping n piece.now result }
    ensures suits { Suits (directive.Byte due) phase.Skipping piece.now result }
    ensures suits_percent { Suits directive.Percent phase.Skipping piece.now result }
    ensures phase { result.phase ≡ phase.Skipping }
{
    match piece.first() {
        None => waits(0),
        Some(b) if *b == due => ends(1, 0, Finished::Passes),
        Some(_) => ends(0, 0, Finished::Fails(Status::MatchingFailure)),
    }
}

/// Whether the item ends after so many bytes of the piece, which it took.
fn is_over(scan: &ItemScan<'_>, item: usize, piece: &[u8]) -> bool
    ensures over { (f : List ℕ) → IsProper (directive.Conv (conversion_of scan.now))
        → (conversion_of scan.now).column ≡ false → HasTaken scan.now (f ++ take item piece.now)
        → (item < length piece.now → CanTake (conversion_of scan.now) (f ++ take (item + 1) piece.now) → ⊥)
        → result ≡ true
        → StaysAt (directive.Conv (conversion_of scan.now)) (Item (f ++ take item piece.now)) (drop item piece.now) }
    ensures all { result ≡ false → length piece.now ≤ item }
    ensures more { (d : Directive) (slot : Option ℕ) (q : Stage) → IsProper d → ShowsItem d slot scan.now q
        → result ≡ false → is_full d q ≡ false }
{
    item < piece.len() || scan.is_full()
}

/// Takes bytes of the piece as long as the item goes on with them; `slot` is that of its text.
fn go_on<'f>(
    conversion: &'f Conversion,
    slot: Option<u8>,
    mut scan: ItemScan<'f>,
    piece: &[u8],
) -> Run<'f>
    requires { IfSome slot (λ n. text_slot (directive.Conv conversion.now) ≡ Some n) }
    ensures before { result.before ≡ 0 }
    ensures within { result.item ≤ length piece.now }
    ensures can { (f : List ℕ) → IsProperShape (conversion_of scan.entry).shape → HasTaken scan.entry f
        → CanAll (conversion_of scan.entry) f (take result.item piece.now) }
    ensures stops { (f : List ℕ) → HasTaken scan.entry f → result.item < length piece.now
        → CanTake (conversion_of scan.entry) (f ++ take (result.item + 1) piece.now) → ⊥ }
    ensures shows { (d : Directive) (f : List ℕ) → d ≡ directive.Conv (conversion_of scan.entry) → text_slot d ≡ slot
        → is_column d ≡ false → HasTaken scan.entry f
        → f ++ take result.item piece.now ≢ [] → Shows d result.phase (Item (f ++ take result.item piece.now)) }
    ensures waits { result.ends ≡ None → result.item ≡ length piece.now }
    ensures more { result.ends ≡ None → (d : Directive) (q : Stage) → IsProper d → Shows d result.phase q
        → is_full d q ≡ false }
    ensures ends { (f : List ℕ) → IsProper (directive.Conv conversion.now) → conversion.now ≡ conversion_of scan.entry
        → conversion.now.column ≡ false → HasTaken scan.entry f
        → text_slot (directive.Conv conversion.now) ≡ slot → f ++ take result.item piece.now ≢ []
        → IfSome result.ends (EndsAt (directive.Conv conversion.now) (f ++ take result.item piece.now)
        (drop result.item piece.now)) }
    ensures slot { slot_in result.phase ≡ slot }
    ensures item { is_in_column result.phase ≡ false }
    ensures left { FallsBy (left_of scan.entry) result.phase result.item }
    ensures is { IfSome result.ends (IsEnd (directive.Conv conversion.now) result.phase) }
{
    let item = scan.take_run(piece);
    let phase = item_phase(slot, scan);
    if !is_over(&scan, item, piece) {
        return Run {
            before: 0,
            item,
            phase,
            ends: None,
        };
    }
    Run {
        before: 0,
        item,
        phase,
        ends: Some(finish_taken(conversion, slot, scan)),
    }
}

/// The integer of the base, without `!`, that the piece begins with, where there is a quick way to read it and a byte
/// of the piece follows.
#[inline(always)]
fn whole_integer(base: Base, width: Option<u16>, piece: &[u8]) -> Option<WholeInteger>
    ensures { IfSome result (EndsWithin (as_in_c base) width piece.now) }
{
    match base {
        Base::Dec => whole_decimal(width, piece),
        Base::Hex => whole_hex(width, piece),
        _ => whole_unprefixed(base, width, piece),
    }
}

/// How the item of a conversion of this base ends, whose first byte is that of the piece, where it is read as a whole.
#[inline(always)]
fn whole_number(conversion: &Conversion, base: Base, piece: &[u8]) -> Option<Ended>
    requires plain { conversion.now.column ≡ false }
    requires shape { conversion.now.shape ≡ Int (as_in_c base) }
    ensures answers { IsProper (directive.Conv conversion.now)
        → (0 < length piece.now → (shape_skips conversion.now.shape && is_white (get_or piece.now 0 0)) ≡ false)
        → (n : ℕ)
        → IfSome result (λ e. Answers (directive.Conv conversion.now) Skipping n piece.now (run_of e)) }
    ensures fits { IfSome result (IsEndIn (directive.Conv conversion.now) piece.now) }
    ensures before { IfSome result (λ e. e.before ≡ 0) }
    ensures closes { IfSome result (λ e. slot_closed e.finished ≡ None) }
{
    let whole = whole_integer(base, conversion.width, piece)?;
    let number = number_of(conversion.kind, whole.negative, whole.magnitude, false);
    Some(Ended {
        before: 0,
        item: whole.bytes,
        finished: finish_number(conversion, number),
    })
}

/// As `whole_number`, of a conversion of any shape: an item of no integer isn't read so.
#[inline(always)]
fn number_within(conversion: &Conversion, piece: &[u8]) -> Option<Ended>
    requires { conversion.now.column ≡ false }
    ensures answers { IsProper (directive.Conv conversion.now)
        → (0 < length piece.now → (shape_skips conversion.now.shape && is_white (get_or piece.now 0 0)) ≡ false)
        → (n : ℕ)
        → IfSome result (λ e. Answers (directive.Conv conversion.now) Skipping n piece.now (run_of e)) }
    ensures fits { IfSome result (IsEndIn (directive.Conv conversion.now) piece.now) }
    ensures before { IfSome result (λ e. e.before ≡ 0) }
    ensures closes { IfSome result (λ e. slot_closed e.finished ≡ None) }
{
    match &conversion.shape {
        Shape::Int(
            Numeral {
                base,
                lead: Lead::Any,
            },
        ) => whole_number(conversion, *base, piece),
        _ => None,
    }
}

/// The item of a conversion, whose first byte is that of the piece.
#[inline(always)]
fn begin_item<'f>(conversion: &'f Conversion, piece: &[u8]) -> Run<'f>
    requires plain { conversion.now.column ≡ false }
    requires item { is_count conversion.now.shape ≡ false }
    ensures answers { IsProper (directive.Conv conversion.now)
        → (0 < length piece.now → (shape_skips conversion.now.shape && is_white (get_or piece.now 0 0)) ≡ false)
        → (n : ℕ)
        → Answers (directive.Conv conversion.now) Skipping n piece.now result }
    ensures suits { Suits (directive.Conv conversion.now) phase.Skipping piece.now result }
{
    if piece.is_empty() {
        return waits(0);
    }
    if let Some(ended) = number_within(conversion, piece) {
        return ends(ended.before, ended.item, ended.finished);
    }
    let run = go_on(
        conversion,
        text_slot(conversion),
        ItemScan::start(conversion),
        piece,
    );
    if run.item == 0 {
        return ends(0, 0, finish_nothing(conversion, Status::MatchingFailure));
    }
    run
}

/// As the answer for what follows so many bytes, which are skipped.
#[inline(always)]
fn behind<'f>(before: usize, run: Run<'f>) -> Run<'f>
    requires { before + run.before < 2 ^ 64 }
    ensures { result ≡ record run.entry { before = before + run.entry.before } }
{
    Run {
        before: before + run.before,
        item: run.item,
        phase: run.phase,
        ends: run.ends,
    }
}

/// The slot of the text of a column after so many more bytes of it; before them it is this one.
fn slot_after(conversion: &Conversion, slot: Option<u8>, text: usize) -> Option<u8>
    requires { IfSome slot (λ n. text_slot (directive.Conv conversion.now) ≡ Some n) }
    ensures same { text ≡ 0 → result ≡ slot }
    ensures begun { text ≢ 0 → result ≡ text_slot (directive.Conv conversion.now) }
    ensures own { IfSome result (λ n. text_slot (directive.Conv conversion.now) ≡ Some n) }
    ensures next { IsNextSlot (text_slot (directive.Conv conversion.now)) slot result }
{
    if text == 0 {
        slot
    } else {
        text_slot(conversion)
    }
}

/// Takes as many bytes of the piece as the column has left; `slot` is that of its text, where that has begun. It ends
/// where it has no byte left, whatever follows.
fn run_column<'f>(
    conversion: &'f Conversion,
    slot: Option<u8>,
    mut scan: ColumnScan<'f>,
    piece: &[u8],
) -> Run<'f>
    requires { IfSome slot (λ n. text_slot (directive.Conv conversion.now) ≡ Some n) }
    ensures answers { (f : List ℕ) → IsProper (directive.Conv conversion.now)
        → conversion.now ≡ columns.conversion_of scan.entry → conversion.now.column ≡ true
        → HasTakenColumn scan.entry f → f ++ piece.now ≢ []
        → opened_slot (opened_for (directive.Conv conversion.now) (stage_of f)) ≡ slot → (n : ℕ)
        → Answers (directive.Conv conversion.now) (stage_of f) n piece.now result }
    ensures within { result.before + result.item ≤ length piece.now }
    ensures all { result.ends ≡ None → result.before + result.item ≡ length piece.now }
    ensures more { result.ends ≡ None → (q : Stage) → Shows (directive.Conv conversion.now) result.phase q
        → is_full (directive.Conv conversion.now) q ≡ false }
    ensures slot { IsNextSlot (text_slot (directive.Conv conversion.now)) slot (slot_in result.phase) }
    ensures column { is_in_column result.phase ≡ true }
    ensures left { FallsBy (Some (columns.column_left scan.entry)) result.phase result.item }
    ensures end { IfSome result.ends (IsEnd (directive.Conv conversion.now) result.phase) }
{
    let taken = scan.take_run(piece);
    let slot = slot_after(conversion, slot, taken.text);
    let phase = Phase::Column { slot, scan };
    if !scan.is_full() {
        return Run {
            before: taken.before,
            item: taken.text,
            phase,
            ends: None,
        };
    }
    Run {
        before: taken.before,
        item: taken.text,
        phase,
        ends: Some(finish_column(conversion, slot, &scan)),
    }
}

/// The column of a conversion that took nothing yet.
fn begin_column<'f>(conversion: &'f Conversion, piece: &[u8]) -> Run<'f>
    requires column { conversion.now.column ≡ true }
    requires item { is_count conversion.now.shape ≡ false }
    ensures answers { IsProper (directive.Conv conversion.now) → (n : ℕ)
        → Answers (directive.Conv conversion.now) Skipping n piece.now result }
    ensures suits { Suits (directive.Conv conversion.now) phase.Skipping piece.now result }
{
    if piece.is_empty() {
        return waits(0);
    }
    run_column(conversion, None, ColumnScan::start(conversion), piece)
}

/// Hands a conversion that took nothing yet the piece, which comes so many bytes into the run.
#[inline(always)]
fn begin<'f>(conversion: &'f Conversion, piece: &[u8], used: u32) -> Run<'f>
    ensures answers { IsSound (directive.Conv conversion.now)
        → Answers (directive.Conv conversion.now) Skipping used piece.now result }
    ensures suits { Suits (directive.Conv conversion.now) phase.Skipping piece.now result }
{
    if is_count(&conversion.shape) {
        return ends(0, 0, finish_count(conversion, used));
    }
    if conversion.column {
        return begin_column(conversion, piece);
    }
    let before = skipped(&conversion.shape, piece);
    let (_, rest) = piece.split_at(before);
    behind(before, begin_item(conversion, rest))
}

/// Hands a conversion, which has come so far, the piece, which comes so many bytes into the run.
#[inline(always)]
fn run_conversion<'f>(
    conversion: &'f Conversion,
    phase: Phase<'f>,
    piece: &[u8],
    used: u32,
) -> Run<'f>
    requires { IfSome (slot_in phase) (λ slot. text_slot (directive.Conv conversion.now) ≡ Some slot) }
    ensures answers { (q : Stage) → IsSound (directive.Conv conversion.now)
        → Shows (directive.Conv conversion.now) phase.entry q
        → Answers (directive.Conv conversion.now) q used piece.now result }
    ensures suits { Suits (directive.Conv conversion.now) phase.entry piece.now result }
{
    match phase {
        Phase::Skipping => begin(conversion, piece, used),
        Phase::Item(scan) => go_on(conversion, None, scan, piece),
        Phase::Text { slot, scan } => go_on(conversion, Some(slot), scan, piece),
        Phase::Column { slot, scan } => run_column(conversion, slot, scan, piece),
    }
}

/// `%%`: white space, and the percent sign after it.
#[inline(always)]
fn run_percent<'f>(piece: &[u8]) -> Run<'f>
    ensures answers { (n : ℕ) → Answers directive.Percent Skipping n piece.now result }
    ensures suits { Suits directive.Percent phase.Skipping piece.now result }
    ensures phase { result.phase ≡ phase.Skipping }
{
    let before = space_before(piece);
    let (_, rest) = piece.split_at(before);
    behind(before, run_byte(b'%', rest))
}

/// The same answer, where the directive is missing if it fails.
fn or_missing<'f>(run: Run<'f>) -> Run<'f>
    ensures { result ≡ record run.entry { ends = option_map or_missing run.entry.ends } }
{
    match run.ends {
        Some(Finished::Fails(_)) => Run {
            before: run.before,
            item: run.item,
            phase: run.phase,
            ends: Some(Finished::Misses),
        },
        _ => run,
    }
}

/// A literal that opens a group: where its byte doesn't stand next, it is missing.
#[inline(never)]
fn run_opener<'f>(opener: Opener, piece: &[u8]) -> Run<'f>
    ensures answers { (n : ℕ) → Answers (directive.Opens opener) Skipping n piece.now result }
    ensures suits { Suits (directive.Opens opener) phase.Skipping piece.now result }
    ensures phase { result.phase ≡ phase.Skipping }
{
    match opener.literal {
        Literal::Byte(due) => or_missing(run_byte(due, piece)),
        Literal::Percent => or_missing(run_percent(piece)),
    }
}

/// Hands the directive, which has come so far, the piece, which comes so many bytes into the run.
#[inline(always)]
pub(crate) fn run_on<'f>(
    directive: &'f Directive,
    phase: Phase<'f>,
    piece: &[u8],
    used: u32,
) -> Run<'f>
    requires { IfSome (slot_in phase) (λ slot. text_slot directive.now ≡ Some slot) }
    ensures answers { (q : Stage) → IsSound directive.now → Shows directive.now phase.entry q
        → Answers directive.now q used piece.now result }
    ensures suits { Suits directive.now phase.entry piece.now result }
{
    match directive {
        Directive::Space => run_space(piece),
        Directive::Byte(due) => run_byte(*due, piece),
        Directive::Percent => run_percent(piece),
        Directive::Conv(conversion) => run_conversion(conversion, phase, piece, used),
        Directive::Opens(opener) => run_opener(*opener, piece),
    }
}

/// How an item ends that is stored as it stands.
#[inline(always)]
fn finish_bytes(slot: Option<u8>) -> Finished
    ensures none { slot ≡ None → result ≡ finish.Passes }
    ensures some { (n : ℕ) → slot ≡ Some n → result ≡ finish.Closes n }
    ensures given { slot_given result ≡ slot }
    ensures number { IsNumberGiven result }
    ensures memory { is_memory_failure result ≡ false }
{
    match slot {
        None => Finished::Passes,
        Some(slot) => Finished::Closes { slot },
    }
}

/// How a conversion with the row ends that matched an integer.
#[inline(always)]
fn finish_by(row: &Row, whole: WholeInteger) -> Finished
    requires { bounds_of row.now.kind ≡ Some (row.now.signed, row.now.greatest) }
    ensures end { (c : Conversion) → c.kind ≡ row.now.kind → c.slot ≡ row.now.slot → (text : List ℕ)
        → end_of text result ≡ passed_number c c.slot (value_of c.kind whole.negative whole.magnitude) }
    ensures closes { slot_closed result ≡ None }
    ensures given { is_failing result ≡ false → slot_given result ≡ row.now.slot }
    ensures number { IsNumberGiven result }
    ensures memory { is_memory_failure result ≡ false }
{
    let Some(slot) = row.slot else {
        return Finished::Passes;
    };
    let number = row
        .kind
        .number_within(row.signed, row.greatest, whole.negative, whole.magnitude);
    match number {
        None => Finished::Fails(Status::OutOfRange),
        Some(number) => Finished::Stores {
            slot,
            kind: number.kind,
            negative: number.negative,
            magnitude: number.magnitude,
        },
    }
}

/// As `whole_integer`, of an integer so written, where its most bytes are known.
#[inline(always)]
fn integer_within(lead: Lead, base: Base, most: usize, piece: &[u8]) -> Option<WholeInteger>
    ensures { (width : Option ℕ) → most ≡ most_of width
        → IfSome result (EndsWithin (led_by lead base) width piece.now) }
{
    match (lead, base) {
        (_, Base::Dec) => decimal_within(lead, most, piece),
        (_, Base::Hex) => hex_within(lead, most, piece),
        (Lead::Any, _) => unprefixed_within(base, most, piece),
        _ => None,
    }
}

/// As `whole_number`, of a conversion of an integer so written with the row.
#[inline(always)]
fn number_by(row: &Row, lead: Lead, base: Base, piece: &[u8]) -> Option<Ended>
    requires { bounds_of row.now.kind ≡ Some (row.now.signed, row.now.greatest) }
    ensures answers { (c : Conversion) → IsNumberRow row.now (led_by lead base) c → IsProper (directive.Conv c)
        → (0 < length piece.now → (shape_skips c.shape && is_white (get_or piece.now 0 0)) ≡ false)
        → (n : ℕ) → IfSome result (λ e. Answers (directive.Conv c) Skipping n piece.now (run_of e)) }
    ensures fits { (c : Conversion) → IsNumberRow row.now (led_by lead base) c
        → IfSome result (IsEndIn (directive.Conv c) piece.now) }
    ensures before { IfSome result (λ e. e.before ≡ 0) }
{
    let whole = integer_within(lead, base, row.width, piece)?;
    let item = whole.bytes;
    Some(Ended {
        before: 0,
        item,
        finished: finish_by(row, whole),
    })
}

/// As `number_by`, of a conversion without `!` that took nothing yet.
#[inline(always)]
pub(crate) fn number_at_once(row: &Row, base: Base, piece: &[u8]) -> Option<Ended>
    requires { bounds_of row.now.kind ≡ Some (row.now.signed, row.now.greatest) }
    ensures { (c : Conversion) → IsNumberRow row.now (as_in_c base) c → (n : ℕ)
        → IfSome result (EndsAtOnce (directive.Conv c) n piece.now) }
{
    let before = space_before(piece);
    let (_, rest) = piece.split_at(before);
    let ended = number_by(row, Lead::Any, base, rest)?;
    Some(Ended {
        before,
        item: ended.item,
        finished: ended.finished,
    })
}

/// As `number_by`, of a conversion with `!` that took nothing yet.
#[inline(always)]
pub(crate) fn strict_number_at_once(
    row: &Row,
    lead: Lead,
    base: Base,
    piece: &[u8],
) -> Option<Ended>
    requires bounds { bounds_of row.now.kind ≡ Some (row.now.signed, row.now.greatest) }
    requires strict { is_strict_lead lead ≡ true }
    ensures { (c : Conversion) → IsNumberRow row.now (led_by lead base) c → (n : ℕ)
        → IfSome result (EndsAtOnce (directive.Conv c) n piece.now) }
{
    number_by(row, lead, base, piece)
}

/// How a conversion with the row ends whose item is stored as it stands, where it is so many bytes at the front of the
/// piece and a byte of the piece follows it.
#[inline(always)]
fn bytes_by(row: &Row, item: Option<usize>, piece: &[u8]) -> Option<Ended>
    ensures answers { (c : Conversion) → IsTextRow row.now c → IfSome item (ItemWithin c.shape c.width piece.now)
        → IsProper (directive.Conv c)
        → (0 < length piece.now → (shape_skips c.shape && is_white (get_or piece.now 0 0)) ≡ false)
        → (n : ℕ) → IfSome result (λ e. Answers (directive.Conv c) Skipping n piece.now (run_of e)) }
    ensures fits { (c : Conversion) → IsTextRow row.now c → IfSome item (ItemWithin c.shape c.width piece.now)
        → IfSome result (IsEndIn (directive.Conv c) piece.now) }
    ensures before { IfSome result (λ e. e.before ≡ 0) }
{
    let _piece = piece;
    let item = item?;
    Some(Ended {
        before: 0,
        item,
        finished: finish_bytes(row.slot),
    })
}

/// How a conversion `s` with the row ends that took nothing yet, where its item is looked at as a whole. Each shape has
/// a function of its own, so that a run asks for the way of a row and not for the shape too.
#[inline(always)]
pub(crate) fn text_at_once(row: &Row, piece: &[u8]) -> Option<Ended>
    ensures { (c : Conversion) → c.shape ≡ Text Any → IsTextRow row.now c → (n : ℕ)
        → IfSome result (EndsAtOnce (directive.Conv c) n piece.now) }
{
    let before = space_before(piece);
    let (_, rest) = piece.split_at(before);
    let ended = bytes_by(row, text_item(row.width, rest), rest)?;
    Some(Ended {
        before,
        item: ended.item,
        finished: ended.finished,
    })
}

/// As `text_at_once`, of a conversion `!s`.
#[inline(always)]
pub(crate) fn strict_text_at_once(row: &Row, piece: &[u8]) -> Option<Ended>
    ensures { (c : Conversion) (lead : Lead) → is_strict_lead lead ≡ true → c.shape ≡ Text lead → IsTextRow row.now c
        → (n : ℕ) → IfSome result (EndsAtOnce (directive.Conv c) n piece.now) }
{
    bytes_by(row, text_item(row.width, piece), piece)
}

/// As `members_item`, of the first of so many directives of a format that are left; None where that is by no set. It
/// looks the directive up itself, so that a run by rows alone doesn't.
#[cold]
#[inline(never)]
fn members_left(format: &ScanFormat, left: usize, most: usize, piece: &[u8]) -> Option<usize>
    requires some { 0 < left }
    requires within { left ≤ length format.now }
    ensures { (d : Directive) → slice_get format.now (length format.now - left) ≡ Some d
        → IfSome result (IsSetItem d most piece.now) }
{
    let directives = format.directives();
    let at = directives.len() - left;
    let Directive::Conv(conversion) = &directives[at] else {
        return None;
    };
    match &conversion.shape {
        Shape::Set(members) => members_item(members, most, piece),
        _ => None,
    }
}

/// As `text_at_once`, of a conversion by a set, which is the first of so many directives of a format that are left.
#[inline(always)]
pub(crate) fn members_at_once(
    row: &Row,
    format: &ScanFormat,
    left: usize,
    piece: &[u8],
) -> Option<Ended>
    requires some { 0 < left }
    requires within { left ≤ length format.now }
    ensures { (d : Directive) → slice_get format.now (length format.now - left) ≡ Some d → row.now ≡ row_of d
        → row.now.way ≡ ways.Members → (n : ℕ) → IfSome result (EndsAtOnce d n piece.now) }
{
    let item = members_left(format, left, row.width, piece)?;
    bytes_by(row, Some(item), piece)
}

/// As `text_at_once`, of a conversion by a set that lacks just one byte, by its row alone.
#[inline(always)]
pub(crate) fn until_at_once(row: &Row, piece: &[u8]) -> Option<Ended>
    ensures { (d : Directive) → row.now ≡ row_of d → row.now.way ≡ ways.Until → (n : ℕ)
        → IfSome result (EndsAtOnce d n piece.now) }
{
    bytes_by(row, until_item(row.due, row.width, piece), piece)
}

/// As `text_at_once`, of a conversion `c`.
#[inline(always)]
pub(crate) fn characters_at_once(row: &Row, piece: &[u8]) -> Option<Ended>
    ensures { (c : Conversion) → c.shape ≡ Chars → IsTextRow row.now c → (n : ℕ)
        → IfSome result (EndsAtOnce (directive.Conv c) n piece.now) }
{
    bytes_by(row, characters_item(row.width, piece), piece)
}

/// How a directive ends that took nothing yet, where it does so within the piece.
#[inline(always)]
fn as_ended(directive: &Directive, run: Run<'_>, piece: &[u8]) -> Option<EndedColumn>
    requires { run.before + run.item ≤ length piece.now }
    ensures is { IfSome result (λ e. IsEndOf directive.now piece.now e run.entry) }
    ensures none { IsNone result → run.entry.ends ≡ None }
{
    let finished = run.ends?;
    let (_, rest) = piece.split_at(run.before);
    let (text, _) = rest.split_at(run.item);
    let item = closing_text(directive, text).len();
    Some(EndedColumn {
        ended: Ended {
            before: run.before,
            item,
            finished,
        },
        after: run.item - item,
    })
}

/// White space that ends within the piece.
#[inline(always)]
pub(crate) fn whole_space(piece: &[u8]) -> Option<Ended>
    ensures { (n : ℕ) → IfSome result (EndsAtOnce directive.Space n piece.now) }
{
    let before = space_before(piece);
    if before == piece.len() {
        return None;
    }
    Some(Ended {
        before,
        item: 0,
        finished: Finished::Passes,
    })
}

/// The byte that a row says is due, where it is the first of the piece: of a literal, or of one that opens a group.
#[inline(always)]
pub(crate) fn byte_at_once(row: &Row, piece: &[u8]) -> Option<Ended>
    ensures { (d : Directive) → row.now ≡ row_of d → row.now.way ≡ ways.Byte
        → (n : ℕ) → IfSome result (EndsAtOnce d n piece.now) }
{
    match piece.first() {
        Some(b) if *b == row.due => Some(Ended {
            before: 1,
            item: 0,
            finished: Finished::Passes,
        }),
        _ => None,
    }
}

/// The byte that is due, or how the directive fails where another byte is the first of the piece.
#[inline(always)]
fn whole_byte(due: u8, piece: &[u8]) -> Option<Ended>
    ensures { (n : ℕ) → IfSome result (EndsAtOnce (directive.Byte due) n piece.now) }
{
    match piece.first() {
        None => None,
        Some(b) if *b == due => Some(Ended {
            before: 1,
            item: 0,
            finished: Finished::Passes,
        }),
        Some(_) => Some(Ended {
            before: 0,
            item: 0,
            finished: Finished::Fails(Status::MatchingFailure),
        }),
    }
}

/// A directive that ends so within a piece and gives the slot a float.
#[derive(Clone, Copy)]
pub(crate) struct ReadReal {
    pub(crate) ended: Ended,
    pub(crate) slot: u8,
    pub(crate) real: Real,
}

/// The slot of a conversion of a float without a width.
#[inline(always)]
fn real_slot(conversion: &Conversion) -> Option<u8>
    ensures shape { IfSome result (λ _. conversion.now.shape ≡ Float Any) }
    ensures width { IfSome result (λ _. conversion.now.width ≡ None) }
    ensures slot { IfSome result (λ slot. conversion.now.slot ≡ Some slot) }
{
    match (&conversion.shape, conversion.width) {
        (Shape::Float(Lead::Any), None) => conversion.slot,
        _ => None,
    }
}

/// A float that is in range, of a conversion without a width whose first byte is that of the piece, where it is a
/// decimal numeral that is read at once.
#[inline(always)]
fn real_by(conversion: &Conversion, piece: &[u8]) -> Option<ReadReal>
    ensures answers { IsSound (directive.Conv conversion.now)
        → (0 < length piece.now → (shape_skips conversion.now.shape && is_white (get_or piece.now 0 0)) ≡ false)
        → (n : ℕ)
        → IfSome result (λ r. Answers (directive.Conv conversion.now) Skipping n piece.now (run_of r.ended)) }
    ensures fits { IfSome result (λ r. IsEndIn (directive.Conv conversion.now) piece.now r.ended) }
    ensures before { IfSome result (λ r. r.ended.before ≡ 0) }
    ensures shape { IfSome result (λ _. conversion.now.shape ≡ Float Any) }
    ensures width { IfSome result (λ _. conversion.now.width ≡ None) }
    ensures slot { IfSome result (λ r. conversion.now.slot ≡ Some r.slot) }
    ensures real { IfSome result (λ r. end_of (take r.ended.item piece.now) r.ended.finished
        ≡ StepEnd.Stores r.slot (RealOf r.real)) }
{
    let slot = real_slot(conversion)?;
    let decimal = numeral_within(piece)?;
    let real = decimal_real(conversion.kind, decimal)?;
    Some(ReadReal {
        ended: Ended {
            before: 0,
            item: decimal.bytes,
            finished: Finished::Reads {
                slot,
                kind: conversion.kind,
            },
        },
        slot,
        real,
    })
}

/// As `real_by`, of any directive that took nothing yet.
#[inline(always)]
pub(crate) fn real_at_once(directive: &Directive, piece: &[u8]) -> Option<ReadReal>
    ensures ends { (n : ℕ) → IfSome result (λ r. EndsAtOnce directive.now n piece.now r.ended) }
    ensures slot { IfSome result (λ r. slot_of directive.now ≡ Some r.slot) }
    ensures real { IfSome result (λ r. end_of (take r.ended.item (drop r.ended.before piece.now)) r.ended.finished
        ≡ StepEnd.Stores r.slot (RealOf r.real)) }
{
    let Directive::Conv(conversion) = directive else {
        return None;
    };
    let _slot = real_slot(conversion)?;
    let before = space_before(piece);
    let (_, rest) = piece.split_at(before);
    let read = real_by(conversion, rest)?;
    Some(ReadReal {
        ended: Ended {
            before,
            item: read.ended.item,
            finished: read.ended.finished,
        },
        slot: read.slot,
        real: read.real,
    })
}

/// Whether the byte is the first of no item of a conversion of the shape, where that is seen at once.
#[inline(always)]
fn begins_none(shape: &Shape, b: u8) -> bool
    ensures none { result ≡ true → (c : Conversion) → c.shape ≡ shape.now → can_take c (b ∷ []) ≡ false }
    ensures item { result ≡ true → is_count shape.now ≡ false }
{
    match shape {
        Shape::Int(numeral) => {
            b != b'+' && b != b'-' && digit_value(b, radices_of(numeral.base).first).is_none()
        }
        Shape::Set(members) => !members.contains(b),
        Shape::Text(_) | Shape::Chars | Shape::Float(_) | Shape::Count => false,
    }
}

/// How a conversion ends, whose first byte is that of the piece, where that is the first of no item.
#[inline(always)]
fn without_item(conversion: &Conversion, piece: &[u8]) -> Option<Ended>
    requires { conversion.now.column ≡ false }
    ensures answers { IsProper (directive.Conv conversion.now)
        → (0 < length piece.now → (shape_skips conversion.now.shape && is_white (get_or piece.now 0 0)) ≡ false)
        → (n : ℕ)
        → IfSome result (λ e. Answers (directive.Conv conversion.now) Skipping n piece.now (run_of e)) }
    ensures fits { IfSome result (IsEndIn (directive.Conv conversion.now) piece.now) }
    ensures before { IfSome result (λ e. e.before ≡ 0) }
{
    let first = piece.first()?;
    if !begins_none(&conversion.shape, *first) {
        return None;
    }
    Some(Ended {
        before: 0,
        item: 0,
        finished: finish_nothing(conversion, Status::MatchingFailure),
    })
}

/// How a directive ends that may be missing: it is, where it fails.
#[inline(always)]
fn missed_if_failed(finished: Finished) -> Finished
    ensures { result ≡ or_missing finished }
{
    match finished {
        Finished::Fails(_) => Finished::Misses,
        _ => finished,
    }
}

/// A literal byte that opens a group, or that it is missing where another byte is the first of the piece.
#[inline(always)]
fn opener_at_once(directive: &Directive, piece: &[u8]) -> Option<Ended>
    ensures { (n : ℕ) → IfSome result (EndsAtOnce directive.now n piece.now) }
{
    let Directive::Opens(opener) = directive else {
        return None;
    };
    let Literal::Byte(due) = opener.literal else {
        return None;
    };
    let ended = whole_byte(due, piece)?;
    Some(Ended {
        before: ended.before,
        item: ended.item,
        finished: missed_if_failed(ended.finished),
    })
}

/// How a directive ends that took nothing yet, where that is seen at once without its row: by a byte, or without an
/// item.
#[inline(always)]
pub(crate) fn seen_at_once(directive: &Directive, piece: &[u8]) -> Option<Ended>
    ensures { (n : ℕ) → IfSome result (EndsAtOnce directive.now n piece.now) }
{
    match directive {
        Directive::Byte(due) => whole_byte(*due, piece),
        Directive::Conv(conversion) => {
            // the shape first, so that one of which nothing is seen at once costs no look at the piece
            if !matches!(conversion.shape, Shape::Int(_) | Shape::Set(_)) || conversion.column {
                return None;
            }
            let before = skipped(&conversion.shape, piece);
            let (_, rest) = piece.split_at(before);
            let ended = without_item(conversion, rest)?;
            Some(Ended {
                before,
                item: ended.item,
                finished: ended.finished,
            })
        }
        Directive::Space | Directive::Percent | Directive::Opens(_) => None,
    }
}

/// A number that is read in neither ten nor sixteen, or whose first digits say in which radix: no row reads it. The
/// directive took nothing yet.
#[inline(always)]
pub(crate) fn rarer_at_once(directive: &Directive, piece: &[u8]) -> Option<Ended>
    ensures { (n : ℕ) → IfSome result (EndsAtOnce directive.now n piece.now) }
{
    let Directive::Conv(conversion) = directive else {
        return None;
    };
    let Shape::Int(numeral) = conversion.shape else {
        return None;
    };
    if matches!(numeral.base, Base::Dec | Base::Hex) || conversion.column {
        return None;
    }
    let before = skipped(&conversion.shape, piece);
    let (_, rest) = piece.split_at(before);
    let ended = number_within(conversion, rest)?;
    Some(Ended {
        before,
        item: ended.item,
        finished: ended.finished,
    })
}

/// How many bytes of white space stand from the place on up to the end of the column that the piece begins with: of
/// `12.5  7` and a width of 6 it is 2 from the place 4 on. None where another byte stands there, or where the column
/// doesn't lie whole in the piece.
#[inline(always)]
fn white_up_to(width: usize, at: usize, piece: &[u8]) -> Option<usize>
    ensures end { IfSome result (λ after. at + after ≡ width) }
    ensures within { IfSome result (λ _. width ≤ length piece.now) }
    ensures white { IfSome result (λ after. (k : ℕ) → k < after → is_white (get_or piece.now (at + k) 0) ≡ true) }
{
    if piece.len() < width || width < at {
        return None;
    }
    let (column, _) = piece.split_at(width);
    let (_, rest) = column.split_at(at);
    if space_before(rest) < rest.len() {
        return None;
    }
    Some(rest.len())
}

/// How a column of a float ends that lies whole in the piece, where its text is a decimal numeral that is read as a
/// whole.
#[inline(always)]
fn float_column(conversion: &Conversion, width: u16, slot: u8, piece: &[u8]) -> Option<EndedColumn>
    requires column { conversion.now.column ≡ true }
    requires shape { conversion.now.shape ≡ Float Any }
    requires width { conversion.now.width ≡ Some width }
    requires slot { conversion.now.slot ≡ Some slot }
    ensures { (n : ℕ) → IfSome result (EndsWithAll (directive.Conv conversion.now) n piece.now) }
{
    let before = space_before(piece);
    let (_, rest) = piece.split_at(before);
    let decimal = numeral_within(rest)?;
    let after = white_up_to(width as usize, before + decimal.bytes, piece)?;
    Some(EndedColumn {
        ended: Ended {
            before,
            item: decimal.bytes,
            finished: Finished::Reads {
                slot,
                kind: conversion.kind,
            },
        },
        after,
    })
}

/// How a column of an integer ends that lies whole in the piece, where its text is an integer that is read as a whole.
#[inline(always)]
fn number_column(
    conversion: &Conversion,
    numeral: Numeral,
    width: u16,
    piece: &[u8],
) -> Option<EndedColumn>
    requires column { conversion.now.column ≡ true }
    requires shape { conversion.now.shape ≡ Int numeral }
    requires width { conversion.now.width ≡ Some width }
    ensures { (n : ℕ) → IfSome result (EndsWithAll (directive.Conv conversion.now) n piece.now) }
{
    let width = width as usize;
    let before = skipped(&conversion.shape, piece);
    if width < before {
        return None;
    }
    let (_, rest) = piece.split_at(before);
    let whole = integer_within(numeral.lead, numeral.base, width - before, rest)?;
    let after = white_up_to(width, before + whole.bytes, piece)?;
    if numeral.lead.is_strict() && after > 0 {
        return None;
    }
    let number = number_of(conversion.kind, whole.negative, whole.magnitude, false);
    Some(EndedColumn {
        ended: Ended {
            before,
            item: whole.bytes,
            finished: finish_number(conversion, number),
        },
        after,
    })
}

/// As `number_column`, of a column of a text without `!`. None, too, where it is white space alone.
#[inline(always)]
fn text_column(conversion: &Conversion, width: u16, piece: &[u8]) -> Option<EndedColumn>
    requires column { conversion.now.column ≡ true }
    requires shape { conversion.now.shape ≡ Text Any }
    requires width { conversion.now.width ≡ Some width }
    ensures { (n : ℕ) → IfSome result (EndsWithAll (directive.Conv conversion.now) n piece.now) }
{
    let width = width as usize;
    if piece.len() < width {
        return None;
    }
    let (column, _) = piece.split_at(width);
    let before = space_before(column);
    if before == width {
        return None;
    }
    let (_, rest) = column.split_at(before);
    let item = trimmed_end(rest).len();
    Some(EndedColumn {
        ended: Ended {
            before,
            item,
            finished: finish_bytes(conversion.slot),
        },
        after: rest.len() - item,
    })
}

/// How a directive that takes a column ends, where that lies whole in the piece and its end is seen at once.
#[inline(always)]
fn column_at_once(directive: &Directive, piece: &[u8]) -> Option<EndedColumn>
    ensures { (n : ℕ) → IfSome result (EndsWithAll directive.now n piece.now) }
{
    let Directive::Conv(conversion) = directive else {
        return None;
    };
    if !conversion.column {
        return None;
    }
    let width = conversion.width?;
    match &conversion.shape {
        Shape::Int(numeral) => number_column(conversion, *numeral, width, piece),
        Shape::Text(Lead::Any) => text_column(conversion, width, piece),
        Shape::Float(Lead::Any) => float_column(conversion, width, conversion.slot?, piece),
        _ => None,
    }
}

/// As `ended_within`, whichever directive it is. It stands apart, since what it makes on the way is large.
#[cold]
#[inline(never)]
pub(crate) fn ended_by_run(directive: &Directive, piece: &[u8], used: u32) -> Option<EndedColumn>
    ensures ends { IfSome result (EndsWithAll directive.now used piece.now) }
    ensures waits { IsNone result → IsSound directive.now → (room : ℕ) → IsSure directive.now used piece.now room → ⊥ }
{
    if let Some(ended) = column_at_once(directive, piece) {
        return Some(ended);
    }
    if let Some(ended) = opener_at_once(directive, piece) {
        return Some(EndedColumn { ended, after: 0 });
    }
    let run = run_on(directive, Phase::Skipping, piece, used);
    as_ended(directive, run, piece)
}

/// How the directive ends, which took nothing yet, where it does so within the piece, which comes so many bytes into
/// the run.
#[inline(always)]
pub(crate) fn ended_within(directive: &Directive, piece: &[u8], used: u32) -> Option<EndedColumn>
    ensures ends { IfSome result (EndsWithAll directive.now used piece.now) }
    ensures waits { IsNone result → IsSound directive.now → (room : ℕ) → IsSure directive.now used piece.now room → ⊥ }
{
    if let Some(ended) = seen_at_once(directive, piece) {
        return Some(EndedColumn { ended, after: 0 });
    }
    ended_by_run(directive, piece, used)
}
