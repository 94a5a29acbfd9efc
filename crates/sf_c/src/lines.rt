//! Lines at the front of a text whose runs are Done whatever follows them, and give no text: their records are taken
//! where they stand. Any other line is left to the general way.
ghost use Rattle.std.specs.Prelude.{◌≡◌, ◌≤◌, ◌<◌, ◌+◌, ℕ, List, length, take, IfSome, true};
ghost use Rattle.std.specs.Option.{option_map};
ghost use Rattle.sf_base.specs.Data.{datum_of_shown};
ghost use Rattle.sf_base.specs.Kinds.{with_sign};
ghost use Rattle.sf_format.specs.Proper.{kind_at};
ghost use Rattle.sf_c.specs.declared.values.SfValue.{SfValue};
ghost use Rattle.sf_c.specs.Formats.{kinds_to};
ghost use Rattle.sf_c.specs.Lines.{AreAt, IsBehind, IsTextless, IsTextlessLine};
ghost use Rattle.sf_c.specs.Scans.{slots_in};
ghost use Rattle.sf_c.specs.Values.{Holds, bits_of};

use crate::records::SfDone;
use crate::values::{SfValue, number};
use sf_base::{HeapStore, Kind, Number, Real, Shown, Store, run_before};
use sf_format::ScanFormat;
use sf_run::laws::done_runs_stay;
use sf_run::quick_run;

/// The number in 64 bits, in two's complement.
#[inline(always)]
fn bits_of(number: Number) -> u64
    ensures { result ≡ bits_of (with_sign number.negative number.magnitude) }
{
    if number.negative {
        number.magnitude.wrapping_neg()
    } else {
        number.magnitude
    }
}

/// The cell of what a slot was given. None where that is a text.
#[inline(always)]
fn textless_cell(given: Option<Shown<'_>>, slot: u8) -> Option<SfValue>
    ensures slot { IfSome result (λ cell. cell.slot ≡ slot) }
    ensures holds { IfSome result (λ cell. (texts : List ℕ)
        → Holds texts (option_map datum_of_shown given.entry) cell) }
{
    match given {
        None => Some(SfValue {
            bits: 0,
            len: 0,
            kind: 0,
            slot,
        }),
        Some(Shown::Number(shown)) => Some(number(slot, shown.kind, bits_of(shown))),
        Some(Shown::Real(Real::F32(bits))) => Some(number(slot, Kind::F32, u64::from(bits))),
        Some(Shown::Real(Real::F64(bits))) => Some(number(slot, Kind::F64, bits)),
        Some(Shown::Text(_)) => None,
    }
}

/// Writes a cell for each slot, whose kinds these are, from the place `at` on. Answers false where one was given a
/// text: then only cells from that place on may have changed.
#[inline(always)]
fn put_textless(
    store: &HeapStore,
    format: &ScanFormat,
    slots: u8,
    kinds: &[u8],
    values: &mut [SfValue],
    at: usize,
) -> bool
    requires slots { slots ≡ slots_in format.now }
    requires kinds { kinds.now ≡ kinds_to slots (λ slot. kind_at slot format.now) }
    requires room { at + slots ≤ length values.old }
    ensures front { take at values.new ≡ take at values.old }
    ensures row { result ≡ true → (row : List SfValue) × IsBehind at values.old values.new row
        × IsTextless format.now store.now.values row }
{
    let _format = format;
    for index in 0..slots {
        let given = store.shown(index + 1);
        let Some(cell) = textless_cell(given, kinds[index as usize]) else {
            return false;
        };
        values[at + index as usize] = cell;
    }
    true
}

/// Takes the record of the first line of a text, where the run over the text is Done within that line, whatever
/// follows, and gives no text: how many bytes the line has with its newline. Else None; then only cells from the place
/// `at` on may have changed.
#[inline(always)]
fn put_line(
    store: &mut HeapStore,
    format: &ScanFormat,
    slots: u8,
    kinds: &[u8],
    text: &[u8],
    limit: u32,
    values: &mut [SfValue],
    at: usize,
) -> Option<usize>
    requires slots { slots ≡ slots_in format.now }
    requires kinds { kinds.now ≡ kinds_to slots (λ slot. kind_at slot format.now) }
    requires room { at + slots ≤ length values.old }
    ensures front { take at values.new ≡ take at values.old }
    ensures line { IfSome result (λ size. (row : List SfValue) × IsBehind at values.old values.new row
        × IsTextlessLine format.now limit text.now size row) }
{
    let _slots = format.destinations();
    let outcome = quick_run(store, format, limit, text)?;
    done_runs_stay();
    let len = run_before(b'\n', text);
    if outcome.used as usize > len || len >= text.len() || len > limit as usize {
        return None;
    }
    if !put_textless(store, format, slots, kinds, values, at) {
        return None;
    }
    Some(len + 1)
}

/// Takes the records of the lines that come next, as long as each is seen at once to be one and has no text, and there
/// is room; by lines, and where the format has numbers alone. Answers the place of the next cell.
#[inline(never)]
fn put_each_line(
    lines: bool,
    numbers: bool,
    store: &mut HeapStore,
    format: &ScanFormat,
    slots: u8,
    kinds: &[u8],
    text: &[u8],
    limit: u32,
    values: &mut [SfValue],
    from: usize,
    done: &mut SfDone,
) -> usize
    requires slots { slots ≡ slots_in format.now }
    requires kinds { kinds.now ≡ kinds_to slots (λ slot. kind_at slot format.now) }
    requires used { done.old.used ≤ length text.now }
    requires few { done.old.records ≤ done.old.used }
    requires room { from ≤ length values.old }
    ensures records { (texts : List ℕ) → AreAt lines format.now limit text.now done.old values.old texts from
        → AreAt lines format.now limit text.now done.new values.new texts result }
    ensures used { done.new.used ≤ length text.now }
    ensures on { done.old.used ≤ done.new.used }
    ensures few { done.new.records ≤ done.new.used }
    ensures room { result ≤ length values.new }
    ensures filled { done.new.filled ≡ done.old.filled }
    ensures failed { done.new.failed ≡ done.old.failed }
{
    let mut at = from;
    while lines && numbers && done.used < text.len() && slots as usize <= values.len() - at {
        let rest = &text[done.used..];
        let Some(size) = put_line(store, format, slots, kinds, rest, limit, values, at) else {
            return at;
        };
        at += slots as usize;
        done.records += 1;
        done.used += size;
    }
    at
}

/// As `put_each_line`, without a call where no line can be taken.
#[inline(always)]
pub(crate) fn put_lines(
    lines: bool,
    numbers: bool,
    store: &mut HeapStore,
    format: &ScanFormat,
    slots: u8,
    kinds: &[u8],
    text: &[u8],
    limit: u32,
    values: &mut [SfValue],
    from: usize,
    done: &mut SfDone,
) -> usize
    requires slots { slots ≡ slots_in format.now }
    requires kinds { kinds.now ≡ kinds_to slots (λ slot. kind_at slot format.now) }
    requires used { done.old.used ≤ length text.now }
    requires few { done.old.records ≤ done.old.used }
    requires room { from ≤ length values.old }
    ensures records { (texts : List ℕ) → AreAt lines format.now limit text.now done.old values.old texts from
        → AreAt lines format.now limit text.now done.new values.new texts result }
    ensures used { done.new.used ≤ length text.now }
    ensures on { done.old.used ≤ done.new.used }
    ensures few { done.new.records ≤ done.new.used }
    ensures room { result ≤ length values.new }
    ensures filled { done.new.filled ≡ done.old.filled }
    ensures failed { done.new.failed ≡ done.old.failed }
{
    if !lines || !numbers {
        return from;
    }
    put_each_line(
        lines, numbers, store, format, slots, kinds, text, limit, values, from, done,
    )
}
