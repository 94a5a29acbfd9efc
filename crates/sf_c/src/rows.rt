//! What the slots of a run were given, in C's memory.
ghost use Rattle.std.specs.Prelude.{◌≡◌, ◌≤◌, ◌<◌, ◌^◌, ◌+◌, ◌++◌, ◌↔◌, List, length, take, drop, IfSome, IsSome};
ghost use Rattle.sf_c.specs.declared.values.SfValue.{SfValue};
ghost use Rattle.sf_c.specs.Scans.{slots_in};
ghost use Rattle.sf_c.specs.Values.{IsRow, texts_to};

use crate::codes::slot_number;
use crate::values::{SfValue, cell_of, text_of};
use sf_base::Store;
use sf_format::ScanFormat;
use sf_run::Report;

/// How many bytes the texts of the slots from 1 on have. None where there is no room for them.
pub(crate) fn texts_len<S: Store>(report: &Report<'_, S>, slots: u8, room: usize) -> Option<usize>
    ensures fits { IsSome result ↔ (length (texts_to slots report.now.values) ≤ room) }
    ensures len { IfSome result (λ n. n ≡ length (texts_to slots report.now.values)) }
{
    let mut len = 0;
    for index in 0..slots {
        let text = text_of(report.value(index + 1));
        if room - len < text.len() {
            return None;
        }
        len += text.len();
    }
    Some(len)
}

/// Lays down a text among the bytes of the texts.
#[inline(always)]
fn lay_down(texts: &mut [u8], at: usize, text: &[u8])
    requires { at + length text.now ≤ length texts.old }
    ensures laid { take (at + length text.now) texts.new ≡ take at texts.old ++ text.now }
    ensures rest { drop (at + length text.now) texts.new ≡ drop (at + length text.now) texts.old }
{
    if text.is_empty() {
        return;
    }
    texts[at..at + text.len()].copy_from_slice(text);
}

/// Writes a cell for each slot from the place `at` on, and the texts from the place `from` on.
#[inline(always)]
pub(crate) fn put_row<S: Store>(
    report: &Report<'_, S>,
    format: &ScanFormat,
    values: &mut [SfValue],
    at: usize,
    texts: &mut [u8],
    from: usize,
)
    requires room { at + slots_in format.now ≤ length values.old }
    requires bytes { from + length (texts_to (slots_in format.now) report.now.values) ≤ length texts.old }
    requires few { length (texts_to (slots_in format.now) report.now.values) < 2 ^ 32 }
    ensures row { let filled = from + length (texts_to (slots_in format.now) report.now.values) in
        (row : List SfValue) × (take (at + slots_in format.now) values.new ≡ take at values.old ++ row)
        × IsRow (take filled texts.new) format.now report.now.values row }
    ensures texts { take (from + length (texts_to (slots_in format.now) report.now.values)) texts.new
        ≡ take from texts.old ++ texts_to (slots_in format.now) report.now.values }
    ensures beyond { drop (at + slots_in format.now) values.new ≡ drop (at + slots_in format.now) values.old }
    ensures behind { let filled = from + length (texts_to (slots_in format.now) report.now.values) in
        drop filled texts.new ≡ drop filled texts.old }
{
    let mut filled = from;
    for index in 0..format.destinations() {
        let given = report.value(index + 1);
        let text = text_of(given);
        lay_down(texts, filled, text);
        values[at + index as usize] = cell_of(given, slot_number(format.kind(index + 1)), filled);
        filled += text.len();
    }
}
