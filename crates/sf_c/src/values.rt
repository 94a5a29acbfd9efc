//! Values in C's memory.
ghost use Rattle.std.specs.Prelude.{◌≡◌, ◌≤◌, ◌<◌, ◌⊎◌, ◌^◌, ◌+◌, ℕ, ℤ, List, length, map, take, drop, IfNone, IfSome};
ghost use Rattle.std.specs.Option.{option_map};
ghost use Rattle.sf_base.specs.declared.values.Kind.{Kind as KindOf};
ghost use Rattle.sf_base.specs.Data.{Datum, IsIn, Number, datum_of};
ghost use Rattle.sf_c.specs.Numbers.{kind_number};
ghost use Rattle.sf_c.specs.Prints.{AreData, Means};
ghost use Rattle.sf_c.specs.Values.{HasText, Holds, bits_of, text_given};

use crate::codes::kind_number;
use arrayvec::ArrayVec;
use sf_base::{Kind, Value};

/// What a slot was given, or what is printed.
#[repr(C)]
#[derive(Clone, Copy, Debug, PartialEq, Eq)]
pub struct SfValue {
    /// A number, of a signed kind extended to 64 bits; of a float its pattern; of a text its place in the texts.
    pub bits: u64,
    /// How many bytes a text has.
    pub len: u32,
    /// 0 for no value; 1 to 8 for i8, i16, i32, i64, u8, u16, u32, u64; 9 for a text, 10 for f32, 11 for f64.
    pub kind: u8,
    /// The kind of the slot itself, whether it has a value or not.
    pub slot: u8,
}

/// The cell of a number or of a float.
#[inline(always)]
pub(crate) fn number(slot: u8, kind: Kind, bits: u64) -> SfValue
    ensures { result ≡ record {
      bits = bits;
      len = 0;
      kind = kind_number kind;
      slot = slot;
    } }
{
    SfValue {
        bits,
        len: 0,
        kind: kind_number(kind),
        slot,
    }
}

/// The cell of a slot, whose text stands at this place among the bytes of the texts.
#[inline(always)]
pub(crate) fn cell_of(given: Option<Value<'_>>, slot: u8, at: usize) -> SfValue
    requires { length (text_given (option_map datum_of given)) < 2 ^ 32 }
    ensures slot { result.slot ≡ slot }
    ensures holds { let text = text_given (option_map datum_of given.entry) in
        (texts : List ℕ) → at + length text ≤ length texts → take (length text) (drop at texts) ≡ text
        → Holds texts (option_map datum_of given.entry) result }
{
    match given {
        None => SfValue {
            bits: 0,
            len: 0,
            kind: 0,
            slot,
        },
        Some(Value::I8(n)) => number(slot, Kind::I8, i64::from(n).cast_unsigned()),
        Some(Value::I16(n)) => number(slot, Kind::I16, i64::from(n).cast_unsigned()),
        Some(Value::I32(n)) => number(slot, Kind::I32, i64::from(n).cast_unsigned()),
        Some(Value::I64(n)) => number(slot, Kind::I64, n.cast_unsigned()),
        Some(Value::U8(n)) => number(slot, Kind::U8, u64::from(n)),
        Some(Value::U16(n)) => number(slot, Kind::U16, u64::from(n)),
        Some(Value::U32(n)) => number(slot, Kind::U32, u64::from(n)),
        Some(Value::U64(n)) => number(slot, Kind::U64, n),
        Some(Value::F32(bits)) => number(slot, Kind::F32, u64::from(bits)),
        Some(Value::F64(bits)) => number(slot, Kind::F64, bits),
        Some(Value::Text(text)) => SfValue {
            bits: at as u64,
            len: text.len() as u32,
            kind: 9,
            slot,
        },
    }
}

/// The text of what a slot was given; none where that is no text.
#[inline(always)]
pub(crate) fn text_of<'a>(given: Option<Value<'a>>) -> &'a [u8]
    ensures { result.now ≡ text_given (option_map datum_of given.entry) }
{
    match given {
        Some(Value::Text(text)) => text,
        _ => &[],
    }
}

/// The kind with this number.
fn kind_with(number: u8) -> Option<Kind>
    ensures some { IfSome result (λ kind. kind_number kind ≡ number) }
    ensures none { IfNone result ((kind : KindOf) → kind_number kind ≡ number → ⊥) }
{
    let kind = match number {
        1 => Kind::I8,
        2 => Kind::I16,
        3 => Kind::I32,
        4 => Kind::I64,
        5 => Kind::U8,
        6 => Kind::U16,
        7 => Kind::U32,
        8 => Kind::U64,
        9 => Kind::Text,
        10 => Kind::F32,
        11 => Kind::F64,
        _ => return None,
    };
    Some(kind)
}

/// The text to which a cell points, where that is within the bytes of the texts.
fn text_at<'a>(cell: &SfValue, texts: &'a [u8]) -> Option<&'a [u8]>
    ensures some { cell.now.kind ≡ 9 → IfSome result (λ text. HasText texts.entry.now text.now cell.now) }
    ensures none { IfNone result ((text : List ℕ) → HasText texts.entry.now text cell.now → ⊥) }
{
    let at = usize::try_from(cell.bits).ok()?;
    let len = cell.len as usize;
    if texts.len() < at || texts.len() - at < len {
        return None;
    }
    Some(&texts[at..at + len])
}

/// The number of a kind that has these bits.
fn number_of(kind: Kind, bits: u64) -> Option<Value<'static>>
    ensures some { IfSome result (λ v. (n : ℤ) × (datum_of v ≡ Number kind n) × (bits ≡ bits_of n) × IsIn kind n) }
    ensures none { IfNone result ((n : ℤ) → bits ≡ bits_of n → IsIn kind n → ⊥) }
{
    let signed = matches!(kind, Kind::I8 | Kind::I16 | Kind::I32 | Kind::I64);
    kind.value(if signed {
        i128::from(bits.cast_signed())
    } else {
        i128::from(bits)
    })
}

/// The value that C means, where its kind is one, its number is of the kind, and its text within the texts.
fn value_of<'a>(cell: &SfValue, texts: &'a [u8]) -> Option<Value<'a>>
    ensures some { IfSome result (λ v. Means texts.entry.now (datum_of v) cell.now) }
    ensures none { IfNone result ((datum : Datum) → Means texts.entry.now datum cell.now → ⊥) }
{
    let bits = cell.bits;
    let Some(kind) = kind_with(cell.kind) else {
        return None;
    };
    match kind {
        Kind::Text => Some(Value::Text(text_at(cell, texts)?)),
        Kind::F32 => Some(Value::F32(u32::try_from(bits).ok()?)),
        Kind::F64 => Some(Value::F64(bits)),
        _ => number_of(kind, bits),
    }
}

/// The values that C means. None where one is no value, or there are more than 32.
pub(crate) fn values_of<'a>(cells: &[SfValue], texts: &'a [u8]) -> Option<ArrayVec<Value<'a>, 32>>
    ensures some { IfSome result (λ list. AreData texts.entry.now (map datum_of list.items) cells.now) }
    ensures none { IfNone result ((32 < length cells.now)
        ⊎ ((values : List Datum) → AreData texts.entry.now values cells.now → ⊥)) }
{
    let mut list = ArrayVec::new();
    for cell in cells {
        let Some(value) = value_of(cell, texts) else {
            return None;
        };
        match list.try_push(value) {
            Ok(()) => {}
            Err(_) => return None,
        }
    }
    Some(list)
}
