//! Whether a row has the slots of a format.
ghost use Rattle.std.specs.Prelude.{◌≡◌, ◌≤◌, ◌↔◌, ℕ, true, length, IfErr, IsOk};
ghost use Rattle.sf_format.specs.Proper.{AreKinded, IsAccepted, destinations_of, may_miss};
ghost use Rattle.sf_read.specs.RowScans.{HasShape};
ghost use Rattle.sf_read.specs.Shapes.{IsDifference, IsKindsAt, IsMissing};
ghost use Rattle.sf_read.specs.Texts.{kind_words};

use crate::field::Row;
use sf_base::Kind;
use sf_format::ScanFormat;
use std::error::Error;
use std::fmt;

/// How a row first differs from a format.
#[derive(Clone, Copy, Debug, PartialEq, Eq)]
pub enum ShapeFault {
    /// They have not as many slots.
    Count {
        /// How many destinations the format has.
        format: u8,
        /// How many slots the row has.
        row: u8,
    },
    /// The first slot that has another kind in the row than in the format.
    Kinds {
        /// The slot, from 1.
        slot: u8,
        /// What the format gives it.
        format: Kind,
        /// What the row takes there.
        row: Kind,
    },
    /// The first slot that the format may leave without a value, and the row not.
    Missing {
        /// The slot, from 1.
        slot: u8,
    },
}

/// A kind, as a fault has it.
fn kind_words(kind: Kind) -> &'static str
    ensures { result.now ≡ kind_words kind }
{
    match kind {
        Kind::I8 => "an i8",
        Kind::I16 => "an i16",
        Kind::I32 => "an i32",
        Kind::I64 => "an i64",
        Kind::U8 => "a u8",
        Kind::U16 => "a u16",
        Kind::U32 => "a u32",
        Kind::U64 => "a u64",
        Kind::Text => "a text",
        Kind::F32 => "an f32",
        Kind::F64 => "an f64",
    }
}

/// As `slot 2: the format gives an i32, the row takes a u32`.
impl fmt::Display for ShapeFault {
    ghost use Rattle.std.specs.Prelude.{Some};
    ghost use Rattle.sf_read.specs.Texts.{shape_fault_text};

    ghost output = { λ fault. Some (shape_fault_text fault) };

    fn fmt<W: fmt::Write>(&self, f: &mut fmt::Formatter<W>) -> fmt::Result {
        match *self {
            ShapeFault::Count { format, row } => {
                write!(f, "values: the format gives {format}, the row takes {row}")
            }
            ShapeFault::Kinds { slot, format, row } => {
                let given = kind_words(format);
                let taken = kind_words(row);
                write!(
                    f,
                    "slot {slot}: the format gives {given}, the row takes {taken}"
                )
            }
            ShapeFault::Missing { slot } => {
                write!(
                    f,
                    "slot {slot}: the format may leave it without a value, the row takes no Option"
                )
            }
        }
    }
}

impl Error for ShapeFault {}

/// The kinds of a slot that both have.
#[cold]
#[inline(never)]
fn kinds_at<T: Row>(format: &ScanFormat, slot: u8) -> ShapeFault
    requires low { 1 ≤ slot }
    requires high { slot ≤ length (destinations_of format.now) }
    requires count { length T.kinds ≡ length (destinations_of format.now) }
    ensures { IsKindsAt T.kinds format.now slot result }
{
    match (format.kind(slot), T::shape(slot)) {
        (Some(given), Some(taken)) => ShapeFault::Kinds {
            slot,
            format: given,
            row: taken,
        },
        _ => unreachable!(),
    }
}

/// Whether the row may be without a value in each slot that may be missing; else the first where it may not.
#[inline(never)]
fn check_missing<T: Row>(format: &ScanFormat) -> Result<(), ShapeFault>
    ensures same { IsOk result ↔ ((slot : ℕ) → may_miss slot format.now ≡ true → T.optional slot ≡ true) }
    ensures differs { IfErr result (IsMissing T.optional format.now) }
{
    for before in 0..format.destinations() {
        if format.may_miss(before + 1) && !T::may_miss(before + 1) {
            return Err(ShapeFault::Missing { slot: before + 1 });
        }
    }
    Ok(())
}

/// How the row first differs from the format, if it does.
#[cold]
#[inline(never)]
fn find_difference<T: Row>(format: &ScanFormat) -> Result<(), ShapeFault>
    ensures same { IsOk result ↔ HasShape T.kinds T.optional format.now }
    ensures differs { IfErr result (IsDifference T.kinds T.optional format.now) }
{
    let count = format.destinations();
    if T::slots() != count {
        return Err(ShapeFault::Count {
            format: count,
            row: T::slots(),
        });
    }
    for before in 0..count {
        if T::shape(before + 1) != format.kind(before + 1) {
            return Err(kinds_at::<T>(format, before + 1));
        }
    }
    if format.has_optional() {
        return check_missing::<T>(format);
    }
    Ok(())
}

/// Whether the row has the shape of the format, without a fault to be made: rows are read one after the other.
fn has_shape<T: Row>(format: &ScanFormat) -> bool
    ensures same { (result ≡ true) ↔ HasShape T.kinds T.optional format.now }
    ensures kinded { AreKinded format.now }
    ensures accepted { IsAccepted format.now }
{
    let count = format.destinations();
    if T::slots() != count {
        return false;
    }
    for before in 0..count {
        if T::shape(before + 1) != format.kind(before + 1) {
            return false;
        }
    }
    if format.has_optional() {
        return check_missing::<T>(format).is_ok();
    }
    true
}

/// Whether the slots of the row and their kinds are the destinations of the format and theirs, and the row may be
/// without a value in each that may be missing. Else it answers how they differ first.
#[inline(always)]
pub fn check_shape<T: Row>(format: &ScanFormat) -> Result<(), ShapeFault>
    ensures same { IsOk result ↔ HasShape T.kinds T.optional format.now }
    ensures differs { IfErr result (IsDifference T.kinds T.optional format.now) }
    ensures kinded { AreKinded format.now }
    ensures accepted { IsAccepted format.now }
{
    if has_shape::<T>(format) {
        return Ok(());
    }
    find_difference::<T>(format)
}
