//! Doubles that a pair carries over: whether the text of one is read as it.
ghost use Rattle.std.specs.Prelude.{◌≡◌, ◌≤◌, ◌&&◌, nat_le, length, from_bits};
ghost use Rattle.std.specs.Float.{float_is_finite};
ghost use Rattle.std.specs.Float.Ieee.{binary64};
ghost use Rattle.sf_base.specs.declared.real.Real.TheVariants as reals;
ghost use Rattle.sf_print.specs.texts.Floats.{real_text};
ghost use Rattle.sf_pair.specs.conversions.Reals.{seen, is_read_as};
ghost use Rattle.sf_pair.specs.Fits.{real_fits};

use crate::conversions::laws_below;
use crate::pairing::width_of;
use sf_base::{Kind, Real};
use sf_float_read::{is_float, value_f64};
use sf_format::{Conversion, PrintConv};
use sf_print::{visible_bytes, write_visible};
use std::num::f64_from_bits_with_nan;

/// Texts of at most so many bytes are read from a small buffer.
const SHORT: usize = 1024;

/// No scan has a greater width.
const WIDEST: usize = 65535;

pub(crate) fn is_finite(bits: u64) -> bool
    ensures { result ≡ float_is_finite (from_bits binary64 bits) }
{
    f64_from_bits_with_nan(bits).is_finite()
}

/// Whether the bytes are a matching sequence of which this pattern is stored.
pub(crate) fn is_read_as(item: &[u8], bits: u64) -> bool
    ensures { result ≡ is_read_as item.now bits }
{
    laws_below();
    is_float(item) && value_f64(item) == Some(bits)
}

/// Whether the scan's conversion reads the text that the other printed of a double as that double.
pub(crate) fn double_is_read(conv: &PrintConv, scan: &Conversion, bits: u64, text: &[u8]) -> bool
    requires { text.now ≡ real_text conv.now (reals.F64 bits) }
    ensures { result ≡ real_fits conv.now scan.now (reals.F64 bits) }
{
    let seen = visible_bytes(text);
    conv.kind == Kind::F64
        && is_finite(bits)
        && seen.len() <= width_of(scan) as usize
        && is_read_as(seen, bits)
}

/// Whether the text that the conversion prints of a double, without the blanks before it, has room in the buffer and is
/// read as that double.
fn is_read_in(conv: &PrintConv, bits: u64, buf: &mut [u8]) -> bool
    ensures { result ≡ (nat_le (length (seen conv.now (reals.F64 bits))) (length buf.old)
        && is_read_as (seen conv.now (reals.F64 bits)) bits) }
{
    match write_visible(conv, Real::F64(bits), buf) {
        Some(end) => is_read_as(&buf[..end], bits),
        None => false,
    }
}

/// The same for a text of any width that a scan may have. It is a call of its own, so that other texts pay for no such
/// buffer.
#[inline(never)]
fn is_read_wide(conv: &PrintConv, width: usize, bits: u64) -> bool
    requires { width ≤ 65535 }
    ensures { result ≡ (nat_le (length (seen conv.now (reals.F64 bits))) width
        && is_read_as (seen conv.now (reals.F64 bits)) bits) }
{
    let mut buf = [0; WIDEST];
    is_read_in(conv, bits, &mut buf[..width])
}

fn is_read_short(conv: &PrintConv, width: usize, bits: u64) -> bool
    requires { width ≤ 1024 }
    ensures { result ≡ (nat_le (length (seen conv.now (reals.F64 bits))) width
        && is_read_as (seen conv.now (reals.F64 bits)) bits) }
{
    let mut buf = [0; SHORT];
    is_read_in(conv, bits, &mut buf[..width])
}

/// Whether the scan's conversion reads the text that the other prints of a double as that double. It takes no memory.
pub(crate) fn double_fits(conv: &PrintConv, scan: &Conversion, bits: u64) -> bool
    ensures { result ≡ real_fits conv.now scan.now (reals.F64 bits) }
{
    if conv.kind != Kind::F64 || !is_finite(bits) {
        return false;
    }
    let width = width_of(scan) as usize;
    if width <= SHORT {
        is_read_short(conv, width, bits)
    } else {
        is_read_wide(conv, width, bits)
    }
}
