//! A finite float: its sign, its size as a fraction, and that size times a power of ten.
ghost use Rattle.std.specs.Prelude.{◌≡◌, ℕ, ◌+◌, ◌*◌, ◌^◌, ◌<◌, ◌≤◌, IsTrue, false, from_bits};
ghost use Rattle.std.specs.Float.{NotNan, float_is_finite, binary64};
ghost use Rattle.std.specs.Float.Ieee.Exact.{HasValue};
ghost use Rattle.ryu.specs.Sign.{IsSignAndSize};
ghost use Rattle.sf_float.specs.Scaled.{scaled};

use crate::natural::Natural;
use crate::rounding::nearest_scaled;
use ryu::Float;

const SIGN: u64 = 0x8000_0000_0000_0000;

pub(crate) const HIDDEN: u64 = 0x10_0000_0000_0000;

/// A size as the fraction m * 2^up / 2^down.
#[derive(Clone, Copy, Debug)]
pub struct Size {
    pub m: u64,
    pub up: u32,
    pub down: u32,
}

/// Whether there is a minus, and the pattern without it.
pub fn sign_and_bits(x: f64) -> (bool, u64)
    requires { NotNan x }
    ensures { IsSignAndSize binary64 x result.0 result.1 }
{
    let bits = x.raw_bits();
    (bits >= SIGN, bits & (SIGN - 1))
}

/// The size of the float with this pattern.
pub fn size_of(bits: u64) -> Size
    requires { bits < 0x7ff0_0000_0000_0000 }
    ensures value { HasValue (from_bits binary64 bits) false (result.m * 2 ^ result.up) (2 ^ result.down) }
    ensures few { (result.m < 2 ^ 53) × (result.up < 972) × (result.down ≤ 1074) }
    ensures one { 0 < result.up → result.down ≡ 0 }
{
    let field = (bits / HIDDEN) as u32;
    let digits = bits % HIDDEN;
    if field == 0 {
        return Size {
            m: digits,
            up: 0,
            down: 1074,
        };
    }
    if field > 1075 {
        Size {
            m: HIDDEN + digits,
            up: field - 1075,
            down: 0,
        }
    } else {
        Size {
            m: HIDDEN + digits,
            up: 0,
            down: 1075 - field,
        }
    }
}

/// A finite float times 10^precision, rounded to the nearest whole number, a tie to the even one.
pub fn fixed_number(x: f64, precision: u32) -> Natural
    requires finite { IsTrue (float_is_finite x) }
    requires few { precision ≤ 255 }
    ensures value { result ≡ scaled x precision 0 }
    ensures most { result < 10 ^ (309 + precision) }
{
    let (_, bits) = sign_and_bits(x);
    let size = size_of(bits);
    nearest_scaled(size.m, size.up, size.down, precision, 0)
}
