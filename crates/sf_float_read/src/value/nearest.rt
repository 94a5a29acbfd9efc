//! A whole number times a power of two, rounded once to a format. Of the number the first 60 binary digits are known,
//! and whether more follow.
ghost use Rattle.std.specs.Prelude.{◌≡◌, ℕ, ◌+◌, ◌-◌, ◌*◌, ◌/◌, ◌^◌, ◌<◌, ◌≤◌, true};
ghost use Rattle.std.specs.Float.Ieee.{prec, low, hid, ones};
ghost use Rattle.std.specs.Float.Ieee.Nearest.{closest};
ghost use Rattle.fast_float.specs.Rounding.{IsNearestBits, scaled_bits};
ghost use Rattle.sf_float.specs.Quotient.{IsQuotient};
ghost use Rattle.sf_float_read.specs.value.Formats.{format_of};

/// The kinds of floats.
#[derive(Clone, Copy, Debug, PartialEq, Eq)]
pub enum FloatKind {
    F32,
    F64,
}

/// How many binary digits a number of the kind has.
fn digits(kind: FloatKind) -> u32
    ensures value { result ≡ prec (format_of kind) }
    ensures few { (24 ≤ result) × (result ≤ 53) }
{
    match kind {
        FloatKind::F32 => 24,
        FloatKind::F64 => 53,
    }
}

/// The least number above 0 is 2^-least.
fn least(kind: FloatKind) -> u32
    ensures value { result ≡ low (format_of kind) }
    ensures few { result ≤ 1074 }
{
    match kind {
        FloatKind::F32 => 149,
        FloatKind::F64 => 1074,
    }
}

/// The lowest pattern with an exponent.
fn hidden(kind: FloatKind) -> u64
    ensures value { result ≡ hid (format_of kind) }
    ensures few { result ≤ 4503599627370496 }
{
    match kind {
        FloatKind::F32 => 0x80_0000,
        FloatKind::F64 => 0x10_0000_0000_0000,
    }
}

/// The pattern of infinity.
pub(crate) fn infinity(kind: FloatKind) -> u64
    ensures { result ≡ ones (format_of kind) * hid (format_of kind) }
{
    match kind {
        FloatKind::F32 => 0x7f80_0000,
        FloatKind::F64 => 0x7ff0_0000_0000_0000,
    }
}

/// 2^n.
fn power(n: u32) -> u64
    requires { n ≤ 62 }
    ensures { result ≡ 2 ^ n }
{
    1 << n
}

/// m / 2^cut, rounded to the nearest whole number, a tie to the even one. Something less than one may follow m.
fn rounded(m: u64, lost: bool, cut: u32) -> u64
    requires { (0 < cut) × (cut ≤ 62) × (m < 2 ^ 60) }
    ensures value { (n unit : ℕ) → 0 < unit → IsQuotient n unit m lost → closest n (unit * 2 ^ cut) ≡ result }
    ensures most { result ≤ m / 2 ^ cut + 1 }
{
    let unit = power(cut);
    let whole = m / unit;
    let rest = m % unit;
    if 2 * rest < unit {
        return whole;
    }
    if 2 * rest > unit {
        return whole + 1;
    }
    if lost {
        return whole + 1;
    }
    whole + whole % 2
}

/// The pattern of m * 2^k of the least numbers.
fn packed(m: u64, k: u64, kind: FloatKind) -> u64
    requires { (m ≤ 2 ^ 53) × (k ≤ 2100) }
    ensures { result ≡ scaled_bits (format_of kind) m k }
{
    (k * hidden(kind) + m).min(infinity(kind))
}

/// With the lowest digit kept at 2^k of the least numbers, where k is above 0.
fn nearest_normal(m: u64, lost: bool, size: u32, k: u64, kind: FloatKind) -> u64
    requires size { (0 < size) × (size ≤ 60) × (2 ^ (size - 1) ≤ m) × (m < 2 ^ size) × (m < 2 ^ 60) }
    requires known { lost ≡ true → 2 ^ 56 ≤ m }
    requires range { (0 < k) × (k ≤ 2100) }
    ensures { (n up down : ℕ) → IsQuotient n (2 ^ up) m lost
        → size + (up + low (format_of kind)) ≡ k + (prec (format_of kind) + down)
        → IsNearestBits (format_of kind) n (2 ^ down) result }
{
    let kept = digits(kind);
    if size > kept {
        return packed(rounded(m, lost, size - kept), k, kind);
    }
    let whole = m * power(kept - size);
    packed(whole, k, kind)
}

/// With the lowest digit kept at the least number.
fn nearest_least(m: u64, lost: bool, size: u32, up: u128, down: u128, kind: FloatKind) -> u64
    requires size { (0 < size) × (size ≤ 60) × (2 ^ (size - 1) ≤ m) × (m < 2 ^ size) × (m < 2 ^ 60) }
    requires known { lost ≡ true → 2 ^ 56 ≤ m }
    requires range { (size + up ≤ prec (format_of kind) + down) × (up < 2 ^ 120) }
    ensures { (n : ℕ) → IsQuotient (n * 2 ^ low (format_of kind)) (2 ^ up) m lost
        → IsNearestBits (format_of kind) n (2 ^ down) result }
{
    if down > up + 62 {
        return 0;
    }
    if down > up {
        return rounded(m, lost, (down - up) as u32);
    }
    m * power((up - down) as u32)
}

/// The pattern of the float nearest to m * 2^up / 2^down. Something less than 2^up may be added.
pub(crate) fn nearest(m: u64, lost: bool, up: u128, down: u128, kind: FloatKind) -> u64
    requires some { (0 < m) × (m < 2 ^ 60) }
    requires known { lost ≡ true → 2 ^ 56 ≤ m }
    requires range { (up < 2 ^ 110) × (down < 2 ^ 110) }
    ensures { (n : ℕ) → IsQuotient n (2 ^ up) m lost → IsNearestBits (format_of kind) n (2 ^ down) result }
{
    let size = m.ilog2() + 1;
    let above = up + least(kind) as u128;
    let kept = digits(kind) as u128 + down;
    if size as u128 + above <= kept {
        return nearest_least(m, lost, size, above, down, kind);
    }
    let k = size as u128 + above - kept;
    if k > 2100 {
        return infinity(kind);
    }
    nearest_normal(m, lost, size, k as u64, kind)
}
