//! Kinds, the numbers that they hold, and the values that these are.
use sf_base::{Kind, ScanInt, Value};
use sf_rows::is;
use std::test::Fail;

/// A kind, a sign (true: a minus), a magnitude, and the value that the kind gives them, if it holds one.
type NumberRow = (Kind, bool, u64, Option<Value<'static>>);

/// Of 8 and 16 bits.
static SMALL: [NumberRow; 22] = [
    (Kind::I8, false, 0, Some(Value::I8(0))),
    (Kind::I8, false, 127, Some(Value::I8(127))),
    (Kind::I8, false, 128, None),
    (Kind::I8, false, 256, None),
    (Kind::I8, false, 18446744073709551615, None),
    (Kind::I8, true, 0, Some(Value::I8(0))),
    (Kind::I8, true, 1, Some(Value::I8(-1))),
    (Kind::I8, true, 128, Some(Value::I8(-128))),
    (Kind::I8, true, 129, None),
    (Kind::I8, true, 255, None),
    (Kind::I8, true, 18446744073709551615, None),
    (Kind::I16, false, 0, Some(Value::I16(0))),
    (Kind::I16, false, 32767, Some(Value::I16(32767))),
    (Kind::I16, false, 32768, None),
    (Kind::I16, false, 65536, None),
    (Kind::I16, false, 18446744073709551615, None),
    (Kind::I16, true, 0, Some(Value::I16(0))),
    (Kind::I16, true, 1, Some(Value::I16(-1))),
    (Kind::I16, true, 32768, Some(Value::I16(-32768))),
    (Kind::I16, true, 32769, None),
    (Kind::I16, true, 65535, None),
    (Kind::I16, true, 18446744073709551615, None),
];

/// Of 32 and 64 bits.
static LARGE: [NumberRow; 18] = [
    (Kind::I32, false, 0, Some(Value::I32(0))),
    (Kind::I32, false, 2147483647, Some(Value::I32(2147483647))),
    (Kind::I32, false, 2147483648, None),
    (Kind::I32, false, 4294967296, None),
    (Kind::I32, true, 0, Some(Value::I32(0))),
    (Kind::I32, true, 1, Some(Value::I32(-1))),
    (Kind::I32, true, 2147483648, Some(Value::I32(-2147483648))),
    (Kind::I32, true, 2147483649, None),
    (Kind::I32, true, 18446744073709551615, None),
    (Kind::I64, false, 0, Some(Value::I64(0))),
    (
        Kind::I64,
        false,
        9223372036854775807,
        Some(Value::I64(9223372036854775807)),
    ),
    (Kind::I64, false, 9223372036854775808, None),
    (Kind::I64, false, 18446744073709551615, None),
    (Kind::I64, true, 0, Some(Value::I64(0))),
    (Kind::I64, true, 1, Some(Value::I64(-1))),
    (
        Kind::I64,
        true,
        9223372036854775808,
        Some(Value::I64(-9223372036854775808)),
    ),
    (Kind::I64, true, 9223372036854775809, None),
    (Kind::I64, true, 18446744073709551615, None),
];

/// Of 8 and 16 bits without a sign.
static SMALL_UNSIGNED: [NumberRow; 20] = [
    (Kind::U8, false, 0, Some(Value::U8(0))),
    (Kind::U8, false, 255, Some(Value::U8(255))),
    (Kind::U8, false, 256, None),
    (Kind::U8, true, 0, Some(Value::U8(0))),
    (Kind::U8, true, 1, Some(Value::U8(255))),
    (Kind::U8, true, 128, Some(Value::U8(128))),
    (Kind::U8, true, 255, Some(Value::U8(1))),
    (Kind::U8, true, 256, None),
    (Kind::U8, true, 257, None),
    (Kind::U8, true, 18446744073709551615, None),
    (Kind::U16, false, 0, Some(Value::U16(0))),
    (Kind::U16, false, 65535, Some(Value::U16(65535))),
    (Kind::U16, false, 65536, None),
    (Kind::U16, true, 0, Some(Value::U16(0))),
    (Kind::U16, true, 1, Some(Value::U16(65535))),
    (Kind::U16, true, 32768, Some(Value::U16(32768))),
    (Kind::U16, true, 65535, Some(Value::U16(1))),
    (Kind::U16, true, 65536, None),
    (Kind::U16, true, 65537, None),
    (Kind::U16, true, 18446744073709551615, None),
];

/// Of 32 and 64 bits without a sign, and of texts.
static LARGE_UNSIGNED: [NumberRow; 18] = [
    (Kind::U32, false, 0, Some(Value::U32(0))),
    (Kind::U32, false, 4294967295, Some(Value::U32(4294967295))),
    (Kind::U32, false, 4294967296, None),
    (Kind::U32, true, 0, Some(Value::U32(0))),
    (Kind::U32, true, 1, Some(Value::U32(4294967295))),
    (Kind::U32, true, 2147483648, Some(Value::U32(2147483648))),
    (Kind::U32, true, 4294967295, Some(Value::U32(1))),
    (Kind::U32, true, 4294967296, None),
    (Kind::U32, true, 4294967297, None),
    (Kind::U32, true, 18446744073709551615, None),
    (Kind::U64, false, 0, Some(Value::U64(0))),
    (
        Kind::U64,
        false,
        18446744073709551615,
        Some(Value::U64(18446744073709551615)),
    ),
    (Kind::U64, true, 0, Some(Value::U64(0))),
    (Kind::U64, true, 1, Some(Value::U64(18446744073709551615))),
    (
        Kind::U64,
        true,
        9223372036854775808,
        Some(Value::U64(9223372036854775808)),
    ),
    (Kind::U64, true, 18446744073709551615, Some(Value::U64(1))),
    (Kind::Text, false, 0, None),
    (Kind::Text, true, 1, None),
];

/// The value by `Kind::number`.
fn by_kind(kind: Kind, negative: bool, magnitude: u64) -> Option<Value<'static>> {
    Some(kind.number(negative, magnitude)?.value())
}

/// The integer of a type of this kind.
fn integer<T: ScanInt>(kind: Kind, negative: bool, magnitude: u64, overflowed: bool) -> Option<T> {
    if T::kind() != kind {
        return None;
    }
    T::from_parts(negative, magnitude, overflowed)
}

/// The value by the integer type of the kind.
fn by_type(kind: Kind, negative: bool, magnitude: u64, overflowed: bool) -> Option<Value<'static>> {
    Some(match kind {
        Kind::I8 => Value::I8(integer(kind, negative, magnitude, overflowed)?),
        Kind::I16 => Value::I16(integer(kind, negative, magnitude, overflowed)?),
        Kind::I32 => Value::I32(integer(kind, negative, magnitude, overflowed)?),
        Kind::I64 => Value::I64(integer(kind, negative, magnitude, overflowed)?),
        Kind::U8 => Value::U8(integer(kind, negative, magnitude, overflowed)?),
        Kind::U16 => Value::U16(integer(kind, negative, magnitude, overflowed)?),
        Kind::U32 => Value::U32(integer(kind, negative, magnitude, overflowed)?),
        Kind::U64 => Value::U64(integer(kind, negative, magnitude, overflowed)?),
        Kind::Text | Kind::F32 | Kind::F64 => return None,
    })
}

/// Each kind at its bounds, and beyond. A magnitude of more than 64 bits, by the types alone, is beyond each.
fn make_values(rows: &[NumberRow]) -> Result<(), Fail> {
    for row in rows {
        let (kind, negative, magnitude, wanted) = row;
        let found = [
            by_kind(*kind, *negative, *magnitude),
            by_type(*kind, *negative, *magnitude, false),
            by_type(*kind, *negative, *magnitude, true),
        ];
        is(&found, &[*wanted, *wanted, None], row)?;
    }
    Ok(())
}

#[test]
fn small_signed_numbers() -> Result<(), Fail> {
    make_values(&SMALL)
}

#[test]
fn large_signed_numbers() -> Result<(), Fail> {
    make_values(&LARGE)
}

#[test]
fn small_unsigned_numbers() -> Result<(), Fail> {
    make_values(&SMALL_UNSIGNED)
}

#[test]
fn large_unsigned_numbers() -> Result<(), Fail> {
    make_values(&LARGE_UNSIGNED)
}

/// A value, its kind, and its number with its sign and its magnitude, if it has one.
type ValueRow = (Value<'static>, Kind, Option<(bool, u64)>);

static VALUES: [ValueRow; 31] = [
    (Value::I8(-128), Kind::I8, Some((true, 128))),
    (Value::I8(-1), Kind::I8, Some((true, 1))),
    (Value::I8(0), Kind::I8, Some((false, 0))),
    (Value::I8(127), Kind::I8, Some((false, 127))),
    (Value::I16(-32768), Kind::I16, Some((true, 32768))),
    (Value::I16(-1), Kind::I16, Some((true, 1))),
    (Value::I16(0), Kind::I16, Some((false, 0))),
    (Value::I16(32767), Kind::I16, Some((false, 32767))),
    (Value::I32(-2147483648), Kind::I32, Some((true, 2147483648))),
    (Value::I32(-1), Kind::I32, Some((true, 1))),
    (Value::I32(0), Kind::I32, Some((false, 0))),
    (Value::I32(2147483647), Kind::I32, Some((false, 2147483647))),
    (
        Value::I64(-9223372036854775808),
        Kind::I64,
        Some((true, 9223372036854775808)),
    ),
    (Value::I64(-1), Kind::I64, Some((true, 1))),
    (Value::I64(0), Kind::I64, Some((false, 0))),
    (
        Value::I64(9223372036854775807),
        Kind::I64,
        Some((false, 9223372036854775807)),
    ),
    (Value::U8(0), Kind::U8, Some((false, 0))),
    (Value::U8(1), Kind::U8, Some((false, 1))),
    (Value::U8(255), Kind::U8, Some((false, 255))),
    (Value::U16(0), Kind::U16, Some((false, 0))),
    (Value::U16(65535), Kind::U16, Some((false, 65535))),
    (Value::U32(0), Kind::U32, Some((false, 0))),
    (Value::U32(1), Kind::U32, Some((false, 1))),
    (Value::U32(4294967295), Kind::U32, Some((false, 4294967295))),
    (Value::U64(0), Kind::U64, Some((false, 0))),
    (Value::U64(1), Kind::U64, Some((false, 1))),
    (
        Value::U64(9223372036854775808),
        Kind::U64,
        Some((false, 9223372036854775808)),
    ),
    (
        Value::U64(18446744073709551615),
        Kind::U64,
        Some((false, 18446744073709551615)),
    ),
    (Value::Text(b""), Kind::Text, None),
    (Value::Text(b"-7"), Kind::Text, None),
    (Value::Text(b"abc"), Kind::Text, None),
];

/// The sign and the magnitude of the value's number.
fn parts_of_number(value: &Value<'_>) -> Option<(bool, u64)> {
    let number = value.number()?;
    Some((number < 0, u64::try_from(number.unsigned_abs()).ok()?))
}

/// The value that its kind makes of its number; a text is its own.
fn by_number(value: &Value<'static>) -> Option<Value<'static>> {
    match value.number() {
        Some(number) => value.kind().value(number),
        None => Some(*value),
    }
}

#[test]
fn values_are_those_of_their_numbers() -> Result<(), Fail> {
    for row in &VALUES {
        let (value, kind, parts) = row;
        let found = (
            value.kind(),
            [value.sign_and_magnitude(), parts_of_number(value)],
            [Some(value.shown().value()), by_number(value)],
        );
        is(&found, &(*kind, [*parts, *parts], [Some(*value); 2]), value)?;
    }
    Ok(())
}

#[test]
fn a_text_holds_no_number() -> Result<(), Fail> {
    is(&Kind::Text.value(0), &None, &"a text")
}

/// What a type makes of a value, as a value again.
fn through<T: ScanInt>(value: Value<'_>) -> Option<Value<'static>> {
    Some(T::from_value(value)?.value())
}

/// What each of the eight types makes of a value.
fn through_each(value: Value<'_>) -> [Option<Value<'static>>; 8] {
    [
        through::<i8>(value),
        through::<i16>(value),
        through::<i32>(value),
        through::<i64>(value),
        through::<u8>(value),
        through::<u16>(value),
        through::<u32>(value),
        through::<u64>(value),
    ]
}

/// The value, if its kind is this one.
fn of_kind(value: Value<'static>, kind: Kind, own: Kind) -> Option<Value<'static>> {
    if own == kind { Some(value) } else { None }
}

/// The value where the type is that of its kind, and else nothing, in the order of the types.
fn of_each_kind(value: Value<'static>, kind: Kind) -> [Option<Value<'static>>; 8] {
    [
        of_kind(value, kind, Kind::I8),
        of_kind(value, kind, Kind::I16),
        of_kind(value, kind, Kind::I32),
        of_kind(value, kind, Kind::I64),
        of_kind(value, kind, Kind::U8),
        of_kind(value, kind, Kind::U16),
        of_kind(value, kind, Kind::U32),
        of_kind(value, kind, Kind::U64),
    ]
}

/// Each type takes the values of its kind, as they are, and no others.
#[test]
fn types_take_the_values_of_their_kinds() -> Result<(), Fail> {
    for row in &VALUES {
        let (value, kind, _) = row;
        is(&through_each(*value), &of_each_kind(*value, *kind), value)?;
    }
    Ok(())
}
