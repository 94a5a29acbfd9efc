//! Floats as values: the patterns of IEEE 754, which C11 F.2 asks for.
use sf_base::{Kind, Real, Shown, Value};
use sf_rows::is;
use std::test::Fail;

#[test]
fn doubles_are_patterns() -> Result<(), Fail> {
    let long = [
        Value::of_f64(1.0),
        Value::of_f64(0.1),
        Value::of_f64(-0.0),
        Value::of_f64(f64::INFINITY),
        Value::of_f64(f64::NAN),
        Value::of_f64(-f64::NAN),
    ];
    let patterns = [
        Value::F64(0x3ff0_0000_0000_0000),
        Value::F64(0x3fb9_9999_9999_999a),
        Value::F64(0x8000_0000_0000_0000),
        Value::F64(0x7ff0_0000_0000_0000),
        Value::F64(0x7ff8_0000_0000_0000),
        Value::F64(0x7ff8_0000_0000_0000),
    ];
    let numbers = [
        Value::F64(0x3fb9_9999_9999_999a).f64(),
        Value::F32(0x3dcc_cccd).f64(),
    ];
    is(&(long, numbers), &(patterns, [Some(0.1), None]), &"f64")
}

#[test]
fn floats_are_patterns() -> Result<(), Fail> {
    let short = [
        Value::of_f32(1.0),
        Value::of_f32(0.1),
        Value::of_f32(-0.0),
        Value::of_f32(f32::NAN),
    ];
    let patterns = [
        Value::F32(0x3f80_0000),
        Value::F32(0x3dcc_cccd),
        Value::F32(0x8000_0000),
        Value::F32(0x7fc0_0000),
    ];
    let numbers = [Value::F32(0x3dcc_cccd).f32(), Value::I32(1).f32()];
    is(&(short, numbers), &(patterns, [Some(0.1), None]), &"f32")
}

/// The number that a value shows, if it is a float.
fn shown_real(value: Value<'_>) -> Option<Real> {
    match value.shown() {
        Shown::Real(real) => Some(real),
        Shown::Number(_) | Shown::Text(_) => None,
    }
}

/// A value that is a float, its number and its kind.
static REALS: [(Value<'static>, Real, Kind); 2] = [
    (Value::F32(1), Real::F32(1), Kind::F32),
    (Value::F64(2), Real::F64(2), Kind::F64),
];

#[test]
fn floats_are_no_integers() -> Result<(), Fail> {
    for (value, real, kind) in &REALS {
        let found = (value.kind(), real.kind(), real.value(), shown_real(*value));
        is(&found, &(*kind, *kind, *value, Some(*real)), kind)?;
        let found = (
            value.number(),
            value.sign_and_magnitude(),
            kind.bounds(),
            kind.value(0),
        );
        is(&found, &(None, None, None, None), kind)?;
    }
    Ok(())
}
