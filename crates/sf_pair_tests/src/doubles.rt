//! Doubles that a pair carries over, and those that it doesn't.
use crate::bounds::first_fault;
use crate::shared::found_of;
use sf_base::Value;
use sf_format::Profile;
use sf_rows::is;
use std::test::Fail;

/// The patterns of 0.1, of the greatest double and of the least that is above 0.
const TENTH: Value<'static> = Value::F64(0x3fb9_9999_9999_999a);

const GREATEST: Value<'static> = Value::F64(0x7fef_ffff_ffff_ffff);

const LEAST: Value<'static> = Value::F64(1);

const MINUS_ZERO: Value<'static> = Value::F64(0x8000_0000_0000_0000);

/// A print format, a scan format, and two doubles that are read back, whatever byte follows.
static CARRIED: [(&[u8], &[u8], Value<'static>, Value<'static>); 7] = [
    (b"%.17g;", b"%24lf;", TENTH, GREATEST),
    (b"%.16E;", b"%24lE;", LEAST, MINUS_ZERO),
    (b"%a;", b"%24la;", LEAST, GREATEST),
    (b"%f;", b"%317lf;", GREATEST, MINUS_ZERO),
    (b"%+020g\n", b"%20lf%*1[\n]", TENTH, MINUS_ZERO),
    (
        b"%.0f",
        b"%1lf",
        Value::F64(0),
        Value::F64(0x4022_0000_0000_0000),
    ),
    (b"%01500.1f;", b"%1500lf;", TENTH, MINUS_ZERO),
];

#[test]
fn doubles_go_there_and_back(rt: HostRuntime) -> Result<(), Fail> {
    let alloc = rt.alloc();
    for &(print, scan, one, other) in &CARRIED {
        let fault = found_of(alloc, Profile::Three, print, scan, |pair| {
            first_fault(alloc, pair, one, other)
        })?;
        is(&fault, &None, &print)?;
    }
    Ok(())
}

/// A print format, a scan format, and a value that doesn't fit them.
static UNFIT: [(&[u8], &[u8], Value<'static>); 7] = [
    (b"%.16g;", b"%24lf;", Value::F64(0x3fd3_3333_3333_3334)),
    (b"%f;", b"%20lf;", LEAST),
    (b"%f;", b"%20lf;", GREATEST),
    (b"%.17g;", b"%24lf;", Value::F64(0x7ff0_0000_0000_0000)),
    (b"%.17g;", b"%24lf;", Value::F64(0x7ff8_0000_0000_0000)),
    (b"%.17g;", b"%24lf;", Value::F32(0)),
    (b"%.17g;", b"%24lf;", Value::I32(0)),
];

#[test]
fn other_values_do_not_fit(rt: HostRuntime) -> Result<(), Fail> {
    for &(print, scan, value) in &UNFIT {
        let fits = found_of(
            rt.alloc(),
            Profile::Three,
            print,
            scan,
            |pair| pair.fits(&[value]),
        )?;
        is(&fits, &false, &print)?;
    }
    Ok(())
}
