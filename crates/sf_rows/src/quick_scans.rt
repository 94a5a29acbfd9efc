//! Scans that the quick run has to tell.
use crate::scan_rows::ScanRow;
use crate::told::{Met, Told};
use sf_base::Value;
use sf_format::Profile;

static QUICK: [ScanRow; 12] = [
    ScanRow {
        profile: Profile::One,
        format: b"%d,%d",
        limit: 9,
        text: b"12,-7\n3,4\n",
        told: Told::Done(2, 5, Met::Byte),
        values: &[Value::I32(12), Value::I32(-7)],
        at_once: true,
    },
    ScanRow {
        profile: Profile::One,
        format: b"%s %hhu",
        limit: 9,
        text: b"up 7\n",
        told: Told::Done(2, 4, Met::Byte),
        values: &[Value::Text(b"up"), Value::U8(7)],
        at_once: true,
    },
    ScanRow {
        profile: Profile::One,
        format: b"%3c%*[a-c]%x",
        limit: 20,
        text: b"  xab0x1f;",
        told: Told::Counted(2, 3, 9, Met::Byte),
        values: &[Value::Text(b"  x"), Value::U32(31)],
        at_once: true,
    },
    ScanRow {
        profile: Profile::One,
        format: b"%3d%d",
        limit: 9,
        text: b"123456 ",
        told: Told::Done(2, 6, Met::Byte),
        values: &[Value::I32(123), Value::I32(456)],
        at_once: true,
    },
    ScanRow {
        profile: Profile::One,
        format: b"%x %X",
        limit: 20,
        text: b"-0X1f 0\n",
        told: Told::Done(2, 7, Met::Byte),
        values: &[Value::U32(4294967265), Value::U32(0)],
        at_once: true,
    },
    ScanRow {
        profile: Profile::One,
        format: b"%llx",
        limit: 20,
        text: b"ffffffffffffffff;",
        told: Told::Done(1, 16, Met::Byte),
        values: &[Value::U64(18446744073709551615)],
        at_once: true,
    },
    ScanRow {
        profile: Profile::One,
        format: b"%3x%s",
        limit: 20,
        text: b"0x1f ",
        told: Told::Done(2, 4, Met::Byte),
        values: &[Value::U32(1), Value::Text(b"f")],
        at_once: true,
    },
    ScanRow {
        profile: Profile::One,
        format: b"%i %o",
        limit: 20,
        text: b"0x1f 017 ",
        told: Told::Done(2, 8, Met::Byte),
        values: &[Value::I32(31), Value::U32(15)],
        at_once: true,
    },
    ScanRow {
        profile: Profile::One,
        format: b"%5[^,],%*[^,],%[^\n]",
        limit: 60,
        text: b"a b,a text of many bytes,another one\n",
        told: Told::Counted(2, 3, 36, Met::Byte),
        values: &[Value::Text(b"a b"), Value::Text(b"another one")],
        at_once: true,
    },
    ScanRow {
        profile: Profile::One,
        format: b"%lu",
        limit: 30,
        text: b"-00000000000000000000000012;",
        told: Told::Done(1, 27, Met::Byte),
        values: &[Value::U64(18446744073709551604)],
        at_once: true,
    },
    ScanRow {
        profile: Profile::One,
        format: b"%d",
        limit: 99,
        text: b"00000000000000000000042\n",
        told: Told::Done(1, 23, Met::Byte),
        values: &[Value::I32(42)],
        at_once: true,
    },
    ScanRow {
        profile: Profile::One,
        format: b"",
        limit: 0,
        text: b"",
        told: Told::Done(0, 0, Met::Nothing),
        values: &[],
        at_once: true,
    },
];

/// Records with a byte behind them that ends them.
pub(crate) fn quick_scans() -> &'static [ScanRow] {
    &QUICK
}
