//! Records in each form, read by blocks, and written one by one.
ghost use Rattle.std.specs.Prelude.{◌≤◌};

use crate::copies::{LIMIT, is};
use crate::reading_back::write_table;
use sf_base::Store;
use sf_format::{Profile, ScanFormat};
use sf_print::{ListSink, ScriptSink, WriteStep};
use sf_read::{Lookahead, SliceSource, fscan_fixed};
use sf_records::{FormWriter, OutputForm, RecordFault, push_record, run_scan_as};
use sf_run::Report;
use std::alloc::Global;
use std::process::Abort;
use std::test::Fail;

/// The forms, in the order in which a row has them.
static FORMS: [OutputForm; 4] = [
    OutputForm::Plain,
    OutputForm::Tsv,
    OutputForm::Json,
    OutputForm::Csv,
];

/// A row: a format, a text, and its records in each form.
#[derive(Drop)]
struct Row {
    format: &'static str,
    text: &'static [u8],
    forms: [&'static [u8]; 4],
}

static ROWS: [Row; 8] = [
    Row {
        format: "%d,%19[^,\n]%*1[\n]",
        text: b"12,ab\n-7,\"c d\"\n",
        forms: [
            b"12 \"ab\"\n-7 \"\\\"c d\\\"\"\n",
            b"12\tab\n-7\t\"c d\"\n",
            b"[12,\"ab\"]\n[-7,\"\\\"c d\\\"\"]\n",
            b"12,ab\n-7,\"\"\"c d\"\"\"\n",
        ],
    },
    Row {
        format: "%9c",
        text: b"a\tb\nc\rd\\e",
        forms: [
            b"\"a\\x09b\\x0ac\\x0dd\\\\e\"\n",
            b"a\\tb\\nc\\rd\\\\e\n",
            b"[\"a\\tb\\nc\\rd\\\\e\"]\n",
            b"\"a\tb\nc\rd\\e\"\n",
        ],
    },
    Row {
        format: "%hhd%hhu%hd%hu%d%u%lld%llu",
        text: b"-128 255 -32768 65535 -2147483648 4294967295 -9223372036854775808 18446744073709551615",
        forms: [
            b"-128 255 -32768 65535 -2147483648 4294967295 -9223372036854775808 18446744073709551615\n",
            b"-128\t255\t-32768\t65535\t-2147483648\t4294967295\t-9223372036854775808\t18446744073709551615\n",
            b"[-128,255,-32768,65535,-2147483648,4294967295,-9223372036854775808,18446744073709551615]\n",
            b"-128,255,-32768,65535,-2147483648,4294967295,-9223372036854775808,18446744073709551615\n",
        ],
    },
    Row {
        format: "%*d",
        text: b"1 2",
        forms: [b"\n\n", b"\n\n", b"[]\n[]\n", b"\n\n"],
    },
    // What is UTF-8 of two, three and four bytes, and DEL.
    Row {
        format: "%10c",
        text: b"\xc3\xa9\xe2\x82\xac\xf0\x9f\x99\x82\x7f",
        forms: [
            b"\"\\xc3\\xa9\\xe2\\x82\\xac\\xf0\\x9f\\x99\\x82\\x7f\"\n",
            b"\xc3\xa9\xe2\x82\xac\xf0\x9f\x99\x82\x7f\n",
            b"[\"\xc3\xa9\xe2\x82\xac\xf0\x9f\x99\x82\x7f\"]\n",
            b"\xc3\xa9\xe2\x82\xac\xf0\x9f\x99\x82\x7f\n",
        ],
    },
    // What is not: cut short, too long for its character, a surrogate, above U+10FFFF; UTF-8 beside it stays.
    Row {
        format: "%14c",
        text: b"\xe2\x82(\xc0\x80\xc3\xa9\xed\xa0\x80\xf4\x90\x80\xc3",
        forms: [
            b"\"\\xe2\\x82(\\xc0\\x80\\xc3\\xa9\\xed\\xa0\\x80\\xf4\\x90\\x80\\xc3\"\n",
            b"\xe2\x82(\xc0\x80\xc3\xa9\xed\xa0\x80\xf4\x90\x80\xc3\n",
            b"[\"\\udce2\\udc82(\\udcc0\\udc80\xc3\xa9\\udced\\udca0\\udc80\\udcf4\\udc90\\udc80\\udcc3\"]\n",
            b"\xe2\x82(\xc0\x80\xc3\xa9\xed\xa0\x80\xf4\x90\x80\xc3\n",
        ],
    },
    Row {
        format: "%3c",
        text: b"\x00\x1f\x0b",
        forms: [
            b"\"\\x00\\x1f\\x0b\"\n",
            b"\x00\x1f\x0b\n",
            b"[\"\\u0000\\u001f\\u000b\"]\n",
            b"\x00\x1f\x0b\n",
        ],
    },
    // More bytes than are written at once, and odd ones among them.
    Row {
        format: "%60[^|]|%2c",
        text: b"abcdefghijklmnop\"qrst,uvwx\\yz\x01|,\n",
        forms: [
            b"\"abcdefghijklmnop\\\"qrst,uvwx\\\\yz\\x01\" \",\\x0a\"\n",
            b"abcdefghijklmnop\"qrst,uvwx\\\\yz\x01\t,\\n\n",
            b"[\"abcdefghijklmnop\\\"qrst,uvwx\\\\yz\\u0001\",\",\\n\"]\n",
            b"\"abcdefghijklmnop\"\"qrst,uvwx\\yz\x01\",\",\n\"\n",
        ],
    },
];

/// The records of a text, read by blocks of N bytes, are written so in the form.
fn is_written<const N: usize>(
    rt: &(impl Abort + AllocGlobal),
    format: &ScanFormat,
    text: &[u8],
    form: OutputForm,
    wanted: &[u8],
)
    requires few { N ≤ 4096 }
    requires some { 1 ≤ N }
{
    let mut from = Lookahead::<SliceSource<'_>, N>::new(SliceSource::new(text));
    let mut out = ListSink::new(rt.alloc());
    let end = run_scan_as(rt.alloc(), &mut from, &mut out, format, form, LIMIT);
    is(rt, &end.fault, &None, &form);
    is(rt, &out.bytes(), &wanted, &form);
}

/// The row's records are written in each form.
fn are_written(rt: &(impl Abort + AllocGlobal), row: &Row) -> Result<(), Fail> {
    let format = ScanFormat::parse(rt.alloc(), Profile::One, row.format.as_bytes())?;
    for (form, wanted) in FORMS.iter().zip(&row.forms) {
        is_written::<3>(rt, &format, row.text, *form, wanted);
        is_written::<4096>(rt, &format, row.text, *form, wanted);
    }
    Ok(())
}

#[test]
fn rows(rt: HostRuntime) -> Result<(), Fail> {
    for row in &ROWS {
        are_written(&rt, row)?;
    }
    Ok(())
}

/// So many letters, and quotes, as they are read.
fn quotes_after(alloc: Global, len: usize) -> Result<Vec<u8>, Fail> {
    let mut text = Vec::new(alloc);
    text.resize(len, b'a')?;
    text.extend_from_slice(b"\"\"\"\"\"\"\"\"\"\n")?;
    Ok(text)
}

/// The same, as they are written.
fn quotes_written(alloc: Global, len: usize) -> Result<Vec<u8>, Fail> {
    let mut text = b"\"".to_vec(alloc)?;
    text.resize(len.saturating_add(1), b'a')?;
    text.extend_from_slice(b"\" \"\\\"\\\"\\\"\\\"\\\"\\\"\\\"\\\"\\\"\"\n")?;
    Ok(text)
}

/// A text of quotes after a long text, around the length from which on a record isn't written in place.
#[test]
fn quotes_after_a_long_text(rt: HostRuntime) -> Result<(), Fail> {
    let format = ScanFormat::parse(rt.alloc(), Profile::One, b"%1100[a]%9[\"]%*1[\n]")?;
    for len in 900..1040usize {
        let text = quotes_after(rt.alloc(), len)?;
        let wanted = quotes_written(rt.alloc(), len)?;
        is_written::<64>(&rt, &format, &text, OutputForm::Plain, &wanted);
    }
    Ok(())
}

/// What is written of a record `-12,abc` in the forms, once each.
const ONCE: &[u8] = b"-12 \"abc\"\n-12\tabc\n[-12,\"abc\"]\n-12,abc\n";

/// The same, twice each.
const TWICE: &[u8] =
    b"-12 \"abc\"\n-12 \"abc\"\n-12\tabc\n-12\tabc\n[-12,\"abc\"]\n[-12,\"abc\"]\n-12,abc\n-12,abc\n";

/// The record is appended to a list in each form.
fn is_pushed<S: Store>(rt: &(impl Abort + AllocGlobal), report: &Report<'_, S>) {
    let mut text = Vec::<u8>::new(rt.alloc());
    for form in &FORMS {
        assert!(rt; push_record(&mut text, *form, report, 2).is_ok());
    }
    is(rt, &text.as_slice(), &ONCE, &"a list");
}

/// The record is written twice in each form.
fn is_written_twice<S: Store>(rt: &(impl Abort + AllocGlobal), report: &Report<'_, S>) {
    let mut out = ListSink::new(rt.alloc());
    for form in &FORMS {
        let mut writer = FormWriter::new(rt.alloc(), *form);
        for _ in 0..2 {
            assert!(rt; writer.write(&mut out, report, 2).is_ok());
        }
    }
    is(rt, &out.bytes(), &TWICE, &"a sink");
}

/// A front of the record is written to a sink that is full then.
fn is_cut<S: Store>(rt: &(impl Abort + AllocGlobal), report: &Report<'_, S>) {
    let steps = [WriteStep::Accept(5), WriteStep::Fail];
    let mut out = ScriptSink::new(rt.alloc(), &steps);
    let mut writer = FormWriter::new(rt.alloc(), OutputForm::Tsv);
    let wrote = writer.write(&mut out, report, 2);
    is(rt, &wrote, &Err(RecordFault::Write), &"a full sink");
    is(rt, &out.bytes(), &b"-12\ta".as_slice(), &"a full sink");
}

#[test]
fn one_record(rt: HostRuntime) -> Result<(), Fail> {
    let format = ScanFormat::parse(rt.alloc(), Profile::One, b"%d,%3[a-z]")?;
    let mut from = Lookahead::<SliceSource<'_>, 64>::new(SliceSource::new(b"-12,abcd"));
    let scanned = fscan_fixed::<3, 2, _, _>(&mut from, &format, LIMIT)?;
    let report = scanned.report();
    is_pushed(&rt, &report);
    is_written_twice(&rt, &report);
    is_cut(&rt, &report);
    Ok(())
}

/// Two records of a number and a text, one with a tab.
#[test]
fn a_table(rt: HostRuntime) -> Result<(), Fail> {
    let format = ScanFormat::parse(rt.alloc(), Profile::One, b"%d,%9[^\n]%*1[\n]")?;
    let mut out = ListSink::new(rt.alloc());
    let end = write_table(rt.alloc(), b"7,a\tb\n-8,c\n", &format, &mut out);
    is(&rt, &end.fault, &None, &"a table");
    is(
        &rt,
        &out.bytes(),
        &b"7\ta\\tb\n-8\tc\n".as_slice(),
        &"a table",
    );
    Ok(())
}
