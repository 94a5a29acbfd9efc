//! Values that are written in place with their separators, from a place on, and the records that are made of them.
ghost use Rattle.std.specs.Prelude.{◌≤◌, ◌<◌, length};

use crate::copies::is;
use sf_base::{Kind, Number, Real};
use sf_forms::{
    OutputForm, end_values, write_number_value, write_real, write_real_value, write_text_value,
};
use sf_print::copy_over;
use std::process::Abort;

/// Of a front of a piece, so many bytes, what is written.
type Between = (&'static [u8], usize, &'static [u8]);

static BETWEEN: [Between; 14] = [
    (b"plain,and what stands after it", 5, b".\"plain\" "),
    (b",and what stands after it", 0, b".\"\" "),
    (b"sixteen letters,", 15, b".\"sixteen letters\" "),
    (b"sixteen letters,", 16, b".\"sixteen letters,\" "),
    (b"seventeen letters", 16, b".\"seventeen letter\" "),
    (b"seventeen letters", 17, b".\"seventeen letters\" "),
    (b"short", 3, b".\"sho\" "),
    (b"short", 5, b".\"short\" "),
    (b"", 0, b".\"\" "),
    (b"a \"quote\" and more of it", 9, b".\"a \\\"quote\\\"\" "),
    (b"back\\slash, and more of it", 10, b".\"back\\\\slash\" "),
    (b"plain, then \"a quote\"", 5, b".\"plain\" "),
    (
        b"\x00\x1f\x7f\xe9 and more than these",
        4,
        b".\"\\x00\\x1f\\x7f\\xe9\" ",
    ),
    (
        b"a text with \t, of twenty bytes",
        16,
        b".\"a text with \\x09, o\" ",
    ),
];

/// The same as a field of a table.
static FIELDS: [Between; 8] = [
    (b"plain,and what stands after it", 5, b".plain\t"),
    (b",and what stands after it", 0, b".\t"),
    (b"sixteen letters,", 16, b".sixteen letters,\t"),
    (b"seventeen letters", 17, b".seventeen letters\t"),
    (b"a\ttab, and more of it", 5, b".a\\ttab\t"),
    (b"two\nlines, and more", 9, b".two\\nlines\t"),
    (b"a \\ and a \r at its end", 11, b".a \\\\ and a \\r\t"),
    (b"say \"hi\", and more", 8, b".say \"hi\"\t"),
];

/// As a field of comma-separated values (RFC 4180, 2).
static COLUMNS: [Between; 8] = [
    (b"plain,and what stands after it", 5, b".plain,"),
    (b",and what stands after it", 0, b".,"),
    (b"sixteen letters;", 16, b".sixteen letters;,"),
    (b"seventeen letters", 17, b".seventeen letters,"),
    (b"a,b, and more of it", 3, b".\"a,b\","),
    (b"say \"hi\", and more", 8, b".\"say \"\"hi\"\"\","),
    (b"two\nlines, and more", 9, b".\"two\nlines\","),
    (b"a\ttab, and more of it", 5, b".a\ttab,"),
];

/// As a string of JSON (RFC 8259, 7).
static STRINGS: [Between; 8] = [
    (b"plain,and what stands after it", 5, b".,\"plain\""),
    (b",and what stands after it", 0, b".,\"\""),
    (b"sixteen letters;", 16, b".,\"sixteen letters;\""),
    (b"seventeen letters", 17, b".,\"seventeen letters\""),
    (b"say \"hi\", and more", 8, b".,\"say \\\"hi\\\"\""),
    (b"a\\\n\x01 and more of it", 4, b".,\"a\\\\\\n\\u0001\""),
    (b"caf\xc3\xa9, and more of it", 5, b".,\"caf\xc3\xa9\""),
    (b"caf\xe9, and more of it all", 4, b".,\"caf\\udce9\""),
];

/// What is written of so many bytes of a piece, after a byte.
fn between<'b>(form: OutputForm, piece: &[u8], count: usize, buf: &'b mut [u8]) -> Option<&'b [u8]>
    requires { 1 < length buf.old }
{
    let end = write_text_value(form, piece, count.min(piece.len()), buf, 1)?;
    buf.get(..end)
}

/// Each front is written so in the form.
fn are_fronts(rt: &impl Abort, form: OutputForm, rows: &[Between]) {
    for (piece, count, wanted) in rows {
        let mut buf = [b'.'; 64];
        is(
            rt,
            &between(form, piece, *count, &mut buf),
            &Some(*wanted),
            piece,
        );
    }
}

#[test]
fn a_front_is_written_in_each_form(rt: HostRuntime) {
    are_fronts(&rt, OutputForm::Plain, &BETWEEN);
    are_fronts(&rt, OutputForm::Tsv, &FIELDS);
    are_fronts(&rt, OutputForm::Csv, &COLUMNS);
    are_fronts(&rt, OutputForm::Json, &STRINGS);
}

/// There is room for the bytes, and not for as many more as are asked for.
#[test]
fn there_is_no_room_for_a_front(rt: HostRuntime) {
    let mut buf = [b'.'; 40];
    let long = b"a text of forty bytes, and there is not so much room";
    is(
        &rt,
        &between(OutputForm::Plain, long, 40, &mut buf),
        &None,
        &"no room",
    );
}

/// What is written of a number, after a byte.
fn number_in(form: OutputForm, number: Number, buf: &mut [u8]) -> Option<&[u8]>
    requires { 1 < length buf.old }
{
    let end = write_number_value(form, number, buf, 1)?;
    buf.get(..end)
}

/// A form, and what is written in it, after a byte.
type InForm = (OutputForm, &'static [u8]);

static NUMBERS: [InForm; 4] = [
    (OutputForm::Plain, b".-12 "),
    (OutputForm::Tsv, b".-12\t"),
    (OutputForm::Json, b".,-12"),
    (OutputForm::Csv, b".-12,"),
];

#[test]
fn a_number_is_written_in_each_form(rt: HostRuntime) {
    let number = Number {
        kind: Kind::I32,
        negative: true,
        magnitude: 12,
    };
    for (form, wanted) in &NUMBERS {
        let mut buf = [b'.'; 64];
        is(
            &rt,
            &number_in(*form, number, &mut buf),
            &Some(*wanted),
            form,
        );
    }
}

/// Floats by their patterns, and their texts in two forms.
static REALS: [(Real, &[u8], &[u8]); 5] = [
    (Real::F64(0x3ff8_0000_0000_0000), b".1.5", b".1.5"),
    (Real::F64(0xbff0_0000_0000_0000), b".-1.0", b".-1.0"),
    (Real::F32(0x3dcc_cccd), b".0.1", b".0.1"),
    (Real::F64(0x7ff0_0000_0000_0000), b".inf", b".\"inf\""),
    (Real::F32(0xff80_0000), b".-inf", b".\"-inf\""),
];

/// What is written of a float, after a byte.
fn real_in(form: OutputForm, real: Real, buf: &mut [u8]) -> Option<&[u8]>
    requires { 1 < length buf.old }
{
    let end = write_real(form, real, buf, 1)?;
    buf.get(..end)
}

/// The float is written so in the form.
fn is_real(rt: &impl Abort, form: OutputForm, real: Real, wanted: &[u8]) {
    let mut buf = [b'.'; 64];
    is(rt, &real_in(form, real, &mut buf), &Some(wanted), &real);
}

#[test]
fn floats_are_written_in_two_forms(rt: HostRuntime) {
    for (real, plain, json) in &REALS {
        is_real(&rt, OutputForm::Plain, *real, plain);
        is_real(&rt, OutputForm::Json, *real, json);
    }
}

/// What is written of a float with its separator, after a byte.
fn real_value_in(form: OutputForm, real: Real, buf: &mut [u8]) -> Option<&[u8]>
    requires { 1 < length buf.old }
{
    let end = write_real_value(form, real, buf, 1)?;
    buf.get(..end)
}

static HALVES: [InForm; 4] = [
    (OutputForm::Plain, b".0.5 "),
    (OutputForm::Tsv, b".0.5\t"),
    (OutputForm::Json, b".,0.5"),
    (OutputForm::Csv, b".0.5,"),
];

#[test]
fn a_float_has_its_separator(rt: HostRuntime) {
    let half = Real::F64(0x3fe0_0000_0000_0000);
    for (form, wanted) in &HALVES {
        let mut buf = [b'.'; 64];
        is(
            &rt,
            &real_value_in(*form, half, &mut buf),
            &Some(*wanted),
            form,
        );
    }
}

/// Of values in a form, each with its separator, the record.
type Ended = (OutputForm, &'static [u8], Option<&'static [u8]>);

static ENDED: [Ended; 7] = [
    (OutputForm::Plain, b"12 -7 ", Some(b"12 -7\n")),
    (OutputForm::Tsv, b"12\t\t", Some(b"12\t\n")),
    (OutputForm::Csv, b"12,,", Some(b"12,\n")),
    (OutputForm::Csv, b",", Some(b"\"\"\n")),
    (OutputForm::Tsv, b"\t", Some(b"\n")),
    (OutputForm::Json, b",12,\"a\"", Some(b"[12,\"a\"]\n")),
    (OutputForm::Json, b"", None),
];

/// The record of values that stand at the front of the array.
fn ended<'b>(form: OutputForm, values: &[u8], buf: &'b mut [u8]) -> Option<&'b [u8]>
    requires { 64 ≤ length buf.old }
{
    if values.len() > 62 {
        return None;
    }
    copy_over(values, buf, 0);
    let end = end_values(form, buf, values.len())?;
    buf.get(..end)
}

#[test]
fn values_become_a_record(rt: HostRuntime) {
    for (form, values, wanted) in &ENDED {
        let mut buf = [b'.'; 64];
        is(&rt, &ended(*form, values, &mut buf), wanted, values);
    }
}

#[test]
fn there_is_no_room_for_the_bracket(rt: HostRuntime) {
    let mut buf = [b','; 4];
    is(
        &rt,
        &end_values(OutputForm::Json, &mut buf, 3),
        &None,
        &"no room",
    );
}
