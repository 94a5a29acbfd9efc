//! Texts of values that are written in place, and texts that a sink is handed.
ghost use Rattle.std.specs.Prelude.{Some};
ghost use Rattle.sf_base.specs.Data.{datum_of_number};

use sf_base::{Number, Shown, Value};
use sf_format::{PrintConv, PrintFormat, Profile, Unit};
use sf_print::{
    ListSink, PrintFault, Printables, ScriptSink, WriteStep, visible_len, write_byte,
    write_integer, write_plain_bytes, write_printed, write_text, write_value,
};
use sf_rows::is;
use std::alloc::Global;
use std::test::Fail;

/// A conversion, a value, what C's `printf` prints of it, and how many bytes of that stand after the blanks before it.
type Row = (&'static [u8], Value<'static>, &'static [u8], usize);

static ROWS: [Row; 17] = [
    (b"%d", Value::I32(-12), b"-12", 3),
    (b"%5d", Value::I32(-12), b"  -12", 3),
    (b"%-5d", Value::I32(-12), b"-12  ", 5),
    (b"% d", Value::I32(7), b" 7", 1),
    (b"%05u", Value::U32(42), b"00042", 5),
    (b"%#x", Value::U32(255), b"0xff", 4),
    (b"%.0d", Value::I32(0), b"", 0),
    (b"%x", Value::U32(3735928559), b"deadbeef", 8),
    (b"%08x", Value::U32(3735928559), b"deadbeef", 8),
    (b"%-10X", Value::U32(3735928559), b"DEADBEEF  ", 10),
    (b"%12o", Value::U32(3735928559), b" 33653337357", 11),
    (b"%#010x", Value::U32(3735928559), b"0xdeadbeef", 10),
    (
        b"%25u",
        Value::U32(3735928559),
        b"               3735928559",
        10,
    ),
    (
        b"%025u",
        Value::U32(3735928559),
        b"0000000000000003735928559",
        25,
    ),
    (b"%s", Value::Text(b"\tab "), b"\tab ", 4),
    (b"%4s", Value::Text(b"ab"), b"  ab", 2),
    (b"%.3s", Value::Text(b"abcdef"), b"abc", 3),
];

/// The one conversion of a format.
fn conversion(format: &PrintFormat) -> Option<PrintConv> {
    match format.directives() {
        [Unit::Conv(conv)] => Some(*conv),
        _ => None,
    }
}

/// The conversion of a format that has no other directive.
fn parsed(alloc: Global, text: &[u8]) -> Result<PrintConv, Fail> {
    let format = PrintFormat::parse(alloc, Profile::One, text)?;
    Ok(conversion(&format).ok_or("not one conversion")?)
}

/// What stands before the text, and the room after it.
const FRONT: &[u8] = b"n=";

const ROOM: usize = 64;

/// The text of the row is written after the front.
fn is_written(alloc: Global, row: &Row) -> Result<(), Fail> {
    let (format, value, wanted, seen) = row;
    let format = PrintFormat::parse(alloc, Profile::One, format)?;
    let conv = conversion(&format).ok_or("not one conversion")?;
    let mut buf = [b'n'; ROOM];
    buf[1] = b'=';
    let end = write_value(&conv, value.shown(), &mut buf, 2).ok_or("no room")?;
    let text = buf.get(2..end).unwrap_or(b"");
    is(&text, wanted, row)?;
    is(&buf.get(..2), &Some(FRONT), row)?;
    is(&visible_len(text), seen, row)
}

#[test]
fn values_are_written_in_place(rt: HostRuntime) -> Result<(), Fail> {
    for row in &ROWS {
        is_written(rt.alloc(), row)?;
    }
    Ok(())
}

/// A conversion, and what C's `printf` prints of -12.
static INTEGERS: [(&[u8], &[u8]); 14] = [
    (b"%d", b"-12"),
    (b"%5d", b"  -12"),
    (b"%-5d", b"-12  "),
    (b"%05d", b"-0012"),
    (b"%+d", b"-12"),
    (b"%+05d", b"-0012"),
    (b"% d", b"-12"),
    (b"% 05d", b"-0012"),
    (b"%.3d", b"-012"),
    (b"%8.3d", b"    -012"),
    (b"%-8.3d", b"-012    "),
    (b"%018d", b"-00000000000000012"),
    (b"%-20d", b"-12                 "),
    (b"%20d", b"                 -12"),
];

/// A conversion, and what it prints of the bytes `abcd` where it prints bytes as they are.
static PLAIN_BYTES: [(&[u8], Option<&[u8]>); 3] = [
    (b"%s", Some(b"abcd")),
    (b"%5s", None),
    (b"%.3s", None),
];

fn minus_twelve() -> Option<Number> {
    match Value::I32(-12).shown() {
        Shown::Number(number) => Some(number),
        Shown::Text(_) | Shown::Real(_) => None,
    }
}

/// What was written up to this end, after two bytes.
fn written(buf: &[u8], end: Option<usize>) -> Option<&[u8]> {
    buf.get(2..end?)
}

/// The number is written so by the conversion.
fn is_integer(conv: &PrintConv, number: Number, wanted: &[u8]) -> Result<(), Fail> {
    let mut buf = [b'|'; ROOM];
    let end = write_integer(conv, number, &mut buf, 2);
    is(&written(&buf, end), &Some(wanted), conv)
}

#[test]
fn integers_are_written_in_place(rt: HostRuntime) -> Result<(), Fail> {
    let number = minus_twelve().ok_or("no number")?;
    for (text, wanted) in &INTEGERS {
        is_integer(&parsed(rt.alloc(), text)?, number, wanted)?;
    }
    Ok(())
}

#[test]
fn a_byte_is_written_in_place(_rt: HostRuntime) -> Result<(), Fail> {
    let mut buf = [b'|'; 2];
    is(&write_byte(b'=', &mut buf, 1), &Some(2), &"room")?;
    is(&write_byte(b'+', &mut buf, 2), &None, &"no room")?;
    is(&buf.get(..2), &Some(b"|=".as_slice()), &"=")
}

/// A number, which each conversion finds.
#[derive(Drop)]
struct OneForAll {
    number: Number,
}

impl Printables for OneForAll {
    ghost value_of = { λ one conv. Some (datum_of_number one.number) };

    fn shown_by(&self, _conv: &PrintConv) -> Option<Shown<'_>> {
        Some(Shown::Number(self.number))
    }
}

/// A format, and what it prints of -12 alone. None where that isn't of the kind that is due, or has no room.
static FORMATS: [(&[u8], Option<&[u8]>); 4] = [
    (b"<%05d>", Some(b"<-0012>")),
    (b"%d;%-4d%%", Some(b"-12;-12 %")),
    (b"%hd", None),
    (b"%70d", None),
];

#[test]
fn formats_are_written_in_place(rt: HostRuntime) -> Result<(), Fail> {
    let number = minus_twelve().ok_or("no number")?;
    let one = OneForAll { number };
    for (text, wanted) in &FORMATS {
        let format = PrintFormat::parse(rt.alloc(), Profile::One, text)?;
        let mut buf = [b'|'; ROOM];
        match write_printed(&format, &one, &mut buf) {
            Some(end) => is(&buf.get(..end), wanted, text)?,
            None => is(&None, wanted, text)?,
        }
    }
    Ok(())
}

/// The bytes are written so by the conversion after two bytes, and not at all where there is a byte less of room.
fn are_plain_bytes(conv: &PrintConv, wanted: Option<&[u8]>) -> Result<(), Fail> {
    let mut buf = [b'|'; 6];
    let end = write_plain_bytes(conv, b"abcd", &mut buf, 2);
    let mut full = buf;
    let none = write_plain_bytes(conv, b"abcd", &mut full, 3);
    is(&(written(&buf, end), none), &(wanted, None), conv)
}

#[test]
fn plain_bytes_are_written_in_place(rt: HostRuntime) -> Result<(), Fail> {
    for (text, wanted) in &PLAIN_BYTES {
        are_plain_bytes(&parsed(rt.alloc(), text)?, *wanted)?;
    }
    Ok(())
}

#[test]
fn a_full_buffer_has_no_room(rt: HostRuntime) -> Result<(), Fail> {
    let format = PrintFormat::parse(rt.alloc(), Profile::One, b"%5d")?;
    let conv = conversion(&format).ok_or("not one conversion")?;
    let mut buf = [b'|'; 8];
    let found = write_value(&conv, Value::I32(-12).shown(), &mut buf, 4);
    is(&found, &None, &"%5d")?;
    is(&buf.get(..4), &Some(b"||||".as_slice()), &"%5d")
}

#[test]
fn a_text_is_handed_over(rt: HostRuntime) -> Result<(), Fail> {
    let mut list = ListSink::new(rt.alloc());
    let answer = write_text(&mut list, b"12,-7\n");
    let all = (answer, list.bytes());
    let mut script = ScriptSink::new(rt.alloc(), &[WriteStep::Accept(4), WriteStep::Fail]);
    let answer = write_text(&mut script, b"12,-7\n");
    let fault = PrintFault::Sink { written: 4 };
    let wanted = (
        (Ok(6), b"12,-7\n".as_slice()),
        (Err(fault), b"12,-".as_slice()),
    );
    is(&(all, (answer, script.bytes())), &wanted, &"all and four")
}
