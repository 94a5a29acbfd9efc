//! Bytes as they are shown in a fault.
ghost use Rattle.std.specs.Prelude.{◌≡◌, ◌<◌};
ghost use Rattle.std.specs.Fmt.{WritesOnOk};
ghost use Rattle.sf_loops.specs.LineTexts.{hex_digit, shown_byte};

use std::fmt;

/// Bytes between quotes: printable ASCII as it stands, a quote and a backslash after a backslash, any other byte as
/// `\t`, `\n`, `\r` or `\xc3`.
#[derive(Clone, Copy)]
pub(crate) struct Shown<'a>(pub(crate) &'a [u8]);

/// A digit of base 16.
fn hex_digit(digit: u8) -> char
    requires { digit < 16 }
    ensures { result ≡ hex_digit digit }
{
    if digit < 10 {
        char::from(b'0' + digit)
    } else {
        char::from(b'a' + (digit - 10))
    }
}

/// Writes one byte as it is shown.
fn write_byte<W: fmt::Write>(f: &mut fmt::Formatter<W>, byte: u8) -> fmt::Result
    ensures { WritesOnOk W.write_str_gives f.old result (shown_byte byte) f.new }
{
    match byte {
        b'\t' => f.write_str("\\t"),
        b'\n' => f.write_str("\\n"),
        b'\r' => f.write_str("\\r"),
        b'"' => f.write_str("\\\""),
        b'\\' => f.write_str("\\\\"),
        b' '..=b'~' => f.write_char(char::from(byte)),
        _ => {
            f.write_str("\\x")?;
            f.write_char(hex_digit(byte / 16))?;
            f.write_char(hex_digit(byte % 16))
        }
    }
}

impl fmt::Display for Shown<'_> {
    ghost use Rattle.std.specs.Prelude.{Some};
    ghost use Rattle.sf_loops.specs.LineTexts.{shown};

    ghost output = { λ bytes. Some (shown bytes.0.now) };

    fn fmt<W: fmt::Write>(&self, f: &mut fmt::Formatter<W>) -> fmt::Result {
        f.write_str("\"")?;
        for byte in self.0 {
            write_byte(f, *byte)?;
        }
        f.write_str("\"")
    }
}
