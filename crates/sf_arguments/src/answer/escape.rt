//! Bytes as a word of the command.
ghost use Rattle.std.specs.Prelude.{◌≡◌, ◌++◌, ◌<◌, IfOk, OnOk};
ghost use Rattle.std.specs.Char.{digit_char};
ghost use Rattle.sf_arguments.specs.Escapes.{Unescapes};
ghost use Rattle.sf_arguments.specs.answer.Escaped.{AreShown, escape_letter, escape_of, escaped};

use std::alloc::{AllocError, Global};

/// The digit of a number below 16.
fn hex_digit(n: u8) -> u8
    requires { n < 16 }
    ensures { result ≡ digit_char n }
{
    if n < 10 { b'0' + n } else { b'a' + (n - 10) }
}

/// The letter that stands for the byte after a backslash.
fn escape_letter(b: u8) -> Option<u8>
    ensures { result ≡ escape_letter b }
{
    match b {
        b'\\' => Some(b'\\'),
        b'\n' => Some(b'n'),
        b'\t' => Some(b't'),
        0x0b => Some(b'v'),
        0x0c => Some(b'f'),
        b'\r' => Some(b'r'),
        _ => None,
    }
}

fn push_escaped(to: &mut Vec<u8>, b: u8) -> Result<(), AllocError>
    ensures { OnOk result (to.new.items ≡ to.old.items ++ escape_of b) }
{
    match escape_letter(b) {
        Some(letter) => to.extend_from_slice(&[b'\\', letter]),
        None if b >= 32 && b <= 126 => to.extend_from_slice(&[b]),
        None => to.extend_from_slice(&[b'\\', b'x', hex_digit(b / 16), hex_digit(b % 16)]),
    }
}

/// The bytes as a word of the command has them, as `%*1[\n]` for a set of the newline: `\n`, `\t`, `\v`, `\f`, `\r`,
/// `\\`, and other bytes that aren't seen as `\x` and two digits. `crate::unescape` gives the bytes back.
pub fn escaped(alloc: Global, bytes: &[u8]) -> Result<Vec<u8>, AllocError>
    ensures word { IfOk result (λ word. word.items ≡ escaped bytes.now) }
    ensures bytes { IfOk result (λ word. Unescapes word.items bytes.now) }
    ensures shown { IfOk result (λ word. AreShown word.items) }
{
    let mut word = Vec::new(alloc);
    for b in bytes {
        push_escaped(&mut word, *b)?;
    }
    Ok(word)
}
