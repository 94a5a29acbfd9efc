//! Escapes in words.
ghost use Rattle.std.specs.Prelude.{◌≡◌, ◌≤◌, ℕ, List, Some, IfOk, IfErr, IfSome, length};
ghost use Rattle.sf_arguments.specs.Escapes.{IsBadEscape, IsFaultOf, Unescapes, hex_piece, letter_byte, piece_of};
ghost use Rattle.sf_arguments.specs.Texts.{escape_fault_text};
ghost use Rattle.sf_arguments.specs.declared.escape.EscapeFault.TheVariants.{Memory};

use sf_base::digit_value;
use std::alloc::{AllocError, Global};
use std::error::Error;
use std::fmt;

/// Why a word's escapes are not resolved.
#[derive(Clone, Copy, Debug, PartialEq, Eq)]
pub enum EscapeFault {
    /// The first bad escape, by the offset of its backslash in the word.
    Bad { at: usize },
    /// Memory was refused.
    Memory,
}

impl From<AllocError> for EscapeFault {
    ghost from_gives = { λ _ given. given ≡ Memory };

    fn from(_error: AllocError) -> EscapeFault {
        EscapeFault::Memory
    }
}

impl fmt::Display for EscapeFault {
    ghost output = { λ fault. Some (escape_fault_text fault) };

    fn fmt<W: fmt::Write>(&self, f: &mut fmt::Formatter<W>) -> fmt::Result {
        match *self {
            EscapeFault::Bad { at } => write!(f, "bad escape at {at}"),
            EscapeFault::Memory => write!(f, "out of memory"),
        }
    }
}

impl Error for EscapeFault {}

/// The byte at the front of a word, and how many bytes of the word stand for it.
#[derive(Clone, Copy, Debug, PartialEq, Eq)]
struct Piece {
    byte: u8,
    size: usize,
}

/// The byte that a backslash and this one stand for.
fn letter_byte(c: u8) -> Option<u8>
    ensures { result ≡ letter_byte c }
{
    match c {
        b'\\' => Some(b'\\'),
        b'n' => Some(10),
        b't' => Some(9),
        b'v' => Some(11),
        b'f' => Some(12),
        b'r' => Some(13),
        _ => None,
    }
}

/// The byte of two hexadecimal digits after `\x`.
fn hex_piece(high: u8, low: u8) -> Option<Piece>
    ensures { result ≡ hex_piece high low }
{
    let high = digit_value(high, 16)?;
    let low = digit_value(low, 16)?;
    Some(Piece {
        byte: high * 16 + low,
        size: 4,
    })
}

/// What stands at the front of a word. None where it begins with a bad escape, or is empty.
fn piece_of(word: &[u8]) -> Option<Piece>
    ensures piece { result ≡ piece_of word.now }
    ensures size { IfSome result (λ piece. (1 ≤ piece.size) × (piece.size ≤ length word.now)) }
{
    match word {
        [b'\\', b'x', high, low, ..] => hex_piece(*high, *low),
        [b'\\', b'x', ..] => None,
        [b'\\', c, ..] => Some(Piece {
            byte: letter_byte(*c)?,
            size: 2,
        }),
        [b'\\'] => None,
        [b, ..] => Some(Piece { byte: *b, size: 1 }),
        [] => None,
    }
}

/// How many bytes a word stands for, its escapes resolved; or the offset of the backslash of its first bad escape. It
/// takes no memory.
pub(crate) fn escapes_of(word: &[u8]) -> Result<usize, usize>
    ensures count { IfOk result (λ count. (bytes : List ℕ) × Unescapes word.now bytes × (count ≡ length bytes)) }
    ensures bad { IfErr result (IsBadEscape word.now) }
{
    let mut count = 0;
    let mut at = 0;
    while at < word.len() {
        let Some(piece) = piece_of(&word[at..]) else {
            return Err(at);
        };
        count += 1;
        at += piece.size;
    }
    Ok(count)
}

/// The bytes that a word without a bad escape stands for.
pub(crate) fn resolve(alloc: Global, word: &[u8]) -> Result<Vec<u8>, AllocError>
    requires { (bytes : List ℕ) × Unescapes word.now bytes }
    ensures { IfOk result (λ bytes. Unescapes word.now bytes.items) }
{
    let mut bytes = Vec::new(alloc);
    let mut at = 0;
    while at < word.len() {
        let Some(piece) = piece_of(&word[at..]) else {
            unreachable!()
        };
        bytes.push(piece.byte)?;
        at += piece.size;
    }
    Ok(bytes)
}

/// The bytes that a word stands for: a backslash and one of `\ n t v f r`, or `\x` and two hexadecimal digits, stand
/// for one byte, and every other byte for itself.
///
/// It refuses a word's first bad escape, then want of memory.
pub fn unescape(alloc: Global, word: &[u8]) -> Result<Vec<u8>, EscapeFault>
    ensures ok { IfOk result (λ bytes. Unescapes word.now bytes.items) }
    ensures err { IfErr result (IsFaultOf word.now) }
{
    match escapes_of(word) {
        Ok(_) => Ok(resolve(alloc, word)?),
        Err(at) => Err(EscapeFault::Bad { at }),
    }
}
