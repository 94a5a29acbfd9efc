//! The text of any float.
ghost use Rattle.std.specs.Prelude.{◌≡◌, ◌+◌, ◌<◌, ◌≤◌, ◌++◌, take, IsTrue};
ghost use Rattle.std.specs.Float.{float_is_finite, is_sign_negative};
ghost use Rattle.std.specs.Fmt.{sign_text};
ghost use Rattle.sf_float.specs.fewest.Digits.{number_of};
ghost use Rattle.sf_float.specs.fewest.Laid.{size_text, shortest_text};

use crate::fewest::cut::cut_of;
use crate::fewest::laid::{ROOM, put, put_laid_out, put_sign};
use crate::fewest::trial::{number_of, shortest};
use sf_base::Real;

/// `inf`, `nan` or `0.0`.
fn put_word(word: [u8; 3], out: &mut [u8; ROOM], at: usize) -> usize
    requires { at ≤ 1 }
    ensures end { result ≡ at + 3 }
    ensures text { take result out.new ≡ take at out.old ++ word }
{
    let end = put(word[0], out, at);
    let end = put(word[1], out, end);
    put(word[2], out, end)
}

fn put_finite(real: Real, x: f64, out: &mut [u8; ROOM], at: usize) -> usize
    requires finite { IsTrue (float_is_finite x) }
    requires number { x ≡ number_of real }
    requires room { at ≤ 1 }
    ensures end { (0 < result) × (result ≤ 32) }
    ensures text { take result out.new ≡ take at out.old ++ size_text real x }
{
    match cut_of(x) {
        Some(cut) => {
            let (n, last) = shortest(real, cut);
            put_laid_out(real, n, last, out, at)
        },
        None => put_word(*b"0.0", out, at),
    }
}

/// Writes the text of a float at the front, and answers how long it is. The bytes after it may change.
pub fn write_shortest(real: Real, out: &mut [u8; ROOM]) -> usize
    ensures text { take result out.new ≡ shortest_text real }
    ensures some { 0 < result }
    ensures within { result ≤ 32 }
{
    let x = number_of(real);
    if x.is_nan() {
        return put_word(*b"nan", out, 0);
    }
    let at = put_sign(x.is_sign_negative(), out, 0);
    if x.is_infinite() {
        return put_word(*b"inf", out, at);
    }
    put_finite(real, x, out, at)
}
