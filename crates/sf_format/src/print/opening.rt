//! Conversion specifications of print formats up to their letter.
ghost use Rattle.std.specs.Prelude.{◌≡◌, ◌≤◌, ◌<◌, ◌+◌, length};
ghost use Rattle.sf_format.specs.Cut.{precision_behind};
ghost use Rattle.sf_format.specs.PrintRules.{flags_place, width_place, point_place};
ghost use Rattle.sf_format.specs.Passing.{precision_of, opening_of};

use crate::fronts::{Class, split_front};
use crate::opening::{Written, number_len};

/// Where the parts of a specification begin: its flags, its width, and the point of its precision.
#[derive(Clone, Copy)]
pub struct Places {
    pub flags: u16,
    pub width: u16,
    pub point: u16,
}

/// The digits after a point, if one stands there, and what follows them.
pub fn digits_behind(point: bool, text: &[u8]) -> (&[u8], &[u8])
    ensures digits { precision_of point result.0.now ≡ (precision_behind (point, text.now)).0 }
    ensures rest { result.1.now ≡ (precision_behind (point, text.now)).1 }
{
    if point {
        split_front(text, Class::Digit)
    } else {
        (&text[..0], text)
    }
}

impl Written<'_> {
    /// Where its parts begin, after the `%` at the place.
    pub fn places(&self, percent: u16) -> Places
        requires place { percent ≤ 4096 }
        requires parts { length self.now.number.now + length self.now.flags.now + length self.now.width.now ≤ 4096 }
        ensures flags { result.flags ≡ flags_place percent (opening_of self.now) }
        ensures width { result.width ≡ width_place percent (opening_of self.now) }
        ensures point { result.point ≡ point_place percent (opening_of self.now) }
        ensures low { result.flags + length self.now.flags.now ≤ 65535 }
        ensures bound { result.point < 65535 }
    {
        let flags = percent + 1 + number_len(self.number);
        let width = flags + self.flags.len() as u16;
        Places {
            flags,
            width,
            point: width + self.width.len() as u16,
        }
    }
}
