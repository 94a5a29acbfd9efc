//! The letters of conversion specifications, and what follows them.
ghost use Rattle.std.specs.Prelude.{◌≡◌, ◌≤◌, ◌+◌, ◌&&◌, ◌||◌, true, false, None, length, MatchOption};
ghost use Rattle.std.specs.Prelude.{codes};
ghost use Rattle.std.specs.List.{AllByRecursion};
ghost use Rattle.sf_base.specs.Bytes.{magnitude};
ghost use Rattle.sf_format.specs.Digits.{is_decimal};
ghost use Rattle.sf_format.specs.Lists.{is_any_of, is_written};
ghost use Rattle.sf_format.specs.Scanlist.{backward_range};
ghost use Rattle.sf_format.specs.Leads.{lead_of_signed, lead_of_others};
ghost use Rattle.sf_format.specs.Letters.{letter_of, kind_of};
ghost use Rattle.sf_format.specs.Grammar.{width_of};
ghost use Rattle.sf_format.specs.Rules.{first_of};
ghost use Rattle.sf_format.specs.Faults.{bad_column, letter_rules};
ghost use Rattle.sf_format.specs.Passing.{opening_of, fault_in, Converts, ListsBehind, ShapeBy, IsMade, is_set};

use crate::directive::{Conversion, Directive, Lead, Numeral, Profile, Shape};
use crate::fault::{FormatFault, FormatWhy};
use crate::letter::{Letter, left_out, letter_of, of_double, of_text};
use crate::opening::{Written, capped};
use crate::rule_table::{fault_by, rule};
use crate::scan::scanlist::{Listed, members_set, scanlist};
use sf_base::Kind;

impl Written<'_> {
    /// Whether it has what `n` does not have: a `*`, a width or a `?`.
    fn is_bounded(&self) -> bool
        ensures { result ≡ (self.now.star || is_written self.now.width.now || self.now.optional) }
    {
        self.star || !self.width.is_empty() || self.optional
    }

    /// Whether it has a `=`, and no width, or a letter that has no columns.
    fn is_misplaced(&self, letter: u8) -> bool
        ensures { result ≡ bad_column (opening_of self.now) letter }
    {
        self.column && (self.width.is_empty() || letter == b'c' || letter == b'n')
    }

    /// Whether it has a `=` or a `!` that the letter does not have.
    fn is_mismarked(&self, letter: u8) -> bool
        ensures { result ≡ (bad_column (opening_of self.now) letter
            || (self.now.strict && is_any_of (codes "c[n") letter)) }
    {
        self.is_misplaced(letter) || (self.strict && b"c[n".contains(&letter))
    }
}

/// The first fault of the letter at the place.
fn letter_fault(profile: Profile, written: &Written, letter: u8, at: u16) -> Option<FormatFault>
    ensures { fault_in result ≡ first_of (letter_rules profile (opening_of written.now) letter at) }
{
    let is_known = letter_of(profile, letter).is_some();
    let is_text = of_text(letter);
    let has_length = written.size.is_written();
    let is_misfit = of_double(letter) && has_length && !written.size.is_l();
    fault_by(&[
        rule(FormatWhy::Nul, at, letter == 0),
        rule(FormatWhy::LeftOut, at, left_out(profile, letter)),
        rule(FormatWhy::UnknownLetter, at, !is_known),
        rule(FormatWhy::LeftOut, at, is_text && written.size.is_l()),
        rule(
            FormatWhy::BadLength,
            at,
            (is_text && has_length) || is_misfit,
        ),
        rule(
            FormatWhy::BadCount,
            at,
            letter == b'n' && written.is_bounded(),
        ),
        rule(FormatWhy::BadMark, at, written.is_mismarked(letter)),
    ])
}

/// What the letter at the place converts, and its kind.
pub fn converted(
    profile: Profile,
    written: &Written,
    letter: u8,
    at: u16,
) -> Result<(Letter, Kind), FormatFault>
    ensures { Converts (letter_of profile letter) (λ found. kind_of found written.now.size)
        (letter_rules profile (opening_of written.now) letter at) result }
{
    if let Some(fault) = letter_fault(profile, written, letter, at) {
        return Err(fault);
    }
    let found = letter_of(profile, letter).unwrap();
    let kind = found.values().kind(written.size).unwrap();
    Ok((found, kind))
}

/// The scanlist after the letter at the place, if that is a `[`, else nothing; and what follows.
pub fn list_behind(letter: Letter, at: u16, text: &[u8]) -> Result<Listed<'_>, FormatFault>
    requires { at + 1 + length text.now ≤ 4096 }
    ensures { ListsBehind (is_set letter) at text.now result }
{
    match letter {
        Letter::Set => scanlist(at, text),
        _ => Ok(Listed {
            complemented: false,
            members: &text[..0],
            rest: text,
        }),
    }
}

/// What may stand before the digits of a number with a sign.
fn lead_of_signed(strict: bool) -> Lead
    ensures { result ≡ lead_of_signed strict }
{
    if strict { Lead::Minus } else { Lead::Any }
}

/// What may stand before the digits of another number, or before a text.
fn lead_of_others(strict: bool) -> Lead
    ensures { result ≡ lead_of_others strict }
{
    if strict { Lead::Nothing } else { Lead::Any }
}

/// What the letter takes, by its scanlist if it has one, with `!` or without.
fn shape(letter: Letter, strict: bool, list: &Listed) -> Shape
    requires { is_set letter ≡ true → backward_range 0 list.now.members.now ≡ None }
    ensures { ShapeBy (is_set letter) letter strict list.now result }
{
    match letter {
        Letter::Set => {
            let mut set = members_set(list.members);
            if list.complemented {
                set.complement();
            }
            Shape::Set(set)
        }
        Letter::Signed(base) => Shape::Int(Numeral {
            base,
            lead: lead_of_signed(strict),
        }),
        Letter::Unsigned(base) => Shape::Int(Numeral {
            base,
            lead: lead_of_others(strict),
        }),
        Letter::Chars => Shape::Chars,
        Letter::Text => Shape::Text(lead_of_others(strict)),
        Letter::Count => Shape::Count,
        Letter::Float => Shape::Float(lead_of_signed(strict)),
    }
}

/// The width of a conversion by the letter.
fn width_of(letter: Letter, width: &[u8]) -> Option<u16>
    requires digits { AllByRecursion (λ b. is_decimal b ≡ true) width.now }
    requires bound { magnitude 10 width.now ≤ 65535 }
    ensures { result ≡ width_of letter width.now }
{
    if !width.is_empty() {
        return Some(capped(width) as u16);
    }
    match letter {
        Letter::Chars => Some(1),
        _ => None,
    }
}

/// The conversion of a specification without a fault, where it is wanted.
pub fn conversion(
    wanted: bool,
    letter: Letter,
    kind: Kind,
    written: &Written,
    slot: Option<u8>,
    list: &Listed,
) -> Option<Directive>
    requires digits { AllByRecursion (λ b. is_decimal b ≡ true) written.now.width.now }
    requires bound { magnitude 10 written.now.width.now ≤ 65535 }
    requires forward { is_set letter ≡ true → backward_range 0 list.now.members.now ≡ None }
    ensures { MatchOption result (wanted ≡ false) (λ d. IsMade letter kind (opening_of written.now) slot list.now d) }
{
    if !wanted {
        return None;
    }
    Some(Directive::Conv(Conversion {
        shape: shape(letter, written.strict, list),
        kind,
        width: width_of(letter, written.width),
        slot,
        optional: written.optional,
        opens: None,
        column: written.column,
    }))
}
