//! Letters of print formats, and what they convert.
ghost use Rattle.std.specs.Prelude.{◌≡◌, ◌≤◌, ◌+◌, ◌++◌, ℕ, true, length, Some};
ghost use Rattle.std.specs.List.{AllByRecursion};
ghost use Rattle.sf_base.specs.Bytes.{magnitude};
ghost use Rattle.std.specs.Option.{option_map};
ghost use Rattle.sf_format.specs.Digits.{is_decimal};
ghost use Rattle.sf_format.specs.Slots.{slot_of};
ghost use Rattle.sf_format.specs.PrintLetters.{print_row, print_letter_of, print_kind_of, letter_among, float_letters};
ghost use Rattle.sf_format.specs.PrintGrammar.{IsPrintConv};
ghost use Rattle.sf_format.specs.Rules.{first_of};
ghost use Rattle.sf_format.specs.PrintRules.{is_print_left_out, print_letter_rules, flag_rules, foreign_flag};
ghost use Rattle.sf_format.specs.PrintRules.{precision_number};
ghost use Rattle.sf_format.specs.Passing.{opening_of, fault_in, Converts};

use crate::directive::Profile;
use crate::fault::{FormatFault, FormatWhy};
use crate::letter::{Values, has_doubles, of_double, of_text};
use crate::opening::{Written, capped};
use crate::rule_table::{fault_by, rule};
use crate::unit::{FloatStyle, PrintConv, PrintLetter};
use sf_base::Kind;

/// What the byte prints as a letter.
pub fn print_letter_of(profile: Profile, b: u8) -> Option<PrintLetter>
    ensures { result ≡ print_letter_of profile b }
{
    match b {
        b'd' | b'i' => Some(PrintLetter::Signed),
        b'u' => Some(PrintLetter::Unsigned),
        b'o' => Some(PrintLetter::Octal),
        b'x' => Some(PrintLetter::HexLower),
        b'X' => Some(PrintLetter::HexUpper),
        b's' => Some(PrintLetter::Text),
        b'c' => Some(PrintLetter::One),
        b'b' => match profile {
            Profile::One => None,
            Profile::Two | Profile::Three => Some(PrintLetter::Binary),
        },
        _ => match profile {
            Profile::One | Profile::Two => None,
            Profile::Three => float_letter_of(b),
        },
    }
}

/// The letter of a float that the byte is.
fn float_letter_of(b: u8) -> Option<PrintLetter>
    ensures { result ≡ letter_among float_letters b }
{
    let (style, upper) = match b {
        b'f' => (FloatStyle::Fixed, false),
        b'F' => (FloatStyle::Fixed, true),
        b'e' => (FloatStyle::Exponent, false),
        b'E' => (FloatStyle::Exponent, true),
        b'g' => (FloatStyle::General, false),
        b'G' => (FloatStyle::General, true),
        b'a' => (FloatStyle::Hexadecimal, false),
        b'A' => (FloatStyle::Hexadecimal, true),
        _ => return None,
    };
    Some(PrintLetter::Float(style, upper))
}

/// Whether the byte is a letter, a length or a mark that C or POSIX has and print formats here do not.
fn print_left_out(profile: Profile, b: u8) -> bool
    ensures { result ≡ is_print_left_out profile b }
{
    b"*'nLpCS".contains(&b) || (of_double(b) && !has_doubles(profile))
}

/// A row of the table of letters: what the letter prints, and the flags that it has.
#[derive(Clone, Copy)]
pub struct PrintRow {
    pub prints: Values,
    pub flags: &'static [u8],
}

/// The table of the letters of print formats.
fn print_row(letter: PrintLetter) -> PrintRow
    ensures prints { result.prints ≡ (print_row letter).prints }
    ensures flags { result.flags.now ≡ (print_row letter).flags }
{
    let (prints, flags): (Values, &'static [u8]) = match letter {
        PrintLetter::Signed => (Values::Signed, b"-+ 0"),
        PrintLetter::Unsigned => (Values::Unsigned, b"-0"),
        PrintLetter::Octal => (Values::Unsigned, b"-#0"),
        PrintLetter::HexLower => (Values::Unsigned, b"-#0"),
        PrintLetter::HexUpper => (Values::Unsigned, b"-#0"),
        PrintLetter::Text => (Values::Text, b"-"),
        PrintLetter::One => (Values::Text, b"-"),
        PrintLetter::Binary => (Values::Unsigned, b"-#0"),
        PrintLetter::Float(..) => (Values::Double, b"-+ #0"),
    };
    PrintRow { prints, flags }
}

/// The first fault of the letter at the place.
fn print_letter_fault(
    profile: Profile,
    written: &Written,
    letter: u8,
    at: u16,
) -> Option<FormatFault>
    ensures { fault_in result ≡ first_of (print_letter_rules profile (opening_of written.now) letter at) }
{
    let is_known = print_letter_of(profile, letter).is_some();
    let is_text = of_text(letter);
    let is_double = of_double(letter);
    let has_length = written.size.is_written();
    fault_by(&[
        rule(FormatWhy::Nul, at, letter == 0),
        rule(FormatWhy::LeftOut, at, print_left_out(profile, letter)),
        rule(FormatWhy::UnknownLetter, at, !is_known),
        rule(FormatWhy::LeftOut, at, is_text && written.size.is_l()),
        rule(FormatWhy::BadLength, at, is_text && has_length),
        rule(
            FormatWhy::BadLength,
            at,
            is_double && has_length && !written.size.is_l(),
        ),
    ])
}

/// What the letter at the second place prints, and its kind, where what stands before it suits it. The `%` stands at
/// the first.
pub fn print_converted(
    profile: Profile,
    written: &Written,
    letter: u8,
    percent: u16,
    at: u16,
) -> Result<(PrintLetter, Kind), FormatFault>
    requires place { percent ≤ 4096 }
    requires parts { length written.now.number.now + length written.now.flags.now + length written.now.width.now
        ≤ 4096 }
    ensures { Converts (print_letter_of profile letter) (λ found. print_kind_of found written.now.size)
        (print_letter_rules profile (opening_of written.now) letter at
        ++ flag_rules percent (opening_of written.now) (print_letter_of profile letter)) result }
{
    if let Some(fault) = print_letter_fault(profile, written, letter, at) {
        return Err(fault);
    }
    let found = print_letter_of(profile, letter).unwrap();
    if let Some(fault) = flag_fault(percent, written, found) {
        return Err(fault);
    }
    let kind = print_row(found).prints.kind(written.size).unwrap();
    Ok((found, kind))
}

/// The place of the first flag that the letter does not have, where the flags begin at a place.
fn foreign_flag(letter: PrintLetter, from: u16, flags: &[u8]) -> Option<u16>
    requires { from + length flags.now ≤ 65535 }
    ensures { result ≡ foreign_flag letter from flags.now }
{
    for (i, b) in flags.iter().enumerate() {
        if !print_row(letter).flags.contains(b) {
            return Some(from + i as u16);
        }
    }
    None
}

/// The first fault between the `%` at the place and the letter, as far as the letter doesn't have it.
fn flag_fault(percent: u16, written: &Written, letter: PrintLetter) -> Option<FormatFault>
    requires place { percent ≤ 4096 }
    requires parts { length written.now.number.now + length written.now.flags.now + length written.now.width.now
        ≤ 4096 }
    ensures { fault_in result ≡ first_of (flag_rules percent (opening_of written.now) (Some letter)) }
{
    let places = written.places(percent);
    let foreign = foreign_flag(letter, places.flags, written.flags);
    let is_one = matches!(letter, PrintLetter::One);
    fault_by(&[
        rule(FormatWhy::BadFlag, foreign.unwrap_or(0), foreign.is_some()),
        rule(FormatWhy::BadFlag, places.point, is_one && written.point),
    ])
}

fn precision_of(written: &Written) -> Option<u8>
    requires digits { written.now.point ≡ true → AllByRecursion (λ b. is_decimal b ≡ true) written.now.precision.now }
    requires bound { precision_number (opening_of written.now).precision ≤ 255 }
    ensures { result ≡ option_map (λ ds. magnitude 10 ds) (opening_of written.now).precision }
{
    if written.point {
        Some(capped(written.precision) as u8)
    } else {
        None
    }
}

/// The conversion of a specification without a fault.
pub fn conversion(written: &Written, letter: PrintLetter, kind: Kind, slot: u8) -> PrintConv
    requires width { AllByRecursion (λ b. is_decimal b ≡ true) written.now.width.now }
    requires precision { written.now.point ≡ true → AllByRecursion
        (λ b. is_decimal b ≡ true) written.now.precision.now }
    requires wide { magnitude 10 written.now.width.now ≤ 65535 }
    requires precise { precision_number (opening_of written.now).precision ≤ 255 }
    ensures { (place : ℕ) → slot_of place (opening_of written.now) ≡ Some slot
        → print_kind_of letter written.now.size ≡ Some kind
        → IsPrintConv place (opening_of written.now) letter result }
{
    PrintConv {
        letter,
        kind,
        slot,
        minus: written.flags.contains(&b'-'),
        plus: written.flags.contains(&b'+'),
        blank: written.flags.contains(&b' '),
        alt: written.flags.contains(&b'#'),
        zero: written.flags.contains(&b'0'),
        width: capped(written.width) as u16,
        precision: precision_of(written),
    }
}
