//! One conversion of a print format and one of a scan format.
ghost use Rattle.std.specs.Prelude.{◌≡◌, ◌==◌, ◌&&◌, ◌≤◌, length, Some, None};
ghost use Rattle.sf_print.specs.Printed.{same_kind};
ghost use Rattle.sf_print.specs.texts.Text.{pads_with_zeros, least_digits};
ghost use Rattle.sf_print.specs.texts.Visible.{least};
ghost use Rattle.sf_pair.specs.conversions.Neighbours.{meet, first_by, stop_set};
ghost use Rattle.sf_pair.specs.Groups.{is_integer, is_number, is_text, is_chars, is_auto, bases_pair, signs_pair};
ghost use Rattle.sf_pair.specs.Groups.{letters_pair, width_of, is_hex_float, adds_to_number, fills_badly};
ghost use Rattle.sf_pair.specs.Groups.{is_other_width, bad_mark};
ghost use Rattle.sf_pair.specs.Groups.{kinds_differ, numbers_differ, bad_flag, has_no_width, too_narrow, leading_zero};
ghost use Rattle.sf_pair.specs.Groups.{pairing_fault, always_full, is_closed, closing_fault};

use crate::conversions::{
    fills_with_zeros, goes_on, is_auto_base, may_begin, pads_with_zeros, zero_len,
};
use crate::fault::PairWhy;
use sf_base::{Rule, first_fault};
use sf_format::{Base, Conversion, FloatStyle, Lead, PrintConv, PrintLetter, Shape, Unit};
use sf_print::least_len;
use sf_report::laws::bytes_are_tried;

fn is_integer(read: &Shape) -> bool
    ensures { result ≡ is_integer read.now }
{
    matches!(read, Shape::Int(_))
}

fn is_number(read: &Shape) -> bool
    ensures { result ≡ is_number read.now }
{
    matches!(read, Shape::Int(_) | Shape::Float(_))
}

fn is_text(read: &Shape) -> bool
    ensures { result ≡ is_text read.now }
{
    matches!(read, Shape::Text(_))
}

fn is_chars(read: &Shape) -> bool
    ensures { result ≡ is_chars read.now }
{
    matches!(read, Shape::Chars)
}

fn is_auto(read: &Shape) -> bool
    ensures { result ≡ is_auto read.now }
{
    match read {
        Shape::Int(numeral) => is_auto_base(numeral.base),
        _ => false,
    }
}

fn bases_pair(letter: PrintLetter, base: Base) -> bool
    ensures { result ≡ bases_pair letter base }
{
    match (letter, base) {
        (PrintLetter::Signed, Base::Dec | Base::Auto | Base::AutoBin) => true,
        (PrintLetter::Unsigned, Base::Dec) => true,
        (PrintLetter::Octal, Base::Oct) => true,
        (PrintLetter::HexLower | PrintLetter::HexUpper, Base::Hex) => true,
        (PrintLetter::Binary, Base::Bin) => true,
        _ => false,
    }
}

/// Whether the letter writes no minus, or a minus may stand there.
fn signs_pair(letter: PrintLetter, lead: Lead) -> bool
    ensures { result ≡ signs_pair letter lead }
{
    letter != PrintLetter::Signed || lead.has_minus()
}

fn letters_pair(letter: PrintLetter, read: &Shape) -> bool
    ensures { result ≡ letters_pair letter read.now }
{
    match (letter, read) {
        (_, Shape::Int(numeral)) => bases_pair(letter, numeral.base)
            && signs_pair(letter, numeral.lead),
        (PrintLetter::Text, Shape::Text(_) | Shape::Set(_) | Shape::Chars) => true,
        (PrintLetter::One, Shape::Chars) => true,
        (PrintLetter::Float(..), Shape::Float(_)) => true,
        _ => false,
    }
}

/// The scan's width, 1 where it has none.
pub(crate) fn width_of(scan: &Conversion) -> u32
    ensures value { result ≡ width_of scan.now }
    ensures short { result ≤ 65535 }
{
    match scan.width {
        Some(width) => width as u32,
        None => 1,
    }
}

fn least_digits(conv: &PrintConv) -> u8
    ensures { result ≡ least_digits conv.now }
{
    match conv.precision {
        Some(least) => least,
        None => 1,
    }
}

fn is_hex_float(letter: PrintLetter) -> bool
    ensures { result ≡ is_hex_float letter }
{
    matches!(letter, PrintLetter::Float(FloatStyle::Hexadecimal, _))
}

/// Whether it may print what no conversion with `!` reads: a plus, a blank or a prefix.
fn adds_to_number(conv: &PrintConv) -> bool
    ensures { result ≡ adds_to_number conv.now }
{
    conv.plus || conv.blank || conv.alt || is_hex_float(conv.letter)
}

/// Whether what fills its width isn't read by a conversion with `!`.
fn fills_badly(conv: &PrintConv, scan: &Conversion) -> bool
    ensures { result ≡ fills_badly conv.now scan.now }
{
    if scan.column {
        !is_text(&scan.shape) && !fills_with_zeros(conv)
    } else {
        conv.width > 0
    }
}

/// Whether the scan takes a column that is not as wide as what is printed for it.
fn is_other_width(conv: &PrintConv, scan: &Conversion) -> bool
    ensures { result ≡ is_other_width conv.now scan.now }
{
    scan.column && scan.width != Some(conv.width)
}

/// Whether a `=` or a `!` of the scan's conversion doesn't suit the other.
fn bad_mark(conv: &PrintConv, scan: &Conversion) -> bool
    ensures { result ≡ bad_mark conv.now scan.now }
{
    is_other_width(conv, scan)
        || (scan.shape.is_strict() && (adds_to_number(conv) || fills_badly(conv, scan)))
}

fn kinds_differ(conv: &PrintConv, scan: &Conversion) -> bool
    ensures { result ≡ kinds_differ conv.now scan.now }
{
    !(conv.kind == scan.kind && letters_pair(conv.letter, &scan.shape))
}

fn numbers_differ(conv: &PrintConv, scan: &Conversion) -> bool
    ensures { result ≡ numbers_differ conv.now scan.now }
{
    scan.slot.unwrap_or(0) != conv.slot
}

/// Whether a flag, width or precision is one that the scan can't undo.
fn bad_flag(conv: &PrintConv, scan: &Conversion) -> bool
    ensures { result ≡ bad_flag conv.now scan.now }
{
    let number = is_number(&scan.shape);
    conv.minus
        || (is_integer(&scan.shape) && least_digits(conv) == 0)
        || (!number && conv.precision.is_some())
        || (!number && !is_text(&scan.shape) && conv.width > 0)
        || (conv.letter == PrintLetter::One && width_of(scan) != 1)
}

fn has_no_width(scan: &Conversion) -> bool
    ensures { result ≡ has_no_width scan.now }
{
    !is_chars(&scan.shape) && scan.width.is_none()
}

fn too_narrow(conv: &PrintConv, scan: &Conversion) -> bool
    ensures { result ≡ too_narrow conv.now scan.now }
{
    match &scan.shape {
        Shape::Int(_) => least_len(conv) > width_of(scan),
        Shape::Float(_) => zero_len(conv) > width_of(scan),
        _ => false,
    }
}

fn leading_zero(conv: &PrintConv, scan: &Conversion) -> bool
    ensures { result ≡ leading_zero conv.now scan.now }
{
    is_auto(&scan.shape) && (pads_with_zeros(conv) || least_digits(conv) > 1)
}

/// Why the scan's conversion can't read what the other prints.
pub(crate) fn pairing_fault(conv: &PrintConv, scan: &Conversion) -> Option<PairWhy>
    ensures { result ≡ pairing_fault conv.now scan.now }
{
    first_fault(&[
        Rule {
            why: PairWhy::BadMark,
            applies: bad_mark(conv, scan),
        },
        Rule {
            why: PairWhy::KindDiffers,
            applies: kinds_differ(conv, scan),
        },
        Rule {
            why: PairWhy::NumberDiffers,
            applies: numbers_differ(conv, scan),
        },
        Rule {
            why: PairWhy::BadFlagHere,
            applies: !scan.column && bad_flag(conv, scan),
        },
        Rule {
            why: PairWhy::NoWidth,
            applies: !scan.column && has_no_width(scan),
        },
        Rule {
            why: PairWhy::TooNarrow,
            applies: !scan.column && too_narrow(conv, scan),
        },
        Rule {
            why: PairWhy::LeadingZero,
            applies: leading_zero(conv, scan),
        },
    ])
}

/// Whether the item has as many bytes as the width, whatever the value.
fn always_full(conv: &PrintConv, scan: &Conversion) -> bool
    ensures { result ≡ always_full conv.now scan.now }
{
    if is_chars(&scan.shape) {
        return true;
    }
    let least = match &scan.shape {
        Shape::Int(_) => least_len(conv),
        Shape::Float(_) => zero_len(conv),
        _ => 1,
    };
    least == width_of(scan)
}

/// Whether what follows is no matter.
fn is_closed(conv: &PrintConv, scan: &Conversion) -> bool
    ensures { result ≡ is_closed conv.now scan.now }
{
    scan.column || always_full(conv, scan)
}

/// Whether the item would run on into the next unit.
fn runs_on(conv: &PrintConv, read: &Shape, follower: &Unit, next: &Conversion) -> bool
    ensures { result ≡ meet (first_by follower.now next.now) (stop_set read.now conv.now) }
{
    let lone = least_len(conv) == 1;
    for k in 0..256u16 {
        let b = k as u8;
        if may_begin(follower, next, b) && goes_on(conv, read, lone, b) {
            bytes_are_tried();
            return true;
        }
    }
    false
}

/// Why the item doesn't end with the text, where these units come next and are read so.
pub(crate) fn closing_fault(
    conv: &PrintConv,
    scan: &Conversion,
    rest: &[Unit],
    next: &Conversion,
) -> Option<PairWhy>
    ensures { result ≡ closing_fault conv.now scan.now rest.now next.now }
{
    if is_closed(conv, scan) {
        return None;
    }
    match rest.split_first() {
        None => Some(PairWhy::OpenEnd),
        Some((follower, _)) => {
            if runs_on(conv, &scan.shape, follower, next) {
                Some(PairWhy::RunsOn)
            } else {
                None
            }
        }
    }
}
