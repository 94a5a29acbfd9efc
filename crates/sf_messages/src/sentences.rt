//! A sentence for each fault, said after its line where more is asked for.
ghost use Rattle.std.specs.Prelude.{◌≡◌, ◌++◌, OnOk};
ghost use Rattle.sf_messages.specs.Sentences.{escape_sentence, left_out_sentence, left_white_sentence};
ghost use Rattle.sf_messages.specs.Sentences.{lone_newline_sentence, newline_taken_sentence, over_newline_sentence};
ghost use Rattle.sf_messages.specs.Sentences.{no_value_text, pair_sentence, range_text, typed_escape, values_text};
ghost use Rattle.sf_messages.specs.Sentences.{byte_mark_sentence, carriage_sentence, class_sentence, raw_sentence};
ghost use Rattle.sf_messages.specs.Sentences.{printed_by_text, read_by_text, text_front};
ghost use Rattle.sf_messages.specs.Sentences.{wanted_text, white_first_sentence};
ghost use Rattle.sf_messages.specs.Sentences.{wide_text_sentence};
ghost use Rattle.sf_messages.specs.Sentences.{begins_round, is_digit, is_float_after, is_float_letter, typed_text};
ghost use Rattle.sf_messages.specs.Sentences.{names_text, one_word_sentence, shell_sentence, stalled_sentence};
ghost use Rattle.sf_messages.specs.Sentences.{unknown_sentence, why_sentence, width_option_text};

use sf_base::Kind;
use sf_format::FormatWhy;
use sf_pair::PairWhy;
use sf_records::push_quoted;
use std::alloc::AllocError;

/// Why a word's escapes are refused.
pub(crate) fn escape_sentence() -> &'static str
    ensures { result.now ≡ escape_sentence }
{
    "after a backslash stands one of \\ n t v f r, or x and two hexadecimal digits"
}

/// What is done about white space that a record begins with.
pub(crate) fn left_white_sentence() -> &'static str
    ensures { result.now ≡ left_white_sentence }
{
    "the record begins with white space: a blank at the format's front passes over it, and %*1[\\n] at its end takes \
     the newline after a record"
}

/// What is done about white space that the first record, or a line, begins with.
pub(crate) fn white_first_sentence() -> &'static str
    ensures { result.now ≡ white_first_sentence }
{
    "white space stands in front, which only numbers and %s pass over: a blank at the format's front does, too"
}

/// What C or POSIX has at this byte of a format, and sf has not.
fn left_out_sentence(b: u8) -> &'static str
    ensures { result.now ≡ left_out_sentence b }
{
    match b {
        b'p' => "pointers are not part of sf",
        b'C' | b'S' | b'c' | b's' | b'[' => "wide characters are not part of sf",
        b'L' => "long double is not part of sf; %lf is a double",
        b'm' => "memory of the scan's own is not part of sf",
        b'*' => {
            "a width or a precision among the values is not part of sf; of two formats the print format comes first"
        }
        b'\'' => "groups of digits are not part of sf",
        b'n' => {
            "a count is not part of sf's print formats; of two formats the print format comes first"
        }
        _ => "floating point is left out of profiles 1 and 2; formats have it by --profile 3",
    }
}

/// Whether a letter is one of floating point.
fn is_float_letter(b: u8) -> bool
    ensures { result ≡ is_float_letter b }
{
    matches!(b, b'a' | b'A' | b'e' | b'E' | b'f' | b'F' | b'g' | b'G')
}

pub(crate) fn is_digit(b: u8) -> bool
    ensures { result ≡ is_digit b }
{
    matches!(b, b'0'..=b'9')
}

/// Whether digits or none stand first, and then a letter of floating point.
fn is_float_after(rest: &[u8]) -> bool
    ensures { result ≡ is_float_after rest.now }
{
    for b in rest {
        if !is_digit(*b) {
            return is_float_letter(*b);
        }
    }
    false
}

/// Whether a round bracket stands first.
fn begins_round(rest: &[u8]) -> bool
    ensures { result ≡ begins_round rest.now }
{
    matches!(rest, [b'(', ..])
}

/// What has this byte in the other format, by the bytes after it.
fn unknown_sentence(b: u8, rest: &[u8]) -> &'static str
    ensures { result.now ≡ unknown_sentence b rest.now }
{
    match b {
        b'.' if is_float_after(rest) => "a scan format has no precision: write %5f, and not %5.2f",
        b'.' => {
            "a precision stands in a print format alone; of two formats the print format comes first"
        }
        b'?' if begins_round(rest) => {
            "a part that may be missing stands between %?( and %), in a scan format and by --profile 3"
        }
        b'?' => {
            "what may be missing has a ? before its width, in a scan format and by --profile 3: write %?5d"
        }
        b'!' => {
            "what is read strictly has a ! before its width, in a scan format and by --profile 3: write %!5d"
        }
        b'=' => {
            "what stands in a column has a = before its width, in a scan format and by --profile 3: write %=8d"
        }
        b'(' => "a part that may be missing begins with %?(, with nothing between these bytes",
        b')' => "%) ends a part that may be missing, in a scan format and by --profile 3",
        b'*' => "a star stands before a ?, a =, a ! and a width: write %*?=!5d",
        b'b' => "base 2 is read and printed by --profile 2",
        b'D' | b'O' | b'U' => "the length l makes long integers: write %ld, %lo or %lu",
        b'[' => "a set stands in a scan format alone; of two formats the print format comes first",
        b'-' | b'+' | b' ' | b'#' => {
            "a flag stands first in a conversion, and in a print format alone; of two formats the print format comes \
             first"
        }
        _ => "no conversion of this profile is written so; %% stands for a percent sign",
    }
}

/// Appends what stands before a sentence on this byte of a format, as `%f: `.
pub(crate) fn push_typed(output: &mut Vec<u8>, why: FormatWhy, b: u8) -> Result<(), AllocError>
    ensures { OnOk result (output.new.items ≡ output.old.items ++ typed_text why b) }
{
    match why {
        FormatWhy::LeftOut => {
            output.extend_from_slice(b"%")?;
            if matches!(b, b'c' | b's' | b'[') {
                output.extend_from_slice(b"l")?;
            }
            output.push(b)?;
            output.extend_from_slice(b": ")
        }
        FormatWhy::UnknownLetter => {
            push_quoted(output, &[b])?;
            output.extend_from_slice(b": ")
        }
        _ => Ok(()),
    }
}

/// Appends what stands before the sentence on escapes, by what stands after the backslash, as `\d is no escape: `.
pub(crate) fn push_typed_escape(output: &mut Vec<u8>, rest: &[u8]) -> Result<(), AllocError>
    ensures { OnOk result (output.new.items ≡ output.old.items ++ typed_escape rest.now) }
{
    match rest {
        [b @ 33..=126, ..] => {
            output.push(b'\\')?;
            output.push(*b)?;
            output.extend_from_slice(b" is no escape: ")
        }
        _ => Ok(()),
    }
}

/// What is done about a newline that was a record of its own.
pub(crate) fn lone_newline_sentence() -> &'static str
    ensures { result.now ≡ lone_newline_sentence }
{
    "the record is the newline after the last one: a blank at the format's front passes over it, and %*1[\\n] at its \
     end takes it"
}

/// What is done about the newline that a record began with.
pub(crate) fn newline_taken_sentence() -> &'static str
    ensures { result.now ≡ newline_taken_sentence }
{
    "the record begins with the newline after the last one: a blank at the format's front passes over it, and \
     %*1[\\n] at its end takes it"
}

/// What is done about a newline within a record.
pub(crate) fn over_newline_sentence() -> &'static str
    ensures { result.now ≡ over_newline_sentence }
{
    "the record goes over a newline: sf scan --lines ends each record with its line"
}

/// What is done about a record that took nothing.
pub(crate) fn stalled_sentence() -> &'static str
    ensures { result.now ≡ stalled_sentence }
{
    "the format took no byte, so that the next record would begin where this one did"
}

/// What is done about a format of which a shell took a part.
pub(crate) fn shell_sentence() -> &'static str
    ensures { result.now ≡ shell_sentence }
{
    "a shell takes $ and the letters after it out of double quotes: single quotes keep them"
}

/// What is said of a print format that stands alone, after why nothing reads it back.
pub(crate) fn one_word_sentence() -> &'static str
    ensures { result.now ≡ one_word_sentence }
{
    "of a print format alone, the scan format that reads it back is written: sf check PRINT SCAN judges two"
}

/// Which option makes up for a width that a text of a print format alone lacks.
pub(crate) fn width_option_text() -> &'static str
    ensures { result.now ≡ width_option_text }
{
    ": --width N says how many bytes the texts of %s have at most"
}

/// What so many names are called.
pub(crate) fn names_text(count: usize) -> &'static str
    ensures { result.now ≡ names_text count }
{
    if count == 1 { " name" } else { " names" }
}

/// What is done about a byte order mark.
pub(crate) fn byte_mark_sentence() -> &'static str
    ensures { result.now ≡ byte_mark_sentence }
{
    "a byte order mark stands there: sed '1s/^\\xef\\xbb\\xbf//' takes it away"
}

/// What is done about UTF-16.
pub(crate) fn wide_text_sentence() -> &'static str
    ensures { result.now ≡ wide_text_sentence }
{
    "the input seems to be UTF-16: iconv -f UTF-16 -t UTF-8 makes UTF-8 of it"
}

/// What is done about a carriage return at a line's end.
pub(crate) fn carriage_sentence() -> &'static str
    ensures { result.now ≡ carriage_sentence }
{
    "the line ends with a carriage return: a space at the format's end takes it"
}

/// What is written for a class of POSIX.
pub(crate) fn class_sentence() -> &'static str
    ensures { result.now ≡ class_sentence }
{
    "classes as [:digit:] are not part of scanf: write %[0-9]"
}

/// What stands before the set that stops where `%s` doesn't.
pub(crate) fn text_front() -> &'static str
    ensures { result.now ≡ text_front }
{
    "%s takes all up to white space: a text that ends before the next byte of the format is "
}

/// How values are taken as they stand.
pub(crate) fn raw_sentence() -> &'static str
    ensures { result.now ≡ raw_sentence }
{
    "with --raw values are taken as they stand"
}

/// What is read so that a value of this kind can be printed.
pub(crate) fn read_by_text(kind: Kind) -> &'static str
    ensures { result.now ≡ read_by_text kind }
{
    match kind {
        Kind::I8 => "%hhd",
        Kind::I16 => "%hd",
        Kind::I32 => "%d",
        Kind::I64 => "%ld",
        Kind::U8 => "%hhu",
        Kind::U16 => "%hu",
        Kind::U32 => "%u",
        Kind::U64 => "%lu",
        Kind::Text => "%s",
        Kind::F32 => "%f",
        Kind::F64 => "%lf",
    }
}

/// What prints a value of this kind.
pub(crate) fn printed_by_text(kind: Kind) -> &'static str
    ensures { result.now ≡ printed_by_text kind }
{
    match kind {
        Kind::F64 => "%f",
        _ => read_by_text(kind),
    }
}

/// What so many values are called.
pub(crate) fn values_text(count: u8) -> &'static str
    ensures { result.now ≡ values_text count }
{
    if count == 1 { " value" } else { " values" }
}

/// What is said of a word that stands for no value of a kind, before the numbers of that kind.
pub(crate) fn no_value_text(kind: Kind) -> &'static str
    ensures { result.now ≡ no_value_text kind }
{
    match kind {
        Kind::F32 | Kind::F64 => " is no floating-point number in the range of its kind",
        _ => " is no decimal integer from ",
    }
}

/// The numbers of a kind that a scan takes.
pub(crate) fn wanted_text(kind: Kind) -> &'static str
    ensures { result.now ≡ wanted_text kind }
{
    match kind {
        Kind::F32 => "-3.4028235e38 to 3.4028235e38",
        Kind::F64 => "-1.7976931348623157e308 to 1.7976931348623157e308",
        _ => range_text(kind),
    }
}

/// The numbers of a kind that are written with decimal digits.
pub(crate) fn range_text(kind: Kind) -> &'static str
    ensures { result.now ≡ range_text kind }
{
    match kind {
        Kind::I8 => "-128 to 127",
        Kind::I16 => "-32768 to 32767",
        Kind::I32 => "-2147483648 to 2147483647",
        Kind::I64 => "-9223372036854775808 to 9223372036854775807",
        Kind::U8 => "0 to 255",
        Kind::U16 => "0 to 65535",
        Kind::U32 => "0 to 4294967295",
        Kind::U64 => "0 to 18446744073709551615",
        Kind::Text | Kind::F32 | Kind::F64 => "",
    }
}

/// Why a format is refused, by the byte where that was found, and those after it.
pub(crate) fn why_sentence(why: FormatWhy, b: u8, rest: &[u8]) -> &'static str
    ensures { result.now ≡ why_sentence why b rest.now }
{
    match why {
        FormatWhy::Truncated => "the format ends inside a conversion; %% stands for a percent sign",
        FormatWhy::ZeroWidth => "a conversion of width 0 takes nothing",
        FormatWhy::TooWide => "a width is at most 65535",
        FormatWhy::UnknownLetter => unknown_sentence(b, rest),
        FormatWhy::LeftOut => left_out_sentence(b),
        FormatWhy::BadLength => "this letter has no such length",
        FormatWhy::OpenSet => "no ] closes the set",
        FormatWhy::BackwardRange => "the range runs backward",
        FormatWhy::BadCount => "%n has neither a * nor a width",
        FormatWhy::MixedNumbering => "either all conversions have a number with $, or none has",
        FormatWhy::BadNumber => "a number is 1 to 32, and what is dropped has none",
        FormatWhy::NumberTwice => "this number stands twice",
        FormatWhy::NumberGap => "the numbers leave a gap",
        FormatWhy::Nul => "a format has no NUL",
        FormatWhy::FormatTooLong => "a format has at most 4096 bytes",
        FormatWhy::TooManyDestinations => "a format has at most 32 values",
        FormatWhy::BadFlag => "this letter has no such flag or precision",
        FormatWhy::PrecisionTooLarge => "a precision is at most 255",
        FormatWhy::NoMemory => "memory was refused",
        FormatWhy::BadMark => {
            "a = has a width after it, and %c and %n have no =; %c, %[ and %n have no !"
        }
        FormatWhy::BadGroup => {
            "a group is %?( and %) around conversions or bytes, none within another; first in it is no white space, \
             no %n and no conversion with a ?"
        }
    }
}

/// Why a pair is refused.
pub(crate) fn pair_sentence(why: PairWhy) -> &'static str
    ensures { result.now ≡ pair_sentence why }
{
    match why {
        PairWhy::NotAligned => "what stands here is not what the other format has in its place",
        PairWhy::KindDiffers => "the kinds or the letters of the two conversions differ",
        PairWhy::NumberDiffers => "the two conversions are of different values",
        PairWhy::NoWidth => "a conversion that is read back needs a width",
        PairWhy::TooNarrow => "the width is less than the shortest text that is written",
        PairWhy::RunsOn =>
            "what is written next could be read by this directive too: write a byte between them at which it stops",
        PairWhy::OpenEnd =>
            "nothing is written after this, so what follows could be read as more of it: end the print format with \
             \\n and the scan format with %*1[\\n]",
        PairWhy::LeadingZero => "%i reads a leading zero as octal",
        PairWhy::NotWritten => "nothing is written for %n",
        PairWhy::MayBeMissing =>
            "what may be missing is not written: leave out the ?, or the %?( and %)",
        PairWhy::BadFlagHere => "what this flag, width or precision writes is not read back",
        PairWhy::NoValues => "a pair has at least one value",
        PairWhy::BadMark =>
            "the two widths differ at a conversion with =, or what this flag, width or letter writes is not read by \
             one with !",
    }
}
