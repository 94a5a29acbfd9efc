//! Texts that are no formats.
use sf_format::FormatWhy;

/// A text that is no format of the first profile, with the place of its first fault.
pub type FaultRow = (&'static [u8], u16, FormatWhy);

static SCAN_FAULTS: [FaultRow; 42] = [
    (b"%[z-a]", 2, FormatWhy::BackwardRange),
    (b"%0d", 1, FormatWhy::ZeroWidth),
    (b"%*n", 2, FormatWhy::BadCount),
    (b"%1$d%d", 4, FormatWhy::MixedNumbering),
    (b"%d%1$d", 2, FormatWhy::MixedNumbering),
    (b"%1$s%3$d", 4, FormatWhy::NumberGap),
    (b"%1$s%1$d", 4, FormatWhy::NumberTwice),
    (b"%33$d", 1, FormatWhy::BadNumber),
    (b"%5", 2, FormatWhy::Truncated),
    (b"%lc", 2, FormatWhy::LeftOut),
    (b"%[abc", 1, FormatWhy::OpenSet),
    (b"%hhs", 3, FormatWhy::BadLength),
    (b"%70000d", 1, FormatWhy::TooWide),
    (b"%000d", 1, FormatWhy::ZeroWidth),
    (b"%hhls", 3, FormatWhy::UnknownLetter),
    (b"%5%", 2, FormatWhy::UnknownLetter),
    (b"%*3$d", 3, FormatWhy::UnknownLetter),
    (b"%1$*d", 3, FormatWhy::BadNumber),
    (b"%0$d", 1, FormatWhy::BadNumber),
    (b"%Lf", 1, FormatWhy::LeftOut),
    (b"%m[a]", 1, FormatWhy::LeftOut),
    (b"%[^]", 1, FormatWhy::OpenSet),
    (b"%[]", 1, FormatWhy::OpenSet),
    (b"%%%", 3, FormatWhy::Truncated),
    (b"%2$d", 0, FormatWhy::NumberGap),
    (b"%3$d%3$d", 4, FormatWhy::NumberTwice),
    (b"%99999999999999999999$d", 1, FormatWhy::BadNumber),
    (b"%70000", 1, FormatWhy::TooWide),
    (b"%65536c", 1, FormatWhy::TooWide),
    (b"%b", 1, FormatWhy::UnknownLetter),
    (b"%", 1, FormatWhy::Truncated),
    (b"a%", 2, FormatWhy::Truncated),
    (b"% d", 1, FormatWhy::UnknownLetter),
    (b"%3n", 2, FormatWhy::BadCount),
    (b"%l[a]", 2, FormatWhy::LeftOut),
    (b"%ts", 2, FormatWhy::BadLength),
    (b"\0%x", 0, FormatWhy::Nul),
    (b"%\0", 1, FormatWhy::Nul),
    (b"%d \0", 3, FormatWhy::Nul),
    (b"%[a\0]", 3, FormatWhy::Nul),
    (b"%[a\0", 3, FormatWhy::Nul),
    (b"%2$d%k", 5, FormatWhy::UnknownLetter),
];

/// Texts that are no scan formats.
pub fn scan_faults() -> &'static [FaultRow] {
    &SCAN_FAULTS
}

static PRINT_FAULTS: [FaultRow; 38] = [
    (b"%+u", 1, FormatWhy::BadFlag),
    (b"%05s", 1, FormatWhy::BadFlag),
    (b"%.3c", 1, FormatWhy::BadFlag),
    (b"%.300d", 2, FormatWhy::PrecisionTooLarge),
    (b"%'d", 1, FormatWhy::LeftOut),
    (b"%*d", 1, FormatWhy::LeftOut),
    (b"%n", 1, FormatWhy::LeftOut),
    (b"%0$d", 1, FormatWhy::BadNumber),
    (b"%-#d", 2, FormatWhy::BadFlag),
    (b"%- 5u", 2, FormatWhy::BadFlag),
    (b"%#s", 1, FormatWhy::BadFlag),
    (b"%0.3c", 1, FormatWhy::BadFlag),
    (b"%-7.c", 3, FormatWhy::BadFlag),
    (b"%1$ x", 3, FormatWhy::BadFlag),
    (b"%.*d", 2, FormatWhy::LeftOut),
    (b"%5*d", 2, FormatWhy::LeftOut),
    (b"%Lf", 1, FormatWhy::LeftOut),
    (b"%.3f", 3, FormatWhy::LeftOut),
    (b"%p", 1, FormatWhy::LeftOut),
    (b"%ls", 2, FormatWhy::LeftOut),
    (b"%lc", 2, FormatWhy::LeftOut),
    (b"%hhs", 3, FormatWhy::BadLength),
    (b"%m", 1, FormatWhy::UnknownLetter),
    (b"%[a]", 1, FormatWhy::UnknownLetter),
    (b"%b", 1, FormatWhy::UnknownLetter),
    (b"%5%", 2, FormatWhy::UnknownLetter),
    (b"%-1$d", 3, FormatWhy::UnknownLetter),
    (b"%70000", 1, FormatWhy::TooWide),
    (b"%+065536d", 3, FormatWhy::TooWide),
    (b"%65536.256u", 1, FormatWhy::TooWide),
    (b"%.256", 2, FormatWhy::PrecisionTooLarge),
    (b"%33$d", 1, FormatWhy::BadNumber),
    (b"%-05.3ll", 8, FormatWhy::Truncated),
    (b"%d\0", 2, FormatWhy::Nul),
    (b"%.\0", 2, FormatWhy::Nul),
    (b"%1$d%d", 4, FormatWhy::MixedNumbering),
    (b"%1$d%1$d", 4, FormatWhy::NumberTwice),
    (b"%1$d%3$s", 4, FormatWhy::NumberGap),
];

/// Texts that are no print formats.
pub fn print_faults() -> &'static [FaultRow] {
    &PRINT_FAULTS
}
