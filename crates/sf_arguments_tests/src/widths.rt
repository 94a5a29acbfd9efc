//! The widths of numbers.
use crate::compare::is;
use sf_format::{PrintFormat, Profile, Unit};
use sf_pair::longest_len;
use std::alloc::Global;
use std::test::Fail;

/// A conversion, and how long its longest text is without the blanks before it.
static WIDTHS: [(&[u8], u32); 16] = [
    (b"%hhd", 4),
    (b"%hd", 6),
    (b"%d", 11),
    (b"%ld", 20),
    (b"%hhu", 3),
    (b"%u", 10),
    (b"%lu", 20),
    (b"%lx", 16),
    (b"%#lo", 23),
    (b"% d", 11),
    (b"%15d", 11),
    (b"%015d", 15),
    (b"%.12u", 12),
    (b"%-d", 11),
    (b"%-15d", 15),
    (b"%.0d", 11),
];

/// A conversion of a double, and how long its longest text is, as the C library writes it.
static DOUBLE_WIDTHS: [(&[u8], u32); 18] = [
    (b"%f", 317),
    (b"%.3f", 314),
    (b"%.0f", 310),
    (b"%#.0f", 311),
    (b"%+.2f", 313),
    (b"%0400f", 400),
    (b"%e", 14),
    (b"%.0e", 7),
    (b"%#.0e", 8),
    (b"%.16e", 24),
    (b"%g", 13),
    (b"%.17g", 24),
    (b"%.1g", 7),
    (b"%#.1g", 8),
    (b"%20g", 13),
    (b"%a", 24),
    (b"%.0a", 10),
    (b"%.3A", 14),
];

fn width_of(alloc: Global, profile: Profile, text: &[u8]) -> Result<Option<u32>, Fail> {
    let print = PrintFormat::parse(alloc, profile, text)?;
    Ok(match print.directives().first() {
        Some(Unit::Conv(conv)) => longest_len(conv),
        _ => None,
    })
}

#[test]
fn doubles_have_their_width(rt: HostRuntime) -> Result<(), Fail> {
    for &(text, wanted) in &DOUBLE_WIDTHS {
        let found = width_of(rt.alloc(), Profile::Three, text)?;
        is(&found, &Some(wanted), &text)?;
    }
    Ok(())
}

#[test]
fn numbers_have_their_width(rt: HostRuntime) -> Result<(), Fail> {
    for &(text, wanted) in &WIDTHS {
        let found = width_of(rt.alloc(), Profile::One, text)?;
        is(&found, &Some(wanted), &text)?;
    }
    Ok(())
}
