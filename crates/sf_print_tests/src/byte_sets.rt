//! Sets of bytes: their members, the one byte that they lack, what two of them share, and runs of members.
use sf_base::ByteSet;
use sf_rows::is;
use std::test::Fail;

/// A change of a set.
#[derive(Clone, Copy, Debug)]
enum Change {
    Insert(u8),
    /// No range of the tables runs backward.
    Range(u8, u8),
    Complement,
}

use Change::{Complement, Insert, Range};

/// The set that the changes make of the empty one.
fn made(changes: &[Change]) -> ByteSet {
    let mut set = ByteSet::empty();
    for change in changes {
        match *change {
            Insert(b) => set.insert(b),
            Range(low, high) if low <= high => set.insert_range(low, high),
            Range(_, _) => {}
            Complement => set.complement(),
        }
    }
    set
}

/// How many of the bytes are members.
fn members_among(set: &ByteSet, bytes: &[u8]) -> usize {
    let mut count = 0usize;
    for b in bytes {
        if set.contains(*b) {
            count = count.saturating_add(1);
        }
    }
    count
}

/// Changes of the empty set, how many members it then has, some of them, and bytes that it lacks.
type SetRow = (&'static [Change], usize, &'static [u8], &'static [u8]);

static SETS: [SetRow; 14] = [
    (&[], 0, b"", b"\0\xff"),
    (
        &[Insert(0), Insert(b'-'), Insert(255), Insert(255)],
        3,
        b"\0-\xff",
        b"\x01\xfe",
    ),
    (&[Range(b'a', b'z')], 26, b"az", b"`{"),
    (&[Range(b'-', b'-')], 1, b"-", b",."),
    (&[Range(0, 0)], 1, b"\0", b"\xff"),
    (&[Range(255, 255)], 1, b"\xff", b"\xfe"),
    (&[Range(0, 254)], 255, b"", b"\xff"),
    (&[Range(1, 255)], 255, b"", b"\0"),
    (&[Range(0, 255)], 256, b"\0\xff", b""),
    (
        &[
            Insert(b'_'),
            Insert(b'5'),
            Range(b'0', b'9'),
            Range(b'8', b':'),
        ],
        12,
        b"_0:",
        b";",
    ),
    (&[Complement], 256, b"\0\xff", b""),
    (&[Complement, Complement], 0, b"", b""),
    (
        &[Complement, Complement, Insert(b'\n'), Complement],
        255,
        b"\0\t\x0b\xff",
        b"\n",
    ),
    (
        &[
            Complement,
            Complement,
            Insert(b'\n'),
            Complement,
            Insert(b'\n'),
        ],
        256,
        b"",
        b"",
    ),
];

#[test]
fn sets_have_members() -> Result<(), Fail> {
    for row in &SETS {
        let (changes, count, members, others) = row;
        let set = made(changes);
        let found = [
            usize::from(set.count()),
            members_among(&set, members),
            members_among(&set, others),
        ];
        is(&found, &[*count, members.len(), 0], row)?;
    }
    Ok(())
}

/// Changes of the empty set, and the byte that it then lacks alone.
type LackRow = (&'static [Change], Option<u8>);

static LACKS: [LackRow; 10] = [
    (&[], None),
    (&[Complement], None),
    (&[Range(b'a', b'z')], None),
    (&[Range(1, 255)], Some(0)),
    (&[Range(0, 254)], Some(255)),
    (&[Range(0, 99), Range(101, 255)], Some(100)),
    (&[Insert(b','), Complement], Some(b',')),
    (&[Insert(b','), Complement, Insert(b',')], None),
    (&[Insert(0), Insert(255), Complement], None),
    (&[Insert(0), Insert(255), Complement, Insert(0)], Some(255)),
];

#[test]
fn sets_lack_one_byte() -> Result<(), Fail> {
    for row in &LACKS {
        let (changes, wanted) = row;
        is(&made(changes).lone_lack(), wanted, row)?;
    }
    Ok(())
}

/// Changes that make two sets, whether the two have a member in common, and whether the second has each of the first.
type PairRow = (&'static [Change], &'static [Change], bool, bool);

static PAIRS: [PairRow; 15] = [
    (&[Range(b'0', b'9')], &[Range(b'2', b'4')], true, false),
    (&[Range(b'2', b'4')], &[Range(b'0', b'9')], true, true),
    (&[Range(b'0', b'9')], &[Range(b'0', b'9')], true, true),
    (&[Range(b'0', b'9')], &[Range(b'9', b'z')], true, false),
    (&[Range(b'0', b'9')], &[Range(b':', b'z')], false, false),
    (&[Range(0, 0)], &[Range(255, 255)], false, false),
    (&[Range(255, 255)], &[Range(0, 255)], true, true),
    (&[Range(0, 255)], &[Range(255, 255)], true, false),
    (&[Range(0, 255)], &[Range(1, 255)], true, false),
    (&[Range(0, 255)], &[Range(0, 254)], true, false),
    (&[Range(0, 0)], &[Range(0, 0)], true, true),
    (&[], &[], false, true),
    (&[], &[Complement], false, true),
    (&[Complement], &[], false, false),
    (&[Complement], &[Complement], true, true),
];

#[test]
fn sets_are_compared() -> Result<(), Fail> {
    for row in &PAIRS {
        let (changes, others, meets, subset) = row;
        let one = made(changes);
        let other = made(others);
        let found = [one.meets(&other), other.meets(&one), one.subset(&other)];
        is(&found, &[*meets, *meets, *subset], row)?;
    }
    Ok(())
}

/// Two runs of letters and more, longer than what is read at once.
const TEXT: &[u8] =
    b"abcdefghijklmnopqrstuvwxyzabcdefghijklmnopqrstuvwxyzabcdefghijklmnopqrstuvwxyz0123456789,;";

/// Those without the marks at their end.
const MARKLESS: &[u8] =
    b"abcdefghijklmnopqrstuvwxyzabcdefghijklmnopqrstuvwxyzabcdefghijklmnopqrstuvwxyz0123456789";

/// What lies about the seam of two words of a set, and both its ends.
const SEAM: &[Change] = &[Range(63, 64), Insert(0), Insert(255)];

/// Changes of the empty set, bytes, and how many members they begin with.
type RunRow = (&'static [Change], &'static [u8], usize);

static RUNS: [RunRow; 11] = [
    (SEAM, b"?@?@@;?", 5),
    (SEAM, b";?", 0),
    (SEAM, &[0, 255, 63, 64], 4),
    (SEAM, &[0, 255, 128], 2),
    (SEAM, b"", 0),
    // sets that lack one byte, none or two
    (&[Insert(b','), Complement], TEXT, 88),
    (&[Insert(b','), Complement], MARKLESS, 88),
    (&[Insert(b','), Complement], b",a", 0),
    (&[Insert(b','), Complement, Insert(b',')], TEXT, 90),
    (
        &[Insert(b','), Complement, Insert(b','), Complement],
        TEXT,
        0,
    ),
    (
        &[
            Insert(b','),
            Complement,
            Insert(b','),
            Complement,
            Insert(b';'),
            Insert(b'7'),
            Complement,
        ],
        TEXT,
        85,
    ),
];

#[test]
fn runs_end_before_a_byte_that_is_no_member() -> Result<(), Fail> {
    for row in &RUNS {
        let (changes, text, wanted) = row;
        is(&made(changes).run(text), wanted, row)?;
    }
    Ok(())
}
