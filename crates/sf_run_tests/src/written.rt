//! Runs whose values are written as they are read.
ghost use Rattle.std.specs.Prelude.{◌≡◌, ◌<◌, ◌≤◌, ◌∷◌, ◌++◌, [], IfSome, IsSome, length, take};
ghost use Rattle.sf_run.specs.Written.{texts_by};

use sf_base::{Number, Real};
use sf_format::{Profile, ScanFormat};
use sf_rows::is;
use sf_run::{ValueWriter, WrittenRuns, is_in_order, write_runs};
use std::alloc::Global;
use std::test::Fail;

/// Writes `v` for each value.
struct Marks;

fn write_mark(room: &mut [u8], at: usize) -> Option<usize>
    ensures within { IfSome result (λ end. end ≤ length room.new) }
    ensures written { IfSome result (λ end. take end room.new ≡ take at room.old ++ 118 ∷ []) }
    ensures answers { at < length room.old → IsSome result }
{
    if at >= room.len() {
        return None;
    }
    room[at] = b'v';
    Some(at + 1)
}

impl ValueWriter for Marks {
    ghost text = { λ datum. 118 ∷ [] };

    ghost whole = { λ values. texts_by (λ datum. 118 ∷ []) values };

    ghost spare = { 0 };

    fn write_number(_number: Number, room: &mut [u8], at: usize) -> Option<usize> {
        write_mark(room, at)
    }

    fn write_real(_real: Real, room: &mut [u8], at: usize) -> Option<usize> {
        write_mark(room, at)
    }

    fn write_text(_piece: &[u8], _count: usize, room: &mut [u8], at: usize) -> Option<usize> {
        write_mark(room, at)
    }

    fn end_record(_room: &mut [u8], end: usize) -> Option<usize> {
        Some(end)
    }
}

/// Runs over a text, at most so many, into so much room.
struct Case {
    format: &'static [u8],
    text: &'static [u8],
    limit: u32,
    room: usize,
    most: u32,
    /// How many passed, the bytes that they used, and the marks that they wrote.
    told: (u32, usize, &'static [u8]),
}

static CASES: [Case; 22] = [
    Case {
        format: b"%d,%s",
        text: b"12,ab\n",
        limit: 99,
        room: 8,
        most: 9,
        told: (1, 5, b"vv"),
    },
    Case {
        format: b"%d,%s",
        text: b"12,ab\n3,c\n",
        limit: 99,
        room: 8,
        most: 9,
        told: (2, 9, b"vvvv"),
    },
    Case {
        format: b"%d,%s",
        text: b"12,ab\n3,c\n",
        limit: 99,
        room: 8,
        most: 1,
        told: (1, 5, b"vv"),
    },
    Case {
        format: b"%d,%s",
        text: b"12,ab\n3,c\n",
        limit: 99,
        room: 3,
        most: 9,
        told: (1, 5, b"vv"),
    },
    Case {
        format: b"%d,%s",
        text: b"12,ab\n3,c\n",
        limit: 99,
        room: 8,
        most: 0,
        told: (0, 0, b""),
    },
    Case {
        format: b"%d,%s",
        text: b"12,ab\nx,c\n",
        limit: 99,
        room: 8,
        most: 9,
        told: (1, 5, b"vv"),
    },
    Case {
        format: b"%d,%s",
        text: b"12,ab\n",
        limit: 5,
        room: 8,
        most: 9,
        told: (0, 0, b""),
    },
    Case {
        format: b"%d,%s",
        text: b"12,ab\n",
        limit: 99,
        room: 1,
        most: 9,
        told: (0, 0, b""),
    },
    Case {
        format: b"%d,%s",
        text: b"12,ab",
        limit: 99,
        room: 8,
        most: 9,
        told: (0, 0, b""),
    },
    Case {
        format: b"%*d,%s",
        text: b"12,ab\n",
        limit: 99,
        room: 8,
        most: 9,
        told: (1, 5, b"v"),
    },
    Case {
        format: b"%x %[a-z]%2c",
        text: b" ff  abc-d.",
        limit: 99,
        room: 3,
        most: 9,
        told: (1, 10, b"vvv"),
    },
    Case {
        format: b"%[^,],",
        text: b"ab,cd,e",
        limit: 99,
        room: 3,
        most: 9,
        told: (2, 6, b"vv"),
    },
    Case {
        format: b"%d",
        text: b"99999999999\n",
        limit: 99,
        room: 8,
        most: 9,
        told: (0, 0, b""),
    },
    Case {
        format: b"%i",
        text: b"12 0x1f 07\n",
        limit: 99,
        room: 8,
        most: 9,
        told: (3, 10, b"vvv"),
    },
    Case {
        format: b"%d%n",
        text: b"12\n",
        limit: 99,
        room: 8,
        most: 9,
        told: (1, 2, b"vv"),
    },
    Case {
        format: b"%o%%",
        text: b"17%8%",
        limit: 99,
        room: 8,
        most: 9,
        told: (1, 3, b"v"),
    },
    Case {
        format: b"%o%%%*c",
        text: b"17%;8%;",
        limit: 99,
        room: 8,
        most: 9,
        told: (1, 4, b"v"),
    },
    Case {
        format: b"%o%%;",
        text: b"17%;7%;8%;",
        limit: 99,
        room: 8,
        most: 9,
        told: (2, 7, b"vv"),
    },
    Case {
        format: b"%lf,%g",
        text: b"1.5,2 7e1,x",
        limit: 99,
        room: 8,
        most: 9,
        told: (1, 5, b"vv"),
    },
    Case {
        format: b"%le;",
        text: b"1e300;1e400;2;",
        limit: 99,
        room: 8,
        most: 9,
        told: (1, 6, b"v"),
    },
    Case {
        format: b"%?d,%?d;",
        text: b"1,2;,3;4,5;",
        limit: 99,
        room: 8,
        most: 9,
        told: (1, 4, b"vv"),
    },
    Case {
        format: b"%*d",
        text: b"12 3\n",
        limit: 99,
        room: 0,
        most: 9,
        told: (2, 4, b""),
    },
];

fn is_written(alloc: Global, case: &Case) -> Result<(), Fail> {
    let format = ScanFormat::parse(alloc, Profile::Three, case.format)?;
    let mut block = [0; 8];
    let room = &mut block[..case.room.min(8)];
    let WrittenRuns { records, used, end } = write_runs::<Marks>(
        &format, case.limit, case.text, room, case.most,
    );
    let told = (records, used, &room[..end]);
    is(&told, &case.told, &(case.format, case.text))
}

#[test]
fn values_are_written_as_they_are_read(rt: HostRuntime) -> Result<(), Fail> {
    for case in &CASES {
        is_written(rt.alloc(), case)?;
    }
    Ok(())
}

/// Formats, and whether their values come in the order of their slots.
static FORMATS: [(&[u8], bool); 8] = [
    (b"%d,%d", true),
    (b" %s:%*x%[^,]%3c", true),
    (b"x", true),
    (b"%2$d %1$d", false),
    (b"%1$d %2$d", true),
    (b"%1$d %3$d %2$d", false),
    (b"%i%%", true),
    (b"%d%n", true),
];

#[test]
fn formats_in_the_order_of_their_slots(rt: HostRuntime) -> Result<(), Fail> {
    for &(text, ordered) in &FORMATS {
        let format = ScanFormat::parse(rt.alloc(), Profile::One, text)?;
        is(&is_in_order(&format), &ordered, &text)?;
    }
    Ok(())
}
