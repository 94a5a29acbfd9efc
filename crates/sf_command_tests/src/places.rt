//! Places in an input.
use crate::shared::is;
use sf_messages::Place;

/// A line and a column, bytes, and the line and the column after them.
static PLACES: [(u64, u64, &[u8], u64, u64); 11] = [
    (1, 1, b"", 1, 1),
    (1, 1, b"a", 1, 2),
    (1, 1, b"\n", 2, 1),
    (1, 1, b"ab\nc", 2, 2),
    (1, 1, b"\n\n", 3, 1),
    (1, 1, b"\r\n", 2, 1),
    (1, 1, b"a\r\x0b\x0c", 1, 5),
    // the place after a front, and after the rest
    (1, 1, b"a\nbc", 2, 3),
    (2, 3, b"d\n", 3, 1),
    // the greatest numbers stay
    (u64::MAX, u64::MAX, b"a", u64::MAX, u64::MAX),
    (u64::MAX, u64::MAX, b"\n", u64::MAX, 1),
];

#[test]
fn places_after_bytes(rt: HostRuntime) {
    is(
        &rt,
        &Place::first(),
        &Place { line: 1, column: 1 },
        &"first",
    );
    for &(line, column, bytes, next_line, next_column) in &PLACES {
        let place = Place { line, column }.behind(bytes);
        let wanted = Place {
            line: next_line,
            column: next_column,
        };
        is(&rt, &place, &wanted, &bytes);
    }
}
