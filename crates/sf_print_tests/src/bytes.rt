//! Classes of bytes: white space and digits, and runs around the sixteen bytes that are read at once.
ghost use Rattle.std.specs.Prelude.{◌<◌};

use sf_base::{digit_value, is_space, run_before, space_run, text_run};
use sf_rows::is;
use std::test::Fail;

/// What `isspace` is true of in the C locale.
static WHITE: [u8; 6] = [9, 10, 11, 12, 13, 32];

/// How far a text of fifty bytes goes that has white space there, how far the text that is cut there, the same of white
/// space with a letter, and of the bytes before the one that is there.
fn runs_to(stop: usize, white: u8) -> [usize; 6]
    requires { stop < 50 }
{
    let mut text = [b'a'; 50];
    text[stop] = white;
    let mut spaces = [white; 50];
    spaces[stop] = b'a';
    [
        text_run(&text),
        text_run(text.get(..stop).unwrap_or(&text)),
        space_run(&spaces),
        space_run(spaces.get(..stop).unwrap_or(&spaces)),
        run_before(white, &text),
        run_before(white, text.get(..stop).unwrap_or(&text)),
    ]
}

#[test]
fn runs_end_at_each_place() -> Result<(), Fail> {
    for stop in 0..50usize {
        for &white in &WHITE {
            is(&runs_to(stop, white), &[stop; 6], &(stop, white))?;
        }
    }
    Ok(())
}

/// How far a text of twenty bytes and white space go that have the byte there.
fn runs_over(place: usize, b: u8) -> [usize; 2]
    requires { place < 20 }
{
    let mut text = [b'a'; 20];
    text[place] = b;
    let mut spaces = [b' '; 20];
    spaces[place] = b;
    [text_run(&text), space_run(&spaces)]
}

/// The same of the places 5, 15, 16 and 17: white space ends the text, and another byte ends white space.
fn wanted_over(is_white: bool) -> [[usize; 2]; 4] {
    if is_white {
        [[5, 20], [15, 20], [16, 20], [17, 20]]
    } else {
        [[20, 5], [20, 15], [20, 16], [20, 17]]
    }
}

#[test]
fn white_space_is_known_from_other_bytes() -> Result<(), Fail> {
    for b in 0..=255u8 {
        let is_white = WHITE.contains(&b);
        let found = [
            runs_over(5, b),
            runs_over(15, b),
            runs_over(16, b),
            runs_over(17, b),
        ];
        is(
            &(is_space(b), found),
            &(is_white, wanted_over(is_white)),
            &b,
        )?;
    }
    Ok(())
}

/// Bytes, and their values as digits of a base.
static DIGITS: [(u8, u8, Option<u8>); 14] = [
    (b'/', 10, None),
    (b'0', 2, Some(0)),
    (b'1', 2, Some(1)),
    (b'2', 2, None),
    (b'7', 8, Some(7)),
    (b'8', 8, None),
    (b'9', 10, Some(9)),
    (b':', 10, None),
    (b'a', 10, None),
    (b'a', 16, Some(10)),
    (b'F', 16, Some(15)),
    (b'f', 16, Some(15)),
    (b'g', 16, None),
    (b'x', 16, None),
];

#[test]
fn digits_have_values(rt: HostRuntime) -> Result<(), Fail> {
    for row in &DIGITS {
        let (b, base, wanted) = row;
        assert!(rt; *base <= 16);
        is(&digit_value(*b, *base), wanted, row)?;
    }
    Ok(())
}
