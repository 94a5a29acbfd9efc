//! Copies of many random records: what they come to is written by std.
use crate::copies::{Formats, WIDE, clean_end, is_copied};
use std::alloc::Global;
use std::io::Write;
use std::process::Abort;
use std::test::Fail;

/// Many records as they may be written, and as they are copied.
#[derive(Drop)]
pub(crate) struct Records {
    pub(crate) text: Vec<u8>,
    pub(crate) copy: Vec<u8>,
    pub(crate) count: u32,
}

impl Records {
    /// None so far.
    pub(crate) fn new(alloc: Global) -> Records {
        Records {
            text: Vec::new(alloc),
            copy: Vec::new(alloc),
            count: 0,
        }
    }

    /// The copy of the text is the copy, and stays as it is where it is copied again.
    pub(crate) fn are_copied(
        &self,
        rt: &(impl Abort + AllocGlobal),
        formats: Formats,
    ) -> Result<(), Fail> {
        let end = clean_end(self.count);
        is_copied::<4096>(rt, formats, &self.text, &self.copy, end)?;
        is_copied::<4096>(rt, formats, &self.copy, &self.copy, end)
    }
}

/// Numbers that look random, each from the one before.
pub(crate) fn next(state: u64) -> u64 {
    state
        .wrapping_mul(6364136223846793005)
        .wrapping_add(1442695040888963407)
}

/// White space in front of a number or a word, which is skipped.
static FRONTS: [&str; 4] = ["", " ", "\t\n", "  "];

/// Words of 1 to 8 letters.
static WORDS: [&str; 8] = [
    "a", "bc", "def", "ghij", "klmno", "pqrstu", "vwxyz~!", "{|}$%&*+",
];

/// White space that may stand in front.
pub(crate) fn before(state: u64) -> &'static str {
    FRONTS[(state >> 44) as usize % 4]
}

/// Appends a number of at most 31 bits, of either sign, and a word.
fn push_line(records: &mut Records, state: u64) -> Result<(), Fail> {
    let number = (state >> 33) as i32 - 1073741824;
    let word = WORDS[(state >> 40) as usize % 8];
    let before = before(state);
    write!(records.text, "{before}{number:09},{word}\n")?;
    write!(records.copy, "{number},{word}\n")?;
    Ok(())
}

#[test]
fn many_lines(rt: HostRuntime) -> Result<(), Fail> {
    let mut records = Records::new(rt.alloc());
    let mut state = 7;
    for _ in 0..3000 {
        state = next(state);
        push_line(&mut records, state)?;
    }
    records.count = 3000;
    records.are_copied(&rt, WIDE)
}
