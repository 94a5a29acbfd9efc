//! Numbers of 1 to 25 digits by the quick run and by the scanner, each cut at every place: at the number's end, too.
use crate::runs::scanned;
use sf_base::{HeapStore, Value, digit_value};
use sf_format::{Profile, ScanFormat};
use sf_rows::{LIMIT, is};
use sf_run::{Ending, Outcome, Report, Status, sure_run};
use std::alloc::Global;
use std::test::Fail;

/// How a number is written: its format, the radix of its digits and the digits, of which the first ones are read.
#[derive(Drop)]
struct Letter {
    format: &'static [u8],
    radix: u8,
    digits: &'static [u8],
    /// Whether the kind has a sign.
    signed: bool,
}

static LETTERS: [Letter; 5] = [
    Letter {
        format: b"%lld;",
        radix: 10,
        digits: b"9223372036854775807000000",
        signed: true,
    },
    Letter {
        format: b"%llu;",
        radix: 10,
        digits: b"1844674407370955161500000",
        signed: false,
    },
    Letter {
        format: b"%lli;",
        radix: 10,
        digits: b"9876543210987654321098765",
        signed: true,
    },
    Letter {
        format: b"%llx;",
        radix: 16,
        digits: b"fedcba9876543210FEDCBA987",
        signed: false,
    },
    Letter {
        format: b"%llo;",
        radix: 8,
        digits: b"1777777777777777777777000",
        signed: false,
    },
];

/// The number of the digits.
fn number_of(radix: u8, digits: &[u8]) -> u128 {
    let mut number = 0u128;
    for digit in digits {
        let value = digit_value(*digit, radix.min(16)).unwrap_or(0);
        number = number
            .saturating_mul(u128::from(radix))
            .saturating_add(u128::from(value));
    }
    number
}

/// The value of the digits after a sign; None where the kind doesn't hold it.
fn value_of(letter: &Letter, negative: bool, digits: &[u8]) -> Option<Value<'static>> {
    let magnitude = u64::try_from(number_of(letter.radix, digits)).ok()?;
    if !letter.signed {
        let number = if negative {
            magnitude.wrapping_neg()
        } else {
            magnitude
        };
        return Some(Value::U64(number));
    }
    let number = i128::from(magnitude);
    let signed = if negative { -number } else { number };
    Some(Value::I64(i64::try_from(signed).ok()?))
}

/// What the run reports of a sign and digits, so many bytes together, before a `;`.
fn outcome_of(value: Option<Value<'_>>, bytes: usize) -> Outcome {
    let (status, at, assigned, used) = match value {
        Some(_) => (Status::Done, 0, 1, bytes.saturating_add(1)),
        None => (Status::OutOfRange, 1, 0, bytes),
    };
    Outcome {
        status,
        at,
        assigned,
        converted: u16::from(assigned),
        used: u32::try_from(used).unwrap_or(u32::MAX),
        met: None,
    }
}

/// A text, and what is to be reported of it.
#[derive(Clone, Copy)]
struct Case<'a> {
    text: &'a [u8],
    outcome: Outcome,
    value: Option<Value<'static>>,
}

/// The report is that of the case, whose text was cut here.
fn is_case(report: &Report<'_, HeapStore>, case: &Case<'_>, at: usize) -> Result<(), Fail> {
    let found = (report.outcome(), report.value(1));
    is(&found, &(case.outcome, case.value), &(case.text, at))
}

/// The scanner reports it of the text in these two pieces.
fn scanner_reports(
    alloc: Global,
    format: &ScanFormat,
    case: &Case<'_>,
    front: &[u8],
    rest: &[u8],
) -> Result<(), Fail> {
    let scanned = scanned(alloc, format, LIMIT, &[front, rest], Ending::Fault)?;
    is_case(&scanned.report(), case, front.len())
}

/// The quick run, where it answers for the text's first bytes, reports it. Whether it does.
fn quick_run_reports(
    store: &mut HeapStore,
    format: &ScanFormat,
    case: &Case<'_>,
    front: &[u8],
) -> Result<bool, Fail> {
    let Some(outcome) = sure_run(store, format, LIMIT, front) else {
        return Ok(false);
    };
    is_case(&Report::new(outcome, store), case, front.len())?;
    Ok(true)
}

/// Both report it, wherever the text is cut; the quick run answers for a short number that stands there whole.
fn both_report(
    alloc: Global,
    store: &mut HeapStore,
    format: &ScanFormat,
    case: &Case<'_>,
) -> Result<(), Fail> {
    let mut answers = false;
    for at in 0..case.text.len() + 1 {
        let (front, rest) = case.text.split_at(at);
        scanner_reports(alloc, format, case, front, rest)?;
        answers = quick_run_reports(store, format, case, front)?;
    }
    let is_due = case.value.is_some() && case.text.len() < 15;
    is(&(answers || !is_due), &true, &case.text)
}

/// A sign, digits, and bytes after them.
fn text_of(alloc: Global, sign: &[u8], digits: &[u8]) -> Result<Vec<u8>, Fail> {
    let mut text = sign.to_vec(alloc)?;
    text.extend_from_slice(digits)?;
    text.extend_from_slice(b";7")?;
    Ok(text)
}

/// The first digits of the letter, so many, after a sign.
fn is_reported(
    alloc: Global,
    format: &ScanFormat,
    letter: &Letter,
    sign: &[u8],
    count: usize,
) -> Result<(), Fail> {
    let digits = letter.digits.get(..count).unwrap_or(letter.digits);
    let value = value_of(letter, sign == b"-".as_slice(), digits);
    let text = text_of(alloc, sign, digits)?;
    let case = Case {
        text: &text,
        outcome: outcome_of(value, sign.len().saturating_add(digits.len())),
        value,
    };
    let mut store = HeapStore::new(alloc, 0)?;
    both_report(alloc, &mut store, format, &case)
}

static SIGNS: [&[u8]; 3] = [b"", b"-", b"+"];

/// Each sign, and the digits of each count.
fn all_counts(alloc: Global, letter: &Letter) -> Result<(), Fail> {
    let format = ScanFormat::parse(alloc, Profile::One, letter.format)?;
    for count in 1..26usize {
        for sign in &SIGNS {
            is_reported(alloc, &format, letter, sign, count)?;
        }
    }
    Ok(())
}

#[test]
fn numbers_cut_at_every_place(rt: HostRuntime) -> Result<(), Fail> {
    for letter in &LETTERS {
        all_counts(rt.alloc(), letter)?;
    }
    Ok(())
}
