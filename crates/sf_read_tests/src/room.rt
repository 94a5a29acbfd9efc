//! Records over one store, of which only the first can be refused memory.
use sf_format::{Profile, ScanFormat};
use sf_read::{Lookahead, SliceSource, Source, fscan, fscan_over, sscan, sscan_over};
use sf_rows::is;
use sf_run::{Outcome, Status};
use std::alloc::Global;
use std::test::Fail;

/// The outcomes of three records in turn. None where memory was refused to the first: the others use its store again,
/// and are never refused.
fn three_records<S: Source, const N: usize>(
    alloc: Global,
    from: &mut Lookahead<S, N>,
    format: &ScanFormat,
) -> Option<[Outcome; 3]> {
    let Ok(first) = fscan(alloc, from, format, 1000) else {
        return None;
    };
    let one = first.outcome();
    let Ok(second) = fscan_over(alloc, first.into_store(), from, format, 1000) else {
        unreachable!();
    };
    let two = second.outcome();
    let Ok(third) = fscan_over(alloc, second.into_store(), from, format, 1000) else {
        unreachable!();
    };
    Some([one, two, third.outcome()])
}

/// The outcomes of two texts in turn, in the same way.
fn two_texts(alloc: Global, texts: [&[u8]; 2], format: &ScanFormat) -> Option<[Outcome; 2]> {
    let [first, second] = texts;
    let Ok(first) = sscan(alloc, first, format, 1000) else {
        return None;
    };
    let one = first.outcome();
    let Ok(second) = sscan_over(alloc, first.into_store(), second, format, 1000) else {
        unreachable!();
    };
    Some([one, second.outcome()])
}

fn done(converted: u16, used: u32) -> Outcome {
    Outcome {
        status: Status::Done,
        at: 0,
        assigned: 1,
        converted,
        used,
        met: None,
    }
}

#[test]
fn only_the_first_record_is_refused(rt: HostRuntime) -> Result<(), Fail> {
    let format = ScanFormat::parse(rt.alloc(), Profile::One, b"%20s%*1[\n]")?;
    let mut from = Lookahead::<SliceSource<'_>, 4>::new(SliceSource::new(b"abcdefgh\ni\n jkl\n"));
    let found = three_records(rt.alloc(), &mut from, &format);
    is(
        &found,
        &Some([done(2, 9), done(2, 2), done(2, 5)]),
        &"records",
    )?;
    let format = ScanFormat::parse(rt.alloc(), Profile::One, b"%9[^;];")?;
    let found = two_texts(rt.alloc(), [b"abc;", b"defghijkl;"], &format);
    is(&found, &Some([done(1, 4), done(1, 10)]), &"texts")
}
