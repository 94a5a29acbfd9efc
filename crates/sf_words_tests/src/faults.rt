//! The texts of faults.
use sf_words::WordsFault;
use std::test::Fail;

/// The fault's text is what it holds, and memory has one of its own.
#[test]
fn texts_of_faults(rt: HostRuntime) -> Result<(), Fail> {
    let alloc = rt.alloc();
    let help = WordsFault::Help(String::from_str(alloc, "a text")?);
    let usage = WordsFault::Usage(String::from_str(alloc, "another")?);
    assert_eq!(rt;
        format!(in alloc; "{help}, {usage}, {}", WordsFault::NoMemory)?.as_str(),
        "a text, another, out of memory"
    );
    Ok(())
}
