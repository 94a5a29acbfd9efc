//! What is written of records under names, as objects, and of lines by several formats.

use crate::copied::{copied_again, copy_of};
use crate::copies::is;
use crate::reading_back::{write_lines, write_named, write_objects};
use sf_format::{PrintFormat, Profile, ScanFormat};
use sf_pair::Pair;
use sf_records::LinesOptions;
use std::test::Fail;

const TEXT: &[u8] = b"7,ab\n-8,c\n";

#[test]
fn records_under_names(rt: HostRuntime) -> Result<(), Fail> {
    let format = ScanFormat::parse(rt.alloc(), Profile::One, b"%d,%9[a-z]%*1[\n]")?;
    let Some(written) = write_named(rt.alloc(), TEXT, &format, "n,t") else {
        return Err(Fail::new("names"));
    };
    is(&rt, &written.end.fault, &None, &"names");
    is(
        &rt,
        &written.text.bytes(),
        &b"format,n,t\n1,7,ab\n1,-8,c\n".as_slice(),
        &"names",
    );
    let Some(written) = write_objects(rt.alloc(), TEXT, &format, "n,t") else {
        return Err(Fail::new("objects"));
    };
    is(
        &rt,
        &written.text.bytes(),
        &b"{\"n\":7,\"t\":\"ab\"}\n{\"n\":-8,\"t\":\"c\"}\n".as_slice(),
        &"objects",
    );
    assert!(&rt; write_objects(rt.alloc(), TEXT, &format, "n").is_none());
    Ok(())
}

#[test]
fn lines_by_two_formats(rt: HostRuntime) -> Result<(), Fail> {
    let formats = [
        ScanFormat::parse(rt.alloc(), Profile::Three, b"%d,%?9[a-z]%?(:%d%)")?,
        ScanFormat::parse(rt.alloc(), Profile::Three, b"%9[a-z]")?,
    ];
    let options = LinesOptions {
        limit: 100,
        skip: 0,
        whole: false,
        keep_going: true,
        matching: false,
    };
    let written = write_lines(rt.alloc(), b"7,ab:5\nc\n;\n8,\n", &formats, options);
    is(&rt, &written.end.written, &3, &"lines");
    is(
        &rt,
        &written.text.bytes(),
        &b"[1,7,\"ab\",5]\n[2,\"c\"]\n[1,8,null,null]\n".as_slice(),
        &"lines",
    );
    Ok(())
}

#[test]
fn a_copy_stays(rt: HostRuntime) -> Result<(), Fail> {
    let print = PrintFormat::parse(rt.alloc(), Profile::One, b"%d,%s\n")?;
    let scan = ScanFormat::parse(rt.alloc(), Profile::One, b"%11d,%20s%*1[\n]")?;
    let pair = Pair::check(&print, &scan)?;
    let copy = copy_of(rt.alloc(), b" +7,ab\n08,c\n", &pair);
    is(
        &rt,
        &copy.text.bytes(),
        &b"7,ab\n8,c\n".as_slice(),
        &"a copy",
    );
    let Some((first, second)) = copied_again(rt.alloc(), b" +7,ab\n08,c\n", &pair) else {
        return Err(Fail::new("a copy of a copy"));
    };
    is(
        &rt,
        &second.text.bytes(),
        &first.text.bytes(),
        &"a copy of a copy",
    );
    is(&rt, &second.end.records, &2, &"a copy of a copy");
    Ok(())
}
