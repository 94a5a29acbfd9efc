//! Commands: those that read nothing, and reads and writes that fail.
use crate::shared::{given, is, lent, run, words_of};
use sf_print::{ScriptSink, WriteStep};
use sf_read::{Lookahead, ReadStep, ScriptSource, SliceSource};
use std::test::Fail;

/// Words of commands that need no input, of formats and calls that are refused, and of help; and the status.
static UNREAD: [(&str, u8); 63] = [
    ("show/a %d", 0),
    ("show/\x01\"\\\\\x7f", 0),
    ("show/", 0),
    ("show/%d%q", 2),
    ("show/%3d,%*s", 0),
    ("show/%5[0-9]%hhu%%%ln", 0),
    ("show/%s", 0),
    ("show/%[z-a]", 2),
    ("print/%+5d|%-5d|/42/42", 0),
    ("print/%08.3d %#06x/--/-5/255", 0),
    ("print/%d\\n%c/--/-1/\\x41", 0),
    ("print/%d\\q/x", 2),
    ("print/%d,%s/x/y", 2),
    ("print/%c%s/ab/y", 2),
    ("print/%d/1/2", 2),
    ("print/%[a]/1/2", 2),
    ("check/%xx/%4xx", 1),
    ("check/%d\\n/%11d%*1[\\n]", 0),
    ("check/ab/ab", 1),
    ("check/%05d/%3d", 1),
    ("check/%d%+d;/%3d%4d;", 0),
    ("check/%q/\\", 2),
    ("check/%d\\/%q", 2),
    ("check/%d/\\q%q", 2),
    ("check/%d/%[z-a]", 2),
    ("check/%s %s;/%5s %5[^;];", 1),
    ("scan/--lines/-e/%d/-e/%y", 2),
    ("scan/--lines/-e/%d/-e/a\\q/-e/%y", 2),
    ("scan/--lines/-e/ab%y/-e/\\q", 2),
    ("scan/--lines/--explain/%y", 2),
    ("scan/--lines/--explain/-e/%d/-e/%q/-e/%s", 2),
    ("scan/--lines/--explain/-e/%d/-e/\\x01%d%q/-e/%y", 2),
    ("scan/--lines/--explain/-e/%d/-e/a%d\\q/-e/%y", 2),
    ("scan/--lines/--explain/--quiet/-e/ab%y/-e/\\q", 2),
    ("check/%d,", 0),
    ("check/%d%d;", 1),
    ("check/%q", 2),
    ("print/--raw/%s/a\\q", 0),
    ("scan/--print/%q/%d", 2),
    ("scan/--print/%d/%d%d", 2),
    ("scan/--print/%s/%d", 2),
    ("scan/--lines/--ignore/%q/%d", 2),
    ("scan/--lines/--print/%d\\q/--ignore/%q/%d", 2),
    ("scan/--lines/--print/%d/-e/%d/-e/%s", 2),
    ("scan/--output/csv/--names/a/%d%d", 2),
    ("scan/--output/csv/--names/a,a/%d%d", 2),
    ("scan/--lines/--output/csv/--names/a,/%d%d", 2),
    ("scan/--strict/%!d", 2),
    ("scan/-Sp3/%!n", 2),
    ("show/-p3/%*?!5lf%n", 0),
    ("show/-p3/%d%?(,%d%)%?([%%%*s]%)", 0),
    ("show/-p3/%d%?(%?d%)", 2),
    ("show/--explain/-p2/%d%?(,%d%)", 2),
    ("check/-p3/%d,%d;/%3d%?(,%3d%);", 1),
    ("show/-S/%d", 2),
    ("", 2),
    ("show", 2),
    ("show/%d/%d", 2),
    ("shows/%d", 2),
    ("/%d", 2),
    ("--help", 0),
    ("help/scan", 0),
    ("scan/--help", 0),
];

/// The input isn't read. What these commands say, tests/program/cases has.
#[test]
fn commands_that_read_nothing(rt: HostRuntime) -> Result<(), Fail> {
    for (line, status) in &UNREAD {
        let words = words_of(rt.alloc(), line)?;
        let steps = [ReadStep::Fail];
        let mut from = Lookahead::<ScriptSource<'_>, 4096>::new(ScriptSource::new(&steps));
        let answer = lent(rt.alloc(), &words, &mut from);
        is(&rt, &answer.status, status, line);
        is(&rt, &from.source().reads(), &0, line);
    }
    Ok(())
}

/// Words, what the reads give in turn, whether the next one fails, the output, what is said, and the status.
type Reading = (
    &'static str,
    [&'static str; 3],
    bool,
    &'static str,
    &'static str,
    u8,
);

static READINGS: [Reading; 11] = [
    (
        "scan/--explain/%d",
        ["1\n", "2\n\n", " x"],
        false,
        "1\n2\n",
        "sf: record 3: matching failure at 1, used 3, assigned 0\n  directive 1: \"%d\", d i32 width - slot 1\n  at \
         line 4, column 2 of the input\n  there stood \"x\"\n",
        1,
    ),
    (
        "scan/--explain/%d,%5x",
        ["1,", "\ng", ""],
        false,
        "",
        "sf: record 1: matching failure at 3, used 3, assigned 1\n  directive 3: \"%5x\", x u32 width 5 slot 2\n  at \
         line 2, column 1 of the input\n  there stood \"g\"\n  the record goes over a newline: sf scan --lines ends \
         each record with its line\n",
        1,
    ),
    (
        "scan/--explain/%d",
        ["1 ", "", ""],
        true,
        "1\n",
        "sf: record 2: read fault\n  at line 1, column 3 of the input\n",
        3,
    ),
    (
        "scan/--explain/ ",
        ["\n", "x", ""],
        false,
        "\n",
        "sf: record 2: stalled\n  at line 2, column 1 of the input\n  \
         the format took no byte, so that the next record would begin where this one did\n",
        1,
    ),
    (
        "copy/--explain/%d;/%3d;",
        ["1;2", "2:", ""],
        false,
        "1;",
        "sf: record 2: matching failure at 2, used 2, assigned 1\n  directive 2: \";\", byte \";\"\n  at line 1, \
         column 5 of the input\n  there stood \":\"\n",
        1,
    ),
    (
        "scan/--explain/-p3/%d%?(,%d%)",
        ["1\n", "2,3\n4,", "x"],
        false,
        "1 -\n2 3\n",
        "sf: record 3: matching failure at 3, used 3, assigned 1\n  directive 3: \"%d\", d i32 width - slot 2 group \
         1\n  at line 3, column 3 of the input\n  there stood \"x\"\n",
        1,
    ),
    (
        "scan/%d",
        ["x", "", ""],
        false,
        "",
        "sf: record 1: matching failure at 1, used 0, assigned 0\n",
        1,
    ),
    (
        "scan/%d",
        ["1 2", "", ""],
        true,
        "1\n2\n",
        "sf: record 2: read fault\n",
        3,
    ),
    (
        "scan/--lines/--keep-going/%d",
        ["1\nx\n2", "", ""],
        true,
        "1\n",
        "sf: line 2: matching failure at 1, used 0, assigned 0\nsf: line 3: read fault\n",
        3,
    ),
    (
        "scan/--strict/ %d",
        ["1\n", " 2\n+", "3"],
        false,
        "1\n2\n",
        "sf: record 3: matching failure at 2, used 1, assigned 0\n",
        1,
    ),
    (
        "scan/--lines/--strict/--keep-going/--ignore/%x/%d",
        ["-1\n1\n 2", "\n-3 \n-4\n", ""],
        false,
        "-1\n-4\n",
        "sf: line 3: matching failure at 1, used 0, assigned 0\nsf: line 4: left over at 2\n",
        1,
    ),
];

/// Reads that give these texts in turn; the next one fails, or reports the end.
fn steps_of<'a>([first, second, third]: &[&'a str; 3], fails: bool) -> [ReadStep<'a>; 4] {
    let last = if fails {
        ReadStep::Fail
    } else {
        ReadStep::Give(b"")
    };
    [
        ReadStep::Give(first.as_bytes()),
        ReadStep::Give(second.as_bytes()),
        ReadStep::Give(third.as_bytes()),
        last,
    ]
}

/// The place is that in the whole input, and a read that fails ends the command.
#[test]
fn inputs_in_pieces(rt: HostRuntime) -> Result<(), Fail> {
    for (line, pieces, fails, output, said, status) in &READINGS {
        let words = words_of(rt.alloc(), line)?;
        let steps = steps_of(pieces, *fails);
        let answer = given(rt.alloc(), &words, ScriptSource::new(&steps));
        answer.is(&rt, output, said, *status, line);
    }
    Ok(())
}

/// A command that is lent a lookahead doesn't know what was used of the input before.
#[test]
fn lent_input_has_no_place(rt: HostRuntime) -> Result<(), Fail> {
    let words = words_of(rt.alloc(), "scan/--explain/%d")?;
    let mut from = Lookahead::<SliceSource<'_>, 4096>::new(SliceSource::new(b"x"));
    let answer = lent(rt.alloc(), &words, &mut from);
    let said =
        "sf: record 1: matching failure at 1, used 0, assigned 0\n  directive 1: \"%d\", d i32 width - slot 1\n  \
         there stood \"x\"\n";
    answer.is(&rt, "", said, 1, &"lent");
    Ok(())
}

/// No write fails.
const ALL: usize = usize::MAX;

/// Words, an input, how many bytes the output and the error output take before a write fails, what they take, and the
/// status.
static WRITINGS: [(&str, &[u8], usize, usize, &str, &str, u8); 7] = [
    ("scan/%d", b"1 2", 1, ALL, "1", "sf: write fault\n", 3),
    ("show/%d", b"1 2", 1, ALL, "1", "sf: write fault\n", 3),
    ("print/%d;/12", b"1 2", 1, ALL, "1", "sf: write fault\n", 3),
    (
        "check/%d;/%3d;",
        b"1 2",
        1,
        ALL,
        "a",
        "sf: write fault\n",
        3,
    ),
    (
        "scan/--lines/--keep-going/%d",
        b"x\n12\n3\n",
        1,
        ALL,
        "1",
        "sf: line 1: matching failure at 1, used 0, assigned 0\nsf: write fault\n",
        3,
    ),
    // a fault of the error output changes no status, and the line isn't begun again
    ("scan/%d;", b"1 2", ALL, 4, "", "sf: ", 1),
    (
        "scan/--lines/--keep-going/%d",
        b"x\n12\n3\n",
        ALL,
        1,
        "12\n3\n",
        "s",
        1,
    ),
];

#[test]
fn writes_that_fail(rt: HostRuntime) -> Result<(), Fail> {
    for (line, text, out_takes, err_takes, output, said, status) in &WRITINGS {
        let words = words_of(rt.alloc(), line)?;
        let out_steps = [WriteStep::Accept(*out_takes), WriteStep::Fail];
        let err_steps = [WriteStep::Accept(*err_takes), WriteStep::Fail];
        let mut out = ScriptSink::new(rt.alloc(), &out_steps);
        let mut err = ScriptSink::new(rt.alloc(), &err_steps);
        let answered = run(
            rt.alloc(),
            &words,
            SliceSource::new(text),
            &mut out,
            &mut err,
        );
        is(&rt, &out.bytes(), &output.as_bytes(), line);
        is(&rt, &err.bytes(), &said.as_bytes(), line);
        is(&rt, &answered, status, line);
    }
    Ok(())
}
