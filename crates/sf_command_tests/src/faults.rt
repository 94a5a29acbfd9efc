//! The lines of faults, and their exit statuses.
use crate::shared::is;
use sf_arguments::EscapeFault;
use sf_command::{ArgumentFault, CommandFault, FormatName, ToolFault};
use sf_format::{FormatFault, FormatWhy};
use sf_run::{Ending, Outcome, Status};
use std::fmt::Display;
use std::process::Abort;
use std::test::Fail;

const TOO_LONG: Outcome = Outcome {
    status: Status::TooLong,
    at: 3,
    assigned: 2,
    converted: 2,
    used: 1048576,
    met: Some(Ending::End),
};

/// Faults of a command, their lines and their exit statuses.
static COMMAND_FAULTS: [(CommandFault, &str, u8); 14] = [
    (
        CommandFault::Format(FormatFault {
            at: 7,
            why: FormatWhy::Nul,
        }),
        "sf: scan format: F14 Nul at 7",
        2,
    ),
    (
        CommandFault::Format(FormatFault {
            at: 4096,
            why: FormatWhy::FormatTooLong,
        }),
        "sf: scan format: F15 FormatTooLong at 4096",
        2,
    ),
    (
        CommandFault::Format(FormatFault {
            at: 64,
            why: FormatWhy::TooManyDestinations,
        }),
        "sf: scan format: F16 TooManyDestinations at 64",
        2,
    ),
    (
        CommandFault::Format(FormatFault {
            at: 2,
            why: FormatWhy::BackwardRange,
        }),
        "sf: scan format: F8 BackwardRange at 2",
        2,
    ),
    (
        CommandFault::BadEscape {
            name: FormatName::Print,
            at: 18446744073709551615,
        },
        "sf: print format: bad escape at 18446744073709551615",
        2,
    ),
    (
        CommandFault::Record(ToolFault::Unfit { number: 4294967295 }),
        "sf: record 4294967295: values do not fit",
        1,
    ),
    (
        CommandFault::Record(ToolFault::Failed {
            number: 5,
            outcome: TOO_LONG,
        }),
        "sf: record 5: too long at 3, used 1048576, assigned 2",
        1,
    ),
    (
        CommandFault::Record(ToolFault::Stalled { number: 12 }),
        "sf: record 12: stalled",
        1,
    ),
    (
        CommandFault::Record(ToolFault::Read { number: 2 }),
        "sf: record 2: read fault",
        3,
    ),
    (
        CommandFault::Record(ToolFault::TooMany),
        "sf: too many records",
        1,
    ),
    (CommandFault::Record(ToolFault::Write), "sf: write fault", 3),
    (
        CommandFault::Record(ToolFault::Memory),
        "sf: out of memory",
        4,
    ),
    (CommandFault::Write, "sf: write fault", 3),
    (CommandFault::Memory, "sf: out of memory", 4),
];

/// The same of faults of values.
static ARGUMENT_FAULTS: [(ArgumentFault, &str, u8); 3] = [
    (ArgumentFault::TooLong, "sf: text too long", 2),
    (ArgumentFault::Write, "sf: write fault", 3),
    (ArgumentFault::Memory, "sf: out of memory", 4),
];

/// The fault is shown as this line.
fn is_line(rt: &(impl Abort + AllocGlobal), fault: &impl Display, line: &str) -> Result<(), Fail> {
    let shown = format!(in rt.alloc(); "{fault}")?;
    is(rt, &shown.as_str(), &line, &line);
    Ok(())
}

#[test]
fn lines_of_faults(rt: HostRuntime) -> Result<(), Fail> {
    for (fault, line, status) in &COMMAND_FAULTS {
        is_line(&rt, fault, line)?;
        is(&rt, &fault.status(), status, line);
    }
    for (fault, line, status) in &ARGUMENT_FAULTS {
        is_line(&rt, fault, line)?;
        is(&rt, &fault.status(), status, line);
    }
    is_line(&rt, &EscapeFault::Bad { at: 1 }, "bad escape at 1")?;
    is_line(&rt, &EscapeFault::Memory, "out of memory")
}
