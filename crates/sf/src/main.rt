//! The program `sf`.
#![tactic(auto)]

mod input;

use crate::input::{Disk, Input};
use sf_command::{CommandFault, Terminals, run_program};
use std::env;
use std::io::{self, ErrorKind, IsTerminal};
use std::process::ExitCode;

/// The exit status of words that are refused.
const USAGE: u8 = 2;

fn stopped(rt: &impl Eprint, fault: CommandFault) -> ExitCode {
    let _ = rt.eprintln(fault);
    ExitCode::from(fault.status())
}

/// The words can't be had: there is no memory, or they are no text.
fn unread_words(rt: &impl Eprint, error: &io::Error) -> ExitCode {
    if error.kind() == ErrorKind::OutOfMemory {
        return stopped(rt, CommandFault::Memory);
    }
    let _ = rt.eprintln(
        "sf: a word is not UTF-8: a format has such a byte as \\xHH, and < FILE reads such a file",
    );
    ExitCode::from(USAGE)
}

fn main(rt: HostRuntime) -> ExitCode {
    let alloc = rt.alloc();
    let args = match env::args(&rt) {
        Ok(args) => args,
        Err(error) => return unread_words(&rt, &error),
    };
    let words: Vec<String> = match args.skip(1).collect(alloc) {
        Ok(words) => words,
        Err(_) => return stopped(&rt, CommandFault::Memory),
    };
    let terminals = Terminals {
        output: rt.stdout().is_terminal(),
        errors: rt.stderr().is_terminal(),
    };
    let mut from = Input::standard(rt.stdin());
    let mut files = Disk::new(&rt);
    let ended = run_program(
        alloc,
        &words,
        terminals,
        &mut from,
        &mut files,
        rt.stdout(),
        rt.stderr(),
    );
    ExitCode::from(ended.status)
}
