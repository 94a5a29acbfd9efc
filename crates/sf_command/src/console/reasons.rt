//! The end of an order, by what is known of why its source and its output failed.
ghost use Rattle.std.specs.Prelude.{◌≡◌, Option};
ghost use Rattle.std.specs.declared.io.Error.{Error};
ghost use Rattle.sf_command.specs.console.Ends.{EndsFailed, EndsKnown};

use crate::console::console::{Apart, Console, InOrder};
use crate::console::ends::end_order;
use crate::reasons::{LastError, is_unsaid, reason_of, with_reason};
use sf_messages::CommandFault;
use sf_print::Sink;
use sf_read::Source;
use sf_words::Order;
use std::alloc::Global;
use std::io;
use std::marker::PhantomData;

/// What a command knows of why its source failed.
pub trait Reasons<S> {
    ghost why_unread: { S → Option Error };

    /// Why the last of its reads failed that did, or why it couldn't be opened, where that is known.
    fn why_unread(source: &S) -> Option<io::Error>
        ensures { result ≡ why_unread source.now };
}

impl<S: Source> Reasons<S> for Apart {
    ghost use Rattle.std.specs.Prelude.{None};

    ghost why_unread = { λ source. None };

    fn why_unread(_source: &S) -> Option<io::Error> {
        None
    }
}

/// What is known of a source that is lent.
pub struct Lent<R>(PhantomData<R>);

impl<S: Source, R: Reasons<S>> Reasons<&mut S> for Lent<R> {
    ghost why_unread = { λ source. R.why_unread source.now };

    fn why_unread(source: &&mut S) -> Option<io::Error> {
        R::why_unread(&**source)
    }
}

impl<S: LastError> Reasons<S> for InOrder {
    ghost why_unread = { S.last_error };

    fn why_unread(source: &S) -> Option<io::Error> {
        source.last_error()
    }
}

/// Ends an order with a fault, as `end_order` does; why it came is said after the notes. On a terminal nothing is said
/// where nobody reads the output any more, nor of a record that took nothing of an input that can't be opened.
fn end_failed<K: Sink, E, C: Console<K, E>>(
    alloc: Global,
    watched: bool,
    explain: bool,
    order: &Order,
    unread: Option<io::Error>,
    out: &mut K,
    err: &mut E,
    fault: CommandFault,
    notes: &[u8],
) -> Result<u8, CommandFault>
    ensures { EndsFailed C.Hands C.said C.unsaid watched explain unread (C.why out.old) order.now notes.now fault
        out.old out.new err.old err.new result }
{
    let unwritten = C::why(out);
    if is_unsaid(watched, unread, unwritten, fault) {
        return Err(fault);
    }
    let why = reason_of(unread, unwritten, fault);
    match with_reason(alloc, explain, why, notes) {
        Some(all) => end_order::<K, E, C>(alloc, order, out, err, Err(fault), &all),
        None => end_order::<K, E, C>(alloc, order, out, err, Err(fault), notes),
    }
}

/// Ends an order, as `end_order` does, with what is known of why its source or its output failed.
pub fn end_known<S, K: Sink, E, C: Console<K, E>, R: Reasons<S>>(
    alloc: Global,
    watched: bool,
    explain: bool,
    order: &Order,
    source: &S,
    out: &mut K,
    err: &mut E,
    answer: Result<u8, CommandFault>,
    notes: &[u8],
) -> Result<u8, CommandFault>
    ensures { EndsKnown C.Hands C.said C.unsaid watched explain (R.why_unread source.now) (C.why out.old) order.now
        notes.now answer out.old out.new err.old err.new result }
{
    match answer {
        Ok(status) => end_order::<K, E, C>(alloc, order, out, err, Ok(status), notes),
        Err(fault) => end_failed::<K, E, C>(
            alloc,
            watched,
            explain,
            order,
            R::why_unread(source),
            out,
            err,
            fault,
            notes,
        ),
    }
}
