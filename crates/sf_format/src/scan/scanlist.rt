//! Scanlists.
ghost use Rattle.std.specs.Prelude.{◌≡◌, ◌≤◌, ◌+◌, true, false, None, length};
ghost use Rattle.sf_format.specs.Scanlist.{backward_range, IsSetBy};
ghost use Rattle.sf_format.specs.Rules.{first_of, place_of};
ghost use Rattle.sf_format.specs.Faults.{list_rules};
ghost use Rattle.sf_format.specs.Cut.{close_at, members_at};
ghost use Rattle.sf_format.specs.Passing.{fault_in, ListsBehind};

use crate::fault::{FormatFault, FormatWhy};
use crate::fronts::{Class, mark, split_front};
use crate::rule_table::{fault_by, rule};
use sf_base::ByteSet;

/// A scanlist that closes, and what follows its `]`.
#[derive(Clone, Copy)]
pub struct Listed<'a> {
    pub complemented: bool,
    pub members: &'a [u8],
    pub rest: &'a [u8],
}

/// Where the byte stands first, counted from the place.
fn place(b: u8, from: u16, bytes: &[u8]) -> Option<u16>
    requires { from + length bytes.now ≤ 4096 }
    ensures { result ≡ place_of b from bytes.now }
{
    for (i, x) in bytes.iter().enumerate() {
        if *x == b {
            return Some(from + i as u16);
        }
    }
    None
}

/// Where the leftmost range begins whose low end is above its high end, counted from the place.
fn backward(from: u16, bytes: &[u8]) -> Option<u16>
    requires { from + length bytes.now ≤ 4096 }
    ensures { result ≡ backward_range from bytes.now }
{
    let mut at = from;
    let mut rest = bytes;
    while let [low, dash, high, after @ ..] = rest {
        if *dash != b'-' {
            at += 1;
            rest = &rest[1..];
        } else if *high < *low {
            return Some(at);
        } else {
            at += 3;
            rest = after;
        }
    }
    None
}

/// The members of a scanlist, and what follows them.
fn members(text: &[u8]) -> (&[u8], &[u8])
    ensures members { result.0.now ≡ members_at text.now }
    ensures close { result.1.now ≡ close_at text.now }
    ensures shorter { length result.0.now ≤ length text.now }
{
    match text {
        [] => (text, text),
        [_first, rest @ ..] => {
            let (others, _close) = split_front(rest, Class::Inner);
            text.split_at(1 + others.len())
        }
    }
}

/// The first fault of a scanlist. Its `[` stands at the first place and its first member at the second.
fn list_fault(at: u16, from: u16, text: &[u8]) -> Option<FormatFault>
    requires { from + length text.now ≤ 4096 }
    ensures { fault_in result ≡ first_of (list_rules at from text.now) }
{
    let (members, close) = members(text);
    let nul = place(0, from, members);
    let range = backward(from, members);
    fault_by(&[
        rule(FormatWhy::Nul, nul.unwrap_or(0), nul.is_some()),
        rule(FormatWhy::OpenSet, at, close.is_empty()),
        rule(
            FormatWhy::BackwardRange,
            range.unwrap_or(0),
            range.is_some(),
        ),
    ])
}

/// The set of a list of ranges and single members.
pub fn members_set(members: &[u8]) -> ByteSet
    requires { backward_range 0 members.now ≡ None }
    ensures { IsSetBy false members.now result }
{
    let mut set = ByteSet::empty();
    let mut rest = members;
    loop {
        match rest {
            [] => return set,
            [low] | [low, _] => {
                set.insert(*low);
                rest = &rest[1..];
            }
            [low, dash, high, after @ ..] => {
                if *dash == b'-' {
                    set.insert_range(*low, *high);
                    rest = after;
                } else {
                    set.insert(*low);
                    rest = &rest[1..];
                }
            }
        }
    }
}

/// The scanlist after the `[` at the place.
pub fn scanlist(at: u16, text: &[u8]) -> Result<Listed<'_>, FormatFault>
    requires { at + 1 + length text.now ≤ 4096 }
    ensures { ListsBehind true at text.now result }
{
    let (complemented, text) = mark(b'^', text);
    if let Some(fault) = list_fault(at, at + 1 + complemented as u16, text) {
        return Err(fault);
    }
    let (members, close) = members(text);
    let rest = match close {
        [_bracket, rest @ ..] => rest,
        [] => close,
    };
    Ok(Listed {
        complemented,
        members,
        rest,
    })
}
