//! The numbers of the destinations or values of a whole format.
ghost use Rattle.std.specs.Prelude.{◌≡◌, ◌≤◌, ◌+◌, ℕ, List, [], ◌∷◌, ◌++◌, Ok, length};
ghost use Rattle.sf_format.specs.Pieces.{Piece};
ghost use Rattle.sf_format.specs.Reading.{read};
ghost use Rattle.sf_format.specs.Rules.{first_of};
ghost use Rattle.sf_format.specs.Faults.{repeated, beyond, number_rules};
ghost use Rattle.sf_format.specs.Passing.{fault_in, with_place, first_place, Notes, Walked};

use crate::fault::{FormatFault, FormatWhy};
use crate::grammar::{Before, Grammar, NOTHING, pass};
use sf_base::ByteSet;

/// What was noted of the numbers so far.
#[derive(Drop)]
pub struct Noted {
    /// The numbers.
    pub used: ByteSet,
    /// Where the first one stands that was used before.
    pub twice: Option<u16>,
    /// Where the first one stands that is above the count.
    pub gap: Option<u16>,
}

/// The place that was found before, or else this one if it applies.
fn first_place(before: Option<u16>, applies: bool, at: u16) -> Option<u16>
    ensures { result ≡ first_place before applies at }
{
    match before {
        None if applies => Some(at),
        _ => before,
    }
}

/// Notes the slot, if there is one, with the place.
fn note(noted: &mut Noted, slot: Option<u8>, at: u16, count: u16)
    ensures { (ns : List (ℕ × ℕ)) → Notes count ns noted.old → Notes count (ns ++ with_place slot at) noted.new }
{
    let Some(number) = slot else {
        return;
    };
    noted.twice = first_place(noted.twice, noted.used.contains(number), at);
    noted.gap = first_place(noted.gap, count < number as u16, at);
    noted.used.insert(number);
}

/// The first fault of what was noted.
fn noted_fault(noted: &Noted) -> Option<FormatFault>
    ensures { (count : ℕ) (ns : List (ℕ × ℕ)) → Notes count ns noted.now
        → fault_in result ≡ first_of (repeated [] ns ++ beyond count ns) }
{
    match (noted.twice, noted.gap) {
        (Some(at), _) => Some(FormatFault {
            at,
            why: FormatWhy::NumberTwice,
        }),
        (None, Some(at)) => Some(FormatFault {
            at,
            why: FormatWhy::NumberGap,
        }),
        (None, None) => None,
    }
}

/// The first fault of the numbers of a text without a fault in its parts, of which this was passed.
pub fn number_fault<G: Grammar>(grammar: G, text: &[u8], all: Before) -> Option<FormatFault>
    requires short { length text.now ≤ 4096 }
    requires walked { Walked (G.language grammar) text.now (Ok all) }
    ensures { (pieces : List Piece) → read (length text.now) (G.language grammar) [] text.now ≡ Ok pieces
        → fault_in result ≡ first_of (number_rules pieces) }
{
    if !all.slots.numbered {
        return None;
    }
    let mut noted = Noted {
        used: ByteSet::empty(),
        twice: None,
        gap: None,
    };
    let mut rest = text;
    let mut at: u16 = 0;
    let mut before = NOTHING;
    while !rest.is_empty() {
        let Ok(step) = pass(grammar, rest, at, before, false) else {
            unreachable!()
        };
        note(&mut noted, step.passed.slot, at, all.slots.count);
        rest = step.passed.rest;
        at = (text.len() - rest.len()) as u16;
        before = step.before;
    }
    noted_fault(&noted)
}
