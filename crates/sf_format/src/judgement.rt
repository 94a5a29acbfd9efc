//! Whether a text is a format, and what it then spells.
ghost use Rattle.std.specs.Prelude.{◌≡◌, ◌≤◌, [], List, length, Ok, Err, IfOk, IfErr, IfSome, MatchResult};
ghost use Rattle.std.specs.Option.{option_map};
ghost use Rattle.std.specs.Vec.{vec_items};
ghost use Rattle.sf_format.specs.Grammar.{IsMeaning, SpellsAs, SpellsCounted};
ghost use Rattle.sf_format.specs.Faults.{FaultIn, IsRefusedAs, TellsFault, no_memory, whole_rules};
ghost use Rattle.sf_format.specs.Pieces.{Piece};
ghost use Rattle.sf_format.specs.Rules.{first_of};
ghost use Rattle.sf_format.specs.Reading.{read};
ghost use Rattle.sf_format.specs.Passing.{Gathers, Judged, Walked, fault_in};

use crate::fault::{FormatFault, FormatWhy};
use crate::grammar::{Before, Grammar, walk};
use crate::noted::number_fault;
use std::alloc::{AllocError, Global};

/// The first fault of the whole of a text without a fault in its parts, of which this was passed.
fn whole_fault<G: Grammar>(grammar: G, text: &[u8], all: Before) -> Option<FormatFault>
    requires short { length text.now ≤ 4096 }
    requires walked { Walked (G.language grammar) text.now (Ok all) }
    ensures { (pieces : List Piece) → read (length text.now) (G.language grammar) [] text.now ≡ Ok pieces
        → fault_in result ≡ first_of (whole_rules pieces) }
{
    if let Some(fault) = all.group.open_fault() {
        return Some(fault);
    }
    number_fault(grammar, text, all)
}

/// The count of the destinations or values of a text without a fault, or its first fault; and what its parts stand for,
/// where memory is given for that, and isn't refused.
pub fn judge<G: Grammar>(
    grammar: G,
    text: &[u8],
    alloc: Option<Global>,
) -> Result<(u8, Option<Vec<G::Part>>), FormatFault>
    ensures judged { IfOk result (λ judged. Judged (G.language grammar) text.now (Ok judged.0)) }
    ensures gathered { IfOk result (λ judged. IfSome (option_map vec_items judged.1)
        (Gathers (G.language grammar) (G.means grammar) text.now)) }
    ensures fault { IfErr result (λ fault. Judged (G.language grammar) text.now (Err fault)) }
{
    if text.len() > 4096 {
        return Err(FormatFault {
            at: 4096,
            why: FormatWhy::FormatTooLong,
        });
    }
    let (all, parts) = walk(grammar, text, alloc)?;
    match whole_fault(grammar, text, all) {
        Some(fault) => Err(fault),
        None => Ok((all.slots.count as u8, parts)),
    }
}

/// What the parts of a text stand for, and the count of its destinations or values. A text with a fault is refused for
/// that, also where memory is refused.
pub fn parse<G: Grammar>(
    alloc: Global,
    grammar: G,
    text: &[u8],
) -> Result<(Vec<G::Part>, u8), FormatFault>
    requires { IsMeaning G.Part (G.language grammar) (G.means grammar) }
    ensures spelled { IfOk result (λ read. SpellsCounted (G.language grammar)
        (G.means grammar) text.now read.0.items read.1) }
    ensures refused { IfErr result (IsRefusedAs (G.language grammar) (G.means grammar) text.now) }
    ensures fault { TellsFault (FaultIn (G.language grammar) text.now) result }
    ensures accepted { (ds : List G.Part) → SpellsAs (G.language grammar) (G.means grammar) text.now ds
        → MatchResult result (λ read. read.0.items ≡ ds) (λ fault. fault ≡ no_memory) }
{
    let (count, parts) = judge(grammar, text, Some(alloc))?;
    match parts {
        Some(parts) => Ok((parts, count)),
        None => Err(FormatFault::from(AllocError)),
    }
}
