//! The texts of directives, as they stand in their format.
ghost use Rattle.std.specs.Prelude.{◌≡◌, ◌≤◌, ℕ, List, [], Ok, None, length};
ghost use Rattle.std.specs.Option.{option_map};
ghost use Rattle.sf_format.specs.declared.fault.FormatWhy.{FormatWhy};
ghost use Rattle.sf_format.specs.Language.{Scan};
ghost use Rattle.sf_format.specs.Pieces.{Piece, text_of, text_at};
ghost use Rattle.sf_format.specs.Grammar.{IsFormat};
ghost use Rattle.sf_format.specs.Faults.{Fault};
ghost use Rattle.sf_format.specs.Reading.{read};

use crate::directive::Profile;
use crate::grammar::{Grammar, NOTHING, pass};
use crate::judgement::judge;
use crate::scan::grammar::ScanGrammar;

/// The text of the directive or unit with the number, counted from 1, of a text without a fault in its parts.
fn part_text<G: Grammar>(grammar: G, text: &[u8], number: u16) -> Option<&[u8]>
    requires { length text.now ≤ 4096 }
    ensures { (pieces : List Piece) → read (length text.now) (G.language grammar) [] text.now ≡ Ok pieces
        → option_map (λ t. t.now) result ≡ text_at number pieces }
{
    if number == 0 {
        return None;
    }
    let mut left = number;
    let mut rest = text;
    let mut at: u16 = 0;
    let mut before = NOTHING;
    while !rest.is_empty() {
        let Ok(step) = pass(grammar, rest, at, before, false) else {
            return None;
        };
        if !step.passed.role.is_mark() {
            if left == 1 {
                return Some(&rest[..rest.len() - step.passed.rest.len()]);
            }
            left -= 1;
        }
        rest = step.passed.rest;
        at = (text.len() - rest.len()) as u16;
        before = step.before;
    }
    None
}

/// The text of the directive with the number, as it stands in a scan format: the part of the format's text that the
/// directive comes from (C11 7.21.6.2p3). Directives are counted from 1, as `Outcome::at` of a report counts them; the
/// marks of groups are none. None where none has the number, and where the text is no format. It takes no memory.
pub fn directive_text(profile: Profile, text: &[u8], number: u16) -> Option<&[u8]>
    ensures text { (pieces : List Piece) → IsFormat (Scan profile) pieces → text.now ≡ text_of pieces
        → option_map (λ t. t.now) result ≡ text_at number pieces }
    ensures refused { (at : ℕ) (why : FormatWhy) → Fault profile text.now at why → result ≡ None }
{
    let grammar = ScanGrammar { profile };
    let Ok((_count, _parts)) = judge(grammar, text, None) else {
        return None;
    };
    part_text(grammar, text, number)
}
