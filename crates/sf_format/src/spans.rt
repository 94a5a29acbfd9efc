//! Where the directives of a scan format stand in its text.
ghost use Rattle.std.specs.Prelude.{◌≡◌, ◌≤◌, ℕ, List, length, IfOk, IfErr, MatchResult};
ghost use Rattle.std.specs.Option.{option_map};
ghost use Rattle.sf_format.specs.Language.{Scan};
ghost use Rattle.sf_format.specs.Pieces.{Piece, text_of, text_at};
ghost use Rattle.sf_format.specs.Grammar.{IsFormat};
ghost use Rattle.sf_format.specs.Faults.{Fault, IsRefused, TellsFault, no_memory};
ghost use Rattle.sf_format.specs.Passing.{IsHindered};
ghost use Rattle.sf_format.specs.Spans.{AreSpans, span_at, spans_of};

use crate::directive::Profile;
use crate::fault::FormatFault;
use crate::grammar::{Grammar, NOTHING, pass};
use crate::judgement::judge;
use crate::scan::grammar::ScanGrammar;
use std::alloc::Global;
use std::marker::Model;

/// Where a directive stands in the text of its format: from the byte `start` on, up to the byte before `end`. Bytes are
/// counted from 0.
#[derive(Clone, Copy, Debug, PartialEq, Eq)]
pub struct Span {
    pub start: u16,
    pub end: u16,
}

/// Where each directive of a scan format stands in its text.
#[derive(Debug, Drop)]
pub struct Spans {
    spans: Vec<Span>,
}

impl Model for Spans {
    ghost use Rattle.std.specs.Prelude.{List};
    ghost use Rattle.sf_format.specs.declared.spans.Span.{Span};

    ghost Value = { List Span };

    ghost view = { λ s. s.spans.items };
}

/// Where each directive or unit of a text stands, where no part of it has a fault.
fn gather_spans<G: Grammar>(
    alloc: Global,
    grammar: G,
    text: &[u8],
) -> Result<Vec<Span>, FormatFault>
    requires { length text.now ≤ 4096 }
    ensures gathered { IfOk result (λ spans. AreSpans (G.language grammar) text.now spans.items) }
    ensures hindered { IfErr result (IsHindered (G.language grammar) text.now) }
{
    let mut spans = Vec::new(alloc);
    let mut rest = text;
    let mut at: u16 = 0;
    let mut before = NOTHING;
    while !rest.is_empty() {
        let step = pass(grammar, rest, at, before, false)?;
        rest = step.passed.rest;
        let end = (text.len() - rest.len()) as u16;
        if !step.passed.role.is_mark() {
            spans.push(Span { start: at, end })?;
        }
        at = end;
        before = step.before;
    }
    Ok(spans)
}

impl Spans {
    /// Where the directives of the text of a scan format stand. Memory is taken only for a text that spells a format.
    pub fn of(alloc: Global, profile: Profile, text: &[u8]) -> Result<Spans, FormatFault>
        ensures spelled { (pieces : List Piece) → IsFormat (Scan profile) pieces → text.now ≡ text_of pieces
            → MatchResult result (λ spans. spans ≡ spans_of 0 pieces) (λ fault. fault ≡ no_memory) }
        ensures refused { IfErr result (λ fault. IsRefused profile text.now fault) }
        ensures fault { TellsFault (Fault profile text.now) result }
    {
        let grammar = ScanGrammar { profile };
        let (_count, _parts) = judge(grammar, text, None)?;
        let spans = gather_spans(alloc, grammar, text)?;
        Ok(Spans { spans })
    }

    /// Where the directive with the number stands. Directives are counted from 1, as `Outcome::at` of a report counts
    /// them. None where no directive has the number.
    pub fn span(&self, number: u16) -> Option<Span>
        ensures { result ≡ span_at number self.now }
    {
        if number == 0 {
            return None;
        }
        self.spans.get(number as usize - 1).copied()
    }

    /// The text of the directive with the number, as it stands in the text of its scan format, from which the spans
    /// were made (C11 7.21.6.2p3). None where no directive has the number. Of another text, None or some part of it.
    pub fn text_of<'a>(&self, text: &'a [u8], number: u16) -> Option<&'a [u8]>
        ensures { (pieces : List Piece) → self.now ≡ spans_of 0 pieces → text.now ≡ text_of pieces
            → option_map (λ t. t.now) result ≡ text_at number pieces }
    {
        let Some(span) = self.span(number) else {
            return None;
        };
        text.get(span.start as usize..span.end as usize)
    }
}
