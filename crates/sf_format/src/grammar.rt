//! What the grammars of scan formats and of print formats have in common.
ghost use Rattle.std.specs.Prelude.{◌≡◌, ◌≤◌, ◌<◌, ◌+◌, true, false, ℕ, List, ◌∷◌, Option, Some, None, length, Ok, Err};
ghost use Rattle.std.specs.Prelude.{IfOk, IfErr, IfSome, MatchOption};
ghost use Rattle.std.specs.List.{AllByRecursion};
ghost use Rattle.std.specs.Option.{option_map};
ghost use Rattle.std.specs.Vec.{vec_items};
ghost use Rattle.sf_format.specs.Digits.{is_decimal};
ghost use Rattle.sf_format.specs.Language.{Language};
ghost use Rattle.sf_format.specs.Pieces.{Opening, Piece, WhiteSpace, opening_text, text_of};
ghost use Rattle.sf_format.specs.Cut.{cut, letter_at, joins_run, conversion_at, specification_at, part_at};
ghost use Rattle.sf_format.specs.Cut.{group_mark, has_groups};
ghost use Rattle.sf_format.specs.Rules.{first_of};
ghost use Rattle.sf_format.specs.Faults.{opening_rules, rest_rules, conversion_rules, percent_rules, part_rules};
ghost use Rattle.sf_format.specs.Passing.{opening_of, fault_in, IsIn, literal_piece, Holds, PassesBy, Walked, Gathers};
ghost use Rattle.sf_format.specs.Passing.{IsKept, IsMark, IsOpened, IsTaken, Precedes, StepsBy, counted, ends_group};

use crate::directive::Literal;
use crate::fault::{FormatFault, FormatWhy};
use crate::fronts::{Class, mark, split_front};
use crate::groups::{Group, NO_GROUP, Role};
use crate::opening::Written;
use crate::slots::{NO_SLOTS, Slots};
use std::alloc::Global;

/// A part that was passed: what it is to groups, what it stands for, where that is wanted and it is no mark of a group,
/// its slot, if it has one, what follows the part, and the destinations or values with it.
#[derive(Drop)]
pub struct Passed<'a, P> {
    pub role: Role,
    pub part: Option<P>,
    pub slot: Option<u8>,
    pub rest: &'a [u8],
    pub slots: Slots,
}

/// What was passed before a part: the destinations or values, and the groups.
#[derive(Clone, Copy)]
pub struct Before {
    pub slots: Slots,
    pub group: Group,
}

/// Before the first part.
pub const NOTHING: Before = Before {
    slots: NO_SLOTS,
    group: NO_GROUP,
};

/// A part that was passed, and what stands before the next one.
#[derive(Drop)]
pub struct Step<'a, P> {
    pub passed: Passed<'a, P>,
    pub before: Before,
}

/// A grammar of formats: what its parts stand for.
pub trait Grammar: Copy {
    type Part: Drop;

    ghost language: { Self → Language };

    ghost means: { Self → Option ℕ → ℕ → Piece → Self.Part → Type 0 };

    /// Whether its formats have groups.
    fn has_groups(self) -> bool
        ensures { result ≡ has_groups (language self) };

    /// What a run of white space stands for that begins with the byte, where such a run is one part.
    fn run(self, first: u8) -> Option<Self::Part>
        ensures { MatchOption result (joins_run (language self) first ≡ false)
            (λ part. (joins_run (language self) first ≡ true)
            × ((place : ℕ) (bs : List ℕ) → means self None place (WhiteSpace bs) part)) };

    /// What an ordinary byte or `%%` stands for.
    fn literal(self, literal: Literal) -> Self::Part
        ensures { (place : ℕ) → means self None place (literal_piece literal) result };

    /// Makes what a part stands for open a group with so many directives after it.
    fn open_group(self, part: &mut Self::Part, more: u16)
        ensures { (place : ℕ) (piece : Piece) → means self None place piece part.old
            → means self (Some more) place piece part.new };

    /// What follows a `%`, up to where the letter is due, and the rest.
    fn cut_opening(self, text: &[u8]) -> (Written, &[u8])
        ensures opening { opening_of result.0 ≡ (cut (language self) text.now).opening }
        ensures rest { result.1.now ≡ (cut (language self) text.now).rest };

    /// The first fault of an opening whose `%` stands at the place.
    fn opening_fault(self, at: u16, written: &Written) -> Option<FormatFault>
        requires place { at ≤ 4096 }
        requires parts { length written.now.number.now + length written.now.flags.now + length written.now.width.now
            ≤ 4096 }
        requires number { AllByRecursion (λ b. is_decimal b ≡ true) written.now.number.now }
        requires width { AllByRecursion (λ b. is_decimal b ≡ true) written.now.width.now }
        requires precision { written.now.point ≡ true → AllByRecursion
            (λ b. is_decimal b ≡ true) written.now.precision.now }
        ensures { fault_in result ≡ first_of (opening_rules (language self) at (opening_of written.now)) };

    /// Passes a specification from its letter on, which stands at the second place. Its `%` stands at the first. What
    /// it stands for is made only where it is wanted.
    fn pass_letter<'a>(
        self,
        written: &Written,
        letter: u8,
        text: &'a [u8],
        percent: u16,
        at: u16,
        slots: Slots,
        wanted: bool,
    ) -> Result<Passed<'a, Self::Part>, FormatFault>
        requires percent { percent ≤ 4096 }
        requires place { at + 1 + length text.now ≤ 4096 }
        requires count { slots.count ≤ 4096 }
        requires parts { length written.now.number.now + length written.now.flags.now + length written.now.width.now
            ≤ 4096 }
        requires number { AllByRecursion (λ b. is_decimal b ≡ true) written.now.number.now }
        requires width { AllByRecursion (λ b. is_decimal b ≡ true) written.now.width.now }
        requires precision { written.now.point ≡ true → AllByRecursion
            (λ b. is_decimal b ≡ true) written.now.precision.now }
        requires own { IsIn (language self) (opening_of written.now) }
        requires opening { first_of (opening_rules (language self) percent (opening_of written.now)) ≡ None }
        ensures { (earlier : List Opening) → Holds slots earlier
            → PassesBy wanted (means self) (rest_rules (language self) earlier percent (opening_of written.now) at
            (letter ∷ text.now)) earlier
            (letter_at (opening_of written.now) (letter ∷ text.now)) result };
}

/// What follows a `%`, up to where the letter is due, and the rest.
fn opening<G: Grammar>(grammar: G, text: &[u8]) -> (Written, &[u8])
    ensures opening { opening_of result.0 ≡ (cut (G.language grammar) text.now).opening }
    ensures rest { result.1.now ≡ (cut (G.language grammar) text.now).rest }
    ensures parts { length result.0.number.now + length result.0.flags.now + length result.0.width.now
        ≤ length text.now }
    ensures number { AllByRecursion (λ b. is_decimal b ≡ true) result.0.number.now }
    ensures width { AllByRecursion (λ b. is_decimal b ≡ true) result.0.width.now }
    ensures precision { result.0.point ≡ true → AllByRecursion (λ b. is_decimal b ≡ true) result.0.precision.now }
    ensures own { IsIn (G.language grammar) (opening_of result.0) }
    ensures length { length (opening_text (opening_of result.0)) + length result.1.now ≡ 1 + length text.now }
{
    grammar.cut_opening(text)
}

/// Passes the conversion specification whose `%` stands at the place, after these destinations or values. The text is
/// what follows the `%`.
#[inline(always)]
fn pass_conversion<'a, G: Grammar>(
    grammar: G,
    text: &'a [u8],
    at: u16,
    slots: Slots,
    wanted: bool,
) -> Result<Passed<'a, G::Part>, FormatFault>
    requires place { at + 1 + length text.now ≤ 4096 }
    requires count { slots.count ≤ 4096 }
    ensures { (earlier : List Opening) → Holds slots earlier
        → PassesBy wanted (G.means grammar) (conversion_rules (G.language grammar) earlier at text.now) earlier
        (conversion_at (G.language grammar) text.now) result }
{
    let (written, rest) = opening(grammar, text);
    if let Some(fault) = grammar.opening_fault(at, &written) {
        return Err(fault);
    }
    let letter_at = at + 1 + (text.len() - rest.len()) as u16;
    match rest {
        [] => Err(FormatFault {
            at: letter_at,
            why: FormatWhy::Truncated,
        }),
        [letter, rest @ ..] => {
            grammar.pass_letter(&written, *letter, rest, at, letter_at, slots, wanted)
        }
    }
}

/// What the mark of a group is, after its `%`, and what follows it, if one stands there.
fn group_mark(text: &[u8]) -> Option<(Role, &[u8])>
    ensures { MatchOption result (group_mark text.now ≡ None) (λ found. IsMark found.0 found.1 (group_mark text.now)) }
{
    match text {
        [b'?', b'(', rest @ ..] => Some((Role::Start, rest)),
        [b')', rest @ ..] => Some((Role::End, rest)),
        _ => None,
    }
}

/// Passes what follows the `%` at the place. It stands apart: what it passes is then copied once, and not at each
/// return of its callers.
#[inline(never)]
fn pass_specification<'a, G: Grammar>(
    grammar: G,
    text: &'a [u8],
    at: u16,
    slots: Slots,
    wanted: bool,
) -> Result<Passed<'a, G::Part>, FormatFault>
    requires place { at + 1 + length text.now ≤ 4096 }
    requires count { slots.count ≤ 4096 }
    ensures { (earlier : List Opening) → Holds slots earlier
        → PassesBy wanted (G.means grammar) (percent_rules (G.language grammar) earlier at text.now) earlier
        (specification_at (G.language grammar) text.now) result }
{
    let (found, rest) = mark(b'%', text);
    if found {
        return Ok(Passed {
            role: Role::Leads,
            part: Some(grammar.literal(Literal::Percent)),
            slot: None,
            rest,
            slots,
        });
    }
    if grammar.has_groups() {
        if let Some((role, rest)) = group_mark(text) {
            return Ok(Passed {
                role,
                part: None,
                slot: None,
                rest,
                slots,
            });
        }
    }
    pass_conversion(grammar, text, at, slots, wanted)
}

/// Passes the part that begins with the byte at the place, after these destinations or values.
#[inline(always)]
fn pass_part<'a, G: Grammar>(
    grammar: G,
    text: &'a [u8],
    at: u16,
    slots: Slots,
    wanted: bool,
) -> Result<Passed<'a, G::Part>, FormatFault>
    requires some { 0 < length text.now }
    requires place { at + length text.now ≤ 4096 }
    requires count { slots.count ≤ 4096 }
    ensures { (earlier : List Opening) → Holds slots earlier
        → PassesBy wanted (G.means grammar) (part_rules (G.language grammar) earlier at text.now) earlier
        (part_at (G.language grammar) text.now) result }
{
    let first = text[0];
    if first == 0 {
        return Err(FormatFault {
            at,
            why: FormatWhy::Nul,
        });
    }
    if let Some(part) = grammar.run(first) {
        let (_run, rest) = split_front(text, Class::White);
        return Ok(Passed {
            role: Role::Follows,
            part: Some(part),
            slot: None,
            rest,
            slots,
        });
    }
    let rest = &text[1..];
    if first == b'%' {
        return pass_specification(grammar, rest, at, slots, wanted);
    }
    Ok(Passed {
        role: Role::Leads,
        part: Some(grammar.literal(Literal::Byte(first))),
        slot: None,
        rest,
        slots,
    })
}

/// Passes the part that begins with the byte at the place, after what was passed before.
#[inline(always)]
pub fn pass<'a, G: Grammar>(
    grammar: G,
    text: &'a [u8],
    at: u16,
    before: Before,
    wanted: bool,
) -> Result<Step<'a, G::Part>, FormatFault>
    requires some { 0 < length text.now }
    requires place { at + length text.now ≤ 4096 }
    requires count { before.slots.count ≤ 4096 }
    ensures { (done : List Piece) → length (text_of done) ≡ at → Precedes before done
        → StepsBy wanted (G.means grammar) (G.language grammar) done text.now result }
{
    let passed = pass_part(grammar, text, at, before.slots, wanted)?;
    let group = before.group.joined(passed.role, at)?;
    let before = Before {
        slots: passed.slots,
        group,
    };
    Ok(Step { passed, before })
}

/// The list with one more part; None where there is no list, or memory for it is refused.
fn with_part<P: Drop>(list: Option<Vec<P>>, part: Option<P>) -> Option<Vec<P>>
    ensures { IsKept (option_map vec_items list) part (option_map vec_items result) }
{
    let mut parts = list?;
    match parts.push(part?) {
        Ok(()) => Some(parts),
        Err(_refused) => None,
    }
}

/// The list where the first of so many directives at its end opens a group with the others.
fn with_group<G: Grammar>(
    grammar: G,
    list: Option<Vec<G::Part>>,
    count: u16,
) -> Option<Vec<G::Part>>
    requires { IfSome (option_map vec_items list) (λ parts. (1 ≤ count) × (count ≤ length parts)) }
    ensures { IsOpened (G.means grammar) count (option_map vec_items list) (option_map vec_items result) }
{
    let mut parts = list?;
    let first = parts.len() - count as usize;
    grammar.open_group(&mut parts[first], count - 1);
    Some(parts)
}

/// The list with what the part stands for, where so many directives stand after the last mark that opens a group.
fn with_passed<G: Grammar>(
    grammar: G,
    list: Option<Vec<G::Part>>,
    count: u16,
    role: Role,
    part: Option<G::Part>,
) -> Option<Vec<G::Part>>
    requires { IfSome (option_map vec_items list) (λ parts. ends_group role ≡ true
        → (1 ≤ count) × (count ≤ length parts)) }
    ensures { IsTaken (G.means grammar) count role (option_map vec_items list) part (option_map vec_items result) }
{
    match role {
        Role::Start => list,
        Role::End => with_group(grammar, list, count),
        Role::Leads | Role::Follows => with_part(list, part),
    }
}

/// How many directives stand after the last mark that opens a group, with one more part.
fn count_after(count: u16, role: Role) -> u16
    requires { count < 65535 }
    ensures { result ≡ counted count role }
{
    match role {
        Role::Start => 0,
        Role::End => count,
        Role::Leads | Role::Follows => count + 1,
    }
}

/// Walks over a text once. What was passed of a text without a fault in its parts, or the first such fault; and what
/// the parts stand for, where memory is given for that. Where it is refused, the walk goes on without: a fault further
/// on is found all the same.
pub fn walk<G: Grammar>(
    grammar: G,
    text: &[u8],
    alloc: Option<Global>,
) -> Result<(Before, Option<Vec<G::Part>>), FormatFault>
    requires { length text.now ≤ 4096 }
    ensures walked { IfOk result (λ walked. Walked (G.language grammar) text.now (Ok walked.0)) }
    ensures gathered { IfOk result (λ walked. IfSome (option_map vec_items walked.1)
        (Gathers (G.language grammar) (G.means grammar) text.now)) }
    ensures fault { IfErr result (λ fault. Walked (G.language grammar) text.now (Err fault)) }
{
    let mut parts = alloc.map(|alloc| Vec::new(alloc));
    let mut rest = text;
    let mut at: u16 = 0;
    let mut before = NOTHING;
    let mut count: u16 = 0;
    while !rest.is_empty() {
        let passed = pass_part(grammar, rest, at, before.slots, parts.is_some())?;
        let group = before.group.joined(passed.role, at)?;
        rest = passed.rest;
        at = (text.len() - rest.len()) as u16;
        before = Before {
            slots: passed.slots,
            group,
        };
        parts = with_passed(grammar, parts, count, passed.role, passed.part);
        count = count_after(count, passed.role);
    }
    Ok((before, parts))
}
