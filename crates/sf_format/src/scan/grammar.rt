//! The parts of a scan format.
ghost use Rattle.std.specs.Prelude.{◌≡◌, ◌&&◌, ◌+◌, length};
ghost use Rattle.sf_format.specs.Lists.{is_written};
ghost use Rattle.sf_format.specs.Cut.{marks_of_three};
ghost use Rattle.sf_format.specs.Pieces.{star_text, optional_text, column_text, strict_text};
ghost use Rattle.sf_format.specs.Language.{Scan};
ghost use Rattle.sf_format.specs.Grammar.{Means};

use crate::directive::{Directive, Literal, Opener, Profile};
use crate::fault::{FormatFault, FormatWhy};
use crate::fronts::{Class, mark, number, size, split_front};
use crate::grammar::{Grammar, Passed};
use crate::letter::has_doubles;
use crate::opening::{Written, capped, is_no_slot, is_zero, number_len};
use crate::rule_table::{fault_by, rule};
use crate::scan::conversion::{conversion, converted, list_behind};
use crate::slots::{Slots, pushed};
use sf_base::is_space;

/// The grammar of scan formats, with the conversions of a profile.
#[derive(Clone, Copy)]
pub struct ScanGrammar {
    pub profile: Profile,
}

/// Which of the marks `?`, `=` and `!` stand in front, and what follows them.
#[derive(Clone, Copy)]
struct Marks<'a> {
    optional: bool,
    column: bool,
    strict: bool,
    rest: &'a [u8],
}

/// The marks in front, if the profile has them.
fn marks_of_three(profile: Profile, text: &[u8]) -> Marks<'_>
    ensures { (result.optional, result.column, result.strict, result.rest.now) ≡ marks_of_three profile text.now }
{
    if !has_doubles(profile) {
        return Marks {
            optional: false,
            column: false,
            strict: false,
            rest: text,
        };
    }
    let (optional, text) = mark(b'?', text);
    let (column, text) = mark(b'=', text);
    let (strict, rest) = mark(b'!', text);
    Marks {
        optional,
        column,
        strict,
        rest,
    }
}

impl Written<'_> {
    /// Whether it has a number and is suppressed.
    fn is_starred_number(&self) -> bool
        ensures { result ≡ (is_written self.now.number.now && self.now.star) }
    {
        !self.number.is_empty() && self.star
    }

    /// How many marks stand before the width: `*`, `?`, `=` and `!`.
    fn mark_count(&self) -> u16
        ensures { result ≡ length (star_text self.now.star) + length (optional_text self.now.optional)
            + length (column_text self.now.column) + length (strict_text self.now.strict) }
    {
        self.star as u16 + self.optional as u16 + self.column as u16 + self.strict as u16
    }
}

impl Grammar for ScanGrammar {
    type Part = Directive;

    ghost language = { λ grammar. Scan grammar.profile };

    ghost means = { λ grammar. Means grammar.profile };

    fn run(self, first: u8) -> Option<Directive> {
        if is_space(first) {
            Some(Directive::Space)
        } else {
            None
        }
    }

    fn has_groups(self) -> bool {
        has_doubles(self.profile)
    }

    fn literal(self, literal: Literal) -> Directive {
        match literal {
            Literal::Byte(b) => Directive::Byte(b),
            Literal::Percent => Directive::Percent,
        }
    }

    fn open_group(self, part: &mut Directive, more: u16) {
        let literal = match part {
            Directive::Conv(conversion) => {
                conversion.optional = true;
                conversion.opens = Some(more);
                return;
            }
            Directive::Byte(b) => Literal::Byte(*b),
            Directive::Percent => Literal::Percent,
            Directive::Space | Directive::Opens(_) => return,
        };
        *part = Directive::Opens(Opener { literal, more });
    }

    fn cut_opening(self, text: &[u8]) -> (Written, &[u8]) {
        let none = &text[..0];
        let (number, text) = number(text);
        let (star, text) = mark(b'*', text);
        let marks = marks_of_three(self.profile, text);
        let (width, text) = split_front(marks.rest, Class::Digit);
        let (size, text) = size(text);
        let written = Written {
            number,
            star,
            optional: marks.optional,
            column: marks.column,
            strict: marks.strict,
            flags: none,
            width,
            point: false,
            precision: none,
            size,
        };
        (written, text)
    }

    fn opening_fault(self, at: u16, written: &Written) -> Option<FormatFault> {
        if written.number.is_empty() && written.width.is_empty() {
            return None;
        }
        let star_at = at + 1 + number_len(written.number);
        let width_at = star_at + written.mark_count();
        let width = capped(written.width);
        fault_by(&[
            rule(FormatWhy::BadNumber, at + 1, is_no_slot(written.number)),
            rule(FormatWhy::BadNumber, star_at, written.is_starred_number()),
            rule(
                FormatWhy::ZeroWidth,
                width_at,
                is_zero(written.width, width),
            ),
            rule(FormatWhy::TooWide, width_at, width > 65535),
        ])
    }

    fn pass_letter<'a>(
        self,
        written: &Written,
        letter: u8,
        text: &'a [u8],
        percent: u16,
        at: u16,
        slots: Slots,
        wanted: bool,
    ) -> Result<Passed<'a, Directive>, FormatFault> {
        let (found, kind) = converted(self.profile, written, letter, at)?;
        let list = list_behind(found, at, text)?;
        let (slot, slots) = pushed(slots, written, percent)?;
        Ok(Passed {
            role: written.role(letter),
            part: conversion(wanted, found, kind, written, slot, &list),
            slot,
            rest: list.rest,
            slots,
        })
    }
}
