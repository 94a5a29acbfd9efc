//! The parts of a print format.
ghost use Rattle.sf_format.specs.PrintGrammar.{PrintsApart};
ghost use Rattle.sf_format.specs.Language.{Print};

use crate::directive::{Literal, Profile};
use crate::fault::{FormatFault, FormatWhy};
use crate::fronts::{Class, mark, number, size, split_front};
use crate::grammar::{Grammar, Passed};
use crate::opening::{Written, capped, is_no_slot};
use crate::print::letter::{conversion, print_converted};
use crate::print::opening::digits_behind;
use crate::rule_table::{fault_by, rule};
use crate::slots::{Slots, pushed};
use crate::unit::Unit;

/// The grammar of print formats, with the conversions of a profile.
#[derive(Clone, Copy)]
pub struct PrintGrammar {
    pub profile: Profile,
}

impl Grammar for PrintGrammar {
    type Part = Unit;

    ghost language = { λ grammar. Print grammar.profile };

    ghost means = { λ grammar. PrintsApart grammar.profile };

    /// None: each byte of white space is a part.
    fn run(self, _first: u8) -> Option<Unit> {
        None
    }

    fn has_groups(self) -> bool {
        false
    }

    /// Nothing: there are no groups.
    fn open_group(self, _part: &mut Unit, _more: u16) {}

    fn literal(self, literal: Literal) -> Unit {
        match literal {
            Literal::Byte(b) => Unit::Byte(b),
            Literal::Percent => Unit::Byte(b'%'),
        }
    }

    fn cut_opening(self, text: &[u8]) -> (Written, &[u8]) {
        let (number, text) = number(text);
        let (flags, text) = split_front(text, Class::Flag);
        let (width, text) = split_front(text, Class::Digit);
        let (point, text) = mark(b'.', text);
        let (precision, text) = digits_behind(point, text);
        let (size, text) = size(text);
        let written = Written {
            number,
            star: false,
            optional: false,
            column: false,
            strict: false,
            flags,
            width,
            point,
            precision,
            size,
        };
        (written, text)
    }

    fn opening_fault(self, at: u16, written: &Written) -> Option<FormatFault> {
        let places = written.places(at);
        let is_long = written.point && capped(written.precision) > 255;
        fault_by(&[
            rule(FormatWhy::BadNumber, at + 1, is_no_slot(written.number)),
            rule(
                FormatWhy::TooWide,
                places.width,
                capped(written.width) > 65535,
            ),
            rule(FormatWhy::PrecisionTooLarge, places.point + 1, is_long),
        ])
    }

    fn pass_letter<'a>(
        self,
        written: &Written,
        letter: u8,
        text: &'a [u8],
        percent: u16,
        at: u16,
        slots: Slots,
        _wanted: bool,
    ) -> Result<Passed<'a, Unit>, FormatFault> {
        let (found, kind) = print_converted(self.profile, written, letter, percent, at)?;
        let (slot, slots) = pushed(slots, written, percent)?;
        let conversion = conversion(written, found, kind, slot.unwrap());
        Ok(Passed {
            role: written.role(letter),
            part: Some(Unit::Conv(conversion)),
            slot,
            rest: text,
            slots,
        })
    }
}
