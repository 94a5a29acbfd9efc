//! Print formats.
ghost use Rattle.std.specs.Prelude.{◌≡◌, ◌≤◌, ◌↔◌, IsSome, [], ◌∷◌, length, IfOk, IfErr};
ghost use Rattle.sf_format.specs.Slots.{AreSlots, kind_with};
ghost use Rattle.sf_format.specs.Units.{AreAccepted, AreProperUnits, values_of};
ghost use Rattle.sf_format.specs.Grammar.{SpellsPrint};
ghost use Rattle.sf_format.specs.Faults.{PrintFault, IsPrintRefused, TellsFault, TakesSpelled};

pub mod grammar;
mod letter;
mod opening;

use crate::directive::Profile;
use crate::fault::FormatFault;
use crate::judgement::parse;
use crate::print::grammar::PrintGrammar;
use crate::unit::Unit;
use sf_base::Kind;
use std::alloc::Global;
use std::marker::Model;

/// A print format: its units, and the count of its values.
#[derive(Debug, Drop)]
pub struct PrintFormat {
    units: Vec<Unit>,
    values: u8,
}

impl Model for PrintFormat {
    ghost use Rattle.std.specs.Prelude.{◌≡◌, List, length};
    ghost use Rattle.sf_format.specs.declared.unit.Unit.{Unit as PrintUnit};
    ghost use Rattle.sf_format.specs.Units.{AreAccepted, values_of};

    ghost Value = { List PrintUnit };

    ghost view = { λ f. f.units.items };

    ghost invariant = { λ f. record {
      accepted : AreAccepted f.units.items;
      counted : f.values ≡ length (values_of f.units.items);
    } };
}

/// The kind of the value with the slot.
fn find_printed_kind(units: &[Unit], slot: u8) -> Option<Kind>
    ensures { result ≡ kind_with slot (values_of units.now) }
{
    for unit in units {
        match unit {
            Unit::Conv(conversion) if conversion.slot == slot => {
                return Some(conversion.kind);
            }
            _ => {}
        }
    }
    None
}

impl PrintFormat {
    /// The print format that the text spells (C11 7.21.6.1). A text with a fault is refused for that, also where memory
    /// is refused.
    pub fn parse(alloc: Global, profile: Profile, text: &[u8]) -> Result<PrintFormat, FormatFault>
        ensures spelled { IfOk result (λ format. SpellsPrint profile text.now format) }
        ensures refused { IfErr result (λ fault. IsPrintRefused profile text.now fault) }
        ensures fault { TellsFault (PrintFault profile text.now) result }
        ensures accepted { TakesSpelled (SpellsPrint profile text.now) result }
    {
        let (units, values) = parse(alloc, PrintGrammar { profile }, text)?;
        Ok(PrintFormat { units, values })
    }

    /// The units, in order.
    pub fn directives(&self) -> &[Unit]
        ensures value { result.now ≡ self.now }
        ensures accepted { AreAccepted self.now }
        ensures proper { AreProperUnits result.now }
        ensures short { length result.now ≤ 4096 }
        ensures few { length (values_of result.now) ≤ 32 }
        ensures slots { AreSlots (values_of result.now) }
    {
        &self.units
    }

    /// The kind of the value with the slot; None if there is none. Slots are counted from 1.
    pub fn kind(&self, slot: u8) -> Option<Kind>
        ensures kind { result ≡ kind_with slot (values_of self.now) }
        ensures some { let count = length (values_of self.now) in
            IsSome result ↔ ((1 ≤ slot) × (slot ≤ count)) }
    {
        find_printed_kind(self.directives(), slot)
    }

    /// How many values the format prints.
    pub fn values(&self) -> u8
        ensures count { result ≡ length (values_of self.now) }
        ensures accepted { AreAccepted self.now }
        ensures few { result ≤ 32 }
    {
        self.values
    }
}
