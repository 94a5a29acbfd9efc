//! Laws of prints.
ghost use Rattle.std.specs.Prelude.{◌≡◌, ◌⊎◌, ℕ, List, false, map, take, IfSome};
ghost use Rattle.sf_base.specs.Data.{datum_of};
ghost use Rattle.sf_print.specs.Laws.{HasFault, NoneIsLower};
ghost use Rattle.sf_print.specs.digits.Numeral.{IsNumeralOf};
ghost use Rattle.sf_print.specs.declared.fault.PrintFault.TheVariants as fault;

use sf_base::Value;
use sf_format::PrintFormat;
use sf_print::laws::{are_numerals, lowest_is_told, only_numeral};
use sf_print::{PrintFault, printed_len, write_number};

/// The slot at fault is the lowest one.
pub fn refused_print(format: &PrintFormat, values: &[Value<'_>]) -> Option<PrintFault>
    ensures { IfSome result (λ f. (f ≡ fault.WrongCount) ⊎ (f ≡ fault.TooLong)
        ⊎ (HasFault (map datum_of values.now) f format.now × NoneIsLower (map datum_of values.now) f format.now)) }
{
    lowest_is_told();
    let Err(fault) = printed_len(format, values) else {
        return None;
    };
    Some(fault)
}

/// The digits that are written of a number are its numeral, and no others are.
pub fn written_number(number: u64, buf: &mut [u8; 32]) -> usize
    ensures is { IsNumeralOf 10 false number (take result buf.new) }
    ensures only { (digits : List ℕ) → IsNumeralOf 10 false number digits → digits ≡ take result buf.new }
{
    are_numerals();
    only_numeral();
    write_number(false, number, buf, 0)
}
