//! Laws of the definitions that the contracts cite.
//! None of these functions does anything: its contract is the law.
ghost use Rattle.sf_print.specs.digits.Numeral.{AreNumerals, OnlyNumeral};

/// The digits of a number are a numeral of it without needless zeros.
pub fn are_numerals()
    ensures { AreNumerals }
{}

/// The digits of a number are the only numeral of it without needless zeros.
pub fn only_numeral()
    ensures { OnlyNumeral }
{}
