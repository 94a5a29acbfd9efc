//! Laws of the definitions that the contracts cite.
//! None of these functions does anything: its contract is the law.
ghost use Rattle.sf_float_read.specs.item.Laws.{PlainFloatsParse, DecimalsAreFloats};
ghost use Rattle.sf_float_read.specs.item.Parts.{PartsAreSequences};
ghost use Rattle.sf_float_read.specs.item.Steps.{EachGoesOn};
ghost use Rattle.sf_float_read.specs.item.Tests.{TestsAreSequences};

/// What can be read is a front of a matching sequence.
pub fn each_goes_on()
    ensures { EachGoesOn }
{}

/// `parse` reads each matching sequence that is neither hexadecimal nor has a payload.
pub fn plain_floats_parse()
    ensures { PlainFloatsParse }
{}

/// A matching sequence of a conversion with `!` is one without.
pub fn decimals_are_floats()
    ensures { DecimalsAreFloats }
{}

/// The matching sequences that are defined from the left are those of C's parts.
pub fn parts_are_sequences()
    ensures { PartsAreSequences }
{}

/// The tests that compute say what the relations say.
pub fn tests_are_sequences()
    ensures { TestsAreSequences }
{}
