//! Laws of the definitions that the contracts cite.
//! None of these functions does anything: its contract is the law.
ghost use Rattle.sf_float_read.specs.value.Laws.{HexadecimalReadsBack, OneHexValue, OneStored, StoredBits};
ghost use Rattle.sf_float_read.specs.value.Laws.{ShortIsStored, StoredIsComputed};

/// What `%a` prints of a finite float, without a precision or with 13 digits or more, is read as that float.
pub fn hexadecimal_reads_back()
    ensures { HexadecimalReadsBack }
{}

/// A hexadecimal numeral has one value.
pub fn one_hex_value()
    ensures { OneHexValue }
{}

/// Of a matching sequence one thing is stored.
pub fn one_stored()
    ensures { OneStored }
{}

/// What is stored is what a function computes of the matching sequence.
pub fn stored_is_computed()
    ensures { StoredIsComputed }
{}

/// A pattern that is stored has as many bits as the format has, and is that of one of its floats.
pub fn stored_bits()
    ensures { StoredBits }
{}

/// The shortest text of a float is a matching sequence, and what is stored of it is the pattern of that float.
pub fn short_is_stored()
    ensures { ShortIsStored }
{
    sf_float::fewest::laws::reads_back();
}
