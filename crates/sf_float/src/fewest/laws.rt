//! Laws of the definitions that the contracts cite.
//! None of these functions does anything: its contract is the law.
ghost use Rattle.sf_float.specs.fewest.Laws.{HasShortBytes, NoneNearer, NoneShorter, OneFloat, ReadsBack};

/// The text of a float is read as that float.
pub fn reads_back()
    ensures { ReadsBack }
{}

/// No decimal with fewer digits is read as a float than that of its text.
pub fn none_shorter()
    ensures { NoneShorter }
{}

/// No decimal with as many digits as those of a float's text that is read as the float is nearer to it.
pub fn none_nearer()
    ensures { NoneNearer }
{}

/// Two floats of a kind have two texts.
pub fn one_float()
    ensures { OneFloat }
{}

/// A text has digits, `-`, `.` and small letters.
pub fn has_short_bytes()
    ensures { HasShortBytes }
{}
