//! Laws of pairs.
//! None of these functions does anything: its contract is the law.
ghost use Rattle.sf_pair.specs.Walk.{AlignedIsAccepted};
ghost use Rattle.sf_pair.specs.Doubles.{FiniteDoublesFit};
ghost use Rattle.sf_pair.specs.Fits.{FitsIsFit};
ghost use Rattle.sf_pair.specs.Joined.{JoinedRoundTrip};
ghost use Rattle.sf_pair.specs.Laws.{AlignedEndsOnNothing, AlignedIsBounded, AlignedIsWhole, AlignedMissesNone};
ghost use Rattle.sf_pair.specs.Laws.{AlignedSlotsAgree, EachStopIsOne, HeldIsBounded, LiteralsAreRunInto};
ghost use Rattle.sf_pair.specs.Laws.{OpenEndsAreOpen, PrintsSome, ReadWithin, RoundTrip};

use crate::conversions::laws_below;
use sf_float::laws::{general_reads_back, general_zero_reads_back};
use sf_float_read::value::laws::hexadecimal_reads_back;

/// The walk finds no fault exactly where the formats are aligned.
#[tactic(auto, using(crate::proofs::Cutting::aligned_is_accepted))]
pub fn aligned_is_accepted()
    ensures { AlignedIsAccepted }
{}

/// The test of what fits is exact.
#[tactic(auto, using(crate::proofs::FitTests::fits_is_fit))]
pub fn fits_is_fit()
    ensures { FitsIsFit }
{
    laws_below();
}

/// A finite double fits where the print format writes 17 significant digits of it or more, or each hexadecimal digit
/// (`%.16e`, `%.17g`, `%a`), and the scan format has room for the longest of these texts, which `longest_len` answers.
pub fn finite_doubles_fit()
    ensures { FiniteDoublesFit }
{
    general_reads_back();
    general_zero_reads_back();
    hexadecimal_reads_back();
}

/// What a print format prints of values that fit, an aligned scan format reads back, whatever follows.
pub fn round_trip()
    ensures { RoundTrip }
{
    laws_below();
}

/// The same under a limit, and no other report.
pub fn read_within()
    ensures { ReadWithin }
{
    laws_below();
}

/// What is printed of rows that fit, one after the other, an aligned scan format reads back as these rows, one after
/// the other, whatever follows.
pub fn joined_round_trip()
    ensures { JoinedRoundTrip }
{
    laws_below();
}

/// What is read back are the values slot by slot, and aligned formats have as many slots.
#[tactic(auto, using(crate::proofs::SlotCounts::slots_agree))]
pub fn slots_agree()
    ensures { AlignedSlotsAgree }
{
    laws_below();
}

/// A scan format that is aligned with a print format has a width sum.
#[tactic(auto, using(crate::proofs::Bounds::aligned_is_bounded))]
pub fn aligned_is_bounded()
    ensures { AlignedIsBounded }
{}

/// A scan format that is aligned with a print format has no directive that may be missing, and so no slot that may
/// have no value.
pub fn aligned_is_whole()
    ensures conversions { AlignedIsWhole }
    ensures slots { AlignedMissesNone }
{}

/// No text that is printed of values that fit is empty.
#[tactic(auto, using(crate::proofs::Nothing::prints_some))]
pub fn prints_some()
    ensures { PrintsSome }
{
    laws_below();
}

/// On the empty input a run of an aligned scan format meets the end, before any conversion has completed.
#[tactic(auto, using(crate::proofs::Nothing::ends_on_nothing))]
pub fn ends_on_nothing()
    ensures { AlignedEndsOnNothing }
{
    laws_below();
}

/// The texts that a report holds have together at most as many bytes as the width sum of the format.
pub fn held_is_bounded()
    ensures { HeldIsBounded }
{}

/// Where an open end is reported, a byte after some text that is printed there is taken too.
#[tactic(auto, using(crate::proofs::Refusals::open_ends_are_open))]
pub fn open_ends_are_open()
    ensures { OpenEndsAreOpen }
{
    laws_below();
}

/// Where the report is that an item runs on and a literal comes next, the literal is taken too, after the text of some
/// value that fits.
#[tactic(auto, using(crate::proofs::Refusals::literals_are_run_into))]
pub fn literals_are_run_into()
    ensures { LiteralsAreRunInto }
{
    laws_below();
}

/// The place where the walk stops has one directive, and one list of units is left there.
pub fn stops_are_one()
    ensures { EachStopIsOne }
{}
