//! Laws of the definitions.
ghost use Rattle.sf_report.specs.Examples.{C11Examples, OurExamples, PosixExamples};
ghost use Rattle.sf_report.specs.Laws.{
  EachByteIsTried,
  EachClosedInputStays,
  EachDoneRunFillsSlots,
  EachDoneRunHasItsRow,
  EachDoneRunStays,
  EachEarlyRunStays,
  EachHasOneReport,
  EachMachineSteps,
  EachOpenInputIsUsed,
  EachRunIsComputed,
  EachRunIsTold,
  EachStepIsComputed,
  EachStepIsWithin,
};

/// Directives, an input, its ending and a limit have one report, and no other.
pub fn one_report()
    ensures { EachHasOneReport }
{}

/// A run that no byte could go on with has the same report on every longer input.
pub fn closed_inputs_stay()
    ensures { EachClosedInputStays }
{}

/// A run that some byte would go on with has used all of its input.
pub fn open_inputs_are_used()
    ensures { EachOpenInputIsUsed }
{}

/// A run that is Done is Done with the same values on every front of its input that has the bytes which it used, with
/// every ending.
pub fn done_runs_stay()
    ensures { EachDoneRunStays }
{}

/// A run that leaves a byte of a front of its input, however it ends, has the same report on that front, with every
/// ending. With `closed_inputs_stay` it has that report on every input that begins so.
pub fn early_runs_stay()
    ensures { EachEarlyRunStays }
{}

/// A run of an accepted format that is Done has given each slot, from 1 to the count of the destinations, a value of
/// the slot's kind: a number that the kind holds, the bytes of a text, or a float. Only a slot with a `?`,
/// or in a group that may be missing, may have been given nothing; without one there is a row of values.
pub fn done_runs_have_rows()
    ensures slots { EachDoneRunFillsSlots }
    ensures row { EachDoneRunHasItsRow }
{}

/// Each directive makes the step that `step_of` computes, and no other; so does its machine, which is handed the input
/// byte by byte.
pub fn steps_are_computed()
    ensures step { EachStepIsComputed }
    ensures within { EachStepIsWithin }
    ensures machine { EachMachineSteps }
{}

/// The directives run as `ran_of` computes, and in no other way; `run_of` computes the report of that.
pub fn runs_are_computed()
    ensures steps { EachRunIsComputed }
    ensures report { EachRunIsTold }
{}

/// Whether some byte below a number passes a test is computed by trying each.
pub fn bytes_are_tried()
    ensures { EachByteIsTried }
{}

/// The examples of C11 7.21.6.2, those of POSIX, and ours of what counts, of limits, of memory, of `!` and of
/// `=`.
pub fn worked_examples()
    ensures c11 { C11Examples }
    ensures posix { PosixExamples }
    ensures ours { OurExamples }
{}
