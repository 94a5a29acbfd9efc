//! Laws of loops.
//! None of these functions does anything: its contract is the law.
ghost use Rattle.sf_loops.specs.Counts.{RecordsAreCounted};
ghost use Rattle.sf_loops.specs.Laws.{AnswersAreRecords, ReadsAreRecords};
ghost use Rattle.sf_loops.specs.LineLaws.{AnswersAreLines, NoneIsTheEnd};
ghost use Rattle.sf_read.specs.field.Rows.{slots_by};

use sf_read::{Row, Source};

/// The rows that a loop answers, one after the other, while it goes on, are the records of its input, whatever the
/// blocks in which that came.
pub fn answers_are_records<T: Row, S: Source, const N: usize>()
    ensures { AnswersAreRecords S.to_come S.reads S.failures N T.kinds (slots_by T.given T.listed) }
{}

/// The same whatever the source says of itself: the rows are the records of the bytes that were read ahead, and then of
/// those that the loop's reads gave, block by block. What is read ahead now is what their runs left.
pub fn reads_are_records<T: Row, S: Source, const N: usize>()
    ensures { ReadsAreRecords S.to_come S.reads S.failures N T.kinds (slots_by T.given T.listed) }
{}

/// What a loop over lines answers, one after the other, while it goes on, are the rows and the faults of the lines of
/// its input, whatever the blocks in which that came.
pub fn answers_are_lines<T: Row, S: Source, const N: usize>()
    ensures { AnswersAreLines S.to_come S.reads S.failures N T.kinds (slots_by T.given T.listed) }
{}

/// Where a loop over lines answers None, each line of its input has had its answer.
pub fn none_is_the_end<T: Row, S: Source, const N: usize>()
    ensures { NoneIsTheEnd S.to_come S.reads S.failures N T.kinds (slots_by T.given T.listed) }
{}

/// A caller that adds one for each row of a loop over records has counted the records of the input where None comes.
pub fn records_are_counted<T: Row, S: Source, const N: usize>()
    ensures { RecordsAreCounted S.to_come S.reads S.failures N T.kinds (slots_by T.given T.listed) }
{}
