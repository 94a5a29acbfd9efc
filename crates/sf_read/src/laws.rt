//! Laws of scans.
//! None of these functions does anything: its contract is the law.
ghost use Rattle.sf_read.specs.Laws.{ReadsAreOneInput, ScansAreRuns};

use crate::source::Source;

/// The input of a run is what the run before it left: scans in a row over one lookahead are the runs of its input, one
/// after the other.
pub fn scans_are_runs<S: Source>()
    ensures { ScansAreRuns S.to_come }
{}

/// Whatever a source says of itself, the reads of scans in a row are one input: what they used, and what is held after
/// the last one, are what was held before the first, and then what the reads gave, block by block. Of this input,
/// however it goes on, the scans are the runs, one after the other.
pub fn reads_are_one_input<S: Source, const N: usize>()
    ensures { ReadsAreOneInput S.to_come S.reads N }
{}
