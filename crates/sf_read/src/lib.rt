//! Whole scans of texts and of sources, an input's lines, and rows of what a scan gives.
#![tactic(auto)]

mod field;
pub mod laws;
pub mod line;
mod matching;
mod pieces;
mod row;
mod shape;
mod source;
mod stream;
mod text_row;
mod whole;

pub use field::{Field, GivenRow, Row, RowFault};
pub use line::{LineRead, held_line, next_line, read_front};
pub use matching::Match;
pub use pieces::scan_pieces;
pub use row::{ScanRowFault, scan_row, scan_row_over};
pub use shape::{ShapeFault, check_shape};
pub use source::{Lookahead, ReadStep, ScriptSource, SliceSource, Source, SourceFault, StdSource};
pub use stream::{count_newlines, fscan, fscan_counting, fscan_fixed, fscan_held, fscan_over};
pub use text_row::{sscan_row, sscan_row_by};
pub use whole::{sscan, sscan_over};
