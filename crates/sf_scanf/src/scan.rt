//! To scan: formats, loops over records and lines, texts, single records, and what a run came to.

pub use crate::{Ended, is_done, is_end};
pub use sf_format::{FormatFault, FormatWhy, Profile, ScanFormat};
pub use sf_loops::{
    LineFault, LineItems, LineReports, LineWhy, Lines, RecordFault, RecordItems, RecordWhy,
    Records, Reports,
};
pub use sf_read::{
    Field, GivenRow, Match, Row, RowFault, ScanRowFault, ShapeFault, fscan, fscan_fixed,
    fscan_over, scan_pieces, scan_row, scan_row_over, sscan, sscan_over, sscan_row, sscan_row_by,
};
pub use sf_run::{Ending, Fed, FeedState, Outcome, Report, Scanned, Scanner, StartFault, Status};
