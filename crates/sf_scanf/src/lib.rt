//! scanf and printf with typed values, for programs: what a program calls, under one name.
//!
//! Each name stands here, and in one of five modules by what it is for: `scan`, `print`, `pair`, `io`, `store`. The
//! twelve that most programs use are in `prelude`. The laws of loops are in `laws` alone.
//!
//! A scan format reads bytes into values, a print format writes values as bytes (C11 7.21.6.1 and 7.21.6.2, with
//! POSIX's numbered conversions). Both are parsed once, and used as often as one likes:
//!
//! - `ScanFormat::parse(alloc, Profile::One, b"%d ,%d")?`, and `PrintFormat::parse` likewise. `Profile::One` is C's
//!   grammar, `Profile::Two` has base 2 beside. `Profile::Three` also has floats, and in scan formats marks: `?` and
//!   groups (`%?(`, `%)`) for what may be missing, `=` for columns, `!` for what is read strictly. A text that is no
//!   format is a `FormatFault`: why (F1 to F21), and at which byte.
//! - A scan has a limit, the most bytes that it may use, up to 2147483647.
//!
//! To scan
//!
//! - **records of an input**: `Records::<(i32, i32), _, 4096>::new(alloc, source, &format, LIMIT)?`, and then
//! `for row in records`, where `row?` is the row; or `read_row()?` until it is None. A row is a tuple of one to twelve
//! of `i8` to `i64`, `u8` to `u64`, `f32`, `f64` and `Vec<u8>`, or a type of your own (`Row`). A conversion that may be
//! missing (`%?d`, or one in a group) wants an `Option` in its slot. `4096` is how many bytes are read at once. A
//! `RecordFault` says the record, the line and what failed. `Reports` lends each report instead. After a header line,
//! `Records::over` takes the `Lookahead` from which that was read, and `into_lookahead` gives it back.
//! - **lines of an input**, each an input of its own: `Lines`, made as `Records` is. A line that is no match is a
//! `LineFault` with its number and text, and the next call goes on with the line after it. By
//! `.matching(Match::Whole)` so is a line of which bytes are left over. `LineReports` lends each report instead.
//! - **a text**: `sscan`, as sscanf; `sscan_over` uses a store again; `sscan_row` makes a row of the values, and
//! `sscan_row_by` of a whole text; `scan_pieces` scans a text that is there in pieces.
//! - **one record of a source**: `scan_row`, or `fscan`, as fscanf, over a `Lookahead` of the source; `fscan_fixed` in
//! fixed memory.
//! - **bytes that come in pieces**: a `Scanner`, which is handed them by `feed`, and `end` when there are no more.
//!
//! `fscan`, `sscan` and `Scanner` answer a report: its `outcome` is how the run ended (`outcome.is_done()`,
//! `outcome.is_end(&format)`, by the trait `Ended`), `value(1)` or `get::<i32>(1)` what slot 1 was given, and
//! `c_return` what fscanf returns.
//!
//! To print: `fprint(&mut sink, &format, &values)?`, or `fprint_given` where values may be missing, as in a row with an
//! `Option` (`GivenRow::with_given`). Once a `Pair` of a print format and a scan format is
//! checked, `read_back` gives back whatever it has written, and `read_rows` a list of rows that `write_rows` has
//! written.
//!
//! Sources are `SliceSource` of bytes, `StdSource` of any `std::io::Read`, or an impl of `Source` of your own; sinks
//! are `ListSink`, `StdSink` and `BlockSink`, or an impl of `Sink`. What takes memory takes `alloc`, which `rt.alloc()`
//! gives, and says so where memory is refused; nothing here aborts.
//!
//! The whole loops of the command `sf` are in a crate of their own, `sf_records`.
#![tactic(auto)]

pub mod io;
pub mod laws;
mod outcomes;
pub mod pair;
pub mod prelude;
pub mod print;
pub mod scan;
pub mod store;

pub use outcomes::{Ended, is_done, is_end};
pub use sf_base::{FixedStore, HeapStore, Kind, Store, StoreFull, Taken, Value};
pub use sf_format::{FormatFault, FormatWhy, PrintFormat, Profile, ScanFormat};
pub use sf_loops::{
    LineFault, LineItems, LineReports, LineWhy, Lines, RecordFault, RecordItems, RecordWhy,
    Records, Reports,
};
pub use sf_pair::{Pair, PairFault, PairWhy, WriteFault};
pub use sf_pair_read::{
    ReadRowsFault, WriteRowsFault, read_back, read_back_fixed, read_back_over, read_rows,
    write_rows,
};
pub use sf_print::{
    BlockSink, ListSink, PrintFault, Sink, SinkFault, StdSink, fprint, fprint_given, printed_len,
};
pub use sf_read::{
    Field, GivenRow, Lookahead, Match, Row, RowFault, ScanRowFault, ShapeFault, SliceSource,
    Source, SourceFault, StdSource, fscan, fscan_fixed, fscan_over, scan_pieces, scan_row,
    scan_row_over, sscan, sscan_over, sscan_row, sscan_row_by,
};
pub use sf_run::{Ending, Fed, FeedState, Outcome, Report, Scanned, Scanner, StartFault, Status};
