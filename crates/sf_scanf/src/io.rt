//! Where bytes come from, and where they go.

pub use sf_print::{BlockSink, ListSink, Sink, SinkFault, StdSink};
pub use sf_read::{Lookahead, SliceSource, Source, SourceFault, StdSource};
