//! What most programs name: `use sf_scanf::prelude::*`, or by name.

pub use crate::Ended;
pub use sf_base::Value;
pub use sf_format::{PrintFormat, Profile, ScanFormat};
pub use sf_loops::{Lines, Records};
pub use sf_print::{StdSink, fprint};
pub use sf_read::{Lookahead, Match, StdSource};
