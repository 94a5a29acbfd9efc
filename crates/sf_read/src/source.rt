//! Sources, and bytes read ahead of them.

mod lookahead;
mod script_source;
mod slice_source;
mod source;
mod std_source;

pub use lookahead::Lookahead;
pub use script_source::{ReadStep, ScriptSource};
pub use slice_source::SliceSource;
pub use source::{Source, SourceFault};
pub use std_source::StdSource;
