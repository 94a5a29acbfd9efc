//! Formats of scans and of prints.
#![tactic(auto)]

mod directive;
mod fault;
mod fronts;
mod grammar;
mod groups;
mod judgement;
pub mod laws;
mod layout;
mod letter;
mod noted;
mod opening;
mod part_text;
mod print;
mod rule_table;
mod scan;
mod slots;
mod spans;
mod unit;

pub use directive::{Base, Conversion, Directive, Lead, Literal, Numeral, Opener, Profile, Shape};
pub use fault::{FormatFault, FormatWhy};
pub use layout::{Row, Way};
pub use part_text::directive_text;
pub use print::PrintFormat;
pub use scan::ScanFormat;
pub use spans::{Span, Spans};
pub use unit::{FloatStyle, PrintConv, PrintLetter, Unit};
