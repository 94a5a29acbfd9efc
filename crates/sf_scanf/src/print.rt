//! To print by a format.

pub use sf_format::{FormatFault, FormatWhy, PrintFormat, Profile};
pub use sf_print::{PrintFault, fprint, fprint_given, printed_len};
