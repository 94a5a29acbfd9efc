//! By which formats the lines of an input are scanned.

use sf_format::ScanFormat;

/// By which formats the lines of an input are scanned.
#[derive(Clone, Copy, Debug)]
pub struct LineFormats<'f> {
    /// A line that one of these uses whole is passed over.
    pub ignored: &'f [ScanFormat],
    /// The first of these that a line matches counts.
    pub tried: &'f [ScanFormat],
}
