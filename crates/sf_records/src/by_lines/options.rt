//! How the lines of an input are scanned.

/// How the lines of an input are scanned.
#[derive(Clone, Copy, Debug, PartialEq, Eq)]
pub struct LinesOptions {
    /// The most bytes that a line may have, without its newline. At most 2147483647.
    pub limit: u32,
    /// How many lines are passed over first.
    pub skip: u64,
    /// Whether a format has to use a line to its end.
    pub whole: bool,
    /// Whether the loop goes on after a line that fails.
    pub keep_going: bool,
    /// Whether a line that matches no format is passed over.
    pub matching: bool,
}
