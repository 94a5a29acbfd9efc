//! Why nothing more is printed.

use thiserror::Error;

/// Why values were not printed, or not whole.
#[derive(Clone, Copy, Debug, Error, PartialEq, Eq)]
pub enum PrintFault {
    /// There are not as many values as the format has conversions.
    #[error("the number of values isn't that of the format's conversions")]
    WrongCount,
    /// The value of this slot, counted from 1, isn't of its conversion's kind.
    #[error("value {at}: not of its conversion's kind")]
    WrongKind { at: u8 },
    /// The text of this slot, which `c` prints, hasn't exactly one byte.
    #[error("value {at}: expected one byte")]
    NotOneByte { at: u8 },
    /// The printed text has more than 2147483647 bytes.
    #[error("text too long")]
    TooLong,
    /// The sink failed after it had taken this many bytes of the text.
    #[error("write fault after {written} bytes")]
    Sink { written: u32 },
}
