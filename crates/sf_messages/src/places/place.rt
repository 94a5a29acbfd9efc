//! Places in an input.
ghost use Rattle.std.specs.Prelude.{◌∷◌, ◌++◌, [], ℕ, List};
ghost use Rattle.sf_messages.specs.places.Behind.{IsBehind};

/// The byte that ends a line (C11 7.21.2p2).
const LINE_END: u8 = b'\n';

/// A place in an input: a line, and a byte of it. Both are counted from 1, and stay at 2^64 - 1.
#[derive(Clone, Copy, Debug, PartialEq, Eq)]
pub struct Place {
    pub line: u64,
    pub column: u64,
}

impl Place {
    /// The place of the first byte.
    pub fn first() -> Place
        ensures { IsBehind [] result }
    {
        Place { line: 1, column: 1 }
    }

    /// The place after one more byte.
    fn behind_byte(self, byte: u8) -> Place
        ensures { (before : List ℕ) → IsBehind before self → IsBehind (before ++ byte ∷ []) result }
    {
        if byte == LINE_END {
            Place {
                line: self.line.saturating_add(1),
                column: 1,
            }
        } else {
            Place {
                line: self.line,
                column: self.column.saturating_add(1),
            }
        }
    }

    /// The place after more bytes.
    pub fn behind(self, bytes: &[u8]) -> Place
        ensures { (before : List ℕ) → IsBehind before self → IsBehind (before ++ bytes.now) result }
    {
        let mut place = self;
        for byte in bytes {
            place = place.behind_byte(*byte);
        }
        place
    }
}
