//! The pieces of a value's text.
ghost use Rattle.std.specs.Prelude.{◌≡◌, ◌<◌, ◌^◌, length, min};
ghost use Rattle.std.specs.List.{flat_map};
ghost use Rattle.sf_print.specs.texts.Runs.{piece_bytes};

/// A run of one byte, or bytes.
#[derive(Clone, Copy)]
pub enum Piece<'a> {
    /// A byte, this many times.
    Run(u8, u32),
    /// These bytes.
    Bytes(&'a [u8]),
}

/// The pieces of a text, in order.
pub type Pieces<'a> = [Piece<'a>; 6];

impl Piece<'_> {
    pub(crate) fn len(&self) -> u64
        ensures { result ≡ length (piece_bytes self.now) }
    {
        match *self {
            Piece::Run(_, count) => count as u64,
            Piece::Bytes(bytes) => bytes.len() as u64,
        }
    }
}

/// The length of the pieces together, or the most where they are longer.
pub fn pieces_len(pieces: &[Piece<'_>], most: u64) -> u64
    requires { most < 2 ^ 32 }
    ensures { result ≡ min most (length (flat_map piece_bytes pieces.now)) }
{
    let mut sum = 0;
    for piece in pieces {
        sum = piece.len().min(most - sum) + sum;
    }
    sum
}
