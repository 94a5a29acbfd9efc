//! The texts of values, in pieces: what a conversion prints of an integer, a float or bytes.

mod floats;
mod integer;
mod piece;
mod plain;
mod text;
mod visible;

pub use floats::{FLOAT_BYTES, float_pieces, real_of};
pub use integer::DIGIT_BYTES;
pub(crate) use integer::{integer_pieces, write_magnitude};
pub use piece::{Piece, Pieces, pieces_len};
pub use plain::{is_field_conv, is_plain_conv, plain_bytes, plain_number};
pub(crate) use text::text_pieces;
pub use text::value_pieces;
pub use visible::{core_len, least_len, visible_bytes, visible_len};
