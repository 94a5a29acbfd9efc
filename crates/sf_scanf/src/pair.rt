//! To print what is certain to be read back, and to read it.

pub use sf_pair::{Pair, PairFault, PairWhy, WriteFault};
pub use sf_pair_read::{
    ReadRowsFault, WriteRowsFault, read_back, read_back_fixed, read_back_over, read_rows,
    write_rows,
};
