//! Each law of the libraries, applied once to what public calls answered: what these functions ensure follows only
//! where a caller can use the law. And worked examples of scans, by the paragraphs of C11 7.21.6.2.
#![tactic(auto)]

#[cfg(test)]
mod bit_for_bit;
mod doubles;
mod examples;
mod formats;
mod items;
mod lines;
mod pairs;
mod prints;
mod runs;
mod scans;
mod there;
mod words;

pub use doubles::{double_fits, whole_scan};
pub use examples::{example, examples_are_told};
pub use formats::{
    both_profiles, faulted_twice, has_slot, in_their_order, one_profile, parsed_again,
    parsed_and_refused, parsed_twice, print_parsed_twice, spelled_or_faulty, third_profile,
};
pub use items::{column_fills, word_item};
pub use lines::first_line;
pub use pairs::{read_again, read_back, refused_pair, written_rows};
pub use prints::{refused_print, written_number};
pub use runs::{
    computed, fourth_example, has_row, on_longer_inputs, open_is_used, over_two_stores,
    scanned_twice,
};
pub use scans::{scan_with_room, two_scans, two_scans_read};
pub use there::{Lost, carried, through};
pub use words::{printed_words, taken_words};
