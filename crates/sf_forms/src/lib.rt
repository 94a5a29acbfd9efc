//! How the values of one record are written: in a form, to a list or a sink; and what is written of a report.
#![tactic(auto)]

mod columns;
mod csv;
mod escape;
mod form;
mod form_writer;
mod headed_line;
mod heads;
mod in_place;
mod json;
pub mod laws;
mod line;
mod makers;
mod output;
mod quote;
mod real;
mod short_line;
mod tables;

pub use form::OutputForm;
pub use form_writer::{FormWriter, RecordFault};
pub use heads::TAG_NAME;
pub use in_place::{end_values, write_number_value, write_real_value, write_text_value};
pub use line::push_record;
pub use makers::{
    FEW_VALUES, FormMaker, MOST_VALUES, Maker, Names, NamesFault, PrintMaker, PrintMismatch,
    Unwritten, check_print, row, shown_row,
};
pub use output::write_whole;
pub use quote::push_quoted;
pub use real::write_real;
