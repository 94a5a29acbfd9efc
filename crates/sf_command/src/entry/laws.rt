//! Laws of the definitions.
ghost use Rattle.sf_command.specs.entry.Laws.{OneIsSaid};

pub use sf_arguments::laws::{count_is_told, first_is_told, one_list, one_value};
pub use sf_records::laws::{copied_twice, joined_texts, one_end};

/// After the line of an answer of lines at most one text is to be said: that of the word that is refused.
pub fn one_is_said()
    ensures { OneIsSaid }
{}
