//! Laws of lines. None of these functions does anything: its contract is the law.
ghost use Rattle.sf_read.specs.line.Laws.{EachLineIsCut, LinesAreJoined, TextsAreCut};

/// A text that begins with a line and its newline has that line first, and then the lines of the rest; a last line
/// needs no newline, unless a read failed after it.
pub fn lines_are_cut()
    ensures { EachLineIsCut }
{}

/// Lines joined with their newlines are the lines of the text.
pub fn lines_are_joined()
    ensures { LinesAreJoined }
{}

/// The lines of a text have no newline, and joined with theirs they are the text, or the text with a last one.
pub fn texts_are_cut()
    ensures { TextsAreCut }
{}
