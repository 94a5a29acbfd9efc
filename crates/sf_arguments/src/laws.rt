//! Laws of the definitions.
ghost use Rattle.sf_arguments.specs.Laws.{CountIsTold, FirstIsTold, OneList, OneValue};

/// A word stands for at most one value.
pub fn one_value()
    ensures { OneValue }
{}

/// Words stand for at most one list of values.
pub fn one_list()
    ensures { OneList }
{}

/// Where there are not as many words as values, the answer is that.
pub fn count_is_told()
    ensures { CountIsTold }
{}

/// Else where a word stands for no value, the answer is the fault of the first such.
pub fn first_is_told()
    ensures { FirstIsTold }
{}
