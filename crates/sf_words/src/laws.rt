//! Laws of what `clap` takes.
ghost use Rattle.sf_words.specs.Laws.{TakesBehindDashes, TakesFormats, TakesPlainTexts};

/// After `--` a command takes any texts as they stand, where there are as many as it wants.
pub fn texts_behind_dashes()
    ensures { TakesBehindDashes }
{}

/// Without it, so it takes any that don't begin with a hyphen.
pub fn plain_texts()
    ensures { TakesPlainTexts }
{}

/// With `--lines` a scan takes any of these as formats, one or more, each after `-e`.
pub fn formats_of_lines()
    ensures { TakesFormats }
{}
