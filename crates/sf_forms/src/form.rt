//! The forms in which records are written.
ghost use Rattle.std.specs.Prelude.{◌≡◌};
ghost use Rattle.sf_forms.specs.Forms.{missing_text, separator};
ghost use Rattle.sf_forms.specs.Lone.{is_lone_in};

/// In which form records are written.
#[derive(Clone, Copy, Debug, PartialEq, Eq)]
pub enum OutputForm {
    /// A line for each: numbers in decimal and texts between quotes, with a blank between each two. A value that is
    /// missing is `-`.
    Plain,
    /// A line for each, as tables have it: numbers in decimal and texts as they are, with a tab between each two. In
    /// texts a tab, a line end, a carriage return and a backslash stand as `\t`, `\n`, `\r` and `\\`. A value that is
    /// missing is an empty column, as an empty text is.
    Tsv,
    /// A line for each, an array of JSON (RFC 8259): integers as numbers and texts as strings. What is UTF-8 of a text
    /// stays as it is, and each other byte stands as the lone surrogate U+DC00 + byte: `\udc80` to `\udcff`. A value
    /// that is missing is `null`.
    Json,
    /// A line for each, a row of comma-separated values (RFC 4180), whose lines end with a newline alone: numbers in
    /// decimal, and texts as they are. A text with a comma, a quote, a newline or a carriage return stands between
    /// quotes, and its quotes stand twice. A value that is missing is an empty column, as an empty text is. A record of
    /// one column that is empty is `""`.
    Csv,
}

impl OutputForm {
    /// What stands for a slot that was given nothing, as that of a conversion that may be missing.
    pub(crate) fn missing(self) -> &'static [u8]
        ensures { result.now ≡ missing_text self }
    {
        match self {
            OutputForm::Plain => b"-",
            OutputForm::Tsv | OutputForm::Csv => b"",
            OutputForm::Json => b"null",
        }
    }

    /// What stands between each two values.
    pub(crate) fn separator(self) -> u8
        ensures { result ≡ separator self }
    {
        match self {
            OutputForm::Plain => b' ',
            OutputForm::Tsv => b'\t',
            OutputForm::Json | OutputForm::Csv => b',',
        }
    }

    /// Whether a record of so many columns, whose texts are so long with what stands between them, has to have quotes
    /// so that it is no empty line.
    pub(crate) fn is_lone(self, columns: usize, len: usize) -> bool
        ensures { result ≡ is_lone_in self columns len }
    {
        match self {
            OutputForm::Csv => columns == 1 && len == 0,
            OutputForm::Plain | OutputForm::Tsv | OutputForm::Json => false,
        }
    }
}
