//! Laws of forms. None of these functions does anything: its contract is the law.
ghost use Rattle.sf_forms.specs.ReadingBack.{CsvNamesReadBack, CsvReadsBack, HeadedRecordsAreRows, JsonIsUtf8};
ghost use Rattle.sf_forms.specs.ReadingBack.{JsonObjectsReadBack, JsonReadsBack, RecordsAreRows, TsvNamesReadBack};
ghost use Rattle.sf_forms.specs.ReadingBack.{CsvGivesTexts, GivenJsonIsUtf8, HeadedRecordsAreGiven, JsonGivesValues};
ghost use Rattle.sf_forms.specs.ReadingBack.{JsonObjectsGiveValues, RecordsAreGiven, TsvGivesTexts, TsvReadsBack};

/// What is written for a report that has a row of values is the record of these values.
pub fn records_are_rows()
    ensures { RecordsAreRows }
{}

/// A table of rows of the same kinds reads as these rows: each number is the number of its field, and each text
/// its bytes.
pub fn tsv_reads_back()
    ensures { TsvReadsBack }
{
    sf_float::fewest::laws::reads_back();
}

/// Arrays of JSON read as the values that they were written for: each number is an integer, and each string the bytes
/// that it stands for.
pub fn json_reads_back()
    ensures { JsonReadsBack }
{}

/// Arrays of JSON are UTF-8, whatever the bytes of their texts (RFC 8259, 8.1).
pub fn json_is_utf8()
    ensures { JsonIsUtf8 }
{}

/// Rows of comma-separated values read, by RFC 4180, as the texts of their values: the digits of each number, and the
/// bytes of each text.
pub fn csv_reads_back()
    ensures { CsvReadsBack }
{}

/// What is written under a heading for a report that has a row of values is the record of the row: of the number of the
/// format, if that is asked for, and of these values.
pub fn headed_records_are_rows()
    ensures { HeadedRecordsAreRows }
{}

/// Objects of JSON read as the names of their values with the values that they were written for.
pub fn json_objects_read_back()
    ensures { JsonObjectsReadBack }
{}

/// A line of names reads back: the first record of a table with it is the names, and the others are those of the table
/// without it; rows of comma-separated values with it are the names and then the texts of the values.
pub fn names_read_back()
    ensures tables { TsvNamesReadBack }
    ensures rows { CsvNamesReadBack }
{}

/// What is written for any report is the record of what its slots were given: of their values, and of what stands for
/// each that is missing.
pub fn records_are_given()
    ensures records { RecordsAreGiven }
    ensures headed { HeadedRecordsAreGiven }
{}

/// Records of which some values are missing read back. Tables and rows of comma-separated values give the texts of the
/// values, and for a missing one an empty text, as for a text that is empty. Arrays and objects of JSON give the
/// values, and null for a missing one, and they are UTF-8.
pub fn missing_values_read_back()
    ensures tables { TsvGivesTexts }
    ensures rows { CsvGivesTexts }
    ensures arrays { JsonGivesValues }
    ensures objects { JsonObjectsGiveValues }
    ensures utf8 { GivenJsonIsUtf8 }
{}
