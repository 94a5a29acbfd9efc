//! Scans of whole texts.
use crate::binary_scans::binary_scans;
use crate::column_scans::column_scans;
use crate::compare::{has_values, is};
use crate::group_scans::group_scans;
use crate::limited_scans::limited_scans;
use crate::number_scans::number_scans;
use crate::quick_scans::quick_scans;
use crate::strict_scans::strict_scans;
use crate::text_scans::text_scans;
use crate::told::{Met, Told};
use sf_base::{Store, Value};
use sf_format::{Profile, ScanFormat};
use sf_run::Report;
use std::alloc::Global;
use std::test::Fail;

/// The limit of a scan where none is named.
pub const LIMIT: u32 = 1048576;

/// A scan of a whole text.
#[derive(Drop)]
pub struct ScanRow {
    pub profile: Profile,
    pub format: &'static [u8],
    pub limit: u32,
    pub text: &'static [u8],
    pub told: Told,
    /// The values of the slots, from the first on. The slot behind them has none.
    pub values: &'static [Value<'static>],
    /// Whether the quick run, too, has to tell it, of the text alone.
    pub at_once: bool,
}

impl ScanRow {
    /// The format of the row.
    pub fn parsed(&self, alloc: Global) -> Result<ScanFormat, Fail> {
        Ok(ScanFormat::parse(alloc, self.profile, self.format)?)
    }

    /// The report is that of the row.
    pub fn is_told<S: Store>(&self, report: &Report<'_, S>) -> Result<(), Fail> {
        is(&report.outcome(), &self.told.outcome(), &self.text)?;
        has_values(report, self.values, &self.text)
    }

    /// How many bytes the run uses.
    pub fn used(&self) -> usize {
        self.told.outcome().used as usize
    }

    /// Whether the run on the text's first bytes, so many, has ended without more.
    pub fn has_ended(&self, count: usize) -> bool {
        count > self.used() || (count == self.used() && self.told.met() == Met::Nothing)
    }
}

/// Every row of a scan, in tables by what they show.
pub fn scans() -> [&'static [ScanRow]; 8] {
    [
        number_scans(),
        text_scans(),
        binary_scans(),
        limited_scans(),
        quick_scans(),
        strict_scans(),
        column_scans(),
        group_scans(),
    ]
}

/// What C's function returns for a text by `%d %d`.
static C_RETURNS: [(&[u8], i32); 5] = [(b"1 2", 2), (b"1 ", 1), (b"", -1), (b"x", 0), (b"-", 0)];

/// Texts by `%d %d`, and what C's function returns for each.
pub fn c_returns() -> &'static [(&'static [u8], i32)] {
    &C_RETURNS
}
