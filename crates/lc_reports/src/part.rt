//! A report with its name.

use lc_walk::Report;

/// One of several reports, and its name in errors.
#[derive(Debug, Drop)]
pub struct Part<'n> {
    /// The name in errors: the file that the report was read from, or `standard input`.
    pub origin: &'n str,
    /// The report.
    pub report: Report,
}
