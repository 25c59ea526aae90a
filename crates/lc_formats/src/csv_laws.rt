//! A law about text that is printed as CSV: a theorem, which is the contract of a function that does nothing.

ghost use Rattle.lc_formats.specs.CsvLaws.{RecordsLaw};

/// The law that reading the CSV text of a sheet returns the printed records, and no other records. The records are the names of columns,
/// and the lines of one section: the files, the skipped entries or the rows. The law requires that this section has a column, and that each
/// of its lines has a value in each column.
pub fn csv_reads_back()
    ensures { RecordsLaw }
{}
