//! Laws about text that is printed in human-readable columns. Each law is a theorem, which is the contract of a function that does nothing.

ghost use Rattle.lc_formats.specs.ChangeLaws.{ChangeLaw, GrowthLaw, NoChangeLaw};
ghost use Rattle.lc_formats.specs.CommaLaws.{CommasLaw};
ghost use Rattle.lc_formats.specs.ShareLaws.{BarLengthLaw, NearestLaw, PartsLaw, WholeLaw};
ghost use Rattle.lc_formats.specs.WidthLaws.{CountsWidthLaw, LineEndsLaw, ListingWidthLaw, SummaryWidthLaw};

/// The law that a number with commas, such as `41,203`, reads back. If the commas are removed, the digits have the value of the number. The
/// law requires a number below 2^128.
pub fn numbers_with_commas_read_back()
    ensures { CommasLaw }
{}

/// The law that lines of a human-readable text, of a report or of a comparison, have one width, before the blanks at the ends of the lines
/// are removed. The headings, rows and sums have one width. The lines with the numbers of directories and of entries have one width. In a
/// list of which only the last column is not padded, the lines have one width up to this column. The law requires printable words, and
/// names whose bytes are numbers below 256. For the rows and sums, the law also requires that they have the same columns, that all these
/// columns are padded, that no heading of an attribute ends with a blank, and that their lines end with numbers.
pub fn lines_of_a_part_are_as_wide()
    ensures summary { SummaryWidthLaw }
    ensures counts { CountsWidthLaw }
    ensures listing { ListingWidthLaw }
{}

/// The law that no line of a human-readable text ends with a blank. The law requires of rows, sums and lists what
/// [`lines_of_a_part_are_as_wide`] requires. In each list, only the last column must be without padding, and no text in this column may be
/// empty or end with a blank.
pub fn lines_end_without_blanks()
    ensures { LineEndsLaw }
{}

/// The law that a share is rounded half up to tenths of a per cent, and that the share of the whole itself is 100.0 per cent. Both claims
/// require a whole above 0. No part of a whole has a share above 100.0 per cent.
pub fn shares_are_of_the_whole()
    ensures nearest { NearestLaw }
    ensures whole { WholeLaw }
    ensures parts { PartsLaw }
{}

/// The law that a bar has one character for each cell of a terminal that it fills wholly or in part.
pub fn bars_are_as_long_as_their_cells()
    ensures { BarLengthLaw }
{}

/// The law that in a human-readable text, an old number and its change add up to the new number, if both numbers are below 2^128. An
/// unchanged number has a zero as its change.
pub fn changes_add_up_to_new_numbers()
    ensures change { ChangeLaw }
    ensures none { NoChangeLaw }
{}

/// The law that the change of a number in per cent of the old number has the sign of the change, and that its size is rounded half up to
/// tenths of a per cent. The law requires an old number above 0.
pub fn changes_in_per_cent_are_of_old_numbers()
    ensures { GrowthLaw }
{}
