//! The colours of extensions, and the rows of directories that decide theirs. Here a colour is a number, which the style of the page turns
//! into an actual colour.

ghost use Rattle.std.specs.Prelude.{◌≡◌, drop, option_map};
ghost use Rattle.lc_picture.specs.Colours.{colour_of, first_rows_of, path_of, place_of, rows_from, same_extension};

use lc_rows::ShownRow;

/// The colour of all extensions that are not among the first eight of the chart.
pub(crate) const SHARED_COLOUR: usize = 8;

/// The colour of the rests of directories.
pub(crate) const REST_COLOUR: usize = 9;

/// Returns the path of a row's directory, or the empty path if the row has no directory.
pub(crate) fn path_of<'a>(row: &ShownRow<'a>) -> &'a [u8]
    ensures { result.now ≡ path_of row.now }
{
    row.key.directory.unwrap_or(&[])
}

pub(crate) fn same_extension(a: Option<&[u8]>, b: Option<&[u8]>) -> bool
    ensures { result ≡ same_extension (option_map (λ s. s.now) a.entry) (option_map (λ s. s.now) b.entry) }
{
    match (a, b) {
        (None, None) => true,
        (None, Some(_)) | (Some(_), None) => false,
        (Some(a), Some(b)) => a == b,
    }
}

fn place_of(extension: Option<&[u8]>, rows: &[ShownRow<'_>]) -> usize
    ensures { result ≡ place_of (option_map (λ s. s.now) extension.entry) rows.now }
{
    for place in 0..rows.len() {
        let row = &rows[place];
        if same_extension(extension, row.key.extension) {
            return place;
        }
    }
    rows.len()
}

/// Returns the colour of an extension: its index in the chart, or `SHARED_COLOUR` if it is not among the first eight.
pub(crate) fn colour_of(chart: &[ShownRow<'_>], extension: Option<&[u8]>) -> usize
    ensures { result ≡ colour_of chart.now (option_map (λ s. s.now) extension.entry) }
{
    place_of(extension, chart).min(SHARED_COLOUR)
}

/// Returns the index of the first row of a directory at or after `start`, or the number of rows if no such row follows.
pub(crate) fn next_place(directory: &[u8], kinds: &[ShownRow<'_>], start: usize) -> usize
    ensures { drop result kinds.now ≡ rows_from directory.now (drop start kinds.now) }
{
    for place in start..kinds.len() {
        if directory == path_of(&kinds[place]) {
            return place;
        }
    }
    kinds.len()
}

/// Returns the first rows of `kinds`, as many as are of this directory.
pub(crate) fn first_rows_of<'a, 'b>(
    directory: &[u8],
    kinds: &'b [ShownRow<'a>],
) -> &'b [ShownRow<'a>]
    ensures { result.now ≡ first_rows_of directory.now kinds.entry.now }
{
    for place in 0..kinds.len() {
        if directory != path_of(&kinds[place]) {
            return &kinds[..place];
        }
    }
    kinds
}
