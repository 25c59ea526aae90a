//! Adding the counted files of a directory to a tally.
ghost use Rattle.std.specs.Prelude.{map};
ghost use Rattle.lc_walk.specs.Serving.{AddsFiles};
ghost use Rattle.lc_walk.specs.FoundReports.{tallied};

use crate::tally::{Tally, extension};
use lc_level::FileLine;
use std::alloc::AllocError;

/// Adds files to the tally. After an error, the tally may lack some of the files.
pub(crate) fn add_files(tally: &mut Tally, files: &[FileLine]) -> Result<(), AllocError>
    ensures { AddsFiles (map tallied files.now) tally.old tally.new result }
{
    for file in files {
        if !tally.has_room(1) {
            return Err(AllocError);
        }
        tally.add(extension(&file.path), file.text(), file.count)?;
    }
    Ok(())
}
