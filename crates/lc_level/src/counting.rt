//! Counting the files of a directory that was opened.
ghost use Rattle.std.specs.Prelude.{◌≡◌, false, map, IfOk};
ghost use Rattle.std.specs.Arc.{arc_value};
ghost use Rattle.lc_level.specs.Classified.{bytes_of};
ghost use Rattle.lc_level.specs.CountedNames.{AddsCounted, IsCounted};
ghost use Rattle.lc_level.specs.FileAttributes.{attributes_with};
ghost use Rattle.lc_level.specs.Level.{asked_of, text_of};
ghost use Rattle.lc_rules.specs.AttrStates.{state_of};
ghost use Rattle.lc_rules.specs.Models.{state_model};

use crate::content_fault::ContentFault;
use crate::file_attributes::{FileAttributes, SharedAttributes};
use crate::job::Job;
use crate::level_reader::LevelReader;
use crate::scratch::Scratch;
use crate::{FaultLine, FileLine};
use lc_rules::State;
use lc_tree::Tree;
use std::alloc::{AllocError, Global};
use std::sync::Arc;

/// The counted files of a directory, and its errors: absent paths of `--only`, and then files that could not be counted. The
/// counted files, and the files that could not be counted, are in the order of the argument `names` of `LevelReader::count`.
#[derive(Drop)]
pub struct CountedFiles {
    pub files: Vec<FileLine>,
    pub faults: Vec<FaultLine>,
}

/// Returns the states of some attributes for a file, by the attribute files of its directory.
fn asked_states<'j>(
    alloc: Global,
    job: &'j Job,
    path: &[u8],
    names: &[Vec<u8>],
) -> Result<Vec<State<'j>>, AllocError>
    ensures { IfOk result (λ states. map state_model states.items
        ≡ map (state_of job.now.attributes path.now false) (map (λ name. name.items) names.now)) }
{
    let mut states = Vec::new(alloc);
    for name in names {
        states.push(job.attributes().state(alloc, path, false, name)?)?;
    }
    Ok(states)
}

impl<T: Tree> LevelReader<'_, T> {
    /// Returns the attributes of the file at a path, by the attribute files of its directory.
    fn attributes_at(
        &self,
        job: &Job,
        path: &[u8],
        shared: &mut SharedAttributes,
    ) -> Result<Arc<FileAttributes, Global>, AllocError>
        ensures { IfOk result (λ a. arc_value a
            ≡ attributes_with (text_of job.now path.now) (asked_of self.now.filters.now job.now path.now)) }
    {
        let text = job.attributes().text(self.alloc, path)?;
        let filters = self.filters;
        let asked = asked_states(self.alloc, job, path, &filters.asked)?;
        shared.share(self.alloc, text, &asked)
    }

    /// Counts the file with this name in the job's directory, and moves the name to the counted files or to the errors.
    pub(crate) fn count_named(
        &self,
        job: &Job,
        name: Vec<u8>,
        scratch: &mut Scratch,
        found: &mut CountedFiles,
    ) -> Result<(), AllocError>
        requires { scratch.old.path.directory ≡ job.now.path }
        ensures same { scratch.new.path.directory ≡ scratch.old.path.directory }
        ensures counted { AddsCounted (T.gives self.now.tree.now) self.now.filters.now job.now name.items found.old found.new result }
    {
        let Ok(()) = scratch.path.set_name(&name) else {
            return Err(AllocError);
        };
        let path = scratch.path.as_slice();
        match self.count_at(path, &mut scratch.buffer) {
            Ok(count) => {
                let attributes = self.attributes_at(job, path, &mut scratch.attributes)?;
                found.files.push(FileLine {
                    path: name,
                    attributes,
                    count,
                })?;
            }
            Err(ContentFault::Fault(word)) => found.faults.push(FaultLine { path: name, word })?,
            Err(ContentFault::Memory) => return Err(AllocError),
        }
        Ok(())
    }

    /// Counts the files `names` of the job's directory, in order. The errors of the result are those in `absent`, and then an error for
    /// each file that could not be counted. Requires that `scratch` holds the path of the job's directory, as it does after `open`.
    pub fn count(
        &self,
        job: &Job,
        names: Vec<Vec<u8>>,
        absent: Vec<FaultLine>,
        scratch: &mut Scratch,
    ) -> Result<CountedFiles, AllocError>
        requires { scratch.old.path.directory ≡ job.now.path }
        ensures { IfOk result (IsCounted (T.gives self.now.tree.now) self.now.filters.now job.now (bytes_of names.items) absent.items) }
    {
        let mut found = CountedFiles {
            files: Vec::new(self.alloc),
            faults: absent,
        };
        for name in names {
            self.count_named(job, name, scratch, &mut found)?;
        }
        Ok(found)
    }
}
