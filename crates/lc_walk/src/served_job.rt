//! What a row keeps of a job. A job is what a worker needs to visit a directory.
ghost use Rattle.std.specs.Prelude.{◌≡◌};

use lc_level::Job;
use std::alloc::Global;
use std::marker::Model;
use std::snapshot::Snapshot;

/// What a row keeps of a directory's job: the path. A job is what a worker needs to visit a directory: its path, and the rule files that
/// apply there. The rule files are dropped, unless another job shares them. In contracts, the value is still the whole job.
///
/// ```
/// let served = ServedJob::of(job); // served.path() is what job.path() was
/// ```
#[derive(Drop)]
pub struct ServedJob {
    path: Box<Vec<u8>, Global>,
    job: Snapshot<Job>,
}

impl Model for ServedJob {
    ghost use Rattle.std.specs.Prelude.{◌≡◌};
    ghost use Rattle.lc_level.specs.Job.{JobModel};

    ghost Value = { JobModel };

    ghost invariant = { λ s. s.job.value.path ≡ s.path.value.items };

    ghost view = { λ s. s.job.value };
}

impl ServedJob {
    /// Stores the path of a job, and drops the rest of the job.
    pub fn of(job: Job) -> ServedJob
        ensures { result ≡ job }
    {
        let seen = Snapshot::of(&job);
        ServedJob {
            path: job.into_path(),
            job: seen,
        }
    }

    /// Returns the path of the directory: at most 4,096 bytes.
    pub fn path(&self) -> &[u8]
        ensures { result.now ≡ self.now.path }
    {
        self.path.as_slice()
    }
}
