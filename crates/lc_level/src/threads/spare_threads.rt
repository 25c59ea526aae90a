//! The threads that may help with a large directory.

use lc_tree::IdleThreads;

/// The threads that may help with a large directory: the runtime that starts them, and how many are idle.
///
/// ```
/// let idle = IdleThreads::new(4);
/// let threads = SpareThreads { rt: &rt, idle: &idle };
/// let opened = reader.open_in_parts(&threads, &job, &mut scratch)?;
/// ```
#[derive(Drop)]
pub struct SpareThreads<'h, R> {
    /// The runtime that starts the threads that help.
    pub rt: &'h R,
    /// How many threads are idle.
    pub idle: &'h IdleThreads,
}
