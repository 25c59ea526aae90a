//! Outputs that erase the progress line of a long count before each write.

use crate::progress::Progress;
use lc_io::{Failed, Sink};

/// A sink that erases the progress line of a count before each write.
#[derive(Drop)]
pub(crate) struct WatchedSink<'a, S> {
    pub(crate) sink: S,
    pub(crate) progress: Option<&'a Progress>,
}

impl<S: Sink> Sink for WatchedSink<'_, S> {
    ghost may_take = { λ old bytes answer new. S.may_take old.sink bytes answer new.sink };

    fn write(&mut self, bytes: &[u8]) -> Result<usize, Failed> {
        if let Some(progress) = self.progress {
            progress.erase();
        }
        self.sink.write(bytes)
    }
}
