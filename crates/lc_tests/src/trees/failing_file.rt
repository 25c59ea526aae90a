//! A file of a tree in which one call fails. The failing call may be a read of the file.
ghost use Rattle.lc_tests.specs.FailingTrees.{MayFail};

use super::failing_call::FailingCall;
use lc_io::{Failed, Source};

/// A file of another tree. One read of the file may fail. Later reads go on as if the failed read had not been made.
#[derive(Drop)]
pub struct FailingFile<'a, F> {
    pub(super) file: F,
    pub(super) call: &'a FailingCall,
}

impl<F: Source> Source for FailingFile<'_, F> {
    ghost may_give = { λ old room answer new. MayFail F.may_give old.file room answer new.file };

    fn read(&mut self, buffer: &mut [u8]) -> Result<usize, Failed> {
        if self.call.fails() {
            return Err(Failed);
        }
        self.file.read(buffer)
    }
}
