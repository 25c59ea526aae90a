//! A reader whose reads are counted.
ghost use Rattle.std.specs.Prelude.{◌≡◌};
ghost use Rattle.lc_tests.specs.TrialReads.{CountsRead};

use lc_io::{Failed, Source};

/// A reader that passes reads on to another reader, and counts them.
#[derive(Drop)]
pub struct Counted<S> {
    /// The reader to which reads are passed on.
    pub source: S,
    /// The number of reads so far, up to the greatest `u64`.
    pub reads: u64,
    /// The length in bytes of the longest buffer that a read got.
    pub longest: usize,
}

impl<S> Counted<S> {
    /// Makes a reader that has read nothing so far.
    pub fn new(source: S) -> Counted<S>
        ensures source { result.source ≡ source }
        ensures none { (result.reads ≡ 0) × (result.longest ≡ 0) }
    {
        Counted {
            source,
            reads: 0,
            longest: 0,
        }
    }
}

impl<S: Source> Source for Counted<S> {
    ghost may_give = { λ old room answer new. S.may_give old.source room answer new.source
        × CountsRead room old.reads old.longest new.reads new.longest };

    fn read(&mut self, buffer: &mut [u8]) -> Result<usize, Failed> {
        self.reads = self.reads.saturating_add(1);
        self.longest = self.longest.max(buffer.len());
        self.source.read(buffer)
    }
}
