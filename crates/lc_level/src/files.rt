//! Opening one file, to count it or to read it as rules.
ghost use Rattle.std.specs.Prelude.{◌≡◌, ◌<◌, ◌≤◌, ℕ, List, Ok, length};
ghost use Rattle.lc_io.specs.Buffers.{buffer_len};
ghost use Rattle.lc_level.specs.FileReads.{IsAnswer, MayCount, MayReadRules};

use crate::FaultWord;
use crate::content_fault::ContentFault;
use crate::level_reader::LevelReader;
use lc_census::{CensusFault, Count, MAX_TURNS, count_source};
use lc_io::{WholeFault, read_whole};
use lc_rules::MAX_RULE_BYTES;
use lc_tree::{ReadFault, Tree};

impl<T: Tree> LevelReader<'_, T> {
    /// Counts the file at a path. Reads go into `buffer`, which has `BUFFER_LEN` bytes.
    pub(crate) fn count_at(&self, path: &[u8], buffer: &mut [u8]) -> Result<Count, ContentFault>
        requires { length buffer.old ≡ buffer_len }
        ensures { IsAnswer (MayCount (T.gives self.now.tree.now path.now)) (λ count. count) result }
    {
        let mut file = match self.tree.open_file(self.alloc, path) {
            Ok(file) => file,
            Err(ReadFault::Memory) => return Err(ContentFault::Memory),
            Err(_) => return Err(ContentFault::Fault(FaultWord::Read)),
        };
        match count_source(buffer, &mut file, MAX_TURNS) {
            Ok(count) => Ok(count),
            Err(CensusFault::Read) => Err(ContentFault::Fault(FaultWord::Read)),
            Err(CensusFault::Endless) => Err(ContentFault::Fault(FaultWord::Endless)),
            Err(CensusFault::Memory) => Err(ContentFault::Memory),
        }
    }

    /// Reads the whole file at a path into `bytes`, as a rule file, through `buffer`. A file of over `MAX_RULE_BYTES` bytes is an error.
    pub(crate) fn read_rules(
        &self,
        path: &[u8],
        buffer: &mut [u8],
        bytes: &mut Vec<u8>,
    ) -> Result<(), ContentFault>
        requires some { 0 < length buffer.old }
        ensures { IsAnswer (MayReadRules (T.gives self.now.tree.now path.now)) (λ _. bytes.new.items) result }
    {
        let mut file = match self.tree.open_file(self.alloc, path) {
            Ok(file) => file,
            Err(ReadFault::Memory) => return Err(ContentFault::Memory),
            Err(_) => return Err(ContentFault::Fault(FaultWord::Read)),
        };
        match read_whole(buffer, bytes, &mut file, MAX_RULE_BYTES) {
            Ok(()) => Ok(()),
            Err(WholeFault::Read) => Err(ContentFault::Fault(FaultWord::Read)),
            Err(WholeFault::TooLong) => Err(ContentFault::Fault(FaultWord::Long)),
            Err(WholeFault::Memory) => Err(ContentFault::Memory),
        }
    }
}
