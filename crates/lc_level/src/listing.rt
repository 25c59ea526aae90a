//! Listing the directories that a walk visits, and also `.git` and `.git/info`, because `.git/info` may have rule files. An error of a
//! listing becomes an `OpenFault`.
ghost use Rattle.lc_level.specs.GitInfo.{ListsFor};
ghost use Rattle.lc_tree.specs.Trees.{Lists};

use crate::level_reader::LevelReader;
use crate::open_fault::OpenFault;
use crate::{FaultSite, FaultWord};
use lc_tree::{Listing, ReadFault, Tree};

impl<T: Tree> LevelReader<'_, T> {
    /// Returns the listing that was made of the directory at `path`. An error of the listing becomes an error that is reported at `site`.
    pub(crate) fn listed_for(
        &self,
        path: &[u8],
        listing: Result<Listing, ReadFault>,
        site: FaultSite,
    ) -> Result<Listing, OpenFault>
        requires { Lists (T.lists self.now.tree.now path.now) listing }
        ensures { ListsFor (T.lists self.now.tree.now path.now) site result }
    {
        match listing {
            Ok(listing) => Ok(listing),
            Err(fault) => match FaultWord::of(fault) {
                Some(word) => Err(OpenFault::Faulted(site, word)),
                None => Err(OpenFault::Memory),
            },
        }
    }

    /// Lists the directory at a path. An error is reported at `site`.
    pub(crate) fn list_for(&self, path: &[u8], site: FaultSite) -> Result<Listing, OpenFault>
        ensures { ListsFor (T.lists self.now.tree.now path.now) site result }
    {
        let listing = self.tree.list(self.alloc, path);
        self.listed_for(path, listing, site)
    }
}
