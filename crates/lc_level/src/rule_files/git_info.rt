//! Reading the rule files `exclude` and `attributes` of `.git/info`. See gitignore(5), DESCRIPTION, and gitattributes(5), DESCRIPTION.
ghost use Rattle.std.specs.Prelude.{◌≡◌, codes};
ghost use Rattle.lc_level.specs.EntryLooks.{has_dir};
ghost use Rattle.lc_level.specs.GitInfo.{ReadsGit};

use crate::FaultSite;
use crate::entry_looks::has_dir;
use crate::level_reader::LevelReader;
use crate::open_fault::OpenFault;
use crate::rule_files::rule_pair::{PairNames, PairRead, RuleName};
use crate::scratch::Scratch;
use lc_tree::{Listing, Tree};

impl<T: Tree> LevelReader<'_, T> {
    /// Reads the files `exclude` and `attributes` in `.git/info` of the top, whose listing is `listing`. An entry of another kind counts as
    /// absent. `exclude` is not read if `no_ignore` is set. The directory of `scratch.path` may be another one afterwards.
    pub(crate) fn read_git_info(
        &self,
        no_ignore: bool,
        listing: &Listing,
        scratch: &mut Scratch,
    ) -> Result<PairRead, OpenFault>
        ensures { ReadsGit (T.lists self.now.tree.now) (T.gives self.now.tree.now) no_ignore self.now.options.texts
            (has_dir (codes ".git") listing.now) result }
    {
        if !has_dir(listing, b".git") {
            return Ok(PairRead::none());
        }
        let git = self.list_for(b".git", FaultSite::Git)?;
        if !has_dir(&git, b"info") {
            return Ok(PairRead::none());
        }
        let info = self.list_for(b".git/info", FaultSite::GitInfo)?;
        let Ok(()) = scratch.path.enter(b".git/info") else {
            return Err(OpenFault::Memory);
        };
        let names = PairNames {
            rules: RuleName {
                name: b"exclude",
                site: FaultSite::InfoExclude,
            },
            attributes: RuleName {
                name: b"attributes",
                site: FaultSite::InfoAttributes,
            },
            top: true,
            no_ignore,
        };
        self.read_pair(&info, names, scratch)
    }
}
