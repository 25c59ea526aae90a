//! Adding a directory's rule files to its chains of ignore files and of attribute files.
ghost use Rattle.std.specs.Prelude.{◌≡◌, ◌<◌, ◌^◌, IfOk};
ghost use Rattle.std.specs.Arc.{arc_value};
ghost use Rattle.lc_level.specs.RuleFiles.{with_file_at, first_of};
ghost use Rattle.lc_level.specs.RuleReads.{shared};

use lc_rules::{AttrChain, AttrFile, Chain, IgnoreFile};
use std::alloc::{AllocError, Global};
use std::sync::Arc;

/// Returns `chain` with two ignore files added: the one in `.git/info`, and the directory's own. If there is neither, the result shares
/// `chain`.
pub(crate) fn ignore_below(
    alloc: Global,
    chain: &Arc<Chain, Global>,
    info: Option<Arc<IgnoreFile, Global>>,
    depth: u32,
    own: Option<Arc<IgnoreFile, Global>>,
) -> Result<Arc<Chain, Global>, AllocError>
    ensures exclude { IfOk result (λ c. (arc_value c).exclude ≡ (arc_value chain.now).exclude) }
    ensures info { IfOk result (λ c. (arc_value c).info ≡ first_of (shared info) (arc_value chain.now).info) }
    ensures tree { IfOk result (λ c. (arc_value c).tree ≡ with_file_at (arc_value chain.now).tree depth (shared own)) }
    ensures command_line { IfOk result (λ c. (arc_value c).command_line ≡ (arc_value chain.now).command_line) }
    ensures no_ignore { IfOk result (λ c. (arc_value c).no_ignore ≡ (arc_value chain.now).no_ignore) }
{
    if info.is_none() && own.is_none() {
        return Ok(Arc::try_clone(chain)?);
    }
    let below = chain.below(alloc, depth, own)?;
    Ok(Arc::new(alloc, below.with_info(info))?)
}

/// Returns `chain` with two attribute files added: the one in `.git/info`, which overrides all others, and the directory's own. If there is
/// neither, the result shares `chain`.
pub(crate) fn attributes_below(
    alloc: Global,
    chain: &Arc<AttrChain, Global>,
    info: Option<Arc<AttrFile, Global>>,
    depth: u32,
    own: Option<Arc<AttrFile, Global>>,
) -> Result<Arc<AttrChain, Global>, AllocError>
    ensures lowest { IfOk result (λ c. (arc_value c).lowest ≡ (arc_value chain.now).lowest) }
    ensures tree { IfOk result (λ c. (arc_value c).tree ≡ with_file_at (arc_value chain.now).tree depth (shared own)) }
    ensures info { IfOk result (λ c. (arc_value c).info ≡ first_of (shared info) (arc_value chain.now).info) }
{
    if info.is_none() && own.is_none() {
        return Ok(Arc::try_clone(chain)?);
    }
    let with_info = chain.with_info(alloc, info)?;
    let with_own = with_info.below(alloc, depth, own)?;
    Ok(Arc::new(alloc, with_own)?)
}
