//! Chains of attribute files: the files that apply in a directory, in the order of precedence.

ghost use Rattle.std.specs.Prelude.{◌≡◌, false, IfOk, codes};
ghost use Rattle.lc_rules.specs.Models.{state_model};
ghost use Rattle.lc_rules.specs.AttrStates.{macros_of, top_macros, file_macros, by_lines, tree_assignments, file_assignments};
ghost use Rattle.lc_rules.specs.AttrStates.{assignments_of, state_of, as_text};
ghost use Rattle.lc_rules.specs.AttrChains.{from_lowest, with_tree_file, with_info_file};
ghost use Rattle.lc_rules.specs.Chains.{lent};
ghost use Rattle.lc_rules.specs.Resolving.{IsReady, Decides};
ghost use Rattle.lc_rules.specs.KnownMacros.{known_macros, defined_in};

use crate::attr_file::AttrFile;
use crate::chain_files::{ChainFiles, FilesLeft, share};
use crate::known_macros::KnownMacros;
use crate::macro_table::MacroTable;
use crate::paths::PathBelow;
use crate::resolver::{Query, Resolver, decide_by_lines};
use crate::states::{State, TextState};
use std::alloc::{AllocError, Global};
use std::marker::Model;
use std::sync::Arc;

/// Looks for the state of an attribute in the lines of a file. If no line can decide the attribute, the lines are not matched.
fn decide_by_file<'a>(
    query: Query<'_, 'a>,
    file: &'a AttrFile,
    path: &[u8],
    is_dir: bool,
    resolver: &mut Resolver<'a>,
) -> Result<Option<State<'a>>, AllocError>
    requires { IsReady query resolver.old }
    ensures { IfOk result (λ r. Decides query.entry (by_lines file.now.lines path.now is_dir) resolver.old r resolver.new) }
{
    let lines = file.lines();
    if !lines.can_decide(query) {
        return Ok(None);
    }
    decide_by_lines(query, lines, path, is_dir, resolver)
}

/// Looks for the state of an attribute in the lines of the tree's files, from the file nearest to the path up.
fn decide_by_files<'a>(
    query: Query<'_, 'a>,
    files: FilesLeft<'a, AttrFile>,
    path: PathBelow,
    is_dir: bool,
    resolver: &mut Resolver<'a>,
) -> Result<Option<State<'a>>, AllocError>
    requires { IsReady query resolver.old }
    ensures { IfOk result (λ r. Decides query.entry (tree_assignments files.entry path.entry.path.now is_dir) resolver.old r resolver.new) }
{
    let Some((depth, file, nearer)) = files.split_first() else {
        return Ok(None);
    };
    let inner = path.at(depth);
    if let Some(state) = decide_by_files(query, nearer, inner, is_dir, resolver)? {
        return Ok(Some(state));
    }
    let found = decide_by_file(query, file, inner.rest, is_dir, resolver)?;
    Ok(found)
}

/// Looks for the state of an attribute in the lines of a file for the whole tree, if there is such a file.
fn decide_by_optional_file<'a>(
    query: Query<'_, 'a>,
    file: &'a Option<Arc<AttrFile, Global>>,
    path: &[u8],
    is_dir: bool,
    resolver: &mut Resolver<'a>,
) -> Result<Option<State<'a>>, AllocError>
    requires { IsReady query resolver.old }
    ensures { IfOk result (λ r. Decides query.entry (file_assignments (lent file.now) path.now is_dir) resolver.old r resolver.new) }
{
    let Some(file) = file else {
        return Ok(None);
    };
    decide_by_file(query, file, path, is_dir, resolver)
}

/// The attribute files for a directory's entries, from the lowest precedence to the highest: a file for the whole tree, like the one of
/// Git's `core.attributesFile` (gitattributes(5), FILES); the files of the tree from the top down, each with the depth of its directory;
/// then the file of `.git/info`.
///
/// The chain knows the built-in macro `binary`, the macros of its lowest file, those of the tree's first file if `AttrFile::is_top` holds
/// for this file, and those of `.git/info`. If macros have the same name, the macro that is later in this order overrides the others.
#[derive(Drop)]
pub struct AttrChain {
    lowest: Option<Arc<AttrFile, Global>>,
    files: ChainFiles<AttrFile>,
    info: Option<Arc<AttrFile, Global>>,
}

impl Model for AttrChain {
    ghost use Rattle.lc_rules.specs.AttrStates.{AttrChainModel};
    ghost use Rattle.lc_rules.specs.Chains.{lent};

    ghost Value = { AttrChainModel };

    ghost view = { λ c. record { lowest = lent c.lowest; tree = c.files; info = lent c.info } };
}

impl AttrChain {
    /// Returns the chain that has at most a lowest file, which every other file overrides. The file defines macros only if
    /// `AttrFile::read` read it with `top` true.
    pub fn top_with(lowest: Option<Arc<AttrFile, Global>>) -> AttrChain
        ensures { result ≡ from_lowest lowest }
    {
        AttrChain {
            lowest,
            files: ChainFiles::new(),
            info: None,
        }
    }

    /// Returns the chain with one more attribute file of the tree, or a copy if `file` is `None`. `depth` is the number of segments in the
    /// path of the file's directory.
    pub fn below(
        &self,
        alloc: Global,
        depth: u32,
        file: Option<Arc<AttrFile, Global>>,
    ) -> Result<AttrChain, AllocError>
        ensures { IfOk result (λ chain. chain ≡ with_tree_file self.now depth file) }
    {
        let files = self.files.with(alloc, depth, file)?;
        let info = share(&self.info)?;
        let lowest = share(&self.lowest)?;
        Ok(AttrChain {
            lowest,
            files,
            info,
        })
    }

    /// Returns the chain with the file `.git/info/attributes`, or a copy if `file` is `None`. This file overrides every other file of the
    /// chain, also files that are added later, and replaces an earlier file of `.git/info`. The file defines macros only if
    /// `AttrFile::read` read it with `top` true.
    pub fn with_info(
        &self,
        alloc: Global,
        file: Option<Arc<AttrFile, Global>>,
    ) -> Result<AttrChain, AllocError>
        ensures { IfOk result (λ chain. chain ≡ with_info_file self.now file) }
    {
        let files = self.files.with(alloc, 0, None)?;
        let lowest = share(&self.lowest)?;
        let info = match file {
            None => share(&self.info)?,
            Some(file) => Some(file),
        };
        Ok(AttrChain {
            lowest,
            files,
            info,
        })
    }

    /// Returns the state of an attribute for a path. If no assignment decides the attribute, its state is unspecified.
    pub fn state(
        &self,
        alloc: Global,
        path: &[u8],
        is_dir: bool,
        name: &[u8],
    ) -> Result<State<'_>, AllocError>
        ensures { IfOk result (λ state. state_model state ≡ state_of self.now path.now is_dir name.now) }
    {
        let query = Query {
            name,
            macros: self.macros(),
        };
        let mut resolver = Resolver::new(alloc);
        match self.decide(query, path, is_dir, &mut resolver)? {
            Some(state) => Ok(state),
            None => Ok(State::Unspecified),
        }
    }

    /// Returns the state of the attribute `text` for a file.
    pub fn text(&self, alloc: Global, path: &[u8]) -> Result<TextState, AllocError>
        ensures { IfOk result (λ text. text ≡ as_text (state_of self.now path.now false (codes "text"))) }
    {
        match self.state(alloc, path, false, b"text")? {
            State::Set => Ok(TextState::Set),
            State::Unset => Ok(TextState::Unset),
            State::Value(value) => Ok(if value == b"auto".as_slice() {
                TextState::Auto
            } else {
                TextState::Other
            }),
            State::Unspecified => Ok(TextState::Unspecified),
        }
    }

    /// Looks for the state of an attribute in the files of the chain, first in `.git/info/attributes`, last in the lowest file.
    fn decide<'a>(
        &'a self,
        query: Query<'_, 'a>,
        path: &[u8],
        is_dir: bool,
        resolver: &mut Resolver<'a>,
    ) -> Result<Option<State<'a>>, AllocError>
        requires { IsReady query resolver.old }
        ensures { IfOk result (λ r. Decides query.entry (assignments_of self.now path.now is_dir) resolver.old r resolver.new) }
    {
        if let Some(state) = decide_by_optional_file(query, &self.info, path, is_dir, resolver)? {
            return Ok(Some(state));
        }
        let whole = PathBelow::new(path);
        if let Some(state) = decide_by_files(query, self.files.left(), whole, is_dir, resolver)? {
            return Ok(Some(state));
        }
        decide_by_optional_file(query, &self.lowest, path, is_dir, resolver)
    }

    fn macros(&self) -> KnownMacros
        ensures { known_macros result ≡ macros_of self.now }
    {
        KnownMacros {
            lowest: file_macros(&self.lowest),
            top: top_macros(self.files.left()),
            info: file_macros(&self.info),
        }
    }
}

/// Returns the macros of the first of these files, if `AttrFile::is_top` holds for that file.
fn top_macros<'a>(files: FilesLeft<'a, AttrFile>) -> Option<&'a MacroTable>
    ensures { defined_in result ≡ top_macros files.entry }
{
    let (_, file, _) = files.split_first()?;
    if file.is_top() {
        Some(file.macros())
    } else {
        None
    }
}

fn file_macros<'a>(file: &'a Option<Arc<AttrFile, Global>>) -> Option<&'a MacroTable>
    ensures { defined_in result ≡ file_macros (lent file.now) }
{
    match file {
        None => None,
        Some(file) => Some(file.macros()),
    }
}
