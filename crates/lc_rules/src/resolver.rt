//! Deciding one attribute of a path, from the assignments of the highest precedence down.

ghost use Rattle.std.specs.Prelude.{◌≡◌, ◌≤◌, ◌∷◌, [], ◌++◌, false, reverse, IfOk, IfNone};
ghost use Rattle.lc_rules.specs.Decision.{DecidesByEquations};
ghost use Rattle.lc_rules.specs.Resolving.{is_marked, ReadsAssignments, IsReady, Decides, still_to_read, names_in, stacked};
ghost use Rattle.lc_rules.specs.Models.{state_model, assignment_model};
ghost use Rattle.lc_rules.specs.KnownMacros.{macro_body_model, expanded};
ghost use Rattle.lc_rules.specs.AttrStates.{by_lines};
ghost use Rattle.lc_rules.specs.WrittenLines.{assigned};

use crate::assignment::Assignment;
use crate::known_macros::{KnownMacros, MacroBody};
use crate::last_word::split_last_assignment;
use crate::line_table::LineTable;
use crate::states::State;
use lc_glob::Candidate;
use std::alloc::{AllocError, Global};
use std::collections::BTreeSet;

/// The name of the attribute whose state is looked for, and the macros whose assignments may decide it.
#[derive(Clone, Copy)]
pub(crate) struct Query<'q, 'a> {
    pub(crate) name: &'q [u8],
    pub(crate) macros: KnownMacros<'a>,
}

/// The progress of a search for the state of one attribute. It has the macros that are decided, in whatever state, and a stack of the
/// macros' assignments that are still to be read. A name of no macro decides no other name, so it is not stored. Nothing is allocated
/// before the first macro.
#[derive(Drop)]
pub(crate) struct Resolver<'a> {
    alloc: Global,
    pub(crate) decided: BTreeSet<&'a [u8]>,
    pub(crate) pending: Vec<Assignment<'a>>,
}

impl<'a> Resolver<'a> {
    pub(crate) fn new(alloc: Global) -> Resolver<'a>
        ensures decided { names_in result.decided ≡ [] }
        ensures pending { result.pending.items ≡ [] }
    {
        Resolver {
            alloc,
            decided: BTreeSet::new(alloc),
            pending: Vec::new(alloc),
        }
    }
}

/// Pushes a macro's assignments on the stack, if the macro's state is `Set`.
fn expand<'a>(
    body: MacroBody<'a>,
    state: State<'a>,
    pending: &mut Vec<Assignment<'a>>,
) -> Result<(), AllocError>
    ensures { IfOk result
        (λ _. stacked pending.new.items ≡ expanded (macro_body_model body.entry) (state_model state.entry) ++ stacked pending.old.items) }
{
    match state {
        State::Set => body.stack(pending),
        _ => Ok(()),
    }
}

/// Reads one assignment. If it assigns the attribute of the query, returns its state. If it sets a macro that is not yet decided, pushes
/// the macro's assignments on the stack.
fn decide_at<'a>(
    query: Query<'_, 'a>,
    word: Assignment<'a>,
    resolver: &mut Resolver<'a>,
) -> Result<Option<State<'a>>, AllocError>
    requires { is_marked (names_in resolver.old.decided) query.name.now ≡ false }
    ensures moves { IfOk result
        (λ r. ReadsAssignments query.entry (assignment_model word.entry ∷ stacked resolver.old.pending.items) resolver.old r
        (stacked resolver.new.pending.items) resolver.new) }
    ensures smaller { IfOk result (λ r. IfNone r (still_to_read query.entry resolver.new ≤ still_to_read query.entry resolver.old)) }
{
    if word.name == query.name {
        return Ok(Some(word.state));
    }
    let Some(body) = query.macros.find(word.name) else {
        return Ok(None);
    };
    if resolver.decided.contains(word.name) {
        return Ok(None);
    }
    resolver.decided.insert(word.name)?;
    expand(body, word.state, &mut resolver.pending)?;
    Ok(None)
}

/// Reads the assignments on the stack until one decides the attribute of the query.
fn decide_pending<'a>(
    query: Query<'_, 'a>,
    resolver: &mut Resolver<'a>,
) -> Result<Option<State<'a>>, AllocError>
    requires { is_marked (names_in resolver.old.decided) query.name.now ≡ false }
    ensures { IfOk result (λ r. Decides query.entry (stacked resolver.old.pending.items) resolver.old r resolver.new) }
{
    'words: while let Some(word) = resolver.pending.pop() {
        if let Some(state) = decide_at(query, word, resolver)? {
            return Ok(Some(state));
        }
    }
    Ok(None)
}

/// Reads one assignment of a line and, if it sets a macro, the assignments of that macro.
fn decide_by_word<'a>(
    query: Query<'_, 'a>,
    word: Assignment<'a>,
    resolver: &mut Resolver<'a>,
) -> Result<Option<State<'a>>, AllocError>
    requires { IsReady query resolver.old }
    ensures { IfOk result (λ r. Decides query.entry (assignment_model word.entry ∷ []) resolver.old r resolver.new) }
{
    if let Some(state) = decide_at(query, word, resolver)? {
        return Ok(Some(state));
    }
    let found = decide_pending(query, resolver)?;
    Ok(found)
}

/// Reads the assignments in these bytes from right to left, until one decides the attribute of the query.
fn decide_by_words<'a>(
    query: Query<'_, 'a>,
    words: &'a [u8],
    resolver: &mut Resolver<'a>,
) -> Result<Option<State<'a>>, AllocError>
    requires { IsReady query resolver.old }
    ensures { IfOk result (λ r. Decides query.entry (reverse (assigned words.now)) resolver.old r resolver.new) }
{
    let mut rest = words;
    'words: while let Some((assignment, before)) = split_last_assignment(rest) {
        if let Some(state) = decide_by_word(query, assignment, resolver)? {
            return Ok(Some(state));
        }
        rest = before;
    }
    Ok(None)
}

/// Looks for the state of the query's attribute in the lines of a file that match a path, from the last line to the first.
pub(crate) fn decide_by_lines<'a>(
    query: Query<'_, 'a>,
    table: &'a LineTable,
    path: &[u8],
    is_dir: bool,
    resolver: &mut Resolver<'a>,
) -> Result<Option<State<'a>>, AllocError>
    requires { IsReady query resolver.old }
    ensures { IfOk result (λ r. Decides query.entry (by_lines table.now.lines path.now is_dir) resolver.old r resolver.new) }
{
    let patterns = table.patterns();
    let mut below = patterns.len();
    let candidate = Candidate::for_patterns(path, below);
    'lines: while let Some(index) = patterns.last_match(&candidate, is_dir, below) {
        let words = table.assignments_at(resolver.alloc, index)?;
        if let Some(state) = decide_by_words(query, words, resolver)? {
            return Ok(Some(state));
        }
        below = index;
    }
    Ok(None)
}

/// The law that three equations determine the definition `decide`, which reads a list of assignments and gives their names states. The
/// contract of `AttrChain::state` derives the state of an attribute from `decide`. The equations say:
///
/// - If the list is empty, no further name gets a state.
/// - If the name of the list's first assignment already has a state, this assignment is skipped.
/// - Otherwise the name gets the state of this assignment. If this assignment sets a macro, the macro's assignments are read next.
pub fn decides_by_equations()
    ensures { DecidesByEquations }
{}
