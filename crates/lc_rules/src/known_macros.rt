//! The macros that a chain of attribute files knows.

ghost use Rattle.std.specs.Prelude.{◌≡◌, ◌++◌, map, MatchOption, Some, None, IfOk};
ghost use Rattle.lc_rules.specs.Models.{assignment_model, macro_model};
ghost use Rattle.lc_rules.specs.AttrStates.{binary};
ghost use Rattle.lc_rules.specs.Decision.{macro_of};
ghost use Rattle.lc_rules.specs.KnownMacros.{macro_body_model, defined_in, known_macros};
ghost use Rattle.lc_rules.specs.WrittenLines.{assigned};

use crate::assignment::Assignment;
use crate::attr_words::split_assignment;
use crate::macro_table::{Macro, MacroTable};
use crate::states::State;
use std::alloc::AllocError;

/// The assignments of a macro.
#[derive(Clone, Copy)]
pub(crate) enum MacroBody<'a> {
    /// The bytes that hold the assignments of a macro that a file defines.
    Defined(&'a [u8]),
    Binary,
}

/// The macros that a chain of attribute files knows: `binary`, then those of its lowest file, of its top file, and of the file of
/// `.git/info`.
#[derive(Clone, Copy)]
pub(crate) struct KnownMacros<'a> {
    pub(crate) lowest: Option<&'a MacroTable>,
    pub(crate) top: Option<&'a MacroTable>,
    pub(crate) info: Option<&'a MacroTable>,
}

impl<'a> KnownMacros<'a> {
    /// Returns the assignments of the macro with this name.
    pub(crate) fn find(self, name: &[u8]) -> Option<MacroBody<'a>>
        ensures { MatchOption result (macro_of (known_macros self.entry) name.now ≡ None)
            (λ body. macro_of (known_macros self.entry) name.now ≡ Some (macro_body_model body)) }
    {
        if let Some(assignments) = find_in(self.info, name) {
            return Some(MacroBody::Defined(assignments));
        }
        if let Some(assignments) = find_in(self.top, name) {
            return Some(MacroBody::Defined(assignments));
        }
        if let Some(assignments) = find_in(self.lowest, name) {
            return Some(MacroBody::Defined(assignments));
        }
        if name == b"binary".as_slice() {
            return Some(MacroBody::Binary);
        }
        None
    }
}

fn find_in<'a>(table: Option<&'a MacroTable>, name: &[u8]) -> Option<&'a [u8]>
    ensures { MatchOption result (macro_of (defined_in table.entry) name.now ≡ None)
        (λ body. macro_of (defined_in table.entry) name.now ≡ Some (assigned body.now)) }
{
    match table {
        None => None,
        Some(table) => table.find(name),
    }
}

/// Returns the macros of a table, or none if there is no table.
pub(crate) fn macros_in<'a>(table: Option<&'a MacroTable>) -> &'a [Macro]
    ensures { map macro_model result.now ≡ defined_in table.entry }
{
    match table {
        None => &[],
        Some(table) => table.as_slice(),
    }
}

impl<'a> MacroBody<'a> {
    /// Pushes the assignments on a stack, the last on top.
    pub(crate) fn stack(self, words: &mut Vec<Assignment<'a>>) -> Result<(), AllocError>
        ensures { IfOk result
            (λ _. map assignment_model words.new.items ≡ map assignment_model words.old.items ++ macro_body_model self.entry) }
    {
        match self {
            MacroBody::Defined(assignments) => stack_all(assignments, words),
            MacroBody::Binary => stack_binary(words),
        }
    }
}

fn stack_all<'a>(bytes: &'a [u8], words: &mut Vec<Assignment<'a>>) -> Result<(), AllocError>
    ensures { IfOk result
        (λ _. map assignment_model words.new.items ≡ map assignment_model words.old.items ++ assigned bytes.now) }
{
    let mut rest = bytes;
    'words: while let Some((assignment, others)) = split_assignment(rest) {
        words.push(assignment)?;
        rest = others;
    }
    Ok(())
}

fn stack_binary<'a>(words: &mut Vec<Assignment<'a>>) -> Result<(), AllocError>
    ensures { IfOk result (λ _. map assignment_model words.new.items ≡ map assignment_model words.old.items ++ binary.1) }
{
    words.extend_from_slice(&[
        Assignment {
            name: b"diff",
            state: State::Unset,
        },
        Assignment {
            name: b"merge",
            state: State::Unset,
        },
        Assignment {
            name: b"text",
            state: State::Unset,
        },
    ])
}
