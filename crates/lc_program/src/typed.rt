//! The arguments that the program reads: a directory as the first argument begins a count.

ghost use Rattle.std.specs.Prelude.{IfOk, map};
ghost use Rattle.lc_program.specs.Typed.{AreReadAs, Begins};

use crate::system::System;
use crate::unread_reason::UnreadReason;
use lc_arguments::may_be_directory;
use std::alloc::{AllocError, Global};
use std::convert::AsStr;

/// Returns whether the first argument is a directory that begins a count, even if it may not be listed. A word that can be none costs no
/// call of the system.
fn begins_with_directory<Y: System, W: AsStr>(
    alloc: Global,
    system: &Y,
    typed: &[W],
) -> Result<bool, AllocError>
    ensures { IfOk result (Begins (Y.unlists system.now) (map W.text typed.now)) }
{
    let Some((first, _)) = typed.split_first() else {
        return Ok(false);
    };
    if !may_be_directory(typed) {
        return Ok(false);
    }
    let why = system.why_unlisted(alloc, first.as_str())?;
    Ok(matches!(why, None | Some(UnreadReason::Denied)))
}

/// Returns the arguments as they were typed, or after the word `count` if the first argument is a directory that begins a count.
pub(crate) fn read_as<'w, Y: System, W: AsStr>(
    alloc: Global,
    system: &Y,
    typed: &'w [W],
) -> Result<Vec<&'w str>, AllocError>
    ensures { IfOk result (λ words. AreReadAs (Y.unlists system.now) (map W.text typed.entry.now) (map (λ word. word.now) words.items)) }
{
    let mut words = Vec::with_capacity(alloc, typed.len().saturating_add(1))?;
    for word in typed {
        words.push(word.as_str())?;
    }
    if begins_with_directory(alloc, system, typed)? {
        words.insert(0, "count")?;
    }
    Ok(words)
}
