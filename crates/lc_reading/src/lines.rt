//! Reading values, such as paths, that occur in the lines of several lists.

ghost use Rattle.std.specs.Prelude.{◌≡◌, ◌==◌, ◌-◌, true, length, slice_get, IfOk, OnErr};
ghost use Rattle.std.specs.List.{list_any};
ghost use Rattle.json.specs.Json.{object};
ghost use Rattle.json.specs.Value.{value_view};
ghost use Rattle.lc_census.specs.EolWords.{eol_word};
ghost use Rattle.lc_census.specs.declared.line_count.Eol.{Eol as EolModel};
ghost use Rattle.lc_rules.specs.declared.states.TextState.{TextState as StateModel};
ghost use Rattle.lc_reading.specs.Lines.{HasTextState, ends_entry, is_entry_path};
ghost use Rattle.lc_reading.specs.Members.{HasBytes, HasText, members_of, members_with};
ghost use Rattle.lc_reading.specs.declared.member_name.MemberName.TheVariants as name;

use crate::member_name::MemberName;
use crate::members::needed;
use crate::read_fault::{NoReport, ReadFault};
use crate::values::{bytes_in, text_in};
use crate::words::{eol_of, text_state_of};
use json::Value;
use lc_census::Eol;
use lc_rules::TextState;
use std::alloc::Global;

/// Returns the members of `value`, which must be an object. `name` is the name of the member that has this value.
#[tactic(auto, using(crate::proofs::LentObjects::object_of_members))]
pub(crate) fn members_in<'v, 'a>(
    value: &'v Value<'a>,
    name: MemberName,
) -> Result<&'v [(&'a str, Value<'a>)], NoReport>
    ensures { IfOk result (λ members. value_view value.now ≡ object (members_with (members_of members.now))) }
{
    match value {
        Value::Object(members) => Ok(members),
        _ => Err(NoReport::Bad(name)),
    }
}

/// Reads the state of the attribute `text` from the member `text`.
#[tactic(auto, using(crate::proofs::JsonKinds::text_if, crate::proofs::JsonKinds::null_if))]
pub(crate) fn text_state_in<'a>(members: &[(&'a str, Value<'a>)]) -> Result<TextState, NoReport>
    ensures state { IfOk result (HasTextState (members_of members.now)) }
    ensures refused { OnErr result ((state : StateModel) → HasTextState (members_of members.now) state → ⊥) }
{
    let value = needed(members, MemberName::Text)?;
    if value.is_null() {
        return Ok(TextState::Unspecified);
    }
    let Some(word) = value.as_str() else {
        return Err(NoReport::Bad(MemberName::Text));
    };
    match text_state_of(word) {
        Some(state) => Ok(state),
        None => Err(NoReport::Bad(MemberName::Text)),
    }
}

/// Reads how the lines of a file end, from the member `eol`.
pub(crate) fn eol_in<'a>(members: &[(&'a str, Value<'a>)]) -> Result<Eol, NoReport>
    ensures word { IfOk result (λ eol. HasText name.Eol (members_of members.now) (eol_word eol)) }
    ensures refused { OnErr result ((eol : EolModel) → HasText name.Eol (members_of members.now) (eol_word eol) → ⊥) }
{
    let word = text_in(members, MemberName::Eol)?;
    match eol_of(word) {
        Some(eol) => Ok(eol),
        None => Err(NoReport::Bad(MemberName::Eol)),
    }
}

fn ends_entry(path: &[u8]) -> bool
    ensures { result ≡ ends_entry (slice_get path.now (length path.now - 1)) }
{
    match path.last() {
        Some(last) => *last != b'/',
        None => false,
    }
}

fn has_nul(path: &[u8]) -> bool
    ensures { result ≡ list_any (λ b. b == 0) path.now }
{
    path.iter().any(|byte| *byte == 0)
}

/// Returns whether a path can be that of an entry of a directory.
fn is_entry_path(path: &[u8]) -> bool
    ensures { result ≡ is_entry_path path.now }
{
    ends_entry(path) && !has_nul(path)
}

/// Reads the path of an entry.
pub(crate) fn entry_path_in<'a>(
    alloc: Global,
    members: &[(&'a str, Value<'a>)],
) -> Result<Vec<u8>, ReadFault>
    ensures bytes { IfOk result (λ path. HasBytes name.Path name.PathBytes (members_of members.now) path.items) }
    ensures entry { IfOk result (λ path. is_entry_path path.items ≡ true) }
{
    let path = bytes_in(alloc, members, MemberName::Path, MemberName::PathBytes)?;
    if is_entry_path(&path) {
        Ok(path)
    } else {
        Err(ReadFault::NoReport(NoReport::Bad(MemberName::Path)))
    }
}
