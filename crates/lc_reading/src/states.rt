//! Reading the states of attributes that a listed file has.

ghost use Rattle.std.specs.Prelude.{◌≡◌, ◌≢◌, IfErr, IfOk, map, string_bytes};
ghost use Rattle.json.specs.Value.{value_view};
ghost use Rattle.lc_level.specs.FileAttributes.{owned_state};
ghost use Rattle.lc_reading.specs.Members.{members_of};
ghost use Rattle.lc_reading.specs.StateFaults.{IsRefusedAs, LacksSomeState, LacksState};
ghost use Rattle.lc_reading.specs.States.{HasState, HasStates, bytes_name, state_json};
ghost use Rattle.lc_rules.specs.Attributes.{StateModel};

use crate::members::only;
use crate::read_fault::{NoReport, ReadFault};
use crate::values::bytes_of_array;
use json::Value;
use lc_level::AttributeState;
use lc_sheet::AttributeColumn;
use std::alloc::{AllocError, Global};

/// Returns the name of the member that has a value as a list of numbers, if the member `name` would not have it.
fn bytes_name(alloc: Global, name: &str) -> Result<String, AllocError>
    ensures { IfOk result (λ list. string_bytes list ≡ bytes_name name.now) }
{
    let mut list = String::from_str(alloc, name)?;
    list.push_str("_bytes")?;
    Ok(list)
}

/// Reads the state that a value is. For a value that is no state, returns the error `bad`.
fn state_of(alloc: Global, value: &Value<'_>, bad: NoReport) -> Result<AttributeState, ReadFault>
    ensures state { IfOk result (λ state. value_view value.now ≡ state_json (owned_state state)) }
    ensures refused { IfErr result (IsRefusedAs bad ((state : StateModel) → value_view value.now ≢ state_json state)) }
{
    match value {
        Value::Null => Ok(AttributeState::Unspecified),
        Value::Bool(true) => Ok(AttributeState::Set),
        Value::Bool(false) => Ok(AttributeState::Unset),
        Value::String(text) => Ok(AttributeState::Value(text.as_bytes().to_vec(alloc)?)),
        Value::Number(_) | Value::Array(_) | Value::Object(_) => Err(ReadFault::NoReport(bad)),
    }
}

/// Reads the state of one attribute. `place` is the place of the attribute among those that were asked for.
fn state_in<'a>(
    alloc: Global,
    members: &[(&'a str, Value<'a>)],
    attribute: &AttributeColumn,
    place: u8,
) -> Result<AttributeState, ReadFault>
    ensures state { IfOk result (λ state. HasState (members_of members.now) attribute.now (owned_state state)) }
    ensures refused { IfErr result (LacksState (members_of members.now) place attribute.now) }
{
    let (bad, twice) = (
        NoReport::BadAttribute(place),
        NoReport::AttributeTwice(place),
    );
    let list_name = bytes_name(alloc, attribute.name())?;
    let value = only(members, attribute.name(), twice)?;
    let list = only(members, &list_name, twice)?;
    match (value, list) {
        (Some(value), None) => state_of(alloc, value, bad),
        (None, Some(list)) => Ok(AttributeState::Value(bytes_of_array(alloc, list, bad)?)),
        (Some(_), Some(_)) => Err(ReadFault::NoReport(twice)),
        (None, None) => Err(ReadFault::NoAttribute(place)),
    }
}

/// Reads the states of attributes, in the order of their columns, from the members of a file's JSON object.
pub(crate) fn states_in<'a>(
    alloc: Global,
    members: &[(&'a str, Value<'a>)],
    attributes: &[AttributeColumn],
) -> Result<Vec<AttributeState>, ReadFault>
    ensures states { IfOk result (λ states. HasStates (members_of members.now) attributes.now (map owned_state states.items)) }
    ensures refused { IfErr result (LacksSomeState (members_of members.now) 0 attributes.now) }
{
    let mut states = Vec::new(alloc);
    let mut place: u8 = 0;
    let mut rest = attributes;
    'attributes: while let Some((attribute, others)) = rest.split_first() {
        states.push(state_in(alloc, members, attribute, place)?)?;
        place = place.saturating_add(1);
        rest = others;
    }
    Ok(states)
}
