//! Reading the numbers, texts and bytes in the members of an object.

ghost use Rattle.std.specs.Prelude.{ℕ, List, OnErr, ◌≡◌, ◌≢◌, ◌<◌, ◌^◌, map, decimal, IfErr, IfOk, IfSome, MatchOption};
ghost use Rattle.json.specs.Json.{number as json_number};
ghost use Rattle.json.specs.Value.{value_view};
ghost use Rattle.lc_reading.specs.Members.{HasBytes, HasNumber, HasText, bytes_json, members_of, values_of};
ghost use Rattle.lc_reading.specs.StateFaults.{AreBytes, IsRefusedAs};

use crate::member_name::MemberName;
use crate::members::{needed, optional};
use crate::numbers::number;
use crate::read_fault::{NoReport, ReadFault};
use json::Value;
use std::alloc::{AllocError, Global};

/// Reads the number in the member `name`, which must be below 2^128.
#[tactic(auto, using(crate::proofs::JsonKinds::number_if))]
pub(crate) fn sum_in<'a>(
    members: &[(&'a str, Value<'a>)],
    name: MemberName,
) -> Result<u128, NoReport>
    ensures number { IfOk result (HasNumber name (members_of members.now)) }
    ensures fits { IfOk result (λ n. n < 2 ^ 128) }
    ensures refused { OnErr result ((n : ℕ) → n < 2 ^ 128 → HasNumber name (members_of members.now) n → ⊥) }
{
    let value = needed(members, name)?;
    let Some(text) = value.as_number() else {
        return Err(NoReport::Bad(name));
    };
    match number(text) {
        Some(number) => Ok(number),
        None => Err(NoReport::Bad(name)),
    }
}

/// Reads the number in the member `name`, which must be below 2^64.
pub(crate) fn count_in<'a>(
    members: &[(&'a str, Value<'a>)],
    name: MemberName,
) -> Result<u64, NoReport>
    ensures number { IfOk result (HasNumber name (members_of members.now)) }
    ensures refused { OnErr result ((n : ℕ) → n < 2 ^ 64 → HasNumber name (members_of members.now) n → ⊥) }
{
    let number = sum_in(members, name)?;
    match u64::try_from(number) {
        Ok(number) => Ok(number),
        Err(_) => Err(NoReport::Bad(name)),
    }
}

/// Returns the text in the member `name`.
#[tactic(auto, using(crate::proofs::JsonKinds::text_if))]
pub(crate) fn text_in<'a>(
    members: &[(&'a str, Value<'a>)],
    name: MemberName,
) -> Result<&'a str, NoReport>
    ensures text { IfOk result (λ text. HasText name (members_of members.now) text.now) }
    ensures refused { OnErr result ((s : List ℕ) → HasText name (members_of members.now) s → ⊥) }
{
    let value = needed(members, name)?;
    match value.as_str() {
        Some(text) => Ok(text),
        None => Err(NoReport::Bad(name)),
    }
}

#[tactic(auto, using(crate::proofs::JsonKinds::number_if))]
fn byte_of(value: &Value<'_>) -> Option<u8>
    ensures { MatchOption result ((b : ℕ) → b < 2 ^ 8 → value_view value.now ≢ json_number (decimal b))
        (λ byte. value_view value.now ≡ json_number (decimal byte)) }
{
    let text = value.as_number()?;
    let number = number(text)?;
    match u8::try_from(number) {
        Ok(byte) => Some(byte),
        Err(_) => None,
    }
}

/// Reads bytes from a list of numbers, if each number is a byte.
#[tactic(auto, using(crate::proofs::BytesRead::no_listed_bytes))]
fn listed_bytes(alloc: Global, values: &[Value<'_>]) -> Result<Option<Vec<u8>>, AllocError>
    ensures { IfOk result (λ found. MatchOption found
        ((bytes : List ℕ) → AreBytes bytes → values_of values.now ≢ map (λ b. json_number (decimal b)) bytes)
        (λ bytes. values_of values.now ≡ map (λ b. json_number (decimal b)) bytes.items)) }
{
    let mut bytes = Vec::with_capacity(alloc, values.len())?;
    let mut at = 0;
    'values: while at < values.len() {
        let Some(byte) = byte_of(&values[at]) else {
            return Ok(None);
        };
        bytes.push(byte)?;
        at += 1;
    }
    Ok(Some(bytes))
}

/// Reads bytes from a list of numbers. For any other value, returns the error `bad`.
#[tactic(auto, using(crate::proofs::BytesRead::no_bytes_in))]
pub(crate) fn bytes_of_array(
    alloc: Global,
    value: &Value<'_>,
    bad: NoReport,
) -> Result<Vec<u8>, ReadFault>
    ensures bytes { IfOk result (λ bytes. value_view value.now ≡ bytes_json bytes.items) }
    ensures refused { IfErr result (IsRefusedAs bad ((bytes : List ℕ) → AreBytes bytes → value_view value.now ≢ bytes_json bytes)) }
{
    let Value::Array(values) = value else {
        return Err(ReadFault::NoReport(bad));
    };
    match listed_bytes(alloc, values)? {
        Some(bytes) => Ok(bytes),
        None => Err(ReadFault::NoReport(bad)),
    }
}

/// Reads bytes from a text in the member `text`, or from a list of numbers in the member `list`. One of the two must be there.
pub(crate) fn bytes_in<'a>(
    alloc: Global,
    members: &[(&'a str, Value<'a>)],
    text: MemberName,
    list: MemberName,
) -> Result<Vec<u8>, ReadFault>
    ensures { IfOk result (λ bytes. HasBytes text list (members_of members.now) bytes.items) }
{
    if optional(members, text)?.is_none() {
        return match optional(members, list)? {
            Some(value) => bytes_of_array(alloc, value, NoReport::Bad(list)),
            None => Err(ReadFault::NoReport(NoReport::Missing(text))),
        };
    }
    let found = text_in(members, text)?;
    match optional(members, list)? {
        None => Ok(found.as_bytes().to_vec(alloc)?),
        Some(_) => Err(ReadFault::NoReport(NoReport::Twice(text))),
    }
}
