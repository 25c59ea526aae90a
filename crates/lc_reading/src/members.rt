//! The members of a JSON object.

ghost use Rattle.std.specs.Prelude.{◌≡◌, ◌∷◌, [], ◌<◌, length, option_map, IfErr, IfOk, OnErr, MatchOption, MatchResult};
ghost use Rattle.json.specs.Json.{Json};
ghost use Rattle.json.specs.Value.{value_view};
ghost use Rattle.lc_reading.specs.MemberNames.{member_name};
ghost use Rattle.lc_reading.specs.Members.{Has, Lacks, members_of, named, values_at};

use crate::member_name::MemberName;
use crate::read_fault::NoReport;
use json::Value;

/// Finds the first member with a name, and the members after it.
fn first_member<'v, 'a>(
    members: &'v [(&'a str, Value<'a>)],
    name: &str,
) -> Option<(&'v Value<'a>, &'v [(&'a str, Value<'a>)])>
    ensures { MatchOption result (values_at name.now (members_of members.now) ≡ [])
        (λ found. values_at name.now (members_of members.now)
        ≡ value_view found.0.now ∷ values_at name.now (members_of found.1.now)) }
{
    let mut at = 0;
    'members: while at < members.len() {
        let member = &members[at];
        if member.0 == name {
            return Some((&member.1, &members[at + 1..]));
        }
        at += 1;
    }
    None
}

/// Finds the value of the only member with a name, if there is one. If there are several, returns the error `twice`.
pub(crate) fn only<'v, 'a>(
    members: &'v [(&'a str, Value<'a>)],
    name: &str,
    twice: NoReport,
) -> Result<Option<&'v Value<'a>>, NoReport>
    ensures found { IfOk result (λ found. MatchOption found (values_at name.now (members_of members.now) ≡ [])
        (λ value. values_at name.now (members_of members.now) ≡ value_view value.now ∷ [])) }
    ensures twice { OnErr result (1 < length (values_at name.now (members_of members.now))) }
    ensures error { IfErr result (λ why. why ≡ twice) }
{
    let Some((value, others)) = first_member(members, name) else {
        return Ok(None);
    };
    match first_member(others, name) {
        None => Ok(Some(value)),
        Some(_) => Err(twice),
    }
}

/// Finds the value of the only member with the name of a member of reports, if there is one.
pub(crate) fn optional<'v, 'a>(
    members: &'v [(&'a str, Value<'a>)],
    name: MemberName,
) -> Result<Option<&'v Value<'a>>, NoReport>
    ensures found { IfOk result (λ found. MatchOption found (Lacks name (members_of members.now))
        (λ value. Has name (members_of members.now) (value_view value.now))) }
    ensures twice { OnErr result (1 < length (named name (members_of members.now))) }
{
    only(members, name.as_str(), NoReport::Twice(name))
}

/// Finds the value of the only member with a name.
pub(crate) fn needed<'v, 'a>(
    members: &'v [(&'a str, Value<'a>)],
    name: MemberName,
) -> Result<&'v Value<'a>, NoReport>
    ensures found { IfOk result (λ value. Has name (members_of members.now) (value_view value.now)) }
    ensures refused { OnErr result ((j : Json) → Has name (members_of members.now) j → ⊥) }
{
    match optional(members, name)? {
        Some(value) => Ok(value),
        None => Err(NoReport::Missing(name)),
    }
}
