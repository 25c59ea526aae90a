//! Finding a member of a report by its name.

ghost use Rattle.std.specs.Prelude.{◌≡◌, ◌≢◌, true, find, bytes_eq, MatchOption};
ghost use Rattle.lc_reading.specs.MemberNames.{member_name};
ghost use Rattle.lc_reading.specs.Objects.{IsTopMember, is_value};
ghost use Rattle.lc_reading.specs.declared.member_name.MemberName.{MemberName as Name};

use crate::member_name::MemberName;

/// Which member of a report has a name.
#[derive(Clone, Copy, Debug, Drop)]
pub(crate) enum TopMember {
    Rows,
    Files,
    Left,
    Faults,
    /// The member is not a list.
    Value(MemberName),
    /// No report has a member with this name, so the member is skipped.
    Other,
}

fn first_name(all: &[MemberName], key: &str) -> Option<MemberName>
    ensures { result ≡ find (λ n. bytes_eq (member_name n) key.now) all.now }
{
    all.iter().copied().find(|name| name.as_str() == key)
}

fn value_name(key: &str) -> Option<MemberName>
    ensures { MatchOption result ((n : Name) → is_value n ≡ true → key.now ≢ member_name n)
        (λ n. (is_value n ≡ true) × (key.now ≡ member_name n)) }
{
    let all = [
        MemberName::Others,
        MemberName::Total,
        MemberName::Text,
        MemberName::Binary,
        MemberName::Directories,
        MemberName::Entries,
    ];
    first_name(&all, key)
}

/// Finds the member of a report with this name.
pub(crate) fn top_member(key: &str) -> TopMember
    ensures { IsTopMember key.now result }
{
    if key == MemberName::Rows.as_str() {
        return TopMember::Rows;
    }
    if key == MemberName::Files.as_str() {
        return TopMember::Files;
    }
    if key == MemberName::Left.as_str() {
        return TopMember::Left;
    }
    if key == MemberName::Faults.as_str() {
        return TopMember::Faults;
    }
    match value_name(key) {
        Some(name) => TopMember::Value(name),
        None => TopMember::Other,
    }
}
