//! Reading the skipped entries of a report.

ghost use Rattle.std.specs.Prelude.{◌≡◌, codes, None, IfOk, IfSome};
ghost use Rattle.lc_level.specs.ReasonWords.{attribute_of, reason_word, rule_of};
ghost use Rattle.lc_level.specs.Reasons.{reason_model};
ghost use Rattle.lc_reading.specs.Lines.{HasReason, HasRule, IsReasonOf, IsSkippedOf};
ghost use Rattle.lc_rows.specs.Words.{kind_word};
ghost use Rattle.lc_reading.specs.Members.{members_of};

use crate::lines::entry_path_in;
use crate::member_name::MemberName;
use crate::read_fault::{NoReport, ReadFault};
use crate::rule_places::source_of;
use crate::values::{bytes_in, count_in, text_in};
use json::Value;
use lc_level::{Reason, SkippedLine};
use lc_tree::{Kind, OtherKind};
use std::alloc::Global;

/// Finds the kind of an entry by the word for the kind, and by the reason why the entry is skipped.
fn kind_of(word: &str, reason: &Reason) -> Option<Kind>
    ensures word { IfSome result (λ kind. word.now ≡ kind_word kind) }
    ensures reason { IfSome result (λ kind. HasReason kind (reason_model reason.now)) }
{
    match (reason, word) {
        (Reason::OtherKind(OtherKind::Special), "other") => Some(Kind::Other(OtherKind::Special)),
        (Reason::OtherKind(OtherKind::Mounted), "dir") => Some(Kind::Other(OtherKind::Mounted)),
        (Reason::NotIncluded, "file") => Some(Kind::File),
        (Reason::OtherKind(_) | Reason::NotIncluded, _) => None,
        (_, "file") => Some(Kind::File),
        (_, "dir") => Some(Kind::Dir),
        (_, "other") => Some(Kind::Other(OtherKind::Special)),
        _ => None,
    }
}

/// Reads the file and the line of the rule that decides a path, as the reason to skip the path.
fn rule_in<'a>(
    alloc: Global,
    members: &[(&'a str, Value<'a>)],
    path: &[u8],
) -> Result<Reason, ReadFault>
    ensures { IfOk result (λ reason. HasRule (members_of members.now) path.now (rule_of (reason_model reason))
        × (reason_word (reason_model reason) ≡ codes "rule") × (attribute_of (reason_model reason) ≡ None)) }
{
    let file = bytes_in(alloc, members, MemberName::File, MemberName::FileBytes)?;
    let Some(source) = source_of(path, &file) else {
        return Err(ReadFault::NoReport(NoReport::Bad(MemberName::File)));
    };
    let number = count_in(members, MemberName::Line)?;
    match u32::try_from(number) {
        Ok(line) => Ok(Reason::Rule { source, line }),
        Err(_) => Err(ReadFault::NoReport(NoReport::Bad(MemberName::Line))),
    }
}

/// Reads the reason why an entry is skipped.
fn reason_in<'a>(
    alloc: Global,
    members: &[(&'a str, Value<'a>)],
    path: &[u8],
) -> Result<Reason, ReadFault>
    ensures { IfOk result (λ reason. IsReasonOf (members_of members.now) path.now (reason_model reason)) }
{
    match text_in(members, MemberName::Reason)? {
        "git" => Ok(Reason::Git),
        "rule" => rule_in(alloc, members, path),
        "attribute" => {
            let word = bytes_in(
                alloc,
                members,
                MemberName::Attribute,
                MemberName::AttributeBytes,
            )?;
            Ok(Reason::Attribute(word))
        }
        "include" => Ok(Reason::NotIncluded),
        "other" => Ok(Reason::OtherKind(OtherKind::Special)),
        "filesystem" => Ok(Reason::OtherKind(OtherKind::Mounted)),
        _ => Err(ReadFault::NoReport(NoReport::Bad(MemberName::Reason))),
    }
}

/// Reads a skipped entry from the members of its JSON object.
pub(crate) fn skipped_of<'a>(
    alloc: Global,
    members: &[(&'a str, Value<'a>)],
) -> Result<SkippedLine, ReadFault>
    ensures { IfOk result (IsSkippedOf (members_of members.now)) }
{
    let path = entry_path_in(alloc, members)?;
    let reason = reason_in(alloc, members, &path)?;
    let word = text_in(members, MemberName::Kind)?;
    match kind_of(word, &reason) {
        Some(kind) => Ok(SkippedLine { path, kind, reason }),
        None => Err(ReadFault::NoReport(NoReport::Bad(MemberName::Kind))),
    }
}
