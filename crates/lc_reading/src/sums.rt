//! Reading the sums over files that a report has.

ghost use Rattle.std.specs.Prelude.{IfOk, OnErr};
ghost use Rattle.lc_walk.specs.Sums.{IsInRange};
ghost use Rattle.lc_walk.specs.declared.tally.sums.Sums.{Sums as SumsModel};
ghost use Rattle.lc_reading.specs.Members.{members_of};
ghost use Rattle.lc_reading.specs.Rows.{HasSums, IsSumsOf};

use crate::lines::members_in;
use crate::member_name::MemberName;
use crate::members::needed;
use crate::read_fault::NoReport;
use crate::values::{count_in, sum_in};
use json::Value;
use lc_walk::Sums;

/// Reads the sums over files from the members of an object.
pub(crate) fn sums_of<'a>(members: &[(&'a str, Value<'a>)]) -> Result<Sums, NoReport>
    ensures sums { IfOk result (IsSumsOf (members_of members.now)) }
    ensures refused { OnErr result ((s : SumsModel) → IsInRange s → IsSumsOf (members_of members.now) s → ⊥) }
{
    let files = count_in(members, MemberName::Files)?;
    let lines = sum_in(members, MemberName::Lines)?;
    let blank = sum_in(members, MemberName::Blank)?;
    let bytes = sum_in(members, MemberName::Bytes)?;
    Ok(Sums {
        files,
        lines,
        blank,
        bytes,
    })
}

/// Reads the sums over files from the object in the member `name`.
pub(crate) fn sums_in<'a>(
    members: &[(&'a str, Value<'a>)],
    name: MemberName,
) -> Result<Sums, NoReport>
    ensures { IfOk result (HasSums name (members_of members.now)) }
{
    let value = needed(members, name)?;
    let inner = members_in(value, name)?;
    let sums = sums_of(inner)?;
    Ok(sums)
}
