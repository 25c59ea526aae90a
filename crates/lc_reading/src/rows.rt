//! Reading the rows of a report.

ghost use Rattle.std.specs.Prelude.{◌≡◌, ⊤, IfOk, None, Some, option_map};
ghost use Rattle.std.specs.Bool.{MatchBool};
ghost use Rattle.std.specs.List.{list_any};
ghost use Rattle.lc_census.specs.EolWords.{eol_word};
ghost use Rattle.lc_census.specs.declared.line_count.Eol.TheVariants.{NoEnd};
ghost use Rattle.lc_rules.specs.declared.states.TextState.TheVariants.{Unspecified};
ghost use Rattle.lc_reading.specs.Lines.{HasTextState};
ghost use Rattle.lc_reading.specs.Members.{HasText, Lacks, members_of};
ghost use Rattle.lc_reading.specs.Rows.{HasExtension, IsRowOf, is_extension, no_name_has};
ghost use Rattle.lc_reading.specs.declared.member_name.MemberName.TheVariants as name;

use crate::lines::{eol_in, text_state_in};
use crate::member_name::MemberName;
use crate::members::optional;
use crate::read_fault::{NoReport, ReadFault};
use crate::sums::sums_of;
use crate::values::bytes_in;
use json::Value;
use lc_census::Eol;
use lc_rules::TextState;
use lc_sheet::Columns;
use lc_walk::TallyRow;
use std::alloc::Global;

/// A row of a report that was read, with the columns that the row has.
#[derive(Debug, Drop)]
pub(crate) struct ReadRow {
    pub(crate) columns: Columns,
    pub(crate) row: TallyRow,
}

fn has_byte_of_no_name(bytes: &[u8]) -> bool
    ensures { result ≡ list_any no_name_has bytes.now }
{
    bytes
        .iter()
        .any(|byte| *byte == 0 || *byte == b'.' || *byte == b'/')
}

/// Returns whether these bytes can be the extension of a name.
fn is_extension(bytes: &[u8]) -> bool
    ensures { result ≡ is_extension bytes.now }
{
    match bytes {
        [] => false,
        _ => !has_byte_of_no_name(bytes),
    }
}

fn has<'a>(members: &[(&'a str, Value<'a>)], name: MemberName) -> Result<bool, NoReport>
    ensures { IfOk result (λ there. MatchBool there ⊤ (Lacks name (members_of members.now))) }
{
    let found = optional(members, name)?;
    Ok(found.is_some())
}

/// Returns whether the member `ext` of a row is null: the row is for files without an extension.
#[tactic(auto, using(crate::proofs::JsonKinds::null_if))]
fn has_no_extension<'a>(members: &[(&'a str, Value<'a>)]) -> Result<bool, NoReport>
    ensures { IfOk result (λ none. MatchBool none (HasExtension (members_of members.now) None) ⊤) }
{
    let Some(value) = optional(members, MemberName::Ext)? else {
        return Ok(false);
    };
    if !value.is_null() {
        return Ok(false);
    }
    match optional(members, MemberName::ExtBytes)? {
        None => Ok(true),
        Some(_) => Err(NoReport::Twice(MemberName::Ext)),
    }
}

/// Reads the extension of a row, and drops the dot at its beginning.
fn extension_after_dot<'a>(
    alloc: Global,
    members: &[(&'a str, Value<'a>)],
) -> Result<Vec<u8>, ReadFault>
    ensures { IfOk result (λ bytes. HasExtension (members_of members.now) (Some bytes.items)) }
{
    let bytes = bytes_in(alloc, members, MemberName::Ext, MemberName::ExtBytes)?;
    let Some((first, rest)) = bytes.split_first() else {
        return Err(ReadFault::NoReport(NoReport::Bad(MemberName::Ext)));
    };
    if *first != b'.' || !is_extension(rest) {
        return Err(ReadFault::NoReport(NoReport::Bad(MemberName::Ext)));
    }
    Ok(rest.to_vec(alloc)?)
}

/// Reads the extension of a row, if the row has that column, as `there` says.
fn extension_in<'a>(
    alloc: Global,
    members: &[(&'a str, Value<'a>)],
    there: bool,
) -> Result<Option<Vec<u8>>, ReadFault>
    ensures { IfOk result (λ e. MatchBool there (HasExtension (members_of members.now) (option_map (λ v. v.items) e)) (e ≡ None)) }
{
    if !there || has_no_extension(members)? {
        return Ok(None);
    }
    Ok(Some(extension_after_dot(alloc, members)?))
}

fn text_in_column<'a>(members: &[(&'a str, Value<'a>)], there: bool) -> Result<TextState, NoReport>
    ensures { IfOk result (λ state. MatchBool there (HasTextState (members_of members.now) state) (state ≡ Unspecified)) }
{
    if there {
        text_state_in(members)
    } else {
        Ok(TextState::Unspecified)
    }
}

fn eol_in_column<'a>(members: &[(&'a str, Value<'a>)], there: bool) -> Result<Eol, NoReport>
    ensures { IfOk result (λ eol. MatchBool there (HasText name.Eol (members_of members.now) (eol_word eol)) (eol ≡ NoEnd)) }
{
    if there {
        eol_in(members)
    } else {
        Ok(Eol::NoEnd)
    }
}

/// Finds the columns that a row has.
fn columns_of<'a>(members: &[(&'a str, Value<'a>)]) -> Result<Columns, NoReport>
    ensures ext { IfOk result (λ c. MatchBool c.ext ⊤
        (Lacks name.Ext (members_of members.now) × Lacks name.ExtBytes (members_of members.now))) }
    ensures text { IfOk result (λ c. MatchBool c.text ⊤ (Lacks name.Text (members_of members.now))) }
    ensures eol { IfOk result (λ c. MatchBool c.eol ⊤ (Lacks name.Eol (members_of members.now))) }
{
    let ext = has(members, MemberName::Ext)?;
    let listed = has(members, MemberName::ExtBytes)?;
    let text = has(members, MemberName::Text)?;
    let eol = has(members, MemberName::Eol)?;
    Ok(Columns {
        dir: None,
        attributes: 0,
        ext: ext || listed,
        text,
        eol,
    })
}

/// Reads a row from the members of its JSON object.
pub(crate) fn row_of<'a>(
    alloc: Global,
    members: &[(&'a str, Value<'a>)],
) -> Result<ReadRow, ReadFault>
    ensures { IfOk result (IsRowOf (members_of members.now)) }
{
    let columns = columns_of(members)?;
    let ext = extension_in(alloc, members, columns.ext)?;
    let text = text_in_column(members, columns.text)?;
    let eol = eol_in_column(members, columns.eol)?;
    let sums = sums_of(members)?;
    if sums.files == 0 {
        return Err(ReadFault::NoReport(NoReport::Bad(MemberName::Files)));
    }
    let row = TallyRow {
        ext,
        text,
        eol,
        files: sums.files,
        lines: sums.lines,
        blank: sums.blank,
        bytes: sums.bytes,
    };
    Ok(ReadRow { columns, row })
}
