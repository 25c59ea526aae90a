//! Reading the JSON object of a report, member by member.

ghost use Rattle.std.specs.Prelude.{◌≡◌, ◌∷◌, ℕ, true, List, option_map, IfOk, OnOk, []};
ghost use Rattle.json.specs.Token.{begin_object};
ghost use Rattle.json.proofs.Grammar.{key_token};
ghost use Rattle.lc_reading.specs.MemberNames.{member_name};
ghost use Rattle.lc_reading.specs.Objects.{Fills, IsObjectOf, IsPassed, TakesMember, TakesObject, is_value};

use crate::lists::{ListLine, read_list, read_value};
use crate::member_name::MemberName;
use crate::read_fault::{NoReport, ReadFault};
use crate::rows::ReadRow;
use crate::top_member::{TopMember, top_member};
use json::{Reader, Token, Value};
use lc_level::{FaultLine, FileLine, SkippedLine};
use lc_sheet::AttributeColumn;
use std::alloc::Global;

/// The members of a report, with its lists already read.
#[derive(Drop)]
pub(crate) struct Object<'a> {
    /// The members that are not lists.
    pub(crate) values: Vec<(&'a str, Value<'a>)>,
    pub(crate) rows: Option<Vec<ReadRow>>,
    pub(crate) files: Option<Vec<FileLine>>,
    pub(crate) skipped: Option<Vec<SkippedLine>>,
    pub(crate) faults: Option<Vec<FaultLine>>,
}

fn no_members<'a>(alloc: Global) -> Object<'a>
    ensures { (attributes : List (List ℕ)) → IsObjectOf attributes [] result }
{
    Object {
        values: Vec::new(alloc),
        rows: None,
        files: None,
        skipped: None,
        faults: None,
    }
}

/// Reads the list that is the value of the member `name`, unless the list is there already.
fn fill<'a, L: ListLine>(
    list: &mut Option<Vec<L>>,
    alloc: Global,
    reader: &mut Reader<'a>,
    name: MemberName,
    attributes: &[AttributeColumn],
) -> Result<(), ReadFault>
    ensures { OnOk result (Fills (L.is_of attributes.now) list.old list.new reader.old reader.new) }
{
    if list.is_some() {
        return Err(ReadFault::NoReport(NoReport::Twice(name)));
    }
    let lines = read_list(alloc, reader, name, attributes)?;
    *list = Some(lines);
    Ok(())
}

/// Reads a member that is not a list.
fn read_small<'a>(
    object: &mut Object<'a>,
    alloc: Global,
    reader: &mut Reader<'a>,
    key: &'a str,
    name: MemberName,
) -> Result<(), ReadFault>
    ensures { OnOk result (is_value name ≡ true → key.entry.now ≡ member_name name → (attributes : List (List ℕ))
        → TakesMember attributes key.entry.now object.old object.new reader.old reader.new) }
{
    let value = read_value(alloc, reader, name)?;
    object.values.push((key, value))?;
    Ok(())
}

/// Skips the next JSON value.
#[tactic(auto, using(crate::proofs::ObjectsRead::value_skipped))]
fn skip<'a>(reader: &mut Reader<'a>) -> Result<(), ReadFault>
    ensures { OnOk result (IsPassed reader.old reader.new) }
{
    match reader.skip_value(127) {
        Ok(()) => Ok(()),
        Err(_) => Err(ReadFault::NoReport(NoReport::NoObject(reader.offset()))),
    }
}

fn read_member<'a>(
    object: &mut Object<'a>,
    alloc: Global,
    reader: &mut Reader<'a>,
    key: &'a str,
    attributes: &[AttributeColumn],
) -> Result<(), ReadFault>
    ensures { OnOk result (TakesMember attributes.now key.entry.now object.old object.new reader.old reader.new) }
{
    match top_member(key) {
        TopMember::Rows => fill(
            &mut object.rows,
            alloc,
            reader,
            MemberName::Rows,
            attributes,
        ),
        TopMember::Files => fill(
            &mut object.files,
            alloc,
            reader,
            MemberName::Files,
            attributes,
        ),
        TopMember::Left => fill(
            &mut object.skipped,
            alloc,
            reader,
            MemberName::Left,
            attributes,
        ),
        TopMember::Faults => fill(
            &mut object.faults,
            alloc,
            reader,
            MemberName::Faults,
            attributes,
        ),
        TopMember::Value(name) => read_small(object, alloc, reader, key, name),
        TopMember::Other => skip(reader),
    }
}

/// Reads the next key of an object, or returns `None` where the object ends.
#[tactic(auto, using(crate::proofs::ObjectsRead::key_taken))]
fn next_key<'a>(reader: &mut Reader<'a>) -> Result<Option<&'a str>, ReadFault>
    ensures { IfOk result (λ k. reader.old ≡ key_token (option_map (λ s. s.now) k) ∷ reader.new) }
{
    match reader.next_key() {
        Ok(key) => Ok(key),
        Err(_) => Err(ReadFault::NoReport(NoReport::NoObject(reader.offset()))),
    }
}

/// Reads the members of an object after its opening brace.
fn read_members<'a>(
    alloc: Global,
    reader: &mut Reader<'a>,
    attributes: &[AttributeColumn],
) -> Result<Object<'a>, ReadFault>
    ensures { IfOk result (λ o. TakesObject attributes.now o (begin_object ∷ reader.old) reader.new) }
{
    let mut object = no_members(alloc);
    'members: while let Some(key) = next_key(reader)? {
        read_member(&mut object, alloc, reader, key, attributes)?;
    }
    Ok(object)
}

/// Reads the JSON object of a report, whose files have the states of `attributes`.
pub(crate) fn read_object<'a>(
    alloc: Global,
    reader: &mut Reader<'a>,
    attributes: &[AttributeColumn],
) -> Result<Object<'a>, ReadFault>
    ensures { IfOk result (λ o. TakesObject attributes.now o reader.old reader.new) }
{
    match reader.next() {
        Some(Token::BeginObject) => read_members(alloc, reader, attributes),
        _ => Err(ReadFault::NoReport(NoReport::NoObject(reader.offset()))),
    }
}
