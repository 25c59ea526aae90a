//! A CSV text (RFC 4180), written record by record.

ghost use Rattle.std.specs.Prelude.{◌≡◌, [], ◌∷◌, ◌++◌, decimal, IfOk, OnOk};
ghost use Rattle.csv.specs.Records.{fields_of, partial_of};
ghost use Rattle.lc_formats.specs.CsvText.{record_text};
ghost use Rattle.lc_text.specs.Names.{name_model, named};

use crate::joined::{has_bytes_alone, join_name};
use csv::{ByteRecord, Writer};
use lc_text::Name;
use std::alloc::{AllocError, Global};
use std::marker::Model;

/// Appends a field to a record. If an allocation fails, the record loses all its fields.
fn push_field(row: &mut ByteRecord, field: &[u8]) -> Result<(), AllocError>
    requires { partial_of row.old ≡ [] }
    ensures fields { OnOk result (fields_of row.new ≡ fields_of row.old ++ field.now ∷ []) }
    ensures whole { partial_of row.new ≡ [] }
{
    if row.push_field(field).is_err() {
        // A part of the field may be in the record.
        row.clear();
        return Err(AllocError);
    }
    Ok(())
}

/// The fields of a CSV record.
#[derive(Drop)]
pub(crate) struct Fields {
    record: ByteRecord,
    joined: Vec<u8>,
}

impl Model for Fields {
    ghost use Rattle.std.specs.Prelude.{◌≡◌, ℕ, List, []};
    ghost use Rattle.csv.specs.Records.{fields_of, partial_of};

    ghost Value = { List (List ℕ) };

    ghost view = { λ a. fields_of a.record };

    ghost invariant = { λ a. partial_of a.record ≡ [] };
}

impl Fields {
    pub(crate) fn new(alloc: Global) -> Fields
        ensures { result ≡ [] }
    {
        Fields {
            record: ByteRecord::new(alloc),
            joined: Vec::new(alloc),
        }
    }

    pub(crate) fn clear(&mut self)
        ensures { self.new ≡ [] }
    {
        self.record.clear();
    }

    /// Appends a field. If an allocation fails, all fields are dropped.
    pub(crate) fn push(&mut self, field: &[u8]) -> Result<(), AllocError>
        ensures { OnOk result (self.new ≡ self.old ++ field.now ∷ []) }
    {
        push_field(&mut self.record, field)
    }

    /// Appends a name as one field. The bytes of the name are not escaped.
    pub(crate) fn push_name(&mut self, name: Name<'_>) -> Result<(), AllocError>
        ensures { OnOk result (self.new ≡ self.old ++ named (λ bytes. bytes) (name_model name.entry) ∷ []) }
    {
        if has_bytes_alone(name) {
            return self.push(name.bytes);
        }
        self.joined.clear();
        join_name(&mut self.joined, name)?;
        push_field(&mut self.record, &self.joined)
    }

    /// Appends a number as a field.
    pub(crate) fn push_number(&mut self, n: u128) -> Result<(), AllocError>
        ensures { OnOk result (self.new ≡ self.old ++ decimal n ∷ []) }
    {
        let mut buffer = itoa::Buffer::new();
        self.push(buffer.format(n).as_bytes())
    }
}

/// A CSV text to which records are appended.
#[derive(Drop)]
pub(crate) struct CsvText {
    writer: Writer<Vec<u8>>,
    alloc: Global,
}

impl Model for CsvText {
    ghost use Rattle.std.specs.Prelude.{ℕ, List, ◌++◌};
    ghost use Rattle.csv.specs.Writing.{writer_pending, writer_under};
    ghost use Rattle.lc_formats.specs.CsvText.{IsBetween};

    ghost Value = { List ℕ };

    ghost view = { λ a. (writer_under a.writer).items ++ writer_pending a.writer };

    ghost invariant = { λ a. IsBetween a.writer };
}

impl CsvText {
    pub(crate) fn new(alloc: Global) -> CsvText
        ensures { result ≡ [] }
    {
        CsvText {
            writer: Writer::from_writer(Vec::new(alloc)),
            alloc,
        }
    }

    /// Appends a record. If an allocation fails, all records are dropped.
    pub(crate) fn push_record(&mut self, fields: &Fields) -> Result<(), AllocError>
        ensures { OnOk result (self.new ≡ self.old ++ record_text fields.now) }
    {
        if self.writer.write_byte_record(&fields.record).is_err() {
            // A part of the record may be in the text.
            self.writer = Writer::from_writer(Vec::new(self.alloc));
            return Err(AllocError);
        }
        Ok(())
    }

    /// Returns the text.
    pub(crate) fn into_text(self) -> Result<Vec<u8>, AllocError>
        ensures { IfOk result (λ text. text.items ≡ self) }
    {
        let CsvText { writer, .. } = self;
        writer.into_inner().map_err(|_| AllocError)
    }
}
