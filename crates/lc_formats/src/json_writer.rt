//! A JSON text, written a token at a time.

ghost use Rattle.std.specs.Prelude.{◌≡◌, [], ◌∷◌, ◌++◌, codes, decimal, map, IfOk, OnOk};
ghost use Rattle.json.specs.Lex.{tokens};
ghost use Rattle.json.specs.Print.{print};
ghost use Rattle.json.specs.Token.{begin_object, end_object, begin_array, end_array, boolean, key, string, number, null};
ghost use Rattle.std.specs.List.{flat_map};
ghost use Rattle.lc_formats.specs.JsonText.{array_with, bytes_member, bytes_name, integer};
ghost use Rattle.lc_formats.specs.JsonTokens.{member_tokens};
ghost use Rattle.lc_text.specs.Names.{name_model, named};

use crate::joined::{has_bytes_alone, join_name};
use json::Writer;
use lc_text::Name;
use std::alloc::{AllocError, Global};
use std::marker::Model;
use std::mem;
use std::str::from_utf8;

/// A JSON text that is written token by token. The caller must nest the tokens correctly.
#[derive(Drop)]
pub(crate) struct JsonText {
    writer: Writer<Global>,
    bytes_name: String,
    joined: Vec<u8>,
    alloc: Global,
}

impl Model for JsonText {
    ghost use Rattle.std.specs.Prelude.{◌≡◌, List, []};
    ghost use Rattle.json.specs.Token.{Token, tokens_code};

    ghost Value = { List Token };

    ghost coded = { tokens_code };

    ghost view = { λ a. a.writer.tokens };

    ghost invariant = { λ a. a.writer.before ≡ [] };
}

impl JsonText {
    pub(crate) fn new(alloc: Global) -> JsonText
        ensures { result ≡ [] }
    {
        JsonText {
            writer: Writer::new(Vec::new(alloc)),
            bytes_name: String::new(alloc),
            joined: Vec::new(alloc),
            alloc,
        }
    }

    /// Returns the text with a line feed at its end.
    pub(crate) fn into_line(self) -> Result<Vec<u8>, AllocError>
        ensures text { IfOk result (λ line. line.items ≡ print self ++ codes "\n") }
        ensures reads_back { IfOk result (λ _. tokens (print self) ≡ self) }
    {
        let JsonText { writer, .. } = self;
        let mut line = writer.into_inner();
        line.push(b'\n')?;
        Ok(line)
    }

    pub(crate) fn begin_object(&mut self) -> Result<(), AllocError>
        ensures { OnOk result (self.new ≡ self.old ++ begin_object ∷ []) }
    {
        self.writer.begin_object()
    }

    pub(crate) fn end_object(&mut self) -> Result<(), AllocError>
        ensures { OnOk result (self.new ≡ self.old ++ end_object ∷ []) }
    {
        self.writer.end_object()
    }

    fn begin_array(&mut self) -> Result<(), AllocError>
        ensures { OnOk result (self.new ≡ self.old ++ begin_array ∷ []) }
    {
        self.writer.begin_array()
    }

    pub(crate) fn end_array(&mut self) -> Result<(), AllocError>
        ensures { OnOk result (self.new ≡ self.old ++ end_array ∷ []) }
    {
        self.writer.end_array()
    }

    pub(crate) fn key(&mut self, name: &str) -> Result<(), AllocError>
        ensures { OnOk result (self.new ≡ self.old ++ key name.now ∷ []) }
    {
        self.writer.key(name)
    }

    pub(crate) fn null(&mut self) -> Result<(), AllocError>
        ensures { OnOk result (self.new ≡ self.old ++ null ∷ []) }
    {
        self.writer.null()
    }

    pub(crate) fn string(&mut self, text: &str) -> Result<(), AllocError>
        ensures { OnOk result (self.new ≡ self.old ++ string text.now ∷ []) }
    {
        self.writer.string(text)
    }

    pub(crate) fn integer(&mut self, n: u128) -> Result<(), AllocError>
        ensures { OnOk result (self.new ≡ self.old ++ number (decimal n) ∷ []) }
    {
        let mut buffer = itoa::Buffer::new();
        self.writer.number(buffer.format(n))
    }

    /// Writes the name of a member, and the start of the array that is the member's value.
    pub(crate) fn begin_list(&mut self, name: &str) -> Result<(), AllocError>
        ensures { OnOk result (self.new ≡ self.old ++ key name.now ∷ begin_array ∷ []) }
    {
        self.key(name)?;
        self.begin_array()?;
        Ok(())
    }

    /// Writes a member whose value is null.
    pub(crate) fn null_member(&mut self, name: &str) -> Result<(), AllocError>
        ensures { OnOk result (self.new ≡ self.old ++ key name.now ∷ null ∷ []) }
    {
        self.key(name)?;
        self.null()?;
        Ok(())
    }

    /// Writes a member whose value is true or false.
    pub(crate) fn boolean_member(&mut self, name: &str, value: bool) -> Result<(), AllocError>
        ensures { OnOk result (self.new ≡ self.old ++ key name.now ∷ boolean value ∷ []) }
    {
        self.key(name)?;
        self.writer.boolean(value)?;
        Ok(())
    }

    /// Writes a member whose value is a number.
    pub(crate) fn integer_member(&mut self, name: &str, n: u128) -> Result<(), AllocError>
        ensures { OnOk result (self.new ≡ self.old ++ key name.now ∷ number (decimal n) ∷ []) }
    {
        self.key(name)?;
        self.integer(n)?;
        Ok(())
    }

    /// Writes a member whose value is a string.
    pub(crate) fn string_member(&mut self, name: &str, text: &str) -> Result<(), AllocError>
        ensures { OnOk result (self.new ≡ self.old ++ key name.now ∷ string text.now ∷ []) }
    {
        self.key(name)?;
        self.string(text)?;
        Ok(())
    }

    fn integers(&mut self, bytes: &[u8]) -> Result<(), AllocError>
        ensures { OnOk result (self.new ≡ self.old ++ flat_map (λ n. number (decimal n) ∷ []) bytes.now) }
    {
        for byte in bytes {
            self.integer(u128::from(*byte))?;
        }
        Ok(())
    }

    /// Writes the name of a member whose value is bytes as an array of numbers: the given name with `_bytes` at its end.
    fn bytes_key(&mut self, name: &str) -> Result<(), AllocError>
        ensures { OnOk result (self.new ≡ self.old ++ key (bytes_name name.now) ∷ []) }
    {
        self.bytes_name.clear();
        self.bytes_name.push_str(name)?;
        self.bytes_name.push_str("_bytes")?;
        self.writer.key(&self.bytes_name)
    }

    fn integers_member(&mut self, name: &str, bytes: &[u8]) -> Result<(), AllocError>
        ensures { OnOk result (self.new
            ≡ self.old ++ member_tokens (bytes_name name.now, array_with (map integer bytes.now))) }
    {
        self.bytes_key(name)?;
        self.begin_array()?;
        self.integers(bytes)?;
        self.end_array()?;
        Ok(())
    }

    /// Writes bytes as a member whose value is a string. If the bytes are not UTF-8, the value is an array of numbers, and the member's
    /// name ends with `_bytes`.
    pub(crate) fn bytes_member(&mut self, name: &str, bytes: &[u8]) -> Result<(), AllocError>
        ensures { OnOk result (self.new ≡ self.old ++ member_tokens (bytes_member name.now bytes.now)) }
    {
        match from_utf8(bytes) {
            Ok(text) => self.string_member(name, text)?,
            Err(_) => self.integers_member(name, bytes)?,
        }
        Ok(())
    }

    /// Writes a name as a member whose value is a string, or an array of numbers as in `bytes_member`. The name is copied only if something
    /// is printed before or after its bytes.
    pub(crate) fn name_member(&mut self, member: &str, name: Name<'_>) -> Result<(), AllocError>
        ensures { OnOk result (self.new
            ≡ self.old ++ member_tokens (bytes_member member.now (named (λ bytes. bytes) (name_model name.entry)))) }
    {
        if has_bytes_alone(name) {
            return self.bytes_member(member, name.bytes);
        }
        // The buffer is moved out of the text while the member is written from it.
        let mut joined = mem::replace(&mut self.joined, Vec::new(self.alloc));
        joined.clear();
        join_name(&mut joined, name)?;
        self.bytes_member(member, &joined)?;
        self.joined = joined;
        Ok(())
    }
}
