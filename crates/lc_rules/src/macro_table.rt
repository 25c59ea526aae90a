//! The macros of a top-level attribute file.

ghost use Rattle.std.specs.Prelude.{◌≡◌, ◌∷◌, [], ◌++◌, length, map, OnOk, MatchOption, Some, None};
ghost use Rattle.lc_rules.specs.Models.{macro_model, macro_line_model};
ghost use Rattle.lc_rules.specs.Decision.{macro_of};
ghost use Rattle.lc_rules.specs.WrittenLines.{assigned};

use crate::attr_line::MacroLine;
use std::alloc::{AllocError, Global};
use std::collections::BTreeMap;
use std::marker::Model;

/// The name of a macro, and the words of its assignments.
#[derive(Drop)]
pub(crate) struct Macro {
    pub(crate) name: Vec<u8>,
    pub(crate) assignments: Vec<u8>,
}

/// Macros in the order of their lines, and for each name the index of its last macro. So a search takes time in the logarithm of the number
/// of macros.
#[derive(Drop)]
pub(crate) struct MacroTable {
    defined: Vec<Macro>,
    places: BTreeMap<Vec<u8>, usize>,
}

impl Model for MacroTable {
    ghost use Rattle.std.specs.Prelude.{List, map};
    ghost use Rattle.lc_rules.specs.Attributes.{MacroModel};
    ghost use Rattle.lc_rules.specs.Models.{macro_model};
    ghost use Rattle.lc_rules.specs.MacroPlaces.{HasPlaces};

    ghost Value = { List MacroModel };

    ghost view = { λ t. map macro_model t.defined.items };

    ghost invariant = { λ t. HasPlaces (map macro_model t.defined.items) t.places };
}

impl MacroTable {
    pub(crate) fn new(alloc: Global) -> MacroTable
        ensures { result ≡ [] }
    {
        MacroTable {
            defined: Vec::new(alloc),
            places: BTreeMap::new(alloc),
        }
    }

    pub(crate) fn push(&mut self, alloc: Global, line: MacroLine) -> Result<(), AllocError>
        ensures { OnOk result (self.new ≡ self.old ++ macro_line_model line.entry ∷ []) }
    {
        let name = line.name.to_vec(alloc)?;
        let assignments = line.assignments.to_vec(alloc)?;
        let key = line.name.to_vec(alloc)?;
        self.defined.reserve(1)?;
        self.places.insert(key, self.defined.len())?;
        self.defined.push_reserved(Macro { name, assignments });
        Ok(())
    }

    /// Returns the bytes that hold the assignments of the last macro with this name.
    pub(crate) fn find(&self, name: &[u8]) -> Option<&[u8]>
        ensures { MatchOption result (macro_of self.now name.now ≡ None)
            (λ body. macro_of self.now name.now ≡ Some (assigned body.now)) }
    {
        match self.places.get(name) {
            None => None,
            Some(place) => Some(self.defined[*place].assignments.as_slice()),
        }
    }

    pub(crate) fn as_slice(&self) -> &[Macro]
        ensures { map macro_model result.now ≡ self.now }
    {
        self.defined.as_slice()
    }
}
