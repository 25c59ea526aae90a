//! The states of attributes that a counted file has.

ghost use Rattle.std.specs.Prelude.{◌≡◌, ◌≢◌, ◌↔◌, map, true, IfOk, IfNone, IfSome};
ghost use Rattle.std.specs.List.{All, Any};
ghost use Rattle.std.specs.Arc.{arc_value};
ghost use Rattle.lc_level.specs.FileAttributes.{attributes_with, owned_state};
ghost use Rattle.lc_rules.specs.Models.{state_model};

use lc_rules::{State, TextState};
use std::alloc::{AllocError, Global};
use std::marker::Model;
use std::sync::Arc;

/// The state of an attribute for a file, with a copy of its value: gitattributes(5), DESCRIPTION.
#[derive(Debug, Drop)]
pub enum AttributeState {
    Set,
    Unset,
    /// The bytes after the equals sign, perhaps none.
    Value(Vec<u8>),
    Unspecified,
}

impl AttributeState {
    fn of(alloc: Global, state: State<'_>) -> Result<AttributeState, AllocError>
        ensures { IfOk result (λ owned. owned_state owned ≡ state_model state.entry) }
    {
        match state {
            State::Set => Ok(AttributeState::Set),
            State::Unset => Ok(AttributeState::Unset),
            State::Value(value) => Ok(AttributeState::Value(value.to_vec(alloc)?)),
            State::Unspecified => Ok(AttributeState::Unspecified),
        }
    }

    /// Returns the state, with its value borrowed.
    pub fn as_state(&self) -> State<'_>
        ensures { state_model result ≡ owned_state self.now }
    {
        match self {
            AttributeState::Set => State::Set,
            AttributeState::Unset => State::Unset,
            AttributeState::Value(value) => State::Value(value.as_slice()),
            AttributeState::Unspecified => State::Unspecified,
        }
    }

    fn is(&self, state: State<'_>) -> bool
        ensures { (result ≡ true) ↔ (owned_state self.now ≡ state_model state.entry) }
    {
        match (self, state) {
            (AttributeState::Set, State::Set)
            | (AttributeState::Unset, State::Unset)
            | (AttributeState::Unspecified, State::Unspecified) => true,
            (AttributeState::Value(value), State::Value(other)) => value.as_slice() == other,
            _ => false,
        }
    }
}

/// The states of attributes for a file. Files with the same states share them.
#[derive(Debug, Drop)]
pub struct FileAttributes {
    /// The state of the attribute `text`.
    pub text: TextState,
    /// The states of the attributes that were asked for, in the order of their names.
    pub asked: Vec<AttributeState>,
}

impl Model for FileAttributes {
    ghost use Rattle.std.specs.Prelude.{map};
    ghost use Rattle.lc_level.specs.FileAttributes.{FileAttributesModel, owned_state};

    ghost Value = { FileAttributesModel };

    ghost view = { λ a. record { text = a.text; asked = map owned_state a.asked.items } };
}

impl FileAttributes {
    fn of(alloc: Global, text: TextState, asked: &[State<'_>]) -> Result<FileAttributes, AllocError>
        ensures { IfOk result (λ a. a ≡ attributes_with text (map state_model asked.now)) }
    {
        let mut states = Vec::new(alloc);
        for state in asked {
            states.push(AttributeState::of(alloc, *state)?)?;
        }
        Ok(FileAttributes {
            text,
            asked: states,
        })
    }
}

/// Returns whether these are the same states.
fn are_same(owned: &[AttributeState], states: &[State<'_>]) -> bool
    ensures { (result ≡ true) ↔ (map owned_state owned.now ≡ map state_model states.now) }
{
    let Some((state, rest)) = owned.split_first() else {
        return states.is_empty();
    };
    let Some((other, others)) = states.split_first() else {
        return false;
    };
    state.is(*other) && are_same(rest, others)
}

/// The greatest number of different attributes that are kept to be shared.
const MOST_KEPT: usize = 16;

/// The different attributes of the files that were counted last. A file whose states are those of one of these files shares its attributes,
/// so it takes no memory for them.
#[derive(Drop)]
pub struct SharedAttributes {
    kept: Vec<Arc<FileAttributes, Global>>,
}

impl SharedAttributes {
    /// Makes a list of no attributes.
    pub fn new(alloc: Global) -> SharedAttributes {
        SharedAttributes {
            kept: Vec::new(alloc),
        }
    }

    /// Returns attributes with these states, shared with one of the files if it has the same states.
    pub fn share(
        &mut self,
        alloc: Global,
        text: TextState,
        asked: &[State<'_>],
    ) -> Result<Arc<FileAttributes, Global>, AllocError>
        ensures shared { IfOk result (λ shared. arc_value shared ≡ attributes_with text (map state_model asked.now)) }
        ensures once { IfOk result (λ shared. Any (λ known. arc_value known ≡ arc_value shared) self.old.kept.items → self.new ≡ self.old) }
    {
        if let Some(known) = self.find(text, asked) {
            return Ok(Arc::try_clone(known)?);
        }
        let made = Arc::new(alloc, FileAttributes::of(alloc, text, asked)?)?;
        if self.kept.len() >= MOST_KEPT {
            self.kept.clear();
        }
        self.kept.push(Arc::try_clone(&made)?)?;
        Ok(made)
    }

    fn find(&self, text: TextState, asked: &[State<'_>]) -> Option<&Arc<FileAttributes, Global>>
        ensures found { IfSome result (λ found. arc_value found.now ≡ attributes_with text (map state_model asked.now)) }
        ensures none { IfNone result
            (All (λ known. arc_value known ≢ attributes_with text (map state_model asked.now)) self.now.kept.items) }
    {
        for known in &self.kept {
            if known.text == text && are_same(&known.asked, asked) {
                return Some(known);
            }
        }
        None
    }
}
