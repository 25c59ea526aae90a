//! Which attributes are named in the attribute files of a tree.

ghost use Rattle.std.specs.Prelude.{◌≡◌, IfOk};
ghost use Rattle.lc_level.specs.NamedAttributes.{AreSomeAttributes, attributes_of, noted};

use lc_glob::cut_at_first;
use memchr::memmem;
use std::alloc::{AllocError, Global};
use std::sync::atomic::{AtomicBool, Ordering};

/// The attributes that a command line names. While workers read the attribute files of a tree, they note for each attribute whether one of
/// these files contains the attribute's name.
///
/// No contract says which attributes the files contain, so the notes are only good for a hint. An attribute's name counts as contained even
/// if it is only a part of another word, or is in a comment.
///
/// ```
/// let named = NamedAttributes::new(alloc, &["linguist-generated=true"])?;
/// let options = ReaderOptions { left_out: false, texts: false, named: Some(&named) };
/// // once a tree was read with these options
/// let unnamed = named.unnamed(alloc)?; // `linguist-generated`, if no attribute file has it
/// ```
#[derive(Drop)]
pub struct NamedAttributes {
    words: Vec<NotedWord>,
}

/// An attribute, and whether an attribute file contains its name.
#[derive(Drop)]
struct NotedWord {
    attribute: Vec<u8>,
    is_named: AtomicBool,
}

impl NamedAttributes {
    /// Makes the list of the attributes that `words` name. Each word is `ATTR` or `ATTR=VALUE`. The new list has no notes yet about the
    /// contents of attribute files.
    pub fn new(alloc: Global, words: &[&str]) -> Result<NamedAttributes, AllocError>
        ensures { IfOk result (λ named. noted named ≡ attributes_of words.now) }
    {
        let mut noted = Vec::with_capacity(alloc, words.len())?;
        for word in words {
            let (attribute, _) = cut_at_first(b'=', word.as_bytes());
            noted.push(NotedWord {
                attribute: attribute.to_vec(alloc)?,
                is_named: AtomicBool::new(false),
            })?;
        }
        Ok(NamedAttributes { words: noted })
    }

    /// Returns the attributes whose names were not found in any attribute file so far, in the order of the argument `words` of `new`.
    pub fn unnamed(&self, alloc: Global) -> Result<Vec<Vec<u8>>, AllocError>
        ensures { IfOk result (λ told. AreSomeAttributes (noted self.now) told.items) }
    {
        let mut unnamed = Vec::new(alloc);
        for word in &self.words {
            if word.is_named.load(Ordering::SeqCst) {
                continue;
            }
            unnamed.push(word.attribute.to_vec(alloc)?)?;
        }
        Ok(unnamed)
    }

    /// Notes the attributes whose names are in `bytes`, the text of an attribute file.
    pub fn note(&self, bytes: &[u8]) {
        for word in &self.words {
            if !word.is_named.load(Ordering::SeqCst)
                && memmem::find(bytes, &word.attribute).is_some()
            {
                word.is_named.store(true, Ordering::SeqCst);
            }
        }
    }
}
