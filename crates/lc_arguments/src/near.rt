//! Finds the name of a command or an option that is close to a typed word.

use std::alloc::{AllocError, Global};
use strsim::osa_distance;

/// The greatest length of a word that is compared. No known name is half as long.
const MAX_WORD: usize = 32;

/// Returns whether a name is so close to a word that the user probably meant the name. `edits` may be at most a third of the longer length.
/// If `edits` is more than 1, the name and the word must begin with the same letter. So `sorted` is near `sort`, but `include-from` is not
/// near `exclude-from`.
fn is_near(word: &str, name: &str, edits: usize) -> bool {
    let longer = word.len().max(name.len());
    let begins_alike = word.as_bytes().first() == name.as_bytes().first();
    edits <= longer / 3 && (edits <= 1 || begins_alike)
}

/// Finds the pair in `known` whose name is nearest to a word, if a name is near. Hyphens at the word's beginning do not count.
///
/// ```
/// let known = &[("threads", "lc --threads 8 ."), ("top", "lc --top 10 .")];
/// assert!(rt; near_name(rt.alloc(), "--thread", known)? == Some(("threads", "lc --threads 8 .")));
/// assert!(rt; near_name(rt.alloc(), "--text", known)?.is_none());
/// ```
pub(crate) fn near_name(
    alloc: Global,
    word: &str,
    known: &[(&'static str, &'static str)],
) -> Result<Option<(&'static str, &'static str)>, AllocError> {
    let mut nearest = None;
    let mut fewest = usize::MAX;
    if word.len() > MAX_WORD {
        return Ok(None);
    }
    let word = word.trim_start_matches('-');
    for (name, meant) in known {
        let edits = osa_distance(alloc, word, name)?;
        if edits < fewest && is_near(word, name, edits) {
            fewest = edits;
            nearest = Some((*name, *meant));
        }
    }
    Ok(nearest)
}
