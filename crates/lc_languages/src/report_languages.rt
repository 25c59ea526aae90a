//! Giving the files of a report their languages.

ghost use Rattle.std.specs.Prelude.{◌≡◌, map, IfOk, slice_get, unwrap_or};
ghost use Rattle.std.specs.{Arc.arc_value, List.slice_set};
ghost use Rattle.lc_languages.specs.InLanguages.{IsInLanguages, in_language, language_state};
ghost use Rattle.lc_level.specs.FileAttributes.{attributes_with};
ghost use Rattle.lc_rules.specs.Attributes.{unspecified};
ghost use Rattle.lc_rules.specs.Models.{state_model};

use crate::languages::Languages;
use lc_level::{FileAttributes, SharedAttributes};
use lc_rows::name_of;
use lc_rules::State;
use lc_walk::{FileLine, Report};
use std::alloc::{AllocError, Global};
use std::sync::Arc;

/// Returns the language of a file with this name, if this is its state of the attribute `linguist-language`.
fn language_state<'s>(languages: &'s Languages<'_>, name: &[u8], state: State<'s>) -> State<'s>
    ensures { state_model result ≡ language_state languages.now name.now (state_model state.entry) }
{
    if let State::Value(_) = state {
        return state;
    }
    match languages.language_of(name) {
        Some(language) => State::Value(language),
        None => State::Unspecified,
    }
}

/// Returns these states, with the language of a file with this name in place of the state at this place, if there is one.
fn with_language<'s>(
    languages: &'s Languages<'_>,
    name: &[u8],
    place: usize,
    mut states: Vec<State<'s>>,
) -> Vec<State<'s>>
    ensures { map state_model result.items ≡ slice_set (map state_model states.entry.items) place
        (language_state languages.now name.now (unwrap_or (slice_get (map state_model states.entry.items) place) unspecified)) }
{
    if place < states.len() {
        states[place] = language_state(languages, name, states[place]);
    }
    states
}

/// Returns the attributes of a file, with its language in place of the state at this place.
fn attributes_of<'s>(
    alloc: Global,
    languages: &'s Languages<'_>,
    place: usize,
    file: &'s FileLine,
    shared: &mut SharedAttributes,
) -> Result<Arc<FileAttributes, Global>, AllocError>
    ensures { IfOk result (λ a. arc_value a ≡ attributes_with file.now.text (in_language languages.now place file.now).asked) }
{
    let mut states = Vec::new(alloc);
    for state in &file.attributes.asked {
        states.push(state.as_state())?;
    }
    let states = with_language(languages, name_of(&file.path), place, states);
    shared.share(alloc, file.text(), &states)
}

/// Gives each file of a report its language by a list, in place of its state of the attribute `linguist-language`. This state is at `place`
/// of the states of each file. Files with the same states share them.
///
/// ```
/// let report = in_languages(alloc, report, LANGUAGES.as_bytes(), 0)?;
/// ```
pub fn in_languages(
    alloc: Global,
    mut report: Report,
    list: &[u8],
    place: usize,
) -> Result<Report, AllocError>
    ensures { IfOk result (IsInLanguages list.now place report) }
{
    let languages = Languages::new(alloc, list)?;
    let mut shared = SharedAttributes::new(alloc);
    for file in report.files.iter_mut() {
        file.attributes = attributes_of(alloc, &languages, place, file, &mut shared)?;
    }
    Ok(report)
}
