//! Cases of patterns.

use lc_glob::{Candidate, Pattern, PatternSet};
use lc_tests::cases::{Pushed, number_of, push_words, yes_no};
use lc_text::split_slash;
use std::alloc::{AllocError, Global};

pub(crate) fn push_answer(
    text: &mut String,
    alloc: Global,
    kind: &str,
    columns: &[&[u8]],
) -> Result<bool, AllocError> {
    match (kind, columns) {
        ("matches", [pattern, paths @ ..]) => push_matches(text, alloc, pattern, paths)?,
        ("last", [count, path, patterns @ ..]) => {
            push_last(text, alloc, number_of(count), path, patterns)?
        }
        ("pattern", [pattern]) => push_pattern(text, alloc, pattern)?,
        ("tests", [pattern, path]) => push_tests(text, alloc, pattern, path)?,
        ("above", [pattern, names @ ..]) => push_above(text, alloc, pattern, names)?,
        ("tests-above", [pattern, count]) => push_tests_above(
            text,
            alloc,
            pattern,
            number_of(count),
        )?,
        _ => return Ok(false),
    }
    Ok(true)
}

/// Appends whether a pattern matches each path. The path of a directory ends with a slash.
fn push_matches(text: &mut String, alloc: Global, pattern: &[u8], paths: &[&[u8]]) -> Pushed {
    let pattern = Pattern::read(alloc, pattern)?;
    let mut set = PatternSet::new(alloc);
    set.push(&pattern)?;
    for path in paths {
        let (path, is_dir) = split_slash(path);
        let found = pattern.matches(path, is_dir);
        let in_set = set.last_match(&Candidate::new(path), is_dir, set.len());
        let word = if in_set.is_some() == found {
            yes_no(found)
        } else {
            "otherwise in a set"
        };
        write!(text, "{word} ")?;
    }
    Ok(())
}

/// Appends the index of the last pattern that matches a path, among the first `count` patterns, or a hyphen if none does.
fn push_last(
    text: &mut String,
    alloc: Global,
    count: usize,
    path: &[u8],
    patterns: &[&[u8]],
) -> Pushed {
    let mut set = PatternSet::new(alloc);
    for pattern in patterns {
        set.push(&Pattern::read(alloc, pattern)?)?;
    }
    set.shrink_to_fit();
    let (path, is_dir) = split_slash(path);
    match set.last_match(&Candidate::new(path), is_dir, count.min(set.len())) {
        Some(index) => write!(text, "{index}"),
        None => text.push_str("-"),
    }
}

/// Appends what kind of pattern this is.
fn push_pattern(text: &mut String, alloc: Global, pattern: &[u8]) -> Pushed {
    let pattern = Pattern::read(alloc, pattern)?;
    push_words(
        text,
        &[
            (pattern.is_dead(), "dead "),
            (pattern.is_dir_only(), "directories "),
            (pattern.is_anchored(), "anchored "),
            (pattern.has_nested_wildcards(), "nested "),
        ],
    )
}

/// Appends whether a pattern matches a path, and the number of byte tests.
fn push_tests(text: &mut String, alloc: Global, pattern: &[u8], path: &[u8]) -> Pushed {
    let pattern = Pattern::read(alloc, pattern)?;
    let (found, tests) = pattern.matches_counted(path, false);
    write!(text, "{} {tests}", yes_no(found))?;
    let measured = Candidate::for_patterns(path, 64);
    if pattern.matches_candidate(&measured, false) != found {
        text.push_str(", otherwise with many patterns")?;
    }
    Ok(())
}

/// Appends for each name on the way down whether a pattern matches the directory whose path ends with the name.
fn push_above(text: &mut String, alloc: Global, pattern: &[u8], names: &[&[u8]]) -> Pushed {
    let pattern = Pattern::read(alloc, pattern)?;
    let mut set = PatternSet::new(alloc);
    set.push(&Pattern::read(alloc, b"**/b")?)?;
    let index = set.len();
    set.push(&pattern)?;
    let mut flags = vec![in alloc; true; names.len()]?;
    pattern.match_directories(names, &mut flags);
    let mut in_set = vec![in alloc; true; names.len()]?;
    set.match_directories(index, names, &mut in_set);
    for flag in flags.iter() {
        write!(text, "{} ", yes_no(*flag))?;
    }
    if in_set.as_slice() != flags.as_slice() || set.is_dir_only(index) != pattern.is_dir_only() {
        text.push_str("otherwise in a set")?;
    }
    Ok(())
}

/// Appends the number of byte tests for this many nested directories that have the name `a`.
fn push_tests_above(text: &mut String, alloc: Global, pattern: &[u8], count: usize) -> Pushed {
    let name: &[u8] = b"a";
    let names = vec![in alloc; name; count]?;
    let mut flags = vec![in alloc; false; names.len()]?;
    let tests = Pattern::read(alloc, pattern)?.match_directories_counted(&names, &mut flags);
    write!(text, "{tests}")
}
