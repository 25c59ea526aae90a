//! Refuses a count in which a directory would be counted twice.

ghost use Rattle.std.specs.Prelude.{◌≡◌, ◌⊎◌, ◌++◌, ℕ, List, Option, map, string_bytes, IfErr, IfOk, IsOk, OnOk};
ghost use Rattle.std.specs.List.{AllZip};
ghost use Rattle.std.specs.List.Sorted.{IsPermutation, IsSortedByKey};
ghost use Rattle.lc_program.specs.Nested.{AreApart, AreNested, NoneHolds, OneHolds, Place as PlaceModel, holds, inner_line, nested_line};
ghost use Rattle.lc_program.specs.Nested.{one_line, place_if, places_of, with_slash};
ghost use Rattle.lc_program.specs.declared.cause.Cause.TheVariants.{Memory};
ghost use Rattle.lc_tree.specs.ByteOrder.{bytes_cmp};

use crate::cause::Cause;
use crate::system::System;
use lc_text::push_visible;
use std::alloc::{AllocError, Global};
use std::marker::Model;

/// A counted directory: its name, and its canonical path followed by a slash.
#[derive(Drop)]
struct Place<'w> {
    name: &'w str,
    path: Vec<u8>,
}

impl<'w> Model for Place<'w> {
    ghost use Rattle.lc_program.specs.Nested.{Place};

    ghost Value = { Place };

    ghost view = { λ p. record { name = p.name.now; path = p.path.items } };
}

/// Copies a path, with a slash at its end.
fn with_slash(alloc: Global, path: &str) -> Result<Vec<u8>, AllocError>
    ensures { IfOk result (λ slashed. slashed.items ≡ with_slash path.now) }
{
    let mut slashed = path.as_bytes().to_vec(alloc)?;
    if !path.as_bytes().ends_with(b"/") {
        slashed.push(b'/')?;
    }
    Ok(slashed)
}

/// Appends a directory with its canonical path, if the system gives one.
fn push_place<'w, Y: System>(
    alloc: Global,
    system: &Y,
    name: &'w str,
    places: &mut Vec<Place<'w>>,
) -> Result<(), AllocError>
    ensures { OnOk result ((path : Option (List ℕ)) × Y.stands system.now name.now path
        × (places.new.items ≡ places.old.items ++ place_if name.now path)) }
{
    let Some(path) = system.canonical(alloc, name)? else {
        return Ok(());
    };
    let path = with_slash(alloc, &path)?;
    places.push(Place { name, path })?;
    Ok(())
}

/// Returns the directories for which the system gives a canonical path, each with this path.
fn places_of<'w, Y: System>(
    alloc: Global,
    system: &Y,
    names: &[&'w str],
) -> Result<Vec<Place<'w>>, AllocError>
    ensures { IfOk result (λ places. (paths : List (Option (List ℕ)))
        × AllZip (Y.stands system.now) (map (λ name. name.now) names.now) paths
        × (places.items ≡ places_of (map (λ name. name.now) names.now) paths)) }
{
    let mut places = Vec::with_capacity(alloc, names.len())?;
    for name in names {
        push_place(alloc, system, name, &mut places)?;
    }
    Ok(places)
}

/// Sorts directories by their canonical paths. The directories that lie in another directory then come right behind that directory.
fn sort(places: &mut Vec<Place<'_>>)
    ensures same { IsPermutation places.old.items places.new.items }
    ensures order { IsSortedByKey (λ (p : PlaceModel). p.path) bytes_cmp places.new.items }
{
    places.sort_unstable_by(|a, b| a.path.as_slice().cmp(&b.path.as_slice()));
}

/// Returns whether both are the same directory, or `inner` lies in `outer`.
fn holds(outer: &Place<'_>, inner: &Place<'_>) -> bool
    ensures { result ≡ holds outer.now inner.now }
{
    inner.path.starts_with(&outer.path)
}

/// Makes the line about two names of one directory.
fn one_line(alloc: Global, first: &str, second: &str) -> Result<String, AllocError>
    ensures { IfOk result (λ line. string_bytes line ≡ one_line first.now second.now) }
{
    let mut line = String::from_str(alloc, "lc: ")?;
    push_visible(&mut line, first.as_bytes())?;
    line.push_str(" and ")?;
    push_visible(&mut line, second.as_bytes())?;
    line.push_str(" are one directory\n")?;
    Ok(line)
}

/// Makes the line about a directory that lies in another.
fn inner_line(alloc: Global, inner: &str, outer: &str) -> Result<String, AllocError>
    ensures { IfOk result (λ line. string_bytes line ≡ inner_line inner.now outer.now) }
{
    let mut line = String::from_str(alloc, "lc: ")?;
    push_visible(&mut line, inner.as_bytes())?;
    line.push_str(" lies in ")?;
    push_visible(&mut line, outer.as_bytes())?;
    line.push_str("\n")?;
    Ok(line)
}

/// Makes the line about two directories, of which `outer` is the same as `inner` or holds it.
fn nested_line(alloc: Global, outer: &Place<'_>, inner: &Place<'_>) -> Result<String, AllocError>
    ensures { IfOk result (λ line. string_bytes line ≡ nested_line outer.now inner.now) }
{
    if outer.path == inner.path {
        one_line(alloc, outer.name, inner.name)
    } else {
        inner_line(alloc, inner.name, outer.name)
    }
}

/// Returns an error if one directory is the same as another, or is inside another. The directories must be sorted by their canonical paths.
fn refuse_nested(alloc: Global, places: &[Place<'_>]) -> Result<(), Cause>
    requires { IsSortedByKey (λ (p : PlaceModel). p.path) bytes_cmp places.now }
    ensures apart { IsOk result → NoneHolds places.now }
    ensures nested { IfErr result (λ cause. OneHolds places.now cause ⊎ (cause ≡ Memory)) }
{
    let mut rest = places;
    'places: while let [outer, inner, ..] = rest {
        if holds(outer, inner) {
            let line = nested_line(alloc, outer, inner)?;
            return Err(Cause::Nested(line));
        }
        rest = &rest[1..];
    }
    Ok(())
}

/// Returns an error if two of the directories in `names` are the same directory, or if one lies in another. A directory without a
/// canonical path is not compared.
pub(crate) fn refuse_unless_apart<Y: System>(
    alloc: Global,
    system: &Y,
    names: &[&str],
) -> Result<(), Cause>
    ensures apart { IsOk result → AreApart (Y.stands system.now) (map (λ name. name.now) names.now) }
    ensures nested { IfErr result (λ cause. AreNested (Y.stands system.now) (map (λ name. name.now) names.now) cause ⊎ (cause ≡ Memory)) }
{
    if names.len() < 2 {
        return Ok(());
    }
    let mut places = places_of(alloc, system, names)?;
    sort(&mut places);
    refuse_nested(alloc, &places)
}
