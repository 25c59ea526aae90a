//! Tests that a walk notes, for each attribute of a list, whether an attribute file of the tree contains the attribute's name.

ghost use Rattle.lc_walk.specs.WalkOptions.{AreWithinLimits};

use crate::walk::walked::{Board, NO_LISTS, report_of, walk_options};
use lc_level::{Filters, NamedAttributes};
use lc_tests::{push_name, tree};
use lc_tree::MemTree;
use lc_walk::Options;
use std::process::Abort;
use std::test::Fail;

const WORDS: &[&str] = &["generated", "vendored=true"];

/// Returns the options of a walk that notes in `named` which of its attributes occur in the attribute files of the tree.
fn noting<'o>(rt: &impl Abort, filters: &'o Filters<'_>, named: &'o NamedAttributes) -> Options<'o>
    ensures { AreWithinLimits result }
{
    Options {
        named: Some(named),
        ..walk_options(rt, 2, 3, NO_LISTS, filters)
    }
}

#[test]
fn attribute_files_of_a_walk_name_attributes(rt: HostRuntime) -> Result<(), Fail> {
    let alloc = rt.alloc();
    let node = tree(
        alloc,
        "a/{ .gitattributes=*.c_vendored=true; m.c } generated",
    )?;
    let named = NamedAttributes::new(alloc, WORDS)?;
    let filters = Filters::none(alloc);
    let options = noting(&rt, &filters, &named);
    let answer = Board::Words.walk(&rt, alloc, &MemTree::new(&node), &options);
    report_of(&rt, answer)?;
    let mut unnamed = String::new(alloc);
    for attribute in &named.unnamed(alloc)? {
        push_name(&mut unnamed, attribute)?;
    }
    assert_eq!(rt; unnamed.as_str(), "generated");
    Ok(())
}
