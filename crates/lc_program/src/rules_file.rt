//! The rules of a file that the command line names.

ghost use Rattle.lc_program.specs.Filters.{LoadsFile};

use crate::system::System;
use lc_level::{RuleText, RulesFileFault, read_rule_text};
use lc_tree::ReadFault;
use std::alloc::Global;

/// Reads the rule file with this name.
pub(crate) fn rule_text_of_file<Y: System>(
    alloc: Global,
    system: &Y,
    name: &str,
) -> Result<RuleText, RulesFileFault>
    ensures { LoadsFile (Y.holds system.now name.now) result }
{
    let mut file = match system.open_file(alloc, name) {
        Ok(file) => file,
        Err(ReadFault::Memory) => return Err(RulesFileFault::Memory),
        Err(_) => return Err(RulesFileFault::Read),
    };
    read_rule_text(alloc, &mut file)
}
