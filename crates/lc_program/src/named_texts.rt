//! The texts of the files that a command line names, or of the input.

ghost use Rattle.lc_program.specs.NamedTexts.{LoadsText, ReadsNamed, ReadsText};

use crate::system::System;
use lc_io::{Source, WholeFault, new_buffer, read_whole};
use lc_tree::ReadFault;
use std::alloc::Global;

/// Reads a text to its end, or up to the first byte past `limit`.
fn read_text<S: Source>(alloc: Global, limit: u32, text: &mut S) -> Result<Vec<u8>, WholeFault>
    ensures { ReadsText limit S.may_give text.old result text.new }
{
    let Ok(mut buffer) = new_buffer(alloc) else {
        return Err(WholeFault::Memory);
    };
    let mut bytes = Vec::new(alloc);
    match read_whole(&mut buffer, &mut bytes, text, limit as usize) {
        Ok(()) => Ok(bytes),
        Err(fault) => Err(fault),
    }
}

/// Reads the text of the file with this name.
pub(crate) fn text_in_file<Y: System>(
    alloc: Global,
    system: &Y,
    limit: u32,
    name: &str,
) -> Result<Vec<u8>, WholeFault>
    ensures { LoadsText limit (Y.holds system.now name.now) result }
{
    let mut file = match system.open_file(alloc, name) {
        Ok(file) => file,
        Err(ReadFault::Memory) => return Err(WholeFault::Memory),
        Err(_) => return Err(WholeFault::Read),
    };
    read_text(alloc, limit, &mut file)
}

/// Reads the text of the file with this name, or of the input for `-`, if it has at most `limit` bytes.
pub(crate) fn named_text<Y: System, S: Source>(
    alloc: Global,
    system: &Y,
    limit: u32,
    name: &str,
    input: &mut S,
) -> Result<Vec<u8>, WholeFault>
    ensures { ReadsNamed limit S.may_give (Y.holds system.now) name.now input.old result input.new }
{
    if name == "-" {
        return read_text(alloc, limit, input);
    }
    text_in_file(alloc, system, limit, name)
}
