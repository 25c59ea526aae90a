//! The assignments of attribute lines.

use crate::states::State;

/// The name of an attribute or a macro, and the state that a line assigns to it. Both borrow from the line, except for the macro `binary`.
#[derive(Clone, Copy)]
pub(crate) struct Assignment<'a> {
    pub(crate) name: &'a [u8],
    pub(crate) state: State<'a>,
}
