//! Trees that pass calls on to another tree. Their contracts say how their answers may differ from those of the other tree.

mod bytewise_tree;
mod failing_call;
mod failing_file;
mod failing_tree;

pub use bytewise_tree::BytewiseTree;
pub use failing_call::FailingCall;
pub use failing_file::FailingFile;
pub use failing_tree::FailingTree;
