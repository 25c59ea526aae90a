//! Trees of directories and files: directories of the operating system, and trees in memory.
//!
//! - `tree`: the trait `Tree`
//! - `entry`, `listing`: the entries of one directory, in the order of their names
//! - `read_fault`: why a directory was not listed, or a file was not opened
//! - `file_systems`: the file systems whose directories a `SysTree` enters
//! - `sys_tree`, `sys_names`, `sys_entries`, `sys_looks`: a directory of the system as a tree
//! - `system_call`: repeating system calls that a signal interrupts
//! - `list_parts`: the listing of a large directory, with the help of idle threads
//! - `idle_threads`: how many threads are idle
//! - `node`, `mem_tree`, `mem_file`: a tree in memory
//! - `laws`: theorems about the definitions that contracts cite
#![tactic(auto)]

mod entry;
mod file_systems;
mod idle_threads;
mod laws;
mod list_parts;
mod listing;
mod mem_file;
mod mem_tree;
mod node;
mod read_fault;
mod sys_entries;
mod sys_looks;
mod sys_names;
mod sys_tree;
mod system_call;
mod tree;

pub use entry::{Entry, Kind, OtherKind};
pub use file_systems::FileSystems;
pub use idle_threads::{Helpers, IdleThreads};
pub use laws::{the_limit_is_this_number, trees_of_memory_list_once};
pub use list_parts::{cut_names, list_in_parts};
pub use listing::{Listing, ListingFault, MAX_ENTRIES};
pub use mem_file::MemFile;
pub use mem_tree::MemTree;
pub use node::Node;
pub use read_fault::ReadFault;
pub use sys_tree::SysTree;
pub use tree::Tree;
