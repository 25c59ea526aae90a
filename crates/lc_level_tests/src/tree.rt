//! Tests of trees of the system, and of idle threads that help with a listing.

mod checks;
mod idle_threads;
mod list_parts;
mod system;
mod system_trees;
