//! Tests of counts of bytes, however they are cut, and of readers that fail or never end.

mod bodies;
mod pieces;
mod readers;
mod whole_readers;
