//! Tests of counting the files of a directory with idle threads, and of rule files that fail or are too long.

mod in_parts;
mod rule_text;
