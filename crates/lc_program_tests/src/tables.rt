//! Tests of runs that print tables: given trees have the expected tables, and a run reports which call to its tree failed. The tests also
//! check what no contract states: a run succeeds if no allocation fails.

mod asking;
mod failing_calls;
mod trees;
