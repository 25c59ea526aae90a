//! Tests of facts that no contract states: if there is memory, a run of the program succeeds and writes the expected text. Transcripts of
//! the built program, `tests/program/*.console`, show most runs. The runs here need a system that fails in a certain way, or refused
//! memory.

mod asking;
mod calls;
mod commands;
mod counts;
mod hints;
mod mem_system;
mod reasons;
mod reports;
