//! Readers and writers of bytes.
//!
//! - `source`: the trait of readers
//! - `std_source`: readers of std that implement this trait
//! - `buffer`: a buffer for reads
//! - `whole`: reading all bytes of a reader, up to a limit
//! - `sink`: the trait of writers, and writers of std that implement it
//! - `printing`: writing a whole text
//! - `blocks`: writing a text while it is made
//! - `laws`: theorems about the definitions that the contracts cite
#![tactic(auto)]

mod blocks;
mod buffer;
mod laws;
mod printing;
mod sink;
mod source;
mod std_source;
mod whole;

pub use blocks::{BLOCK_SIZE, Block};
pub use buffer::{BUFFER_LEN, new_buffer};
pub use laws::{a_slice_gives_its_bytes, a_vector_takes_the_text, the_buffer_has_this_length};
pub use printing::{PrintFault, print};
pub use sink::{Sink, StdSink};
pub use source::{Failed, Source};
pub use std_source::{MAX_TRIES, StdSource};
pub use whole::{WholeFault, read_whole};
