//! Counting the lines, blank lines, bytes and line ends of a reader's bytes, however the reads cut the bytes into pieces.
//!
//! - `line_count`: the counts of lines, blank lines and bytes, and the kind of the line ends
//! - `census`: counting the lines in bytes that come piece by piece
//! - `counting`: counting the lines in all bytes of a reader
//! - `scan`: the state of a scan: its counts so far, and what it must know of earlier bytes
//! - `scalar`: scanning bytes one at a time
//! - `simd`: scanning bytes in vectors of 64 bytes, with the same contract as `scalar`
//! - `laws`: theorems about the definitions that the contracts cite
//!
//! The items of `scan`, `scalar` and `simd` are public only for tests and benchmarks.
#![tactic(auto)]

mod census;
mod counting;
mod laws;
mod line_count;
mod scalar;
mod scan;
mod simd;

pub use census::Census;
pub use counting::{CensusFault, MAX_TURNS, count, count_source, count_within};
pub use laws::{bytes_have_one_cutting, the_limit_is_this_number};
pub use line_count::{Count, Eol};
pub use scalar::scan_scalar;
pub use scan::Scan;
pub use simd::scan_simd;
