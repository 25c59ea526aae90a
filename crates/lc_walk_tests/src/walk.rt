//! Tests of extensions, tallies and walks, which also show that each call can succeed. Three modules help the other ones: `walked` runs
//! walks, `told` makes the text of reports, and `drawn` makes trees from a seed.

mod drawn;
mod failures;
mod filters;
mod flat;
mod gate;
mod left_out;
mod limits;
mod named;
mod names;
mod narrowed;
mod no_posts;
mod rows;
mod stress;
mod tallies;
mod told;
mod walked;
mod walks;
