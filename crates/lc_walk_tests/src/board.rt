//! Tests of what the calls on a board return when several workers make them. The tests also show that each call can succeed.

mod fill;
mod limits;
mod mismatch;
mod order;
mod plain_scripts;
mod refused;
mod schedules;
mod script;
mod shared_scripts;
