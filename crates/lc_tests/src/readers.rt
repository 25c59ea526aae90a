//! Readers whose contracts determine what they return.

mod bytewise;
mod counted;
mod endless;
mod failing;

pub use bytewise::Bytewise;
pub use counted::Counted;
pub use endless::Endless;
pub use failing::Failing;
