// Solids: convex bodies from captures. A value of the type keeps the rules 3 to 8.
#![tactic(auto)]

mod ask;
mod exchange;
mod hold;
mod laws;

pub use exchange::copy;
pub use hold::Solid;
pub use laws::{examples_hold, reading_is_exact};
