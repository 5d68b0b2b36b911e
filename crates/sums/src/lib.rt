// The sum of two bodies.
#![tactic(auto)]

mod listing;
mod sum;

pub use sum::Sum;
