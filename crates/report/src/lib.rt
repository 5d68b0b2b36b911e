// What is said of a capture file, a line each.
#![tactic(auto)]

mod accepted;
mod lines;

pub use accepted::Accepted;
pub use lines::{examine, line, unreadable, usage};
