// Layers over one body: the body shifted, and the body mirrored.
#![tactic(auto)]

mod mirrored;
mod shifted;

pub use mirrored::Mirrored;
pub use shifted::Shifted;
