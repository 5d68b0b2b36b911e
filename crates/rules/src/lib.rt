// The rules of a lawful solid, tested over the rows of a capture.
#![tactic(auto)]

mod corners;
mod directions;
mod flats;
mod laws;
mod masks;
mod order;
mod planes;
mod ridges;
mod rising;

pub use laws::{flats_face_out, ridges_join_corners};
pub use order::{check, outward};
