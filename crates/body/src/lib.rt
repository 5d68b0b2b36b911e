// Bodies: what every kind of body answers, whatever its kind.
#![tactic(auto)]

mod along;
mod body;
mod bounds;
mod entries;
mod extent;
mod laws;
mod lent;
mod sided;

pub use along::flat_along;
pub use body::Body;
pub use bounds::{DIRECTION, MOST_CORNERS, MOST_FLATS, MOST_RIDGES, SHIFT};
pub use entries::entry;
pub use extent::Extent;
pub use laws::{extent_is_tight, farthest_is_lowest};
pub use sided::Sided;
pub use vector::REACH;
