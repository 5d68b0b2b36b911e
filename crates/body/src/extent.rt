// The extent of some corners: the least and the greatest of each coordinate.
ghost use Rattle.std.specs.Prelude.{◌≡◌};
ghost use Rattle.refusal.specs.Numbers.{told};
ghost use Rattle.vector.specs.Vectors.{◌+ᵛ◌, negᵛ};
ghost use Rattle.vector.specs.Wrapped.{wrappedᵛ};
ghost use Rattle.body.specs.Extents.{extent as made, widened as wider};
ghost use Rattle.body.specs.Answers.{reached_answer};

use refusal::Refusal;
use vector::{REACH, Vector};

// The least and the greatest of each coordinate of some corners (a bounding box).
#[derive(Clone, Copy, PartialEq, Eq, Hash, Debug)]
pub struct Extent {
    pub least: Vector,
    pub greatest: Vector,
}

impl Extent {
    // The extent of one corner more.
    pub fn widened(self, c: Vector) -> Extent
        ensures { result ≡ wider self c }
    {
        Extent {
            least: self.least.least(c),
            greatest: self.greatest.greatest(c),
        }
    }

    // The extent of the corners with v added, each component modulo 2^64.
    pub fn shifted(self, v: Vector) -> Extent
        ensures { result ≡ made (wrappedᵛ (self.least +ᵛ v)) (wrappedᵛ (self.greatest +ᵛ v)) }
    {
        Extent {
            least: self.least.plus(v),
            greatest: self.greatest.plus(v),
        }
    }

    // The extent of the corners turned about the origin, each component modulo 2^64.
    pub fn mirrored(self) -> Extent
        ensures { result ≡ made (wrappedᵛ (negᵛ self.greatest)) (wrappedᵛ (negᵛ self.least)) }
    {
        Extent {
            least: self.greatest.opposite(),
            greatest: self.least.opposite(),
        }
    }

    // The extent of the sums of corners, each component modulo 2^64.
    pub fn plus(self, e: Extent) -> Extent
        ensures { result ≡ made (wrappedᵛ (self.least +ᵛ e.least)) (wrappedᵛ (self.greatest +ᵛ e.greatest)) }
    {
        Extent {
            least: self.least.plus(e.least),
            greatest: self.greatest.plus(e.greatest),
        }
    }

    // Itself if all of it is within reach; what has this extent is unfit otherwise.
    pub fn within_reach(self) -> Result<Extent, Refusal>
        ensures { told result ≡ reached_answer self }
    {
        if self.least.is_within(REACH) && self.greatest.is_within(REACH) {
            Ok(self)
        } else {
            Err(Refusal::Unfit)
        }
    }
}
