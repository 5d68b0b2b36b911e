// Corners within reach and the directions that they make: products are exact.
ghost use Rattle.std.specs.Prelude.{◌≡◌, true};
ghost use Rattle.vector.specs.Vectors.{◌·◌, ◌⨯◌, ◌-ᵛ◌, negᵛ, within, is_zero};

use vector::Vector;

// A corner (a vertex) within reach.
#[derive(Clone, Copy)]
pub(crate) struct Corner {
    pub(crate) at: Vector,
    ghost reached: { within 10000 at ≡ true },
}

// A direction that three corners can make (a normal).
#[derive(Clone, Copy)]
pub(crate) struct Direction {
    pub(crate) along: Vector,
    ghost bounded: { within 800000000 along ≡ true },
}

impl Corner {
    // The cross product of q − self and s − self: a direction at right angles to the plane of three corners.
    pub(crate) fn across(self, q: Corner, s: Corner) -> Direction
        ensures { result.along ≡ (q.at -ᵛ self.at) ⨯ (s.at -ᵛ self.at) }
    {
        Direction {
            along: q.at.minus(self.at).cross(s.at.minus(self.at)),
        }
    }
}

impl Direction {
    pub(crate) fn is_zero(self) -> bool
        ensures { result ≡ is_zero self.along }
    {
        self.along.is_zero()
    }

    // The product with a corner.
    pub(crate) fn dot(self, c: Corner) -> i64
        ensures { result ≡ self.along · c.at }
    {
        self.along.dot(c.at)
    }

    pub(crate) fn opposite(self) -> Direction
        ensures { result.along ≡ negᵛ self.along }
    {
        Direction {
            along: self.along.opposite(),
        }
    }
}
