// Rule 5: each flat is a plane with all its corners in it and every other below it.
ghost use Rattle.std.specs.Prelude.{◌≡◌, length};
ghost use Rattle.std.specs.List.{list_all};
ghost use Rattle.rules.specs.Tests.{some};
ghost use Rattle.rules.specs.Rules.{faces, is_left_out, normal as normal_of, is_outward as outward_is, is_flat as flat_is, outward as outward_of};

use crate::corners::Corners;
use crate::directions::Direction;
use crate::masks::{lies, next};

impl<'a> Corners<'a> {
    // A direction at right angles to the flat's three lowest corners.
    fn normal(self, mask: u32) -> Direction
        ensures { result.along ≡ normal_of self.entry.rows.now mask }
    {
        let p = next(0, mask);
        let q = next(p + 1, mask);
        let s = next(q + 1, mask);
        self.corner(p).across(self.corner(q), self.corner(s))
    }

    // Whether corner k is level with the flat where it lies in it, and below it elsewhere.
    fn faces(self, mask: u32, n: Direction, k: usize) -> bool
        ensures { result ≡ faces self.entry.rows.now mask n.along k }
    {
        let level = n.dot(self.corner(next(0, mask)));
        if lies(k, mask) {
            n.dot(self.corner(k)) == level
        } else {
            n.dot(self.corner(k)) < level
        }
    }

    // Whether n is the flat's outward direction.
    fn is_outward(self, mask: u32, n: Direction) -> bool
        ensures { result ≡ outward_is self.entry.rows.now mask n.along }
    {
        (0..self.len()).all(|k| self.faces(mask, n, k))
    }

    // Whether a corner is left out of the flat.
    fn leaves_out(self, mask: u32) -> bool
        ensures { result ≡ some (length self.entry.rows.now) (is_left_out mask) }
    {
        (0..self.len()).any(|k| !lies(k, mask))
    }

    // Whether the mask is a flat: a plane, which leaves a corner out.
    fn is_flat(self, mask: u32) -> bool
        ensures { result ≡ flat_is self.entry.rows.now mask }
    {
        let n = self.normal(mask);
        !n.is_zero()
            && (self.is_outward(mask, n) || self.is_outward(mask, n.opposite()))
            && self.leaves_out(mask)
    }

    pub(crate) fn are_flat(self, flats: &[u32]) -> bool
        ensures { result ≡ list_all (flat_is self.entry.rows.now) flats.now }
    {
        flats.iter().all(|f| self.is_flat(*f))
    }

    // The outward direction of a flat (outer normal of the facet).
    pub(crate) fn outward(self, mask: u32) -> Direction
        ensures { result.along ≡ outward_of self.entry.rows.now mask }
    {
        let n = self.normal(mask);
        if self.is_outward(mask, n) {
            n
        } else {
            n.opposite()
        }
    }
}
