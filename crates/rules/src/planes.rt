// Rule 6: three corners not on one line, whose plane has no corner on one of its sides, lie together in a listed flat.
ghost use Rattle.std.specs.Prelude.{◌≡◌, length, int_lt};
ghost use Rattle.vector.specs.Vectors.{◌·◌};
ghost use Rattle.std.specs.List.{list_any};
ghost use Rattle.rules.specs.Tests.{every, some};
ghost use Rattle.rules.specs.Rules.{corner as corner_of, is_below, is_above, has_three, triple_listed, pair_listed, corner_listed};

use crate::corners::Corners;
use crate::directions::{Corner, Direction};
use crate::masks::lies;

// Whether a flat has three corners.
fn has_three(f: u32, i: usize, j: usize, l: usize) -> bool
    ensures { result ≡ has_three i j l f }
{
    lies(i, f) && lies(j, f) && lies(l, f)
}

// Whether three corners lie together in a flat.
fn are_together(flats: &[u32], i: usize, j: usize, l: usize) -> bool
    ensures { result ≡ list_any (has_three i j l) flats.now }
{
    flats.iter().any(|f| has_three(*f, i, j, l))
}

impl<'a> Corners<'a> {
    // Whether corner k lies below a plane, whose corners have the product `level` with n.
    fn is_below(self, n: Direction, level: i64, k: usize) -> bool
        ensures { result ≡ int_lt (n.along · corner_of self.entry.rows.now k) level }
    {
        n.dot(self.corner(k)) < level
    }

    // Whether a corner lies below the plane through p.
    fn has_below(self, n: Direction, p: Corner) -> bool
        ensures { result ≡ some (length self.entry.rows.now) (is_below self.entry.rows.now n.along p.at) }
    {
        let level = n.dot(p);
        (0..self.len()).any(|k| self.is_below(n, level, k))
    }

    // Whether corner k lies above a plane.
    fn is_above(self, n: Direction, level: i64, k: usize) -> bool
        ensures { result ≡ int_lt level (n.along · corner_of self.entry.rows.now k) }
    {
        level < n.dot(self.corner(k))
    }

    // Whether a corner lies above the plane through p: a search of its own, since below it in the opposite direction costs more.
    fn has_above(self, n: Direction, p: Corner) -> bool
        ensures { result ≡ some (length self.entry.rows.now) (is_above self.entry.rows.now n.along p.at) }
    {
        let level = n.dot(p);
        (0..self.len()).any(|k| self.is_above(n, level, k))
    }

    fn triple_listed(self, flats: &[u32], l: usize, j: usize, i: usize) -> bool
        ensures { result ≡ triple_listed self.entry.rows.now flats.now l j i }
    {
        let p = self.corner(i);
        let n = p.across(self.corner(j), self.corner(l));
        n.is_zero()
            || (self.has_below(n, p) && self.has_above(n, p))
            || are_together(flats, i, j, l)
    }

    fn pair_listed(self, flats: &[u32], l: usize, j: usize) -> bool
        ensures { result ≡ pair_listed self.entry.rows.now flats.now l j }
    {
        (0..j).all(|i| self.triple_listed(flats, l, j, i))
    }

    fn corner_listed(self, flats: &[u32], l: usize) -> bool
        ensures { result ≡ corner_listed self.entry.rows.now flats.now l }
    {
        (0..l).all(|j| self.pair_listed(flats, l, j))
    }

    // Whether no flat is missing.
    pub(crate) fn are_enclosed(self, flats: &[u32]) -> bool
        ensures { result ≡ every (length self.entry.rows.now) (corner_listed self.entry.rows.now flats.now) }
    {
        (0..self.len()).all(|l| self.corner_listed(flats, l))
    }
}
