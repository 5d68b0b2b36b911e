// Rule 3: corner rows are within reach and rise strictly.
ghost use Rattle.std.specs.Prelude.{◌≡◌, ◌&&◌, true, length, IfSome, is_some};
ghost use Rattle.vector.specs.Vectors.{precedes};
ghost use Rattle.rules.specs.Tests.{each_next};
ghost use Rattle.rules.specs.Rules.{in_reach, corner as corner_of};

use crate::directions::Corner;
use crate::rising::rise;
use vector::{REACH, Vector};

// Corner rows that are all within reach.
#[derive(Clone, Copy)]
pub(crate) struct Corners<'a> {
    pub(crate) rows: &'a [Vector],
    ghost reached: { in_reach rows.now ≡ true },
}

fn are_reached(rows: &[Vector]) -> bool
    ensures { result ≡ in_reach rows.now }
{
    rows.iter().all(|c| c.is_within(REACH))
}

impl<'a> Corners<'a> {
    // The rows, if all of them are within reach: an `if`, since the value can be made only where the test holds.
    pub(crate) fn reached(rows: &'a [Vector]) -> Option<Corners<'a>>
        ensures known { is_some result ≡ in_reach rows.now }
        ensures same { IfSome result (λ c. c.rows.now ≡ rows.now) }
    {
        if are_reached(rows) {
            Some(Corners { rows })
        } else {
            None
        }
    }

    pub(crate) fn len(self) -> usize
        ensures { result ≡ length self.entry.rows.now }
    {
        self.rows.len()
    }

    // Corner number k; the origin where there is none, as the rules have it, so that they need no option at each step.
    pub(crate) fn corner(self, k: usize) -> Corner
        ensures { result.at ≡ corner_of self.entry.rows.now k }
    {
        Corner {
            at: self.rows.get(k).copied().unwrap_or(Vector::ZERO),
        }
    }

    // The rows, if all of them are within reach and they rise strictly.
    pub(crate) fn rising(rows: &'a [Vector]) -> Option<Corners<'a>>
        ensures known { is_some result ≡ (in_reach rows.now && each_next precedes rows.now) }
        ensures same { IfSome result (λ c. c.rows.now ≡ rows.now) }
    {
        let corners = Corners::reached(rows)?;
        rise(rows).then_some(corners)
    }
}
