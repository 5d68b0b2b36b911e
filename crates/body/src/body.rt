// The four questions that each kind of body answers.
ghost use Rattle.std.specs.Prelude.{◌≡◌};
ghost use Rattle.refusal.specs.Numbers.{told};
ghost use Rattle.body.specs.Meaning.{Meaning, Sound};
ghost use Rattle.body.specs.Answers.{count_answer, corner_answer, extent_answer, farthest_answer};

use crate::bounds::DIRECTION;
use crate::extent::Extent;
use refusal::Refusal;
use vector::Vector;

// A body is unfit, or has a list of corners.
pub trait Body {
    // what the body is: unfit, or its corners
    ghost meaning: { Self → Meaning };

    // its corners are 1 to 1,024, all within reach
    ghost sound: { (s : Self) → Sound (meaning s) };

    // How many corners it has.
    fn count(&self) -> Result<usize, Refusal>
        ensures { told result ≡ count_answer (meaning self.now) };

    // Corner number i (a vertex).
    fn corner(&self, i: usize) -> Result<Vector, Refusal>
        ensures { told result ≡ corner_answer (meaning self.now) i };

    // The least and the greatest of each coordinate of its corners.
    fn extent(&self) -> Result<Extent, Refusal>
        ensures { told result ≡ extent_answer (meaning self.now) }
    {
        let count = self.count()?;
        let first = self.corner(0)?;
        let mut extent = Extent {
            least: first,
            greatest: first,
        };
        // by numbers: there is no slice to go over, and each question may refuse. A fold (`try_fold`) left its last goal open.
        for i in 1..count {
            extent = extent.widened(self.corner(i)?);
        }
        Ok(extent)
    }

    // The lowest-numbered corner with the greatest product with n (a support point).
    fn farthest(&self, n: Vector) -> Result<usize, Refusal>
        ensures { told result ≡ farthest_answer (meaning self.now) n }
    {
        let count = self.count()?;
        if !n.is_within(DIRECTION) {
            return Err(Refusal::OutOfRange);
        }
        let mut best = 0;
        let mut top = self.corner(0)?;
        // by numbers, as above; a fold would carry the pair of the best number and its corner
        for i in 1..count {
            let c = self.corner(i)?;
            if n.dot(top) < n.dot(c) {
                best = i;
                top = c;
            }
        }
        Ok(best)
    }
}
