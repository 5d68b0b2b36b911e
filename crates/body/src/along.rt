// A question that every sided body can answer by its flats and its laws, whatever its kind.
ghost use Rattle.std.specs.Prelude.{◌≡◌, true};
ghost use Rattle.refusal.specs.Numbers.{told};
ghost use Rattle.vector.specs.Vectors.{within};
ghost use Rattle.body.specs.Along.{along, along_answer, Says};

use crate::bounds::DIRECTION;
use crate::sided::Sided;
use refusal::Refusal;
use vector::Vector;

// Whether n is a positive multiple of f.
fn is_along(n: Vector, f: Vector) -> bool
    requires n { within 800000000 n ≡ true }
    requires f { within 800000000 f ≡ true }
    ensures { result ≡ along n f }
{
    f.cross(n).is_zero() && f.dot(n) > 0
}

// The lowest-numbered flat of which n is a positive multiple. With none, the farthest corners along n are on one line.
pub fn flat_along<B: Sided>(body: &B, n: Vector) -> Result<Option<usize>, Refusal>
    ensures answer { told result ≡ along_answer (B.Body.meaning body.now) (B.Sided.sides body.now) n }
    ensures says { Says (B.Body.meaning body.now) (B.Sided.sides body.now) n (told result) }
{
    let count = body.flat_count()?;
    if !n.is_within(DIRECTION) {
        return Err(Refusal::OutOfRange);
    }
    // by numbers: there is no slice to search, and each question may refuse, so a search would give options of results
    for i in 0..count {
        if is_along(n, body.flat(i)?) {
            return Ok(Some(i));
        }
    }
    Ok(None)
}
