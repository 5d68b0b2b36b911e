// A body with each corner negated (its reflection in the origin).
ghost use Rattle.layers.specs.Layers.{mirror_meaning, mirror_sides};
ghost use Rattle.layers.specs.Sound.{mirror_sound, mirror_bounded, mirror_lawful};

use body::{Body, Extent, Sided};
use refusal::Refusal;
use vector::Vector;

// Unfit where the body is.
#[derive(Drop)]
pub struct Mirrored<B> {
    pub body: B,
}

impl<B: Body> Body for Mirrored<B> {
    ghost meaning = { λ s. mirror_meaning (B.Body.meaning s.body) };

    ghost sound = { λ s. mirror_sound (B.Body.meaning s.body) (B.Body.sound s.body) };

    fn count(&self) -> Result<usize, Refusal> {
        self.body.count()
    }

    fn corner(&self, i: usize) -> Result<Vector, Refusal> {
        Ok(self.body.corner(i)?.opposite())
    }

    fn extent(&self) -> Result<Extent, Refusal> {
        Ok(self.body.extent()?.mirrored())
    }

    // The product of n and a negated corner is that of the opposite of n and the corner.
    fn farthest(&self, n: Vector) -> Result<usize, Refusal> {
        self.body.farthest(n.opposite())
    }
}

#[tactic(auto, using(crate::specs::Sound::mirror_lawful))]
impl<B: Sided> Sided for Mirrored<B> {
    ghost sides = { λ s. mirror_sides (B.Sided.sides s.body) };

    ghost bounded = { λ s. mirror_bounded (B.Sided.sides s.body) (B.Sided.bounded s.body) };

    ghost lawful = { λ s. mirror_lawful (B.Body.meaning s.body) (B.Sided.sides s.body) (B.Sided.lawful s.body) };

    fn flat_count(&self) -> Result<usize, Refusal> {
        self.body.flat_count()
    }

    fn flat(&self, i: usize) -> Result<Vector, Refusal> {
        Ok(self.body.flat(i)?.opposite())
    }

    fn ridge_count(&self) -> Result<usize, Refusal> {
        self.body.ridge_count()
    }

    fn ridge(&self, i: usize) -> Result<Vector, Refusal> {
        self.body.ridge(i)
    }
}
