// A body with a vector added to each corner (a translate).
ghost use Rattle.std.specs.Prelude.{◌≡◌, ◌≢◌, IfOk, IfErr, OnOk, OnErr};
ghost use Rattle.body.specs.Meaning.{unfit};
ghost use Rattle.layers.specs.Layers.{shift_meaning};
ghost use Rattle.layers.specs.Sound.{shift_sound, shift_lawful};

use body::{Body, Extent, SHIFT, Sided};
use refusal::Refusal;
use vector::Vector;

// Unfit where the body is, where a component of the shift is beyond ±20,000, or where a corner would be beyond reach.
#[derive(Drop)]
pub struct Shifted<B> {
    pub body: B,
    pub by: Vector,
}

impl<B: Body> Shifted<B> {
    // The body, where the shifted body is fit.
    fn fit(&self) -> Result<&B, Refusal>
        ensures body { IfOk result (λ b. b.now ≡ self.now.body) }
        ensures fit { OnOk result (shift_meaning self.now.by (B.Body.meaning self.now.body) ≢ unfit) }
        ensures unfit { OnErr result (shift_meaning self.now.by (B.Body.meaning self.now.body) ≡ unfit) }
        ensures refusal { IfErr result (λ e. e ≡ Refusal.Unfit) }
    {
        self.extent()?;
        Ok(&self.body)
    }
}

impl<B: Body> Body for Shifted<B> {
    ghost meaning = { λ s. shift_meaning s.by (B.Body.meaning s.body) };

    ghost sound = { λ s. shift_sound s.by (B.Body.meaning s.body) };

    fn count(&self) -> Result<usize, Refusal> {
        self.fit()?.count()
    }

    fn corner(&self, i: usize) -> Result<Vector, Refusal> {
        Ok(self.fit()?.corner(i)?.plus(self.by))
    }

    fn extent(&self) -> Result<Extent, Refusal> {
        let extent = self.body.extent()?;
        if !self.by.is_within(SHIFT) {
            return Err(Refusal::Unfit);
        }
        extent.shifted(self.by).within_reach()
    }

    // Every product changes by the same number, so the farthest corner is that of the body.
    fn farthest(&self, n: Vector) -> Result<usize, Refusal> {
        self.fit()?.farthest(n)
    }
}

#[tactic(auto, using(crate::specs::Sound::shift_lawful))]
impl<B: Sided> Sided for Shifted<B> {
    ghost sides = { λ s. B.Sided.sides s.body };

    ghost bounded = { λ s. B.Sided.bounded s.body };

    ghost lawful = { λ s. shift_lawful s.by (B.Body.meaning s.body) (B.Sided.sides s.body) (B.Sided.lawful s.body) };

    fn flat_count(&self) -> Result<usize, Refusal> {
        self.fit()?.flat_count()
    }

    fn flat(&self, i: usize) -> Result<Vector, Refusal> {
        self.fit()?.flat(i)
    }

    fn ridge_count(&self) -> Result<usize, Refusal> {
        self.fit()?.ridge_count()
    }

    fn ridge(&self, i: usize) -> Result<Vector, Refusal> {
        self.fit()?.ridge(i)
    }
}
