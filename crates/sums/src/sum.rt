// The sum of two bodies: each point of the first plus each point of the second (the Minkowski sum).
ghost use Rattle.std.specs.Prelude.{◌≡◌, Ok as Told};
ghost use Rattle.refusal.specs.Numbers.{told};
ghost use Rattle.body.specs.Sides.{Laws};
ghost use Rattle.sums.specs.Sums.{sum_meaning, sum_sides, listing_answer, product_answer};
ghost use Rattle.sums.specs.Sound.{sum_sound, sum_bounded, sum_lawful};

use crate::listing::{Listing, counts_of};
use body::{Body, Extent, MOST_CORNERS, Sided};
use refusal::Refusal;
use vector::Vector;

// Unfit where a part is, or where its corners would be more than 1,024 or beyond reach.
#[derive(Drop)]
pub struct Sum<P, Q> {
    pub first: P,
    pub second: Q,
}

impl<P: Body, Q: Body> Body for Sum<P, Q> {
    ghost meaning = { λ s. sum_meaning (P.Body.meaning s.first) (Q.Body.meaning s.second) };

    ghost sound = { λ s. sum_sound (P.Body.meaning s.first) (Q.Body.meaning s.second) };

    fn count(&self) -> Result<usize, Refusal> {
        self.extent()?;
        let n = self.first.count()?;
        let k = self.second.count()?;
        Ok(n * k)
    }

    // With k corners in the second, corner i·k + j is corner i of the first plus corner j of the second.
    fn corner(&self, i: usize) -> Result<Vector, Refusal> {
        let count = self.count()?;
        if i >= count {
            return Err(Refusal::OutOfRange);
        }
        let k = self.second.count()?;
        let c = self.first.corner(i / k)?;
        let d = self.second.corner(i % k)?;
        Ok(c.plus(d))
    }

    fn extent(&self) -> Result<Extent, Refusal> {
        let n = self.first.count()?;
        let k = self.second.count()?;
        if n * k > MOST_CORNERS {
            return Err(Refusal::Unfit);
        }
        let first = self.first.extent()?;
        let second = self.second.extent()?;
        first.plus(second).within_reach()
    }

    // The farthest corner of the first plus that of the second: no walk over all the sums.
    fn farthest(&self, n: Vector) -> Result<usize, Refusal> {
        self.extent()?;
        let i = self.first.farthest(n)?;
        let j = self.second.farthest(n)?;
        let k = self.second.count()?;
        Ok(i * k + j)
    }
}

impl<P: Sided, Q: Sided> Sum<P, Q> {
    // What the parts list, if the sum is fit and lists its own.
    #[tactic(auto, using(crate::specs::Sound::sum_lawful))]
    fn listing(&self) -> Result<Listing, Refusal>
        ensures answer { told result ≡ listing_answer (sum_meaning (P.Body.meaning self.now.first) (Q.Body.meaning self.now.second)) (P.Sided.sides self.now.first) (Q.Sided.sides self.now.second) }
        ensures laws { Laws (sum_meaning (P.Body.meaning self.now.first) (Q.Body.meaning self.now.second)) (sum_sides (P.Sided.sides self.now.first) (Q.Sided.sides self.now.second)) }
    {
        self.extent()?;
        let first = counts_of(&self.first)?;
        let second = counts_of(&self.second)?;
        let listing = Listing { first, second };
        if !listing.is_few() {
            return Err(Refusal::Unlisted);
        }
        Ok(listing)
    }

    // Product number t: for each ridge u of the first and, within it, v of the second, u × v and then its opposite.
    fn product(&self, l: Listing, t: usize) -> Result<Vector, Refusal>
        requires { Told l ≡ listing_answer (sum_meaning (P.Body.meaning self.now.first) (Q.Body.meaning self.now.second)) (P.Sided.sides self.now.first) (Q.Sided.sides self.now.second) }
        ensures { told result ≡ product_answer (P.Sided.sides self.now.first) (Q.Sided.sides self.now.second) t }
    {
        if t >= l.products() {
            return Err(Refusal::OutOfRange);
        }
        let u = self.first.ridge(t / 2 / l.second.ridges)?;
        let v = self.second.ridge(t / 2 % l.second.ridges)?;
        let w = u.cross(v);
        if t % 2 == 0 { Ok(w) } else { Ok(w.opposite()) }
    }
}

impl<P: Sided, Q: Sided> Sided for Sum<P, Q> {
    ghost sides = { λ s. sum_sides (P.Sided.sides s.first) (Q.Sided.sides s.second) };

    ghost bounded = { λ s. sum_bounded (P.Sided.sides s.first) (Q.Sided.sides s.second) (P.Sided.bounded s.first) (Q.Sided.bounded s.second) };

    ghost lawful = { λ s. sum_lawful (P.Body.meaning s.first) (Q.Body.meaning s.second) (P.Sided.sides s.first) (Q.Sided.sides s.second) (P.Sided.lawful s.first) (Q.Sided.lawful s.second) };

    fn flat_count(&self) -> Result<usize, Refusal> {
        Ok(self.listing()?.flats())
    }

    fn flat(&self, i: usize) -> Result<Vector, Refusal> {
        let l = self.listing()?;
        if i < l.first.flats {
            return self.first.flat(i);
        }
        let j = i - l.first.flats;
        if j < l.second.flats {
            return self.second.flat(j);
        }
        self.product(l, j - l.second.flats)
    }

    fn ridge_count(&self) -> Result<usize, Refusal> {
        Ok(self.listing()?.ridges())
    }

    fn ridge(&self, i: usize) -> Result<Vector, Refusal> {
        let l = self.listing()?;
        if i < l.first.ridges {
            return self.first.ridge(i);
        }
        self.second.ridge(i - l.first.ridges)
    }
}
