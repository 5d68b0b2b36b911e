// A body that is lent answers as the body does, so that a layer can stand over a borrowed body as well as over an owned one.
use crate::body::Body;
use crate::extent::Extent;
use crate::sided::Sided;
use refusal::Refusal;
use vector::Vector;

impl<'a, B: Body> Body for &'a B {
    ghost meaning = { λ s. B.Body.meaning s.now };

    ghost sound = { λ s. B.Body.sound s.now };

    fn count(&self) -> Result<usize, Refusal> {
        (**self).count()
    }

    fn corner(&self, i: usize) -> Result<Vector, Refusal> {
        (**self).corner(i)
    }

    fn extent(&self) -> Result<Extent, Refusal> {
        (**self).extent()
    }

    fn farthest(&self, n: Vector) -> Result<usize, Refusal> {
        (**self).farthest(n)
    }
}

impl<'a, B: Sided> Sided for &'a B {
    ghost sides = { λ s. B.Sided.sides s.now };

    ghost bounded = { λ s. B.Sided.bounded s.now };

    ghost lawful = { λ s. B.Sided.lawful s.now };

    fn flat_count(&self) -> Result<usize, Refusal> {
        (**self).flat_count()
    }

    fn flat(&self, i: usize) -> Result<Vector, Refusal> {
        (**self).flat(i)
    }

    fn ridge_count(&self) -> Result<usize, Refusal> {
        (**self).ridge_count()
    }

    fn ridge(&self, i: usize) -> Result<Vector, Refusal> {
        (**self).ridge(i)
    }
}
