// A sided body is a body which also tells its flats and ridges.
ghost use Rattle.std.specs.Prelude.{◌≡◌};
ghost use Rattle.refusal.specs.Numbers.{told};
ghost use Rattle.body.specs.Sides.{Sides, Bounded, Laws};
ghost use Rattle.body.specs.Answers.{flat_count_answer, flat_answer, ridge_count_answer, ridge_answer};

use crate::body::Body;
use refusal::Refusal;
use vector::Vector;

// A body with a list of flats and one of ridges, or with too many to list.
pub trait Sided: Body {
    // its flats and ridges, or that they are too many to list
    ghost sides: { Self → Sides };

    // at most 20,000 flats within ±800,000,000 and 1,000 ridges within ±20,000
    ghost bounded: { (s : Self) → Bounded (sides s) };

    // How many flats it has.
    fn flat_count(&self) -> Result<usize, Refusal>
        ensures answer { told result ≡ flat_count_answer (Self.Body.meaning self.now) (sides self.now) }
        ensures laws { Laws (Self.Body.meaning self.now) (sides self.now) };

    // Flat number i (the outer normal of a facet, or another direction).
    fn flat(&self, i: usize) -> Result<Vector, Refusal>
        ensures answer { told result ≡ flat_answer (Self.Body.meaning self.now) (sides self.now) i }
        ensures laws { Laws (Self.Body.meaning self.now) (sides self.now) };

    // How many ridges it has.
    fn ridge_count(&self) -> Result<usize, Refusal>
        ensures answer { told result ≡ ridge_count_answer (Self.Body.meaning self.now) (sides self.now) }
        ensures laws { Laws (Self.Body.meaning self.now) (sides self.now) };

    // Ridge number i (the direction of an edge, or another vector).
    fn ridge(&self, i: usize) -> Result<Vector, Refusal>
        ensures answer { told result ≡ ridge_answer (Self.Body.meaning self.now) (sides self.now) i }
        ensures laws { Laws (Self.Body.meaning self.now) (sides self.now) };

    // its flats and ridges keep the two laws over its corners; each clause `laws` says the same, so that whoever asks is told
    ghost lawful: { (s : Self) → Laws (Self.Body.meaning s) (sides s) };
}
