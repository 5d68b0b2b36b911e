// How many flats and ridges the two parts of a sum list.
ghost use Rattle.std.specs.Prelude.{◌≡◌, ◌<◌, ◌^◌};
ghost use Rattle.refusal.specs.Numbers.{told};
ghost use Rattle.body.specs.Sides.{Laws};
ghost use Rattle.sums.specs.Sums.{counts_answer, product_count, flat_count, ridge_count, is_few};

use body::{MOST_FLATS, MOST_RIDGES, Sided};
use refusal::Refusal;

// How many flats and ridges one body lists.
#[derive(Clone, Copy)]
pub(crate) struct Counts {
    pub(crate) flats: usize,
    pub(crate) ridges: usize,
}

// The counts of the two parts.
#[derive(Clone, Copy)]
pub(crate) struct Listing {
    pub(crate) first: Counts,
    pub(crate) second: Counts,
}

// Each part lists few, so every count fits. Asked for here and no ghost field, since the definitions of the sum make values of
// `Counts` from lists of any length, and a ghost field would have to be proved of each.
impl Listing {
    // How many products the ridges of the parts have, each with its opposite.
    pub(crate) fn products(self) -> usize
        requires { product_count self < 2 ^ 64 }
        ensures { result ≡ product_count self }
    {
        2 * (self.first.ridges * self.second.ridges)
    }

    // How many flats the sum has.
    pub(crate) fn flats(self) -> usize
        requires { flat_count self < 2 ^ 64 }
        ensures { result ≡ flat_count self }
    {
        self.first.flats + self.second.flats + self.products()
    }

    // How many ridges the sum has.
    pub(crate) fn ridges(self) -> usize
        requires { ridge_count self < 2 ^ 64 }
        ensures { result ≡ ridge_count self }
    {
        self.first.ridges + self.second.ridges
    }

    // Whether the sum has few enough flats and ridges to list them.
    pub(crate) fn is_few(self) -> bool
        requires flats { flat_count self < 2 ^ 64 }
        requires ridges { ridge_count self < 2 ^ 64 }
        ensures { result ≡ is_few self }
    {
        self.flats() <= MOST_FLATS && self.ridges() <= MOST_RIDGES
    }
}

// How many flats and ridges a body lists.
pub(crate) fn counts_of<B: Sided>(body: &B) -> Result<Counts, Refusal>
    ensures answer { told result ≡ counts_answer (B.Body.meaning body.now) (B.Sided.sides body.now) }
    ensures laws { Laws (B.Body.meaning body.now) (B.Sided.sides body.now) }
{
    let flats = body.flat_count()?;
    let ridges = body.ridge_count()?;
    Ok(Counts { flats, ridges })
}
