// Entries of a list of vectors by number, as every question by number answers.
ghost use Rattle.std.specs.Prelude.{◌≡◌};
ghost use Rattle.refusal.specs.Numbers.{told};
ghost use Rattle.body.specs.Answers.{numbered};

use refusal::Refusal;
use vector::Vector;

// Entry number i, counted from 0.
pub fn entry(list: &[Vector], i: usize) -> Result<Vector, Refusal>
    ensures { told result ≡ numbered list.now i }
{
    list.get(i).copied().ok_or(Refusal::OutOfRange)
}
