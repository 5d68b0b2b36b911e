// How many captures got each answer.
ghost use Rattle.std.specs.Prelude.{◌≡◌, ℕ, IfErr, OnErr, OnOk};
ghost use Rattle.refusal.specs.Numbers.{number_of};

use refusal::Refusal;
use report::Accepted;
use std::fmt;

// Every refusal has a number below this.
const NUMBERS: usize = 17;

// How many captures were accepted, and how many were refused by each number: the line that is printed goes by numbers.
// An array, so that counting an answer takes no memory.
#[derive(Clone, Copy)]
pub(crate) struct Tally {
    accepted: usize,
    refused: [usize; NUMBERS],
}

impl Tally {
    ghost use Rattle.damage.specs.Tally.{refused_by, CountsAccepted, CountsRefused};

    pub(crate) fn new() -> Tally
        ensures accepted { result.accepted ≡ 0 }
        ensures refused { (q : ℕ) → refused_by result q ≡ 0 }
    {
        Tally {
            accepted: 0,
            refused: [0; NUMBERS],
        }
    }

    // How many were refused by a number.
    fn refused_by(&self, number: u8) -> usize
        ensures { result ≡ refused_by self.now number }
    {
        let number = usize::from(number);
        self.refused.get(number).copied().unwrap_or(0)
    }

    // Counts one more capture with this answer.
    pub(crate) fn note(&mut self, finding: Result<Accepted, Refusal>)
        ensures accepted { OnOk finding (CountsAccepted self.old self.new) }
        ensures refused { IfErr finding (λ cause. CountsRefused self.old self.new (number_of cause)) }
        ensures none_accepted { OnErr finding (self.new.accepted ≡ self.old.accepted) }
    {
        match finding {
            Ok(_) => self.accepted = self.accepted.saturating_add(1),
            Err(cause) => {
                let count = &mut self.refused[usize::from(cause.number())];
                *count = count.saturating_add(1);
            }
        }
    }
}

// The count of the accepted, and of each refusal that a capture can get.
impl fmt::Display for Tally {
    fn fmt<W: fmt::Write>(&self, f: &mut fmt::Formatter<W>) -> fmt::Result {
        let accepted = self.accepted;
        write!(f, "accepted {accepted}, refused 1: {}", self.refused_by(1))?;
        for number in 2..=8 {
            write!(f, ", {number}: {}", self.refused_by(number))?;
        }
        Ok(())
    }
}
