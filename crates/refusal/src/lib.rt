// Why a call is turned away: each cause has one number, and one line of words for people.
#![tactic(auto)]

ghost use Rattle.std.specs.Prelude.{◌≡◌, Some};
ghost use Rattle.refusal.specs.Numbers.{number_of, words_of};

use std::error::Error;
use std::fmt;

// Each cause, with its number in the table of refusals.
#[derive(Clone, Copy, PartialEq, Eq, PartialOrd, Ord, Hash, Debug)]
pub enum Refusal {
    Length = 1,
    Layout = 2,
    CornerRows = 3,
    Masks = 4,
    Flats = 5,
    MissingFlat = 6,
    LooseCorner = 7,
    RidgeRows = 8,
    NoRoom = 9,
    Unfit = 13,
    OutOfRange = 14,
    Unlisted = 16,
}

impl Refusal {
    // The number of the cause in the table of refusals.
    pub fn number(self) -> u8
        ensures { result ≡ number_of self }
    {
        self as u8
    }

    // The cause in a few words.
    pub fn words(self) -> &'static str
        ensures { result.now ≡ words_of self }
    {
        match self {
            Refusal::Length => "a capture has 10 to 622 bytes",
            Refusal::Layout => "the trailer does not fit the layout",
            Refusal::CornerRows => "a corner is beyond reach or out of order",
            Refusal::Masks => "a mask is out of order, too wide or has fewer than three corners",
            Refusal::Flats => "a flat is not a plane with every other corner on one side",
            Refusal::MissingFlat => "a flat is missing",
            Refusal::LooseCorner => "a corner lies in fewer than three flats",
            Refusal::RidgeRows => "the ridges are not those in which two flats meet",
            Refusal::NoRoom => "the buffer is too short",
            Refusal::Unfit => "a body is unfit",
            Refusal::OutOfRange =>
                "a number is not below its count, or a direction is beyond range",
            Refusal::Unlisted => "a body has too many flats or ridges to list",
        }
    }
}

// By hand, since a text that thiserror derives has no `output` for clauses to name.
impl fmt::Display for Refusal {
    ghost output = { λ e. Some (words_of e) };

    fn fmt<W: fmt::Write>(&self, f: &mut fmt::Formatter<W>) -> fmt::Result {
        f.write_str(self.words())
    }
}

impl Error for Refusal {}
