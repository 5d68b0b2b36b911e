// What an accepted capture was found to be, and its words.
ghost use Rattle.std.specs.Prelude.{Some};
ghost use Rattle.report.specs.Texts.{accepted_words};

use rows::Counts;
use std::fmt;

// A capture that was accepted: its counts, how many bytes its solid was saved as, and whether they are the bytes that were read.
#[derive(Clone, Copy, PartialEq, Eq, Hash, Debug)]
pub struct Accepted {
    pub counts: Counts,
    pub saved: usize,
    pub same: bool,
}

impl fmt::Display for Accepted {
    ghost output = { λ a. Some (accepted_words a) };

    fn fmt<W: fmt::Write>(&self, f: &mut fmt::Formatter<W>) -> fmt::Result {
        let Accepted {
            counts,
            saved,
            same,
        } = *self;
        let verdict = if same { "the same" } else { "not the same" };
        write!(
            f,
            "accepted: {} corners, {} flats, {} ridges; saved again: {saved} bytes, {verdict}",
            counts.corners, counts.flats, counts.ridges
        )
    }
}
