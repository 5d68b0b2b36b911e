// How a capture of an allowed size is laid out: corner rows, flat rows, ridge rows, trailer.
ghost use Rattle.std.specs.Prelude.{◌≡◌, true, is_some, IfSome};
ghost use Rattle.rows.specs.Sizes.{sizes};
ghost use Rattle.rows.specs.Trailers.{starts, distances, trailer_bytes};

use crate::counts::Counts;
use crate::ridge::RidgeRow;
use crate::row::Row;
use crate::trailer::LEN;
use vector::Vector;

// Counts that the format allows.
#[derive(Clone, Copy)]
pub(crate) struct Layout {
    pub(crate) counts: Counts,
    ghost allowed: { sizes counts ≡ true },
}

impl Layout {
    // The layout of so many rows, if the format allows them: an `if`, since the value can be made only where the test holds.
    pub(crate) fn of(counts: Counts) -> Option<Layout>
        ensures known { is_some result ≡ sizes counts }
        ensures same { IfSome result (λ l. l.counts ≡ counts) }
    {
        if counts.are_allowed() {
            Some(Layout { counts })
        } else {
            None
        }
    }

    // Where the first row of each table lies, in bytes.
    pub(crate) fn starts(self) -> Counts
        ensures { result ≡ starts self.counts }
    {
        let flats = Vector::WIDTH * self.counts.corners;
        let ridges = flats + u32::WIDTH * self.counts.flats;
        Counts {
            corners: 0,
            flats,
            ridges,
        }
    }

    // How far back from the trailer the first row of each table lies, in bytes.
    pub(crate) fn distances(self) -> Counts
        ensures { result ≡ distances self.counts }
    {
        let ridges = RidgeRow::WIDTH * self.counts.ridges;
        let flats = u32::WIDTH * self.counts.flats + ridges;
        let corners = Vector::WIDTH * self.counts.corners + flats;
        Counts {
            corners,
            flats,
            ridges,
        }
    }

    // The bytes of the trailer.
    pub(crate) fn trailer_bytes(self) -> [u8; LEN]
        ensures { result ≡ trailer_bytes self.counts }
    {
        let back = self.distances();
        let [a, b] = (back.corners as u16).to_le_bytes();
        let [c, d] = (back.flats as u16).to_le_bytes();
        let [e, f] = (back.ridges as u16).to_le_bytes();
        let Counts {
            corners,
            flats,
            ridges,
        } = self.counts;
        [
            corners as u8,
            flats as u8,
            ridges as u8,
            1,
            a,
            b,
            c,
            d,
            e,
            f,
        ]
    }
}
