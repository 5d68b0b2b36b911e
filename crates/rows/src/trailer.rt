// The trailer of a capture: counts, edition and distances back to the first row of each table.
ghost use Rattle.std.specs.Prelude.{◌≡◌, ◌+◌, ◌≤◌, length, is_some, IfSome};
ghost use Rattle.rows.specs.Trailers.{trailer_at, layout};

use crate::bytes::u16_at;
use crate::counts::Counts;
use crate::layout::Layout;

// How many bytes a trailer takes.
pub(crate) const LEN: usize = 10;

#[derive(Clone, Copy)]
pub(crate) struct Trailer {
    pub(crate) counts: Counts,
    pub(crate) edition: u8,
    pub(crate) back: Counts,
}

impl Trailer {
    // The trailer that stands at a place.
    pub(crate) fn at(bytes: &[u8], at: usize) -> Trailer
        requires { at + LEN ≤ length bytes.now }
        ensures { result ≡ trailer_at bytes.now at }
    {
        let counts = Counts {
            corners: usize::from(bytes[at]),
            flats: usize::from(bytes[at + 1]),
            ridges: usize::from(bytes[at + 2]),
        };
        let edition = bytes[at + 3];
        let back = Counts {
            corners: usize::from(u16_at(bytes, at + 4)),
            flats: usize::from(u16_at(bytes, at + 6)),
            ridges: usize::from(u16_at(bytes, at + 8)),
        };
        Trailer {
            counts,
            edition,
            back,
        }
    }

    // How a capture of this length is laid out, if that is as its trailer says.
    pub(crate) fn layout(self, len: usize) -> Option<Layout>
        ensures known { is_some result ≡ layout len self }
        ensures same { IfSome result (λ l. l.counts ≡ self.counts) }
    {
        let layout = Layout::of(self.counts)?;
        self.fits(layout, len).then_some(layout)
    }

    // Whether edition, length and distances are those of the layout of its counts.
    fn fits(self, of: Layout, len: usize) -> bool
        requires { of.counts ≡ self.counts }
        ensures { result ≡ layout len self }
    {
        let back = of.distances();
        self.edition == 1 && len == back.corners + LEN && self.back == back
    }
}
